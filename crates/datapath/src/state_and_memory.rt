// The state of a datapath, and its memory.
ghost use Rattle.std.specs.Prelude.{◌≡◌};
ghost use Rattle.datapath.specs.Held.{access_under_way, fetch_under_way, state_of};

use crate::{DataAccess, Datapath, FetchAccess, Sequencer, State};
use control::Registers;
use memory::Memory;

// The read or write under way, if there is one.
fn access(r: &Registers, at: &Sequencer) -> Option<DataAccess>
    ensures { result ≡ access_under_way r.now at.now }
{
    if at.write {
        Some(DataAccess::Write {
            address: r.mar,
            mpc: at.begun_at,
            word: r.mdr,
        })
    } else {
        at.read.then_some(DataAccess::Read {
            address: r.mar,
            mpc: at.begun_at,
        })
    }
}

// The fetch under way, if there is one.
fn fetch(r: &Registers, at: &Sequencer) -> Option<FetchAccess>
    ensures { result ≡ fetch_under_way r.now at.now }
{
    at.fetch.then_some(FetchAccess {
        address: r.pc,
        mpc: at.begun_at,
    })
}

impl<M: Memory> Datapath<M> {
    /// The state: the registers, MBR, MPC, the counter, and what is under way (docs/cycle.md).
    pub fn state(&self) -> State
        ensures { result ≡ state_of self.now.file self.now.sequencer }
    {
        let registers = self.file.registers();
        let at = &self.sequencer;
        State {
            registers,
            mbr: self.file.mbr(),
            mpc: at.mpc,
            counter: at.counter,
            access: access(&registers, at),
            fetch: fetch(&registers, at),
        }
    }

    /// The memory, as the cycles left it. A write under way is not done by that (docs/cycle.md).
    pub fn into_memory(self) -> M
        ensures { result ≡ self.memory }
    {
        let Datapath {
            memory,
            file: _,
            sequencer: _,
        } = self;
        memory
    }
}
