// How a datapath starts.
ghost use Rattle.std.specs.Prelude.{◌≡◌};
ghost use Rattle.datapath.specs.Go.{power_of};
ghost use Rattle.datapath.specs.Held.{registers_in, mbr_in, state_of};
ghost use Rattle.datapath.specs.declared.register_file.RegisterFile.{RegisterFile};

use crate::{Datapath, RegisterFile, Sequencer, power_refusal};
use control::Registers;

// The sequencer of a start: at an MPC, and at 0 where power refuses it; with counter 0 and nothing under way.
fn sequencer_at(mpc: u16) -> Sequencer
    ensures { (f : RegisterFile) → state_of f result ≡ power_of (registers_in f.words) (mbr_in f.words) mpc }
{
    Sequencer {
        counter: 0,
        mpc: if power_refusal(mpc).is_some() { 0 } else { mpc },
        begun_at: 0,
        write: false,
        read: false,
        fetch: false,
        idle: true,
    }
}

// What a datapath that starts holds beside its memory.
pub(crate) fn started(registers: &Registers, mbr: u8, mpc: u16) -> (RegisterFile, Sequencer)
    ensures { state_of result.0 result.1 ≡ power_of registers.now mbr mpc }
{
    (RegisterFile::of(registers, mbr), sequencer_at(mpc))
}

impl<M> Datapath<M> {
    /// Starts the machine anew, as `power` does, with these registers, MBR and MPC. The memory stays as it is (docs/cycle.md).
    pub fn start(&mut self, registers: &Registers, mbr: u8, mpc: u16)
        ensures memory { self.new.memory ≡ self.old.memory }
        ensures state { state_of self.new.file self.new.sequencer ≡ power_of registers.now mbr mpc }
    {
        let (file, sequencer) = started(registers, mbr, mpc);
        self.file = file;
        self.sequencer = sequencer;
    }
}
