// The calls of a datapath that begin and perform cycles.
ghost use Rattle.std.specs.Prelude.{◌≡◌, ◌+◌, ◌%◌, ◌^◌, ◌<◌, IfOk, IfErr, OnErr, Ok, Err, slice_index};
ghost use Rattle.control.specs.Control.{fields_of};
ghost use Rattle.control.specs.Numbers.{numbers_in};
ghost use Rattle.control.specs.PreparedWords.{word_of};
ghost use Rattle.datapath.specs.Cycle.{cycle_of, answer_of, after_of};
ghost use Rattle.datapath.specs.Go.{go_of, power_refusal_of, power_of};
ghost use Rattle.datapath.specs.Held.{state_of, micro_with};
ghost use Rattle.datapath.specs.Datapaths.{micro_of};

use crate::complete::{accessed, fetched};
use crate::computing::computed;
use crate::starts::started;
use crate::{Datapath, Fault, PowerRefusal, RegisterFile, Sequencer};
use control::{ControlStore, PreparedWord, Registers};
use memory::Memory;

/// Why a machine at this MPC starts at MPC 0: refused with 11 where the MPC is above 511, else none (docs/cycle.md).
pub fn power_refusal(mpc: u16) -> Option<PowerRefusal>
    ensures { result ≡ power_refusal_of mpc }
{
    (mpc > 511).then_some(PowerRefusal::WrongMpc)
}

// The control word at MPC.
#[tactic(auto, using(crate::proofs::SlotLaws::at_mpc))]
fn word_at_mpc<'a>(store: &'a ControlStore, at: &Sequencer) -> &'a PreparedWord
    ensures { word_of result.now ≡ fields_of (slice_index (numbers_in store.now) at.now.mpc) }
{
    store.prepared(at.mpc)
}

// Where the microprogram is after a word, and what that word began.
#[inline(always)]
fn sequencer_after(word: &PreparedWord, at: &Sequencer, mpc: u16) -> Sequencer
    requires { mpc < 2 ^ 9 }
    ensures counter { result.counter ≡ (at.now.counter + 1) % 2 ^ 64 }
    ensures mpc { result.mpc ≡ mpc }
    ensures begun_at { result.begun_at ≡ at.now.mpc }
    ensures write { result.write ≡ (word_of word.now).write }
    ensures read { result.read ≡ (word_of word.now).read }
    ensures fetch { result.fetch ≡ (word_of word.now).fetch }
{
    Sequencer {
        counter: at.counter.wrapping_add(1),
        mpc,
        begun_at: at.mpc,
        write: word.word.write,
        read: word.word.read,
        fetch: word.word.fetch,
        idle: word.idle,
    }
}

// One cycle: where the microprogram is after it. Refused, it changes nothing.
#[inline(always)]
fn cycle_from<M: Memory>(
    memory: &mut M,
    file: &mut RegisterFile,
    store: &ControlStore,
    at: &Sequencer,
) -> Result<Sequencer, Fault>
    ensures done { IfOk result (λ next. cycle_of (numbers_in store.now) (micro_with M.Memory.meaning memory.old file.old at.now) ≡ Ok (micro_with M.Memory.meaning memory.new file.new next)) }
    ensures fault { IfErr result (λ fault. cycle_of (numbers_in store.now) (micro_with M.Memory.meaning memory.old file.old at.now) ≡ Err fault) }
    ensures memory { OnErr result (memory.new ≡ memory.old) }
    ensures file { OnErr result (file.new ≡ file.old) }
    ensures loan { M.Memory.loan memory.new ≡ M.Memory.loan memory.old }
{
    let word = word_at_mpc(store, at);
    let (c_bus, mpc) = computed(word, file);
    // nothing is under way in about half of all cycles
    if at.idle {
        file.write_from_c_bus(word, c_bus);
        return Ok(sequencer_after(word, at, mpc));
    }
    let byte = fetched(memory, file, at)?;
    let read = accessed(memory, file, at)?;
    file.write_from_c_bus(word, c_bus);
    file.arrive(byte, read);
    Ok(sequencer_after(word, at, mpc))
}

impl<M: Memory> Datapath<M> {
    /// A machine over a memory as it is, with these registers, MBR and MPC, counter 0 and nothing under way. Where `power_refusal` refuses the MPC, it starts at MPC 0 (docs/cycle.md).
    pub fn power(memory: M, registers: Registers, mbr: u8, mpc: u16) -> Datapath<M>
        ensures memory { result.memory ≡ memory }
        ensures state { state_of result.file result.sequencer ≡ power_of registers mbr mpc }
    {
        let (file, sequencer) = started(&registers, mbr, mpc);
        Datapath {
            memory,
            file,
            sequencer,
        }
    }

    /// One cycle by a control store. Refused with a fault where the memory refuses the fetch, the read or the write under way; then everything stays as it is, each cell of the memory too (docs/cycle.md).
    pub fn cycle(&mut self, store: &ControlStore) -> Result<(), Fault>
        ensures answer { result ≡ answer_of (cycle_of (numbers_in store.now) (micro_of M.Memory.meaning self.old)) }
        ensures after { micro_of M.Memory.meaning self.new ≡ after_of (micro_of M.Memory.meaning self.old) (cycle_of (numbers_in store.now) (micro_of M.Memory.meaning self.old)) }
        ensures kept { OnErr result (self.new ≡ self.old) }
        ensures loan { M.Memory.loan self.new.memory ≡ M.Memory.loan self.old.memory }
    {
        self.sequencer = cycle_from(&mut self.memory, &mut self.file, store, &self.sequencer)?;
        Ok(())
    }

    /// Up to n cycles by a control store: how many were done, and the fault of the one that stopped them, if one did. The cycles before it stay done; it changed nothing. Where none was done, the memory is as it was, in every cell (docs/cycle.md).
    #[tactic(auto, using(crate::proofs::Repeated::go_start, crate::proofs::Repeated::go_done, crate::proofs::Repeated::go_refused))]
    #[inline(never)]
    pub fn go(&mut self, store: &ControlStore, n: u64) -> (u64, Option<Fault>)
        ensures done { result.0 ≡ (go_of (numbers_in store.now) n (micro_of M.Memory.meaning self.old)).done }
        ensures fault { result.1 ≡ (go_of (numbers_in store.now) n (micro_of M.Memory.meaning self.old)).fault }
        ensures after { micro_of M.Memory.meaning self.new ≡ (go_of (numbers_in store.now) n (micro_of M.Memory.meaning self.old)).after }
        ensures kept { result.0 ≡ 0 → self.new.memory ≡ self.old.memory }
        ensures loan { M.Memory.loan self.new.memory ≡ M.Memory.loan self.old.memory }
    {
        let mut at = self.sequencer;
        for done in 0..n {
            match cycle_from(&mut self.memory, &mut self.file, store, &at) {
                Ok(next) => at = next,
                Err(fault) => {
                    self.sequencer = at;
                    return (done, Some(fault));
                }
            }
        }
        self.sequencer = at;
        (n, None)
    }
}
