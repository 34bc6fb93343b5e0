// Load: the image of a program, into a machine.
ghost use Rattle.std.specs.Prelude.{◌≡◌, [], ◌∷◌, Ok, OnErr};
ghost use Rattle.instructions.specs.Checks.{first_refusal};
ghost use Rattle.ijvm.specs.Machines.{machine_state, memory_in, loan_of};
ghost use Rattle.ijvm.specs.Start.{memory_checks, after_start};
ghost use Rattle.ijvm.specs.Reached.{Reached, Continues, LaterLoadRefused, Simulates};
ghost use Rattle.image.specs.Format.{numbers_of, protected_word_of};
ghost use Rattle.image.specs.Load.{by_memory, load_of};
ghost use Rattle.image.specs.Calls.{after_load, load_transition};
ghost use Rattle.image.specs.WholeStatement.{beginning_in, start_in, BeginsHistory, ExtendsHistory};

use crate::{Answer, Call, Image, LoadRefusal};
use ijvm::Machine;
use memory::Memory;

// A load by the machine's own reply.
#[tactic(auto, using(crate::proofs::Loads::image_refused, crate::proofs::Loads::memory_asked))]
fn loaded<M: Memory>(machine: &mut Machine<M>, bytes: &[u8]) -> Result<(), LoadRefusal>
    ensures answer { result ≡ load_of bytes.now (machine_state machine.old).micro.memory }
    ensures after { machine_state machine.new ≡ after_load bytes.now (machine_state machine.old) result }
    ensures kept { OnErr result (memory_in machine.new ≡ memory_in machine.old) }
    ensures reached { result ≡ Ok tt → Reached (beginning_in bytes.now) [] (start_in bytes.now) (machine_state machine.new) }
    ensures loan { loan_of machine.new ≡ loan_of machine.old }
{
    let image = Image::of(bytes)?;
    machine.load(&image)?;
    Ok(())
}

/// Loads the image in these bytes into a machine: fills the memory with its protected words and zeros, protects them, and starts its main. Refused with 20 to 26, the first that applies; then nothing changes. A memory is loaded once: its mark is then above 0, so every later load is refused (docs/image.md).
#[tactic(auto, using(crate::proofs::Loads::load_begins, crate::proofs::Loads::load_continues, crate::proofs::Loads::load_simulates, crate::proofs::Loads::load_extends_history, crate::proofs::Histories::later_load_refused))]
pub fn load<M: Memory>(machine: &mut Machine<M>, bytes: &[u8]) -> Result<(), LoadRefusal>
    ensures answer { result ≡ load_of bytes.now (machine_state machine.old).micro.memory }
    ensures after { machine_state machine.new ≡ after_load bytes.now (machine_state machine.old) result }
    ensures kept { OnErr result (memory_in machine.new ≡ memory_in machine.old) }
    ensures begins { BeginsHistory bytes.now result (machine_state machine.new) }
    ensures later { LaterLoadRefused result (machine_state machine.old) }
    ensures simulates { Simulates (load_transition bytes.now) result (machine_state machine.old) (machine_state machine.new) }
    ensures continues { Continues (load_transition bytes.now) result (machine_state machine.old) (machine_state machine.new) }
    ensures extends_history { ExtendsHistory (Call.Load bytes.entry ∷ []) (Answer.Loaded result ∷ []) (machine_state machine.old) (machine_state machine.new) }
    ensures loan { loan_of machine.new ≡ loan_of machine.old }
{
    loaded(machine, bytes)
}
