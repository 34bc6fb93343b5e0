// An image is loaded and run.
ghost use Rattle.std.specs.Prelude.{◌≡◌, [], ◌∷◌, IsErr, None};
ghost use Rattle.ijvm.specs.Machines.{machine_state, memory_in, loan_of};
ghost use Rattle.image.specs.Calls.{load_reply};
ghost use Rattle.image.specs.Load.{load_of};
ghost use Rattle.image.specs.WholeStatement.{ExtendsHistory};
ghost use Rattle.memory.specs.Cells.{made_of, usable, unused};
ghost use Rattle.report.specs.Report.{memory_size_of, loaded_run, report_by, new_machine, memory_after, ReportsTheInstructionMachine, RunHasHistory};

use crate::Report;
use control::Registers;
use ijvm::{Machine, Ran};
use image::{Answer, Call, perform};
use memory::{Cell, LentMemory, Memory};

/// The most bytes that the programs read of an image: 64 blocks (docs/program.md).
pub const MOST_BYTES: usize = 32_768;

/// The size of the memory for an image, in words: the image's word 1, if that is there and from 16 to 8,192; else 8,192 (docs/program.md).
pub fn memory_size(bytes: &[u8]) -> usize
    ensures { result ≡ memory_size_of bytes.now }
{
    let word = bytes.get(4..8).and_then(|word| word.try_into().ok());
    match word.map(u32::from_be_bytes) {
        Some(size @ 16..=8192) => size as usize,
        _ => 8192,
    }
}

// The two calls: load the image, and run up to so many steps.
fn load_and_run<M: Memory>(machine: &mut Machine<M>, bytes: &[u8], steps: u64) -> [Answer; 2]
    ensures answers { result ≡ Answer.Loaded (load_reply bytes.now (machine_state machine.old)).answer ∷ (Answer.Ran (loaded_run bytes.now steps (machine_state machine.old)).answer ∷ []) }
    ensures after { machine_state machine.new ≡ (loaded_run bytes.now steps (machine_state machine.old)).after }
    ensures history { RunHasHistory bytes.now steps (machine_state machine.old) (machine_state machine.new) }
    ensures extends_history { ExtendsHistory (Call.Load bytes.entry ∷ (Call.Run steps ∷ [])) result (machine_state machine.old) (machine_state machine.new) }
    ensures kept { IsErr (load_of bytes.now (machine_state machine.old).micro.memory) → (machine_state machine.old).pool ≡ None → memory_in machine.new ≡ memory_in machine.old }
    ensures loan { loan_of machine.new ≡ loan_of machine.old }
{
    let none = Ran {
        steps: 0,
        stopped: None,
    };
    let mut answers = [Answer::Loaded(Ok(())), Answer::Ran(none)];
    perform(
        machine,
        &[Call::Load(bytes), Call::Run(steps)],
        &mut answers,
    );
    answers
}

/// Loads an image into a machine and runs up to so many steps, as a list of these two calls; what the program prints of that. If load accepts the image, the report is the one of the instruction machine, and the machine has the image's history, with the run. If load refuses it, the report has load's number, and a machine with no program loaded keeps its memory. A machine in which a program is loaded refuses the image too, and then runs its own program for up to so many steps, of which the report says nothing (docs/program.md).
#[tactic(auto, using(crate::proofs::RunHistory::reports))]
pub fn run_image<M: Memory>(machine: &mut Machine<M>, bytes: &[u8], steps: u64) -> Report
    ensures report { result ≡ report_by bytes.now steps (machine_state machine.old) }
    ensures instruction_machine { ReportsTheInstructionMachine bytes.now steps (machine_state machine.old) result }
    ensures history { RunHasHistory bytes.now steps (machine_state machine.old) (machine_state machine.new) }
    ensures after { machine_state machine.new ≡ (loaded_run bytes.now steps (machine_state machine.old)).after }
    ensures extends_history { ExtendsHistory (Call.Load bytes.entry ∷ (Call.Run steps ∷ [])) (Answer.Loaded (load_reply bytes.now (machine_state machine.old)).answer ∷ (Answer.Ran (loaded_run bytes.now steps (machine_state machine.old)).answer ∷ [])) (machine_state machine.old) (machine_state machine.new) }
    ensures kept { IsErr (load_of bytes.now (machine_state machine.old).micro.memory) → (machine_state machine.old).pool ≡ None → memory_in machine.new ≡ memory_in machine.old }
    ensures loan { loan_of machine.new ≡ loan_of machine.old }
{
    match load_and_run(machine, bytes, steps) {
        [Answer::Loaded(Err(refusal)), _] => Report {
            end: refusal.number(),
            steps: 0,
            cycles: 0,
            top: None,
        },
        [_, Answer::Ran(ran)] => Report {
            end: ran.number(),
            steps: ran.steps,
            cycles: machine.state().counter,
            top: machine.top().map(|top| top.cast_signed()),
        },
        // never: the second answer is that of the run, as is proved
        _ => Report {
            end: 0,
            steps: 0,
            cycles: 0,
            top: None,
        },
    }
}

// A report, and the buffer that was lent for it.
#[derive(Drop)]
struct Lent<'a, C> {
    report: Report,
    cells: &'a mut [C],
}

// Runs an image in a lent buffer, which comes back.
fn run_over<'a, C: Cell>(cells: &'a mut [C], bytes: &[u8], steps: u64) -> Lent<'a, C>
    ensures report { result.report ≡ report_by bytes.now steps (new_machine (made_of C.PER_WORD C.base (C.digits cells.old))) }
    ensures instruction_machine { ReportsTheInstructionMachine bytes.now steps (new_machine (made_of C.PER_WORD C.base (C.digits cells.old))) result.report }
    ensures history { RunHasHistory bytes.now steps (new_machine (made_of C.PER_WORD C.base (C.digits cells.old))) (loaded_run bytes.now steps (new_machine (made_of C.PER_WORD C.base (C.digits cells.old)))).after }
    ensures lender { result.cells.ghost_name ≡ cells.entry.ghost_name }
    ensures words { usable C.PER_WORD C.base (C.digits result.cells.now) ≡ (memory_after bytes.now steps (new_machine (made_of C.PER_WORD C.base (C.digits cells.old)))).words }
    ensures unused { unused C.PER_WORD (C.digits result.cells.now) ≡ unused C.PER_WORD (C.digits cells.old) }
    ensures kept { IsErr (load_of bytes.now (made_of C.PER_WORD C.base (C.digits cells.old))) → result.cells.now ≡ cells.old }
{
    let mut machine = Machine::power(LentMemory::make(cells), Registers::default(), 0, 0);
    let report = run_image(&mut machine, bytes, steps);
    Lent {
        report,
        cells: machine.into_memory().into_cells(),
    }
}

/// Runs an image for up to so many steps in a memory over a lent buffer, of words or of bytes; what the program prints of that. If load accepts the image, the report is the one of the instruction machine, and the run has the image's history: of that run `report` and `words` tell the outcome, since the machine itself is gone. Afterwards the buffer holds the words of the memory as they are, without the write that may be under way, and its unused cells as they were; if load refuses the image, every cell as it was (docs/program.md).
pub fn run_in<C: Cell>(cells: &mut [C], bytes: &[u8], steps: u64) -> Report
    ensures report { result ≡ report_by bytes.now steps (new_machine (made_of C.PER_WORD C.base (C.digits cells.old))) }
    ensures instruction_machine { ReportsTheInstructionMachine bytes.now steps (new_machine (made_of C.PER_WORD C.base (C.digits cells.old))) result }
    ensures history { RunHasHistory bytes.now steps (new_machine (made_of C.PER_WORD C.base (C.digits cells.old))) (loaded_run bytes.now steps (new_machine (made_of C.PER_WORD C.base (C.digits cells.old)))).after }
    ensures words { usable C.PER_WORD C.base (C.digits cells.new) ≡ (memory_after bytes.now steps (new_machine (made_of C.PER_WORD C.base (C.digits cells.old)))).words }
    ensures unused { unused C.PER_WORD (C.digits cells.new) ≡ unused C.PER_WORD (C.digits cells.old) }
    ensures kept { IsErr (load_of bytes.now (made_of C.PER_WORD C.base (C.digits cells.old))) → cells.new ≡ cells.old }
{
    run_over(cells, bytes, steps).report
}
