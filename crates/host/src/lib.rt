// The kit for a host that is not written in Rattle: one function, over numbers and slices. A slice crosses as a pointer and a length.
#![tactic(auto)]

ghost use Rattle.std.specs.Prelude.{◌≡◌, ◌^◌, ◌==◌, length, false, true, IsErr, if◌then◌else◌};
ghost use Rattle.image.specs.Load.{load_of};
ghost use Rattle.memory.specs.Cells.{made_of, usable, unused};
ghost use Rattle.report.specs.Report.{report_by, new_machine, memory_after};
ghost use Rattle.host.specs.Results.{top_number, results_of, ResultsOfTheInstructionMachine};

use report::{Report, run_in};

// The top as a number; 2^31 where there is none.
fn top_number(top: Option<i32>) -> u64
    ensures { result ≡ top_number top }
{
    top.map_or(0x8000_0000, |top| i64::from(top).cast_unsigned())
}

// The four values of a report.
fn results_of(report: &Report) -> [u64; 4]
    ensures { result ≡ results_of report.now }
{
    [
        u64::from(report.end),
        report.steps,
        report.cycles,
        top_number(report.top),
    ]
}

/// Makes a memory over the buffer of bytes, loads the image and runs up to so many steps; where there is room for just four results, writes them and answers true. Else it answers false and changes nothing. If load accepts the image, the results are those of the instruction machine. The buffer then holds the words of the memory as they are, without the write that may be under way; if load refuses the image, every byte stays as it was (docs/program.md).
#[tactic(auto, using(crate::proofs::Told::told))]
#[unsafe(no_mangle)]
pub extern "C" fn mic1_run(image: &[u8], memory: &mut [u8], steps: u64, results: &mut [u64]) -> bool
    ensures answer { result ≡ (length results.old == 4) }
    ensures results { results.new ≡ (if result then results_of (report_by image.now steps (new_machine (made_of 4 (2 ^ 8) memory.old))) else results.old) }
    ensures words { usable 4 (2 ^ 8) memory.new ≡ (if result then (memory_after image.now steps (new_machine (made_of 4 (2 ^ 8) memory.old))).words else usable 4 (2 ^ 8) memory.old) }
    ensures unused { unused 4 memory.new ≡ unused 4 memory.old }
    ensures instruction_machine { result ≡ true → ResultsOfTheInstructionMachine image.now steps (new_machine (made_of 4 (2 ^ 8) memory.old)) results.new }
    ensures no_room { result ≡ false → memory.new ≡ memory.old }
    ensures kept { IsErr (load_of image.now (made_of 4 (2 ^ 8) memory.old)) → memory.new ≡ memory.old }
{
    if results.len() != 4 {
        return false;
    }
    let report = run_in(memory, image, steps);
    results.copy_from_slice(&results_of(&report));
    true
}
