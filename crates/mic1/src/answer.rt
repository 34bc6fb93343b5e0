// What the program answers to its input.
use crate::ending::Ending;
use control::Registers;
use ijvm::Machine;
use memory::WordMemory;
use report::{MOST_BYTES, memory_size, run_image};
use std::alloc::Global;
use std::io::Write;

// The most steps that are made.
const MOST_STEPS: u64 = 1_000_000;

/// As many bytes of the input are read: one more than the image may have, which tells whether the input is longer (docs/program.md).
pub const READ_BYTES: u64 = MOST_BYTES as u64 + 1;

/// Runs the image in the input, writes the four lines of its report to `out`, and to `errors` why main has not returned, if it has not. Where `errors` takes no text, that is left out; the four lines and the answer are the same (docs/program.md).
pub fn answer<O: Write, E: Write>(
    heap: Global,
    input: &[u8],
    out: &mut O,
    errors: &mut E,
) -> anyhow::Result<()> {
    let image = input.get(..MOST_BYTES).unwrap_or(input);
    let mut words = vec![in heap; 0u32; memory_size(image)]?;
    let memory = WordMemory::make(words.as_mut_slice());
    let mut machine = Machine::power(memory, Registers::default(), 0, 0);
    let report = run_image(&mut machine, image, MOST_STEPS);
    writeln!(out, "{report}")?;
    if input.len() > MOST_BYTES {
        let _ = writeln!(
            errors,
            "the input is longer than {MOST_BYTES} bytes: only these were read"
        );
    }
    if let Some(ending) = Ending::of(&mut machine, image, &report) {
        let _ = writeln!(errors, "{ending}");
    }
    Ok(())
}
