// A program on the machine, cycle by cycle.
use crate::changes::Changes;
use crate::code::Code;
use crate::instruction::Instruction;
use crate::labels::label;
use crate::performed::{Performed, Place};
use crate::summary::print_loops;
use crate::way::Way;
use control::{ControlStore, Registers};
use ijvm::Machine;
use image::{Image, LoadRefusal};
use instructions::StepRefusal;
use memory::{Memory, WordMemory};
use microprogram::published_store;
use notation::Operations;
use report::memory_size;

// The most cycles that are traced. No instruction takes fewer than two, so with half as many instructions and one more they are passed.
const MOST_CYCLES: u64 = 10_000;

const MOST_INSTRUCTIONS: u64 = MOST_CYCLES / 2 + 1;

// Why a trace ends.
#[derive(Clone, Copy, PartialEq, Eq)]
enum Ending {
    // the next step is refused
    Refused(StepRefusal),
    // the next instruction would take more cycles than are left to trace
    Cut,
}

// Does so many cycles, and prints each.
fn cycles<M: Memory>(
    rt: &impl Print,
    machine: &mut Machine<M>,
    store: &ControlStore,
    count: u64,
) -> anyhow::Result<()> {
    for _ in 0..count {
        let before = machine.state();
        let word = store.word(before.mpc);
        machine.cycle(store)?;
        let after = machine.state();
        let number = after.counter;
        let line = label(before.mpc);
        let operations = Operations(&word);
        let changes = Changes { before, after };
        println!(rt; "{number} {line}: {operations}{changes}")?;
    }
    Ok(())
}

// Where the program of a machine is.
fn place<M: Memory>(machine: &Machine<M>) -> Place {
    let Registers { pc, lv, .. } = machine.state().registers;
    Place {
        address: pc,
        frame: lv,
    }
}

// Performs the instructions of two machines with the same program. One is stepped, and tells how many cycles the instruction takes or why it is refused; the other does these cycles one by one.
fn trace<R: Print + AllocGlobal, M: Memory>(
    rt: &R,
    stepped: &mut Machine<M>,
    traced: &mut Machine<M>,
    code: Code<'_>,
) -> anyhow::Result<(Vec<Performed>, Ending)> {
    let mut performed = Vec::new(rt.alloc());
    let store = published_store();
    for _ in 0..MOST_INSTRUCTIONS {
        let start = place(traced);
        let pc = start.address;
        let instruction = Instruction(code.bytes(pc));
        let count = match stepped.step() {
            Ok(count) => count,
            Err(refusal) => {
                println!(rt; "PC {pc}: {instruction}: {refusal}")?;
                return Ok((performed, Ending::Refused(refusal)));
            }
        };
        let total = stepped.state().counter;
        if total > MOST_CYCLES {
            break;
        }
        cycles(rt, traced, &store, count)?;
        let done = Performed {
            place: start,
            instruction,
            way: Way::of(&instruction, count, place(traced).address),
            cycles: count,
            total,
        };
        println!(rt; "{done}")?;
        performed.push(done)?;
    }
    Ok((performed, Ending::Cut))
}

// A machine over these words, in which no program is loaded.
fn powered(words: &mut [u32]) -> Machine<WordMemory<'_>> {
    Machine::power(WordMemory::make(words), Registers::default(), 0, 0)
}

// Loads an image into both machines.
fn loaded<'a, M: Memory>(
    stepped: &mut Machine<M>,
    traced: &mut Machine<M>,
    bytes: &'a [u8],
) -> Result<Image<'a>, LoadRefusal> {
    let image = Image::of(bytes)?;
    stepped.load(&image)?;
    traced.load(&image)?;
    Ok(image)
}

// Prints why an image is refused. The memory is made for the image, so 25 comes only where the image asks for a larger one than is made; then it is told which are made.
fn print_refusal(rt: &impl Print, refusal: LoadRefusal) -> anyhow::Result<()> {
    println!(rt; "{refusal}")?;
    if refusal == LoadRefusal::OtherSize {
        println!(rt; "the program makes memories of 16 to 8192 words")?;
    }
    Ok(())
}

/// Traces the program of an image, and prints where the cycles of its loops come from. Of an image that is refused the refusal is printed (docs/trace.md).
pub fn run<R: Print + AllocGlobal>(rt: &R, bytes: &[u8]) -> anyhow::Result<()> {
    let size = memory_size(bytes);
    let mut stepped_words = vec![in rt.alloc(); 0u32; size]?;
    let mut traced_words = vec![in rt.alloc(); 0u32; size]?;
    let mut stepped = powered(&mut stepped_words);
    let mut traced = powered(&mut traced_words);
    let image = match loaded(&mut stepped, &mut traced, bytes) {
        Ok(image) => image,
        Err(refusal) => return print_refusal(rt, refusal),
    };
    let (performed, ending) = trace(rt, &mut stepped, &mut traced, Code(image))?;
    let returned = ending == Ending::Refused(StepRefusal::End);
    let end = (!returned).then(|| place(&traced));
    print_loops(rt, &performed, end)?;
    if ending == Ending::Cut {
        println!(rt; "cut off: the next instruction goes past {MOST_CYCLES} cycles")?;
    }
    Ok(())
}
