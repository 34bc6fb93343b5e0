// Lists of calls, and their answers.
use crate::summing::summing_image;
use anyhow::Result;
use control::Registers;
use ijvm::Machine;
use image::{Answer, Call, perform};
use memory::{ByteMemory, Memory, WordMemory};
use std::alloc::Global;

/// Prints an answer: cycles, steps, a word as a signed number, or the number of the refusal (docs/edges.md).
pub fn print_answer(rt: &impl Print, answer: &Answer) -> Result<()> {
    match answer {
        Answer::Loaded(Ok(())) => println!(rt; "accepted")?,
        Answer::Loaded(Err(refusal)) => println!(rt; "refused {}", refusal.number())?,
        Answer::Stepped(Ok(cycles)) => println!(rt; "{cycles} cycles")?,
        Answer::Stepped(Err(refusal)) => println!(rt; "refused {}", refusal.number())?,
        Answer::Ran(ran) => println!(rt; "{} steps, {}", ran.steps, ran.number())?,
        Answer::Looked(Ok(word)) => println!(rt; "{}", word.cast_signed())?,
        Answer::Looked(Err(refusal)) => println!(rt; "refused {}", refusal.number())?,
    }
    Ok(())
}

fn print_call(rt: &impl Print, call: &Call<'_>) -> Result<()> {
    match call {
        Call::Load(bytes) => print!(rt; "  load of {} bytes: ", bytes.len())?,
        Call::Step => print!(rt; "  step: ")?,
        Call::Run(n) => print!(rt; "  run {n}: ")?,
        Call::Look(address) => print!(rt; "  look {address}: ")?,
    }
    Ok(())
}

// Performs a list of calls over any memory, and prints their answers.
fn show<M: Memory + Drop>(rt: &impl Print, memory: M, calls: &[Call<'_>]) -> Result<()> {
    let registers = Registers::default();
    let mut machine = Machine::power(memory, registers, 0xFF, 0x100);
    let mut answers = [Answer::Stepped(Ok(0)); 16];
    let performed = perform(&mut machine, calls, &mut answers);
    for (call, answer) in calls.iter().zip(answers.iter().take(performed)) {
        print_call(rt, call)?;
        print_answer(rt, answer)?;
    }
    Ok(())
}

// Performs a list of calls over a memory of words and over one of bytes.
fn show_both(rt: &impl Print, calls: &[Call<'_>]) -> Result<()> {
    show(rt, WordMemory::make(&mut [5; 32]), calls)?;
    println!(rt; "the same over bytes")?;
    show(rt, ByteMemory::make(&mut [5; 128]), calls)?;
    Ok(())
}

// Before a load, at the limits of look, and a second load.
fn around_a_load(rt: &impl Print, bytes: &[u8]) -> Result<()> {
    println!(rt; "CALLS IN A LIST: before a load, at the limits of look, and a second load")?;
    show_both(
        rt,
        &[
            Call::Step,
            Call::Run(5),
            Call::Run(0),
            Call::Look(0),
            Call::Look(32),
            Call::Load(&[]),
            Call::Step,
            Call::Load(bytes),
            Call::Look(9),
            Call::Look(31),
            Call::Look(32),
            Call::Look(u32::MAX),
            Call::Load(bytes),
            Call::Step,
            Call::Look(14),
            Call::Run(0),
        ],
    )
}

// A run to the end, and calls behind it: 18 calls, with room for 16 answers.
fn to_the_end(rt: &impl Print, bytes: &[u8]) -> Result<()> {
    println!(rt;
        "CALLS IN A LIST: a run to the end, which is not passed; a list longer than its answers"
    )?;
    show_both(
        rt,
        &[
            Call::Load(bytes),
            Call::Run(27),
            Call::Look(15),
            Call::Run(1),
            Call::Step,
            Call::Run(0),
            Call::Run(1),
            Call::Look(14),
            Call::Look(10),
            Call::Look(11),
            Call::Load(bytes),
            Call::Load(&[0; 1024]),
            Call::Step,
            Call::Run(1_000_000),
            Call::Look(15),
            Call::Look(4),
            Call::Look(5),
            Call::Step,
        ],
    )
}

/// Prints lists of calls and their answers: around a load, and to the end of a program (docs/edges.md).
pub fn call_lists(rt: &impl Print, heap: Global) -> Result<()> {
    let summing = summing_image(heap, 3)?;
    around_a_load(rt, summing.as_slice())?;
    to_the_end(rt, summing.as_slice())
}
