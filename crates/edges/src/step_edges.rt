// What a step performs and what it refuses.
use crate::frame_trials::{
    CALLED_FRAME, MANY_VARIABLES, NO_VARIABLE, ROOM, ROOM_OF_CALLS, TWO_VARIABLES,
};
use crate::path_trials::{END, NEXT, ORDER};
use crate::sketch::Sketch;
use crate::step_trials::{BYTES_OF_CODE, DEPTH, EVERY_CASE, Group, METHODS, POOL, Trial};
use crate::trial::Left;
use anyhow::Result;
use memory::{ByteMemory, WordMemory};
use std::alloc::Global;

const GROUPS: [Group; 14] = [
    EVERY_CASE,
    BYTES_OF_CODE,
    POOL,
    METHODS,
    DEPTH,
    TWO_VARIABLES,
    NO_VARIABLE,
    MANY_VARIABLES,
    CALLED_FRAME,
    ROOM,
    ROOM_OF_CALLS,
    NEXT,
    END,
    ORDER,
];

// Prints a trial over words, and over bytes where that differs.
fn show(rt: &impl Print, heap: Global, sketch: &Sketch<'_>, text: &str, before: u64) -> Result<()> {
    let image = sketch.image(heap)?;
    let mut words = vec![in heap; 0u32; sketch.size as usize]?;
    let memory = WordMemory::make(words.as_mut_slice());
    let left = Left::after(memory, image.as_slice(), before, heap)?;
    println!(rt; "  {text}: {left}")?;
    let mut bytes = vec![in heap; 0u8; 4 * sketch.size as usize]?;
    let memory = ByteMemory::make(bytes.as_mut_slice());
    let over_bytes = Left::after(memory, image.as_slice(), before, heap)?;
    if over_bytes != left {
        println!(rt; "    over bytes: {over_bytes}")?;
    }
    Ok(())
}

fn show_all(rt: &impl Print, heap: Global, group: &Group, trials: &[Trial]) -> Result<()> {
    println!(rt; "{}", group.title)?;
    for &(text, code, before) in trials {
        let sketch = Sketch {
            size: group.size,
            mark: group.mark,
            locals: group.locals,
            cpp: group.cpp,
            pool: group.pool,
            code,
        };
        show(rt, heap, &sketch, text, before)?;
    }
    Ok(())
}

/// Prints the trials of a step: what it performs, and what it refuses at the edges of its rules (docs/edges.md).
pub fn step_edges(rt: &impl Print, heap: Global) -> Result<()> {
    for group in &GROUPS {
        show_all(rt, heap, group, group.trials)?;
    }
    Ok(())
}
