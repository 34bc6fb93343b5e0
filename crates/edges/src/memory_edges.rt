// What make, read, write and protect refuse, over words and over bytes.
use crate::outcome::Outcome;
use anyhow::Result;
use memory::{
    AccessRefusal, ByteMemory, Cell, LentMemory, MakeRefusal, Memory, ProtectRefusal, WordMemory,
};
use std::alloc::Global;
use std::fmt;

// One call of a memory.
#[derive(Clone, Copy)]
enum Call {
    Read(u32),
    Write(u32, u32),
    Protect(u32),
}

impl fmt::Display for Call {
    fn fmt<W: fmt::Write>(&self, f: &mut fmt::Formatter<W>) -> fmt::Result {
        match self {
            Call::Read(address) => write!(f, "read {address}"),
            Call::Write(address, word) => write!(f, "write {address}, {word}"),
            Call::Protect(mark) => write!(f, "protect {mark}"),
        }
    }
}

// The calls on a memory of 32 words. With mark 9 a write refuses 8 and below and 32 and above; with the mark at the size it still refuses 32 as out of range.
const CALLS: [Call; 24] = [
    Call::Read(0),
    Call::Read(31),
    Call::Read(32),
    Call::Read(u32::MAX),
    Call::Write(0, 100),
    Call::Write(8, 108),
    Call::Protect(33),
    Call::Protect(u32::MAX),
    Call::Protect(9),
    Call::Write(0, 200),
    Call::Write(8, 208),
    Call::Write(9, 209),
    Call::Write(31, 231),
    Call::Write(32, 232),
    Call::Write(u32::MAX, 233),
    Call::Read(0),
    Call::Read(8),
    Call::Read(9),
    Call::Protect(8),
    Call::Protect(9),
    Call::Protect(32),
    Call::Protect(31),
    Call::Write(31, 331),
    Call::Write(32, 332),
];

// The calls on a buffer that make refuses: a memory of size 0.
const CALLS_ON_NONE: [Call; 4] = [
    Call::Read(0),
    Call::Write(0, 1),
    Call::Protect(0),
    Call::Protect(1),
];

// A call, performed: the word that was read, and the refusal.
fn perform<M: Memory>(memory: &mut M, call: Call) -> (Option<u32>, Outcome) {
    match call {
        Call::Read(address) => match (*memory).read(address) {
            Ok(word) => (Some(word), Outcome(None)),
            Err(refusal) => (None, Outcome(Some(refusal.number()))),
        },
        Call::Write(address, word) => {
            let refusal = memory.write(address, word).err();
            (None, Outcome(refusal.map(AccessRefusal::number)))
        }
        Call::Protect(mark) => {
            let refusal = memory.protect(mark).err();
            (None, Outcome(refusal.map(ProtectRefusal::number)))
        }
    }
}

// Calls, one after the other, and what the memory then holds.
fn calls<M: Memory>(rt: &impl Print, memory: &mut M, calls: &[Call]) -> Result<()> {
    for &call in calls {
        match perform(memory, call) {
            (Some(word), _) => println!(rt; "  {call}: {word}")?,
            (None, outcome) => println!(rt; "  {call}: {outcome}")?,
        }
    }
    let (size, mark) = (memory.size(), memory.mark());
    println!(rt; "  then size {size}, mark {mark}, and of the words not 0")?;
    for address in 0..size {
        match (*memory).read(address) {
            Ok(0) => {}
            Ok(word) => println!(rt; "    {address}: {word}")?,
            Err(refusal) => println!(rt; "    {address}: {refusal}")?,
        }
    }
    Ok(())
}

// Lengths around make's limits, in words and in bytes.
const WORD_LENGTHS: [usize; 5] = [0, 15, 16, 1_048_576, 1_048_577];

const BYTE_LENGTHS: [usize; 10] = [
    0, 60, 61, 63, 64, 65, 4_194_303, 4_194_304, 4_194_305, 4_194_308,
];

// What make refuses of the first cells of a buffer, for each length.
fn make_edges<C: Cell>(rt: &impl Print, buffer: &[C], unit: &str, lengths: &[usize]) -> Result<()> {
    for &length in lengths {
        if let Some(cells) = buffer.get(..length) {
            let refusal = LentMemory::refusal(cells).map(MakeRefusal::number);
            println!(rt; "  make over {length} {unit}: {}", Outcome(refusal))?;
        }
    }
    Ok(())
}

/// Prints what make, read, write and protect accept and refuse at the edges of their rules (docs/edges.md).
pub fn memory_edges(rt: &impl Print, heap: Global) -> Result<()> {
    println!(rt; "MAKE")?;
    let words = vec![in heap; 0u32; 1_048_577]?;
    make_edges(rt, words.as_slice(), "words", &WORD_LENGTHS)?;
    let bytes = vec![in heap; 0u8; 4_194_308]?;
    make_edges(rt, bytes.as_slice(), "bytes", &BYTE_LENGTHS)?;
    println!(rt; "READ, WRITE AND PROTECT, over 32 words")?;
    calls(rt, &mut WordMemory::make(&mut [0; 32]), &CALLS)?;
    println!(rt; "the same over 128 bytes")?;
    calls(rt, &mut ByteMemory::make(&mut [0; 128]), &CALLS)?;
    println!(rt; "over 15 words, which make refuses")?;
    calls(rt, &mut WordMemory::make(&mut [0; 15]), &CALLS_ON_NONE)?;
    println!(rt; "over 65 bytes, which make refuses")?;
    calls(rt, &mut ByteMemory::make(&mut [0; 65]), &CALLS_ON_NONE)?;
    Ok(())
}
