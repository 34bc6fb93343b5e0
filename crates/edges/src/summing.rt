// The summing image, which adds up the numbers from n down to 1, for each n.
use crate::sketch::{Header, bytes_of, image_words};
use crate::trial::loaded;
use anyhow::Result;
use memory::{ByteMemory, Memory, WordMemory};
use std::alloc::{AllocError, Global};

/// The protected words of the summing method. The byte 03 in the second is n.
pub const METHOD: [u32; 9] = [
    0x00010002, 0x10033601, 0x10003602, 0x15021501, 0x60360284, 0x01FF1501, 0x990006A7, 0xFFF11502,
    0xAC000000,
];

/// The numbers of its block 0: size 32, mark 9, and a constant pool of no words at the mark.
pub const HEADER: Header = Header {
    size: 32,
    mark: 9,
    cpp: 9,
    pool: 0,
    main: 0,
};

/// The bytes of the summing image for n (docs/fifty-one.md).
pub fn summing_image(heap: Global, n: u8) -> Result<Vec<u8>, AllocError> {
    let mut method = METHOD;
    method[1] = u32::from_be_bytes([0x10, n, 0x36, 0x01]);
    let words = image_words(heap, &HEADER, &method)?;
    bytes_of(heap, words.as_slice())
}

// What a run to the end took.
#[derive(Drop, PartialEq)]
struct Cost {
    steps: u64,
    number: u32,
    cycles: u64,
    top: Option<u32>,
    word_15: u32,
}

fn run_to_the_end<M: Memory + Drop>(memory: M, image: &[u8]) -> Result<Cost> {
    let mut machine = loaded(memory, image)?;
    let ran = machine.run(1_000_000);
    Ok(Cost {
        steps: ran.steps,
        number: ran.number(),
        cycles: machine.state().counter,
        top: machine.top(),
        word_15: machine.look(15)?,
    })
}

fn line(rt: &impl Print, heap: Global, n: u8) -> Result<()> {
    let image = summing_image(heap, n)?;
    let over_words = run_to_the_end(WordMemory::make(&mut [0; 32]), image.as_slice())?;
    let over_bytes = run_to_the_end(ByteMemory::make(&mut [0; 128]), image.as_slice())?;
    let Cost {
        steps,
        number,
        cycles,
        top,
        word_15,
    } = over_words;
    print!(rt; "  n = {n}: {steps} steps, then {number}; {cycles} cycles")?;
    if let Some(top) = top {
        print!(rt; ", top {}", top.cast_signed())?;
    }
    println!(rt; ", word 15 = {word_15}")?;
    if over_bytes != over_words {
        println!(rt; "    but not over bytes")?;
    }
    Ok(())
}

/// Prints the steps and the cycles of a run of the summing image, and what it leaves, for each n from 1 to 127 (docs/edges.md).
pub fn summing(rt: &impl Print, heap: Global) -> Result<()> {
    println!(rt; "THE SUMMING IMAGE, over 32 words and over 128 bytes: 51 n + 24 cycles")?;
    for n in 1..=127u8 {
        line(rt, heap, n)?;
    }
    Ok(())
}
