// What load refuses, and what it leaves.
use crate::load_trials::{EDITS, Edit, LENGTHS, UNSEALED};
use crate::sketch::{bytes_of, image_words, seal};
use crate::summing::{HEADER, METHOD, summing_image};
use anyhow::Result;
use control::Registers;
use ijvm::Machine;
use image::{LoadRefusal, load};
use memory::{ByteMemory, Memory, WordMemory};
use std::alloc::Global;

// What each word holds before a load, and each byte.
const OLD: u32 = 0x0707_0707;

const OLD_BYTE: u8 = 7;

// The summing image in so many blocks, with some of its words changed; with new checks where it is sealed.
fn edited(heap: Global, blocks: usize, edits: &[(usize, u32)], sealed: bool) -> Result<Vec<u8>> {
    let mut protected = Vec::new(heap);
    protected.extend_from_slice(&METHOD)?;
    protected.resize(blocks.saturating_sub(1).saturating_mul(127), 0)?;
    let mut words = image_words(heap, &HEADER, protected.as_slice())?;
    for &(index, word) in edits {
        if let Some(at) = words.get_mut(index) {
            *at = word;
        }
    }
    if sealed {
        seal(words.as_mut_slice());
    }
    Ok(bytes_of(heap, words.as_slice())?)
}

// What a load answered, and what the machine and the memory then hold.
#[derive(Drop, PartialEq)]
struct Left {
    answer: Result<(), LoadRefusal>,
    registers: Registers,
    mbr: u8,
    mark: u32,
    // what look answers at LV, where a program is loaded
    link: Option<u32>,
    // how many words are neither 0 nor as before
    filled: usize,
    // whether all is as before the load
    kept: bool,
}

fn tried<M: Memory + Drop>(mut memory: M, mark: u32, bytes: &[u8]) -> Result<Left> {
    memory.protect(mark)?;
    let mut machine = Machine::power(memory, Registers::default(), 0, 0);
    let before = machine.state();
    let answer = load(&mut machine, bytes);
    let state = machine.state();
    let link = machine.look(state.registers.lv).ok();
    let memory = machine.into_memory();
    let mut filled = 0usize;
    let mut old = 0u32;
    for address in 0..memory.size() {
        match memory.read(address)? {
            0 => {}
            OLD => old = old.wrapping_add(1),
            _ => filled = filled.wrapping_add(1),
        }
    }
    Ok(Left {
        answer,
        registers: state.registers,
        mbr: state.mbr,
        mark: memory.mark(),
        link,
        filled,
        kept: old == memory.size() && memory.mark() == mark && state == before,
    })
}

fn print_left(rt: &impl Print, left: &Left) -> Result<()> {
    match left.answer {
        Ok(()) => {
            let registers = left.registers;
            print!(rt;
                "accepted; LV {}, SP {}, PC {}",
                registers.lv, registers.sp, registers.pc
            )?;
            print!(rt;
                ", CPP {}, MBR {}, mark {}",
                registers.cpp, left.mbr, left.mark
            )?;
            if let Some(link) = left.link {
                print!(rt; ", link {link}")?;
            }
            print!(rt; ", {} words not 0", left.filled)?;
        }
        Err(refusal) => {
            print!(rt; "refused {}", refusal.number())?;
            if let Some(detail) = refusal.detail() {
                print!(rt; " with {detail}")?;
            }
            if !left.kept || left.link.is_some() {
                print!(rt; ", and not all as before")?;
            }
        }
    }
    println!(rt)?;
    Ok(())
}

// A load into a memory of words, and into one of bytes.
fn show(rt: &impl Print, heap: Global, size: u32, mark: u32, bytes: &[u8]) -> Result<()> {
    let mut words = vec![in heap; OLD; size as usize]?;
    let left = tried(WordMemory::make(words.as_mut_slice()), mark, bytes)?;
    print_left(rt, &left)?;
    let mut cells = vec![in heap; OLD_BYTE; 4 * size as usize]?;
    let over_bytes = tried(ByteMemory::make(cells.as_mut_slice()), mark, bytes)?;
    if over_bytes != left {
        print!(rt; "    over bytes: ")?;
        print_left(rt, &over_bytes)?;
    }
    Ok(())
}

fn show_edit(rt: &impl Print, heap: Global, edit: &Edit, sealed: bool) -> Result<()> {
    let (text, blocks, edits, size, mark) = *edit;
    let bytes = edited(heap, blocks, edits, sealed)?;
    print!(rt; "  {text}: ")?;
    show(rt, heap, size, mark, bytes.as_slice())
}

/// Prints what load accepts and refuses, by the image's length and its words, and what it leaves (docs/edges.md).
pub fn load_edges(rt: &impl Print, heap: Global) -> Result<()> {
    println!(rt; "LOAD: the summing image by its length")?;
    for length in LENGTHS {
        let mut bytes = summing_image(heap, 3)?;
        bytes.resize(length, 0)?;
        print!(rt; "  {length} bytes: ")?;
        show(rt, heap, 32, 0, bytes.as_slice())?;
    }
    println!(rt; "LOAD: words changed, and the checks left")?;
    for edit in &UNSEALED {
        show_edit(rt, heap, edit, false)?;
    }
    println!(rt; "LOAD: words changed, and each block with its check")?;
    for edit in &EDITS {
        show_edit(rt, heap, edit, true)?;
    }
    Ok(())
}
