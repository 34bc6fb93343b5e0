// What decode, encode and fill refuse.
use crate::outcome::Outcome;
use anyhow::Result;
use control::{ControlRefusal, ControlStore, ControlWord, FillRefusal, decode, encode};
use std::alloc::Global;

// A number of 36 bits is accepted, one more is not. SLL8 is bit 23, SRA1 bit 22, WRITE bit 6, READ bit 5.
const NUMBERS: [(&str, u64); 12] = [
    ("0", 0),
    ("all bits but SRA1 and READ", 0xF_FFBF_FFDF),
    ("2^36", 0x10_0000_0000),
    ("2^64 - 1", 0xFFFF_FFFF_FFFF_FFFF),
    ("SLL8", 0x80_0000),
    ("SRA1", 0x40_0000),
    ("SLL8, SRA1", 0xC0_0000),
    ("WRITE", 0x40),
    ("READ", 0x20),
    ("WRITE, READ", 0x60),
    ("SLL8, SRA1, WRITE, READ", 0xC0_0060),
    ("2^36, SLL8, SRA1, WRITE, READ", 0x10_00C0_0060),
];

fn decode_edges(rt: &impl Print) -> Result<()> {
    for (text, number) in NUMBERS {
        let refusal = decode(number).err().map(ControlRefusal::number);
        println!(rt; "  decode {text}: {}", Outcome(refusal))?;
    }
    Ok(())
}

const O: bool = false;

const I: bool = true;

// NEXT, B, and the flags SLL8, SRA1, WRITE and READ.
const FIELDS: [(u16, u8, [bool; 4]); 14] = [
    (511, 15, [O, O, O, O]),
    (512, 15, [O, O, O, O]),
    (u16::MAX, 0, [O, O, O, O]),
    (511, 16, [O, O, O, O]),
    (0, u8::MAX, [O, O, O, O]),
    (0, 0, [I, O, I, O]),
    (0, 0, [O, I, O, I]),
    (0, 0, [I, I, O, O]),
    (0, 0, [O, O, I, I]),
    (0, 0, [I, I, I, I]),
    (512, 0, [I, I, O, O]),
    (0, 16, [O, O, I, I]),
    (512, 16, [I, I, I, I]),
    (511, 15, [I, I, I, I]),
];

fn encode_edges(rt: &impl Print) -> Result<()> {
    for (next, b, flags) in FIELDS {
        let [sll8, sra1, write, read] = flags;
        let word = ControlWord {
            next,
            b,
            sll8,
            sra1,
            write,
            read,
            ..ControlWord::default()
        };
        let outcome = Outcome(encode(&word).err().map(ControlRefusal::number));
        let [sll8, sra1, write, read] = flags.map(u8::from);
        println!(rt;
            "  encode NEXT {next}, B {b}, SLL8 {sll8}, SRA1 {sra1}, WRITE {write}, READ {read}: {outcome}"
        )?;
    }
    Ok(())
}

// What a store holds at every address before it is filled, H = TOS, and what it is filled with, SP = H + OPC.
const BEFORE: u64 = 0x14_8007;

const FILLING: u64 = 0x3C_0408;

// How many numbers, and which of them are others, by their addresses.
const FILLS: [(usize, &[(usize, u64)]); 10] = [
    (0, &[]),
    (511, &[]),
    (513, &[]),
    (511, &[(3, 0x60)]),
    (512, &[]),
    (512, &[(0, 0x10_0000_0000)]),
    (512, &[(511, 0xC0_0000)]),
    (512, &[(7, 0xC0_0060), (8, 0x10_0000_0000)]),
    (512, &[(8, 0x10_0000_0000), (300, 0x60)]),
    (512, &[(255, 0x60), (256, 0xC0_0000)]),
];

// Prints a refusal, with the address where it has one.
fn fill_text(rt: &impl Print, answer: Result<(), FillRefusal>) -> Result<()> {
    match answer {
        Ok(()) => print!(rt; "accepted")?,
        Err(FillRefusal::WrongCount) => print!(rt; "refused {}", FillRefusal::WrongCount.number())?,
        Err(FillRefusal::WrongWord { address, cause }) => {
            print!(rt; "refused {} at address {address}", cause.number())?;
        }
    }
    Ok(())
}

// At how many addresses a store holds a number.
fn held(store: &ControlStore, number: u64) -> usize {
    (0..512u16)
        .filter(|&address| store.number(address) == Some(number))
        .count()
}

fn show_fill(rt: &impl Print, heap: Global, count: usize, others: &[(usize, u64)]) -> Result<()> {
    let mut store = ControlStore::new();
    store.fill(&[BEFORE; 512])?;
    let mut numbers = vec![in heap; FILLING; count]?;
    print!(rt; "  fill with {count} numbers")?;
    for &(address, number) in others {
        if let Some(at) = numbers.get_mut(address) {
            *at = number;
        }
        print!(rt; ", 0x{number:09X} at {address}")?;
    }
    print!(rt; ": ")?;
    fill_text(rt, store.fill(numbers.as_slice()))?;
    let (old, new) = (held(&store, BEFORE), held(&store, FILLING));
    println!(rt; "; the store holds {old} old and {new} new")?;
    Ok(())
}

/// Prints what decode, encode and fill accept and refuse at the edges of their rules (docs/edges.md).
pub fn control_edges(rt: &impl Print, heap: Global) -> Result<()> {
    println!(rt; "DECODE")?;
    decode_edges(rt)?;
    println!(rt; "ENCODE")?;
    encode_edges(rt)?;
    println!(rt; "FILL")?;
    for (count, others) in FILLS {
        show_fill(rt, heap, count, others)?;
    }
    Ok(())
}
