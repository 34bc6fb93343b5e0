// Control words and their numbers.
ghost use Rattle.std.specs.Prelude.{◌≡◌, ◌^◌, ◌<◌, ◌≤◌, Ok};
ghost use Rattle.control.specs.Control.{bit_at, fields_of, flags_of, behind, unclashed, Unclashed, decode_of, encode_of, EncodesBack, DecodesBack};

use crate::{CBits, ControlRefusal, ControlWord};

// Whether a bit of a number is set.
fn flag(number: u64, bit: u32) -> bool
    requires { bit < 64 }
    ensures { result ≡ bit_at number bit }
{
    (number >> bit) % 2 == 1
}

// The C bits of a number.
fn c_bits(number: u64) -> CBits
    ensures { result ≡ (fields_of number).c }
{
    CBits {
        h: flag(number, 15),
        opc: flag(number, 14),
        tos: flag(number, 13),
        cpp: flag(number, 12),
        lv: flag(number, 11),
        sp: flag(number, 10),
        pc: flag(number, 9),
        mdr: flag(number, 8),
        mar: flag(number, 7),
    }
}

// The fields of a number of 36 bits, whether or not its flags clash. The casts are proved to lose nothing.
pub(crate) fn fields(number: u64) -> ControlWord
    requires { number < 2 ^ 36 }
    ensures value { result ≡ fields_of number }
    ensures within { result.next < 2 ^ 9 }
    ensures b { result.b < 2 ^ 4 }
    ensures back { Unclashed result → encode_of result ≡ Ok number }
{
    ControlWord {
        next: (number >> 27) as u16,
        jmpc: flag(number, 26),
        jamn: flag(number, 25),
        jamz: flag(number, 24),
        sll8: flag(number, 23),
        sra1: flag(number, 22),
        f0: flag(number, 21),
        f1: flag(number, 20),
        ena: flag(number, 19),
        enb: flag(number, 18),
        inva: flag(number, 17),
        inc: flag(number, 16),
        c: c_bits(number),
        write: flag(number, 6),
        read: flag(number, 5),
        fetch: flag(number, 4),
        b: (number % 16) as u8,
    }
}

// Refuses flags that clash: SLL8 with SRA1, then WRITE with READ.
fn check_flags(word: &ControlWord) -> Result<(), ControlRefusal>
    ensures { result ≡ unclashed word.now tt }
{
    if word.sll8 && word.sra1 {
        return Err(ControlRefusal::TwoShifts);
    }
    if word.write && word.read {
        return Err(ControlRefusal::TwoAccesses);
    }
    Ok(())
}

/// The fields of a control word, of its number. Refused with 7 where the number is 2^36 or more, with 8 where SLL8 stands with SRA1, with 9 where WRITE stands with READ, in this order. Of what is accepted, `encode` gives the same number back (docs/control-words.md).
pub fn decode(number: u64) -> Result<ControlWord, ControlRefusal>
    ensures value { result ≡ decode_of number }
    ensures back { EncodesBack number result }
{
    if number >= 0x10_0000_0000 {
        return Err(ControlRefusal::TooWide);
    }
    let word = fields(number);
    check_flags(&word)?;
    Ok(word)
}

// The flags between NEXT and B, from the high end.
fn flags(w: &ControlWord) -> [bool; 23]
    ensures { result ≡ flags_of w.now }
{
    let c = w.c;
    [
        w.jmpc, w.jamn, w.jamz, w.sll8, w.sra1, w.f0, w.f1, w.ena, w.enb, w.inva, w.inc, c.h,
        c.opc, c.tos, c.cpp, c.lv, c.sp, c.pc, c.mdr, c.mar, w.write, w.read, w.fetch,
    ]
}

// NEXT with the flags behind it, a bit each.
fn joined(next: u16, flags: &[bool; 23]) -> u64
    requires { next < 512 }
    ensures value { result ≡ behind next flags.now }
    ensures within { result < 2 ^ 32 }
{
    let mut number = u64::from(next);
    for &flag in flags {
        number = number * 2 + u64::from(flag);
    }
    number
}

// The number of fields that are within their bits, whether or not the flags clash.
fn number(word: &ControlWord) -> u64
    requires { (word.now.next ≤ 511) × (word.now.b ≤ 15) }
    ensures value { Unclashed word.now → encode_of word.now ≡ Ok result }
    ensures back { Unclashed word.now → decode_of result ≡ Ok word.now }
{
    joined(word.next, &flags(word)) * 16 + u64::from(word.b)
}

/// The number of a control word, of its fields. Refused with 7 where NEXT is above 511 or B above 15, with 8 where SLL8 stands with SRA1, with 9 where WRITE stands with READ, in this order. Of what is accepted, `decode` gives the same fields back (docs/control-words.md).
pub fn encode(word: &ControlWord) -> Result<u64, ControlRefusal>
    ensures value { result ≡ encode_of word.now }
    ensures back { DecodesBack word.now result }
{
    if word.next > 511 || word.b > 15 {
        return Err(ControlRefusal::TooWide);
    }
    check_flags(word)?;
    Ok(number(word))
}
