// The ALU and the shifter.
ghost use Rattle.std.specs.Prelude.{◌≡◌, ◌==◌};
ghost use Rattle.control.specs.Alu.{left_of, chosen_of, result_of, negative, alu_of, shift_of};
ghost use Rattle.control.specs.AluTable.{ByTheTable};

use crate::ControlWord;

// The left input: H, gated by ENA and then complemented by INVA.
fn left(word: &ControlWord, h: u32) -> u32
    ensures { result ≡ left_of word.now h }
{
    match (word.ena, word.inva) {
        (false, false) => 0,
        (false, true) => !0,
        (true, false) => h,
        (true, true) => !h,
    }
}

// What F0 and F1 make of the two inputs.
pub(crate) fn chosen(f0: bool, f1: bool, a: u32, b: u32, inc: u32) -> u32
    ensures { result ≡ chosen_of f0 f1 a b inc }
{
    match (f0, f1) {
        (false, false) => a & b,
        (false, true) => a | b,
        (true, false) => !b,
        (true, true) => a.wrapping_add(b).wrapping_add(inc),
    }
}

// The result of the ALU.
fn result(word: &ControlWord, h: u32, bus: u32) -> u32
    ensures value { result ≡ result_of word.now h bus }
    ensures table { ByTheTable word.now h bus result }
{
    let right = if word.enb { bus } else { 0 };
    chosen(word.f0, word.f1, left(word, h), right, u32::from(word.inc))
}

// A result of the ALU with its N and Z.
pub(crate) fn with_flags(value: u32) -> (u32, bool, bool)
    ensures { result ≡ (value, negative value, (value == 0)) }
{
    (value, value.cast_signed() < 0, value == 0)
}

/// What the ALU answers of H and the bus: its result, N and Z, both taken before the shifter (docs/control-words.md).
pub fn alu(word: &ControlWord, h: u32, bus: u32) -> (u32, bool, bool)
    ensures value { result ≡ alu_of word.now h bus }
    ensures table { ByTheTable word.now h bus result.0 }
{
    with_flags(result(word, h, bus))
}

/// What the shifter makes of the ALU's result: the value on the C bus (docs/control-words.md).
pub fn shift(word: &ControlWord, value: u32) -> u32
    ensures { result ≡ shift_of word.now value }
{
    if word.sll8 {
        value << 8
    } else if word.sra1 {
        (value.cast_signed() >> 1).cast_unsigned()
    } else {
        value
    }
}
