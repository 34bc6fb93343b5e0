// The functions of the published ALU table.
ghost use Rattle.std.specs.Prelude.{◌≡◌};
ghost use Rattle.control.specs.AluTable.{table, signals_of, function_in, function_of};

use crate::ControlWord;

/// A function of the published ALU table, which has sixteen rows. A is H and B is the B bus; sums and differences are modulo 2^32 (docs/control-words.md).
#[derive(Clone, Copy, Debug, PartialEq, Eq)]
pub enum Function {
    /// A.
    A,
    /// B.
    B,
    /// NOT A.
    NotA,
    /// NOT B.
    NotB,
    /// A + B.
    APlusB,
    /// A + B + 1.
    APlusBPlus1,
    /// A + 1.
    APlus1,
    /// B + 1.
    BPlus1,
    /// B - A.
    BMinusA,
    /// B - 1.
    BMinus1,
    /// -A.
    MinusA,
    /// A AND B.
    AAndB,
    /// A OR B.
    AOrB,
    /// 0.
    Zero,
    /// 1.
    One,
    /// -1.
    MinusOne,
}

// F0, F1, ENA, ENB, INVA and INC as a number of six bits, from the high end.
fn signals(word: &ControlWord) -> u8
    ensures { result ≡ signals_of word.now }
{
    let function = u8::from(word.f0) * 2 + u8::from(word.f1);
    let inputs = u8::from(word.ena) * 2 + u8::from(word.enb);
    let increments = u8::from(word.inva) * 2 + u8::from(word.inc);
    (function * 4 + inputs) * 4 + increments
}

// The function that the table gives for six signals.
fn row(signals: u8) -> Option<Function>
    ensures { result ≡ function_in table signals }
{
    match signals {
        0b01_10_00 => Some(Function::A),
        0b01_01_00 => Some(Function::B),
        0b01_10_10 => Some(Function::NotA),
        0b10_11_00 => Some(Function::NotB),
        0b11_11_00 => Some(Function::APlusB),
        0b11_11_01 => Some(Function::APlusBPlus1),
        0b11_10_01 => Some(Function::APlus1),
        0b11_01_01 => Some(Function::BPlus1),
        0b11_11_11 => Some(Function::BMinusA),
        0b11_01_10 => Some(Function::BMinus1),
        0b11_10_11 => Some(Function::MinusA),
        0b00_11_00 => Some(Function::AAndB),
        0b01_11_00 => Some(Function::AOrB),
        0b01_00_00 => Some(Function::Zero),
        0b11_00_01 => Some(Function::One),
        0b11_00_10 => Some(Function::MinusOne),
        _ => None,
    }
}

impl Function {
    /// The function of a control word by the table, and none where its six signals stand in no row (docs/control-words.md).
    pub fn of(word: &ControlWord) -> Option<Function>
        ensures { result ≡ function_of word.now }
    {
        row(signals(word))
    }
}
