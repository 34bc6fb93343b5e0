// The value on the C bus, as text.
ghost use Rattle.std.specs.Prelude.{◌≡◌, Some};
ghost use Rattle.notation.specs.Text.{when, source_text_of, function_text_of, left_text_of, right_text_of, chosen_text_of, result_text_of, value_text_of};
ghost use Rattle.control.specs.AluTable.{function_of};

use control::{ControlWord, Function, Source};
use std::fmt;

// A text, displayed where the flag is on.
#[derive(Drop)]
pub(crate) struct When(pub(crate) bool, pub(crate) &'static str);

impl fmt::Display for When {
    ghost output = { λ w. Some (when w.0 w.1.now) };

    fn fmt<W: fmt::Write>(&self, f: &mut fmt::Formatter<W>) -> fmt::Result {
        f.write_str(if self.0 { self.1 } else { "" })
    }
}

// The name of what drives the B bus.
fn source_name(source: Option<Source>) -> &'static str
    ensures { result.now ≡ source_text_of source }
{
    match source {
        None => "none",
        Some(Source::Mdr) => "MDR",
        Some(Source::Pc) => "PC",
        Some(Source::Mbr) => "MBR",
        Some(Source::Mbru) => "MBRU",
        Some(Source::Sp) => "SP",
        Some(Source::Lv) => "LV",
        Some(Source::Cpp) => "CPP",
        Some(Source::Tos) => "TOS",
        Some(Source::Opc) => "OPC",
    }
}

// A function of the ALU's table, with the name of what drives the B bus.
#[derive(Drop)]
struct PermittedFunction {
    function: Function,
    source: &'static str,
}

impl fmt::Display for PermittedFunction {
    ghost output = { λ p. Some (function_text_of p.function p.source.now) };

    fn fmt<W: fmt::Write>(&self, f: &mut fmt::Formatter<W>) -> fmt::Result {
        let source = self.source;
        match self.function {
            Function::A => write!(f, "H"),
            Function::B => write!(f, "{source}"),
            Function::NotA => write!(f, "NOT H"),
            Function::NotB => write!(f, "NOT {source}"),
            Function::APlusB => write!(f, "H + {source}"),
            Function::APlusBPlus1 => write!(f, "H + {source} + 1"),
            Function::APlus1 => write!(f, "H + 1"),
            Function::BPlus1 => write!(f, "{source} + 1"),
            Function::BMinusA => write!(f, "{source} - H"),
            Function::BMinus1 => write!(f, "{source} - 1"),
            Function::MinusA => write!(f, "-H"),
            Function::AAndB => write!(f, "H AND {source}"),
            Function::AOrB => write!(f, "H OR {source}"),
            Function::Zero => write!(f, "0"),
            Function::One => write!(f, "1"),
            Function::MinusOne => write!(f, "-1"),
        }
    }
}

// The left input of the ALU.
fn left_name(word: &ControlWord) -> &'static str
    ensures { result.now ≡ left_text_of word.now }
{
    match (word.ena, word.inva) {
        (false, false) => "0",
        (false, true) => "-1",
        (true, false) => "H",
        (true, true) => "NOT H",
    }
}

// The right input of the ALU.
fn right_name(word: &ControlWord, source: &'static str) -> &'static str
    ensures { result.now ≡ right_text_of word.now source.now }
{
    if word.enb { source } else { "0" }
}

// What F0, F1 and INC make of the two inputs.
#[derive(Drop)]
struct ChosenOperation<'a> {
    word: &'a ControlWord,
    left: &'static str,
    right: &'static str,
}

impl fmt::Display for ChosenOperation<'_> {
    ghost output = { λ c. Some (chosen_text_of c.word.now.f0 c.word.now.f1 c.word.now.inc c.left.now c.right.now) };

    fn fmt<W: fmt::Write>(&self, f: &mut fmt::Formatter<W>) -> fmt::Result {
        let ChosenOperation { word, left, right } = self;
        match (word.f0, word.f1, word.inc) {
            (false, false, _) => write!(f, "{left} AND {right}"),
            (false, true, _) => write!(f, "{left} OR {right}"),
            (true, false, _) => write!(f, "NOT {right}"),
            (true, true, false) => write!(f, "{left} + {right}"),
            (true, true, true) => write!(f, "{left} + {right} + 1"),
        }
    }
}

// The result of the ALU.
#[derive(Drop)]
struct AluResult<'a> {
    word: &'a ControlWord,
    source: &'static str,
}

impl fmt::Display for AluResult<'_> {
    ghost output = { λ r. Some (result_text_of (function_of r.word.now) r.word.now r.source.now) };

    fn fmt<W: fmt::Write>(&self, f: &mut fmt::Formatter<W>) -> fmt::Result {
        let word = self.word;
        let source = self.source;
        match Function::of(word) {
            Some(function) => write!(f, "{}", PermittedFunction { function, source }),
            None => {
                let left = left_name(word);
                let right = right_name(word, source);
                write!(f, "{}", ChosenOperation { word, left, right })
            }
        }
    }
}

// The value on the C bus: the result of the ALU, then the shift.
#[derive(Drop)]
pub(crate) struct Value<'a>(pub(crate) &'a ControlWord);

impl fmt::Display for Value<'_> {
    ghost output = { λ v. Some (value_text_of v.0.now) };

    fn fmt<W: fmt::Write>(&self, f: &mut fmt::Formatter<W>) -> fmt::Result {
        let word = self.0;
        let source = source_name(Source::of(word.b));
        let result = AluResult { word, source };
        let left = When(word.sll8, " << 8");
        let right = When(word.sra1, " >> 1");
        write!(f, "{result}{left}{right}")
    }
}
