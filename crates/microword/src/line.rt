// Control words in the lines of a text.
ghost use Rattle.std.specs.Prelude.{◌≡◌, ◌↔◌, Some, IfOk, IsTrue, string_bytes};
ghost use Rattle.microword.specs.Line.{unprefixed, ReadAs, TakenApart, meaning_text_of, word_report_of, line_report_of};
ghost use Rattle.std.specs.Str.Parse.{IsNumeral};
ghost use Rattle.control.specs.Control.{decode_of};

use control::{ControlRefusal, ControlWord, decode, encode};
use notation::{Bits, Operations};
use std::alloc::{AllocError, Global};
use std::{fmt, str};

// A text without the prefix 0x or 0X.
#[tactic(auto, using(crate::proofs::Numerals::stripped))]
fn without_prefix(text: &str) -> &str
    ensures { result.now ≡ unprefixed text.now }
{
    text.strip_prefix("0x")
        .or(text.strip_prefix("0X"))
        .unwrap_or(text)
}

// Whether a text is a hexadecimal numeral.
fn is_numeral(text: &str) -> bool
    ensures { IsTrue result ↔ IsNumeral 16 text.now }
{
    !text.is_empty() && text.bytes().all(|b| b.is_ascii_hexdigit())
}

// The number of a hexadecimal numeral, if the digits are one.
#[tactic(auto, using(crate::proofs::Numerals::capped))]
fn read_digits(digits: &str) -> Option<u64>
    ensures { ReadAs digits.now result }
{
    if !is_numeral(digits) {
        return None;
    }
    // A numeral is refused only where its number is too wide for a u64; from 2^36 on all numbers are refused alike.
    let number = u64::from_str_radix(digits, 16).unwrap_or(u64::MAX);
    Some(number.min(0x10_0000_0000))
}

/// The number of a line, in hexadecimal, with the prefix `0x` or `0X` or without: its value, and 2^36 for every value from there on, which decode refuses alike. None where the line holds no hexadecimal number (docs/microword.md).
#[tactic(auto, using(crate::proofs::Numerals::numeral_is_text))]
pub fn number_in(text: &[u8]) -> Option<u64>
    ensures { ReadAs (unprefixed text.now) result }
{
    let text = str::from_utf8(text).ok()?;
    read_digits(without_prefix(text))
}

// A number's control word, and the number that the word gives back.
fn take_apart(number: u64) -> Result<(ControlWord, u64), ControlRefusal>
    ensures { TakenApart number result }
{
    let word = decode(number)?;
    let back = encode(&word)?;
    Ok((word, back))
}

// The reason of a refusal of decode, in words.
#[derive(Drop)]
struct Meaning(ControlRefusal);

impl fmt::Display for Meaning {
    ghost output = { λ m. Some (meaning_text_of m.0) };

    fn fmt<W: fmt::Write>(&self, f: &mut fmt::Formatter<W>) -> fmt::Result {
        f.write_str(match self.0 {
            ControlRefusal::TooWide => "the number is 2^36 or more",
            ControlRefusal::TwoShifts => "SLL8 with SRA1",
            ControlRefusal::TwoAccesses => "WRITE with READ",
        })
    }
}

// What is printed of a number.
#[derive(Drop)]
struct WordReport(u64);

impl fmt::Display for WordReport {
    ghost output = { λ r. Some (word_report_of r.0 (decode_of r.0)) };

    fn fmt<W: fmt::Write>(&self, f: &mut fmt::Formatter<W>) -> fmt::Result {
        match take_apart(self.0) {
            Ok((word, back)) => write!(f, "{} [{}]", Operations(&word), Bits(back)),
            Err(refusal) => write!(f, "refused {}: {}", refusal.number(), Meaning(refusal)),
        }
    }
}

// What is printed of a line that holds a number, or none.
#[derive(Drop)]
struct LineReport(Option<u64>);

impl fmt::Display for LineReport {
    ghost output = { λ r. Some (line_report_of r.0) };

    fn fmt<W: fmt::Write>(&self, f: &mut fmt::Formatter<W>) -> fmt::Result {
        match self.0 {
            Some(number) => write!(f, "{}", WordReport(number)),
            None => f.write_str("not a hexadecimal number"),
        }
    }
}

/// What is printed of a line that holds a number, or none: the operations of its control word and its 36 bits, the refusal of decode with its number, or that it is no number. An error only where there is no memory for it (docs/microword.md).
pub fn line_report(heap: Global, number: Option<u64>) -> Result<String, AllocError>
    ensures { IfOk result (λ s. string_bytes s ≡ line_report_of number) }
{
    LineReport(number).to_string(heap)
}
