// Hexadecimal text.
ghost use Rattle.std.specs.Prelude.{◌≡◌, Some, IfOk, string_bytes};
ghost use Rattle.notation.specs.Text.{address_text_of, word_text_of};

use std::alloc::{AllocError, Global};
use std::fmt;

// An address of the control store.
#[derive(Drop)]
pub(crate) struct Address(pub(crate) u16);

#[tactic(auto, using(crate::proofs::Hexadecimal::three_or_more))]
impl fmt::Display for Address {
    ghost output = { λ a. Some (address_text_of a.0) };

    fn fmt<W: fmt::Write>(&self, f: &mut fmt::Formatter<W>) -> fmt::Result {
        let address = self.0;
        write!(f, "0x{address:03X}")
    }
}

/// The 36 lowest bits of a number, displayed as `0x` and nine hexadecimal digits: the number of a control word (docs/control-words.md).
#[derive(Clone, Copy, Debug, PartialEq, Eq)]
pub struct Bits(pub u64);

#[tactic(auto, using(crate::proofs::Hexadecimal::nine_lowest))]
impl fmt::Display for Bits {
    ghost output = { λ b. Some (word_text_of b.0) };

    fn fmt<W: fmt::Write>(&self, f: &mut fmt::Formatter<W>) -> fmt::Result {
        let bits = self.0 % 0x10_0000_0000;
        write!(f, "0x{bits:09X}")
    }
}

/// The text that `Bits` displays, in a `String`. An error only where there is no memory for it (docs/control-words.md).
pub fn word_text(heap: Global, number: u64) -> Result<String, AllocError>
    ensures { IfOk result (λ s. string_bytes s ≡ word_text_of number) }
{
    Bits(number).to_string(heap)
}
