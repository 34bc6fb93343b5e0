// The refusal of read and write.
ghost use Rattle.std.specs.Prelude.{◌≡◌, Some};
ghost use Rattle.memory.specs.Refusals.{access_number, access_reason, access_text};

use std::error::Error;
use std::fmt;

/// Why a word is neither read nor written (docs/refusals.md).
#[derive(Clone, Copy, Debug, PartialEq, Eq)]
pub enum AccessRefusal {
    /// 4: the word address is not below the size.
    OutOfRange = 4,
    /// 5: the word that a write would replace lies below the mark.
    Protected = 5,
}

impl AccessRefusal {
    /// The number of the refusal: its discriminant (docs/refusals.md).
    pub fn number(self) -> u32
        ensures { result ≡ access_number self }
    {
        self as u32
    }

    // The reason, in words.
    fn reason(self) -> &'static str
        ensures { result.now ≡ access_reason self }
    {
        match self {
            AccessRefusal::OutOfRange => "the address is not below the size",
            AccessRefusal::Protected => "the word is protected",
        }
    }
}

// "refused", the number, and the reason.
impl fmt::Display for AccessRefusal {
    ghost output = { λ refusal. Some (access_text refusal) };

    fn fmt<W: fmt::Write>(&self, f: &mut fmt::Formatter<W>) -> fmt::Result {
        write!(f, "refused {}: {}", self.number(), self.reason())
    }
}

impl Error for AccessRefusal {}
