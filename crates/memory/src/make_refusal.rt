// The refusal of make.
ghost use Rattle.std.specs.Prelude.{◌≡◌, Some};
ghost use Rattle.memory.specs.Refusals.{make_number, make_reason, make_text};

use std::error::Error;
use std::fmt;

/// Why a memory over a buffer has size 0 (docs/refusals.md).
#[derive(Clone, Copy, Debug, PartialEq, Eq)]
pub enum MakeRefusal {
    /// 1: the buffer has fewer than 16 words or more than 1,048,576.
    WrongSize = 1,
    /// 2: the buffer ends within a word.
    BrokenWord = 2,
}

impl MakeRefusal {
    /// The number of the refusal: its discriminant (docs/refusals.md).
    pub fn number(self) -> u32
        ensures { result ≡ make_number self }
    {
        self as u32
    }

    // The reason, in words.
    fn reason(self) -> &'static str
        ensures { result.now ≡ make_reason self }
    {
        match self {
            MakeRefusal::WrongSize => "the size is not from 16 to 1048576 words",
            MakeRefusal::BrokenWord => "the buffer is no whole number of words",
        }
    }
}

// "refused", the number, and the reason.
impl fmt::Display for MakeRefusal {
    ghost output = { λ refusal. Some (make_text refusal) };

    fn fmt<W: fmt::Write>(&self, f: &mut fmt::Formatter<W>) -> fmt::Result {
        write!(f, "refused {}: {}", self.number(), self.reason())
    }
}

impl Error for MakeRefusal {}
