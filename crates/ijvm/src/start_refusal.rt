// The refusals of a load that the memory gives cause for.
ghost use Rattle.std.specs.Prelude.{◌≡◌, Some};
ghost use Rattle.ijvm.specs.Refusals.{start_number, start_reason, start_text};

use std::error::Error;
use std::fmt;

/// Why a program is not loaded into a memory (docs/refusals.md).
#[derive(Clone, Copy, Debug, PartialEq, Eq)]
pub enum StartRefusal {
    /// 25: the memory has another size than the program is for.
    OtherSize = 25,
    /// 26: the memory's mark is not 0.
    Marked = 26,
}

impl StartRefusal {
    /// The number of the refusal: its discriminant (docs/refusals.md).
    pub fn number(self) -> u32
        ensures { result ≡ start_number self }
    {
        self as u32
    }

    // The reason, in words.
    fn reason(self) -> &'static str
        ensures { result.now ≡ start_reason self }
    {
        match self {
            StartRefusal::OtherSize => "the memory has another size than the program is for",
            StartRefusal::Marked => "the memory's mark is not 0",
        }
    }
}

// `refused`, the number and the reason.
impl fmt::Display for StartRefusal {
    ghost output = { λ refusal. Some (start_text refusal) };

    fn fmt<W: fmt::Write>(&self, f: &mut fmt::Formatter<W>) -> fmt::Result {
        write!(f, "refused {}: {}", self.number(), self.reason())
    }
}

impl Error for StartRefusal {}
