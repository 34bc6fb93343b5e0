// The refusal of protect.
ghost use Rattle.std.specs.Prelude.{◌≡◌, Some};
ghost use Rattle.memory.specs.Refusals.{protect_number, protect_reason, protect_text};

use std::error::Error;
use std::fmt;

/// Why the mark stays (docs/refusals.md).
#[derive(Clone, Copy, Debug, PartialEq, Eq)]
pub enum ProtectRefusal {
    /// 6: the mark, a word address, is below the present one or above the size.
    WrongMark = 6,
}

impl ProtectRefusal {
    /// The number of the refusal: its discriminant (docs/refusals.md).
    pub fn number(self) -> u32
        ensures { result ≡ protect_number self }
    {
        self as u32
    }

    // The reason, in words.
    fn reason(self) -> &'static str
        ensures { result.now ≡ protect_reason self }
    {
        match self {
            ProtectRefusal::WrongMark => "the mark is below the present one or above the size",
        }
    }
}

// "refused", the number, and the reason.
impl fmt::Display for ProtectRefusal {
    ghost output = { λ refusal. Some (protect_text refusal) };

    fn fmt<W: fmt::Write>(&self, f: &mut fmt::Formatter<W>) -> fmt::Result {
        write!(f, "refused {}: {}", self.number(), self.reason())
    }
}

impl Error for ProtectRefusal {}
