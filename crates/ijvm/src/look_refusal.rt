// The refusals of look.
ghost use Rattle.std.specs.Prelude.{◌≡◌, Some};
ghost use Rattle.ijvm.specs.Refusals.{look_number, look_reason, look_text};

use std::error::Error;
use std::fmt;

/// Why look answers no word (docs/refusals.md).
#[derive(Clone, Copy, Debug, PartialEq, Eq)]
pub enum LookRefusal {
    /// 4: the word address is not below the size of the memory.
    OutOfRange = 4,
    /// 39: no program is loaded.
    NotLoaded = 39,
}

impl LookRefusal {
    /// The number of the refusal: its discriminant (docs/refusals.md).
    pub fn number(self) -> u32
        ensures { result ≡ look_number self }
    {
        self as u32
    }

    // The reason, in words.
    fn reason(self) -> &'static str
        ensures { result.now ≡ look_reason self }
    {
        match self {
            LookRefusal::OutOfRange => "the address is not below the size",
            LookRefusal::NotLoaded => "no program is loaded",
        }
    }
}

// `refused`, the number and the reason.
impl fmt::Display for LookRefusal {
    ghost output = { λ refusal. Some (look_text refusal) };

    fn fmt<W: fmt::Write>(&self, f: &mut fmt::Formatter<W>) -> fmt::Result {
        write!(f, "refused {}: {}", self.number(), self.reason())
    }
}

impl Error for LookRefusal {}
