// The refusal of power.
ghost use Rattle.std.specs.Prelude.{◌≡◌, Some};
ghost use Rattle.datapath.specs.Refusals.{power_number, power_reason, power_text};

use std::error::Error;
use std::fmt;

/// Why a machine does not start where it is told to (docs/refusals.md).
#[derive(Clone, Copy, Debug, PartialEq, Eq)]
pub enum PowerRefusal {
    /// 11: the MPC is above 511.
    WrongMpc = 11,
}

impl PowerRefusal {
    /// The number of the refusal: its discriminant (docs/refusals.md).
    pub fn number(self) -> u32
        ensures { result ≡ power_number self }
    {
        self as u32
    }

    // The reason, in words.
    fn reason(self) -> &'static str
        ensures { result.now ≡ power_reason self }
    {
        match self {
            PowerRefusal::WrongMpc => "MPC is above 511",
        }
    }
}

// "refused", the number, and the reason.
impl fmt::Display for PowerRefusal {
    ghost output = { λ refusal. Some (power_text refusal) };

    fn fmt<W: fmt::Write>(&self, f: &mut fmt::Formatter<W>) -> fmt::Result {
        write!(f, "refused {}: {}", self.number(), self.reason())
    }
}

impl Error for PowerRefusal {}
