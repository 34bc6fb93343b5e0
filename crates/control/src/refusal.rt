// Why control words are refused, and the number of each refusal.
ghost use Rattle.std.specs.Prelude.{◌≡◌, Some};
ghost use Rattle.control.specs.Refusals.{control_number, control_reason, control_text, fill_detail, fill_number, fill_text};

use std::error::Error;
use std::fmt;

/// Why decode or encode refuses (docs/refusals.md).
#[derive(Clone, Copy, Debug, PartialEq, Eq)]
pub enum ControlRefusal {
    /// 7: the number is 2^36 or more, for decode; NEXT is above 511 or B above 15, for encode.
    TooWide = 7,
    /// 8: SLL8 stands with SRA1.
    TwoShifts = 8,
    /// 9: WRITE stands with READ.
    TwoAccesses = 9,
}

/// Why a control store is not filled (docs/refusals.md).
#[derive(Clone, Copy, Debug, PartialEq, Eq)]
pub enum FillRefusal {
    /// 10: the count is not 512.
    WrongCount,
    /// 7, 8 or 9: decode refuses the number at this address of the store, the first such address, for this cause.
    WrongWord { address: u16, cause: ControlRefusal },
}

impl ControlRefusal {
    /// The number of the refusal: its discriminant (docs/refusals.md).
    pub fn number(self) -> u32
        ensures { result ≡ control_number self }
    {
        self as u32
    }

    // The reason, in words.
    fn reason(self) -> &'static str
        ensures { result.now ≡ control_reason self }
    {
        match self {
            ControlRefusal::TooWide => "a number or a field is too wide",
            ControlRefusal::TwoShifts => "SLL8 with SRA1",
            ControlRefusal::TwoAccesses => "WRITE with READ",
        }
    }
}

impl FillRefusal {
    /// The number of the refusal: 10, or that of decode's refusal (docs/refusals.md).
    pub fn number(self) -> u32
        ensures { result ≡ fill_number self }
    {
        match self {
            FillRefusal::WrongCount => 10,
            FillRefusal::WrongWord { address: _, cause } => cause.number(),
        }
    }

    /// What the refusal carries: the address of the number that decode refuses, and none where the count is refused (docs/refusals.md).
    pub fn detail(self) -> Option<u16>
        ensures { result ≡ fill_detail self }
    {
        match self {
            FillRefusal::WrongCount => None,
            FillRefusal::WrongWord { address, cause: _ } => Some(address),
        }
    }
}

// "refused", the number, and the reason.
impl fmt::Display for ControlRefusal {
    ghost output = { λ refusal. Some (control_text refusal) };

    fn fmt<W: fmt::Write>(&self, f: &mut fmt::Formatter<W>) -> fmt::Result {
        write!(f, "refused {}: {}", self.number(), self.reason())
    }
}

// Of the count: "refused", the number, and the reason. Of a number: the text of decode's refusal, and the address.
impl fmt::Display for FillRefusal {
    ghost output = { λ refusal. Some (fill_text refusal) };

    fn fmt<W: fmt::Write>(&self, f: &mut fmt::Formatter<W>) -> fmt::Result {
        match self {
            FillRefusal::WrongCount => write!(f, "refused {}: the count is not 512", self.number()),
            FillRefusal::WrongWord { address, cause } => write!(f, "{cause}, at address {address}"),
        }
    }
}

impl Error for ControlRefusal {}

impl Error for FillRefusal {}
