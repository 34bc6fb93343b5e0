// Why a step is refused, and the number of the refusal.
ghost use Rattle.std.specs.Prelude.{◌≡◌, Some};
ghost use Rattle.instructions.specs.Refusals.{step_number, step_reason, step_text};

use std::error::Error;
use std::fmt;

/// Why a step is refused, with 30 to 39. Nothing changes then (docs/refusals.md).
#[derive(Clone, Copy, Debug, PartialEq, Eq)]
pub enum StepRefusal {
    /// 30: a byte of the instruction lies outside code.
    OutsideCode = 30,
    /// 31: no instruction has this opcode.
    UnknownOpcode = 31,
    /// 32: the operand stack is not deep enough.
    TooShallow = 32,
    /// 33: the frame has no such variable.
    NoVariable = 33,
    /// 34: the index or disp is not below the pool count.
    NotInPool = 34,
    /// 35: the method's code lies outside code, or it has no params.
    WrongMethod = 35,
    /// 36: the new SP, a word address, is not below the size.
    NoRoom = 36,
    /// 37: the next PC lies outside code.
    NextOutside = 37,
    /// 38: main returns, which is the regular end.
    End = 38,
    /// 39: no program is loaded.
    NotLoaded = 39,
}

impl StepRefusal {
    /// The number of the refusal: its discriminant (docs/refusals.md).
    pub fn number(self) -> u32
        ensures { result ≡ step_number self }
    {
        self as u32
    }

    // The reason, in words.
    fn reason(self) -> &'static str
        ensures { result.now ≡ step_reason self }
    {
        match self {
            StepRefusal::OutsideCode => "a byte of the instruction lies outside code",
            StepRefusal::UnknownOpcode => "no instruction has this opcode",
            StepRefusal::TooShallow => "the operand stack is not deep enough",
            StepRefusal::NoVariable => "the frame has no such variable",
            StepRefusal::NotInPool => "the index or disp is not below the pool count",
            StepRefusal::WrongMethod => "the method's code lies outside code, or it has no params",
            StepRefusal::NoRoom => "the new SP is not below size",
            StepRefusal::NextOutside => "the next PC lies outside code",
            StepRefusal::End => "main returns",
            StepRefusal::NotLoaded => "no program is loaded",
        }
    }
}

// Displayed is `refused`, the number and the reason.
impl fmt::Display for StepRefusal {
    ghost output = { λ refusal. Some (step_text refusal) };

    fn fmt<W: fmt::Write>(&self, f: &mut fmt::Formatter<W>) -> fmt::Result {
        write!(f, "refused {}: {}", self.number(), self.reason())
    }
}

impl Error for StepRefusal {}
