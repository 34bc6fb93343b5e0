// The columns of the table that a step's checks go by.
ghost use Rattle.std.specs.Prelude.{◌≡◌};
ghost use Rattle.instructions.specs.Table.{shape_of};
ghost use Rattle.instructions.specs.Applies.{PerformedWhereItApplies};

use crate::Case;

/// How an instruction names its variable (docs/instruction-machine.md).
#[derive(Clone, Copy, Debug, PartialEq, Eq)]
pub enum Variable {
    /// By the byte behind the opcode, unsigned.
    ByByte,
    /// By the two bytes behind WIDE's second opcode, unsigned.
    ByShort,
}

/// The new SP, a word address (docs/instruction-machine.md).
#[derive(Clone, Copy, Debug, PartialEq, Eq)]
pub enum Stack {
    /// SP stays.
    Same,
    /// One word is pushed.
    Push,
    /// One word is popped.
    Pop,
    /// Two words are popped.
    PopTwo,
    /// A call: SP is one above the new link, where the caller's LV is kept.
    Enter,
    /// A return: SP is the LV of the frame that is left.
    Leave,
}

/// Where the next instruction lies, and so the way that a case goes on (docs/instruction-machine.md).
#[derive(Clone, Copy, Debug, PartialEq, Eq)]
pub enum Way {
    /// Behind this one.
    On,
    /// At the branch's target.
    Branch,
    /// Behind the call that is returned from.
    Return,
    /// At the first byte of the called method's code.
    Call,
}

/// The columns of a case's row that the checks of a step go by (docs/instruction-machine.md).
#[derive(Clone, Copy, Debug, PartialEq, Eq)]
pub struct Shape {
    /// How many bytes the instruction has.
    pub bytes: u8,
    /// Whether an index or disp of the constant pool is behind the opcode.
    pub pool: bool,
    /// How many words it needs on the operand stack; a call needs its method's params.
    pub depth: u8,
    /// The variable that it names, if it names one.
    pub variable: Option<Variable>,
    /// The new SP.
    pub stack: Stack,
    /// The next PC.
    pub way: Way,
}

// A row by its columns.
fn row(
    bytes: u8,
    pool: bool,
    depth: u8,
    variable: Option<Variable>,
    stack: Stack,
    way: Way,
) -> Shape
    ensures { result ≡ record { bytes = bytes; pool = pool; depth = depth; variable = variable; stack = stack; way = way } }
{
    Shape {
        bytes,
        pool,
        depth,
        variable,
        stack,
        way,
    }
}

impl Shape {
    /// The columns of a case's row (docs/instruction-machine.md).
    pub fn of(case: Case) -> Shape
        ensures { result ≡ shape_of case }
    {
        match case {
            Case::Nop => row(1, false, 0, None, Stack::Same, Way::On),
            Case::Bipush => row(2, false, 0, None, Stack::Push, Way::On),
            Case::LdcW => row(3, true, 0, None, Stack::Push, Way::On),
            Case::Iload => row(2, false, 0, Some(Variable::ByByte), Stack::Push, Way::On),
            Case::Istore => row(2, false, 1, Some(Variable::ByByte), Stack::Pop, Way::On),
            Case::Pop => row(1, false, 1, None, Stack::Pop, Way::On),
            Case::Dup => row(1, false, 1, None, Stack::Push, Way::On),
            Case::Swap => row(1, false, 2, None, Stack::Same, Way::On),
            Case::Iadd => row(1, false, 2, None, Stack::Pop, Way::On),
            Case::Isub => row(1, false, 2, None, Stack::Pop, Way::On),
            Case::Iand => row(1, false, 2, None, Stack::Pop, Way::On),
            Case::Ior => row(1, false, 2, None, Stack::Pop, Way::On),
            Case::Iinc => row(3, false, 0, Some(Variable::ByByte), Stack::Same, Way::On),
            Case::IfeqFalls => row(3, false, 1, None, Stack::Pop, Way::On),
            Case::IfeqTaken => row(3, false, 1, None, Stack::Pop, Way::Branch),
            Case::IfltFalls => row(3, false, 1, None, Stack::Pop, Way::On),
            Case::IfltTaken => row(3, false, 1, None, Stack::Pop, Way::Branch),
            Case::IfIcmpeqFalls => row(3, false, 2, None, Stack::PopTwo, Way::On),
            Case::IfIcmpeqTaken => row(3, false, 2, None, Stack::PopTwo, Way::Branch),
            Case::Goto => row(3, false, 0, None, Stack::Same, Way::Branch),
            Case::Ireturn => row(1, false, 1, None, Stack::Leave, Way::Return),
            Case::Invokevirtual => row(3, true, 0, None, Stack::Enter, Way::Call),
            Case::WideIload => row(4, false, 0, Some(Variable::ByShort), Stack::Push, Way::On),
            Case::WideIstore => row(4, false, 1, Some(Variable::ByShort), Stack::Pop, Way::On),
        }
    }
}

/// A theorem: a step performs this case exactly where it applies. So where a step is not refused exactly one case applies, and where none applies it is refused. Answered are the columns of its row (docs/instruction-machine.md).
#[tactic(auto, using(crate::proofs::Applied::applied))]
pub fn a_case_is_performed_where_it_applies(case: Case) -> Shape
    ensures row { result ≡ shape_of case }
    ensures applies { PerformedWhereItApplies case }
{
    Shape::of(case)
}
