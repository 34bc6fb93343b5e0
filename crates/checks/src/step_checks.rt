// The case that an opcode is, and the checks that a step makes of it.
ghost use Rattle.std.specs.Prelude.{◌≡◌, ◌^◌, ◌<◌};
ghost use Rattle.instructions.specs.Step.{wide_of, case_of, lies_in_code, in_pool, callable, needed_of, has_variable, was_called, has_room, lands_in, allowed_of, unless_refused, step_of};
ghost use Rattle.instructions.specs.Table.{shape_of};
ghost use Rattle.checks.specs.View.{ijvm_in};

use crate::View;
use instructions::{Case, Opcode, Shape, StepRefusal, Variable, Way, check};
use memory::Memory;

impl<M: Memory> View<'_, M> {
    // The case that WIDE is: the byte behind it lies in code (else 30), and is the opcode of ILOAD or ISTORE (else 31).
    fn wide(&self) -> Result<Case, StepRefusal>
        ensures { result ≡ wide_of (ijvm_in M.Memory.meaning self.now) }
    {
        check(self.in_code(self.pc() + 1), StepRefusal::OutsideCode)?;
        match Opcode::of(self.byte(self.pc() + 1)) {
            Some(Opcode::One(Case::Iload)) => Ok(Case::WideIload),
            Some(Opcode::One(Case::Istore)) => Ok(Case::WideIstore),
            _ => Err(StepRefusal::UnknownOpcode),
        }
    }

    // The case that an opcode is in this state; a byte that is none is refused with 31.
    fn case(&self, opcode: Option<Opcode>) -> Result<Case, StepRefusal>
        ensures { result ≡ case_of (ijvm_in M.Memory.meaning self.now) opcode }
    {
        match opcode {
            Some(Opcode::One(case)) => Ok(case),
            Some(Opcode::Ifeq) if self.top_word() == 0 => Ok(Case::IfeqTaken),
            Some(Opcode::Ifeq) => Ok(Case::IfeqFalls),
            Some(Opcode::Iflt) if self.top_word() >= 0x8000_0000 => Ok(Case::IfltTaken),
            Some(Opcode::Iflt) => Ok(Case::IfltFalls),
            Some(Opcode::IfIcmpeq) if self.second() == self.top_word() => Ok(Case::IfIcmpeqTaken),
            Some(Opcode::IfIcmpeq) => Ok(Case::IfIcmpeqFalls),
            Some(Opcode::Wide) => self.wide(),
            None => Err(StepRefusal::UnknownOpcode),
        }
    }

    // The check for 30: all bytes of the instruction lie in code.
    fn lies_in_code(&self, shape: Shape) -> bool
        ensures { result ≡ lies_in_code (ijvm_in M.Memory.meaning self.now) shape }
    {
        self.pc() + u64::from(shape.bytes) <= self.code_end()
    }

    // The check for 34: the index or disp, where there is one, is below the pool count.
    fn in_pool(&self, shape: Shape) -> bool
        ensures { result ≡ in_pool (ijvm_in M.Memory.meaning self.now) shape }
    {
        !shape.pool || self.index() < u64::from(self.pool)
    }

    // The check for 35: a called method's code begins in code, and its params are not 0.
    fn callable(&self, way: Way) -> bool
        ensures { result ≡ callable (ijvm_in M.Memory.meaning self.now) way }
    {
        way != Way::Call || self.in_code(self.method() + 4) && self.params() >= 1
    }

    // The depth that is needed, for the check for 32: a call needs its method's params, any other case its column of the table.
    fn needed(&self, shape: Shape) -> u64
        ensures value { result ≡ needed_of (ijvm_in M.Memory.meaning self.now) shape shape.way }
        ensures small { result < 2 ^ 16 }
    {
        match shape.way {
            Way::Call => self.params(),
            Way::On | Way::Branch | Way::Return => u64::from(shape.depth),
        }
    }

    // The check for 33: the variable that the instruction names, where it names one, is one of the frame.
    #[inline(always)]
    fn has_variable(&self, variable: Option<Variable>) -> bool
        ensures { result ≡ has_variable (ijvm_in M.Memory.meaning self.now) variable }
    {
        match variable {
            None => true,
            Some(variable) => self.is_variable(self.variable(variable)),
        }
    }

    // The check for 38: a return is not from main, whose LV is the mark.
    fn was_called(&self, way: Way) -> bool
        ensures { result ≡ was_called (ijvm_in M.Memory.meaning self.now) way }
    {
        way != Way::Return || self.lv() != u64::from(self.datapath.memory.mark())
    }

    // The check for 36: the new SP is below the size.
    fn has_room(&self, shape: Shape) -> bool
        ensures { result ≡ has_room (ijvm_in M.Memory.meaning self.now) shape }
    {
        self.new_sp(shape.stack) < u64::from(self.datapath.memory.size())
    }

    // The check for 37: there is a next PC, and it lies in code.
    fn lands(&self, next: Option<u64>) -> bool
        ensures { result ≡ lands_in (ijvm_in M.Memory.meaning self.now) next }
    {
        match next {
            None => false,
            Some(next) => self.in_code(next),
        }
    }

    // The checks of a row, in the order in which they are made.
    #[inline(always)]
    fn allowed(&self, shape: Shape) -> Result<(), StepRefusal>
        ensures { result ≡ allowed_of (ijvm_in M.Memory.meaning self.now) shape }
    {
        check(self.lies_in_code(shape), StepRefusal::OutsideCode)?;
        check(self.in_pool(shape), StepRefusal::NotInPool)?;
        check(self.callable(shape.way), StepRefusal::WrongMethod)?;
        check(
            self.deep_enough(self.needed(shape)),
            StepRefusal::TooShallow,
        )?;
        check(self.has_variable(shape.variable), StepRefusal::NoVariable)?;
        check(self.was_called(shape.way), StepRefusal::End)?;
        check(self.has_room(shape), StepRefusal::NoRoom)?;
        check(self.lands(self.next_pc(shape)), StepRefusal::NextOutside)
    }

    // A case, if its checks pass.
    #[inline(always)]
    fn checked(&self, case: Case) -> Result<Case, StepRefusal>
        ensures { result ≡ unless_refused case (allowed_of (ijvm_in M.Memory.meaning self.now) (shape_of case)) }
    {
        self.allowed(Shape::of(case))?;
        Ok(case)
    }

    // A case, if its checks pass, by a call for each case: in each call the row is a constant, so the compiler leaves out the checks that pass for every state.
    fn checked_apart(&self, case: Case) -> Result<Case, StepRefusal>
        ensures { result ≡ unless_refused case (allowed_of (ijvm_in M.Memory.meaning self.now) (shape_of case)) }
    {
        macro_rules! apart {
            ($($name:ident)*) => {
                match case {
                    $(Case::$name => self.checked(Case::$name),)*
                }
            };
        }
        apart!(
            Nop Bipush LdcW Iload Istore Pop Dup Swap Iadd Isub Iand Ior Iinc IfeqFalls IfeqTaken IfltFalls IfltTaken
            IfIcmpeqFalls IfIcmpeqTaken Goto Ireturn Invokevirtual WideIload WideIstore
        )
    }

    /// The answer of a step: the case that it performs, or the refusal of the first check that fails, 30 to 38. Nothing is performed by this call (docs/instruction-machine.md).
    #[tactic(auto, unfolding(instructions::specs::Step::step_of))]
    pub fn step(&self) -> Result<Case, StepRefusal>
        ensures { result ≡ step_of (ijvm_in M.Memory.meaning self.now) }
    {
        let case = self.case(Opcode::of(self.byte(self.pc())))?;
        self.checked_apart(case)
    }
}
