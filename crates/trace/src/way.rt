// The way of an instruction, as text.
use crate::instruction::Instruction;
use instructions::{Case, Opcode as Kind};
use std::fmt;

/// Where a performed instruction went. Displayed is what is told of it behind a branch; of another instruction nothing (docs/trace.md).
#[derive(Clone, Copy)]
pub enum Way {
    /// It is no branch.
    On,
    /// A conditional branch, not taken.
    NotTaken,
    /// A conditional branch, taken to this address.
    TakenTo(u32),
    /// GOTO, to this address.
    To(u32),
}

impl Way {
    /// The way of an instruction that took so many cycles, with the address of the next one. Only the cycles tell whether a branch to the instruction behind it was taken.
    pub fn of(instruction: &Instruction, cycles: u64, next: u32) -> Way {
        let taken = match instruction.opcode() {
            Some(Kind::Ifeq) => Case::IfeqTaken,
            Some(Kind::Iflt) => Case::IfltTaken,
            Some(Kind::IfIcmpeq) => Case::IfIcmpeqTaken,
            Some(Kind::One(Case::Goto)) => return Way::To(next),
            Some(Kind::One(_) | Kind::Wide) | None => return Way::On,
        };
        if cycles == taken.cycles() {
            Way::TakenTo(next)
        } else {
            Way::NotTaken
        }
    }

    /// The address that it jumped to, if it did.
    pub fn target(self) -> Option<u32> {
        match self {
            Way::On | Way::NotTaken => None,
            Way::TakenTo(address) | Way::To(address) => Some(address),
        }
    }
}

impl fmt::Display for Way {
    fn fmt<W: fmt::Write>(&self, f: &mut fmt::Formatter<W>) -> fmt::Result {
        match self {
            Way::On => Ok(()),
            Way::NotTaken => f.write_str(", not taken"),
            Way::TakenTo(address) => write!(f, ", taken to {address}"),
            Way::To(address) => write!(f, ", to {address}"),
        }
    }
}
