// An instruction as text.
use crate::opcode::Opcode;
use crate::operand::Operand;
use instructions::{Case, Opcode as Kind};
use std::fmt;

/// An instruction: the four bytes from its opcode on, none for each that lies outside code; its opcode says how many of them are its own. Displayed as its name and its operands (docs/trace.md).
#[derive(Clone, Copy)]
pub struct Instruction(pub [Option<u8>; 4]);

impl Instruction {
    /// Its opcode, if the first byte is one.
    pub fn opcode(&self) -> Option<Kind> {
        let [opcode, ..] = self.0;
        Kind::of(opcode?)
    }
}

impl fmt::Display for Instruction {
    fn fmt<W: fmt::Write>(&self, f: &mut fmt::Formatter<W>) -> fmt::Result {
        let [opcode, first, second, third] = self.0;
        let Some(opcode) = opcode else {
            return f.write_str("?");
        };
        let name = Opcode(opcode);
        match Kind::of(opcode) {
            None => write!(f, "{}", Unknown(opcode)),
            Some(Kind::Wide) => write!(f, "{name} {}", Widened([first, second, third])),
            Some(Kind::Ifeq | Kind::Iflt | Kind::IfIcmpeq | Kind::One(Case::Goto)) => {
                write!(f, "{name} {}", Operand::signed_short([first, second]))
            }
            Some(Kind::One(Case::Bipush)) => write!(f, "{name} {}", Operand::signed(first)),
            Some(Kind::One(Case::Iload | Case::Istore)) => {
                write!(f, "{name} {}", Operand::unsigned(first))
            }
            Some(Kind::One(Case::Iinc)) => {
                let variable = Operand::unsigned(first);
                let constant = Operand::signed(second);
                write!(f, "{name} {variable} {constant}")
            }
            Some(Kind::One(Case::LdcW | Case::Invokevirtual)) => {
                write!(f, "{name} {}", Operand::unsigned_short([first, second]))
            }
            Some(Kind::One(_)) => write!(f, "{name}"),
        }
    }
}

// The three bytes behind WIDE, displayed as the instruction there.
#[derive(Drop)]
struct Widened([Option<u8>; 3]);

impl fmt::Display for Widened {
    fn fmt<W: fmt::Write>(&self, f: &mut fmt::Formatter<W>) -> fmt::Result {
        let [opcode, high, low] = self.0;
        let Some(opcode) = opcode else {
            return f.write_str("?");
        };
        match Kind::of(opcode) {
            Some(Kind::One(Case::Iload | Case::Istore)) => {
                let variable = Operand::unsigned_short([high, low]);
                write!(f, "{} {variable}", Opcode(opcode))
            }
            _ => write!(f, "{}", Unknown(opcode)),
        }
    }
}

// A byte that is no opcode where it stands.
#[derive(Drop)]
struct Unknown(u8);

impl fmt::Display for Unknown {
    fn fmt<W: fmt::Write>(&self, f: &mut fmt::Formatter<W>) -> fmt::Result {
        let byte = self.0;
        write!(f, "opcode 0x{byte:02X}")
    }
}
