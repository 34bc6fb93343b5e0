// The opcodes of IJVM.
ghost use Rattle.std.specs.Prelude.{◌≡◌};
ghost use Rattle.instructions.specs.Opcodes.{opcode_of};

use crate::Case;

/// What an opcode is: one case of the cycle table, or several, between which the state decides (docs/instruction-machine.md).
#[derive(Clone, Copy, Debug, PartialEq, Eq)]
pub enum Opcode {
    /// An opcode of one case.
    One(Case),
    /// 0x99, IFEQ: taken where the top is 0.
    Ifeq,
    /// 0x9B, IFLT: taken where the top is negative.
    Iflt,
    /// 0x9F, IF_ICMPEQ: taken where the two topmost words are equal.
    IfIcmpeq,
    /// 0xC4, WIDE: the byte behind it says which instruction it is.
    Wide,
}

impl Opcode {
    /// The opcode that a byte is; none where no instruction has it, which a step refuses with 31 (docs/instruction-machine.md).
    #[inline(always)]
    pub fn of(byte: u8) -> Option<Opcode>
        ensures { result ≡ opcode_of byte }
    {
        match byte {
            0x00 => Some(Opcode::One(Case::Nop)),
            0x10 => Some(Opcode::One(Case::Bipush)),
            0x13 => Some(Opcode::One(Case::LdcW)),
            0x15 => Some(Opcode::One(Case::Iload)),
            0x36 => Some(Opcode::One(Case::Istore)),
            0x57 => Some(Opcode::One(Case::Pop)),
            0x59 => Some(Opcode::One(Case::Dup)),
            0x5F => Some(Opcode::One(Case::Swap)),
            0x60 => Some(Opcode::One(Case::Iadd)),
            0x64 => Some(Opcode::One(Case::Isub)),
            0x7E => Some(Opcode::One(Case::Iand)),
            0x80 => Some(Opcode::One(Case::Ior)),
            0x84 => Some(Opcode::One(Case::Iinc)),
            0x99 => Some(Opcode::Ifeq),
            0x9B => Some(Opcode::Iflt),
            0x9F => Some(Opcode::IfIcmpeq),
            0xA7 => Some(Opcode::One(Case::Goto)),
            0xAC => Some(Opcode::One(Case::Ireturn)),
            0xB6 => Some(Opcode::One(Case::Invokevirtual)),
            0xC4 => Some(Opcode::Wide),
            _ => None,
        }
    }
}
