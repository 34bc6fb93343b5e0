// The names of the instructions.
ghost use Rattle.std.specs.Prelude.{◌≡◌, Some};
ghost use Rattle.trace.specs.Mnemonics.{mnemonic_text_of};

use std::fmt;

/// A byte as an opcode, displayed as the name of its instruction, and as `(unknown)` where no instruction has it (docs/trace.md).
#[derive(Clone, Copy, Debug, PartialEq, Eq)]
pub struct Opcode(pub u8);

impl Opcode {
    // The name of the instruction.
    fn name(self) -> &'static str
        ensures { result.now ≡ mnemonic_text_of self.0 }
    {
        match self.0 {
            0x00 => "NOP",
            0x10 => "BIPUSH",
            0x13 => "LDC_W",
            0x15 => "ILOAD",
            0x36 => "ISTORE",
            0x57 => "POP",
            0x59 => "DUP",
            0x5F => "SWAP",
            0x60 => "IADD",
            0x64 => "ISUB",
            0x7E => "IAND",
            0x80 => "IOR",
            0x84 => "IINC",
            0x99 => "IFEQ",
            0x9B => "IFLT",
            0x9F => "IF_ICMPEQ",
            0xA7 => "GOTO",
            0xAC => "IRETURN",
            0xB6 => "INVOKEVIRTUAL",
            0xC4 => "WIDE",
            _ => "(unknown)",
        }
    }
}

impl fmt::Display for Opcode {
    ghost output = { λ opcode. Some (mnemonic_text_of opcode.0) };

    fn fmt<W: fmt::Write>(&self, f: &mut fmt::Formatter<W>) -> fmt::Result {
        f.write_str(self.name())
    }
}
