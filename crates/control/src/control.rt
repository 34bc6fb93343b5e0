// Control words, by their fields.

/// The C bits of a control word: which registers are written from the C bus (docs/control-words.md).
#[derive(Clone, Copy, Debug, Default, PartialEq, Eq)]
pub struct CBits {
    /// Whether H is written.
    pub h: bool,
    /// Whether OPC is written.
    pub opc: bool,
    /// Whether TOS is written.
    pub tos: bool,
    /// Whether CPP is written.
    pub cpp: bool,
    /// Whether LV is written.
    pub lv: bool,
    /// Whether SP is written.
    pub sp: bool,
    /// Whether PC is written.
    pub pc: bool,
    /// Whether MDR is written.
    pub mdr: bool,
    /// Whether MAR is written.
    pub mar: bool,
}

/// A control word by its fields, from the high end: a `bool` for each bit, and a number for NEXT and B. It can hold what no control word has, a NEXT above 511 or a B above 15; `encode` refuses that (docs/control-words.md).
#[derive(Clone, Copy, Debug, Default, PartialEq, Eq)]
pub struct ControlWord {
    /// The address of the next control word, 0 to 511.
    pub next: u16,
    /// JMPC: the low 8 bits of NEXT are ORed with MBR.
    pub jmpc: bool,
    /// JAMN: bit 8 of NEXT is ORed with N.
    pub jamn: bool,
    /// JAMZ: bit 8 of NEXT is ORed with Z.
    pub jamz: bool,
    /// SLL8: the result is shifted left by 8.
    pub sll8: bool,
    /// SRA1: the result is shifted right by 1, and keeps its sign.
    pub sra1: bool,
    /// F0: the high bit of the ALU's function.
    pub f0: bool,
    /// F1: the low bit of the ALU's function.
    pub f1: bool,
    /// ENA: H is let into the ALU.
    pub ena: bool,
    /// ENB: the bus is let into the ALU.
    pub enb: bool,
    /// INVA: the left input is complemented.
    pub inva: bool,
    /// INC: 1 is added to a sum.
    pub inc: bool,
    /// The C bits.
    pub c: CBits,
    /// WRITE: a write is begun.
    pub write: bool,
    /// READ: a read is begun.
    pub read: bool,
    /// FETCH: a fetch is begun.
    pub fetch: bool,
    /// B: the code of what drives the B bus, 0 to 15.
    pub b: u8,
}
