// The cases of the cycle table.

/// A case of the cycle table: an instruction, or one of the two ways that a branch can go. There are 24, in the table's order (docs/instruction-machine.md).
#[derive(Clone, Copy, Debug, PartialEq, Eq)]
pub enum Case {
    /// NOP.
    Nop,
    /// BIPUSH.
    Bipush,
    /// LDC_W.
    LdcW,
    /// ILOAD.
    Iload,
    /// ISTORE.
    Istore,
    /// POP.
    Pop,
    /// DUP.
    Dup,
    /// SWAP.
    Swap,
    /// IADD.
    Iadd,
    /// ISUB.
    Isub,
    /// IAND.
    Iand,
    /// IOR.
    Ior,
    /// IINC.
    Iinc,
    /// IFEQ that falls through.
    IfeqFalls,
    /// IFEQ that is taken.
    IfeqTaken,
    /// IFLT that falls through.
    IfltFalls,
    /// IFLT that is taken.
    IfltTaken,
    /// IF_ICMPEQ that falls through.
    IfIcmpeqFalls,
    /// IF_ICMPEQ that is taken.
    IfIcmpeqTaken,
    /// GOTO.
    Goto,
    /// IRETURN.
    Ireturn,
    /// INVOKEVIRTUAL.
    Invokevirtual,
    /// WIDE ILOAD.
    WideIload,
    /// WIDE ISTORE.
    WideIstore,
}
