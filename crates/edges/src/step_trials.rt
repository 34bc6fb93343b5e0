// Trials of a step: programs around each check.

/// A trial: what is tried, the code from byte 4 on, and how many steps come before the one that is printed.
pub type Trial = (&'static str, &'static [u8], u64);

/// Trials in one kind of memory, with one constant pool (docs/edges.md).
#[derive(Drop)]
pub struct Group {
    /// What is tried.
    pub title: &'static str,
    /// The words of the memory.
    pub size: u32,
    /// How many words are protected.
    pub mark: u32,
    /// How many locals main has.
    pub locals: u16,
    /// The word address of the constant pool.
    pub cpp: u32,
    /// The words of the constant pool.
    pub pool: &'static [u32],
    /// The trials.
    pub trials: &'static [Trial],
}

/// Every case of the cycle table, on 12 and 10, 7 and 5, or 5. The method at byte 11 has one param and no locals.
pub const EVERY_CASE: Group = Group {
    title: "EVERY CASE OF THE CYCLE TABLE: size 32, mark 9, 2 locals, pool 77 and 11",
    size: 32,
    mark: 9,
    locals: 2,
    cpp: 7,
    pool: &[77, 11],
    trials: &[
        ("NOP", &[0x00], 0),
        ("BIPUSH -2", &[0x10, 0xFE], 0),
        ("LDC_W 0", &[0x13, 0, 0], 0),
        ("ILOAD 1, which is 6", &[0x84, 1, 6, 0x15, 1], 1),
        ("ISTORE 2", &[0x10, 5, 0x36, 2], 1),
        ("POP of 7 5", &[0x10, 7, 0x10, 5, 0x57], 2),
        ("DUP of 5", &[0x10, 5, 0x59], 1),
        ("SWAP of 7 5", &[0x10, 7, 0x10, 5, 0x5F], 2),
        ("IADD of 12 10", &[0x10, 12, 0x10, 10, 0x60], 2),
        ("ISUB of 12 10", &[0x10, 12, 0x10, 10, 0x64], 2),
        ("ISUB of 10 12", &[0x10, 10, 0x10, 12, 0x64], 2),
        ("IAND of 12 10", &[0x10, 12, 0x10, 10, 0x7E], 2),
        ("IOR of 12 10", &[0x10, 12, 0x10, 10, 0x80], 2),
        ("IINC 1 -1", &[0x84, 1, 0xFF], 0),
        ("IFEQ 5 of 5", &[0x10, 5, 0x99, 0, 5], 1),
        ("IFEQ 5 of 0", &[0x10, 0, 0x99, 0, 5], 1),
        ("IFLT 5 of 0", &[0x10, 0, 0x9B, 0, 5], 1),
        ("IFLT 5 of -128", &[0x10, 0x80, 0x9B, 0, 5], 1),
        ("IF_ICMPEQ 5 of 7 5", &[0x10, 7, 0x10, 5, 0x9F, 0, 5], 2),
        ("IF_ICMPEQ 5 of 5 5", &[0x10, 5, 0x10, 5, 0x9F, 0, 5], 2),
        ("GOTO 5", &[0xA7, 0, 5], 0),
        ("INVOKEVIRTUAL 1", &CALL, 1),
        ("IRETURN of 9 from there", &CALL, 3),
        ("WIDE ILOAD 1", &[0xC4, 0x15, 0, 1], 0),
        ("WIDE ISTORE 2", &[0x10, 5, 0xC4, 0x36, 0, 2], 1),
    ],
};

// A call of the method at byte 11, which returns 9.
const CALL: [u8; 14] = [0x10, 5, 0xB6, 0, 1, 0, 0, 0, 1, 0, 0, 0x10, 9, 0xAC];

/// Bytes that are no opcode, and instructions at the end of code.
pub const BYTES_OF_CODE: Group = Group {
    title: "OPCODES, AND BYTES OUTSIDE CODE: mark 3, so that the last byte of code is 11",
    size: 32,
    mark: 3,
    locals: 2,
    cpp: 0,
    pool: &[],
    trials: &[
        ("opcode 0x01", &[0x01], 0),
        ("opcode 0xFF at byte 11", &[0, 0, 0, 0, 0, 0, 0, 0xFF], 7),
        ("NOP at byte 10", &[0, 0, 0, 0, 0, 0, 0, 0], 6),
        ("NOP at byte 11", &[0, 0, 0, 0, 0, 0, 0, 0], 7),
        ("BIPUSH 5 at byte 9", &[0, 0, 0, 0, 0, 0x10, 5, 0], 5),
        ("BIPUSH 5 at byte 10", &[0, 0, 0, 0, 0, 0, 0x10, 5], 6),
        ("BIPUSH at byte 11", &[0, 0, 0, 0, 0, 0, 0, 0x10], 7),
        ("ILOAD at byte 11", &[0, 0, 0, 0, 0, 0, 0, 0x15], 7),
        ("IINC 1 1 at byte 8", &[0, 0, 0, 0, 0x84, 1, 1, 0], 4),
        ("IINC 1 at byte 10", &[0, 0, 0, 0, 0, 0, 0x84, 1], 6),
        ("LDC_W at byte 10", &[0, 0, 0, 0, 0, 0, 0x13, 0], 6),
        ("INVOKEVIRTUAL at byte 10", &[0, 0, 0, 0, 0, 0, 0xB6, 0], 6),
        ("GOTO at byte 10", &[0, 0, 0, 0, 0, 0, 0xA7, 0], 6),
        ("GOTO -5 at byte 9", &[0, 0, 0, 0, 0, 0xA7, 0xFF, 0xFB], 5),
        ("WIDE at byte 11", &[0, 0, 0, 0, 0, 0, 0, 0xC4], 7),
        ("WIDE ILOAD at byte 10", &[0, 0, 0, 0, 0, 0, 0xC4, 0x15], 6),
        (
            "WIDE ISTORE 0 at byte 9",
            &[0, 0, 0, 0, 0, 0xC4, 0x36, 0],
            5,
        ),
        ("WIDE ILOAD 1 at byte 8", &[0, 0, 0, 0, 0xC4, 0x15, 0, 1], 4),
        ("WIDE ILOAD 1 at byte 7", &[0, 0, 0, 0xC4, 0x15, 0, 1, 0], 3),
        ("WIDE IADD at byte 10", &[0, 0, 0, 0, 0, 0, 0xC4, 0x60], 6),
        ("WIDE WIDE at byte 10", &[0, 0, 0, 0, 0, 0, 0xC4, 0xC4], 6),
        ("WIDE IINC 0 0 at byte 4", &[0xC4, 0x84, 0, 0], 0),
    ],
};

/// An index or disp within the constant pool and behind it. The method at byte 31 has its last header byte before the last byte of code; the one at byte 0 is main.
pub const POOL: Group = Group {
    title: "THE POOL: mark 9, pool 31, 0 and 16777216",
    size: 32,
    mark: 9,
    locals: 2,
    cpp: 6,
    pool: &[31, 0, 0x0100_0000],
    trials: &[
        ("LDC_W 0", &[0x13, 0, 0], 0),
        ("LDC_W 2", &[0x13, 0, 2], 0),
        ("LDC_W 3", &[0x13, 0, 3], 0),
        ("LDC_W 256", &[0x13, 1, 0], 0),
        ("LDC_W 65535", &[0x13, 0xFF, 0xFF], 0),
        ("INVOKEVIRTUAL 0", &[0x10, 5, 0xB6, 0, 0], 1),
        ("INVOKEVIRTUAL 1", &[0x10, 5, 0xB6, 0, 1], 1),
        ("INVOKEVIRTUAL 2", &[0x10, 5, 0xB6, 0, 2], 1),
        ("INVOKEVIRTUAL 3", &[0x10, 5, 0xB6, 0, 3], 1),
        ("INVOKEVIRTUAL 256", &[0x10, 5, 0xB6, 1, 0], 1),
    ],
};

/// Calls of methods whose code lies outside code, or that have no params.
pub const METHODS: Group = Group {
    title: "METHODS: mark 9, pool 32, 2^32 - 4, 2^32 - 1, and 16, where params are 0",
    size: 32,
    mark: 9,
    locals: 2,
    cpp: 5,
    pool: &[32, 0xFFFF_FFFC, 0xFFFF_FFFF, 16],
    trials: &[
        ("INVOKEVIRTUAL 0", &[0x10, 5, 0xB6, 0, 0], 1),
        ("INVOKEVIRTUAL 1", &[0x10, 5, 0xB6, 0, 1], 1),
        ("INVOKEVIRTUAL 2", &[0x10, 5, 0xB6, 0, 2], 1),
        ("INVOKEVIRTUAL 3", &[0x10, 5, 0xB6, 0, 3], 1),
    ],
};

/// Every instruction that needs words on the operand stack, with just enough and with one fewer. The method at byte 24 has two params.
pub const DEPTH: Group = Group {
    title: "DEPTH: mark 9, the method has 2 params",
    size: 32,
    mark: 9,
    locals: 2,
    cpp: 6,
    pool: &[0x0002_0000, 0, 24],
    trials: &[
        ("POP at depth 0", &[0x57], 0),
        ("POP at depth 1", &[0x10, 5, 0x57], 1),
        ("DUP at depth 0", &[0x59], 0),
        ("DUP at depth 1", &[0x10, 5, 0x59], 1),
        ("ISTORE 1 at depth 0", &[0x36, 1], 0),
        ("ISTORE 1 at depth 1", &[0x10, 5, 0x36, 1], 1),
        ("WIDE ISTORE 1 at depth 0", &[0xC4, 0x36, 0, 1], 0),
        ("WIDE ISTORE 1 at depth 1", &[0x10, 5, 0xC4, 0x36, 0, 1], 1),
        ("IFEQ 5 at depth 0", &[0x99, 0, 5], 0),
        ("IFEQ 5 at depth 1", &[0x10, 5, 0x99, 0, 5], 1),
        ("IFLT 5 at depth 0", &[0x9B, 0, 5], 0),
        ("IFLT 5 at depth 1", &[0x10, 5, 0x9B, 0, 5], 1),
        ("SWAP at depth 1", &[0x10, 5, 0x5F], 1),
        ("SWAP at depth 2", &[0x10, 7, 0x10, 5, 0x5F], 2),
        ("IADD at depth 1", &[0x10, 5, 0x60], 1),
        ("IADD at depth 2", &[0x10, 7, 0x10, 5, 0x60], 2),
        ("ISUB at depth 1", &[0x10, 5, 0x64], 1),
        ("ISUB at depth 2", &[0x10, 7, 0x10, 5, 0x64], 2),
        ("IAND at depth 1", &[0x10, 5, 0x7E], 1),
        ("IAND at depth 2", &[0x10, 7, 0x10, 5, 0x7E], 2),
        ("IOR at depth 1", &[0x10, 5, 0x80], 1),
        ("IOR at depth 2", &[0x10, 7, 0x10, 5, 0x80], 2),
        ("IF_ICMPEQ 5 at depth 1", &[0x10, 5, 0x9F, 0, 5], 1),
        ("IF_ICMPEQ 5 at depth 2", &[0x10, 7, 0x10, 5, 0x9F, 0, 5], 2),
        ("INVOKEVIRTUAL 2 at depth 1", &[0x10, 5, 0xB6, 0, 2], 1),
        (
            "INVOKEVIRTUAL 2 at depth 2",
            &[0x10, 7, 0x10, 5, 0xB6, 0, 2],
            2,
        ),
        ("IRETURN at depth 0", &[0xAC], 0),
        ("IRETURN at depth 1", &[0x10, 5, 0xAC], 1),
    ],
};
