// Trials of a step: the next PC, returns, and two faults at once.
use crate::step_trials::Group;

// BIPUSH and a GOTO to byte 33, where an IFEQ back to byte 4 fills the last three bytes.
const IFEQ_AT_33: [u8; 32] = [
    0x10, 0, 0xA7, 0, 27, 0, 0, 0, 0, 0, 0, 0, 0, 0, 0, 0, 0, 0, 0, 0, 0, 0, 0, 0, 0, 0, 0, 0, 0,
    0x99, 0xFF, 0xE3,
];

const IFEQ_OF_1_AT_33: [u8; 32] = [
    0x10, 1, 0xA7, 0, 27, 0, 0, 0, 0, 0, 0, 0, 0, 0, 0, 0, 0, 0, 0, 0, 0, 0, 0, 0, 0, 0, 0, 0, 0,
    0x99, 0xFF, 0xE3,
];

/// Branches to the last byte of code and behind it, to byte 0 and below it.
pub const NEXT: Group = Group {
    title: "THE NEXT PC: mark 9, so that the last byte of code is 35",
    size: 32,
    mark: 9,
    locals: 2,
    cpp: 0,
    pool: &[],
    trials: &[
        ("GOTO 31 at byte 4", &[0xA7, 0, 31], 0),
        ("GOTO 32 at byte 4", &[0xA7, 0, 32], 0),
        ("GOTO -4 at byte 4", &[0xA7, 0xFF, 0xFC], 0),
        ("GOTO -5 at byte 4", &[0xA7, 0xFF, 0xFB], 0),
        ("GOTO 0 at byte 4", &[0xA7, 0, 0], 0),
        ("GOTO 32767 at byte 4", &[0xA7, 0x7F, 0xFF], 0),
        ("GOTO -32768 at byte 4", &[0xA7, 0x80, 0], 0),
        ("IFEQ 29 of 0 at byte 6", &[0x10, 0, 0x99, 0, 29], 1),
        ("IFEQ 30 of 0 at byte 6", &[0x10, 0, 0x99, 0, 30], 1),
        ("IFEQ 30 of 1 at byte 6", &[0x10, 1, 0x99, 0, 30], 1),
        ("IFLT 29 of -1 at byte 6", &[0x10, 0xFF, 0x9B, 0, 29], 1),
        ("IFLT 30 of -1 at byte 6", &[0x10, 0xFF, 0x9B, 0, 30], 1),
        ("IFLT 30 of 1 at byte 6", &[0x10, 1, 0x9B, 0, 30], 1),
        (
            "IF_ICMPEQ 27 of 1 1 at byte 8",
            &[0x10, 1, 0x10, 1, 0x9F, 0, 27],
            2,
        ),
        (
            "IF_ICMPEQ 28 of 1 1 at byte 8",
            &[0x10, 1, 0x10, 1, 0x9F, 0, 28],
            2,
        ),
        (
            "IF_ICMPEQ 28 of 1 2 at byte 8",
            &[0x10, 1, 0x10, 2, 0x9F, 0, 28],
            2,
        ),
        ("IFEQ -29 of 0 at byte 33", &IFEQ_AT_33, 2),
        ("IFEQ -29 of 1 at byte 33", &IFEQ_OF_1_AT_33, 2),
    ],
};

// The method at byte 20 returns 9. It is called at byte 32, or at byte 33, behind which there is no byte of code.
const CALLED_AT_32: [u8; 32] = [
    0x10, 5, 0xA7, 0, 26, 0, 0, 0, 0, 0, 0, 0, 0, 0, 0, 0, 0, 1, 0, 0, 0x10, 9, 0xAC, 0, 0, 0, 0,
    0, 0xB6, 0, 0, 0,
];

const CALLED_AT_33: [u8; 32] = [
    0x10, 5, 0xA7, 0, 27, 0, 0, 0, 0, 0, 0, 0, 0, 0, 0, 0, 0, 1, 0, 0, 0x10, 9, 0xAC, 0, 0, 0, 0,
    0, 0, 0xB6, 0, 0,
];

// BIPUSH and a GOTO to an IRETURN at byte 35.
const IRETURN_AT_35: [u8; 32] = [
    0x10, 5, 0xA7, 0, 29, 0, 0, 0, 0, 0, 0, 0, 0, 0, 0, 0, 0, 0, 0, 0, 0, 0, 0, 0, 0, 0, 0, 0, 0,
    0, 0, 0xAC,
];

/// Returns from main and from called methods.
pub const END: Group = Group {
    title: "RETURNS: mark 9, pool 20",
    size: 32,
    mark: 9,
    locals: 2,
    cpp: 4,
    pool: &[20],
    trials: &[
        ("IRETURN of main", &[0x10, 5, 0xAC], 1),
        ("IRETURN of main at byte 35", &IRETURN_AT_35, 2),
        ("IRETURN of a method called at byte 32", &CALLED_AT_32, 4),
        ("IRETURN of a method called at byte 33", &CALLED_AT_33, 4),
    ],
};

// A GOTO to the last byte, the last two or the last three, and the instruction there.
const IADD_AT_35: [u8; 32] = [
    0xA7, 0, 31, 0, 0, 0, 0, 0, 0, 0, 0, 0, 0, 0, 0, 0, 0, 0, 0, 0, 0, 0, 0, 0, 0, 0, 0, 0, 0, 0,
    0, 0x60,
];

const BIPUSH_AT_34: [u8; 32] = [
    0xA7, 0, 30, 0, 0, 0, 0, 0, 0, 0, 0, 0, 0, 0, 0, 0, 0, 0, 0, 0, 0, 0, 0, 0, 0, 0, 0, 0, 0, 0,
    0x10, 5,
];

const LDC_W_AT_33: [u8; 32] = [
    0xA7, 0, 29, 0, 0, 0, 0, 0, 0, 0, 0, 0, 0, 0, 0, 0, 0, 0, 0, 0, 0, 0, 0, 0, 0, 0, 0, 0, 0,
    0x13, 0, 4,
];

const IINC_AT_33: [u8; 32] = [
    0xA7, 0, 29, 0, 0, 0, 0, 0, 0, 0, 0, 0, 0, 0, 0, 0, 0, 0, 0, 0, 0, 0, 0, 0, 0, 0, 0, 0, 0,
    0x84, 0, 5,
];

/// Steps that two checks would refuse: the first of the list does. The methods at bytes 24 and 28 have 65535 locals, and 0 and 2 params. SP is 31 and the depth 0.
pub const ORDER: Group = Group {
    title: "TWO FAULTS AT ONCE: size 32, mark 9, 20 locals, so that SP is 31 at depth 0; 4 pool words",
    size: 32,
    mark: 9,
    locals: 20,
    cpp: 4,
    pool: &[24, 28, 0x0000_FFFF, 0x0002_FFFF],
    trials: &[
        ("34 before 36: LDC_W 4", &[0x13, 0, 4], 0),
        ("34 before 36 and 37: LDC_W 4 at byte 33", &LDC_W_AT_33, 1),
        ("34 before 35 and 32: INVOKEVIRTUAL 4", &[0xB6, 0, 4], 0),
        ("35 before 32 and 36: INVOKEVIRTUAL 0", &[0xB6, 0, 0], 0),
        ("32 before 36: INVOKEVIRTUAL 1", &[0xB6, 0, 1], 0),
        ("32 before 36: DUP", &[0x59], 0),
        ("32 before 33: ISTORE 0", &[0x36, 0], 0),
        ("32 before 38: IRETURN", &[0xAC], 0),
        ("32 before 37: IFEQ 32", &[0x99, 0, 32], 0),
        ("32 before 37: IADD at byte 35", &IADD_AT_35, 1),
        ("33 before 36: ILOAD 0", &[0x15, 0], 0),
        ("33 before 36: WIDE ILOAD 21", &[0xC4, 0x15, 0, 21], 0),
        ("33 before 37: IINC 0 5 at byte 33", &IINC_AT_33, 1),
        ("36 before 37: BIPUSH 5 at byte 34", &BIPUSH_AT_34, 1),
    ],
};
