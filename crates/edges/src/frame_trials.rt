// Trials of a step: the variables of a frame, and the room for a push or a call.
use crate::step_trials::Group;

/// Variables 0 to 3, 255 and 258, where there are 1 and 2.
pub const TWO_VARIABLES: Group = Group {
    title: "VARIABLES: 2 locals",
    size: 32,
    mark: 9,
    locals: 2,
    cpp: 0,
    pool: &[],
    trials: &[
        ("ILOAD 0", &[0x15, 0], 0),
        ("ILOAD 1", &[0x15, 1], 0),
        ("ILOAD 2", &[0x15, 2], 0),
        ("ILOAD 3", &[0x15, 3], 0),
        ("ILOAD 255", &[0x15, 255], 0),
        ("ISTORE 0", &[0x10, 5, 0x36, 0], 1),
        ("ISTORE 1", &[0x10, 5, 0x36, 1], 1),
        ("ISTORE 2", &[0x10, 5, 0x36, 2], 1),
        ("ISTORE 3", &[0x10, 5, 0x36, 3], 1),
        ("IINC 0 5", &[0x84, 0, 5], 0),
        ("IINC 1 5", &[0x84, 1, 5], 0),
        ("IINC 2 5", &[0x84, 2, 5], 0),
        ("IINC 3 5", &[0x84, 3, 5], 0),
        ("WIDE ILOAD 0", &[0xC4, 0x15, 0, 0], 0),
        ("WIDE ILOAD 2", &[0xC4, 0x15, 0, 2], 0),
        ("WIDE ILOAD 3", &[0xC4, 0x15, 0, 3], 0),
        ("WIDE ILOAD 258", &[0xC4, 0x15, 1, 2], 0),
        ("WIDE ISTORE 0", &[0x10, 5, 0xC4, 0x36, 0, 0], 1),
        ("WIDE ISTORE 2", &[0x10, 5, 0xC4, 0x36, 0, 2], 1),
        ("WIDE ISTORE 3", &[0x10, 5, 0xC4, 0x36, 0, 3], 1),
    ],
};

/// Variables 0 and 1, where there is none.
pub const NO_VARIABLE: Group = Group {
    title: "VARIABLES: no locals",
    size: 32,
    mark: 9,
    locals: 0,
    cpp: 0,
    pool: &[],
    trials: &[
        ("ILOAD 0", &[0x15, 0], 0),
        ("ILOAD 1", &[0x15, 1], 0),
        ("IINC 1 5", &[0x84, 1, 5], 0),
    ],
};

/// Variables 255 to 257, where there are 256.
pub const MANY_VARIABLES: Group = Group {
    title: "VARIABLES: 256 locals, size 512",
    size: 512,
    mark: 9,
    locals: 256,
    cpp: 0,
    pool: &[],
    trials: &[
        ("IINC 255 5", &[0x84, 255, 5], 0),
        ("WIDE ISTORE 256", &[0x10, 5, 0xC4, 0x36, 1, 0], 1),
        (
            "WIDE ILOAD 256",
            &[0x10, 5, 0xC4, 0x36, 1, 0, 0xC4, 0x15, 1, 0],
            2,
        ),
        ("WIDE ILOAD 257", &[0xC4, 0x15, 1, 1], 0),
        ("WIDE ISTORE 257", &[0x10, 5, 0xC4, 0x36, 1, 1], 1),
    ],
};

/// Variables 0 to 3 in a called method, where there are 1 and 2. The method at byte 11: its variable 1 is the second param, 10, and 2 is its local.
pub const CALLED_FRAME: Group = Group {
    title: "VARIABLES: in a called method with 2 params and 1 local",
    size: 32,
    mark: 9,
    locals: 2,
    cpp: 8,
    pool: &[11],
    trials: &[
        (
            "ILOAD 0",
            &[0x10, 12, 0x10, 10, 0xB6, 0, 0, 0, 2, 0, 1, 0x15, 0],
            3,
        ),
        (
            "ILOAD 1",
            &[0x10, 12, 0x10, 10, 0xB6, 0, 0, 0, 2, 0, 1, 0x15, 1],
            3,
        ),
        (
            "ILOAD 2",
            &[0x10, 12, 0x10, 10, 0xB6, 0, 0, 0, 2, 0, 1, 0x15, 2],
            3,
        ),
        (
            "ILOAD 3",
            &[0x10, 12, 0x10, 10, 0xB6, 0, 0, 0, 2, 0, 1, 0x15, 3],
            3,
        ),
    ],
};

/// Pushes, and what pushes nothing, at an SP of 30 and of 31, the last word.
pub const ROOM: Group = Group {
    title: "ROOM: size 32, 18 locals, so that SP is 29 before the first push",
    size: 32,
    mark: 9,
    locals: 18,
    cpp: 8,
    pool: &[77],
    trials: &[
        ("DUP at SP 30", &[0x10, 5, 0x59], 1),
        ("DUP at SP 31", &[0x10, 5, 0x59, 0x59], 2),
        ("BIPUSH 6 at SP 30", &[0x10, 5, 0x10, 6], 1),
        ("BIPUSH 6 at SP 31", &[0x10, 5, 0x10, 5, 0x10, 6], 2),
        ("LDC_W 0 at SP 30", &[0x10, 5, 0x13, 0, 0], 1),
        ("LDC_W 0 at SP 31", &[0x10, 5, 0x10, 5, 0x13, 0, 0], 2),
        ("ILOAD 1 at SP 30", &[0x10, 5, 0x15, 1], 1),
        ("ILOAD 1 at SP 31", &[0x10, 5, 0x10, 5, 0x15, 1], 2),
        ("WIDE ILOAD 1 at SP 30", &[0x10, 5, 0xC4, 0x15, 0, 1], 1),
        (
            "WIDE ILOAD 1 at SP 31",
            &[0x10, 5, 0x10, 5, 0xC4, 0x15, 0, 1],
            2,
        ),
        ("NOP at SP 31", &[0x10, 5, 0x10, 6, 0], 2),
        ("POP at SP 31", &[0x10, 5, 0x10, 6, 0x57], 2),
        ("SWAP at SP 31", &[0x10, 5, 0x10, 6, 0x5F], 2),
        ("IADD at SP 31", &[0x10, 5, 0x10, 6, 0x60], 2),
        ("ISTORE 1 at SP 31", &[0x10, 5, 0x10, 6, 0x36, 1], 2),
        ("IINC 1 5 at SP 31", &[0x10, 5, 0x10, 6, 0x84, 1, 5], 2),
    ],
};

/// Calls whose frame has just room, or none. The methods at bytes 24, 28 and 32 have one param, and 1, 2 and 65535 locals.
pub const ROOM_OF_CALLS: Group = Group {
    title: "ROOM: size 32, calls at SP 28 of methods with 1, 2 and 65535 locals",
    size: 32,
    mark: 10,
    locals: 15,
    cpp: 3,
    pool: &[24, 28, 32, 0x0001_0001, 0x0001_0002, 0x0001_FFFF],
    trials: &[
        ("INVOKEVIRTUAL 0", &[0x10, 5, 0xB6, 0, 0], 1),
        ("INVOKEVIRTUAL 1", &[0x10, 5, 0xB6, 0, 1], 1),
        ("INVOKEVIRTUAL 2", &[0x10, 5, 0xB6, 0, 2], 1),
    ],
};
