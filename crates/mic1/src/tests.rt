// What the program writes of images that are made from words: to standard output, and to standard error. The texts that are expected are those of docs/program.md and of the tables of refusals; the figures are counted by the cycle table (docs/instruction-machine.md).
use crate::answer::answer;
use std::alloc::{AllocError, Global};
use std::process::Abort;
use std::str;
use std::test::Fail;

// The words of the summing image without its checks: the numbers of block 0, and the method in block 1.
const SUMMING: [&[u32]; 2] = [
    &[2, 32, 9, 9, 0, 0],
    &[
        0x0001_0002,
        0x1003_3601,
        0x1000_3602,
        0x1502_1501,
        0x6036_0284,
        0x01FF_1501,
        0x9900_06A7,
        0xFFF1_1502,
        0xAC00_0000,
    ],
];

// Where a block has its check.
const CHECK: usize = 127;

// A word that is other than the summing image's.
#[derive(Clone, Copy)]
struct Change {
    block: usize,
    // its place in the block
    place: usize,
    word: u32,
}

fn word_at(changes: &[Change], block: usize, place: usize) -> Option<u32> {
    let changed = changes
        .iter()
        .find(|change| change.block == block && change.place == place)
        .map(|change| change.word);
    let summing = SUMMING.get(block).and_then(|words| words.get(place));
    changed.or(summing.copied())
}

// The summing image in so many blocks, with changes, and with the checks of the words that it then has.
fn image(heap: Global, blocks: usize, changes: &[Change]) -> Result<Vec<u8>, AllocError> {
    let mut bytes = Vec::new(heap);
    for (block, number) in (0..blocks).zip(0u32..) {
        let mut check = number;
        for place in 0..CHECK {
            let word = word_at(changes, block, place).unwrap_or(0);
            check = check.wrapping_sub(word);
            bytes.extend_from_slice(&word.to_be_bytes())?;
        }
        let check = word_at(changes, block, CHECK).unwrap_or(check);
        bytes.extend_from_slice(&check.to_be_bytes())?;
    }
    Ok(bytes)
}

// A summing image with changes, and what is written of it.
#[derive(Clone, Copy)]
struct Trial {
    what: &'static str,
    changes: &'static [Change],
    // on standard output
    lines: &'static str,
    // on standard error
    reason: &'static str,
}

const TRIALS: [Trial; 14] = [
    Trial {
        what: "the summing image",
        changes: &[],
        lines: "end 38\nsteps 28\ncycles 177\ntop 6\n",
        reason: "",
    },
    Trial {
        what: "another check",
        changes: &[Change {
            block: 1,
            place: CHECK,
            word: 0x23D3_4BCE,
        }],
        lines: "end 21\nsteps 0\ncycles 0\ntop -\n",
        reason: "load: refused 21: the words of block 1 do not add up to its number\n",
    },
    Trial {
        what: "word 0 is 3",
        changes: &[Change {
            block: 0,
            place: 0,
            word: 3,
        }],
        lines: "end 22\nsteps 0\ncycles 0\ntop -\n",
        reason: "load: refused 22: word 0 is not the number of blocks\n",
    },
    Trial {
        what: "size 15",
        changes: &[Change {
            block: 0,
            place: 1,
            word: 15,
        }],
        lines: "end 23\nsteps 0\ncycles 0\ntop -\n",
        reason: "load: refused 23: the size is not from 16 to 1048576 words\n",
    },
    Trial {
        what: "mark 0",
        changes: &[Change {
            block: 0,
            place: 2,
            word: 0,
        }],
        lines: "end 23\nsteps 0\ncycles 0\ntop -\n",
        reason: "load: refused 23: the mark is 0 or not below the size, or asks for another number of blocks\n",
    },
    Trial {
        what: "CPP 9, pool count 1",
        changes: &[Change {
            block: 0,
            place: 4,
            word: 1,
        }],
        lines: "end 23\nsteps 0\ncycles 0\ntop -\n",
        reason: "load: refused 23: the constant pool does not lie below the mark\n",
    },
    Trial {
        what: "main at byte 32, the first behind code is 36",
        changes: &[Change {
            block: 0,
            place: 5,
            word: 32,
        }],
        lines: "end 23\nsteps 0\ncycles 0\ntop -\n",
        reason: "load: refused 23: main does not begin in code, has not 1 param, or has no room for its frame\n",
    },
    Trial {
        what: "word 6 is 1",
        changes: &[Change {
            block: 0,
            place: 6,
            word: 1,
        }],
        lines: "end 24\nsteps 0\ncycles 0\ntop -\n",
        reason: "load: refused 24: an unused byte is not zero\n",
    },
    Trial {
        what: "size 8193",
        changes: &[Change {
            block: 0,
            place: 1,
            word: 8193,
        }],
        lines: "end 25\nsteps 0\ncycles 0\ntop -\n",
        reason: "load: refused 25: the memory has another size than the image is for\nthe program makes memories of 16 to 8192 words\n",
    },
    Trial {
        what: "opcode 0x01 at byte 8",
        changes: &[Change {
            block: 1,
            place: 2,
            word: 0x0100_3602,
        }],
        lines: "end 31\nsteps 2\ncycles 11\ntop -\n",
        reason: "step 3 at PC 8: refused 31: no instruction has this opcode\n",
    },
    Trial {
        what: "ILOAD 3 at byte 12, of 2 locals",
        changes: &[Change {
            block: 1,
            place: 3,
            word: 0x1503_1501,
        }],
        lines: "end 33\nsteps 4\ncycles 22\ntop -\n",
        reason: "step 5 at PC 12: refused 33: the frame has no such variable\n",
    },
    Trial {
        what: "DUP at bytes 6 and 7, of size 16, where main has SP 13",
        changes: &[
            Change {
                block: 0,
                place: 1,
                word: 16,
            },
            Change {
                block: 1,
                place: 1,
                word: 0x1003_5959,
            },
        ],
        lines: "end 36\nsteps 2\ncycles 7\ntop 3\n",
        reason: "step 3 at PC 7: refused 36: the new SP is not below size\n",
    },
    Trial {
        what: "three times NOP at byte 32, then BIPUSH at the last byte of code",
        changes: &[Change {
            block: 1,
            place: 8,
            word: 0x0000_0010,
        }],
        lines: "end 30\nsteps 31\ncycles 183\ntop 6\n",
        reason: "step 32 at PC 35: refused 30: a byte of the instruction lies outside code\n",
    },
    Trial {
        what: "BIPUSH 0 at byte 4: 4 steps, 124999 turns, and 4 steps of a turn",
        changes: &[Change {
            block: 1,
            place: 1,
            word: 0x1000_3601,
        }],
        lines: "end 0\nsteps 1000000\ncycles 6374994\ntop -\n",
        reason: "1000000 steps were performed, and main has not returned\n",
    },
];

// What the program writes of an input is so.
fn assert_written(
    rt: &(impl Abort + AllocGlobal),
    what: &str,
    input: &[u8],
    lines: &str,
    reason: &str,
) -> Result<(), Fail> {
    let (mut out, mut errors) = (Vec::new(rt.alloc()), Vec::new(rt.alloc()));
    answer(rt.alloc(), input, &mut out, &mut errors)?;
    assert_eq!(rt; str::from_utf8(&out)?, lines, "{what}");
    assert_eq!(rt; str::from_utf8(&errors)?, reason, "{what}");
    Ok(())
}

#[test]
fn tells_why_main_has_not_returned(rt: HostRuntime) -> Result<(), Fail> {
    for trial in TRIALS {
        let input = image(rt.alloc(), 2, trial.changes)?;
        assert_written(&rt, trial.what, &input, trial.lines, trial.reason)?;
    }
    Ok(())
}

// The summing image in 64 blocks, which are as many bytes as the program takes, and one byte more.
#[test]
fn takes_64_blocks(rt: HostRuntime) -> Result<(), Fail> {
    let changes = [
        Change {
            block: 0,
            place: 0,
            word: 64,
        },
        Change {
            block: 0,
            place: 1,
            word: 8192,
        },
        Change {
            block: 0,
            place: 2,
            word: 8001,
        },
    ];
    let mut input = image(rt.alloc(), 64, &changes)?;
    let lines = "end 38\nsteps 28\ncycles 177\ntop 6\n";
    assert_written(&rt, "64 blocks", &input, lines, "")?;
    input.push(0)?;
    let reason = "the input is longer than 32768 bytes: only these were read\n";
    assert_written(&rt, "a byte behind them", &input, lines, reason)?;
    input.truncate(1023);
    let lines = "end 20\nsteps 0\ncycles 0\ntop -\n";
    let reason = "load: refused 20: the length is below 1024 bytes, or no multiple of 512\n";
    assert_written(&rt, "cut off", &input, lines, reason)?;
    Ok(())
}

// Standard output that takes nothing is an error; standard error that takes nothing changes nothing.
#[test]
fn fails_with_standard_output_alone(rt: HostRuntime) -> Result<(), Fail> {
    let mut written = Vec::new(rt.alloc());
    let mut full: &mut [u8] = &mut [];
    assert!(rt; answer(rt.alloc(), &[], &mut full, &mut written).is_err());
    assert_eq!(rt; written.len(), 0);
    answer(rt.alloc(), &[], &mut written, &mut full)?;
    assert_eq!(rt;
        str::from_utf8(&written)?,
        "end 20\nsteps 0\ncycles 0\ntop -\n"
    );
    Ok(())
}
