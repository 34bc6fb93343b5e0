// An instruction that was performed.
use crate::instruction::Instruction;
use crate::way::Way;
use std::fmt;

/// Where a program is (docs/trace.md).
#[derive(Clone, Copy)]
pub struct Place {
    /// PC, a byte address.
    pub address: u32,
    /// LV, the word address of the frame.
    pub frame: u32,
}

/// An instruction that was performed, displayed as its line behind its cycles (docs/trace.md).
#[derive(Clone, Copy)]
pub struct Performed {
    /// Where it stands, and in which frame it was performed.
    pub place: Place,
    /// The instruction.
    pub instruction: Instruction,
    /// Where it went.
    pub way: Way,
    /// The cycles that it took.
    pub cycles: u64,
    /// The cycles so far, its own among them.
    pub total: u64,
}

impl fmt::Display for Performed {
    fn fmt<W: fmt::Write>(&self, f: &mut fmt::Formatter<W>) -> fmt::Result {
        let Performed {
            place: Place { address, .. },
            instruction,
            way,
            cycles,
            total,
            ..
        } = self;
        write!(
            f,
            "PC {address}: {instruction}{way}: {cycles} cycles, {total} in all"
        )
    }
}
