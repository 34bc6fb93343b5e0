// The cycle table.
ghost use Rattle.std.specs.Prelude.{◌≡◌, map};
ghost use Rattle.instructions.specs.Table.{cases, cycles_of};

use crate::Case;

/// The cycle table: the cycles of each of the 24 cases, Main1 counted, in the order of `Case` (docs/instruction-machine.md).
pub const CYCLES: [u64; 24] = [
    2, 4, 8, 6, 7, 4, 3, 7, 4, 4, 4, 4, 7, 8, 11, 8, 11, 10, 13, 7, 9, 23, 10, 11,
];

/// The cycle table: an entry for each of the 24 cases, in cycles (docs/instruction-machine.md).
pub fn cycle_table() -> [u64; 24]
    ensures constant { result ≡ CYCLES }
    ensures entries { result ≡ map cycles_of cases }
{
    CYCLES
}

impl Case {
    /// The entry of a case in the cycle table: its cycles, Main1 counted (docs/instruction-machine.md).
    pub fn cycles(self) -> u64
        ensures { result ≡ cycles_of self }
    {
        CYCLES[self as usize]
    }
}
