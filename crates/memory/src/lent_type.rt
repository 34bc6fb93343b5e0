// The type of a memory over a lent buffer.
ghost use Rattle.std.specs.Prelude.{◌≡◌, length, is_some, if◌then◌else◌};
ghost use Rattle.memory.specs.Cells.{make_of};

use crate::Cell;

/// A memory over a lent buffer of cells, which it holds until `into_cells` gives it back (docs/memory.md).
#[derive(Drop)]
pub struct LentMemory<'a, C: Cell> {
    pub(crate) cells: &'a mut [C],
    // how many of the cells make words: each access asks for it
    pub(crate) used: usize,
    // as protect has set it
    pub(crate) mark: u32,
    // all cells of the buffer, and none of one that make refuses
    ghost used_cells: { used ≡ (if is_some (make_of C.PER_WORD (length cells.now)) then 0 else length cells.now) },
}
