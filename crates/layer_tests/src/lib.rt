// What the layers promise, used and tried: code over any memory, and examples with values from outside.
#![tactic(auto)]

ghost use Rattle.std.specs.Prelude.{◌≡◌, ◌^◌, OnErr, IsErr};
ghost use Rattle.layer_tests.specs.Moved.{move_of, moved_of};
ghost use Rattle.memory.specs.Cells.{made_of, usable, unused};

use memory::{AccessRefusal, Cell, LentMemory, Memory};

mod control_tests;
mod cycle_tests;
mod instruction_tests;
mod memory_tests;

/// Copies the word at one word address to another. Refused with 4 as the read of the one is, then with 4 or 5 as the write of the other; then the memory stays as it is (docs/memory.md).
pub fn move_word<M: Memory>(memory: &mut M, from: u32, to: u32) -> Result<(), AccessRefusal>
    ensures answer { result ≡ move_of (M.Memory.meaning memory.old) from to }
    ensures after { M.Memory.meaning memory.new ≡ moved_of (M.Memory.meaning memory.old) from to }
    ensures kept { OnErr result (memory.new ≡ memory.old) }
    ensures loan { M.Memory.loan memory.new ≡ M.Memory.loan memory.old }
{
    let word = memory.read(from)?;
    memory.write(to, word)
}

/// Copies a word in a lent buffer, of words or of bytes, and gives the buffer back. Where the copy is refused, or the buffer makes no memory, each cell stays as it is (docs/memory.md).
pub fn moved_in<'a, C: Cell>(buffer: &'a mut [C], from: u32, to: u32) -> &'a mut [C]
    ensures lender { result.ghost_name ≡ buffer.entry.ghost_name }
    ensures words { usable C.PER_WORD C.base (C.digits result.now) ≡ (moved_of (made_of C.PER_WORD C.base (C.digits buffer.old)) from to).words }
    ensures unused { unused C.PER_WORD (C.digits result.now) ≡ unused C.PER_WORD (C.digits buffer.old) }
    ensures kept { IsErr (move_of (made_of C.PER_WORD C.base (C.digits buffer.old)) from to) → result.now ≡ buffer.old }
{
    let mut memory = LentMemory::make(buffer);
    // a refused copy leaves the buffer, as the contract says
    let _ = move_word(&mut memory, from, to);
    memory.into_cells()
}

/// Copies a word in the lender's own buffer of words: what `moved_in` promises, as it reads at words (docs/memory.md).
pub fn move_in_words(buffer: &mut [u32], from: u32, to: u32)
    ensures words { usable 1 (2 ^ 32) buffer.new ≡ (moved_of (made_of 1 (2 ^ 32) buffer.old) from to).words }
    ensures unused { unused 1 buffer.new ≡ unused 1 buffer.old }
    ensures kept { IsErr (move_of (made_of 1 (2 ^ 32) buffer.old) from to) → buffer.new ≡ buffer.old }
{
    let _back = moved_in(buffer, from, to);
}
