// The calls of a memory over a lent buffer.
ghost use Rattle.std.specs.Prelude.{◌≡◌, length, is_some, if◌then◌else◌};
ghost use Rattle.memory.specs.Buffers.{lent_meaning, lent_loan, cells_in, buffer_of};
ghost use Rattle.memory.specs.Cells.{make_of, made_of};

use crate::{AccessRefusal, Cell, LentMemory, MakeRefusal, Memory, ProtectRefusal};

/// A memory over a buffer of words (docs/memory.md).
pub type WordMemory<'a> = LentMemory<'a, u32>;

/// A memory over a buffer of bytes, four to a word, the most significant first (docs/memory.md).
pub type ByteMemory<'a> = LentMemory<'a, u8>;

impl<'a, C: Cell> LentMemory<'a, C> {
    /// A memory over the buffer as it is, with mark 0. Where `refusal` refuses the buffer, the memory has size 0 (docs/memory.md).
    pub fn make(cells: &'a mut [C]) -> LentMemory<'a, C>
        ensures meaning { lent_meaning result ≡ made_of C.PER_WORD C.base (C.digits cells.old) }
        ensures lender { buffer_of result ≡ cells.entry.ghost_name }
        ensures buffer { cells_in result ≡ cells.old }
    {
        let used = used_of(cells);
        LentMemory {
            cells,
            used,
            mark: 0,
        }
    }

    /// Why a memory over the buffer has size 0: refused with 2 where the buffer ends within a word, then with 1 where it has fewer than 16 words or more than 1,048,576, else none (docs/memory.md).
    pub fn refusal(cells: &[C]) -> Option<MakeRefusal>
        ensures { result ≡ make_of C.PER_WORD (length cells.now) }
    {
        let size = cells.len() / C::PER_WORD;
        if cells.len() % C::PER_WORD != 0 {
            Some(MakeRefusal::BrokenWord)
        } else if !(16..=1_048_576).contains(&size) {
            Some(MakeRefusal::WrongSize)
        } else {
            None
        }
    }

    /// The buffer that was lent, as the calls left it (docs/memory.md).
    pub fn into_cells(self) -> &'a mut [C]
        ensures lender { result.ghost_name ≡ buffer_of self.entry }
        ensures buffer { result.now ≡ cells_in self.entry }
    {
        let LentMemory {
            cells,
            used: _,
            mark: _,
        } = self;
        cells
    }
}

// How many of the cells make words: all, or none where make refuses them.
fn used_of<C: Cell>(cells: &[C]) -> usize
    ensures { result ≡ (if is_some (make_of C.PER_WORD (length cells.now)) then 0 else length cells.now) }
{
    if LentMemory::refusal(cells).is_some() {
        0
    } else {
        cells.len()
    }
}

impl<C: Cell> Memory for LentMemory<'_, C> {
    ghost meaning = { lent_meaning };

    ghost loan = { lent_loan };

    // the cast is proved to lose nothing
    #[tactic(auto, using(crate::proofs::Words::used_size))]
    fn size(&self) -> u32 {
        (self.used / C::PER_WORD) as u32
    }

    fn mark(&self) -> u32 {
        self.mark.min(self.size())
    }

    // one test for the size and the cells: of the address against the cells that make words
    #[tactic(auto, using(crate::proofs::Words::used_words))]
    fn read(&self, address: u32) -> Result<u32, AccessRefusal> {
        C::word_at(&self.cells[..self.used], address).ok_or(AccessRefusal::OutOfRange)
    }

    fn write(&mut self, address: u32, word: u32) -> Result<(), AccessRefusal> {
        if address >= self.size() {
            return Err(AccessRefusal::OutOfRange);
        }
        if address < self.mark {
            return Err(AccessRefusal::Protected);
        }
        C::put_word(self.cells, address, word);
        Ok(())
    }

    fn protect(&mut self, mark: u32) -> Result<(), ProtectRefusal> {
        if mark < self.mark() || mark > self.size() {
            return Err(ProtectRefusal::WrongMark);
        }
        self.mark = mark;
        Ok(())
    }
}
