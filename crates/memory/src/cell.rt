// The cells of a buffer, and the words that they make.
ghost use Rattle.std.specs.Prelude.{◌≡◌, ℕ, ◌^◌, ◌<◌, ◌≤◌, ◌/◌, ◌≢◌, List, length, slice_index, slice_get, slice_set, refl, Some, None};
ghost use Rattle.std.specs.Option.{option_map};
ghost use Rattle.memory.specs.Cells.{words_of};
ghost use Rattle.std.proofs.Common.{rules};

/// A number type of which one or more, in a row, make a word: digits in a base, the most significant first (docs/memory.md).
pub trait Cell: Copy + Drop {
    /// How many cells make a word, in contracts.
    ghost PER_WORD: { ℕ };

    /// How many cells make a word.
    const PER_WORD: usize;

    /// The base of the digits.
    ghost base: { ℕ };

    /// A cell as a digit.
    ghost digit: { Self → ℕ };

    /// The cells of a buffer as digits.
    ghost digits: { List Self → List ℕ };

    /// The word at a word address, and none where the cells make no such word (docs/memory.md).
    fn word_at(cells: &[Self], address: u32) -> Option<u32>
        ensures { result ≡ slice_get (words_of PER_WORD base (digits cells.now)) address };

    /// Replaces the word at a word address, and no other cell. Where the cells make no such word, each cell stays as it is (docs/memory.md).
    fn put_word(cells: &mut [Self], address: u32, word: u32)
        ensures word { words_of PER_WORD base (digits cells.new) ≡ slice_set (words_of PER_WORD base (digits cells.old)) address word }
        ensures elsewhere { (k : ℕ) → k / PER_WORD ≢ address → slice_index (digits cells.new) k ≡ slice_index (digits cells.old) k }
        ensures past { length (digits cells.old) / PER_WORD ≤ address → digits cells.new ≡ digits cells.old };

    /// A word has a cell.
    ghost positive: { 0 < PER_WORD };

    /// There are as many digits as cells.
    ghost count: { (cells : List Self) → length (digits cells) ≡ length cells };

    /// The digit at an index is that of the cell there.
    ghost each: { (cells : List Self) (k : ℕ) → slice_get (digits cells) k ≡ option_map digit (slice_get cells k) };

    /// Different cells are different digits.
    ghost one_to_one: { (a b : Self) → digit a ≡ digit b → a ≡ b };
}

/// A word is a cell.
impl Cell for u32 {
    ghost PER_WORD = { 1 };

    const PER_WORD: usize = 1;

    ghost base = { 2 ^ 32 };

    ghost digit = { λ cell. cell };

    ghost digits = { λ cells. cells };

    #[tactic(auto, using(crate::proofs::Words::one_cell, crate::proofs::Words::copied))]
    fn word_at(cells: &[u32], address: u32) -> Option<u32> {
        cells.get(address as usize).copied()
    }

    #[tactic(auto, using(crate::proofs::Words::one_cell, crate::proofs::Words::unset, crate::proofs::Words::other_cells))]
    fn put_word(cells: &mut [u32], address: u32, word: u32) {
        let at = address as usize;
        if at < cells.len() {
            cells[at] = word;
        }
    }

    ghost positive = { Prim.search rules };

    ghost count = { λ _. refl };

    ghost each = { λ cells k. elim (slice_get cells k) as (λ o. o ≡ option_map (λ cell. cell) o) [ None ↦ refl | Some _ ↦ refl ] };

    ghost one_to_one = { λ _ _ same. same };
}

/// A word is four bytes, the most significant first.
impl Cell for u8 {
    ghost PER_WORD = { 4 };

    const PER_WORD: usize = 4;

    ghost base = { 2 ^ 8 };

    ghost digit = { λ cell. cell };

    ghost digits = { λ cells. cells };

    #[tactic(auto, using(crate::proofs::Bytes::bytes_read, crate::proofs::Words::past))]
    fn word_at(cells: &[u8], address: u32) -> Option<u32> {
        let at = 4 * address as usize;
        if at + 4 > cells.len() {
            return None;
        }
        let bytes = [cells[at], cells[at + 1], cells[at + 2], cells[at + 3]];
        Some(u32::from_be_bytes(bytes))
    }

    #[tactic(auto, using(crate::proofs::Bytes::bytes_put, crate::proofs::Bytes::other_bytes, crate::proofs::Words::unset))]
    fn put_word(cells: &mut [u8], address: u32, word: u32) {
        let at = 4 * address as usize;
        if at + 4 <= cells.len() {
            cells[at..at + 4].copy_from_slice(&word.to_be_bytes());
        }
    }

    ghost positive = { Prim.search rules };

    ghost count = { λ _. refl };

    ghost each = { λ cells k. elim (slice_get cells k) as (λ o. o ≡ option_map (λ cell. cell) o) [ None ↦ refl | Some _ ↦ refl ] };

    ghost one_to_one = { λ _ _ same. same };
}
