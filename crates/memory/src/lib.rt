// The memory of the Mic-1: what a memory means, and a memory over a lent buffer of words or of bytes that has this meaning.
#![tactic(auto)]

ghost use Rattle.std.specs.Prelude.{◌≡◌, OnErr};
ghost use Rattle.memory.specs.Loans.{Loan};
ghost use Rattle.memory.specs.Meaning.{Meaning, Proper, size_of, read_of, write_of, written_of, protect_of, protected_of};

mod access_refusal;
mod cell;
mod lent_memory;
mod lent_type;
mod make_refusal;
mod protect_refusal;

pub use access_refusal::AccessRefusal;
pub use cell::Cell;
pub use lent_memory::{ByteMemory, WordMemory};
pub use lent_type::LentMemory;
pub use make_refusal::MakeRefusal;
pub use protect_refusal::ProtectRefusal;

/// A memory: words by their addresses, and a mark below which they are protected. An address counts words.
///
/// A memory lies in buffers that its maker lent, its loan, and each call keeps the loan. A refused call leaves the memory as it was (docs/memory.md).
pub trait Memory {
    /// The words and the mark of a memory.
    ghost meaning: { Self → Meaning };

    /// The buffers in which a memory lies, and their cells that are no part of a word.
    ghost loan: { Self → Loan };

    /// The size: the number of words, at most 1,048,576 (docs/memory.md).
    fn size(&self) -> u32
        ensures value { result ≡ size_of (meaning self.now) }
        ensures proper { Proper (meaning self.now) };

    /// The word address below which words are protected, from 0 to the size (docs/memory.md).
    fn mark(&self) -> u32
        ensures value { result ≡ (meaning self.now).mark }
        ensures proper { Proper (meaning self.now) };

    /// The word at a word address. Refused with 4 where the address is not below the size (docs/memory.md).
    fn read(&self, address: u32) -> Result<u32, AccessRefusal>
        ensures { result ≡ read_of (meaning self.now) address };

    /// Replaces the word at a word address, and no other. Refused with 4 where the address is not below the size, then with 5 where the word is protected; then the memory stays as it is (docs/memory.md).
    fn write(&mut self, address: u32, word: u32) -> Result<(), AccessRefusal>
        ensures answer { result ≡ write_of (meaning self.old) address }
        ensures after { meaning self.new ≡ written_of (meaning self.old) address word }
        ensures kept { OnErr result (self.new ≡ self.old) }
        ensures loan { loan self.new ≡ loan self.old };

    /// Sets the mark, a word address. Refused with 6 where it is below the present one or above the size; then the memory stays as it is (docs/memory.md).
    fn protect(&mut self, mark: u32) -> Result<(), ProtectRefusal>
        ensures answer { result ≡ protect_of (meaning self.old) mark }
        ensures after { meaning self.new ≡ protected_of (meaning self.old) mark }
        ensures kept { OnErr result (self.new ≡ self.old) }
        ensures loan { loan self.new ≡ loan self.old };
}
