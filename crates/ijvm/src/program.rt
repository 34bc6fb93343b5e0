// What a machine loads.
ghost use Rattle.std.specs.Prelude.{◌≡◌, ℕ};
ghost use Rattle.ijvm.specs.declared.numbers.Numbers.{Numbers};

use crate::Layout;

/// A program: its numbers, and its protected words by their word addresses (docs/image.md).
pub trait Program {
    /// The numbers of a program.
    ghost numbers: { Self → Numbers };

    /// The protected words of a program, by their word addresses.
    ghost words: { Self → ℕ → ℕ };

    /// The numbers, which fit together (docs/image.md).
    fn layout(&self) -> Layout
        ensures { result.numbers ≡ numbers self.now };

    /// The protected word at a word address. At an address that is not below the mark it may answer any word, which nothing reads (docs/image.md).
    fn word(&self, address: u32) -> u32
        ensures { result ≡ words self.now address };
}
