// What is read of the memory, with a write under way counted as done.
ghost use Rattle.std.specs.Prelude.{◌≡◌, ◌^◌, ◌<◌};
ghost use Rattle.datapath.specs.Cycle.{byte_in};
ghost use Rattle.instructions.specs.Ijvm.{word_at, byte_at, short_at};
ghost use Rattle.checks.specs.View.{ijvm_in, word_there};

use crate::View;
use control::Registers;
use memory::Memory;

// The byte at a byte address, of its word, the most significant first.
fn byte_of(word: u32, address: u64) -> u8
    ensures { result ≡ byte_in word address }
{
    word.to_be_bytes()[(address % 4) as usize]
}

impl<M: Memory> View<'_, M> {
    /// The word at a word address, with a write under way counted as done; none where the address is not below the memory's size (docs/instruction-machine.md).
    pub fn look(&self, address: u32) -> Option<u32>
        ensures { result ≡ word_there (ijvm_in M.Memory.meaning self.now) address }
    {
        let word = self.datapath.memory.read(address).ok()?;
        let Registers { mar, mdr, .. } = self.datapath.file.registers();
        if self.datapath.sequencer.write && mar == address {
            Some(mdr)
        } else {
            Some(word)
        }
    }

    // The word at a word address, which may have more than 32 bits; 0 from the memory's size on.
    #[tactic(auto, using(crate::proofs::Words::looked_up, crate::proofs::Words::past_the_end))]
    pub(crate) fn word(&self, address: u64) -> u32
        ensures { result ≡ word_at (ijvm_in M.Memory.meaning self.now) address }
    {
        if address < u64::from(self.datapath.memory.size()) {
            self.look(address as u32).unwrap_or(0)
        } else {
            0
        }
    }

    // The byte at a byte address.
    #[tactic(auto, using(crate::proofs::Words::byte_in_word))]
    pub(crate) fn byte(&self, address: u64) -> u8
        ensures { result ≡ byte_at (ijvm_in M.Memory.meaning self.now) address }
    {
        byte_of(self.word(address / 4), address)
    }

    // The unsigned number in two bytes from a byte address on, the more significant byte first.
    pub(crate) fn short(&self, address: u64) -> u16
        requires { address < 2 ^ 63 }
        ensures { result ≡ short_at (ijvm_in M.Memory.meaning self.now) address }
    {
        u16::from_be_bytes([self.byte(address), self.byte(address + 1)])
    }
}
