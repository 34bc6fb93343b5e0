// The code of a program, byte by byte.
use ijvm::Program;
use image::Image;

/// The code of an image's program: the bytes below 4 times the mark, the most significant byte of a word first (docs/trace.md).
#[derive(Clone, Copy)]
pub struct Code<'a>(pub Image<'a>);

impl Code<'_> {
    // The byte at a byte address; none outside code.
    fn byte(&self, address: u32) -> Option<u8> {
        let word = address / 4;
        if word >= self.0.layout().numbers.mark {
            return None;
        }
        let bytes = self.0.word(word).to_be_bytes();
        bytes.get((address % 4) as usize).copied()
    }

    /// As many bytes as the longest instruction has, from a byte address on; none for each that lies outside code.
    pub fn bytes(&self, address: u32) -> [Option<u8>; 4] {
        [0, 1, 2, 3].map(|further| self.byte(address.checked_add(further)?))
    }
}
