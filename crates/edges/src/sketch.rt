// Images, made from words or from the bytes of code.
use std::alloc::{AllocError, Global};

/// The numbers of an image's block 0, but for the number of blocks (docs/image.md).
#[derive(Drop)]
pub struct Header {
    /// The words of the memory.
    pub size: u32,
    /// How many words are protected.
    pub mark: u32,
    /// The word address of the constant pool.
    pub cpp: u32,
    /// How many words the constant pool has.
    pub pool: u32,
    /// The byte address of main.
    pub main: u32,
}

// A block of 128 words, the last of them 0.
fn push_block(words: &mut Vec<u32>, block: &[u32]) -> Result<(), AllocError> {
    for index in 0..128usize {
        words.push(block.get(index).copied().unwrap_or(0))?;
    }
    Ok(())
}

/// Writes into each block of 128 words its check, so that the words add up to the block's number, modulo 2^32 (docs/image.md).
pub fn seal(words: &mut [u32]) {
    for (number, block) in (0u32..).zip(words.chunks_mut(128)) {
        if let Some((check, others)) = block.split_last_mut() {
            *check = others
                .iter()
                .fold(number, |rest, &word| rest.wrapping_sub(word));
        }
    }
}

/// The words of an image with these numbers and these protected words, and with its checks (docs/image.md).
pub fn image_words(
    heap: Global,
    header: &Header,
    protected: &[u32],
) -> Result<Vec<u32>, AllocError> {
    let mut words = Vec::new(heap);
    push_block(
        &mut words,
        &[
            0,
            header.size,
            header.mark,
            header.cpp,
            header.pool,
            header.main,
        ],
    )?;
    let mut blocks = 1u32;
    for block in protected.chunks(127) {
        push_block(&mut words, block)?;
        blocks = blocks.wrapping_add(1);
    }
    if let Some(count) = words.first_mut() {
        *count = blocks;
    }
    seal(words.as_mut_slice());
    Ok(words)
}

/// Words as bytes, the most significant byte of a word first (docs/image.md).
pub fn bytes_of(heap: Global, words: &[u32]) -> Result<Vec<u8>, AllocError> {
    let mut bytes = Vec::new(heap);
    for word in words {
        bytes.extend_from_slice(&word.to_be_bytes())?;
    }
    Ok(bytes)
}

/// A program with main at byte 0, its code from byte 4 on, and its constant pool from CPP on (docs/image.md).
#[derive(Drop)]
pub struct Sketch<'a> {
    /// The words of the memory.
    pub size: u32,
    /// How many words are protected.
    pub mark: u32,
    /// How many locals main has.
    pub locals: u16,
    /// The word address of the constant pool.
    pub cpp: u32,
    /// The words of the constant pool.
    pub pool: &'a [u32],
    /// The bytes of main's code.
    pub code: &'a [u8],
}

impl Sketch<'_> {
    // The protected words: main's header, the code, and over it the pool.
    fn protected(&self, heap: Global) -> Result<Vec<u32>, AllocError> {
        let mut bytes = Vec::new(heap);
        bytes.extend_from_slice(&[0, 1])?;
        bytes.extend_from_slice(&self.locals.to_be_bytes())?;
        bytes.extend_from_slice(self.code)?;
        bytes.resize(4 * self.mark as usize, 0)?;
        let mut words = Vec::new(heap);
        for bytes in bytes.as_slice().chunks_exact(4) {
            if let [a, b, c, d] = bytes {
                words.push(u32::from_be_bytes([*a, *b, *c, *d]))?;
            }
        }
        for (address, &word) in (self.cpp as usize..).zip(self.pool) {
            if let Some(at) = words.get_mut(address) {
                *at = word;
            }
        }
        Ok(words)
    }

    /// The bytes of its image (docs/image.md).
    pub fn image(&self, heap: Global) -> anyhow::Result<Vec<u8>> {
        let header = Header {
            size: self.size,
            mark: self.mark,
            cpp: self.cpp,
            pool: u32::try_from(self.pool.len())?,
            main: 0,
        };
        let protected = self.protected(heap)?;
        let words = image_words(heap, &header, protected.as_slice())?;
        Ok(bytes_of(heap, words.as_slice())?)
    }
}
