// The blocks of an image, and their checks.
ghost use Rattle.std.specs.Prelude.{◌≡◌, ◌%◌, ◌^◌, ◌<◌};
ghost use Rattle.image.specs.Format.{adds_up, block_sum, blocks_of, failed_block};
ghost use Rattle.image.specs.Load.{length_fits};

use crate::bytes::word;

// Whether the length is a number of blocks, and at least two.
pub(crate) fn length_fits(bytes: &[u8]) -> bool
    ensures { result ≡ length_fits bytes.now }
{
    bytes.len() >= 1024 && bytes.len() % 512 == 0
}

// How many blocks there are.
pub(crate) fn blocks(bytes: &[u8]) -> usize
    ensures { result ≡ blocks_of bytes.now }
{
    bytes.len() / 512
}

// The sum of a block's words, modulo 2^32.
#[tactic(auto, using(crate::proofs::Sums::wrapped_more, crate::proofs::Sums::full_block))]
fn block_sum(bytes: &[u8], block: usize) -> u32
    requires { block < 2 ^ 54 }
    ensures { result ≡ block_sum bytes.now block % 2 ^ 32 }
{
    let mut sum: u32 = 0;
    for i in 0..128 {
        sum = sum.wrapping_add(word(bytes, 128 * block + i));
    }
    sum
}

// Whether the words of a block add up to its number.
fn adds_up(bytes: &[u8], block: usize) -> bool
    requires { block < 2 ^ 54 }
    ensures { result ≡ adds_up bytes.now block }
{
    block_sum(bytes, block) as usize == block % 0x1_0000_0000
}

// The first block whose words do not add up to its number, if there is one.
pub(crate) fn failed_block(bytes: &[u8]) -> Option<usize>
    ensures { result ≡ failed_block bytes.now }
{
    (0..blocks(bytes)).position(|block| !adds_up(bytes, block))
}
