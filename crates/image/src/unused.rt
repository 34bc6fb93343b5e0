// The bytes of an image that nothing uses.
ghost use Rattle.std.specs.Prelude.{◌≡◌};
ghost use Rattle.image.specs.Format.{is_used, is_clean, all_clean};

use crate::bytes::byte;

// Whether a word is used: each block's check, the six numbers of block 0, and the protected words.
fn is_used(mark: u32, index: usize) -> bool
    ensures { result ≡ is_used mark index }
{
    let (block, in_block) = (index / 128, index % 128);
    if in_block == 127 {
        true
    } else if block == 0 {
        in_block < 6
    } else {
        127 * (block - 1) + in_block < mark as usize
    }
}

// Whether a byte is used or zero.
fn is_clean(mark: u32, bytes: &[u8], at: usize) -> bool
    ensures { result ≡ is_clean mark bytes.now at }
{
    is_used(mark, at / 4) || byte(bytes, at) == 0
}

// Whether all bytes are used or zero.
pub(crate) fn all_clean(mark: u32, bytes: &[u8]) -> bool
    ensures { result ≡ all_clean mark bytes.now }
{
    (0..bytes.len()).all(|at| is_clean(mark, bytes, at))
}
