// What is read of an image's bytes.
ghost use Rattle.std.specs.Prelude.{◌≡◌, ◌+◌, ◌^◌, ◌<◌, slice_index};
ghost use Rattle.image.specs.Format.{code_byte, code_short, protected_word_of, image_word};

// The byte at an index; 0 where there is none.
pub(crate) fn byte(bytes: &[u8], index: usize) -> u8
    ensures { result ≡ slice_index bytes.now index }
{
    bytes.get(index).copied().unwrap_or(0)
}

// A word by its index, the most significant byte first.
pub(crate) fn word(bytes: &[u8], index: usize) -> u32
    requires { index < 2 ^ 61 }
    ensures { result ≡ image_word bytes.now index }
{
    let at = 4 * index;
    u32::from_be_bytes([
        byte(bytes, at),
        byte(bytes, at + 1),
        byte(bytes, at + 2),
        byte(bytes, at + 3),
    ])
}

// A protected word by its address: the blocks behind block 0 carry 127 each.
pub(crate) fn protected_word(bytes: &[u8], address: usize) -> u32
    requires { address < 2 ^ 60 }
    ensures { result ≡ protected_word_of bytes.now address }
{
    word(bytes, 128 * (1 + address / 127) + address % 127)
}

// The byte of the protected words at a byte address.
pub(crate) fn code_byte(bytes: &[u8], address: usize) -> u8
    requires { address < 2 ^ 60 }
    ensures { result ≡ code_byte bytes.now address }
{
    protected_word(bytes, address / 4).to_be_bytes()[address % 4]
}

// The unsigned number in two bytes of the protected words.
pub(crate) fn code_short(bytes: &[u8], address: usize) -> u16
    requires { address + 1 < 2 ^ 60 }
    ensures { result ≡ code_short bytes.now address }
{
    u16::from_be_bytes([code_byte(bytes, address), code_byte(bytes, address + 1)])
}
