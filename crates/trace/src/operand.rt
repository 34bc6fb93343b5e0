// An operand as text.
use std::fmt;

/// The number of an operand; none where a byte of it lies outside code. Displayed as the number, or as `?` (docs/trace.md).
#[derive(Clone, Copy)]
pub struct Operand(Option<i32>);

// The number in two bytes, the most significant first.
fn short([high, low]: [Option<u8>; 2]) -> Option<u16> {
    Some(u16::from_be_bytes([high?, low?]))
}

impl Operand {
    /// A byte without a sign: the number of a variable.
    pub fn unsigned(byte: Option<u8>) -> Operand {
        Operand(byte.map(i32::from))
    }

    /// A byte with its sign: the one that is pushed, or a constant.
    pub fn signed(byte: Option<u8>) -> Operand {
        Operand(byte.map(|byte| i32::from(byte.cast_signed())))
    }

    /// Two bytes without a sign: an index, a disp, or the number of a variable behind WIDE.
    pub fn unsigned_short(bytes: [Option<u8>; 2]) -> Operand {
        Operand(short(bytes).map(i32::from))
    }

    /// Two bytes with their sign: an offset.
    pub fn signed_short(bytes: [Option<u8>; 2]) -> Operand {
        Operand(short(bytes).map(|number| i32::from(number.cast_signed())))
    }
}

impl fmt::Display for Operand {
    fn fmt<W: fmt::Write>(&self, f: &mut fmt::Formatter<W>) -> fmt::Result {
        match self.0 {
            Some(number) => write!(f, "{number}"),
            None => f.write_str("?"),
        }
    }
}
