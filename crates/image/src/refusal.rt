// The refusals of load.
ghost use Rattle.std.specs.Prelude.{◌≡◌, Some};
ghost use Rattle.image.specs.Refusals.{load_detail, load_number, load_text, of_start, place_number, place_reason};

use ijvm::StartRefusal;
use std::error::Error;
use std::fmt;

/// The place of a number that does not fit: the word of block 0 in which it stands (docs/image.md).
#[derive(Clone, Copy, Debug, PartialEq, Eq)]
pub enum Place {
    /// Word 1: the size of the memory in words.
    Size = 1,
    /// Word 2: the mark, how many words are protected.
    Mark = 2,
    /// Word 3: CPP, the word address of the constant pool, also where the pool count of word 4 is too high.
    Pool = 3,
    /// Word 5: main's byte address.
    Main = 5,
}

/// Why load refuses an image or the memory (docs/refusals.md).
#[derive(Clone, Copy, Debug, PartialEq, Eq)]
pub enum LoadRefusal {
    /// 20: the length is below 1,024 bytes, or no multiple of 512.
    WrongLength,
    /// 21: the words of this block do not add up to its number; the first such block.
    FailedCheck { block: usize },
    /// 22: word 0 is not the number of blocks.
    WrongCount,
    /// 23: the number at this place of block 0 does not fit; the first such place.
    WrongNumber(Place),
    /// 24: an unused byte is not zero.
    NotZero,
    /// 25: the memory has another size than the image is for.
    OtherSize,
    /// 26: the memory's mark is not 0, as where an image was loaded into it.
    Marked,
}

impl Place {
    /// The number of the place: its discriminant (docs/refusals.md).
    pub fn number(self) -> u32
        ensures { result ≡ place_number self }
    {
        self as u32
    }

    // What is wrong there, in words.
    fn reason(self) -> &'static str
        ensures { result.now ≡ place_reason self }
    {
        match self {
            Place::Size => "the size is not from 16 to 1048576 words",
            Place::Mark =>
                "the mark is 0 or not below the size, or asks for another number of blocks",
            Place::Pool => "the constant pool does not lie below the mark",
            Place::Main =>
                "main does not begin in code, has not 1 param, or has no room for its frame",
        }
    }
}

impl LoadRefusal {
    /// The number of the refusal (docs/refusals.md).
    pub fn number(self) -> u32
        ensures { result ≡ load_number self }
    {
        match self {
            LoadRefusal::WrongLength => 20,
            LoadRefusal::FailedCheck { .. } => 21,
            LoadRefusal::WrongCount => 22,
            LoadRefusal::WrongNumber(_) => 23,
            LoadRefusal::NotZero => 24,
            LoadRefusal::OtherSize => 25,
            LoadRefusal::Marked => 26,
        }
    }

    /// What the refusal carries: the number of the block, or of the place; else none (docs/refusals.md).
    pub fn detail(self) -> Option<u64>
        ensures { result ≡ load_detail self }
    {
        match self {
            LoadRefusal::FailedCheck { block } => Some(block as u64),
            LoadRefusal::WrongNumber(place) => Some(u64::from(place.number())),
            LoadRefusal::WrongLength
            | LoadRefusal::WrongCount
            | LoadRefusal::NotZero
            | LoadRefusal::OtherSize
            | LoadRefusal::Marked => None,
        }
    }
}

// `refused`, the number and the reason.
impl fmt::Display for LoadRefusal {
    ghost output = { λ refusal. Some (load_text refusal) };

    fn fmt<W: fmt::Write>(&self, f: &mut fmt::Formatter<W>) -> fmt::Result {
        let number = self.number();
        match self {
            LoadRefusal::WrongLength => write!(
                f,
                "refused {number}: the length is below 1024 bytes, or no multiple of 512"
            ),
            LoadRefusal::FailedCheck { block } => write!(
                f,
                "refused {number}: the words of block {block} do not add up to its number"
            ),
            LoadRefusal::WrongCount => write!(
                f,
                "refused {number}: word 0 is not the number of blocks"
            ),
            LoadRefusal::WrongNumber(place) => write!(f, "refused {number}: {}", place.reason()),
            LoadRefusal::NotZero => write!(f, "refused {number}: an unused byte is not zero"),
            LoadRefusal::OtherSize => write!(
                f,
                "refused {number}: the memory has another size than the image is for"
            ),
            LoadRefusal::Marked => write!(f, "refused {number}: the memory's mark is not 0"),
        }
    }
}

impl Error for LoadRefusal {}

// The refusals of the memory are among those of load.
impl From<StartRefusal> for LoadRefusal {
    ghost from_gives = { λ refusal e. e ≡ of_start refusal };

    fn from(refusal: StartRefusal) -> LoadRefusal {
        match refusal {
            StartRefusal::OtherSize => LoadRefusal::OtherSize,
            StartRefusal::Marked => LoadRefusal::Marked,
        }
    }
}
