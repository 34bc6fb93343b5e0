// The numbers of a program.

/// What a program says of itself, besides its protected words (docs/image.md).
#[derive(Clone, Copy, Debug, PartialEq, Eq)]
pub struct Numbers {
    /// The words of the memory that it is for.
    pub size: u32,
    /// How many words are protected.
    pub mark: u32,
    /// The word address of the constant pool.
    pub cpp: u32,
    /// How many words the constant pool has.
    pub pool: u32,
    /// Main's byte address.
    pub main: u32,
    /// How many locals main has.
    pub locals: u16,
}
