// The type of a prepared word.
ghost use Rattle.std.specs.Prelude.{◌≡◌, ◌^◌, ◌<◌, true, false, cond};
ghost use Rattle.control.specs.Masks.{flag_of};
ghost use Rattle.control.specs.Slots.{is_writable, c_bits_at_slots};
ghost use Rattle.control.specs.Straight.{is_straight};

use crate::ControlWord;
use crate::mask::Mask;

/// A control word, and beside it what a cycle would else make of it each time (docs/control-words.md).
#[derive(Clone, Copy)]
pub struct PreparedWord {
    /// The control word.
    pub word: ControlWord,
    /// A slot of a register file that is written from the C bus.
    pub slot: u8,
    /// The other slot that is written from the C bus.
    pub other: u8,
    /// Off only where the two slots are all that the word writes from the C bus.
    pub more: bool,
    /// Whether the word neither shifts nor jumps.
    pub straight: bool,
    /// On only where the word begins no write, no read and no fetch.
    pub idle: bool,
    // ENA, INVA and ENB as masks, and INC as a number
    pub(crate) ena: Mask,
    pub(crate) inva: Mask,
    pub(crate) enb: Mask,
    pub(crate) inc: u32,
    pub ghost next: { word.next < 2 ^ 9 },
    pub ghost b: { word.b < 2 ^ 4 },
    pub ghost writable: { is_writable slot ≡ true },
    pub ghost other_writable: { is_writable other ≡ true },
    pub ghost writes: { more ≡ false → word.c ≡ c_bits_at_slots slot other },
    pub ghost straight_word: { straight ≡ is_straight word },
    pub ghost no_write: { idle ≡ true → word.write ≡ false },
    pub ghost no_read: { idle ≡ true → word.read ≡ false },
    pub ghost no_fetch: { idle ≡ true → word.fetch ≡ false },
    ghost keeps_h: { flag_of ena.bits ≡ word.ena },
    ghost complements_h: { flag_of inva.bits ≡ word.inva },
    ghost keeps_bus: { flag_of enb.bits ≡ word.enb },
    ghost carry: { inc ≡ cond word.inc 1 0 },
}
