// Masks.
ghost use Rattle.std.specs.Prelude.{◌≡◌, if◌then◌else◌};
ghost use Rattle.control.specs.Masks.{mask, flag_of};

// A flag as a mask of 32 bits, so that a word is gated or chosen without a branch.
#[derive(Clone, Copy)]
pub(crate) struct Mask {
    pub(crate) bits: u32,
    // all ones, or 0
    ghost uniform: { bits ≡ mask (flag_of bits) },
}

impl Mask {
    // All ones for a flag that is on.
    pub(crate) fn of(flag: bool) -> Mask
        ensures { flag_of result.bits ≡ flag }
    {
        Mask {
            bits: if flag { !0 } else { 0 },
        }
    }

    // The word where the flag is on, else 0.
    #[tactic(auto, using(crate::proofs::Masks::gated))]
    pub(crate) fn gate(self, word: u32) -> u32
        ensures { result ≡ (if flag_of self.bits then word else 0) }
    {
        word & self.bits
    }

    // One word where the flag is on, else the other.
    #[tactic(auto, using(crate::proofs::Masks::picked))]
    pub(crate) fn pick(self, on: u32, off: u32) -> u32
        ensures { result ≡ (if flag_of self.bits then on else off) }
    {
        on & self.bits | off & !self.bits
    }
}
