// The type of a register file.
ghost use Rattle.std.specs.Prelude.{◌≡◌, ℕ, ◌^◌, ◌<◌, ◌≤◌, slice_index};
ghost use Rattle.control.specs.Bus.{signed};

/// The registers and MBR in one array of 19 words, its slots, so that a code B is the slot of the word that it puts on the bus (docs/cycle.md).
#[derive(Clone, Copy)]
pub struct RegisterFile {
    // at 0 to 8 MDR, PC, MBR with its sign extended, MBR filled with zeros, SP, LV, CPP, TOS, OPC; at 9 to 15 zero; at 16 H, at 17 MAR; at 18 a word that nothing reads
    pub(crate) words: [u32; 19],
    // MBR has 8 bits, and stands twice
    ghost byte: { slice_index words 3 < 2 ^ 8 },
    ghost sign: { slice_index words 2 ≡ signed (slice_index words 3) },
    // the codes from 9 on put 0 on the bus
    ghost silent: { (slot : ℕ) → 9 ≤ slot → slot < 16 → slice_index words slot ≡ 0 },
}
