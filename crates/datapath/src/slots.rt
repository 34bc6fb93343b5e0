// What a register file holds, and how that changes.
ghost use Rattle.std.specs.Prelude.{◌≡◌, ◌^◌, ◌<◌, true, slice_set, if◌then◌else◌};
ghost use Rattle.control.specs.Bus.{signed, source_of, bus_of};
ghost use Rattle.control.specs.Slots.{is_writable};
ghost use Rattle.control.specs.PreparedWords.{word_of};
ghost use Rattle.datapath.specs.Cycle.{written_from_c_bus, arrived_of, arriving};
ghost use Rattle.datapath.specs.Held.{slots_in, registers_in, mbr_in};

use crate::RegisterFile;
use control::{ControlWord, PreparedWord, Registers};

// A byte with its sign extended.
fn signed(byte: u8) -> u32
    ensures { result ≡ signed byte }
{
    i32::from(byte.cast_signed()).cast_unsigned()
}

// One word where the register is written, else the other.
fn pick(written: bool, new: u32, held: u32) -> u32
    ensures { result ≡ (if written then new else held) }
{
    if written { new } else { held }
}

#[tactic(auto, unfolding(crate::specs::Held::registers_in))]
impl RegisterFile {
    // The file of nine registers and MBR.
    pub(crate) fn of(r: &Registers, mbr: u8) -> RegisterFile
        ensures registers { registers_in result.words ≡ r.now }
        ensures mbr { mbr_in result.words ≡ mbr }
    {
        let (sign, byte) = (signed(mbr), u32::from(mbr));
        RegisterFile {
            words: [
                r.mdr, r.pc, sign, byte, r.sp, r.lv, r.cpp, r.tos, r.opc, 0, 0, 0, 0, 0, 0, 0, r.h,
                r.mar, 0,
            ],
        }
    }

    /// The nine registers of 32 bits (docs/cycle.md).
    pub fn registers(&self) -> Registers
        ensures { result ≡ registers_in (slots_in self.now) }
    {
        let w = &self.words;
        Registers {
            h: w[16],
            opc: w[8],
            tos: w[7],
            cpp: w[6],
            lv: w[5],
            sp: w[4],
            pc: w[1],
            mdr: w[0],
            mar: w[17],
        }
    }

    // MBR.
    pub(crate) fn mbr(&self) -> u8
        ensures { result ≡ mbr_in self.now.words }
    {
        self.words[3] as u8
    }

    // The word that a code B puts on the bus.
    #[tactic(auto, using(crate::proofs::SlotLaws::on_the_bus))]
    pub(crate) fn bus(&self, b: u8) -> u32
        requires { b < 2 ^ 4 }
        ensures { result ≡ bus_of (source_of b) (registers_in self.now.words) (mbr_in self.now.words) }
    {
        self.words[usize::from(b)]
    }

    // Writes one slot.
    #[tactic(auto, using(crate::proofs::SlotLaws::apart_from_mbr, crate::proofs::SlotLaws::apart_from_silent))]
    fn put(&mut self, slot: u8, word: u32)
        requires { is_writable slot ≡ true }
        ensures { self.new.words ≡ slice_set self.old.words slot word }
    {
        self.words[usize::from(slot)] = word;
    }

    // Writes the registers that the C bits name, one after the other: for words that write more than two.
    fn write_each(&mut self, word: &ControlWord, value: u32)
        ensures registers { registers_in self.new.words ≡ written_from_c_bus word.now (registers_in self.old.words) value }
        ensures mbr { mbr_in self.new.words ≡ mbr_in self.old.words }
    {
        let (c, w) = (word.c, self.words);
        self.words = [
            pick(c.mdr, value, w[0]),
            pick(c.pc, value, w[1]),
            w[2],
            w[3],
            pick(c.sp, value, w[4]),
            pick(c.lv, value, w[5]),
            pick(c.cpp, value, w[6]),
            pick(c.tos, value, w[7]),
            pick(c.opc, value, w[8]),
            0,
            0,
            0,
            0,
            0,
            0,
            0,
            pick(c.h, value, w[16]),
            pick(c.mar, value, w[17]),
            w[18],
        ];
    }

    // Writes the registers that the C bits name.
    #[tactic(auto, using(crate::proofs::SlotLaws::two_written))]
    pub(crate) fn write_from_c_bus(&mut self, word: &PreparedWord, value: u32)
        ensures registers { registers_in self.new.words ≡ written_from_c_bus (word_of word.now) (registers_in self.old.words) value }
        ensures mbr { mbr_in self.new.words ≡ mbr_in self.old.words }
    {
        if word.more {
            self.write_each(&word.word, value);
        } else {
            self.put(word.slot, value);
            self.put(word.other, value);
        }
    }

    // MDR takes an arriving word, and MBR an arriving byte.
    pub(crate) fn arrive(&mut self, byte: Option<u8>, word: Option<u32>)
        ensures registers { registers_in self.new.words ≡ arrived_of (registers_in self.old.words) word }
        ensures mbr { mbr_in self.new.words ≡ arriving byte (mbr_in self.old.words) }
    {
        if let Some(word) = word {
            self.words[0] = word;
        }
        if let Some(byte) = byte {
            self.words[2] = signed(byte);
            self.words[3] = u32::from(byte);
        }
    }
}
