// How a control word is prepared, and what the ALU makes of it then.
ghost use Rattle.std.specs.Prelude.{◌≡◌, ◌^◌, ◌<◌, ◌||◌, ◌==◌, true, false};
ghost use Rattle.control.specs.Alu.{left_of, right_of, result_of, alu_of};
ghost use Rattle.control.specs.AluTable.{ByTheTable};
ghost use Rattle.control.specs.Slots.{is_writable, c_bits_at_slots};
ghost use Rattle.control.specs.Straight.{is_straight};
ghost use Rattle.control.specs.PreparedWords.{word_of};

use crate::arithmetic::{chosen, with_flags};
use crate::mask::Mask;
use crate::{CBits, ControlWord, PreparedWord};

// The slots of H and MAR, which no code B puts on the bus, and one that nothing reads. The slot of each other register is its code B.
const H: u8 = 16;

const MAR: u8 = 17;

const NOWHERE: u8 = 18;

// Two slots that are written.
#[derive(Clone, Copy)]
struct WrittenSlots {
    slot: u8,
    other: u8,
    ghost writable: { is_writable slot ≡ true },
    ghost other_writable: { is_writable other ≡ true },
}

impl WrittenSlots {
    // Pushes a slot that is written, and forgets the older of the two.
    fn pushed(self, written: bool, slot: u8) -> WrittenSlots
        requires { is_writable slot ≡ true }
    {
        if written {
            WrittenSlots {
                slot,
                other: self.slot,
            }
        } else {
            self
        }
    }

    // The C bits of the registers that lie there.
    fn c_bits(self) -> CBits
        ensures { result ≡ c_bits_at_slots self.slot self.other }
    {
        let writes = |slot: u8| -> bool
            ensures { result ≡ ((self.slot == slot) || (self.other == slot)) }
        { self.slot == slot || self.other == slot };
        CBits {
            h: writes(H),
            opc: writes(8),
            tos: writes(7),
            cpp: writes(6),
            lv: writes(5),
            sp: writes(4),
            pc: writes(1),
            mdr: writes(0),
            mar: writes(MAR),
        }
    }
}

// The last two slots that C bits write. Whether these are all of them is compared afterwards.
fn last_two(c: &CBits) -> WrittenSlots {
    let none = WrittenSlots {
        slot: NOWHERE,
        other: NOWHERE,
    };
    none.pushed(c.h, H)
        .pushed(c.opc, 8)
        .pushed(c.tos, 7)
        .pushed(c.cpp, 6)
        .pushed(c.lv, 5)
        .pushed(c.sp, 4)
        .pushed(c.pc, 1)
        .pushed(c.mdr, 0)
        .pushed(c.mar, MAR)
}

// Whether C bits write more than these two slots.
fn writes_more(slots: WrittenSlots, c: &CBits) -> bool
    ensures { result ≡ false → c.now ≡ c_bits_at_slots slots.slot slots.other }
{
    slots.c_bits() != *c
}

// Whether the word neither shifts nor jumps.
fn is_straight(word: &ControlWord) -> bool
    ensures { result ≡ is_straight word.now }
{
    !(word.jmpc || word.jamn || word.jamz || word.sll8 || word.sra1)
}

impl PreparedWord {
    // A control word, prepared.
    pub(crate) fn of(word: ControlWord) -> PreparedWord
        requires next { word.next < 2 ^ 9 }
        requires b { word.b < 2 ^ 4 }
        ensures { word_of result ≡ word }
    {
        let slots = last_two(&word.c);
        PreparedWord {
            word,
            slot: slots.slot,
            other: slots.other,
            more: writes_more(slots, &word.c),
            straight: is_straight(&word),
            idle: !(word.write || word.read || word.fetch),
            ena: Mask::of(word.ena),
            inva: Mask::of(word.inva),
            enb: Mask::of(word.enb),
            inc: u32::from(word.inc),
        }
    }

    // The left input: H, gated by ENA and then complemented by INVA.
    fn left(&self, h: u32) -> u32
        ensures { result ≡ left_of (word_of self.now) h }
    {
        let gated = self.ena.gate(h);
        self.inva.pick(!gated, gated)
    }

    // The right input: the bus, gated by ENB.
    fn right(&self, bus: u32) -> u32
        ensures { result ≡ right_of (word_of self.now) bus }
    {
        self.enb.gate(bus)
    }

    // The result of the ALU.
    fn result(&self, h: u32, bus: u32) -> u32
        ensures { result ≡ result_of (word_of self.now) h bus }
    {
        let (left, right) = (self.left(h), self.right(bus));
        chosen(self.word.f0, self.word.f1, left, right, self.inc)
    }

    /// What the ALU answers of H and the bus: its result, N and Z, as `alu` does of the same control word (docs/control-words.md).
    #[tactic(auto, using(crate::proofs::Table::by_the_table))]
    pub fn alu(&self, h: u32, bus: u32) -> (u32, bool, bool)
        ensures value { result ≡ alu_of (word_of self.now) h bus }
        ensures table { ByTheTable (word_of self.now) h bus result.0 }
    {
        with_flags(self.result(h, bus))
    }
}
