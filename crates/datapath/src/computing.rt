// What a control word computes: the C bus and the next MPC.
ghost use Rattle.std.specs.Prelude.{◌≡◌, ◌^◌, ◌<◌, ◌==◌, ◌&&◌, ◌||◌};
ghost use Rattle.control.specs.Alu.{negative, shift_of};
ghost use Rattle.control.specs.PreparedWords.{word_of};
ghost use Rattle.datapath.specs.Cycle.{successor_of};
ghost use Rattle.datapath.specs.Held.{mbr_in, result_by_slots};

use crate::RegisterFile;
use control::{PreparedWord, shift};

// Whether the word jumps on N or Z.
fn jumps(word: &PreparedWord, n: bool, z: bool) -> bool
    ensures { result ≡ (((word_of word.now).jamn && n) || ((word_of word.now).jamz && z)) }
{
    (word.word.jamn && n) || (word.word.jamz && z)
}

// The next MPC.
fn successor(word: &PreparedWord, mbr: u8, n: bool, z: bool) -> u16
    ensures value { result ≡ successor_of (word_of word.now) mbr n z }
    ensures within { result < 2 ^ 9 }
{
    let byte = if word.word.jmpc { u16::from(mbr) } else { 0 };
    let bit_8 = if jumps(word, n, z) { 0x100 } else { 0 };
    word.word.next | byte | bit_8
}

// The value on the C bus and the next MPC, both from what is held before anything arrives. Most words neither shift nor jump: of these they are the ALU's result and NEXT.
#[tactic(auto, using(crate::proofs::Straight::unshifted, crate::proofs::Straight::goes_to_next))]
#[inline(always)]
pub(crate) fn computed(word: &PreparedWord, file: &RegisterFile) -> (u32, u16)
    ensures c_bus { result.0 ≡ shift_of (word_of word.now) (result_by_slots (word_of word.now) file.now.words) }
    ensures next { result.1 ≡ successor_of (word_of word.now) (mbr_in file.now.words) (negative (result_by_slots (word_of word.now) file.now.words)) (result_by_slots (word_of word.now) file.now.words == 0) }
    ensures within { result.1 < 2 ^ 9 }
{
    let (result, n, z) = word.alu(file.registers().h, file.bus(word.word.b));
    if word.straight {
        (result, word.word.next)
    } else {
        (shift(&word.word, result), successor(word, file.mbr(), n, z))
    }
}
