// What the summing method costs.
ghost use Rattle.std.specs.Prelude.{◌≡◌, ◌+◌, ◌*◌, ◌^◌, ◌<◌, sum_by};
ghost use Rattle.instructions.specs.Table.{cycles_of};
ghost use Rattle.instructions.specs.Summing.{ATurnTakes, TheLoopTakes, MethodAnswer};

use crate::Case;

// The eight instructions of a turn that goes round.
const TURN: [Case; 8] = [
    Case::Iload,
    Case::Iload,
    Case::Iadd,
    Case::Istore,
    Case::Iinc,
    Case::Iload,
    Case::IfeqFalls,
    Case::Goto,
];

/// A theorem: a turn of the summing loop that goes round takes 51 cycles, the sum of its eight entries, whatever numbers its two variables hold, on a Mic-1 that stands for the state at the head where that is sound; where the count is 1 the turn is the last (docs/fifty-one.md).
#[tactic(auto, using(crate::proofs::Turns::a_turn_takes))]
pub fn a_turn_takes_51_cycles() -> u64
    ensures count { result ≡ 51 }
    ensures turn { ATurnTakes result }
{
    added(&TURN)
}

// The sum of the entries of some instructions.
fn added(cases: &[Case]) -> u64
    requires { sum_by cycles_of cases.now < 2 ^ 64 }
    ensures { result ≡ sum_by cycles_of cases.now }
{
    cases.iter().map(|case| case.cycles()).sum()
}

/// A theorem: a loop that begins with the count k + 1, modulo 2^32, and any sum takes 51 cycles for each of the k turns that go round, and 47 for the last, on a Mic-1 that stands for the state at the head where that is sound. The number of cycles is answered (docs/fifty-one.md).
#[tactic(auto, using(crate::proofs::Turns::every_loop_takes))]
pub fn the_loop_takes(k: u32) -> u64
    ensures count { result ≡ 51 * k + 47 }
    ensures turns { TheLoopTakes k result }
{
    51 * u64::from(k) + 47
}

/// A theorem: the summing method takes 51 n + 24 cycles for each n from 1 to 127. That number is answered; for 0, and from 128 on, none is (docs/fifty-one.md).
#[tactic(auto, using(crate::proofs::Turns::an_answer, crate::proofs::Turns::no_answer))]
pub fn the_summing_method_takes(n: u8) -> Option<u64>
    ensures { MethodAnswer n result }
{
    match n {
        1..=127 => Some(51 * u64::from(n) + 24),
        _ => None,
    }
}
