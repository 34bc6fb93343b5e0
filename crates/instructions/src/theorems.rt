// What is proved of the instruction machine, and of the Mic-1 that stands for it. Each function answers the value that its theorem is about.
ghost use Rattle.std.specs.Prelude.{◌≡◌, ◌%◌, ◌^◌, List};
ghost use Rattle.instructions.specs.Table.{shape_of, cycles_of};
ghost use Rattle.instructions.specs.Performed.{CaseTakes, StaysSound, total, AddsUp};
ghost use Rattle.instructions.specs.Nest.{CallsNest};

use crate::{Case, Shape, Way};

/// A theorem: every case takes its entry in the cycle table. From a machine that stands for a sound state, where a step performs the case, so many cycles by the published store, none refused, lead to one that stands for the state after it. The entry is answered, in cycles (docs/instruction-machine.md).
#[tactic(auto, using(crate::proofs::EveryCase::case_takes))]
pub fn every_case_takes_its_entry(case: Case) -> u64
    ensures entry { result ≡ cycles_of case }
    ensures takes { CaseTakes case result }
{
    case.cycles()
}

/// A theorem: where a step performs this case in a sound state, the state after it is sound. Answered are the columns of its row, which the checks go by (docs/instruction-machine.md).
#[tactic(auto, using(crate::proofs::Steady::stays_sound))]
pub fn a_performed_case_leaves_a_sound_state(case: Case) -> Shape
    ensures row { result ≡ shape_of case }
    ensures sound { StaysSound case }
{
    Shape::of(case)
}

/// A theorem: in instructions that are performed from a sound state calls nest. Between an INVOKEVIRTUAL and its own IRETURN, or to the end where that has not come, no word below OBJREF's address changes, and that IRETURN brings the caller's LV and PC back. Answered is the way that a case goes on: `Way::Call` opens a call, `Way::Return` closes one (docs/instruction-machine.md).
#[tactic(auto, using(crate::proofs::Nested::any_calls_nest))]
pub fn calls_nest(case: Case) -> Way
    ensures way { result ≡ (shape_of case).way }
    ensures nest { (cases : List Case) → CallsNest cases }
{
    Shape::of(case).way
}

/// A theorem: from a Mic-1 that stands for a sound state, instructions that are performed take the sum of their entries in cycles, and so does each front part of them. That sum is answered modulo 2^64, as the counter has it (docs/instruction-machine.md).
#[tactic(auto, using(crate::proofs::EveryCase::adds_up, crate::proofs::EveryCase::one_off, crate::proofs::EveryCase::none_left))]
pub fn performed_instructions_add_up(cases: &[Case]) -> u64
    ensures sum { result ≡ total cases.now % 2 ^ 64 }
    ensures parts { AddsUp cases.now }
{
    let mut sum: u64 = 0;
    for case in cases {
        sum = sum.wrapping_add(case.cycles());
    }
    sum
}
