// The worked examples.
ghost use Rattle.std.specs.Prelude.{◌≡◌, Some, pos};
ghost use Rattle.report.specs.JointExamples.{JointExamples};

use crate::Report;

/// What the program prints of the summing image for 3: it ends with main's return, after 28 steps and 177 cycles, with 6 on top. With it stand the other worked examples, as one statement: control words, the edges of a memory, the four lines, and word 15 (docs/program.md).
#[tactic(auto, using(crate::proofs::Examples::joint_examples))]
pub fn the_worked_examples() -> Report
    ensures report { result ≡ record { end = 38; steps = 28; cycles = 177; top = Some (pos 6) } }
    ensures examples { JointExamples result }
{
    Report {
        end: 38,
        steps: 28,
        cycles: 177,
        top: Some(6),
    }
}
