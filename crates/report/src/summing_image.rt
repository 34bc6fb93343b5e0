// What the summing image prints.
ghost use Rattle.report.specs.SummingImage.{SummingAnswer};

use crate::Report;

/// What is printed of the summing image for each n from 1 to 127; for other numbers there is no answer. Any memory of 32 words with mark 0 takes the image, and load starts the method whose cycles `the_summing_method_takes` counts. It ends with main's return, after 8 n + 4 steps and 51 n + 24 cycles, with the sum of the numbers from 1 to n on top (docs/fifty-one.md).
#[tactic(auto, using(crate::proofs::Summing::an_answer, crate::proofs::Summing::no_answer))]
pub fn the_summing_image_prints(n: u8) -> Option<Report>
    ensures { SummingAnswer n result }
{
    match n {
        1..=127 => {
            let sum = u16::from(n) * (u16::from(n) + 1) / 2;
            Some(Report {
                end: 38,
                steps: 8 * u64::from(n) + 4,
                cycles: 51 * u64::from(n) + 24,
                top: Some(i32::from(sum)),
            })
        }
        _ => None,
    }
}
