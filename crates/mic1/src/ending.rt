// Why a run ended before main's return.
use ijvm::Machine;
use image::{LoadRefusal, load};
use instructions::StepRefusal;
use memory::Memory;
use report::Report;
use std::fmt;

/// Why a run ended, where main has not returned (docs/program.md).
#[derive(Clone, Copy, Debug, PartialEq, Eq)]
pub enum Ending {
    /// Load refused the image.
    NotLoaded(LoadRefusal),
    /// A step was refused: its number, counted from 1, and PC, where its instruction stands.
    Refused {
        step: u64,
        pc: u32,
        refusal: StepRefusal,
    },
    /// So many steps were performed, which are all.
    OutOfSteps(u64),
}

impl Ending {
    /// Why the run of this report ended; none where main has returned. The machine is asked again for the refusal: what is refused changes nothing, so it is refused again in the same way (docs/program.md).
    pub fn of<M: Memory>(
        machine: &mut Machine<M>,
        image: &[u8],
        report: &Report,
    ) -> Option<Ending> {
        if report.end == 0 {
            return Some(Ending::OutOfSteps(report.steps));
        }
        // The step that stopped the run is refused again, so `?` never answers none.
        match machine.step().err()? {
            StepRefusal::End => None,
            StepRefusal::NotLoaded => load(machine, image).err().map(Ending::NotLoaded),
            refusal => Some(Ending::Refused {
                step: report.steps.saturating_add(1),
                pc: machine.state().registers.pc,
                refusal,
            }),
        }
    }
}

impl fmt::Display for Ending {
    fn fmt<W: fmt::Write>(&self, f: &mut fmt::Formatter<W>) -> fmt::Result {
        match self {
            Ending::NotLoaded(refusal) => {
                write!(f, "load: {refusal}")?;
                // The memory has the image's size, unless the program makes none of that size.
                if *refusal == LoadRefusal::OtherSize {
                    f.write_str("\nthe program makes memories of 16 to 8192 words")?;
                }
                Ok(())
            }
            Ending::Refused { step, pc, refusal } => {
                write!(f, "step {step} at PC {pc}: {refusal}")
            }
            Ending::OutOfSteps(steps) => {
                write!(f, "{steps} steps were performed, and main has not returned")
            }
        }
    }
}
