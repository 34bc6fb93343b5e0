// The report of a run.
ghost use Rattle.std.specs.Prelude.{Some};
ghost use Rattle.report.specs.Report.{report_text};

use std::fmt;

/// The report of a load and a run, printed as four lines (docs/program.md).
#[derive(Clone, Copy, Debug, PartialEq, Eq)]
pub struct Report {
    /// The number of the refusal that stopped the run, or of load's refusal; 0 where all steps were done.
    pub end: u32,
    /// The steps that were performed.
    pub steps: u64,
    /// The cycles, as the counter has them.
    pub cycles: u64,
    /// The top of the operand stack, as a signed number; none where the depth is 0, or the image was refused.
    pub top: Option<i32>,
}

impl fmt::Display for Report {
    ghost output = { λ report. Some (report_text report) };

    fn fmt<W: fmt::Write>(&self, f: &mut fmt::Formatter<W>) -> fmt::Result {
        let Report {
            end,
            steps,
            cycles,
            top,
        } = self;
        write!(f, "end {end}\nsteps {steps}\ncycles {cycles}\ntop ")?;
        match top {
            Some(top) => write!(f, "{top}"),
            None => f.write_str("-"),
        }
    }
}
