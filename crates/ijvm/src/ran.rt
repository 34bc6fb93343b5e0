// The answer of a run.
ghost use Rattle.std.specs.Prelude.{◌≡◌};
ghost use Rattle.ijvm.specs.Refusals.{stop_number};

use instructions::StepRefusal;

/// The answer of a run: how many steps it performed, and the refusal that stopped it (docs/machine.md).
#[derive(Clone, Copy, Debug, PartialEq, Eq)]
pub struct Ran {
    /// The steps that were performed.
    pub steps: u64,
    /// The refusal that stopped the run; none where all steps were done.
    pub stopped: Option<StepRefusal>,
}

impl Ran {
    /// The number of the run: 0 where all steps were done, else the number of the refusal that stopped it (docs/refusals.md).
    pub fn number(self) -> u32
        ensures { result ≡ stop_number self.stopped }
    {
        self.stopped.map_or(0, |refusal| refusal.number())
    }
}
