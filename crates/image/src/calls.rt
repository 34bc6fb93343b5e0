// The calls of a machine as values, and their answers.
ghost use Rattle.std.specs.Prelude.{◌≡◌, [], ◌∷◌};
ghost use Rattle.ijvm.specs.MachineState.{MachineState};
ghost use Rattle.ijvm.specs.Transitions.{step_transition, run_transition, look_transition};
ghost use Rattle.ijvm.specs.Reached.{Continues};
ghost use Rattle.image.specs.Answers.{answer_number, answer_detail};
ghost use Rattle.image.specs.WholeStatement.{ExtendsHistory};

use crate::LoadRefusal;
use ijvm::LookRefusal;
use instructions::StepRefusal;

/// A call of a machine (docs/machine.md).
#[derive(Clone, Copy, Debug, PartialEq, Eq)]
pub enum Call<'a> {
    /// Load the image in these bytes.
    Load(&'a [u8]),
    /// Perform one instruction.
    Step,
    /// Perform so many steps, or as many as come before one that is refused.
    Run(u64),
    /// Look at the word at this word address.
    Look(u32),
}

/// The answer of a call (docs/machine.md).
#[derive(Clone, Copy, Debug, PartialEq, Eq)]
pub enum Answer {
    /// Of a load: that the image was loaded, or why it was refused.
    Loaded(Result<(), LoadRefusal>),
    /// Of a step: the cycles of the instruction, or why the step was refused.
    Stepped(Result<u64, StepRefusal>),
    /// Of a run: the steps that were done, and the refusal that stopped it.
    Ran(ijvm::Ran),
    /// Of a look: the word, or why it was refused.
    Looked(Result<u32, LookRefusal>),
}

impl Answer {
    /// The number of the answer: 0 where the call was done, else the number of the refusal; of a run, of the refusal that stopped it (docs/refusals.md).
    pub fn number(self) -> u32
        ensures { result ≡ answer_number self }
    {
        match self {
            Answer::Loaded(Ok(())) | Answer::Stepped(Ok(_)) | Answer::Looked(Ok(_)) => 0,
            Answer::Loaded(Err(refusal)) => refusal.number(),
            Answer::Stepped(Err(refusal)) => refusal.number(),
            Answer::Ran(ran) => ran.number(),
            Answer::Looked(Err(refusal)) => refusal.number(),
        }
    }

    /// What the answer carries besides its number: a load's the block or the place that it refuses, a step's its cycles, a run's its steps, a look's the word (docs/refusals.md).
    pub fn detail(self) -> Option<u64>
        ensures { result ≡ answer_detail self }
    {
        match self {
            Answer::Loaded(loaded) => loaded.err()?.detail(),
            Answer::Stepped(stepped) => stepped.ok(),
            Answer::Ran(ran) => Some(ran.steps),
            Answer::Looked(looked) => looked.ok().map(u64::from),
        }
    }

    /// The answer of a step. A step that is made of a machine directly extends its history, as a step of a list of calls does: by what `Machine::step` promises as `continues` (docs/whole-statement.md).
    #[tactic(auto, using(crate::proofs::Histories::direct_step))]
    pub fn of_step(answer: Result<u64, StepRefusal>) -> Answer
        ensures answer { result ≡ Answer.Stepped answer }
        ensures extends_history { (before after : MachineState) → Continues step_transition answer before after → ExtendsHistory (Call.Step ∷ []) (result ∷ []) before after }
    {
        Answer::Stepped(answer)
    }

    /// The answer of a run of up to n steps. A run that is made of a machine directly extends its history, as a run of a list of calls does: by what `Machine::run` promises as `continues` (docs/whole-statement.md).
    #[tactic(auto, using(crate::proofs::Histories::direct_run))]
    pub fn of_run(n: u64, answer: ijvm::Ran) -> Answer
        ensures answer { result ≡ Answer.Ran answer }
        ensures extends_history { (before after : MachineState) → Continues (run_transition n) answer before after → ExtendsHistory (Call.Run n ∷ []) (result ∷ []) before after }
    {
        Answer::Ran(answer)
    }

    /// The answer of a look at a word address. A look that is made of a machine directly extends its history, as a look of a list of calls does: by what `Machine::look` promises as `continues` (docs/whole-statement.md).
    #[tactic(auto, using(crate::proofs::Histories::direct_look))]
    pub fn of_look(address: u32, answer: Result<u32, LookRefusal>) -> Answer
        ensures answer { result ≡ Answer.Looked answer }
        ensures extends_history { (before after : MachineState) → Continues (look_transition address) answer before after → ExtendsHistory (Call.Look address ∷ []) (result ∷ []) before after }
    {
        Answer::Looked(answer)
    }
}
