// The call over a list of calls.
ghost use Rattle.std.specs.Prelude.{◌≡◌, All, ◌≤◌, [], ◌∷◌, drop, length, min, take};
ghost use Rattle.ijvm.specs.Machines.{machine_state, memory_in, loan_of};
ghost use Rattle.ijvm.specs.Reached.{LoadedStandsFor, Simulates};
ghost use Rattle.image.specs.Answers.{ChangedNothing};
ghost use Rattle.image.specs.Calls.{reply_of, replies_of, transition_of_calls};
ghost use Rattle.image.specs.WholeStatement.{BeginsHistoryBy, ExtendsHistory, HistorySinceLoad, LaterLoadsRefused};

use crate::{Answer, Call, load};
use ijvm::Machine;
use memory::Memory;

// Performs one call.
#[tactic(auto, using(crate::proofs::Loads::begins_by_load, crate::proofs::Loads::no_load))]
fn perform_one<M: Memory>(machine: &mut Machine<M>, call: Call<'_>) -> Answer
    ensures answer { result ≡ (reply_of call.entry (machine_state machine.old)).answer }
    ensures after { machine_state machine.new ≡ (reply_of call.entry (machine_state machine.old)).after }
    ensures begins { BeginsHistoryBy call.entry result (machine_state machine.new) }
    ensures kept { ChangedNothing result → memory_in machine.new ≡ memory_in machine.old }
    ensures loan { loan_of machine.new ≡ loan_of machine.old }
{
    match call {
        Call::Load(bytes) => Answer::Loaded(load(machine, bytes)),
        Call::Step => Answer::of_step(machine.step()),
        Call::Run(n) => Answer::of_run(n, machine.run(n)),
        Call::Look(address) => Answer::of_look(address, machine.look(address)),
    }
}

// Performs the first n calls. By an index: each answer stands at the index of its call.
fn perform_first<M: Memory>(
    machine: &mut Machine<M>,
    calls: &[Call<'_>],
    answers: &mut [Answer],
    n: usize,
)
    requires calls { n ≤ length calls.now }
    requires answers { n ≤ length answers.old }
    ensures answers { take n answers.new ≡ (replies_of (take n calls.now) (machine_state machine.old)).answers }
    ensures after { machine_state machine.new ≡ (replies_of (take n calls.now) (machine_state machine.old)).after }
    ensures since { HistorySinceLoad (take n calls.now) (take n answers.new) (machine_state machine.new) }
    ensures kept { All ChangedNothing (take n answers.new) → memory_in machine.new ≡ memory_in machine.old }
    ensures rest { drop n answers.new ≡ drop n answers.old }
    ensures loan { loan_of machine.new ≡ loan_of machine.old }
{
    for i in 0..n {
        answers[i] = perform_one(machine, calls[i]);
    }
}

/// Performs calls in their order, as many as there is room for in `answers`, and puts the answer of each at the call's index; answers how many these are. The answers behind them stay as they are.
///
/// This is the whole statement. If a program was loaded before, the answers and the state afterwards are the instruction machine's, in exactly its cycles, and no load is accepted. Whatever history the machine has, the calls extend it. From each accepted load among them on, the machine has that image's history. Calls that were all refused, or looked, or ran no step, leave the memory as it is, in every cell of its buffers (docs/whole-statement.md).
#[tactic(auto, using(crate::proofs::Histories::extends_history, crate::proofs::Histories::calls_simulate, crate::proofs::LaterLoads::no_load_accepted, ijvm::proofs::Origins::loaded_stands_for))]
pub fn perform<M: Memory>(
    machine: &mut Machine<M>,
    calls: &[Call<'_>],
    answers: &mut [Answer],
) -> usize
    ensures count { result ≡ min (length calls.now) (length answers.old) }
    ensures answers { take result answers.new ≡ (replies_of (take result calls.now) (machine_state machine.old)).answers }
    ensures after { machine_state machine.new ≡ (replies_of (take result calls.now) (machine_state machine.old)).after }
    ensures simulates { Simulates (transition_of_calls (take result calls.now)) (take result answers.new) (machine_state machine.old) (machine_state machine.new) }
    ensures stands_for { LoadedStandsFor (machine_state machine.new) }
    ensures extends_history { ExtendsHistory (take result calls.now) (take result answers.new) (machine_state machine.old) (machine_state machine.new) }
    ensures history_since_load { HistorySinceLoad (take result calls.now) (take result answers.new) (machine_state machine.new) }
    ensures later { LaterLoadsRefused (take result answers.new) (machine_state machine.old) }
    ensures kept { All ChangedNothing (take result answers.new) → memory_in machine.new ≡ memory_in machine.old }
    ensures rest { drop result answers.new ≡ drop result answers.old }
    ensures loan { loan_of machine.new ≡ loan_of machine.old }
{
    let count = calls.len().min(answers.len());
    perform_first(machine, calls, answers, count);
    count
}
