// The calls of a machine, but for load.
ghost use Rattle.std.specs.Prelude.{◌≡◌, map, Ok, OnErr};
ghost use Rattle.control.specs.Numbers.{numbers_in};
ghost use Rattle.datapath.specs.Cycle.{cycle_of, answer_of};
ghost use Rattle.datapath.specs.Go.{go_of};
ghost use Rattle.microprogram.specs.Published.{published};
ghost use Rattle.instructions.specs.Step.{step_from};
ghost use Rattle.instructions.specs.Table.{cases, cycles_of};
ghost use Rattle.ijvm.specs.MachineState.{loaded_ijvm};
ghost use Rattle.ijvm.specs.Machines.{machine_state, memory_in, loan_of, viewed_ijvm};
ghost use Rattle.ijvm.specs.Calls.{powered_of, after_cycle, after_cycles, performed_reply, step_reply, AnswersByTable, run_reply, look_answer, top_answer};
ghost use Rattle.ijvm.specs.Transitions.{step_transition, run_transition, look_transition, top_transition};
ghost use Rattle.ijvm.specs.Reached.{Continues, LoadedStandsFor, Simulates};

use crate::{LookRefusal, Machine, Ran};
use checks::View;
use control::{ControlStore, Registers};
use datapath::{Datapath, Fault, State};
use instructions::{CYCLES, Case, StepRefusal};
use memory::Memory;
use microprogram::published_store;

impl<M: Memory> Machine<M> {
    /// A machine over a memory, started by the datapath's power from registers, MBR and MPC; no program is loaded. An MPC above 511, which power refuses with 11, counts as 0 (docs/machine.md).
    pub fn power(memory: M, registers: Registers, mbr: u8, mpc: u16) -> Machine<M>
        ensures machine { machine_state result ≡ powered_of (M.Memory.meaning memory) registers mbr mpc }
        ensures memory { memory_in result ≡ memory }
    {
        Machine {
            datapath: Datapath::power(memory, registers, mbr, mpc),
            store: published_store(),
            pool: None,
        }
    }

    /// The registers, MBR, MPC, the counter in cycles, and what is under way. Where a program is loaded no read or fetch is under way, and no write but one that the memory takes (docs/machine.md).
    #[tactic(auto, using(crate::proofs::Origins::loaded_stands_for))]
    pub fn state(&self) -> State
        ensures state { result ≡ (machine_state self.now).micro.state }
        ensures stands_for { LoadedStandsFor (machine_state self.now) }
    {
        self.datapath.state()
    }

    /// The memory, given back as it is. A write under way is not done by that: the word that it would replace still holds what it held, though `look` counted it as done (docs/machine.md).
    pub fn into_memory(self) -> M
        ensures { result ≡ memory_in self }
    {
        let Machine {
            datapath,
            store: _,
            pool: _,
        } = self;
        datapath.into_memory()
    }

    /// One cycle by a control store that is handed in. Refused with a fault where the memory refuses what is under way; then nothing changes. Else no program is loaded afterwards (docs/machine.md).
    pub fn cycle(&mut self, store: &ControlStore) -> Result<(), Fault>
        ensures answer { result ≡ answer_of (cycle_of (numbers_in store.now) (machine_state self.old).micro) }
        ensures after { machine_state self.new ≡ after_cycle (machine_state self.old) (cycle_of (numbers_in store.now) (machine_state self.old).micro) }
        ensures kept { OnErr result (memory_in self.new ≡ memory_in self.old) }
        ensures loan { loan_of self.new ≡ loan_of self.old }
    {
        self.datapath.cycle(store)?;
        self.pool = None;
        Ok(())
    }

    /// Up to n cycles by a control store that is handed in: how many were done, and the fault of the cycle that stopped them. Where one was done, no program is loaded afterwards; where none was done, nothing changes (docs/machine.md).
    #[tactic(auto, using(crate::proofs::Origins::none_done_origin))]
    pub fn go(&mut self, store: &ControlStore, n: u64) -> (u64, Option<Fault>)
        ensures done { result.0 ≡ (go_of (numbers_in store.now) n (machine_state self.old).micro).done }
        ensures fault { result.1 ≡ (go_of (numbers_in store.now) n (machine_state self.old).micro).fault }
        ensures after { machine_state self.new ≡ after_cycles (machine_state self.old) (go_of (numbers_in store.now) n (machine_state self.old).micro) }
        ensures kept { result.0 ≡ 0 → memory_in self.new ≡ memory_in self.old }
        ensures loan { loan_of self.new ≡ loan_of self.old }
    {
        let (done, fault) = self.datapath.go(store, n);
        if done > 0 {
            self.pool = None;
        }
        (done, fault)
    }

    // The instruction machine, if a program is loaded.
    fn view(&self) -> Option<View<'_, M>>
        ensures { viewed_ijvm M.Memory.meaning result ≡ loaded_ijvm (machine_state self.now) }
    {
        self.pool.map(|pool| View {
            datapath: &self.datapath,
            pool,
        })
    }

    // The case that a step performs, or the refusal.
    fn next_case(&self) -> Result<Case, StepRefusal>
        ensures { result ≡ step_from (loaded_ijvm (machine_state self.now)) }
    {
        self.view().ok_or(StepRefusal::NotLoaded)?.step()
    }

    // Performs the case that a step leads to, by as many cycles from the published store as the table has for it; how many of them were done.
    fn perform(&mut self, case: Case) -> u64
        requires { step_from (loaded_ijvm (machine_state self.old)) ≡ Ok case }
        ensures done { result ≡ (go_of published (cycles_of case) (machine_state self.old).micro).done }
        ensures after { machine_state self.new ≡ (performed_reply (machine_state self.old) (go_of published (cycles_of case) (machine_state self.old).micro)).after }
        ensures loan { loan_of self.new ≡ loan_of self.old }
    {
        let (done, _) = self.datapath.go(&self.store, case.cycles());
        done
    }

    // A step by the machine's own reply. What `step` promises of the instruction machine is proved from these clauses; so it is with a run, a look, top and a load.
    #[tactic(auto, unfolding(crate::specs::Calls::step_reply))]
    fn stepped(&mut self) -> Result<u64, StepRefusal>
        ensures answer { result ≡ (step_reply (machine_state self.old)).answer }
        ensures after { machine_state self.new ≡ (step_reply (machine_state self.old)).after }
        ensures kept { OnErr result (memory_in self.new ≡ memory_in self.old) }
        ensures loan { loan_of self.new ≡ loan_of self.old }
    {
        let case = self.next_case()?;
        Ok(self.perform(case))
    }

    /// Performs one instruction; answers its cycles, which are the entry of the cycle table. Refused with 39 where no program is loaded, else with 30 to 38 by the first check that fails; then nothing changes (docs/instruction-machine.md).
    #[tactic(auto, using(crate::proofs::Continued::step_continues, crate::proofs::Origins::step_simulates, crate::proofs::Origins::answers_by_table, crate::proofs::Origins::loaded_stands_for))]
    pub fn step(&mut self) -> Result<u64, StepRefusal>
        ensures answer { result ≡ (step_reply (machine_state self.old)).answer }
        ensures after { machine_state self.new ≡ (step_reply (machine_state self.old)).after }
        ensures kept { OnErr result (memory_in self.new ≡ memory_in self.old) }
        ensures table { CYCLES ≡ map cycles_of cases }
        ensures by_the_table { AnswersByTable CYCLES result (machine_state self.old) }
        ensures simulates { Simulates step_transition result (machine_state self.old) (machine_state self.new) }
        ensures stands_for { LoadedStandsFor (machine_state self.new) }
        ensures continues { Continues step_transition result (machine_state self.old) (machine_state self.new) }
        ensures loan { loan_of self.new ≡ loan_of self.old }
    {
        self.stepped()
    }

    // A run by the machine's own reply.
    #[tactic(auto, using(crate::proofs::Steps::run_start, crate::proofs::Steps::run_more, crate::proofs::Steps::run_all))]
    fn ran(&mut self, n: u64) -> Ran
        ensures answer { result ≡ (run_reply n (machine_state self.old)).answer }
        ensures after { machine_state self.new ≡ (run_reply n (machine_state self.old)).after }
        ensures kept { result.steps ≡ 0 → memory_in self.new ≡ memory_in self.old }
        ensures loan { loan_of self.new ≡ loan_of self.old }
    {
        for steps in 0..n {
            if let Err(refusal) = self.stepped() {
                return Ran {
                    steps,
                    stopped: Some(refusal),
                };
            }
        }
        Ran {
            steps: n,
            stopped: None,
        }
    }

    /// Performs steps until n are done or one is refused; how many were done, and the refusal. The steps before a refusal stay done; where none was done, nothing changes (docs/machine.md).
    #[tactic(auto, using(crate::proofs::Continued::run_continues, crate::proofs::Origins::run_simulates, crate::proofs::Origins::loaded_stands_for))]
    pub fn run(&mut self, n: u64) -> Ran
        ensures answer { result ≡ (run_reply n (machine_state self.old)).answer }
        ensures after { machine_state self.new ≡ (run_reply n (machine_state self.old)).after }
        ensures kept { result.steps ≡ 0 → memory_in self.new ≡ memory_in self.old }
        ensures simulates { Simulates (run_transition n) result (machine_state self.old) (machine_state self.new) }
        ensures stands_for { LoadedStandsFor (machine_state self.new) }
        ensures continues { Continues (run_transition n) result (machine_state self.old) (machine_state self.new) }
        ensures loan { loan_of self.new ≡ loan_of self.old }
    {
        self.ran(n)
    }

    // What look answers.
    fn looked(&self, address: u32) -> Result<u32, LookRefusal>
        ensures { result ≡ look_answer (loaded_ijvm (machine_state self.now)) address }
    {
        let view = self.view().ok_or(LookRefusal::NotLoaded)?;
        view.look(address).ok_or(LookRefusal::OutOfRange)
    }

    /// The word at a word address, with a write under way counted as done. Refused with 39 where no program is loaded, then with 4 where the address is not below the size (docs/machine.md).
    #[tactic(auto, using(crate::proofs::Continued::look_continues, crate::proofs::Continued::look_simulates))]
    pub fn look(&self, address: u32) -> Result<u32, LookRefusal>
        ensures answer { result ≡ look_answer (loaded_ijvm (machine_state self.now)) address }
        ensures simulates { Simulates (look_transition address) result (machine_state self.now) (machine_state self.now) }
        ensures continues { Continues (look_transition address) result (machine_state self.now) (machine_state self.now) }
    {
        self.looked(address)
    }

    // What top answers.
    fn top_word(&self) -> Option<u32>
        ensures { result ≡ top_answer (loaded_ijvm (machine_state self.now)) }
    {
        self.view()?.top()
    }

    /// The top of the operand stack: the word at SP, with a write under way counted as done. None where no program is loaded, or where the depth is 0 (docs/machine.md).
    #[tactic(auto, using(crate::proofs::Continued::top_continues, crate::proofs::Continued::top_simulates))]
    pub fn top(&self) -> Option<u32>
        ensures answer { result ≡ top_answer (loaded_ijvm (machine_state self.now)) }
        ensures simulates { Simulates top_transition result (machine_state self.now) (machine_state self.now) }
        ensures continues { Continues top_transition result (machine_state self.now) (machine_state self.now) }
    {
        self.top_word()
    }
}
