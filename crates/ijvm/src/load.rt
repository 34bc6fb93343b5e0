// A program is loaded.
ghost use Rattle.std.specs.Prelude.{◌≡◌, ℕ, ◌+◌, ◌^◌, ◌<◌, Ok, OnErr};
ghost use Rattle.datapath.specs.Cycle.{byte_in};
ghost use Rattle.datapath.specs.Held.{state_of};
ghost use Rattle.memory.specs.Meaning.{size_of};
ghost use Rattle.instructions.specs.Checks.{first_refusal};
ghost use Rattle.ijvm.specs.Machines.{machine_state, memory_in, loan_of};
ghost use Rattle.ijvm.specs.Start.{Fits, memory_checks, filled_word, filled_words, start_words, fresh_of, after_start};
ghost use Rattle.ijvm.specs.Transitions.{start_transition};
ghost use Rattle.ijvm.specs.Reached.{Begins, Continues, LaterLoadRefused, Simulates};

use crate::{Layout, Machine, Numbers, Program, StartRefusal};
use control::Registers;
use datapath::Datapath;
use instructions::check;
use memory::Memory;

// The address of the line Main1 in the control store: each instruction begins there.
const MAIN1: u16 = 0x100;

// What a load asks of the memory.
fn fits<M: Memory>(memory: &M, numbers: Numbers) -> Result<(), StartRefusal>
    ensures { result ≡ first_refusal (memory_checks numbers (M.Memory.meaning memory.now)) }
{
    check(memory.size() == numbers.size, StartRefusal::OtherSize)?;
    check(memory.mark() == 0, StartRefusal::Marked)
}

// The word at an address of a memory that is filled: a protected word, or 0 from the mark on.
fn word_for<P: Program>(program: &P, numbers: Numbers, address: u32) -> u32
    ensures { result ≡ filled_word numbers (P.Program.words program.now) address }
{
    if address < numbers.mark {
        program.word(address)
    } else {
        0
    }
}

// Fills a memory of the program's size, of which no word is protected.
#[tactic(auto, using(crate::proofs::Started::by_each))]
fn fill<M: Memory, P: Program>(memory: &mut M, program: &P, numbers: Numbers)
    requires size { size_of (M.Memory.meaning memory.old) ≡ numbers.size }
    requires open_to { (M.Memory.meaning memory.old).mark ≡ 0 }
    ensures words { (M.Memory.meaning memory.new).words ≡ filled_words numbers (P.Program.words program.now) }
    ensures mark { (M.Memory.meaning memory.new).mark ≡ 0 }
    ensures small { (a : ℕ) → a < numbers.size → filled_word numbers (P.Program.words program.now) a < 2 ^ 32 }
    ensures loan { M.Memory.loan memory.new ≡ M.Memory.loan memory.old }
{
    for address in 0..numbers.size {
        // not refused: the address is below the size, and no word is protected
        let _ = memory.write(address, word_for(program, numbers, address));
    }
}

// Sets a memory up for the start of a program: filled, protected, and main's link written at the mark.
fn set_up<M: Memory, P: Program>(memory: &mut M, program: &P, layout: Layout)
    requires size { size_of (M.Memory.meaning memory.old) ≡ layout.numbers.size }
    requires open_to { (M.Memory.meaning memory.old).mark ≡ 0 }
    ensures meaning { M.Memory.meaning memory.new ≡ (fresh_of layout.numbers (P.Program.words program.now)).memory }
    ensures small { (a : ℕ) → a < layout.numbers.size → filled_word layout.numbers (P.Program.words program.now) a < 2 ^ 32 }
    ensures loan { M.Memory.loan memory.new ≡ M.Memory.loan memory.old }
{
    let numbers = layout.numbers;
    let link = numbers.mark + 1 + u32::from(numbers.locals);
    fill(memory, program, numbers);
    // neither is refused: the mark was 0, and it lies below the size
    let _ = memory.protect(numbers.mark);
    let _ = memory.write(numbers.mark, link);
}

// Starts main: MBR is the byte at PC, which is a protected one.
#[tactic(auto, using(crate::proofs::Started::first_byte))]
fn start_main<M, P: Program>(datapath: &mut Datapath<M>, program: &P, layout: Layout)
    ensures state { state_of datapath.new.file datapath.new.sequencer ≡ (fresh_of layout.numbers (P.Program.words program.now)).state }
    ensures memory { datapath.new.memory ≡ datapath.old.memory }
{
    let numbers = layout.numbers;
    let pc = numbers.main + 4;
    let word = program.word(pc / 4);
    let registers = Registers {
        cpp: numbers.cpp,
        lv: numbers.mark,
        sp: numbers.mark + u32::from(numbers.locals) + 2,
        pc,
        ..Registers::default()
    };
    datapath.start(&registers, word.to_be_bytes()[(pc % 4) as usize], MAIN1);
}

impl<M: Memory> Machine<M> {
    // A load by the machine's own reply.
    #[tactic(auto, using(crate::proofs::Origins::begun_origin))]
    fn started<P: Program>(&mut self, program: &P) -> Result<(), StartRefusal>
        ensures answer { result ≡ first_refusal (memory_checks (P.Program.numbers program.now) (machine_state self.old).micro.memory) }
        ensures after { machine_state self.new ≡ after_start (P.Program.numbers program.now) (P.Program.words program.now) (machine_state self.old) result }
        ensures kept { OnErr result (memory_in self.new ≡ memory_in self.old) }
        ensures fits { Fits (P.Program.numbers program.now) }
        ensures small { result ≡ Ok tt → (a : ℕ) → a < (P.Program.numbers program.now).size → filled_word (P.Program.numbers program.now) (P.Program.words program.now) a < 2 ^ 32 }
        ensures loan { loan_of self.new ≡ loan_of self.old }
    {
        let layout = program.layout();
        fits(&self.datapath.memory, layout.numbers)?;
        set_up(&mut self.datapath.memory, program, layout);
        start_main(&mut self.datapath, program, layout);
        self.pool = Some(layout.numbers.pool);
        Ok(())
    }

    /// Loads a program: fills the memory with its protected words and zeros, protects them, and starts main. Refused with 25 where the memory has another size, then with 26 where its mark is not 0, as it is where a program is loaded already; then nothing changes (docs/image.md).
    #[tactic(auto, using(crate::proofs::Started::load_begins, crate::proofs::Started::load_continues, crate::proofs::Origins::load_simulates, crate::proofs::Origins::later_load_refused))]
    pub fn load<P: Program>(&mut self, program: &P) -> Result<(), StartRefusal>
        ensures answer { result ≡ first_refusal (memory_checks (P.Program.numbers program.now) (machine_state self.old).micro.memory) }
        ensures after { machine_state self.new ≡ after_start (P.Program.numbers program.now) (P.Program.words program.now) (machine_state self.old) result }
        ensures kept { OnErr result (memory_in self.new ≡ memory_in self.old) }
        ensures begins { Begins (P.Program.numbers program.now) (P.Program.words program.now) result (machine_state self.new) }
        ensures later { LaterLoadRefused result (machine_state self.old) }
        ensures simulates { Simulates (start_transition (P.Program.numbers program.now)) result (machine_state self.old) (machine_state self.new) }
        ensures continues { Continues (start_transition (P.Program.numbers program.now)) result (machine_state self.old) (machine_state self.new) }
        ensures loan { loan_of self.new ≡ loan_of self.old }
    {
        self.started(program)
    }
}
