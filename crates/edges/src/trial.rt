// A trial: a program in a machine, some steps, and the step that is printed.
use anyhow::{Result, ensure};
use control::Registers;
use ijvm::Machine;
use image::load;
use instructions::StepRefusal;
use memory::Memory;
use std::alloc::Global;
use std::fmt;

/// A machine with this program, over any memory. An error where load refuses it (docs/edges.md).
pub fn loaded<M: Memory + Drop>(memory: M, bytes: &[u8]) -> Result<Machine<M>> {
    let mut machine = Machine::power(memory, Registers::default(), 0, 0);
    load(&mut machine, bytes)?;
    Ok(machine)
}

// The words that look answers.
fn words<M: Memory>(machine: &Machine<M>, size: u32, heap: Global) -> Result<Vec<u32>> {
    let mut words = Vec::new(heap);
    for address in 0..size {
        words.push(machine.look(address)?)?;
    }
    Ok(words)
}

/// What a step answered and left: PC, SP and the top, and the words that it changed, by their word addresses (docs/edges.md).
#[derive(Drop, PartialEq)]
pub struct Left {
    answer: Result<u64, StepRefusal>,
    pc: u32,
    sp: u32,
    top: Option<u32>,
    changed: Vec<(u32, u32)>,
}

impl Left {
    /// Performs the step of a program behind so many others. An error where one of those is refused (docs/edges.md).
    pub fn after<M: Memory + Drop>(
        memory: M,
        program: &[u8],
        before: u64,
        heap: Global,
    ) -> Result<Left> {
        let size = memory.size();
        let mut machine = loaded(memory, program)?;
        ensure!(
            machine.run(before).steps == before,
            "a step before is refused"
        );
        let old = words(&machine, size, heap)?;
        let answer = machine.step();
        let new = words(&machine, size, heap)?;
        let registers = machine.state().registers;
        let mut changed = Vec::new(heap);
        for ((address, old), new) in (0u32..).zip(old.iter()).zip(new.iter()) {
            if old != new {
                changed.push((address, *new))?;
            }
        }
        Ok(Left {
            answer,
            pc: registers.pc,
            sp: registers.sp,
            top: machine.top(),
            changed,
        })
    }
}

impl fmt::Display for Left {
    fn fmt<W: fmt::Write>(&self, f: &mut fmt::Formatter<W>) -> fmt::Result {
        match self.answer {
            Ok(cycles) => write!(f, "{cycles} cycles, PC {}, SP {}", self.pc, self.sp)?,
            Err(refusal) => write!(f, "refused {}", refusal.number())?,
        }
        if let (Ok(_), Some(top)) = (self.answer, self.top) {
            write!(f, ", top {}", top.cast_signed())?;
        }
        for (address, word) in self.changed.iter() {
            write!(f, ", word {address} = {}", word.cast_signed())?;
        }
        Ok(())
    }
}
