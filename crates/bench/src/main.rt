// The benchmark: runs the image on standard input over a memory of words and over one of bytes, by direct calls and by perform, and prints steps, cycles and the time. Of a run that is too short to be timed no time is printed.
#![tactic(auto)]

use control::Registers;
use ijvm::{Machine, Ran};
use image::{Answer, Call, load, perform};
use memory::{Cell, LentMemory, Memory};
use report::{MOST_BYTES, memory_size};
use std::io::Read;
use std::rt::Clock;
use std::time::Instant;

// As many steps as are made.
const MOST_STEPS: u64 = 10_000_000;

// As many cycles as a run needs to be timed.
const TIMED_CYCLES: u64 = 1_000_000;

// Who calls run.
#[derive(Clone, Copy)]
enum Caller {
    Direct,
    Perform,
}

// A run of the machine, by its caller; how many steps it did.
fn steps_by<M: Memory>(caller: Caller, machine: &mut Machine<M>) -> u64 {
    match caller {
        Caller::Direct => machine.run(MOST_STEPS).steps,
        Caller::Perform => {
            let none = Ran {
                steps: 0,
                stopped: None,
            };
            let mut answers = [Answer::Ran(none)];
            perform(machine, &[Call::Run(MOST_STEPS)], &mut answers);
            match answers {
                [Answer::Ran(Ran { steps, .. })] => steps,
                _ => 0,
            }
        }
    }
}

// Loads the image into a memory over these cells, runs it, and prints steps, cycles and time.
fn timed<C: Cell, R: Print + Clock>(
    rt: &R,
    name: &str,
    caller: Caller,
    cells: &mut [C],
    image: &[u8],
) -> anyhow::Result<()> {
    let memory = LentMemory::make(cells);
    let mut machine = Machine::power(memory, Registers::default(), 0, 0);
    load(&mut machine, image)?;
    let start = Instant::now(rt)?;
    let steps = steps_by(caller, &mut machine);
    let micros = start.elapsed(rt)?.as_micros().max(1);
    let cycles = machine.state().counter;
    println!(rt; "{name}: {steps} steps, {cycles} cycles")?;
    if cycles >= TIMED_CYCLES {
        let rate = u128::from(cycles) * 1_000_000 / micros;
        println!(rt; "{name}: {micros} microseconds, {rate} cycles a second")?;
    }
    Ok(())
}

fn main(rt: HostRuntime) -> anyhow::Result<()> {
    let heap = rt.alloc();
    let mut image = Vec::new(heap);
    rt.stdin().take(MOST_BYTES as u64).read_to_end(&mut image)?;
    let size = memory_size(&image);
    let mut words = vec![in heap; 0u32; size]?;
    let mut bytes = vec![in heap; 0u8; 4 * size]?;
    let (words, bytes) = (words.as_mut_slice(), bytes.as_mut_slice());
    timed(&rt, "words", Caller::Direct, words, &image)?;
    timed(&rt, "bytes", Caller::Direct, bytes, &image)?;
    timed(&rt, "words by perform", Caller::Perform, words, &image)?;
    timed(&rt, "bytes by perform", Caller::Perform, bytes, &image)
}
