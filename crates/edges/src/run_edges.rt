// What run, look and cycle do at their limits: budgets, a write under way, a cycle of a loaded machine, a load of a machine that was under way, and a call.
use crate::call_lists::print_answer;
use crate::sketch::Sketch;
use crate::summing::summing_image;
use crate::trial::loaded;
use anyhow::Result;
use control::{ControlStore, Registers};
use datapath::DataAccess;
use ijvm::Machine;
use image::{Answer, load};
use memory::{Memory, WordMemory};
use std::alloc::Global;

// Runs of the summing image around its 28 steps.
const BUDGETS: [u64; 6] = [0, 1, 27, 28, 29, 1_000_000];

fn budget<M: Memory + Drop>(rt: &impl Print, memory: M, program: &[u8], n: u64) -> Result<()> {
    let mut machine = loaded(memory, program)?;
    let ran = machine.run(n);
    let (number, cycles) = (ran.number(), machine.state().counter);
    println!(rt; "  run {n}: {} steps, {number}, {cycles} cycles", ran.steps)?;
    Ok(())
}

// A write under way: look has it, the memory not yet.
fn under_way<M: Memory + Drop>(rt: &impl Print, memory: M, program: &[u8]) -> Result<()> {
    let mut machine = loaded(memory, program)?;
    machine.step()?;
    if let Some(DataAccess::Write { address, word, .. }) = machine.state().access {
        println!(rt; "  under way: write {address}, {word}")?;
    }
    println!(rt; "  look 14: {}", machine.look(14)?)?;
    println!(rt;
        "  the memory's word 14: {}",
        machine.into_memory().read(14)?
    )?;
    Ok(())
}

// Cycles of a loaded machine by a store of zeros, then a step, a look and a load. After a cycle no program is loaded; a second load is refused by the memory's mark.
fn cycles<M: Memory + Drop>(rt: &impl Print, memory: M, program: &[u8], n: u64) -> Result<()> {
    let mut machine = loaded(memory, program)?;
    let (done, _) = machine.go(&ControlStore::new(), n);
    print!(rt; "  go {n}: {done} done; then step: ")?;
    print_answer(rt, &Answer::Stepped(machine.step()))?;
    print!(rt; "    look 9: ")?;
    print_answer(rt, &Answer::Looked(machine.look(9)))?;
    print!(rt; "    load: ")?;
    print_answer(rt, &Answer::Loaded(load(&mut machine, program)))
}

// A load of a machine that has done a cycle of MAR = MDR = H; wr; fetch, of which nothing is left.
fn load_under_way<M: Memory + Drop>(rt: &impl Print, memory: M, program: &[u8]) -> Result<()> {
    let registers = Registers {
        h: 20,
        opc: 7,
        tos: 7,
        ..Registers::default()
    };
    let mut machine = Machine::power(memory, registers, 0x85, 5);
    let mut store = ControlStore::new();
    store.fill(&[0x3018_01D0; 512])?;
    machine.cycle(&store)?;
    let state = machine.state();
    let (access, fetch) = (state.access.is_some(), state.fetch.is_some());
    println!(rt;
        "  before: counter {}, under way: {access} and {fetch}",
        state.counter
    )?;
    load(&mut machine, program)?;
    let state = machine.state();
    let r = state.registers;
    let (access, fetch) = (state.access.is_some(), state.fetch.is_some());
    println!(rt;
        "  after: counter {}, under way: {access} and {fetch}",
        state.counter
    )?;
    println!(rt;
        "    MPC {}, MBR {}, PC {}, SP {}, LV {}, CPP {}",
        state.mpc, state.mbr, r.pc, r.sp, r.lv, r.cpp
    )?;
    println!(rt;
        "    H {}, OPC {}, TOS {}, MDR {}, MAR {}",
        r.h, r.opc, r.tos, r.mdr, r.mar
    )?;
    println!(rt; "    look 20: {}", machine.look(20)?)?;
    Ok(())
}

// BIPUSH 5 and a call of a method without locals.
fn after_a_call<M: Memory + Drop>(rt: &impl Print, memory: M, program: &[u8]) -> Result<()> {
    let mut machine = loaded(memory, program)?;
    machine.run(2);
    let r = machine.state().registers;
    let depth_0 = machine.top().is_none();
    println!(rt;
        "  LV {}, SP {}, TOS {}, no top: {depth_0}",
        r.lv, r.sp, r.tos
    )?;
    Ok(())
}

// BIPUSH 5 and a call of the method at byte 11, which has one param.
const CALL: Sketch<'static> = Sketch {
    size: 32,
    mark: 9,
    locals: 2,
    cpp: 8,
    pool: &[11],
    code: &[0x10, 5, 0xB6, 0, 0, 0, 0, 0, 1, 0, 0],
};

// BIPUSH 7, at SP 13.
const BIPUSH: Sketch<'static> = Sketch {
    size: 32,
    mark: 9,
    locals: 2,
    cpp: 0,
    pool: &[],
    code: &[0x10, 7],
};

/// Prints what run, look, cycle and load do at the edges of their rules (docs/edges.md).
pub fn run_edges(rt: &impl Print, heap: Global) -> Result<()> {
    let summing = summing_image(heap, 3)?;
    println!(rt; "RUNS of the summing image, n = 3")?;
    for n in BUDGETS {
        budget(rt, WordMemory::make(&mut [0; 32]), summing.as_slice(), n)?;
    }
    println!(rt; "LOOK with a write under way: BIPUSH 7 at SP 13")?;
    let bipush = BIPUSH.image(heap)?;
    under_way(rt, WordMemory::make(&mut [0; 32]), bipush.as_slice())?;
    println!(rt; "CYCLES of a loaded machine by a store of zeros")?;
    for n in [0u64, 1, 2] {
        cycles(rt, WordMemory::make(&mut [0; 32]), summing.as_slice(), n)?;
    }
    println!(rt; "LOAD of a machine that has done a cycle, with a write and a fetch under way")?;
    load_under_way(rt, WordMemory::make(&mut [0; 32]), summing.as_slice())?;
    println!(rt;
        "RIGHT AFTER INVOKEVIRTUAL: TOS holds the new LV, and is not the top of a stack of depth 0"
    )?;
    let call = CALL.image(heap)?;
    after_a_call(rt, WordMemory::make(&mut [0; 32]), call.as_slice())
}
