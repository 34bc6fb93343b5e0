// Prints the slides' tables as the machine computes them, and tries each refusal at its edges. What it prints is compared with what was written from the slides' tables and by a simulator apart from this code.
#![tactic(auto)]

mod call_lists;
mod control_edges;
mod cycle_edges;
mod fragment;
mod frame_trials;
mod load_edges;
mod load_trials;
mod memory_edges;
mod outcome;
mod path_trials;
mod run_edges;
mod sketch;
mod step_edges;
mod step_trials;
mod summing;
mod tables;
mod trial;

fn main(rt: HostRuntime) -> anyhow::Result<()> {
    tables::tables(&rt)?;
    fragment::fragment(&rt, rt.alloc())?;
    summing::summing(&rt, rt.alloc())?;
    memory_edges::memory_edges(&rt, rt.alloc())?;
    control_edges::control_edges(&rt, rt.alloc())?;
    cycle_edges::cycle_edges(&rt)?;
    load_edges::load_edges(&rt, rt.alloc())?;
    step_edges::step_edges(&rt, rt.alloc())?;
    run_edges::run_edges(&rt, rt.alloc())?;
    call_lists::call_lists(&rt, rt.alloc())?;
    Ok(())
}
