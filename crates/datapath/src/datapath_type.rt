// The type of a datapath.
use crate::{RegisterFile, Sequencer};

/// A datapath over a memory that it holds by value. What it holds beside the memory stands for a `State` (docs/cycle.md).
#[derive(Drop)]
pub struct Datapath<M> {
    /// The main memory.
    pub memory: M,
    /// The registers and MBR.
    pub file: RegisterFile,
    /// MPC, the counter, and what the last control word began.
    pub sequencer: Sequencer,
}
