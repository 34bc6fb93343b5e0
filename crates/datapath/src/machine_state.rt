// The state of the datapath, apart from the memory.
use crate::{DataAccess, FetchAccess};
use control::Registers;

/// The state of a machine apart from its memory (docs/cycle.md).
#[derive(Clone, Copy, Debug, PartialEq, Eq)]
pub struct State {
    /// The nine registers of 32 bits.
    pub registers: Registers,
    /// MBR, which has 8 bits.
    pub mbr: u8,
    /// The address of the control word to come; a datapath's is 0 to 511.
    pub mpc: u16,
    /// The cycles that were done, modulo 2^64.
    pub counter: u64,
    /// The read or write under way, if there is one.
    pub access: Option<DataAccess>,
    /// The fetch under way, if there is one.
    pub fetch: Option<FetchAccess>,
}
