// A datapath, read as the instruction machine.
use datapath::Datapath;

/// A lent datapath, read as the instruction machine: PC, SP, LV and CPP are its registers, the mark is its memory's, and the words are those of its memory with a write under way counted as done. Nothing is changed by it (docs/instruction-machine.md).
#[derive(Clone, Copy)]
pub struct View<'a, M> {
    /// The datapath.
    pub datapath: &'a Datapath<M>,
    /// The pool count of the program that is loaded, in words.
    pub pool: u32,
}
