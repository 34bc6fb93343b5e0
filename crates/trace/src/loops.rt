// The loops of a trace.
use crate::performed::Performed;
use crate::way::Way;
use std::alloc::{AllocError, Global};
use std::collections::BTreeMap;
use std::fmt;

/// A loop, displayed as `loop from 12 to 27` (docs/trace.md).
#[derive(Clone, Copy, PartialEq, Eq)]
pub struct Loop {
    /// The address of its head, which its jumps back go to.
    pub head: u32,
    /// The farthest address that a jump back comes from.
    pub reach: u32,
}

impl fmt::Display for Loop {
    fn fmt<W: fmt::Write>(&self, f: &mut fmt::Formatter<W>) -> fmt::Result {
        write!(f, "loop from {} to {}", self.head, self.reach)
    }
}

impl Loop {
    /// Whether an address lies in it.
    pub fn contains(&self, address: u32) -> bool {
        (self.head..=self.reach).contains(&address)
    }

    /// Whether it lies inside another loop.
    pub fn lies_in(&self, outer: &Loop) -> bool {
        outer.head < self.head && self.reach <= outer.reach
    }

    /// The smallest of some loops that it lies inside; of several, the first.
    pub fn smallest_around(&self, loops: &[Loop]) -> Option<Loop> {
        loops
            .iter()
            .filter(|outer| self.lies_in(outer))
            .min_by_key(|outer| outer.reach.abs_diff(outer.head))
            .copied()
    }
}

// The farthest address that a jump back comes from, by the address that it goes to. Calls and returns are no jumps back.
fn reaches(heap: Global, performed: &[Performed]) -> Result<BTreeMap<u32, u32>, AllocError> {
    let mut reaches = BTreeMap::new(heap);
    for done in performed {
        let from = done.place.address;
        if let Some(to) = done.way.target().filter(|to| *to <= from) {
            let reach = reaches.entry(to)?.or_insert(from);
            *reach = from.max(*reach);
        }
    }
    Ok(reaches)
}

/// The loops of the instructions that were performed, in the order in which their heads first were (docs/trace.md).
pub fn loops_of(heap: Global, performed: &[Performed]) -> Result<Vec<Loop>, AllocError> {
    let mut reaches = reaches(heap, performed)?;
    let mut loops = Vec::new(heap);
    for done in performed {
        let head = done.place.address;
        if let Some(reach) = reaches.remove(&head) {
            loops.push(Loop { head, reach })?;
        }
    }
    Ok(loops)
}
