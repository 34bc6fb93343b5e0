// The visits of loops.
use crate::loops::Loop;
use crate::performed::{Performed, Place};
use std::alloc::{AllocError, Global};

/// A visit of a loop: from where it is entered in a frame to where it is left (docs/trace.md).
#[derive(Clone, Copy)]
pub struct Visit {
    /// The loop.
    pub round: Loop,
    /// The LV of the frame, a word address.
    pub frame: u32,
}

/// An instruction that was performed, and the visit that begins with it, if one does (docs/trace.md).
#[derive(Clone, Copy)]
pub struct Event {
    /// The instruction.
    pub done: Performed,
    /// The visit. There is at most one, since the loops differ in their heads.
    pub entered: Option<Visit>,
}

impl Visit {
    /// Whether it is still under way at a place, if it was one instruction before: the place lies in the loop, or in a method that is called.
    pub fn holds(&self, place: Place) -> bool {
        place.frame > self.frame || place.frame == self.frame && self.round.contains(place.address)
    }

    /// Whether a turn of it begins at a place: it is the head, in the frame of the visit.
    pub fn begins_turn(&self, place: Place) -> bool {
        place.frame == self.frame && place.address == self.round.head
    }

    /// Whether it is one number in the turns of another visit that is under way: its loop lies inside the other's, or in a method that is called.
    pub fn lies_in(&self, outer: &Visit) -> bool {
        self.frame > outer.frame || self.round.lies_in(&outer.round)
    }

    // Whether it is under way behind these instructions: its head is among the last that belong to it.
    fn is_under_way(&self, before: &[Performed]) -> bool {
        before
            .iter()
            .rev()
            .take_while(|done| self.holds(done.place))
            .any(|done| self.begins_turn(done.place))
    }
}

// The visit that begins with an instruction behind others, if one does.
fn entered(loops: &[Loop], before: &[Performed], done: &Performed) -> Option<Visit> {
    let round = loops.iter().find(|round| round.head == done.place.address)?;
    let visit = Visit {
        round: *round,
        frame: done.place.frame,
    };
    (!visit.is_under_way(before)).then_some(visit)
}

/// The instructions that were performed, each with the visit that begins with it (docs/trace.md).
pub fn events_of(
    heap: Global,
    loops: &[Loop],
    performed: &[Performed],
) -> Result<Vec<Event>, AllocError> {
    let mut events = Vec::new(heap);
    for (count, done) in performed.iter().enumerate() {
        let before = performed.get(..count).unwrap_or_default();
        events.push(Event {
            done: *done,
            entered: entered(loops, before, done),
        })?;
    }
    Ok(events)
}
