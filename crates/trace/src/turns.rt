// The turns of a loop.
use crate::loops::Loop;
use crate::parts::{Parts, Term};
use crate::performed::Place;
use crate::visits::{Event, Visit};
use std::alloc::{AllocError, Global};
use std::fmt;

/// A turn of a loop, displayed as its line (docs/trace.md).
#[derive(Drop)]
pub struct Turn<'a> {
    // the number of its visit, where the loop was entered more than once
    visit_number: Option<u64>,
    // its own number in the visit
    number: u64,
    // whether the trace ends in it
    unfinished: bool,
    visit: Visit,
    events: &'a [Event],
}

impl<'a> Turn<'a> {
    /// Its parts.
    pub fn parts(&self) -> Parts<'a> {
        Parts {
            visit: self.visit,
            left: self.events,
        }
    }
}

impl fmt::Display for Turn<'_> {
    fn fmt<W: fmt::Write>(&self, f: &mut fmt::Formatter<W>) -> fmt::Result {
        if let Some(number) = self.visit_number {
            write!(f, "visit {number}, ")?;
        }
        write!(f, "turn {}", self.number)?;
        if self.unfinished {
            write!(f, ", unfinished")?;
        }
        let mut sum: u64 = 0;
        for (index, part) in self.parts().enumerate() {
            f.write_str(if index == 0 { ": " } else { " + " })?;
            // wrapping, since nothing bounds how many there are
            sum = sum.wrapping_add(part.cycles());
            write!(f, "{}", Term(part))?;
        }
        write!(f, " = {sum}")
    }
}

// A visit of a loop, with all its instructions.
#[derive(Drop)]
struct Course<'a> {
    visit: Visit,
    events: &'a [Event],
}

// The visits of a loop, in the order in which they begin.
fn courses<'a>(
    heap: Global,
    round: Loop,
    events: &'a [Event],
) -> Result<Vec<Course<'a>>, AllocError> {
    let mut courses = Vec::new(heap);
    for (index, event) in events.iter().enumerate() {
        let Some(visit) = event.entered.filter(|visit| visit.round == round) else {
            continue;
        };
        let left = events.get(index..).unwrap_or_default();
        let under_way = left.chunk_by(|_, next| visit.holds(next.done.place)).next();
        courses.push(Course {
            visit,
            events: under_way.unwrap_or_default(),
        })?;
    }
    Ok(courses)
}

// The cycles so far, when the last of some instructions was performed.
fn total(events: &[Event]) -> Option<u64> {
    events.last().map(|event| event.done.total)
}

/// The turns of a loop, visit by visit. `end` is where the program was behind the last instruction, and none where main has returned: a turn is unfinished where the loop is still under way there, and the place is not its head (docs/trace.md).
pub fn turns_of<'a>(
    heap: Global,
    round: Loop,
    events: &'a [Event],
    end: Option<Place>,
) -> Result<Vec<Turn<'a>>, AllocError> {
    let courses = courses(heap, round, events)?;
    let several = courses.len() > 1;
    let mut turns = Vec::new(heap);
    for (count, course) in (1u64..).zip(&courses) {
        let visit = course.visit;
        let parted = course
            .events
            .chunk_by(|_, next| !visit.begins_turn(next.done.place));
        let ends_within = end.is_some_and(|end| visit.holds(end) && !visit.begins_turn(end));
        for (number, turn) in (1u64..).zip(parted) {
            turns.push(Turn {
                visit_number: several.then_some(count),
                number,
                unfinished: ends_within && total(turn) == total(events),
                visit,
                events: turn,
            })?;
        }
    }
    Ok(turns)
}
