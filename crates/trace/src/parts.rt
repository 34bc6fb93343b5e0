// The parts of a turn.
ghost use Rattle.std.specs.Prelude.{length};
ghost use Rattle.std.specs.Iterator.{at_most};

use crate::loops::Loop;
use crate::performed::{Performed, Place};
use crate::visits::{Event, Visit};
use std::fmt;

/// A part of a turn, displayed as its line in the list of a first turn (docs/trace.md).
#[derive(Clone, Copy)]
pub enum Part<'a> {
    /// An instruction.
    Instruction(&'a Performed),
    /// What lies in the turn of a visit of another loop.
    Inner {
        /// The loop.
        round: Loop,
        /// The cycles of its instructions.
        cycles: u64,
    },
}

impl fmt::Display for Part<'_> {
    fn fmt<W: fmt::Write>(&self, f: &mut fmt::Formatter<W>) -> fmt::Result {
        match self {
            Part::Instruction(done) => {
                let Performed {
                    place: Place { address, .. },
                    instruction,
                    way,
                    cycles,
                    ..
                } = done;
                write!(f, "{address} {instruction}{way}: {cycles}")
            }
            Part::Inner { round, cycles } => write!(f, "{} {round}: {cycles}", round.head),
        }
    }
}

impl Part<'_> {
    /// Its cycles.
    pub fn cycles(&self) -> u64 {
        match self {
            Part::Instruction(done) => done.cycles,
            Part::Inner { cycles, .. } => *cycles,
        }
    }
}

/// A part of a turn, displayed as a number in the turn's sum (docs/trace.md).
#[derive(Drop)]
pub struct Term<'a>(pub Part<'a>);

impl fmt::Display for Term<'_> {
    fn fmt<W: fmt::Write>(&self, f: &mut fmt::Formatter<W>) -> fmt::Result {
        match self.0 {
            Part::Instruction(done) => write!(f, "{}", done.cycles),
            Part::Inner { cycles, .. } => write!(f, "({cycles})"),
        }
    }
}

/// The parts of a turn, in their order (docs/trace.md).
#[derive(Drop)]
pub struct Parts<'a> {
    /// The visit that the turn belongs to.
    pub visit: Visit,
    /// The instructions of the turn that are left.
    pub left: &'a [Event],
}

// The cycles of some instructions. Wrapping, since nothing bounds how many there are.
fn sum(events: &[Event]) -> u64 {
    events
        .iter()
        .fold(0, |sum: u64, event| sum.wrapping_add(event.done.cycles))
}

impl<'a> Iterator for Parts<'a> {
    type Item = Part<'a>;

    ghost remaining = { λ parts. at_most (length parts.left.now) };

    fn next(&mut self) -> Option<Part<'a>> {
        let (first, others) = self.left.split_first()?;
        self.left = others;
        let Some(inner) = first.entered.filter(|inner| inner.lies_in(&self.visit)) else {
            return Some(Part::Instruction(&first.done));
        };
        let count = others
            .iter()
            .take_while(|event| inner.holds(event.done.place))
            .count();
        let (inside, behind) = others.split_at(count);
        self.left = behind;
        Some(Part::Inner {
            round: inner.round,
            cycles: first.done.cycles.wrapping_add(sum(inside)),
        })
    }
}
