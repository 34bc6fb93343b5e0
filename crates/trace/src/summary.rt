// What is told of the loops behind the last instruction.
use crate::loops::{Loop, loops_of};
use crate::performed::{Performed, Place};
use crate::turns::turns_of;
use crate::visits::{Event, events_of};

// Prints a loop: the instructions of its first turn, and the sum of each turn.
fn print_loop<R: Print + AllocGlobal>(
    rt: &R,
    loops: &[Loop],
    round: Loop,
    events: &[Event],
    end: Option<Place>,
) -> anyhow::Result<()> {
    match round.smallest_around(loops) {
        None => println!(rt; "{round}: its first turn")?,
        Some(outer) => println!(rt; "{round}, inside the {outer}: its first turn")?,
    }
    let turns = turns_of(rt.alloc(), round, events, end)?;
    if let Some(first) = turns.first() {
        for part in first.parts() {
            println!(rt; "  {part}")?;
        }
    }
    for turn in &turns {
        println!(rt; "{turn}")?;
    }
    Ok(())
}

/// Prints where the cycles of the loops come from, and the cycles of all instructions. `end` is where the program was behind them, and none where main has returned (docs/trace.md).
pub fn print_loops<R: Print + AllocGlobal>(
    rt: &R,
    performed: &[Performed],
    end: Option<Place>,
) -> anyhow::Result<()> {
    let loops = loops_of(rt.alloc(), performed)?;
    if loops.is_empty() {
        println!(rt; "no loop was entered")?;
    }
    let events = events_of(rt.alloc(), &loops, performed)?;
    for round in &loops {
        print_loop(rt, &loops, *round, &events, end)?;
    }
    let total = performed.last().map_or(0, |done| done.total);
    println!(rt; "in all: {total}")?;
    Ok(())
}
