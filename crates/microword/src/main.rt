// Reads control words, one a line in hexadecimal, and prints the operations of each.
#![tactic(auto)]

mod line;

use line::{line_report, number_in};
use std::io::{BufRead, BufReader};

fn main(rt: HostRuntime) -> anyhow::Result<()> {
    let heap = rt.alloc();
    let lines = BufReader::new(heap, rt.stdin())?.split(heap, b'\n');
    for (count, line) in (1u64..).zip(lines) {
        let line = line?;
        let number = number_in(line.as_slice().trim_ascii());
        let report = line_report(heap, number)?;
        println!(rt; "line {count}: {report}")?;
    }
    Ok(())
}
