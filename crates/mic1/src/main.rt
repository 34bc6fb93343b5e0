// Runs an image: reads it from standard input, loads it, runs up to 1,000,000 steps, and prints where that ended and why.
#![tactic(auto)]

mod answer;
mod ending;
#[cfg(test)]
mod tests;

use answer::{READ_BYTES, answer};
use anyhow::Context;
use std::io::Read;

fn main(rt: HostRuntime) -> anyhow::Result<()> {
    let heap = rt.alloc();
    let mut input = Vec::new(heap);
    rt.stdin()
        .take(READ_BYTES)
        .read_to_end(&mut input)
        .context("reading standard input")?;
    answer(heap, &input, &mut rt.stdout(), &mut rt.stderr())
}
