// Traces the programs of images cycle by cycle, and prints where the cycles of their loops come from.
#![tactic(auto)]

mod changes;
mod code;
mod input;
mod instruction;
mod labels;
mod loops;
mod opcode;
mod operand;
mod parts;
mod performed;
mod run;
mod summary;
mod turns;
mod visits;
mod way;

use input::Source;
use run::run;
use std::env;

fn main(rt: HostRuntime) -> anyhow::Result<()> {
    let heap = rt.alloc();
    let arguments = env::args(&rt)?.skip(1).collect::<Vec<String>>(heap)?;
    if arguments.is_empty() {
        return run(&rt, &Source::StandardInput.image(&rt)?);
    }
    for argument in &arguments {
        let source = Source::named(argument.as_str());
        let image = source.image(&rt)?;
        if arguments.len() > 1 {
            println!(rt; "== {source}")?;
        }
        run(&rt, &image)?;
    }
    Ok(())
}
