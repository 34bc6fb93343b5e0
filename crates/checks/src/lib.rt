// The state of the instruction machine, read off a datapath, and the checks of a step.
#![tactic(auto)]

mod frame;
mod reads;
mod step_checks;
mod view;

pub use view::View;
