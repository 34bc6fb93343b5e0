// The machine: a datapath with the published microprogram, and the program that is loaded in it.
#![tactic(auto)]

mod calls;
mod layout;
mod load;
mod look_refusal;
mod machine_type;
mod numbers;
mod program;
mod ran;
mod start_refusal;

pub use layout::Layout;
pub use look_refusal::LookRefusal;
pub use machine_type::Machine;
pub use numbers::Numbers;
pub use program::Program;
pub use ran::Ran;
pub use start_refusal::StartRefusal;
