// The datapath of the Mic-1: its state, and the cycle that moves it.
#![tactic(auto)]

mod complete;
mod computing;
mod cycles;
mod datapath_type;
mod machine_state;
mod pending;
mod refusal;
mod register_file;
mod sequencer;
mod slots;
mod starts;
mod state_and_memory;

pub use cycles::power_refusal;
pub use datapath_type::Datapath;
pub use machine_state::State;
pub use pending::{DataAccess, Fault, FetchAccess, Port};
pub use refusal::PowerRefusal;
pub use register_file::RegisterFile;
pub use sequencer::Sequencer;
