// The instruction machine IJVM: its cases, what a step checks, the cycle table, and what the published microprogram makes of them.
#![tactic(auto)]

mod cases;
mod one_check;
mod opcodes;
mod refusal;
mod shapes;
mod summing_method;
mod theorems;
mod timing;

pub use cases::Case;
pub use one_check::check;
pub use opcodes::Opcode;
pub use refusal::StepRefusal;
pub use shapes::{Shape, Stack, Variable, Way, a_case_is_performed_where_it_applies};
pub use summing_method::{a_turn_takes_51_cycles, the_loop_takes, the_summing_method_takes};
pub use theorems::{
    a_performed_case_leaves_a_sound_state, calls_nest, every_case_takes_its_entry,
    performed_instructions_add_up,
};
pub use timing::{CYCLES, cycle_table};
