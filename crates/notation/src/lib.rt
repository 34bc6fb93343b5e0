// Control words in the notation of the textbook's slides.
#![tactic(auto)]

mod digits;
mod operations;
mod values;

pub use digits::{Bits, word_text};
pub use operations::{Operations, operations_text};
