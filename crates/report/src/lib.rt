// A run of an image, and the four lines that the program prints of it.
#![tactic(auto)]

mod lines;
mod running;
mod summing_image;
mod worked_examples;

pub use lines::Report;
pub use running::{MOST_BYTES, memory_size, run_image, run_in};
pub use summing_image::the_summing_image_prints;
pub use worked_examples::the_worked_examples;
