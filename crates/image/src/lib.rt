// The image of a program, load, and the call over a list of calls.
#![tactic(auto)]

mod blocks;
mod bytes;
mod calls;
mod image_checks;
mod image_type;
mod layout;
mod loading;
mod performing;
mod refusal;
mod unused;

pub use calls::{Answer, Call};
pub use image_type::Image;
pub use loading::load;
pub use performing::perform;
pub use refusal::{LoadRefusal, Place};
