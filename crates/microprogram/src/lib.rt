// The published microprogram: the control store that holds the slides' listing.
#![tactic(auto)]

mod published;

pub use published::published_store;
