// Whether a call was accepted.
use std::fmt;

/// Whether a call was accepted: none, or the number of its refusal. Displayed as `accepted` or `refused` with the number (docs/edges.md).
#[derive(Drop)]
pub struct Outcome(pub Option<u32>);

impl fmt::Display for Outcome {
    fn fmt<W: fmt::Write>(&self, f: &mut fmt::Formatter<W>) -> fmt::Result {
        match self.0 {
            None => f.write_str("accepted"),
            Some(number) => write!(f, "refused {number}"),
        }
    }
}
