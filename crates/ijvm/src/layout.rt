// Numbers of a program that fit together.
ghost use Rattle.ijvm.specs.Start.{Fits};

use crate::Numbers;

/// The numbers of a program that can be started: that they fit together is a fact of the type, so that a load asks nothing of its caller (docs/image.md).
#[derive(Clone, Copy, Debug, PartialEq, Eq)]
pub struct Layout {
    /// The numbers.
    pub numbers: Numbers,
    // the size, the mark, the pool, main and its frame fit together
    pub ghost fits: { Fits numbers },
}
