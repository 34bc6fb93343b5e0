// The image of a program.
use ijvm::Layout;

/// An image, as `Image::of` answers it where its checks pass: its bytes, lent, and the numbers that stand in them, which fit together (docs/image.md).
#[derive(Clone, Copy)]
pub struct Image<'a> {
    pub(crate) bytes: &'a [u8],
    pub(crate) layout: Layout,
}
