//! What a bucket page holds.

use arrayvec::ArrayVec;
use box_math::BBox;

/// Objects of one class of identifiers, and where further ones of it are.
#[derive(PartialEq, Eq, Debug, Drop)]
pub struct Bucket<const D: usize> {
    /// The page of the next bucket of the class, or 0 if there is none.
    pub next: u32,
    /// The objects by place, each an identifier, and then its box and its tag. A page has 1 to 100 of them.
    pub entries: ArrayVec<(u64, (BBox<D>, u32)), 100>,
}
