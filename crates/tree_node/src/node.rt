//! What a node page holds.

ghost use Rattle.box_math.specs.Bounds.{IsDims};

use arrayvec::ArrayVec;
use box_math::BBox;

/// A box and what it stands for: on level 0 an object, with its identifier and its tag, above it the page of
/// a child.
#[derive(Clone, Copy, PartialEq, Eq, Debug, Default)]
pub struct Entry<const D: usize> {
    /// The box of the object, or one that encloses all boxes of the child.
    pub bounds: BBox<D>,
    /// The identifier, or the page of the child, from 3 to 2^31 - 1.
    pub reference: u64,
    /// The tag of the object, or 0 above level 0.
    pub tag: u32,
}

/// A node of a tree, of two or three axes: its level, 0 for a leaf, and its entries.
#[derive(PartialEq, Eq, Debug, Drop)]
pub struct Node<const D: usize> {
    /// How many levels lie below the node.
    pub level: u8,
    /// The entries by place. A page has at most 100 of them: there is room for one more, with which an
    /// overfull node stands here before it is split.
    pub entries: ArrayVec<Entry<D>, 101>,
    pub ghost dims: { IsDims D },
}

/// Where a tree of pages begins: the page of its root, and how many levels lie below that.
#[derive(Clone, Copy, PartialEq, Eq, Debug)]
pub struct Root {
    /// The page of the root.
    pub page: u32,
    /// The level of the root, 0 where it is a leaf.
    pub level: u8,
}
