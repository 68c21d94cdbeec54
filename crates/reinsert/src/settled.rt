//! What a node is settled by, and what it hands up.

use box_math::BBox;
use tree_node::{Entry, Fanout};

/// The least box of a node that has settled, and the entry of what was split off.
#[derive(Clone, Copy, Debug)]
pub(crate) struct Settled<const D: usize> {
    pub(crate) bounds: BBox<D>,
    pub(crate) beside: Option<Entry<D>>,
}

/// The most entries of a node, and the level of the root.
#[derive(Clone, Copy, Debug)]
pub(crate) struct Limits {
    pub(crate) fanout: Fanout,
    pub(crate) top: u8,
}
