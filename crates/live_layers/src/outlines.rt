//! The outline of the tree of a layer.

use std::alloc::{Allocator, Global};
use tree_outline::NodeOutline;

/// The nodes of the tree of a layer, the root first, each node before those below it, and siblings by
/// position.
#[derive(Drop)]
pub enum LayerOutline<A: Allocator = Global> {
    /// Of a layer of two axes.
    Two(Vec<NodeOutline<2>, A>),
    /// Of a layer of three axes.
    Three(Vec<NodeOutline<3>, A>),
}
