//! Where a layer stands.

use node_page::Root;
use tree_node::Fanout;

/// Where the tree and the identifier table of a layer stand, and what they are like.
#[derive(Clone, Copy)]
pub struct Located {
    /// How many axes its boxes have.
    pub dims: u8,
    /// How many entries a node of its tree has at most.
    pub fanout: Fanout,
    /// The root of its tree.
    pub root: Root,
    /// The first page of its identifier table.
    pub ids_root: u32,
}
