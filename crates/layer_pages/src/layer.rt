//! Where a layer's pages begin, and where an object is in them.

use id_table::Spot;
use node_page::{Entry, Root};
use tree_node::Fanout;

/// The root of a layer's tree, the first page of its identifier table, and how many entries a node of
/// the tree has at most.
#[derive(Clone, Copy, Debug)]
pub struct Layer {
    pub root: Root,
    pub ids_root: u32,
    pub fanout: Fanout,
}

/// An object of a layer, or one that it is to get, and where its identifier is in the layer's table, or would
/// come: what `id_table::find` found in pages that have not been changed since.
#[derive(Clone, Copy, Debug)]
pub struct ObjectAt<const D: usize> {
    pub entry: Entry<D>,
    pub spot: Spot,
}
