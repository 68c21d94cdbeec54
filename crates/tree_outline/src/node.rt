//! What an outline tells of a node.

ghost use Rattle.std.specs.Prelude.{◌≡◌};
ghost use Rattle.tree_node.specs.Nodes.{content_of};
ghost use Rattle.tree_outline.specs.Outlines.{outlined};

use box_math::BBox;
use tree_node::{Node, least};

/// A node of a tree, without its entries.
#[derive(Clone, Copy, PartialEq, Eq, Debug)]
pub struct NodeOutline<const D: usize> {
    /// The page of the node.
    pub page: u32,
    /// The level of the node, 0 for a leaf.
    pub level: u8,
    /// How many entries it has, at most 100.
    pub count: usize,
    /// The least box round its entries, `None` where it has none.
    pub bounds: Option<BBox<D>>,
}

// The outline of a node that was read at a page.
pub(crate) fn outline_node<const D: usize>(page: u32, node: &Node<D>) -> NodeOutline<D>
    ensures { result ≡ outlined page (content_of node.now) }
{
    let entries = node.entries.as_slice();
    let bounds = if entries.is_empty() {
        None
    } else {
        Some(least(entries))
    };
    NodeOutline {
        page,
        level: node.level,
        count: entries.len(),
        bounds,
    }
}
