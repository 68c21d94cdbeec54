//! The children that a node names.

ghost use Rattle.std.specs.Prelude.{◌≡◌, ◌-◌, ◌^◌, ◌<◌, ◌≤◌, slice_index_or, map};
ghost use Rattle.arrayvec.specs.ArrayVec.{array_vec_len};
ghost use Rattle.tree_node.specs.Nodes.{Item, content_of, item_of};
ghost use Rattle.node_bytes.specs.Layout.{IsSpellable};

use tree_node::{Node, Root};

// How many children a node has: a leaf has none.
pub(crate) fn child_count<const D: usize>(node: &Node<D>) -> usize
    ensures leaf { node.now.level ≡ 0 → result ≡ 0 }
    ensures above { 0 < node.now.level → result ≡ array_vec_len node.now.entries }
{
    if node.level == 0 {
        0
    } else {
        node.entries.len()
    }
}

// The root of the tree below the entry in a place.
pub(crate) fn child_of<const D: usize>(node: &Node<D>, at: usize) -> Root
    requires above { 0 < node.now.level }
    requires within { at < array_vec_len node.now.entries }
    requires spellable { IsSpellable (content_of node.now) }
    ensures level { result.level ≡ node.now.level - 1 }
    ensures page { (d : Item) →
        result.page ≡ (slice_index_or (map item_of node.now.entries.items) at d).reference }
    ensures low { 3 ≤ result.page }
    ensures small { result.page < 2 ^ 31 }
{
    Root {
        page: node.entries[at].reference as u32,
        level: node.level - 1,
    }
}
