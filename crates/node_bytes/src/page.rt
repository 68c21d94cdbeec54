//! A node as the bytes of a page.

ghost use Rattle.std.specs.Prelude.{◌≡◌, ◌≢◌, ◌==◌, ℕ, Some, All, false, length, IfSome, IfNone, IsTrue};
ghost use Rattle.block_bytes.specs.Numbers.{number_at};
ghost use Rattle.box_math.specs.Bounds.{IsBox};
ghost use Rattle.tree_node.specs.Nodes.{NodeContent, content_of};
ghost use Rattle.node_bytes.specs.Layout.{node_at, IsSpellable, IsNamed, IsPageOfNode};

use crate::entries::{read_entry, write_entry};
use crate::head::{count_at, has_node_head, is_tagged, write_head};
use arrayvec::ArrayVec;
use tree_node::Node;

/// The node that the page spells, or `None` where it spells none of that dimension and level: where its kind
/// is neither 6 nor 2, its dimension or its level is another, its count is above 100, or 0 above the leaves,
/// some entry has a low above its high, or some reference above the leaves is below 3, or 2^31 or more.
pub fn decode<const D: usize>(page: &[u8; 4096], level: u8) -> Option<Node<D>>
    ensures spelled { IfSome result (λ node. node_at D page.now ≡ Some (content_of node)) }
    ensures level { IfSome result (λ node. node.level ≡ level) }
    ensures spellable { IfSome result (λ node. IsSpellable (content_of node)) }
    ensures boxes { IfSome result (λ node. All (λ item. IsBox D item.bounds) (content_of node).entries) }
    ensures none { IfNone result ((c : NodeContent) → node_at D page.now ≡ Some c → c.level ≢ level) }
{
    if !has_node_head::<D>(page, level) {
        return None;
    }
    let count = count_at(page);
    let tagged = is_tagged(page);
    let mut entries = ArrayVec::new();
    for place in 0..count {
        match read_entry(page, place, level, tagged) {
            Some(entry) => entries.push(entry),
            None => return None,
        }
    }
    Some(Node { level, entries })
}

/// Makes the page the one that spells the node, with zeros in all bytes that it does not name. The node has
/// at most 100 entries, and one that is no leaf has at least one, all of which refer to pages from 3 to 2^31
/// - 1 and have no tag.
pub fn encode<const D: usize>(node: &Node<D>, page: &mut [u8; 4096])
    requires { IsSpellable (content_of node.now) }
    ensures spelled { node_at D page.new ≡ Some (content_of node.now) }
    ensures rest { (k : ℕ) → (IsNamed D (node.now.level == 0) (length node.now.entries.items) k → ⊥)
        → number_at 1 k page.new ≡ 0 }
    ensures is_page { IsPageOfNode D page.new (content_of node.now) }
{
    let count = node.entries.len();
    let tagged = node.level == 0;
    write_head::<D>(page, node.level, count as u16);
    for place in 0..count {
        write_entry(page, place, &node.entries[place], tagged);
    }
}
