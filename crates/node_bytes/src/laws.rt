//! What pages spell: each law is the contract of a function that does nothing, but for `a_node_comes_back`
//! and `a_written_page_comes_back`, which encode and decode.

ghost use Rattle.std.specs.Prelude.{◌≡◌, IfSome, Some, option_map};
ghost use Rattle.block_bytes.specs.Numbers.{AreBytes};
ghost use Rattle.box_math.specs.Bounds.{IsDims};
ghost use Rattle.tree_node.specs.Nodes.{NodeContent, content_of};
ghost use Rattle.node_bytes.specs.Layout.{IsPageOfNode, IsSpellable, node_at};
ghost use Rattle.node_bytes.specs.PageLaws.{ReadsWhatIsSpelled, ReadsNamedBytes, SpellsNodes};
ghost use Rattle.node_bytes.specs.PageLaws.{NodesHaveOnePage};

use crate::page::{decode, encode};
use block_bytes::zero_block;
use tree_node::Node;

/// Reading gives exactly what is spelled, so a page spells at most one node of a dimension.
pub fn what_is_spelled_is_read()
    ensures { ReadsWhatIsSpelled }
{}

/// Only the named bytes of a page are read: its head, and the entries below its count.
pub fn named_bytes_are_read()
    ensures { ReadsNamedBytes }
{}

/// What a page spells is a node: its level is a byte, it has at most 100 entries, at least one above the
/// leaves, each with a box of 32-bit coordinates, its lows at most its highs, and with a reference below
/// 2^64, above the leaves the page of a child.
pub fn what_is_spelled_is_a_node()
    ensures { SpellsNodes }
{}

/// A node has one page of each kind: two that spell it, with zeros in all bytes that they do not name, have
/// the same bytes. So `encode` leaves nothing open.
pub fn a_node_has_one_page()
    ensures { NodesHaveOnePage }
{}

/// A node that is encoded is decoded again.
pub fn a_node_comes_back<const D: usize>(node: &Node<D>, page: &mut [u8; 4096]) -> Option<Node<D>>
    requires { IsSpellable (content_of node.now) }
    ensures { option_map content_of result ≡ Some (content_of node.now) }
{
    encode(node, page);
    decode(page, node.level)
}

/// The page that is written of a node is the one that `encode` makes: decoded and encoded again it has the
/// same bytes.
pub fn a_written_page_comes_back<const D: usize>(page: &[u8; 4096], level: u8) -> Option<[u8; 4096]>
    requires { IsDims D }
    ensures same { (c : NodeContent) → c.level ≡ level → IsPageOfNode D page.now c → result ≡ Some page.now }
    ensures encoded { (c : NodeContent) → c.level ≡ level → node_at D page.now ≡ Some c
        → IfSome result (λ again. IsPageOfNode D again c) }
{
    let node = decode::<D>(page, level)?;
    let mut again = zero_block();
    encode(&node, &mut again);
    see_bytes(&again);
    Some(again)
}

// The bytes of a page are bytes.
fn see_bytes(page: &[u8; 4096])
    ensures { AreBytes page.now }
{
    let _first = page[0];
}
