//! The first bytes of a node page: its kind, its dimension, its count and its level.

ghost use Rattle.std.specs.Prelude.{◌≡◌, ℕ, ◌<◌, ◌≤◌, ◌↔◌, IsTrue};
ghost use Rattle.block_bytes.specs.Numbers.{number_at};
ghost use Rattle.box_math.specs.Bounds.{IsDims};
ghost use Rattle.node_bytes.specs.Layout.{HasNodeHead, IsHead, IsNodeKind, has_tags};

use block_bytes::{NODE_KIND, UNTAGGED_NODE_KIND, read_u8, read_u16, write_u8};
use box_math::is_dims;

// Whether a node of the level may have so many entries: at most 100, and at least one above the leaves.
#[inline]
fn is_count(level: u8, count: usize) -> bool
    ensures { IsTrue result ↔ ((count ≤ 100) × (0 < level → 1 ≤ count)) }
{
    count <= 100 && (level == 0 || count >= 1)
}

// Whether pages of the kind are node pages.
#[inline]
fn is_node_kind(kind: u8) -> bool
    ensures { IsTrue result ↔ IsNodeKind kind }
{
    kind == NODE_KIND || kind == UNTAGGED_NODE_KIND
}

/// Whether the page begins as a node page of that dimension and level does. Its entries are not looked at.
#[inline]
pub(crate) fn has_node_head<const D: usize>(page: &[u8; 4096], level: u8) -> bool
    ensures { IsTrue result ↔ HasNodeHead D level page.now }
{
    is_dims(D)
        && is_node_kind(read_u8(page, 0))
        && usize::from(read_u8(page, 1)) == D
        && read_u8(page, 4) == level
        && is_count(level, count_at(page))
}

/// How many entries a node page says it has: the number in the two bytes at 2.
#[inline]
pub(crate) fn count_at(page: &[u8; 4096]) -> usize
    ensures { result ≡ number_at 2 2 page.now }
{
    usize::from(read_u16(page, 2))
}

/// Whether the page has tags: it is a leaf, and not one of format 1.
#[tactic(auto, unfolding(crate::specs::Layout::has_tags))]
#[inline]
pub(crate) fn is_tagged(page: &[u8; 4096]) -> bool
    ensures { result ≡ has_tags page.now }
{
    read_u8(page, 0) == NODE_KIND && read_u8(page, 4) == 0
}

/// Makes the page one of zeros but for the head of a node page.
pub(crate) fn write_head<const D: usize>(page: &mut [u8; 4096], level: u8, count: u16)
    requires { IsDims D }
    ensures head { IsHead D level count page.new }
    ensures rest { (k : ℕ) → 5 ≤ k → number_at 1 k page.new ≡ 0 }
{
    block_bytes::write_head(page, NODE_KIND, D as u8, count);
    write_u8(page, 4, level);
}
