//! What decides between the entries of a node.

ghost use Rattle.std.specs.Prelude.{◌≡◌, ℕ, ◌-◌, ◌^◌, ◌<◌, ◌≤◌, ◌↔◌, List, length, IsTrue};
ghost use Rattle.box_math.specs.Bounds.{IsDims, join_of};
ghost use Rattle.box_math.specs.Measures.{volume_of};
ghost use Rattle.choose_subtree.specs.Choice.{numbers_of, growth_of};
ghost use Rattle.node_bytes.specs.Views.{content_in};
ghost use Rattle.tree_node.specs.Boxes.{box_at};
ghost use Rattle.tree_node.specs.Keys.{AtMost};

use crate::entries::box_in;
use box_math::BBox;
use node_page::NodeView;

/// What decides between entries, the first that differs; the position is last, so ties go to the least one.
#[derive(Clone, Copy)]
pub(crate) struct Key {
    pub(crate) overlap: u128,
    pub(crate) growth: u128,
    pub(crate) area: u128,
    pub(crate) position: usize,
}

// How much the area of a box grows where it takes in another.
fn growth<const D: usize>(a: &BBox<D>, b: &BBox<D>) -> u128
    requires { IsDims D }
    ensures value { result ≡ growth_of D a.now b.now }
    ensures bound { result < 2 ^ 96 }
{
    let joined = a.join(b);
    let _ = a.low();
    joined.volume() - a.volume()
}

// The number, or the greatest of 64 bits where it is above that.
fn in_64_bits(number: u128) -> u64
    ensures exact { number < 2 ^ 64 → result ≡ number }
    ensures greatest { 2 ^ 64 ≤ number → result ≡ 2 ^ 64 - 1 }
{
    number.min(u128::from(u64::MAX)) as u64
}

/// How much the area of a box grows at least where it takes in another: just so much where 64 bits hold both
/// areas, as they do in two axes.
#[inline]
pub(crate) fn growth_at_least<const D: usize>(a: &BBox<D>, b: &BBox<D>) -> u64
    requires { IsDims D }
    ensures least { result ≤ growth_of D a.now b.now }
    ensures exact { volume_of D (join_of D a.now b.now) < 2 ^ 64 → result ≡ growth_of D a.now b.now }
{
    let joined = a.join(b);
    let _ = a.low();
    in_64_bits(joined.volume()) - in_64_bits(a.volume())
}

/// Whether a key is at most another.
pub(crate) fn at_most(a: &Key, b: &Key) -> bool
    ensures { IsTrue result ↔ AtMost (numbers_of a.now) (numbers_of b.now) }
{
    (a.overlap, a.growth, a.area, a.position) <= (b.overlap, b.growth, b.area, b.position)
}

/// The key of an entry, the growth of its overlap being known.
pub(crate) fn key_of<const D: usize>(
    node: &NodeView<D>,
    new: &BBox<D>,
    k: usize,
    overlap: u128,
) -> Key
    requires within { k < length (content_in node.now).entries }
    ensures { result ≡ record {
      overlap = overlap;
      growth = growth_of D (box_at (content_in node.now).entries k) new.now;
      area = volume_of D (box_at (content_in node.now).entries k);
      position = k;
    } }
{
    let bounds = box_in(node, k);
    Key {
        overlap,
        growth: growth(&bounds, new),
        area: bounds.volume(),
        position: k,
    }
}
