//! The entries of a node that is viewed.

ghost use Rattle.std.specs.Prelude.{◌≡◌, ℕ, ◌<◌, ◌≤◌, false, length, true};
ghost use Rattle.box_math.specs.Bounds.{IsBox};
ghost use Rattle.box_math.specs.Masks.{has_bit};
ghost use Rattle.node_bytes.specs.Views.{content_in};
ghost use Rattle.tree_node.specs.Boxes.{box_at};

use box_math::BBox;
use node_page::{NodeView, next_set};

/// The box of the entry in the place.
pub(crate) fn box_in<const D: usize>(node: &NodeView<D>, place: usize) -> BBox<D>
    requires { place < length (content_in node.now).entries }
    ensures value { result ≡ box_at (content_in node.now).entries place }
    ensures is_box { IsBox D result }
{
    let bounds = node.entry(place).bounds;
    let _ = bounds.low();
    bounds
}

/// The first place from one on whose bit is set in the mask, or the count where no place before that has one.
pub(crate) fn next_of(mask: u128, from: usize, count: usize) -> usize
    requires from { from ≤ count }
    requires few { count ≤ 100 }
    ensures within { from ≤ result }
    ensures few { result ≤ count }
    ensures set { result < count → has_bit mask result ≡ true }
    ensures unset { (k : ℕ) → from ≤ k → k < result → has_bit mask k ≡ false }
{
    next_set(mask, from).min(count)
}
