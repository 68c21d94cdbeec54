//! How far a search reaches on each axis, so that many boxes are compared at once.

ghost use Rattle.std.specs.Prelude.{◌≡◌, ◌⊎◌, ℕ, ◌+◌, ◌-◌, ◌*◌, ◌^◌, ◌<◌, ◌≤◌, All, Some, false, true};
ghost use Rattle.std.specs.Prelude.{length, slice_get};
ghost use Rattle.box_math.specs.Bounds.{Bounds, IsBox, meets_test};
ghost use Rattle.box_math.specs.Masks.{has_bit};
ghost use Rattle.box_math.specs.Measures.{point_dist2_of};
ghost use Rattle.tree_node.specs.Nodes.{Item};
ghost use Rattle.node_bytes.specs.Views.{content_in};
ghost use Rattle.nearest.specs.Candidates.{Past};

use crate::best::Best;
use box_math::BBox;
use node_page::NodeView;
use std::alloc::Allocator;

/// How far what is no farther than the squared distance is on an axis, at the most.
pub(crate) fn side_of(distance: u128) -> u32
    ensures { (distance < (result + 1) * (result + 1)) ⊎ (result ≡ 2 ^ 32 - 1) }
{
    if distance >= 1 << 64 {
        return u32::MAX;
    }
    (distance as u64).isqrt() as u32
}

/// The box that reaches so far from the point on each axis. What misses it is farther, and nothing misses the
/// greatest.
pub(crate) fn box_around<const D: usize>(point: &[i32; D], side: u32) -> BBox<D>
    ensures { (b : Bounds) → IsBox D b
        → (point_dist2_of D b point.now < (side + 1) * (side + 1)) ⊎ (side ≡ 2 ^ 32 - 1)
        → meets_test D b result ≡ true }
{
    let mut low = *point;
    let mut high = *point;
    for axis in 0..D {
        low[axis] = point[axis].saturating_sub_unsigned(side);
        high[axis] = point[axis].saturating_add_unsigned(side);
    }
    BBox::try_new(low, high).unwrap()
}

/// Which entries of a node may be among the k best, or lead to one of them: the bit of a place is set for
/// each but those that are farther than all of k objects.
pub(crate) fn near_mask<const D: usize, H: Allocator>(
    view: &NodeView<'_, D>,
    point: &[i32; D],
    k: usize,
    best: &Best<H>,
) -> u128
    requires some { 1 ≤ k }
    requires few { length best.now ≤ k }
    requires boxes { All (λ item. IsBox D item.bounds) (content_in view.now).entries }
    ensures { (place : ℕ) (item : Item) → slice_get (content_in view.now).entries place ≡ Some item
        → has_bit result place ≡ false → Past (point_dist2_of D item.bounds point.now) k best.now }
{
    view.mask(&best.reach(point, k))
}

/// Which entries of a node may be nearer than the square: the bit of a place is set for each but those that
/// are no nearer.
pub(crate) fn reach_mask<const D: usize>(
    view: &NodeView<'_, D>,
    point: &[i32; D],
    bound: u64,
) -> u128
    requires boxes { All (λ item. IsBox D item.bounds) (content_in view.now).entries }
    ensures { (place : ℕ) (item : Item) → slice_get (content_in view.now).entries place ≡ Some item
        → has_bit result place ≡ false → bound ≤ point_dist2_of D item.bounds point.now }
{
    view.mask(&box_around(point, side_of(u128::from(bound))))
}
