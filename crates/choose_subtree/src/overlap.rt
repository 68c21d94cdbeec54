//! How much the overlap of an entry with the others grows where it takes in a new box. Only entries that meet
//! the greater box count, which a mask tells.

ghost use Rattle.std.specs.Prelude.{◌≡◌, ℕ, ◌+◌, ◌^◌, ◌<◌, ◌≤◌, All, length, IsNone, IfSome};
ghost use Rattle.box_math.specs.Bounds.{IsDims, IsBox, Within};
ghost use Rattle.box_math.specs.Measures.{overlap_of};
ghost use Rattle.choose_subtree.specs.Choice.{overlap_growth};
ghost use Rattle.node_bytes.specs.Views.{content_in};

use crate::entries::{box_in, next_of};
use box_math::BBox;
use node_page::NodeView;

// How much more a box has in common with a third where it takes in another.
fn overlap_gain<const D: usize>(before: &BBox<D>, after: &BBox<D>, third: &BBox<D>) -> u128
    requires dims { IsDims D }
    requires grows { Within D before.now after.now }
    ensures value { result + overlap_of D before.now third.now ≡ overlap_of D after.now third.now }
    ensures bound { result < 2 ^ 96 }
{
    let _ = before.low();
    let _ = third.low();
    let wide = after.overlap(third);
    if wide == 0 {
        return 0;
    }
    wide - before.overlap(third)
}

/// The growth, if it is at most the limit: a sum that is past it is left off, at once where one other entry's
/// part is.
pub(crate) fn overlap_growth_up_to<const D: usize>(
    node: &NodeView<D>,
    new: &BBox<D>,
    k: usize,
    other: usize,
    limit: u128,
) -> Option<u128>
    requires boxes { All (λ item. IsBox D item.bounds) (content_in node.now).entries }
    requires within { k < length (content_in node.now).entries }
    requires other { other < length (content_in node.now).entries }
    ensures value { IfSome result
        (λ growth. growth ≡ overlap_growth D (content_in node.now).entries new.now k) }
    ensures small { IfSome result (λ growth. growth ≤ limit) }
    ensures large { IsNone result → limit < overlap_growth D (content_in node.now).entries new.now k }
{
    let before = box_in(node, k);
    let after = before.join(new);
    if other != k && limit < overlap_gain(&before, &after, &box_in(node, other)) {
        return None;
    }
    let near = node.mask(&after);
    let mut sum = 0u128;
    let mut place = next_of(near, 0, node.len());
    'entries: while place < node.len() {
        if place != k {
            sum += overlap_gain(&before, &after, &box_in(node, place));
            if limit < sum {
                return None;
            }
        }
        place = next_of(near, place + 1, node.len());
    }
    Some(sum)
}

/// The growth. It is 0 where the box holds the new one already.
pub(crate) fn whole_overlap_growth<const D: usize>(
    node: &NodeView<D>,
    new: &BBox<D>,
    k: usize,
) -> u128
    requires boxes { All (λ item. IsBox D item.bounds) (content_in node.now).entries }
    requires within { k < length (content_in node.now).entries }
    ensures { result ≡ overlap_growth D (content_in node.now).entries new.now k }
{
    let before = box_in(node, k);
    if before.encloses(new) {
        return 0;
    }
    let after = before.join(new);
    let near = node.mask(&after);
    let mut sum = 0u128;
    let mut place = next_of(near, 0, node.len());
    'entries: while place < node.len() {
        if place != k {
            sum += overlap_gain(&before, &after, &box_in(node, place));
        }
        place = next_of(near, place + 1, node.len());
    }
    sum
}
