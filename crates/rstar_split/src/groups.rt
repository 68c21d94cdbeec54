//! The choice of the axis and of the cut.

ghost use Rattle.std.specs.Prelude.{◌≡◌, ℕ, ◌+◌, ◌*◌, ◌^◌, ◌<◌, ◌≤◌, [], ◌∷◌, ◌++◌, length, IsPermutation};
ghost use Rattle.arrayvec.specs.ArrayVec.{array_vec_len};
ghost use Rattle.box_math.specs.Bounds.{IsDims};
ghost use Rattle.tree_node.specs.Nodes.{items_of};
ghost use Rattle.tree_node.specs.Keys.{IsFirstLeast};
ghost use Rattle.tree_node.specs.Shape.{least_entries};
ghost use Rattle.rstar_split.specs.Cuts.{order_of, margins_of, cuts_of, axis_margin};
ghost use Rattle.rstar_split.specs.Divided.{IsDividedBySplit};
ghost use Rattle.rstar_split.specs.Sorts.{AreSorts, CutsAxis};

use crate::cuts::{Cut, at_most, best_cut};
use crate::margins::margins;
use crate::sorting::{Bound, order};
use arrayvec::ArrayVec;
use box_math::BBox;
use tree_node::{Entry, Fanout, picked};

// Sorts the entries on an axis: writes down their positions, and answers the sum of the margins.
fn sort_on<const D: usize>(
    entries: &[Entry<D>],
    m: usize,
    axis: usize,
    bound: Bound,
    places: &mut [usize],
) -> u64
    requires dims { IsDims D }
    requires few { length entries.now ≤ 101 }
    requires some { 0 < m }
    requires enough { 2 * m ≤ length entries.now }
    requires axis { axis < D }
    requires whole { length places.old ≡ length entries.now }
    ensures order { places.new ≡ order_of (items_of entries.now) axis bound }
    ensures whole { length places.new ≡ length entries.now }
    ensures margin { result ≡ margins_of D (items_of entries.now) (order_of (items_of entries.now) axis bound)
        m (cuts_of (length (items_of entries.now)) m) }
    ensures small { result < 2 ^ 42 }
{
    order(entries, axis, bound, places);
    margins(entries, places, m)
}

// The first axis whose margin sum is least. The positions are those of its two sorts.
fn best_axis<const D: usize>(
    entries: &[Entry<D>],
    m: usize,
    lower: &mut [usize],
    upper: &mut [usize],
) -> usize
    requires dims { IsDims D }
    requires few { length entries.now ≤ 101 }
    requires some { 0 < m }
    requires enough { 2 * m ≤ length entries.now }
    requires lower { length lower.old ≡ length entries.now }
    requires upper { length upper.old ≡ length entries.now }
    ensures axis { result < D }
    ensures sorts { AreSorts (items_of entries.now) result lower.new upper.new }
    ensures first { IsFirstLeast D (λ axis. axis_margin D (items_of entries.now) m axis ∷ []) result }
{
    let n = entries.len();
    let mut lower_room = [0; 101];
    let next_lower = &mut lower_room[..n];
    let mut upper_room = [0; 101];
    let next_upper = &mut upper_room[..n];
    let mut best = 0;
    let mut least = sort_on(entries, m, 0, Bound::Lower, lower)
        + sort_on(entries, m, 0, Bound::Upper, upper);
    for axis in 1..D {
        let margin = sort_on(entries, m, axis, Bound::Lower, next_lower)
            + sort_on(entries, m, axis, Bound::Upper, next_upper);
        if margin < least {
            best = axis;
            least = margin;
            lower.copy_from_slice(next_lower);
            upper.copy_from_slice(next_upper);
        }
    }
    best
}

// The least candidate of the two sorts of an axis. The positions are then those of the sort that it cuts.
fn least_cut<const D: usize>(
    entries: &[Entry<D>],
    m: usize,
    places: &mut [usize],
    upper: &[usize],
) -> Cut
    requires dims { IsDims D }
    requires few { length entries.now ≤ 101 }
    requires some { 0 < m }
    requires enough { 2 * m ≤ length entries.now }
    requires sorts { (axis : ℕ) × AreSorts (items_of entries.now) axis places.old upper.now }
    ensures { (axis : ℕ) → AreSorts (items_of entries.now) axis places.old upper.now
        → CutsAxis D (items_of entries.now) m axis places.new result }
{
    let mut backs = [BBox::default(); 101];
    let mut cut = best_cut(entries, places, m, Bound::Lower, &mut backs);
    let other = best_cut(entries, upper, m, Bound::Upper, &mut backs);
    if !at_most(&cut, &other) {
        cut = other;
        places.copy_from_slice(upper);
    }
    cut
}

/// The two groups of the chosen split of a node that has one entry more than the most.
pub fn split<const D: usize>(
    entries: &ArrayVec<Entry<D>, 101>,
    fanout: Fanout,
) -> (ArrayVec<Entry<D>, 101>, ArrayVec<Entry<D>, 101>)
    requires dims { IsDims D }
    requires count { array_vec_len entries.now ≡ fanout.most + 1 }
    ensures divided { IsDividedBySplit D fanout.most entries.now.items result.0.items result.1.items }
    ensures all { IsPermutation entries.now.items (result.0.items ++ result.1.items) }
    ensures whole { array_vec_len result.0 + array_vec_len result.1 ≡ fanout.most + 1 }
    ensures full { (least_entries fanout.most ≤ array_vec_len result.0)
        × (least_entries fanout.most ≤ array_vec_len result.1) }
{
    let all = entries.as_slice();
    let m = fanout.least_entries();
    let mut room = [0; 101];
    let places = &mut room[..all.len()];
    let mut upper_room = [0; 101];
    let upper = &mut upper_room[..all.len()];
    let _ = best_axis(all, m, places, upper);
    let cut = least_cut(all, m, places, upper);
    let (front, back) = places.split_at(cut.size);
    (picked(all, front), picked(all, back))
}
