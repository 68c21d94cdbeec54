//! The least candidate of an order.

ghost use Rattle.std.specs.Prelude.{◌≡◌, ℕ, ◌+◌, ◌-◌, ◌*◌, ◌<◌, ◌≤◌, ◌↔◌, length, slice_index, List, IsTrue};
ghost use Rattle.box_math.specs.Bounds.{IsDims};
ghost use Rattle.tree_node.specs.Nodes.{Item, items_of};
ghost use Rattle.tree_node.specs.Keys.{AtMost};
ghost use Rattle.rstar_split.specs.Cuts.{front_box, back_box, rank_of, order_key, numbers_of, IsLeastCut};

use crate::boxes::{back_boxes, front_at};
use crate::sorting::Bound;
use box_math::BBox;
use tree_node::{Entry, box_of};

/// A candidate, with what decides.
#[derive(Clone, Copy)]
pub(crate) struct Cut {
    pub(crate) overlap: u128,
    pub(crate) volumes: u128,
    pub(crate) bound: Bound,
    pub(crate) size: usize,
}

// The sort by lower comes first.
fn rank(bound: Bound) -> u8
    ensures { result ≡ rank_of bound }
{
    match bound {
        Bound::Lower => 0,
        Bound::Upper => 1,
    }
}

/// Whether a candidate is at most another.
pub(crate) fn at_most(a: &Cut, b: &Cut) -> bool
    ensures { IsTrue result ↔ AtMost (numbers_of a.now) (numbers_of b.now) }
{
    (a.overlap, a.volumes, rank(a.bound), a.size) <= (b.overlap, b.volumes, rank(b.bound), b.size)
}

// The cut between two groups, of which the first has so many entries.
fn cut_between<const D: usize>(front: &BBox<D>, back: &BBox<D>, bound: Bound, size: usize) -> Cut
    requires dims { IsDims D }
    ensures bound { result.bound ≡ bound }
    ensures size { result.size ≡ size }
    ensures key { (items : List Item) (order : List ℕ) → front.now ≡ front_box D items order size
        → back.now ≡ back_box D items order size →
        numbers_of result ≡ order_key D items order bound size }
{
    Cut {
        overlap: front.overlap(back),
        volumes: front.volume() + back.volume(),
        bound,
        size,
    }
}

/// The least candidate of an order.
pub(crate) fn best_cut<const D: usize>(
    entries: &[Entry<D>],
    places: &[usize],
    m: usize,
    bound: Bound,
    backs: &mut [BBox<D>; 101],
) -> Cut
    requires dims { IsDims D }
    requires few { length places.now ≤ 101 }
    requires some { 0 < m }
    requires enough { 2 * m ≤ length places.now }
    requires below { (k : ℕ) → k < length places.now → slice_index places.now k < length entries.now }
    ensures bound { result.bound ≡ bound }
    ensures least { IsLeastCut D (items_of entries.now) places.now (length places.now) m bound
        (length places.now + 1 - m) result.size (numbers_of result) }
{
    back_boxes(entries, places, m, backs);
    let mut front = front_at(entries, places, m);
    let mut best = cut_between(&front, &backs[m], bound, m);
    for size in m + 1..places.len() + 1 - m {
        front = front.join(&box_of(entries, places[size - 1]));
        let cut = cut_between(&front, &backs[size], bound, size);
        if !at_most(&best, &cut) {
            best = cut;
        }
    }
    best
}
