//! The margins of the boxes of groups, summed over the candidates of an order.

ghost use Rattle.std.specs.Prelude.{◌≡◌, ℕ, ◌+◌, ◌*◌, ◌^◌, ◌<◌, ◌≤◌, length, slice_index};
ghost use Rattle.box_math.specs.Bounds.{IsDims};
ghost use Rattle.tree_node.specs.Nodes.{items_of};
ghost use Rattle.rstar_split.specs.Cuts.{margins_of, cuts_of};
ghost use Rattle.rstar_split.specs.Margins.{front_margins_of, back_margins_of};

use crate::boxes::{back_at, front_at};
use tree_node::{Entry, box_of};

// The sum over the first groups.
fn front_margins<const D: usize>(entries: &[Entry<D>], places: &[usize], m: usize) -> u64
    requires dims { IsDims D }
    requires few { length places.now ≤ 101 }
    requires some { 0 < m }
    requires enough { 2 * m ≤ length places.now }
    requires below { (k : ℕ) → k < length places.now → slice_index places.now k < length entries.now }
    ensures value { result
        ≡ front_margins_of D (items_of entries.now) places.now m (cuts_of (length places.now) m) }
    ensures bound { result < 2 ^ 41 }
{
    let mut all = front_at(entries, places, m);
    let mut sum = all.margin();
    for k in 0..places.len() - 2 * m {
        all = all.join(&box_of(entries, places[m + k]));
        sum += all.margin();
    }
    sum
}

// The sum over the second groups, the smallest first.
fn back_margins<const D: usize>(entries: &[Entry<D>], places: &[usize], m: usize) -> u64
    requires dims { IsDims D }
    requires few { length places.now ≤ 101 }
    requires some { 0 < m }
    requires enough { 2 * m ≤ length places.now }
    requires below { (k : ℕ) → k < length places.now → slice_index places.now k < length entries.now }
    ensures value { result
        ≡ back_margins_of D (items_of entries.now) places.now m (cuts_of (length places.now) m) }
    ensures bound { result < 2 ^ 41 }
{
    let most = places.len() - m;
    let mut all = back_at(entries, places, most);
    let mut sum = all.margin();
    for k in 0..places.len() - 2 * m {
        all = box_of(entries, places[most - 1 - k]).join(&all);
        sum += all.margin();
    }
    sum
}

/// The sum of the margins over the candidates of an order.
pub(crate) fn margins<const D: usize>(entries: &[Entry<D>], places: &[usize], m: usize) -> u64
    requires dims { IsDims D }
    requires few { length places.now ≤ 101 }
    requires some { 0 < m }
    requires enough { 2 * m ≤ length places.now }
    requires below { (k : ℕ) → k < length places.now → slice_index places.now k < length entries.now }
    ensures value { result
        ≡ margins_of D (items_of entries.now) places.now m (cuts_of (length places.now) m) }
    ensures bound { result < 2 ^ 42 }
{
    front_margins(entries, places, m) + back_margins(entries, places, m)
}
