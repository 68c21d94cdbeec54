//! Entries of nodes at positions, for the rules that choose among them.

ghost use Rattle.std.specs.Prelude.{◌≡◌, ℕ, ◌<◌, ◌≤◌, length, slice_index};
ghost use Rattle.box_math.specs.Bounds.{IsBox};
ghost use Rattle.tree_node.specs.Nodes.{items_of};
ghost use Rattle.tree_node.specs.Boxes.{box_at, reference_at, least_box};
ghost use Rattle.tree_node.specs.Positions.{pick};

use crate::node::Entry;
use arrayvec::ArrayVec;
use box_math::BBox;

/// Each entry has a box, which a clause knows once the entry was looked at.
pub fn see_boxes<const D: usize>(entries: &[Entry<D>])
    ensures { (i : ℕ) → i < length entries.now → IsBox D (box_at (items_of entries.now) i) }
{
    for i in 0..entries.len() {
        let _ = entries[i].bounds.low();
    }
}

/// The box of an entry.
pub fn box_of<const D: usize>(entries: &[Entry<D>], i: usize) -> BBox<D>
    requires { i < length entries.now }
    ensures value { result ≡ box_at (items_of entries.now) i }
    ensures is_box { IsBox D result }
{
    let bounds = entries[i].bounds;
    let _ = bounds.low();
    bounds
}

/// The reference of an entry.
pub fn reference_of<const D: usize>(entries: &[Entry<D>], i: usize) -> u64
    requires { i < length entries.now }
    ensures { result ≡ reference_at (items_of entries.now) i }
{
    entries[i].reference
}

/// The least box round the entries, of which there is one.
pub fn least<const D: usize>(entries: &[Entry<D>]) -> BBox<D>
    requires { 0 < length entries.now }
    ensures { result ≡ least_box D (items_of entries.now) }
{
    let mut all = entries[0].bounds;
    for i in 1..entries.len() {
        all = all.join(&entries[i].bounds);
    }
    all
}

/// The entries at some positions, in the order of these.
pub fn picked<const D: usize>(entries: &[Entry<D>], places: &[usize]) -> ArrayVec<Entry<D>, 101>
    requires few { length places.now ≤ 101 }
    requires below { (k : ℕ) → k < length places.now → slice_index places.now k < length entries.now }
    ensures value { result.items ≡ pick entries.now places.now }
    ensures count { length result.items ≡ length places.now }
{
    let mut group = ArrayVec::new();
    for i in 0..places.len() {
        group.push(entries[places[i]]);
    }
    group
}
