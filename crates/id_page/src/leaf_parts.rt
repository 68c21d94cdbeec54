//! Leaf pages joined and cut.

ghost use Rattle.std.specs.Prelude.{◌≡◌, ℕ, ◌+◌, ◌-◌, ◌<◌, ◌≤◌, Some, List, ◌∷◌, ◌++◌, []};
ghost use Rattle.std.specs.Prelude.{length, slice_index_or, take, drop};
ghost use Rattle.block_bytes.specs.Numbers.{number_at};
ghost use Rattle.bucket_page.specs.Layout.{Entry};
ghost use Rattle.id_page.specs.Leaf.{IsTidyLeaf, leaf_at, most_objects};

use crate::head::count_at;
use crate::leaf::{pop_object, push_object};
use crate::objects::object_at;

/// Adds the objects of another leaf page from a place on, in their order, to a leaf page that has room for
/// them.
pub fn append_objects<const D: usize>(page: &mut [u8; 4096], other: &[u8; 4096], from: usize)
    requires from { from ≤ number_at 2 2 other.now }
    requires few { number_at 2 2 other.now ≤ most_objects D }
    requires room { number_at 2 2 page.old + (number_at 2 2 other.now - from) ≤ most_objects D }
    ensures appended { (objects more : List Entry) → leaf_at D page.old ≡ Some objects
        → leaf_at D other.now ≡ Some more → leaf_at D page.new ≡ Some (objects ++ drop from more) }
    ensures tidy { IsTidyLeaf D page.old → IsTidyLeaf D page.new }
{
    for place in from..count_at(other) {
        push_from::<D>(page, other, place);
    }
}

// Adds the object in the place of another leaf page.
fn push_from<const D: usize>(page: &mut [u8; 4096], other: &[u8; 4096], place: usize)
    requires within { place < number_at 2 2 other.now }
    requires few { number_at 2 2 other.now ≤ most_objects D }
    requires room { number_at 2 2 page.old < most_objects D }
    ensures count { number_at 2 2 page.new ≤ number_at 2 2 page.old + 1 }
    ensures pushed { (objects more : List Entry) (none : Entry) → leaf_at D page.old ≡ Some objects
        → leaf_at D other.now ≡ Some more
        → leaf_at D page.new ≡ Some (objects ++ slice_index_or more place none ∷ []) }
    ensures tidy { IsTidyLeaf D page.old → IsTidyLeaf D page.new }
{
    match object_at::<D>(other, place) {
        Some(object) => push_object(page, &object),
        None => {}
    }
}

/// Keeps the first objects of a leaf page, and takes all others. Their bytes are zeros then.
pub fn keep_objects<const D: usize>(page: &mut [u8; 4096], many: usize)
    requires few { number_at 2 2 page.old ≤ most_objects D }
    ensures kept { (objects : List Entry) → leaf_at D page.old ≡ Some objects
        → leaf_at D page.new ≡ Some (take many objects) }
    ensures tidy { IsTidyLeaf D page.old → IsTidyLeaf D page.new }
{
    let count = count_at(page);
    for place in many..count {
        pop_object::<D>(page);
    }
}
