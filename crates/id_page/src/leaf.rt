//! A leaf page looked through and changed where it lies.

ghost use Rattle.std.specs.Prelude.{◌≡◌, ℕ, ◌+◌, ◌-◌, ◌<◌, ◌≤◌, ◌≢◌, ◌↔◌, Some, None, List, [], ◌∷◌, ◌++◌};
ghost use Rattle.std.specs.Prelude.{All, length};
ghost use Rattle.std.specs.Prelude.{slice_index_or, slice_set, swap_remove, take, IfSome, IsSome, IsTrue};
ghost use Rattle.block_bytes.specs.Numbers.{number_at};
ghost use Rattle.box_math.specs.Bounds.{IsDims};
ghost use Rattle.box_bytes.specs.Corners.{Keeps};
ghost use Rattle.bucket_page.specs.Layout.{Entry, IsClearOfEntry, entry_place};
ghost use Rattle.id_page.specs.Leaf.{IsTidyLeaf, leaf_at, leaf_object, most_objects, object_size};

use crate::head::{LEAF_KIND, clear_bytes, count_at};
use crate::objects::{has_leaf_head, id_at, object_at, object_place, write_object};
use block_bytes::{write_head, write_u16};
use box_math::BBox;

/// Whether the page is a leaf of that dimension, which is 2 or 3: its kind is 9, its count at most the most
/// that fit, and no object has a low above its high.
pub fn is_leaf<const D: usize>(page: &[u8; 4096]) -> bool
    ensures { IsTrue result ↔ IsSome (leaf_at D page.now) }
{
    if !has_leaf_head::<D>(page) {
        return false;
    }
    for place in 0..count_at(page) {
        if object_at::<D>(page, place).is_none() {
            return false;
        }
    }
    true
}

/// The place of an object with an identifier, if there is one.
pub fn place_of_id<const D: usize>(page: &[u8; 4096], id: u64) -> Option<usize>
    requires few { number_at 2 2 page.now ≤ most_objects D }
    ensures within { IfSome result (λ place. place < number_at 2 2 page.now) }
    ensures found { (objects : List Entry) (other : Entry) → leaf_at D page.now ≡ Some objects
        → IfSome result (λ place. (slice_index_or objects place other).0 ≡ id) }
    ensures absent { (objects : List Entry) → leaf_at D page.now ≡ Some objects → result ≡ None
        → All (λ object. object.0 ≢ id) objects }
    ensures none { result ≡ None → (k : ℕ) → k < number_at 2 2 page.now → (leaf_object D page.now k).0 ≢ id }
{
    for place in 0..count_at(page) {
        if id_at::<D>(page, place) == id {
            return Some(place);
        }
    }
    None
}

/// Makes the page a leaf of that dimension without objects, with zeros in all bytes that it does not name.
pub fn start_leaf(page: &mut [u8; 4096], dims: u8)
    ensures empty { IsDims dims → leaf_at dims page.new ≡ Some [] }
    ensures count { number_at 2 2 page.new ≡ 0 }
    ensures tidy { (of : ℕ) → IsTidyLeaf of page.new }
{
    write_head(page, LEAF_KIND, dims, 0);
}

/// Adds an object to a leaf page that has room: it is written in the place after the last one, and counted.
pub fn push_object<const D: usize>(page: &mut [u8; 4096], object: &(u64, (BBox<D>, u32)))
    requires room { number_at 2 2 page.old < most_objects D }
    ensures count { number_at 2 2 page.new ≡ number_at 2 2 page.old + 1 }
    ensures pushed { (objects : List Entry) → leaf_at D page.old ≡ Some objects
        → leaf_at D page.new ≡ Some (objects ++ object.now ∷ []) }
    ensures tidy { IsTidyLeaf D page.old → IsTidyLeaf D page.new }
{
    let count = count_at(page);
    write_object(page, count, object);
    write_u16(page, 2, count as u16 + 1);
}

/// Writes another object into the place of one of a leaf page. Other bytes stay.
pub fn set_object<const D: usize>(
    page: &mut [u8; 4096],
    place: usize,
    object: &(u64, (BBox<D>, u32)),
)
    requires within { place < most_objects D }
    ensures count { number_at 2 2 page.new ≡ number_at 2 2 page.old }
    ensures replaced { (objects : List Entry) → leaf_at D page.old ≡ Some objects → place < length objects
        → leaf_at D page.new ≡ Some (slice_set objects place object.now) }
    ensures others { Keeps (IsClearOfEntry (object_size D) place) page.old page.new }
    ensures tidy { place < number_at 2 2 page.old → IsTidyLeaf D page.old → IsTidyLeaf D page.new }
{
    write_object(page, place, object);
}

/// Takes the last object from a leaf page that has one: it is no longer counted, and its bytes are zeros.
pub fn pop_object<const D: usize>(page: &mut [u8; 4096])
    requires some { 0 < number_at 2 2 page.old }
    requires few { number_at 2 2 page.old ≤ most_objects D }
    ensures count { number_at 2 2 page.new + 1 ≡ number_at 2 2 page.old }
    ensures popped { (objects : List Entry) → leaf_at D page.old ≡ Some objects
        → leaf_at D page.new ≡ Some (take (length objects - 1) objects) }
    ensures tidy { IsTidyLeaf D page.old → IsTidyLeaf D page.new }
{
    let last = count_at(page) - 1;
    clear_bytes(page, object_place::<D>(last), 12 + 8 * D);
    write_u16(page, 2, last as u16);
}

/// Takes the object in the place from a leaf page: the last one comes into its place, whose own bytes are
/// zeros then.
pub fn take_object<const D: usize>(page: &mut [u8; 4096], place: usize)
    requires within { place < number_at 2 2 page.old }
    requires few { number_at 2 2 page.old ≤ most_objects D }
    ensures count { number_at 2 2 page.new + 1 ≡ number_at 2 2 page.old }
    ensures taken { (objects : List Entry) (other : Entry) → leaf_at D page.old ≡ Some objects
        → leaf_at D page.new ≡ Some (swap_remove objects place other) }
    ensures tidy { IsTidyLeaf D page.old → IsTidyLeaf D page.new }
{
    let last = count_at(page) - 1;
    copy_object::<D>(page, last, place);
    pop_object::<D>(page);
}

// Writes the object in one place into another one too.
fn copy_object<const D: usize>(page: &mut [u8; 4096], from: usize, to: usize)
    requires from { from < number_at 2 2 page.old }
    requires to { to < number_at 2 2 page.old }
    requires few { number_at 2 2 page.old ≤ most_objects D }
    ensures count { number_at 2 2 page.new ≡ number_at 2 2 page.old }
    ensures copied { (objects : List Entry) (other : Entry) → leaf_at D page.old ≡ Some objects
        → leaf_at D page.new ≡ Some (slice_set objects to (slice_index_or objects from other)) }
    ensures tidy { IsTidyLeaf D page.old → IsTidyLeaf D page.new }
{
    match object_at::<D>(page, from) {
        Some(object) => set_object(page, to, &object),
        None => {}
    }
}
