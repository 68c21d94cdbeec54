//! Parts of answers.
ghost use Rattle.std.specs.Prelude.{ℕ, ◌≡◌, ◌++◌, ◌∷◌, [], List};
ghost use Rattle.plain_table.specs.declared.boxes.AnyBox.{AnyBox};
ghost use Rattle.c_rows.specs.Parts.{IsLast, objects_after, objects_with};

use plain_table::AnyBox;
use std::alloc::Allocator;

/// Of the objects of an answer keeps those whose identifiers are greater than this.
pub fn keep_after<A: Allocator>(objects: &mut Vec<(u64, AnyBox, u32), A>, after: u64)
    ensures { objects.new.items ≡ objects_after after objects.old.items }
{
    objects.retain(|object| object.0 > after);
}

/// Keeps those that have the tag.
pub fn keep_with<A: Allocator>(objects: &mut Vec<(u64, AnyBox, u32), A>, tag: u32)
    ensures { objects.new.items ≡ objects_with tag objects.old.items }
{
    objects.retain(|object| object.2 == tag);
}

/// The greatest identifier of the objects of an answer that is at most this, if there is one.
pub fn last_of(objects: &[(u64, AnyBox, u32)], most: u64) -> Option<u64>
    ensures { IsLast most objects.now result }
{
    let mut last = None;
    for k in 0..objects.len() {
        last = last_with(last, objects[k].0, most);
    }
    last
}

// The same of a list whose greatest was this, with one more.
fn last_with(last: Option<u64>, id: u64, most: u64) -> Option<u64>
    ensures { (objects : List (ℕ × AnyBox × ℕ)) (object : ℕ × AnyBox × ℕ) → object.0 ≡ id →
        IsLast most objects last → IsLast most (objects ++ object ∷ []) result }
{
    if id > most {
        return last;
    }
    match last {
        Some(before) if before >= id => last,
        _ => Some(id),
    }
}
