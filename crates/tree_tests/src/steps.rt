//! Calls on a tree as data: steps with the answers that they are to have, and what plays them. All trees
//! have four entries to a node.

use crate::boxes::{object, point};
use crate::calls::{FOUR, checked, take_out};
use crate::scenes::Points;
use block_device::BlockDevice;
use box_math::BBox;
use condense::{Kept, free_tree, remove};
use nearest::nearest;
use node_page::{Entry, Root, leaf_lists, read_node};
use page_cache::PageCache;
use page_file::Fault;
use range_query::window;
use reinsert::insert_at;
use std::alloc::Allocator;

/// A call on a tree, or a question. Each that changes the tree opens the gate first, and answers the level of
/// the new root. Those that are told what they are to find answer `OTHER` where they find something else.
#[derive(Clone, Copy)]
pub enum Step {
    /// Inserts the point of this reference and place.
    Insert(u64, i32, i32),
    /// Removes the point of this reference, this place on the first axis, and this tag.
    Remove(u64, i32, u32),
    /// Removes these points one after the other, with the same room for what is kept and what waits.
    RemoveAll(Points),
    /// Frees the pages of the tree.
    FreeTree,
    /// Answers 1 if the tree stands at this root, and else 0.
    StandsAt(Root),
    /// Answers the level of the root.
    Level,
    /// Answers how many leaves there are, of which the first ones have these objects.
    Leaves(&'static [&'static [u64]]),
    /// Answers how many entries the root has, of which the one at this place has this box.
    Child(usize, [i32; 4]),
    /// Answers how many pages are free, of which the first ones are these.
    FreePages(&'static [u32]),
    /// Answers 1 if a page was touched by the last change, and else 0.
    IsTouched,
    /// Answers how many pages are looked at for the objects that meet a window, which are these.
    Window([i32; 4], &'static [u64]),
    /// Answers how many pages are looked at for the objects nearest to a point, so many, which are these.
    Nearest([i32; 2], usize, &'static [(u64, u128)]),
}

/// What a step answers.
pub type Answer = Result<u64, Fault>;

/// The answer of a question that finds something else.
const OTHER: Answer = Ok(u64::MAX);

/// Steps, each with the answer that it is to have.
pub type Steps = &'static [(Step, Answer)];

/// Takes the steps on the tree at a root, up to the first one that has another answer: its place among them,
/// and its answer.
pub fn play<B: BlockDevice, A: Allocator + Copy>(
    cache: &mut PageCache<B, A>,
    alloc: A,
    root: Root,
    steps: Steps,
) -> Option<(usize, Answer)> {
    let mut now = root;
    for (place, &(step, want)) in steps.iter().enumerate() {
        let answer = take(cache, alloc, &mut now, step);
        if answer != want {
            return Some((place, answer));
        }
    }
    None
}

/// Takes a step on the tree at a root, which may be another one then.
pub fn take<B: BlockDevice, A: Allocator + Copy>(
    cache: &mut PageCache<B, A>,
    alloc: A,
    root: &mut Root,
    step: Step,
) -> Answer {
    match step {
        Step::StandsAt(place) => Ok(u64::from(*root == place)),
        Step::Level => Ok(u64::from(root.level)),
        Step::Leaves(lists) => leaves(cache, alloc, *root, lists),
        Step::Child(place, bounds) => child(cache, *root, place, bounds),
        Step::FreePages(pages) => free_pages(cache, alloc, pages),
        Step::IsTouched => Ok(u64::from(cache.is_touched())),
        Step::Window(asked, ids) => meeting(cache, alloc, *root, asked, ids),
        Step::Nearest(at, count, rows) => near(cache, alloc, *root, (at, count), rows),
        change => match changed(cache, alloc, *root, change) {
            Ok(now) => {
                *root = now;
                Ok(u64::from(now.level))
            }
            Err(fault) => Err(fault),
        },
    }
}

// Opens the gate, and makes a change. Answers the new root.
fn changed<B: BlockDevice, A: Allocator + Copy>(
    cache: &mut PageCache<B, A>,
    alloc: A,
    root: Root,
    change: Step,
) -> Result<Root, Fault> {
    let root = checked(root)?;
    cache.begin_change()?;
    match change {
        Step::Insert(id, x, y) => insert_at(alloc, cache, root, &point(id, x, y), 0, FOUR),
        Step::Remove(id, x, tag) => remove(alloc, cache, root, &tagged(id, x, tag), FOUR),
        Step::RemoveAll(points) => remove_all(cache, alloc, root, points),
        _ => freed(cache, root),
    }
}

// A point on the first axis.
fn tagged(reference: u64, x: i32, tag: u32) -> Entry<2> {
    Entry {
        tag,
        ..point(reference, x, 0)
    }
}

// Removes points one after the other, with the same room.
fn remove_all<B: BlockDevice, A: Allocator + Copy>(
    cache: &mut PageCache<B, A>,
    alloc: A,
    root: Root,
    points: Points,
) -> Result<Root, Fault> {
    let mut kept = Kept::make(alloc)?;
    let mut now = root;
    for &(id, x, y) in points {
        now = take_out(cache, now, &point(id, x, y), FOUR, &mut kept)?;
    }
    Ok(now)
}

// Frees the pages of a tree. Answers its root.
fn freed<B: BlockDevice, A: Allocator + Copy>(
    cache: &mut PageCache<B, A>,
    root: Root,
) -> Result<Root, Fault> {
    cache.begin_change()?;
    match free_tree::<2, _, _>(cache, root) {
        Ok(()) => Ok(root),
        Err(fault) => Err(fault),
    }
}

// How many leaves there are, if the first ones have these objects.
fn leaves<B: BlockDevice, A: Allocator + Copy>(
    cache: &mut PageCache<B, A>,
    alloc: A,
    root: Root,
    want: &[&[u64]],
) -> Answer {
    match leaf_lists::<2, _, _, _>(alloc, cache, root) {
        Ok(lists) => Ok(count_of(lists.as_slice(), want)),
        Err(fault) => Err(fault),
    }
}

// How many lists there are, if the first ones are these.
fn count_of<A: Allocator>(lists: &[Vec<u64, A>], want: &[&[u64]]) -> u64 {
    if lists.len() < want.len() {
        return u64::MAX;
    }
    for (list, ids) in lists.iter().zip(want) {
        if *list.as_slice() != **ids {
            return u64::MAX;
        }
    }
    lists.len() as u64
}

// How many entries the root has, if the one at this place has this box.
fn child<B: BlockDevice, A: Allocator + Copy>(
    cache: &mut PageCache<B, A>,
    root: Root,
    place: usize,
    want: [i32; 4],
) -> Answer {
    match read_node::<2, _, _>(cache, root.page, root.level) {
        Ok(node) => Ok(entries_with(node.entries.as_slice(), place, want)),
        Err(fault) => Err(fault),
    }
}

// How many entries there are, if the one at this place has this box.
fn entries_with(entries: &[Entry<2>], place: usize, want: [i32; 4]) -> u64 {
    match entries.get(place) {
        Some(entry) if entry.bounds == object(0, want).bounds => entries.len() as u64,
        _ => u64::MAX,
    }
}

// How many pages are free, if the first ones are these.
fn free_pages<B: BlockDevice, A: Allocator + Copy>(
    cache: &mut PageCache<B, A>,
    alloc: A,
    want: &[u32],
) -> Answer {
    match cache.free_pages(alloc) {
        Ok(found) if found.as_slice().starts_with(want) => Ok(found.len() as u64),
        Ok(_) => OTHER,
        Err(fault) => Err(fault),
    }
}

// How many pages are looked at for what meets a window, if that is these objects.
fn meeting<B: BlockDevice, A: Allocator + Copy>(
    cache: &mut PageCache<B, A>,
    alloc: A,
    root: Root,
    asked: [i32; 4],
    want: &[u64],
) -> Answer {
    let before = cache.looks();
    let rows = window::<2, _, _, _>(alloc, cache, root, &object(0, asked).bounds, None)?;
    if have_ids(rows.as_slice(), want) {
        Ok(cache.looks().wrapping_sub(before))
    } else {
        OTHER
    }
}

// Whether the rows have these identifiers.
fn have_ids(rows: &[(u64, (BBox<2>, u32))], want: &[u64]) -> bool {
    for (row, id) in rows.iter().zip(want) {
        if row.0 != *id {
            return false;
        }
    }
    rows.len() == want.len()
}

// How many pages are looked at for the nearest, if they are these.
fn near<B: BlockDevice, A: Allocator + Copy>(
    cache: &mut PageCache<B, A>,
    alloc: A,
    root: Root,
    (at, count): ([i32; 2], usize),
    want: &[(u64, u128)],
) -> Answer {
    let before = cache.looks();
    let rows = nearest::<2, _, _, _>(alloc, cache, root, &at, count.max(1))?;
    if *rows.as_slice() == *want {
        Ok(cache.looks().wrapping_sub(before))
    } else {
        OTHER
    }
}
