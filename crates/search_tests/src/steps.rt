//! Calls on trees in pages as data: steps with the answers that they are to have, and what plays them.

use crate::found::{Asked, Outlined, Told, added, finds, joined, written};
use crate::pages::{Page, Row, bytes_of};
use node_page::Root;
use page_file::Fault;
use refusing::Refusing;
use std::alloc::Global;
use test_caches::Cache;

/// A question about nodes and trees, or a change of a page, which opens the gate first. A question is told
/// what it is to find. It answers how many pages were looked at if that is found, and else `OTHER`; a change
/// answers `DONE` where a question would answer that.
#[derive(Clone, Copy)]
pub enum Step {
    /// Puts a page.
    Put(u32, Page),
    /// Writes a leaf of these objects into a page.
    Write(u32, &'static [Row]),
    /// Adds this object to a leaf of fewer than three, and finds the least box round all of its objects then.
    Add(u32, Row, Option<[i32; 4]>),
    /// Reads the node of a page on a level, and finds these entries.
    Node(u32, u8, &'static [Row]),
    /// Reads the node of a page on level 0 as one of three axes.
    NodeInSpace(u32),
    /// Views the node of a page on a level, and finds that level and so many entries.
    View(u32, u8, usize),
    /// Finds that a page begins with this byte.
    Begins(u32, u8),
    /// Checks the tree at a root, of at most four entries to a node, and finds these pages and these objects.
    Check(Root, &'static [u32], &'static [Row]),
    /// Finds that the leaves of the tree at a root have these objects.
    Leaves(Root, &'static [&'static [u64]]),
    /// Finds these nodes of the tree at a root.
    Outline(Root, &'static [Outlined]),
    /// Finds these objects, with a tag those that have it.
    Ask(Root, Asked, Option<u32>, &'static [Row]),
    /// Finds these objects nearest to a point, so many at most, and their squared distances.
    Nearest(Root, [i32; 2], usize, &'static [(u64, u128)]),
    /// Joins two trees within a squared distance, and looks at that many pages at least and at most. Answers
    /// how many pairs there are, of which the first ones are these.
    Join([Root; 2], u64, [u64; 2], &'static [(u64, u64)]),
    /// Answers how many pages were looked at since the cache was made.
    Looks,
}

/// What a step answers.
pub type Answer = Result<u64, Fault>;

/// The answer of a change.
pub const DONE: Answer = Ok(0);

// The answer where something else is found.
const OTHER: Answer = Ok(u64::MAX);

/// Steps, each with the answer that it is to have.
pub type Steps = &'static [(Step, Answer)];

/// Takes the steps, up to the first one that has another answer: its place among them, and its answer.
pub fn play(cache: &mut Cache, alloc: &Refusing<Global>, steps: Steps) -> Option<(usize, Answer)> {
    for (place, &(step, want)) in steps.iter().enumerate() {
        let answer = take(cache, alloc, step);
        if answer != want {
            return Some((place, answer));
        }
    }
    None
}

/// Takes a step.
pub fn take(cache: &mut Cache, alloc: &Refusing<Global>, step: Step) -> Answer {
    let before = cache.looks();
    match step {
        Step::Looks => Ok(before),
        Step::Put(page, bytes) => answer_of(put(cache, page, bytes), 0),
        Step::Write(page, rows) => answer_of(written(cache, page, rows), 0),
        Step::Add(page, row, around) => answer_of(added(cache, page, row, around), 0),
        Step::Join(roots, within, looks, pairs) => {
            match joined(cache, alloc, roots, within, pairs) {
                Ok(count) => Ok(bounded(count, cache.looks().wrapping_sub(before), looks)),
                Err(fault) => Err(fault),
            }
        }
        question => {
            let told = finds(cache, alloc, question);
            answer_of(told, cache.looks().wrapping_sub(before))
        }
    }
}

// So many looks where what is told was found.
fn answer_of(told: Told, looks: u64) -> Answer {
    match told {
        Ok(true) => Ok(looks),
        Ok(false) => OTHER,
        Err(fault) => Err(fault),
    }
}

// The count, if the looks are so many at least and at most.
fn bounded(count: u64, looks: u64, [least, most]: [u64; 2]) -> u64 {
    if least <= looks && looks <= most {
        count
    } else {
        u64::MAX
    }
}

// Opens the gate, and puts a page.
fn put(cache: &mut Cache, page: u32, bytes: Page) -> Told {
    cache.begin_change()?;
    match cache.put(page, &bytes_of(bytes)) {
        Ok(()) => Ok(true),
        Err(fault) => Err(fault),
    }
}
