//! Calls of a table of two axes as data: steps, each of which ends as it should or not, and what plays them.

use crate::changes::{self, Call, TABLE, add_together, change, change_at};
use box_math::BBox;
use id_tree::{LeafPlace, check_table, find, make};
use node_page::Entry;
use page_file::Fault;
use std::alloc::Global;
use test_caches::Cache;

/// So many objects with the same box. The identifier of each next one is two more, and its tag one more.
#[derive(Clone, Copy)]
pub struct Run {
    pub first: u64,
    pub low: [i32; 2],
    pub high: [i32; 2],
    pub tag: u32,
    pub count: u16,
}

/// A call of a table, or a look at its pages.
#[derive(Clone, Copy)]
pub enum Step {
    /// Makes the table, with its root at `TABLE`.
    Make,
    /// Adds the objects together.
    Fill(Run),
    /// Changes each object in turn.
    Each(Call, Run),
    /// Each object is there.
    Keep(Run),
    /// None of the objects is there.
    Miss(Run),
    /// Notes where the search for an identifier leads, as the first place or the second one.
    Find(usize, u64),
    /// The two places are in different leaves.
    Differ,
    /// Changes the first object in that place, with so many looks at most.
    At(usize, Call, Run, u64),
    /// A check finds so many objects and pages.
    Counts(usize, usize),
    /// There were so many looks at most since the cache was made.
    Looks(u64),
}

/// Whether a step ended as it should, or the refusal of a call.
pub type Answer = Result<bool, Fault>;

/// Takes steps, up to the first one that does not end as it should: its place, and its answer.
pub fn play(alloc: Global, cache: &mut Cache, steps: &[Step]) -> Option<(usize, Answer)> {
    let mut places = [LeafPlace { leaf: 0, place: 0 }; 2];
    for (place, &step) in steps.iter().enumerate() {
        let answer = take(alloc, cache, &mut places, step);
        if answer != Ok(true) {
            return Some((place, answer));
        }
    }
    None
}

fn take(alloc: Global, cache: &mut Cache, places: &mut [LeafPlace; 2], step: Step) -> Answer {
    match step {
        Step::Make => make_table(cache),
        Step::Fill(run) => fill_with(alloc, cache, run),
        Step::Each(call, run) => change_each(cache, call, run),
        Step::Keep(run) => look(cache, run, true),
        Step::Miss(run) => look(cache, run, false),
        Step::Find(which, id) => note(cache, places, which, id),
        Step::Differ => Ok(places[0].leaf != places[1].leaf),
        Step::At(which, call, run, looks) => change_in_place(
            cache, places, which, call, run, looks,
        ),
        Step::Counts(objects, pages) => check(alloc, cache, objects, pages),
        Step::Looks(most) => Ok(cache.looks() <= most),
    }
}

fn make_table(cache: &mut Cache) -> Answer {
    cache.begin_change()?;
    Ok(make::<2, _, _>(cache)? == TABLE)
}

// The object of that place in a run.
fn object_of(run: Run, place: u16) -> Result<(u64, (BBox<2>, u32)), Fault> {
    let bounds = BBox::try_new(run.low, run.high).ok_or(Fault::Memory)?;
    let id = run.first.wrapping_add(2 * u64::from(place));
    Ok((id, (bounds, run.tag.wrapping_add(u32::from(place)))))
}

/// The objects of a run, as entries of leaves.
pub fn entries_of(alloc: Global, run: Run) -> Result<Vec<Entry<2>>, Fault> {
    let mut entries = Vec::new(alloc);
    for place in 0..run.count {
        let (reference, (bounds, tag)) = object_of(run, place)?;
        entries.push(Entry {
            bounds,
            reference,
            tag,
        })?;
    }
    Ok(entries)
}

fn fill_with(alloc: Global, cache: &mut Cache, run: Run) -> Answer {
    let entries = entries_of(alloc, run)?;
    add_together(cache, entries.as_slice())?;
    Ok(true)
}

fn change_each(cache: &mut Cache, call: Call, run: Run) -> Answer {
    for place in 0..run.count {
        let (id, (bounds, tag)) = object_of(run, place)?;
        change(cache, call, id, &bounds, tag)?;
    }
    Ok(true)
}

// Whether each of the objects is there, or none of them.
fn look(cache: &mut Cache, run: Run, there: bool) -> Answer {
    for place in 0..run.count {
        let (id, kept) = object_of(run, place)?;
        let wanted = if there { Some(kept) } else { None };
        if find(cache, TABLE, id)?.kept != wanted {
            return Ok(false);
        }
    }
    Ok(true)
}

fn note(cache: &mut Cache, places: &mut [LeafPlace; 2], which: usize, id: u64) -> Answer {
    let (at, _) = changes::look::<2, _, _>(cache, id)?;
    match places.get_mut(which) {
        Some(place) => *place = at,
        None => return Ok(false),
    }
    Ok(true)
}

fn change_in_place(
    cache: &mut Cache,
    places: &[LeafPlace; 2],
    which: usize,
    call: Call,
    run: Run,
    looks: u64,
) -> Answer {
    let (id, (bounds, tag)) = object_of(run, 0)?;
    let at = *places.get(which).ok_or(Fault::Memory)?;
    let before = cache.looks();
    change_at(cache, call, at, id, &bounds, tag)?;
    Ok(cache.looks().saturating_sub(before) <= looks)
}

fn check(alloc: Global, cache: &mut Cache, objects: usize, pages: usize) -> Answer {
    let facts = check_table::<2, _, _, _>(alloc, cache, TABLE)?;
    Ok(facts.pairs.len() == objects && facts.pages.len() == pages)
}
