//! What calls on nodes and trees find, compared with what they are to find.

use crate::pages::{Row, box_of};
use crate::steps::Step;
use arrayvec::ArrayVec;
use box_math::BBox;
use nearest::nearest;
use node_page::{
    Entry, Node, Root, add_entry, check_tree, leaf_lists, read_node, view_node, write_node,
};
use page_file::Fault;
use range_query::{around, inside, point, window};
use refusing::Refusing;
use spatial_join::join;
use std::alloc::{Allocator, Global};
use test_caches::Cache;
use tree_outline::{NodeOutline, outline};

/// Whether a call found what it is to find, or why it was refused.
pub type Told = Result<bool, Fault>;

/// What is asked of objects.
#[derive(Clone, Copy)]
pub enum Asked {
    Window([i32; 4]),
    Inside([i32; 4]),
    Around([i32; 4]),
    Point([i32; 2]),
}

/// A node in an outline: its page, its level, how many entries it has, and the least box round them.
pub type Outlined = (u32, u8, usize, Option<[i32; 4]>);

/// Whether a question finds what it is told.
pub fn finds(cache: &mut Cache, alloc: &Refusing<Global>, question: Step) -> Told {
    match question {
        Step::Node(page, level, rows) => is_read(cache, page, level, rows),
        Step::NodeInSpace(page) => is_read_in_space(cache, page),
        Step::View(page, level, count) => is_viewed(cache, page, level, count),
        Step::Begins(page, byte) => Ok(cache.page(page)?[0] == byte),
        Step::Check(root, pages, rows) => is_checked(cache, alloc, root, pages, rows),
        Step::Leaves(root, lists) => are_leaves(cache, alloc, root, lists),
        Step::Outline(root, nodes) => is_outlined(cache, alloc, root, nodes),
        Step::Ask(root, asked, tag, rows) => is_asked(cache, alloc, root, (asked, tag), rows),
        Step::Nearest(root, at, count, rows) => is_near(cache, alloc, root, (at, count), rows),
        _ => Ok(false),
    }
}

// The entry of a row.
fn entry_of((reference, bounds, tag): Row) -> Entry<2> {
    Entry {
        bounds: box_of(bounds),
        reference,
        tag,
    }
}

// A leaf of these objects.
fn leaf_of(rows: &[Row]) -> Node<2> {
    let mut entries = ArrayVec::new();
    for &row in rows {
        if entries.is_full() {
            break;
        }
        entries.push(entry_of(row));
    }
    Node { level: 0, entries }
}

/// Opens the gate, and writes a leaf of these objects into a page.
#[tactic(auto, using(node_page::proofs::NodeLemmas::leaf_spellable))]
pub fn written(cache: &mut Cache, page: u32, rows: &[Row]) -> Told {
    cache.begin_change()?;
    let leaf = leaf_of(rows);
    if leaf.level == 0 && leaf.entries.len() <= 100 {
        write_node(cache, page, &leaf)?;
        return Ok(true);
    }
    Ok(false)
}

/// Opens the gate, and adds this object to a leaf of fewer than three. Whether this is the least box round
/// all of its objects then.
pub fn added(cache: &mut Cache, page: u32, row: Row, around: Option<[i32; 4]>) -> Told {
    cache.begin_change()?;
    match add_entry(cache, page, 0, &entry_of(row), 3) {
        Ok(found) => Ok(found == box_or_none(around)),
        Err(fault) => Err(fault),
    }
}

fn box_or_none(bounds: Option<[i32; 4]>) -> Option<BBox<2>> {
    match bounds {
        Some(bounds) => Some(box_of(bounds)),
        None => None,
    }
}

// Whether the node of a page has these entries.
fn is_read(cache: &mut Cache, page: u32, level: u8, rows: &[Row]) -> Told {
    match read_node::<2, _, _>(cache, page, level) {
        Ok(node) => Ok(node.level == level && are_entries(node.entries.as_slice(), rows)),
        Err(fault) => Err(fault),
    }
}

fn are_entries(entries: &[Entry<2>], rows: &[Row]) -> bool {
    for (entry, row) in entries.iter().zip(rows) {
        if *entry != entry_of(*row) {
            return false;
        }
    }
    entries.len() == rows.len()
}

// Whether a page spells a node of three axes.
fn is_read_in_space(cache: &mut Cache, page: u32) -> Told {
    match read_node::<3, _, _>(cache, page, 0) {
        Ok(_) => Ok(true),
        Err(fault) => Err(fault),
    }
}

// Whether the view of a page has this level and so many entries.
fn is_viewed(cache: &mut Cache, page: u32, level: u8, count: usize) -> Told {
    match view_node::<2, _, _>(cache, page, level) {
        Ok(view) => Ok(view.level() == level && view.len() == count),
        Err(fault) => Err(fault),
    }
}

// Whether a check finds these pages and these objects.
fn is_checked(
    cache: &mut Cache,
    alloc: &Refusing<Global>,
    root: Root,
    pages: &[u32],
    rows: &[Row],
) -> Told {
    match check_tree::<2, _, _, _>(alloc, cache, root, 4) {
        Ok(facts) => {
            Ok(*facts.pages.as_slice() == *pages && are_rows(facts.pairs.as_slice(), rows))
        }
        Err(fault) => Err(fault),
    }
}

// Whether these are the objects.
fn are_rows(found: &[(u64, (BBox<2>, u32))], rows: &[Row]) -> bool {
    for (object, &(id, bounds, tag)) in found.iter().zip(rows) {
        if *object != (id, (box_of(bounds), tag)) {
            return false;
        }
    }
    found.len() == rows.len()
}

// Whether the leaves of a tree have these objects.
fn are_leaves(cache: &mut Cache, alloc: &Refusing<Global>, root: Root, want: &[&[u64]]) -> Told {
    match leaf_lists::<2, _, _, _>(alloc, cache, root) {
        Ok(lists) => Ok(are_lists(lists.as_slice(), want)),
        Err(fault) => Err(fault),
    }
}

fn are_lists<A: Allocator>(lists: &[Vec<u64, A>], want: &[&[u64]]) -> bool {
    for (list, ids) in lists.iter().zip(want) {
        if *list.as_slice() != **ids {
            return false;
        }
    }
    lists.len() == want.len()
}

// Whether an outline has these nodes.
fn is_outlined(
    cache: &mut Cache,
    alloc: &Refusing<Global>,
    root: Root,
    nodes: &[Outlined],
) -> Told {
    match outline::<2, _, _, _>(alloc, cache, root) {
        Ok(rows) => Ok(are_nodes(rows.as_slice(), nodes)),
        Err(fault) => Err(fault),
    }
}

fn are_nodes(rows: &[NodeOutline<2>], nodes: &[Outlined]) -> bool {
    for (row, &(page, level, count, around)) in rows.iter().zip(nodes) {
        let bounds = box_or_none(around);
        let node = NodeOutline {
            page,
            level,
            count,
            bounds,
        };
        if *row != node {
            return false;
        }
    }
    rows.len() == nodes.len()
}

// Whether these objects are answered.
fn is_asked(
    cache: &mut Cache,
    alloc: &Refusing<Global>,
    root: Root,
    (asked, tag): (Asked, Option<u32>),
    rows: &[Row],
) -> Told {
    match answered(cache, alloc, root, asked, tag) {
        Ok(found) => Ok(are_rows(found.as_slice(), rows)),
        Err(fault) => Err(fault),
    }
}

fn answered<'a>(
    cache: &mut Cache,
    alloc: &'a Refusing<Global>,
    root: Root,
    asked: Asked,
    tag: Option<u32>,
) -> Result<Vec<(u64, (BBox<2>, u32)), &'a Refusing<Global>>, Fault> {
    match asked {
        Asked::Window(bounds) => window::<2, _, _, _>(alloc, cache, root, &box_of(bounds), tag),
        Asked::Inside(bounds) => inside::<2, _, _, _>(alloc, cache, root, &box_of(bounds), tag),
        Asked::Around(bounds) => around::<2, _, _, _>(alloc, cache, root, &box_of(bounds), tag),
        Asked::Point(at) => point::<2, _, _, _>(alloc, cache, root, &at, tag),
    }
}

// Whether these are the nearest objects.
fn is_near(
    cache: &mut Cache,
    alloc: &Refusing<Global>,
    root: Root,
    (at, count): ([i32; 2], usize),
    rows: &[(u64, u128)],
) -> Told {
    match nearest::<2, _, _, _>(alloc, cache, root, &at, count.max(1)) {
        Ok(found) => Ok(*found.as_slice() == *rows),
        Err(fault) => Err(fault),
    }
}

/// How many pairs a join has, if the first ones are these.
pub fn joined(
    cache: &mut Cache,
    alloc: &Refusing<Global>,
    [a, b]: [Root; 2],
    within: u64,
    pairs: &[(u64, u64)],
) -> Result<u64, Fault> {
    match join::<2, _, _, _>(alloc, cache, a, b, within) {
        Ok(found) if found.as_slice().starts_with(pairs) => Ok(found.len() as u64),
        Ok(_) => Ok(u64::MAX),
        Err(fault) => Err(fault),
    }
}
