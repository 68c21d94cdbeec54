//! The levels of a tree, counted.

ghost use Rattle.std.specs.Prelude.{◌≡◌, ◌+◌, ◌≤◌, IfOk};
ghost use Rattle.box_math.specs.Bounds.{IsDims};
ghost use Rattle.tree_statistics.specs.Levels.{entries_at, height_of, level_of, levels_down, nodes_at};
ghost use Rattle.tree_statistics.specs.Levels.{overlap_after, overlap_at, overlap_if, overlap_with_later};
ghost use Rattle.tree_statistics.specs.Levels.{per_mille_of, up_to};

use box_math::BBox;
use serde::Serialize;
use std::alloc::{AllocError, Allocator};
use tree_outline::NodeOutline;

/// What the nodes of one level have.
#[derive(Clone, Copy, PartialEq, Eq, Debug, Drop, Serialize)]
pub struct LevelStatistics {
    /// The level, 0 for the leaves.
    pub level: u8,
    /// How many nodes it has.
    pub nodes: u64,
    /// How many entries these have together.
    pub entries: u64,
    /// Of a thousand entries that they have room for, how many there are.
    pub fill_per_mille: u64,
    /// The sum of the overlaps of the boxes of two children of one node, over all such pairs on the level, in
    /// units of area or volume, at most `u128::MAX`.
    pub overlap: u128,
}

/// The levels of a tree from the root down, by the outline of the tree, whose nodes have room for so many
/// entries.
pub fn levels_of<const D: usize, A: Allocator>(
    alloc: A,
    rows: &[NodeOutline<D>],
    fanout: u8,
) -> Result<Vec<LevelStatistics, A>, AllocError>
    requires { IsDims D }
    ensures { IfOk result (λ levels. levels.items ≡ levels_down rows.now fanout (height_of rows.now)) }
{
    let mut levels = Vec::new(alloc);
    let mut level = height_in(rows);
    while level > 0 {
        level -= 1;
        levels.push(level_at(rows, level as u8, fanout))?;
    }
    Ok(levels)
}

// How many levels a tree has.
fn height_in<const D: usize>(rows: &[NodeOutline<D>]) -> usize
    ensures height { result ≡ height_of rows.now }
    ensures few { result ≤ 256 }
{
    match rows.first() {
        Some(root) => levels_up_to(root.level),
        None => 0,
    }
}

// How many levels there are up to this one.
fn levels_up_to(level: u8) -> usize
    ensures count { result ≡ level + 1 }
    ensures few { result ≤ 256 }
{
    usize::from(level) + 1
}

// What the nodes of a level have.
fn level_at<const D: usize>(rows: &[NodeOutline<D>], level: u8, fanout: u8) -> LevelStatistics
    requires { IsDims D }
    ensures { result ≡ level_of rows.now fanout level }
{
    let nodes = nodes_on(rows, level);
    let entries = entries_on(rows, level);
    LevelStatistics {
        level,
        nodes,
        entries,
        fill_per_mille: per_mille(entries, nodes, fanout),
        overlap: overlap_on(rows, level),
    }
}

// How many nodes a level has.
fn nodes_on<const D: usize>(rows: &[NodeOutline<D>], level: u8) -> u64
    ensures { result ≡ up_to 64 (nodes_at level rows.now) }
{
    let mut nodes = 0u64;
    for row in rows {
        if row.level == level {
            nodes = nodes.saturating_add(1);
        }
    }
    nodes
}

// How many entries the nodes of a level have.
fn entries_on<const D: usize>(rows: &[NodeOutline<D>], level: u8) -> u64
    ensures { result ≡ up_to 64 (entries_at level rows.now) }
{
    let mut entries = 0u64;
    for row in rows {
        if row.level == level {
            entries = entries.saturating_add(row.count as u64);
        }
    }
    entries
}

// Of a thousand entries that so many nodes have room for, how many there are.
fn per_mille(entries: u64, nodes: u64, fanout: u8) -> u64
    ensures { result ≡ per_mille_of entries nodes fanout }
{
    let room = u128::from(nodes) * u128::from(fanout);
    if room == 0 {
        return 0;
    }
    (u128::from(entries) * 1000 / room).min(u128::from(u64::MAX)) as u64
}

// The sum of the overlaps of siblings on a level.
fn overlap_on<const D: usize>(rows: &[NodeOutline<D>], level: u8) -> u128
    requires { IsDims D }
    ensures { result ≡ up_to 128 (overlap_at level rows.now) }
{
    let mut sum = 0u128;
    for place in 0..rows.len() {
        sum = sum.saturating_add(overlap_from(&rows[place..], level));
    }
    sum
}

// The sum of the overlaps of the first node, where it is of the level, with its later siblings.
fn overlap_from<const D: usize>(rows: &[NodeOutline<D>], level: u8) -> u128
    requires { IsDims D }
    ensures { result ≡ up_to 128 (overlap_with_later level rows.now) }
{
    match rows.split_first() {
        Some((row, later)) if row.level == level => match row.bounds {
            Some(bounds) => overlap_later(later, level, &bounds),
            None => 0,
        },
        _ => 0,
    }
}

// The sum of the overlaps of a box with those of the later siblings of its node, which are the nodes of its
// level up to the next one above it.
fn overlap_later<const D: usize>(rows: &[NodeOutline<D>], level: u8, bounds: &BBox<D>) -> u128
    requires { IsDims D }
    ensures { result ≡ up_to 128 (overlap_after level bounds.now rows.now) }
{
    let mut sum = 0u128;
    for row in rows {
        if row.level > level {
            return sum;
        }
        sum = sum.saturating_add(overlap_here(row, level, bounds));
    }
    sum
}

// The overlap of a box with that of a node, where it is of the level.
fn overlap_here<const D: usize>(row: &NodeOutline<D>, level: u8, bounds: &BBox<D>) -> u128
    requires { IsDims D }
    ensures { result ≡ overlap_if level bounds.now row.now }
{
    if row.level != level {
        return 0;
    }
    match row.bounds {
        Some(other) => bounds.overlap(&other),
        None => 0,
    }
}
