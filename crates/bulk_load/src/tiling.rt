//! Entries put into the order of the nodes of a packed tree.

ghost use Rattle.std.specs.Prelude.{◌≡◌, ◌↔◌, ℕ, ◌-◌, ◌^◌, ◌<◌, ◌≤◌, IfErr, IfOk, IsPermutation, IsTrue};
ghost use Rattle.std.specs.Prelude.{OnErr, OnOk, ◌+◌, ◌*◌, ◌++◌, length, slice_index, vec_capacity, vec_len};
ghost use Rattle.box_math.specs.Bounds.{IsDims};
ghost use Rattle.page_file.specs.declared.fault.Fault.TheVariants as fault;
ghost use Rattle.tree_node.specs.Nodes.{item_of};
ghost use Rattle.bulk_load.specs.Tiling.{AddsRuns, IsLeastRoot, IsTiledInto, ending, even_sizes, size_of_one};

use crate::sorting::{Room, sort_into};
use node_page::Entry;
use page_file::Fault;
use std::alloc::Allocator;
use tree_node::Fanout;

/// Puts the entries into the order in which the nodes of a packed tree take them, each at most `fanout`, and
/// answers how many each node takes: one number for a list of one node, none for no entries. Entries of one
/// centre and one reference go by position, so there is one such order (docs/RULES.md, "Packed load").
///
/// All memory is taken at the start: a refusal is `Memory`, and leaves the entries as they were.
pub fn tile<const D: usize, A: Allocator + Copy>(
    alloc: A,
    entries: &mut [Entry<D>],
    fanout: Fanout,
) -> Result<Vec<usize, A>, Fault>
    requires { IsDims D }
    ensures tiled { IfOk result (λ sizes. IsTiledInto item_of D fanout.most entries.old entries.new
        sizes.items) }
    ensures all { IsPermutation entries.old entries.new }
    ensures memory { IfErr result (λ f. f ≡ fault.Memory) }
    ensures refused { OnErr result (entries.new ≡ entries.old) }
{
    let count = entries.len();
    if count <= fanout.entries() {
        let mut sizes = Vec::new(alloc);
        add_one(count, &mut sizes)?;
        return Ok(sizes);
    }
    // each node takes two entries or more
    let mut sizes = Vec::with_capacity(alloc, count.div_ceil(2))?;
    let mut room = Room::with_capacity(alloc, count)?;
    let mut other = Vec::from_slice(alloc, entries)?;
    let fanout = fanout.entries();
    tile_on(
        entries,
        other.as_mut_slice(),
        0,
        fanout,
        &mut room,
        &mut sizes,
    );
    Ok(sizes)
}

// Does so on an axis and those after it, with another list of as many entries, and appends the sizes. A sort
// goes from one list to the other, and the next one back: where the entries end depends on the axis.
fn tile_on<const D: usize, A: Allocator>(
    entries: &mut [Entry<D>],
    other: &mut [Entry<D>],
    axis: usize,
    fanout: usize,
    room: &mut Room<A>,
    sizes: &mut Vec<usize, A>,
)
    requires dims { IsDims D }
    requires within { axis ≤ D }
    requires four { 4 ≤ fanout }
    requires two { 2 ≤ length entries.old }
    requires whole { length other.old ≡ length entries.old }
    requires room { length entries.old ≤ vec_capacity room.old.hints }
    requires sizes_room { 2 * vec_len sizes.old + length entries.old ≤ 2 * vec_capacity sizes.old }
    ensures tiled { AddsRuns item_of D fanout (D - axis) entries.old
        (ending axis entries.new other.new) sizes.old.items sizes.new.items }
    ensures few { 2 * vec_len sizes.new ≤ 2 * vec_len sizes.old + length entries.old }
    ensures kept { vec_capacity room.new.hints ≡ vec_capacity room.old.hints }
    ensures sizes_kept { vec_capacity sizes.new ≡ vec_capacity sizes.old }
{
    let count = entries.len();
    if is_one_run(count, axis, D, fanout) {
        move_to_end(entries, axis, other);
        sizes.push_reserved(count);
        return;
    }
    sort_into(entries, axis, room, other);
    let slabs = least_root((D - axis) as u32, count.div_ceil(fanout));
    let mut from = 0;
    'slabs: for slab in 0..slabs {
        let size = even_size(count, slabs, slab);
        tile_on(
            &mut other[from..from + size],
            &mut entries[from..from + size],
            axis + 1,
            fanout,
            room,
            sizes,
        );
        from += size;
    }
}

// Whether so many entries are not cut further on an axis of so many.
fn is_one_run(count: usize, axis: usize, axes: usize, fanout: usize) -> bool
    requires { axis ≤ axes }
    ensures { IsTrue result ↔ (axis < axes → count ≤ fanout) }
{
    axis == axes || count <= fanout
}

// Copies the entries into the other list, where those of the axis end there.
fn move_to_end<const D: usize>(entries: &[Entry<D>], axis: usize, other: &mut [Entry<D>])
    requires { length other.old ≡ length entries.now }
    ensures { ending axis entries.now other.new ≡ entries.now }
{
    if axis % 2 == 1 {
        other.copy_from_slice(entries);
    }
}

// Appends the size of a list of one node, if it has one.
fn add_one<A: Allocator>(count: usize, sizes: &mut Vec<usize, A>) -> Result<(), Fault>
    ensures added { OnOk result (sizes.new.items ≡ sizes.old.items ++ size_of_one count) }
    ensures memory { IfErr result (λ f. f ≡ fault.Memory) }
{
    if count > 0 {
        sizes.push(count)?;
    }
    Ok(())
}

// How many of so many elements the run in the place has, of so many even runs.
fn even_size(count: usize, runs: usize, place: usize) -> usize
    requires { place < runs }
    ensures { result ≡ slice_index (even_sizes count runs) place }
{
    let short = count / runs;
    if place < count % runs {
        short + 1
    } else {
        short
    }
}

// The least number of slabs on each of the axes with which they make that many cells.
fn least_root(axes: u32, cells: usize) -> usize
    requires axes { 0 < axes }
    requires some { 0 < cells }
    ensures { IsLeastRoot axes cells result }
{
    let mut slabs = 1;
    'search: while makes_fewer(slabs, axes, cells) {
        slabs += 1;
    }
    slabs
}

// Whether so many slabs on each of the axes make fewer cells.
fn makes_fewer(slabs: usize, axes: u32, cells: usize) -> bool
    ensures { IsTrue result ↔ slabs ^ axes < cells }
{
    match slabs.checked_pow(axes) {
        Some(made) => made < cells,
        None => false,
    }
}
