//! Changes of a table. Each opens the gate first.

ghost use Rattle.box_math.specs.Bounds.{IsDims};

use block_device::BlockDevice;
use box_math::BBox;
use id_tree::{LeafPlace, add, fill, find, free_all, remove, update};
use node_page::Entry;
use page_cache::PageCache;
use page_file::Fault;
use std::alloc::Allocator;

/// The first page of the table.
pub const TABLE: u32 = 3;

/// A change of an object.
#[derive(Clone, Copy)]
pub enum Call {
    Add,
    /// It gets another box, and keeps its tag.
    Update,
    Remove,
}

/// Where an object is or would come, and what the table keeps of it.
pub fn look<const D: usize, B: BlockDevice, A: Allocator + Copy>(
    cache: &mut PageCache<B, A>,
    id: u64,
) -> Result<(LeafPlace, Option<(BBox<D>, u32)>), Fault>
    requires { IsDims D }
{
    let sought = find::<D, B, A>(cache, TABLE, id)?;
    Ok((sought.at, sought.kept))
}

/// Changes an object in the place that a search finds.
pub fn change<const D: usize, B: BlockDevice, A: Allocator + Copy>(
    cache: &mut PageCache<B, A>,
    call: Call,
    id: u64,
    bounds: &BBox<D>,
    tag: u32,
) -> Result<(), Fault>
    requires { IsDims D }
{
    let at = find::<D, B, A>(cache, TABLE, id)?.at;
    change_at(cache, call, at, id, bounds, tag)
}

/// Changes an object in a place.
pub fn change_at<const D: usize, B: BlockDevice, A: Allocator + Copy>(
    cache: &mut PageCache<B, A>,
    call: Call,
    at: LeafPlace,
    id: u64,
    bounds: &BBox<D>,
    tag: u32,
) -> Result<(), Fault>
    requires { IsDims D }
{
    cache.begin_change()?;
    match call {
        Call::Add => add(cache, TABLE, at, id, bounds, tag),
        Call::Update => update(cache, TABLE, at, id, bounds, tag),
        Call::Remove => remove::<D, B, A>(cache, TABLE, at, id),
    }
}

/// Adds the objects of entries of leaves together.
pub fn add_together<const D: usize, B: BlockDevice, A: Allocator + Copy>(
    cache: &mut PageCache<B, A>,
    entries: &[Entry<D>],
) -> Result<(), Fault>
    requires { IsDims D }
{
    cache.begin_change()?;
    fill::<D, B, A>(cache, TABLE, entries)
}

/// Gives the table up.
pub fn give_up<B: BlockDevice, A: Allocator + Copy>(
    cache: &mut PageCache<B, A>,
) -> Result<(), Fault> {
    cache.begin_change()?;
    free_all::<2, B, A>(cache, TABLE)
}
