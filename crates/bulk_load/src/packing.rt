//! Packed trees, written level by level into pages that were not live.

ghost use Rattle.std.specs.Prelude.{◌≡◌, ◌+◌, ◌*◌, ◌/◌, ◌^◌, ◌<◌, ◌≤◌, ℕ, All, IfErr, IfOk, IsPermutation};
ghost use Rattle.std.specs.Prelude.{List, []};
ghost use Rattle.std.specs.Prelude.{length, map, vec_capacity};
ghost use Rattle.box_math.specs.Bounds.{IsDims};
ghost use Rattle.page_file.specs.declared.fault.Fault.TheVariants as fault;
ghost use Rattle.page_cache.specs.Cache.{Grows, IsPageMap, pages};
ghost use Rattle.page_cache.specs.Calls.{Changes};
ghost use Rattle.tree_node.specs.Nodes.{items_of};
ghost use Rattle.tree_node.specs.Positions.{total};
ghost use Rattle.tree_node.specs.Trees.{Branch};
ghost use Rattle.node_bytes.specs.Layout.{IsOfLevel};
ghost use Rattle.node_page.specs.Faults.{IsChangeFault, IsNoDamage};
ghost use Rattle.bulk_load.specs.Levels.{AreSizes, LevelPacked, LevelWritten, PackedAt, WaitFor};
ghost use Rattle.bulk_load.specs.Loads.{Loads};
ghost use Rattle.bulk_load.specs.Tiling.{joined};

use crate::nodes::{write_new, write_parent};
use crate::tiling::tile;
use block_device::BlockDevice;
use node_page::{Entry, Root};
use page_cache::PageCache;
use page_file::Fault;
use std::alloc::Allocator;
use tree_node::{Fanout, see_boxes};

/// Makes a tree packed from these objects, in pages that were not live: its nodes have at most `fanout`
/// entries, and no objects make an empty leaf. The objects are left in some order.
///
/// It lets at most one page more become live than there are objects, also where it is refused.
///
/// On a sound map a refusal is `Memory`, `Device` or `NoPages`, and on any other map perhaps `Damaged`;
/// `NoPages` only where each page number is live. The memory for the order of the objects and for the list of
/// the leaves is taken before the first page; the lists of the levels above grow while pages are written.
pub fn load<const D: usize, B: BlockDevice, A: Allocator + Copy, H: Allocator + Copy>(
    alloc: H,
    cache: &mut PageCache<B, A>,
    objects: &mut [Entry<D>],
    fanout: Fanout,
) -> Result<Root, Fault>
    requires dims { IsDims D }
    ensures changes { Changes cache.old cache.new result }
    ensures sound { IsPageMap cache.old → IsPageMap cache.new }
    ensures loaded { IsPageMap cache.old
        → IfOk result (λ root.
        Loads D fanout.most (pages cache.old) (pages cache.new) (items_of objects.old) root) }
    ensures all { IsPermutation objects.old objects.new }
    ensures grows { Grows (length objects.old + 1) cache.old cache.new }
    ensures faults { IsPageMap cache.old → IfErr result (IsNoDamage cache.new) }
    ensures other_faults { IfErr result (IsChangeFault cache.new) }
{
    see_boxes(objects);
    pack(alloc, cache, objects, 0, fanout)
}

// Packs the entries of a level, which are left in some order.
fn pack<const D: usize, B: BlockDevice, A: Allocator + Copy, H: Allocator + Copy>(
    alloc: H,
    cache: &mut PageCache<B, A>,
    entries: &mut [Entry<D>],
    level: u8,
    fanout: Fanout,
) -> Result<Root, Fault>
    requires dims { IsDims D }
    requires some { 0 < level → 1 ≤ length entries.old }
    requires refers { All (λ item. IsOfLevel level item.reference item.tag) (items_of entries.old) }
    requires fits { length entries.old * 2 ^ level < 2 ^ 64 }
    ensures changes { Changes cache.old cache.new result }
    ensures sound { IsPageMap cache.old → IsPageMap cache.new }
    ensures packed { IsPageMap cache.old → (bs : List Branch)
        → WaitFor D level (pages cache.old) (items_of entries.old) bs
        → IfOk result (λ root. PackedAt D fanout.most level (pages cache.old) (pages cache.new) bs root) }
    ensures all { IsPermutation entries.old entries.new }
    ensures grows { Grows (length entries.old + 1) cache.old cache.new }
    ensures faults { IsPageMap cache.old → IfErr result (IsNoDamage cache.new) }
    ensures other_faults { IfErr result (IsChangeFault cache.new) }
{
    if entries.len() <= fanout.entries() {
        let page = write_new(cache, entries, level)?;
        return Ok(Root { page, level });
    }
    let mut parents = pack_level(alloc, cache, entries, level, fanout)?;
    pack(alloc, cache, parents.as_mut_slice(), level + 1, fanout)
}

// Puts the entries of a level into order and writes its nodes, and answers an entry for each node.
fn pack_level<const D: usize, B: BlockDevice, A: Allocator + Copy, H: Allocator + Copy>(
    alloc: H,
    cache: &mut PageCache<B, A>,
    entries: &mut [Entry<D>],
    level: u8,
    fanout: Fanout,
) -> Result<Vec<Entry<D>, H>, Fault>
    requires dims { IsDims D }
    requires above { fanout.most < length entries.old }
    requires refers { All (λ item. IsOfLevel level item.reference item.tag) (items_of entries.old) }
    ensures changes { Changes cache.old cache.new result }
    ensures sound { IsPageMap cache.old → IsPageMap cache.new }
    ensures two { IfOk result (λ parents. 2 ≤ length parents.items) }
    ensures half { IfOk result (λ parents. 2 * length parents.items ≤ length entries.old) }
    ensures refers { IfOk result (λ parents. All (λ item. IsOfLevel (level + 1) item.reference item.tag)
        (items_of parents.items)) }
    ensures packed { IsPageMap cache.old → (bs : List Branch)
        → WaitFor D level (pages cache.old) (items_of entries.old) bs
        → IfOk result (λ parents. LevelPacked D fanout.most level (pages cache.old) (pages cache.new) bs
        (items_of parents.items)) }
    ensures all { IsPermutation entries.old entries.new }
    ensures grows { Grows (length entries.old / 2) cache.old cache.new }
    ensures faults { IsPageMap cache.old → IfErr result (IsNoDamage cache.new) }
    ensures other_faults { IfErr result (IsChangeFault cache.new) }
{
    let sizes = tile(alloc, entries, fanout)?;
    let parents = room_for(alloc, sizes.len())?;
    write_level(cache, entries, sizes.as_slice(), level, parents)
}

// A list with room for so many entries, before a page is touched.
fn room_for<const D: usize, H: Allocator>(alloc: H, count: usize) -> Result<Vec<Entry<D>, H>, Fault>
    ensures empty { IfOk result (λ list. list.items ≡ []) }
    ensures room { IfOk result (λ list. count ≤ vec_capacity list) }
    ensures memory { IfErr result (λ f. f ≡ fault.Memory) }
{
    Ok(Vec::with_capacity(alloc, count)?)
}

// Writes the nodes of a level, which take so many of the entries each, and answers an entry for each node in
// a list that was empty.
fn write_level<const D: usize, B: BlockDevice, A: Allocator + Copy, H: Allocator>(
    cache: &mut PageCache<B, A>,
    entries: &[Entry<D>],
    sizes: &[usize],
    level: u8,
    mut parents: Vec<Entry<D>, H>,
) -> Result<Vec<Entry<D>, H>, Fault>
    requires dims { IsDims D }
    requires whole { total (λ size. size) sizes.now ≡ length entries.now }
    requires sized { AreSizes sizes.now }
    requires refers { All (λ item. IsOfLevel level item.reference item.tag) (items_of entries.now) }
    requires empty { parents.items ≡ [] }
    ensures changes { Changes cache.old cache.new result }
    ensures sound { IsPageMap cache.old → IsPageMap cache.new }
    ensures count { IfOk result (λ parents. length parents.items ≡ length sizes.now) }
    ensures refers { IfOk result (λ parents. All (λ item. IsOfLevel (level + 1) item.reference item.tag)
        (items_of parents.items)) }
    ensures written { IsPageMap cache.old → (runs : List (List Branch)) → map length runs ≡ sizes.now
        → WaitFor D level (pages cache.old) (items_of entries.now) (joined runs)
        → IfOk result (λ parents. LevelWritten D level (pages cache.old) (pages cache.new) runs
        (items_of parents.items)) }
    ensures grows { Grows (length sizes.now) cache.old cache.new }
    ensures faults { IsPageMap cache.old → IfErr result (IsNoDamage cache.new) }
    ensures other_faults { IfErr result (IsChangeFault cache.new) }
{
    let mut from = 0;
    'runs: for place in 0..sizes.len() {
        let size = sizes[place];
        let parent = write_parent(cache, &entries[from..from + size], level)?;
        parents.push(parent)?;
        from += size;
    }
    Ok(parents)
}
