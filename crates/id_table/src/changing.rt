//! Tables made, changed by one object, and given up.

ghost use Rattle.std.specs.Prelude.{◌≡◌, ◌⊎◌, ◌≤◌, ◌<◌, ℕ, Some, true, false, IfOk, IfErr, OnErr, OnOk};
ghost use Rattle.std.specs.FinMap as map;
ghost use Rattle.box_math.specs.Bounds.{IsDims};
ghost use Rattle.box_math.specs.Objects.{Object, tag_of};
ghost use Rattle.page_file.specs.Fault.{IsDamage, IsOfDevice};
ghost use Rattle.page_file.specs.declared.fault.Fault.TheVariants as fault;
ghost use Rattle.page_cache.specs.Cache.{BreaksAt, Grows, IsHonest, IsPageMap, KeepsMap, given};
ghost use Rattle.page_cache.specs.Cache.{next_of, pages, touched_of};
ghost use Rattle.page_cache.specs.Calls.{Changes};
ghost use Rattle.node_page.specs.Faults.{IsNoDamage};
ghost use Rattle.node_page.specs.Parts.{Moves, no_page};
ghost use Rattle.id_words.specs.Damage.{MayBreakAt};
ghost use Rattle.id_words.specs.Objects.{with_box};
ghost use Rattle.id_table.specs.Changes.{KeepsTidy, Makes, Removes, Sets, most_added_pages};
ghost use Rattle.id_table.specs.Checked.{MeetsInTable, MeetsSpot};
ghost use Rattle.id_table.specs.Table.{IdTable, IdsStand, IsSpot, kind_of, objects_of, page_of, part_of};

use crate::asking::Spot;
use crate::kind::{TableKind, kind_at};
use block_device::BlockDevice;
use box_math::BBox;
use page_cache::PageCache;
use page_file::Fault;
use std::alloc::Allocator;

/// Makes a table of this kind and of no objects, and answers its first page, which stays its first. A tree
/// wants a file of version 3: the caller raises it (`PageCache::raise_version`).
///
/// With a sound map a refusal is `Memory` or `Device`, or `NoPages` where each page number is live. On an
/// honest device it may be `Damaged` too, where the chain of free pages breaks.
pub fn make<const D: usize, B: BlockDevice, A: Allocator + Copy>(
    cache: &mut PageCache<B, A>,
    kind: TableKind,
) -> Result<u32, Fault>
    requires dims { IsDims D }
    ensures changes { Changes cache.old cache.new result }
    ensures sound { IsPageMap cache.old → IsPageMap cache.new }
    ensures made { IsPageMap cache.old
        → IfOk result (λ page. Makes D (pages cache.old) (pages cache.new) kind page) }
    ensures tidy { IsPageMap cache.old → OnOk result (KeepsTidy D kind (pages cache.old) (pages cache.new)) }
    ensures number { IfOk result (λ page. (3 ≤ page) × (page < next_of cache.new)) }
    ensures grows { Grows 1 cache.old cache.new }
    ensures faults { IsPageMap cache.old → IfErr result (IsNoDamage cache.new) }
    ensures damage { IsHonest cache.old
        → IfErr result (λ f. (n : ℕ) → f ≡ fault.Damaged n → BreaksAt cache.old n) }
    ensures other_faults { IfErr result (λ f. IsNoDamage cache.new f ⊎ IsDamage f) }
{
    match kind {
        TableKind::Chains => id_chains::make::<D, B, A>(cache),
        TableKind::Tree => id_tree::make::<D, B, A>(cache),
    }
}

/// Adds an object to the table that begins at a page, which does not have its identifier, at the spot where
/// [`find`](crate::find) found that it would come.
///
/// With a sound map, where the pages stand for a table there, a refusal is `Memory` or `Device`, or `NoPages`
/// where each page number is live. On other pages it may be `Damaged` too: where no page was touched, with
/// the number of a page that a walk meets, or at which the chain of free pages breaks. Also after a refusal
/// at most `most_added_pages` more pages are live.
#[tactic(auto, using(page_cache::specs::Calls::changing))]
pub fn add<const D: usize, B: BlockDevice, A: Allocator + Copy>(
    cache: &mut PageCache<B, A>,
    page: u32,
    spot: Spot,
    id: u64,
    bounds: &BBox<D>,
    tag: u32,
) -> Result<(), Fault>
    requires dims { IsDims D }
    ensures changes { Changes cache.old cache.new result }
    ensures sound { IsPageMap cache.old → (t : IdTable) → page_of t ≡ page → IdsStand D (pages cache.old) t
        → IsSpot t id spot → IsPageMap cache.new }
    ensures added { IsPageMap cache.old → (t : IdTable) → page_of t ≡ page → IdsStand D (pages cache.old) t
        → IsSpot t id spot → map.contains_key (objects_of t) id ≡ false
        → OnOk result (Sets D (pages cache.old) (pages cache.new) t id (bounds.now, tag)) }
    ensures tidy { IsPageMap cache.old → (t : IdTable) → page_of t ≡ page → IdsStand D (pages cache.old) t
        → IsSpot t id spot → OnOk result (KeepsTidy D (kind_of t) (pages cache.old) (pages cache.new)) }
    ensures grows { Grows most_added_pages cache.old cache.new }
    ensures faults { IsPageMap cache.old → (t : IdTable) → page_of t ≡ page → IdsStand D (pages cache.old) t
        → IsSpot t id spot → IfErr result (IsNoDamage cache.new) }
    ensures damage { IsHonest cache.old → MeetsSpot D (given cache.old) page spot
        → touched_of cache.new ≡ false
        → IfErr result (λ f. (n : ℕ) → f ≡ fault.Damaged n
        → MeetsInTable D (given cache.old) page n ⊎ MayBreakAt cache.old n) }
    ensures other_faults { IfErr result (λ f. IsNoDamage cache.new f ⊎ IsDamage f) }
{
    match spot {
        Spot::InChain => id_chains::add(cache, page, id, bounds, tag),
        Spot::InLeaf(at) => id_tree::add(cache, page, at, id, bounds, tag),
    }
}

/// Gives the object with that identifier, which the table that begins at a page has, another box at the spot
/// where [`find`](crate::find) found it: one page is written. Its tag is `tag`, as before.
///
/// With a sound map, where the pages stand for a table there, a refusal is `Memory` or `Device`. On other
/// pages it may be `Damaged` too, with the number of a page that a walk meets. Refused, it leaves the map as
/// it was.
#[tactic(auto, using(page_cache::specs::Calls::changing))]
pub fn update<const D: usize, B: BlockDevice, A: Allocator + Copy>(
    cache: &mut PageCache<B, A>,
    page: u32,
    spot: Spot,
    id: u64,
    bounds: &BBox<D>,
    tag: u32,
) -> Result<(), Fault>
    requires dims { IsDims D }
    ensures changes { Changes cache.old cache.new result }
    ensures sound { IsPageMap cache.old → (t : IdTable) → page_of t ≡ page → IdsStand D (pages cache.old) t
        → IsSpot t id spot → IsPageMap cache.new }
    ensures updated { IsPageMap cache.old → (t : IdTable) → page_of t ≡ page → IdsStand D (pages cache.old) t
        → IsSpot t id spot → (kept : Object) → map.get (objects_of t) id ≡ Some kept → tag ≡ tag_of kept
        → OnOk result (Sets D (pages cache.old) (pages cache.new) t id (with_box kept bounds.now)) }
    ensures tidy { IsPageMap cache.old → (t : IdTable) → page_of t ≡ page → IdsStand D (pages cache.old) t
        → IsSpot t id spot → map.contains_key (objects_of t) id ≡ true
        → OnOk result (KeepsTidy D (kind_of t) (pages cache.old) (pages cache.new)) }
    ensures refused { OnErr result (KeepsMap cache.old cache.new) }
    ensures grows { Grows 0 cache.old cache.new }
    ensures faults { IsPageMap cache.old → (t : IdTable) → page_of t ≡ page → IdsStand D (pages cache.old) t
        → IsSpot t id spot → map.contains_key (objects_of t) id ≡ true → IfErr result IsOfDevice }
    ensures damage { IsHonest cache.old → MeetsSpot D (given cache.old) page spot
        → IfErr result (λ f. (n : ℕ) → f ≡ fault.Damaged n → MeetsInTable D (given cache.old) page n) }
    ensures other_faults { IfErr result (λ f. IsOfDevice f ⊎ IsDamage f) }
{
    match spot {
        Spot::InChain => id_chains::update(cache, page, id, bounds),
        Spot::InLeaf(at) => id_tree::update(cache, page, at, id, bounds, tag),
    }
}

/// Removes an object from the table that begins at a page, which has its identifier, at the spot where
/// [`find`](crate::find) found it.
///
/// With a sound map, where the pages stand for a table there, a refusal is `Memory` or `Device`. On other
/// pages it may be `Damaged` too: where no page was touched, with the number of a page that a walk meets.
#[tactic(auto, using(page_cache::specs::Calls::changing))]
pub fn remove<const D: usize, B: BlockDevice, A: Allocator + Copy>(
    cache: &mut PageCache<B, A>,
    page: u32,
    spot: Spot,
    id: u64,
) -> Result<(), Fault>
    requires dims { IsDims D }
    ensures changes { Changes cache.old cache.new result }
    ensures sound { IsPageMap cache.old → (t : IdTable) → page_of t ≡ page → IdsStand D (pages cache.old) t
        → IsSpot t id spot → IsPageMap cache.new }
    ensures removed { IsPageMap cache.old → (t : IdTable) → page_of t ≡ page → IdsStand D (pages cache.old) t
        → IsSpot t id spot → map.contains_key (objects_of t) id ≡ true
        → OnOk result (Removes D (pages cache.old) (pages cache.new) t id) }
    ensures tidy { IsPageMap cache.old → (t : IdTable) → page_of t ≡ page → IdsStand D (pages cache.old) t
        → IsSpot t id spot → map.contains_key (objects_of t) id ≡ true
        → OnOk result (KeepsTidy D (kind_of t) (pages cache.old) (pages cache.new)) }
    ensures grows { Grows 0 cache.old cache.new }
    ensures faults { IsPageMap cache.old → (t : IdTable) → page_of t ≡ page → IdsStand D (pages cache.old) t
        → IsSpot t id spot → map.contains_key (objects_of t) id ≡ true → IfErr result IsOfDevice }
    ensures damage { IsHonest cache.old → MeetsSpot D (given cache.old) page spot
        → touched_of cache.new ≡ false
        → IfErr result (λ f. (n : ℕ) → f ≡ fault.Damaged n → MeetsInTable D (given cache.old) page n) }
    ensures other_faults { IfErr result (λ f. IsOfDevice f ⊎ IsDamage f) }
{
    match spot {
        Spot::InChain => id_chains::remove::<D, B, A>(cache, page, id),
        Spot::InLeaf(at) => id_tree::remove::<D, B, A>(cache, page, at, id),
    }
}

/// Frees all pages of the table that begins at a page.
///
/// With a sound map, where the pages stand for a table there, a refusal is `Memory` or `Device`. On other
/// pages it may be `Damaged` too: where no page was touched, with the number of a page that a walk meets.
#[tactic(auto, using(page_cache::specs::Calls::changing))]
pub fn free_all<const D: usize, B: BlockDevice, A: Allocator + Copy>(
    cache: &mut PageCache<B, A>,
    page: u32,
) -> Result<(), Fault>
    requires dims { IsDims D }
    ensures changes { Changes cache.old cache.new result }
    ensures sound { IsPageMap cache.old → (t : IdTable) → page_of t ≡ page → IdsStand D (pages cache.old) t
        → IsPageMap cache.new }
    ensures freed { IsPageMap cache.old → (t : IdTable) → page_of t ≡ page → IdsStand D (pages cache.old) t
        → OnOk result (Moves (pages cache.old) (pages cache.new) (part_of t) no_page) }
    ensures grows { Grows 0 cache.old cache.new }
    ensures faults { IsPageMap cache.old → (t : IdTable) → page_of t ≡ page → IdsStand D (pages cache.old) t
        → IfErr result IsOfDevice }
    ensures damage { IsHonest cache.old → touched_of cache.new ≡ false
        → IfErr result (λ f. (n : ℕ) → f ≡ fault.Damaged n → MeetsInTable D (given cache.old) page n) }
    ensures other_faults { IfErr result (λ f. IsOfDevice f ⊎ IsDamage f) }
{
    match kind_at::<D, B, A>(cache, page)? {
        TableKind::Chains => id_chains::free_all::<D, B, A>(cache, page),
        TableKind::Tree => id_tree::free_all::<D, B, A>(cache, page),
    }
}
