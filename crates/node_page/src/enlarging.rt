//! An entry of a node at a page of a cache that gets another box, which is not decoded.

ghost use Rattle.std.specs.Prelude.{◌≡◌, ◌⊎◌, ◌↔◌, ◌<◌, ◌≤◌, Some, None, IfErr, IfNone};
ghost use Rattle.std.specs.Prelude.{IfOk, IfSome, IsErrOf, IsSome, OnOk, length};
ghost use Rattle.page_file.specs.Fault.{IsDamage, IsOfDevice};
ghost use Rattle.page_file.specs.Pages.{SameBut};
ghost use Rattle.page_file.specs.declared.fault.Fault.TheVariants as fault;
ghost use Rattle.page_file.specs.declared.gate.Gate.TheVariants.{Open};
ghost use Rattle.page_cache.specs.Cache.{Grows, IsHeld, IsHonest, IsLive, IsPageMap, gate_of, given, next_of};
ghost use Rattle.page_cache.specs.Cache.{pages};
ghost use Rattle.page_cache.specs.Calls.{Asks, AsksUntil, Changes, RefusesChange};
ghost use Rattle.page_cache.specs.PageSteps.{Edits};
ghost use Rattle.tree_node.specs.Boxes.{least_box};
ghost use Rattle.tree_node.specs.Nodes.{NodeContent};
ghost use Rattle.node_bytes.specs.Enlarged.{CanEnlarge, IsBoxed, set_box, with_box_at};
ghost use Rattle.node_page.specs.Standing.{HasPageOf, IsTidyAt, node_in};

use crate::lending::view_node;
use block_device::BlockDevice;
use box_math::BBox;
use node_bytes::write_box_at;
use page_cache::PageCache;
use page_file::Fault;
use std::alloc::Allocator;

/// Gives the entry in a place of the node of that level at a live page a box that holds the one it has, where
/// the node has such an entry, and at most the most, and answers the least box round all of them then; else
/// it answers `None`, and has only asked for the page. The box is written where the page lies in memory: a
/// page with zeros in all bytes that it does not name becomes the one that `encode` makes of the node with
/// that box.
///
/// It is refused as `read_node` is, and has then touched no page.
#[tactic(auto, using(page_cache::specs::Calls::changing))]
pub fn enlarge_entry<const D: usize, B: BlockDevice, A: Allocator + Copy>(
    cache: &mut PageCache<B, A>,
    page: u32,
    level: u8,
    place: usize,
    bounds: &BBox<D>,
    most: usize,
) -> Result<Option<BBox<D>>, Fault>
    ensures changes { Changes cache.old cache.new result }
    ensures room { IsHonest cache.old → (c : NodeContent) → node_in D (pages cache.old page) ≡ Some c
        → IfOk result (λ least. IsSome least ↔ CanEnlarge D most place bounds.now c) }
    ensures enlarged { IsHonest cache.old → (c : NodeContent) → node_in D (pages cache.old page) ≡ Some c
        → IfOk result (λ some. IfSome some (λ least.
        (node_in D (pages cache.new page) ≡ Some (with_box_at c place bounds.now))
        × (least ≡ least_box D (set_box c.entries place bounds.now)))) }
    ensures is_page { IsHonest cache.old → (c : NodeContent) → node_in D (pages cache.old page) ≡ Some c
        → IsTidyAt D (pages cache.old) page → IfOk result (λ some. IfSome some (λ least.
        HasPageOf D (pages cache.new) page (with_box_at c place bounds.now))) }
    ensures others { IsHonest cache.old → IsLive cache.old page →
        SameBut page (pages cache.old) (pages cache.new) }
    ensures sound { IsPageMap cache.old → IsLive cache.old page → IsPageMap cache.new }
    ensures cannot { IfOk result (λ some. IfNone some (AsksUntil cache.old cache.new None)) }
    ensures refused { IfErr result (λ f. RefusesChange cache.old cache.new f) }
    ensures grows { Grows 0 cache.old cache.new }
    ensures faults { IsHonest cache.old → (c : NodeContent) → node_in D (pages cache.old page) ≡ Some c
        → c.level ≡ level → IfErr result IsOfDevice }
    ensures given_node { IsHonest cache.old → OnOk result ((c : NodeContent)
        × (node_in D (given cache.old page) ≡ Some c) × (c.level ≡ level)) }
    ensures outside { (page < 2) ⊎ (next_of cache.old ≤ page) → IsErrOf result (fault.Damaged page) }
    ensures held { gate_of cache.old ≡ Open → IsHeld cache.old page
        → IfErr result (λ f. f ≡ fault.Damaged page) }
    ensures named { IsHonest cache.old → IfErr result (λ f. IsOfDevice f ⊎ (f ≡ fault.Damaged page)) }
    ensures other_faults { IfErr result (λ f. IsOfDevice f ⊎ IsDamage f) }
{
    let Some(least) = least_enlarged(cache, page, level, place, bounds, most)? else {
        return Ok(None);
    };
    edit_box(cache, page, place, bounds)?;
    Ok(Some(least))
}

// Gives the entry in a place of the node at a live page that box, where the page lies in memory.
fn edit_box<const D: usize, B: BlockDevice, A: Allocator + Copy>(
    cache: &mut PageCache<B, A>,
    page: u32,
    place: usize,
    bounds: &BBox<D>,
) -> Result<(), Fault>
    ensures { Edits page (λ was answer now. IsBoxed D place bounds.now was now) cache.old cache.new result }
{
    cache.edit_node::<D, _, _>(
        page,
        |bytes: &mut [u8; 4096]|
            ensures { IsBoxed D place bounds.entry.now bytes.old bytes.new }
        { write_box_at(bytes, place, bounds) },
    )
}

// The least box round the entries of a node where the one in a place gets a box that holds its own, where the
// node has such an entry, and at most the most.
fn least_enlarged<const D: usize, B: BlockDevice, A: Allocator + Copy>(
    cache: &mut PageCache<B, A>,
    page: u32,
    level: u8,
    place: usize,
    bounds: &BBox<D>,
    most: usize,
) -> Result<Option<BBox<D>>, Fault>
    ensures asks { Asks cache.old cache.new result }
    ensures room { IsHonest cache.old → (c : NodeContent) → node_in D (pages cache.old page) ≡ Some c
        → IfOk result (λ least. IsSome least ↔ CanEnlarge D most place bounds.now c) }
    ensures least { IsHonest cache.old → (c : NodeContent) → node_in D (pages cache.old page) ≡ Some c
        → IfOk result (λ some. IfSome some (λ least.
        least ≡ least_box D (set_box c.entries place bounds.now))) }
    ensures faults { IsHonest cache.old → (c : NodeContent) → node_in D (pages cache.old page) ≡ Some c
        → c.level ≡ level → IfErr result IsOfDevice }
    ensures given_node { IsHonest cache.old → OnOk result ((c : NodeContent)
        × (node_in D (given cache.old page) ≡ Some c) × (c.level ≡ level)) }
    ensures outside { (page < 2) ⊎ (next_of cache.old ≤ page) → IsErrOf result (fault.Damaged page) }
    ensures holds { OnOk result (IsHeld cache.new page) }
    ensures held { IsHeld cache.old page → IfErr result (λ f. f ≡ fault.Damaged page) }
    ensures named { IsHonest cache.old → IfErr result (λ f. IsOfDevice f ⊎ (f ≡ fault.Damaged page)) }
    ensures other_faults { IfErr result (λ f. IsOfDevice f ⊎ IsDamage f) }
{
    let node = view_node::<D, B, A>(cache, page, level)?;
    if place >= node.len() || node.len() > most {
        return Ok(None);
    }
    if !bounds.encloses(&node.entry(place).bounds) {
        return Ok(None);
    }
    let _ = bounds.low();
    Ok(Some(node.least().join(bounds)))
}

/// Gives the entry in a place of the node of that level at a live page that box, where the node has such an
/// entry, and answers the least box round all of them then; else it answers `None`, and has only asked for
/// the page. The box is written where the page lies in memory, as `enlarge_entry` does.
///
/// It is refused as `read_node` is, and has then touched no page.
#[tactic(auto, using(page_cache::specs::Calls::changing))]
pub fn set_entry_box<const D: usize, B: BlockDevice, A: Allocator + Copy>(
    cache: &mut PageCache<B, A>,
    page: u32,
    level: u8,
    place: usize,
    bounds: &BBox<D>,
) -> Result<Option<BBox<D>>, Fault>
    ensures changes { Changes cache.old cache.new result }
    ensures room { IsHonest cache.old → (c : NodeContent) → node_in D (pages cache.old page) ≡ Some c
        → IfOk result (λ least. IsSome least ↔ (place < length c.entries)) }
    ensures boxed { IsHonest cache.old → (c : NodeContent) → node_in D (pages cache.old page) ≡ Some c
        → IfOk result (λ some. IfSome some (λ least.
        (node_in D (pages cache.new page) ≡ Some (with_box_at c place bounds.now))
        × (least ≡ least_box D (set_box c.entries place bounds.now)))) }
    ensures is_page { IsHonest cache.old → (c : NodeContent) → node_in D (pages cache.old page) ≡ Some c
        → IsTidyAt D (pages cache.old) page → IfOk result (λ some. IfSome some (λ least.
        HasPageOf D (pages cache.new) page (with_box_at c place bounds.now))) }
    ensures others { IsHonest cache.old → IsLive cache.old page →
        SameBut page (pages cache.old) (pages cache.new) }
    ensures sound { IsPageMap cache.old → IsLive cache.old page → IsPageMap cache.new }
    ensures cannot { IfOk result (λ some. IfNone some (AsksUntil cache.old cache.new None)) }
    ensures refused { IfErr result (λ f. RefusesChange cache.old cache.new f) }
    ensures grows { Grows 0 cache.old cache.new }
    ensures faults { IsHonest cache.old → (c : NodeContent) → node_in D (pages cache.old page) ≡ Some c
        → c.level ≡ level → IfErr result IsOfDevice }
    ensures given_node { IsHonest cache.old → OnOk result ((c : NodeContent)
        × (node_in D (given cache.old page) ≡ Some c) × (c.level ≡ level)) }
    ensures outside { (page < 2) ⊎ (next_of cache.old ≤ page) → IsErrOf result (fault.Damaged page) }
    ensures held { gate_of cache.old ≡ Open → IsHeld cache.old page
        → IfErr result (λ f. f ≡ fault.Damaged page) }
    ensures named { IsHonest cache.old → IfErr result (λ f. IsOfDevice f ⊎ (f ≡ fault.Damaged page)) }
    ensures other_faults { IfErr result (λ f. IsOfDevice f ⊎ IsDamage f) }
{
    let Some(least) = least_with_box(cache, page, level, place, bounds)? else {
        return Ok(None);
    };
    edit_box(cache, page, place, bounds)?;
    Ok(Some(least))
}

// The least box round the entries of a node where the one in a place has that box, where the node has such an
// entry.
fn least_with_box<const D: usize, B: BlockDevice, A: Allocator + Copy>(
    cache: &mut PageCache<B, A>,
    page: u32,
    level: u8,
    place: usize,
    bounds: &BBox<D>,
) -> Result<Option<BBox<D>>, Fault>
    ensures asks { Asks cache.old cache.new result }
    ensures room { IsHonest cache.old → (c : NodeContent) → node_in D (pages cache.old page) ≡ Some c
        → IfOk result (λ least. IsSome least ↔ (place < length c.entries)) }
    ensures least { IsHonest cache.old → (c : NodeContent) → node_in D (pages cache.old page) ≡ Some c
        → IfOk result (λ some. IfSome some (λ least.
        least ≡ least_box D (set_box c.entries place bounds.now))) }
    ensures faults { IsHonest cache.old → (c : NodeContent) → node_in D (pages cache.old page) ≡ Some c
        → c.level ≡ level → IfErr result IsOfDevice }
    ensures given_node { IsHonest cache.old → OnOk result ((c : NodeContent)
        × (node_in D (given cache.old page) ≡ Some c) × (c.level ≡ level)) }
    ensures outside { (page < 2) ⊎ (next_of cache.old ≤ page) → IsErrOf result (fault.Damaged page) }
    ensures holds { OnOk result (IsHeld cache.new page) }
    ensures held { IsHeld cache.old page → IfErr result (λ f. f ≡ fault.Damaged page) }
    ensures named { IsHonest cache.old → IfErr result (λ f. IsOfDevice f ⊎ (f ≡ fault.Damaged page)) }
    ensures other_faults { IfErr result (λ f. IsOfDevice f ⊎ IsDamage f) }
{
    let node = view_node::<D, B, A>(cache, page, level)?;
    if place >= node.len() {
        return Ok(None);
    }
    Ok(Some(node.least_boxed(place, bounds)))
}
