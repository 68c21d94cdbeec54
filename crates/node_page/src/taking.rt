//! An entry taken out of a node at a page of a cache, which is not decoded.

ghost use Rattle.std.specs.Prelude.{◌≡◌, ◌⊎◌, ◌↔◌, ◌<◌, ◌≤◌, Some, None, IfErr, IfNone};
ghost use Rattle.std.specs.Prelude.{IfOk, IfSome, IsErrOf, IsSome, OnOk, length};
ghost use Rattle.page_file.specs.Fault.{IsDamage, IsOfDevice};
ghost use Rattle.page_file.specs.Pages.{SameBut};
ghost use Rattle.page_file.specs.declared.fault.Fault.TheVariants as fault;
ghost use Rattle.page_file.specs.declared.gate.Gate.TheVariants.{Open};
ghost use Rattle.page_cache.specs.Cache.{Grows, IsHeld, IsHonest, IsLive, IsPageMap, gate_of, given, next_of};
ghost use Rattle.page_cache.specs.Cache.{pages};
ghost use Rattle.page_cache.specs.Calls.{Asks, AsksUntil, Changes, RefusesChange};
ghost use Rattle.tree_node.specs.Boxes.{least_box};
ghost use Rattle.tree_node.specs.Nodes.{NodeContent};
ghost use Rattle.node_bytes.specs.Layout.{IsPageOfNode, IsTidy, StaysNode, node_at};
ghost use Rattle.node_page.specs.Standing.{HasPageOf, IsTidyAt, node_in};
ghost use Rattle.node_bytes.specs.Taken.{without_entry};

use crate::lending::view_node;
use block_device::BlockDevice;
use box_math::BBox;
use node_bytes::drop_where_there;
use page_cache::PageCache;
use page_file::Fault;
use std::alloc::Allocator;

/// Takes the entry in a place of the node of that level at a live page, where the node has such an entry and
/// more entries than the fewest, and answers the least box round those that are left; else it answers `None`,
/// and has only asked for the page. The entries behind it move up by one place where the page lies in memory,
/// so their order stays: a page with zeros in all bytes that it does not name becomes the one that `encode`
/// makes of the node without the entry.
///
/// It is refused as `read_node` is, and has then touched no page.
#[tactic(auto, using(page_cache::specs::Calls::changing))]
pub fn take_entry<const D: usize, B: BlockDevice, A: Allocator + Copy>(
    cache: &mut PageCache<B, A>,
    page: u32,
    level: u8,
    place: usize,
    fewest: usize,
) -> Result<Option<BBox<D>>, Fault>
    requires fewest { 1 ≤ fewest }
    ensures changes { Changes cache.old cache.new result }
    ensures room { IsHonest cache.old → (c : NodeContent) → node_in D (pages cache.old page) ≡ Some c
        → IfOk result (λ least. IsSome least ↔ ((place < length c.entries) × (fewest < length c.entries))) }
    ensures taken { IsHonest cache.old → (c : NodeContent) → node_in D (pages cache.old page) ≡ Some c
        → IfOk result (λ some. IfSome some (λ least.
        (node_in D (pages cache.new page) ≡ Some (without_entry c place))
        × (least ≡ least_box D (without_entry c place).entries))) }
    ensures is_page { IsHonest cache.old → (c : NodeContent) → node_in D (pages cache.old page) ≡ Some c
        → IsTidyAt D (pages cache.old) page → IfOk result (λ some. IfSome some (λ least.
        HasPageOf D (pages cache.new) page (without_entry c place))) }
    ensures others { IsHonest cache.old → IsLive cache.old page →
        SameBut page (pages cache.old) (pages cache.new) }
    ensures sound { IsPageMap cache.old → IsLive cache.old page → IsPageMap cache.new }
    ensures cannot { IfOk result (λ some. IfNone some (AsksUntil cache.old cache.new None)) }
    ensures refused { IfErr result (λ f. RefusesChange cache.old cache.new f) }
    ensures grows { Grows 0 cache.old cache.new }
    ensures faults { IsHonest cache.old → (c : NodeContent) → node_in D (pages cache.old page) ≡ Some c
        → c.level ≡ level → IfErr result IsOfDevice }
    ensures given_node { IsHonest cache.old → OnOk result ((c : NodeContent)
        × (node_in D (given cache.old page) ≡ Some c) × (c.level ≡ level)) }
    ensures outside { (page < 2) ⊎ (next_of cache.old ≤ page) → IsErrOf result (fault.Damaged page) }
    ensures held { gate_of cache.old ≡ Open → IsHeld cache.old page
        → IfErr result (λ f. f ≡ fault.Damaged page) }
    ensures named { IsHonest cache.old → IfErr result (λ f. IsOfDevice f ⊎ (f ≡ fault.Damaged page)) }
    ensures other_faults { IfErr result (λ f. IsOfDevice f ⊎ IsDamage f) }
{
    let Some(least) = least_of_others(cache, page, level, place, fewest)? else {
        return Ok(None);
    };
    cache.edit_node::<D, _, _>(
        page,
        |bytes: &mut [u8; 4096]|
            ensures taken { (c : NodeContent) → node_at D bytes.old ≡ Some c → place < length c.entries
                → 1 < length c.entries → node_at D bytes.new ≡ Some (without_entry c place) }
            ensures is_page { IsTidy D bytes.old → (c : NodeContent) → node_at D bytes.old ≡ Some c
                → place < length c.entries → 1 < length c.entries
                → IsPageOfNode D bytes.new (without_entry c place) }
            ensures stays { StaysNode D bytes.old bytes.new }
        { drop_where_there::<D>(bytes, place) },
    )?;
    Ok(Some(least))
}

// The least box round the entries of a node but the one in a place, where the node has such an entry and more
// than the fewest.
fn least_of_others<const D: usize, B: BlockDevice, A: Allocator + Copy>(
    cache: &mut PageCache<B, A>,
    page: u32,
    level: u8,
    place: usize,
    fewest: usize,
) -> Result<Option<BBox<D>>, Fault>
    requires fewest { 1 ≤ fewest }
    ensures asks { Asks cache.old cache.new result }
    ensures room { IsHonest cache.old → (c : NodeContent) → node_in D (pages cache.old page) ≡ Some c
        → IfOk result (λ least. IsSome least ↔ ((place < length c.entries) × (fewest < length c.entries))) }
    ensures least { IsHonest cache.old → (c : NodeContent) → node_in D (pages cache.old page) ≡ Some c
        → IfOk result (λ some. IfSome some (λ least.
        least ≡ least_box D (without_entry c place).entries)) }
    ensures faults { IsHonest cache.old → (c : NodeContent) → node_in D (pages cache.old page) ≡ Some c
        → c.level ≡ level → IfErr result IsOfDevice }
    ensures given_node { IsHonest cache.old → OnOk result ((c : NodeContent)
        × (node_in D (given cache.old page) ≡ Some c) × (c.level ≡ level)) }
    ensures outside { (page < 2) ⊎ (next_of cache.old ≤ page) → IsErrOf result (fault.Damaged page) }
    ensures holds { OnOk result (IsHeld cache.new page) }
    ensures held { IsHeld cache.old page → IfErr result (λ f. f ≡ fault.Damaged page) }
    ensures named { IsHonest cache.old → IfErr result (λ f. IsOfDevice f ⊎ (f ≡ fault.Damaged page)) }
    ensures other_faults { IfErr result (λ f. IsOfDevice f ⊎ IsDamage f) }
{
    let node = view_node::<D, B, A>(cache, page, level)?;
    if place >= node.len() || node.len() <= fewest {
        return Ok(None);
    }
    Ok(Some(node.least_beside(place)))
}
