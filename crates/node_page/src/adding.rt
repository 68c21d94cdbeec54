//! An entry added to a node at a page of a cache, which is not decoded.

ghost use Rattle.std.specs.Prelude.{◌≡◌, ◌⊎◌, ◌↔◌, ◌<◌, ◌≤◌, Some, None, IfErr, IfNone};
ghost use Rattle.std.specs.Prelude.{IfOk, IfSome, IsErrOf, IsSome, OnOk, length};
ghost use Rattle.page_file.specs.Fault.{IsDamage, IsOfDevice};
ghost use Rattle.page_file.specs.Pages.{SameBut};
ghost use Rattle.page_file.specs.declared.fault.Fault.TheVariants as fault;
ghost use Rattle.page_file.specs.declared.gate.Gate.TheVariants.{Open};
ghost use Rattle.page_cache.specs.Cache.{Grows, IsHeld, IsHonest, IsLive, IsPageMap, gate_of, given, next_of};
ghost use Rattle.page_cache.specs.Cache.{pages};
ghost use Rattle.page_cache.specs.Calls.{Asks, AsksUntil, Changes, RefusesChange};
ghost use Rattle.tree_node.specs.Boxes.{least_box};
ghost use Rattle.tree_node.specs.Nodes.{NodeContent, item_of};
ghost use Rattle.node_bytes.specs.Layout.{IsOfLevel, IsPageOfNode, IsTidy, StaysNode, node_at, pushed};
ghost use Rattle.node_page.specs.Standing.{HasPageOf, IsTidyAt, node_in};

use crate::lending::view_node;
use block_device::BlockDevice;
use box_math::BBox;
use node_bytes::push_where_room;
use page_cache::PageCache;
use page_file::Fault;
use std::alloc::Allocator;
use tree_node::Entry;

/// Adds an entry to the node of that level at a live page, in the place after the last one, where the node
/// has some entry and fewer than the most, and answers the least box round all of them then; else it answers
/// `None`, and has only asked for the page. The entry is written where the page lies in memory: a page with
/// zeros in all bytes that it does not name becomes the one that `encode` makes of the node with the entry.
///
/// It is refused as `read_node` is, and has then touched no page.
#[tactic(auto, using(page_cache::specs::Calls::changing))]
pub fn add_entry<const D: usize, B: BlockDevice, A: Allocator + Copy>(
    cache: &mut PageCache<B, A>,
    page: u32,
    level: u8,
    entry: &Entry<D>,
    most: usize,
) -> Result<Option<BBox<D>>, Fault>
    requires most { most ≤ 100 }
    requires refers { IsOfLevel level entry.now.reference entry.now.tag }
    ensures changes { Changes cache.old cache.new result }
    ensures room { IsHonest cache.old → (c : NodeContent) → node_in D (pages cache.old page) ≡ Some c →
        c.level ≡ level
        → IfOk result (λ bounds. IsSome bounds ↔ ((0 < length c.entries) × (length c.entries < most))) }
    ensures added { IsHonest cache.old → (c : NodeContent) → node_in D (pages cache.old page) ≡ Some c
        → IfOk result (λ some. IfSome some (λ bounds.
        (node_in D (pages cache.new page) ≡ Some (pushed c (item_of entry.now)))
        × (bounds ≡ least_box D (pushed c (item_of entry.now)).entries))) }
    ensures is_page { IsHonest cache.old → (c : NodeContent) → node_in D (pages cache.old page) ≡ Some c
        → IsTidyAt D (pages cache.old) page → IfOk result (λ some. IfSome some (λ bounds.
        HasPageOf D (pages cache.new) page (pushed c (item_of entry.now)))) }
    ensures others { IsHonest cache.old → IsLive cache.old page →
        SameBut page (pages cache.old) (pages cache.new) }
    ensures sound { IsPageMap cache.old → IsLive cache.old page → IsPageMap cache.new }
    ensures full { IfOk result (λ some. IfNone some (AsksUntil cache.old cache.new None)) }
    ensures refused { IfErr result (λ f. RefusesChange cache.old cache.new f) }
    ensures grows { Grows 0 cache.old cache.new }
    ensures faults { IsHonest cache.old → (c : NodeContent) → node_in D (pages cache.old page) ≡ Some c
        → c.level ≡ level → IfErr result IsOfDevice }
    ensures given_node { IsHonest cache.old → OnOk result ((c : NodeContent)
        × (node_in D (given cache.old page) ≡ Some c) × (c.level ≡ level)) }
    ensures outside { (page < 2) ⊎ (next_of cache.old ≤ page) → IsErrOf result (fault.Damaged page) }
    ensures held { gate_of cache.old ≡ Open → IsHeld cache.old page
        → IfErr result (λ f. f ≡ fault.Damaged page) }
    ensures named { IsHonest cache.old → IfErr result (λ f. IsOfDevice f ⊎ (f ≡ fault.Damaged page)) }
    ensures other_faults { IfErr result (λ f. IsOfDevice f ⊎ IsDamage f) }
{
    let Some(bounds) = least_with(cache, page, level, entry, most)? else {
        return Ok(None);
    };
    cache.edit_node::<D, _, _>(
        page,
        |bytes: &mut [u8; 4096]|
            ensures pushed { (c : NodeContent) → node_at D bytes.old ≡ Some c → length c.entries < 100
                → IsOfLevel c.level entry.entry.now.reference entry.entry.now.tag
                → node_at D bytes.new ≡ Some (pushed c (item_of entry.entry.now)) }
            ensures is_page { IsTidy D bytes.old → (c : NodeContent) → node_at D bytes.old ≡ Some c
                → length c.entries < 100
                → IsOfLevel c.level entry.entry.now.reference entry.entry.now.tag
                → IsPageOfNode D bytes.new (pushed c (item_of entry.entry.now)) }
            ensures stays { StaysNode D bytes.old bytes.new }
        { push_where_room(bytes, entry) },
    )?;
    Ok(Some(bounds))
}

// The least box round the entries of a node and one more, where it has some entry and fewer than the most.
fn least_with<const D: usize, B: BlockDevice, A: Allocator + Copy>(
    cache: &mut PageCache<B, A>,
    page: u32,
    level: u8,
    entry: &Entry<D>,
    most: usize,
) -> Result<Option<BBox<D>>, Fault>
    ensures asks { Asks cache.old cache.new result }
    ensures room { IsHonest cache.old → (c : NodeContent) → node_in D (pages cache.old page) ≡ Some c
        → IfOk result (λ some. IsSome some ↔ ((0 < length c.entries) × (length c.entries < most))) }
    ensures level { IsHonest cache.old → (c : NodeContent) → node_in D (pages cache.old page) ≡ Some c
        → OnOk result (c.level ≡ level) }
    ensures least { IsHonest cache.old → (c : NodeContent) → node_in D (pages cache.old page) ≡ Some c
        → IfOk result (λ some. IfSome some (λ bounds.
        bounds ≡ least_box D (pushed c (item_of entry.now)).entries)) }
    ensures faults { IsHonest cache.old → (c : NodeContent) → node_in D (pages cache.old page) ≡ Some c
        → c.level ≡ level → IfErr result IsOfDevice }
    ensures given_node { IsHonest cache.old → OnOk result ((c : NodeContent)
        × (node_in D (given cache.old page) ≡ Some c) × (c.level ≡ level)) }
    ensures outside { (page < 2) ⊎ (next_of cache.old ≤ page) → IsErrOf result (fault.Damaged page) }
    ensures holds { OnOk result (IsHeld cache.new page) }
    ensures held { IsHeld cache.old page → IfErr result (λ f. f ≡ fault.Damaged page) }
    ensures named { IsHonest cache.old → IfErr result (λ f. IsOfDevice f ⊎ (f ≡ fault.Damaged page)) }
    ensures other_faults { IfErr result (λ f. IsOfDevice f ⊎ IsDamage f) }
{
    let node = view_node::<D, B, A>(cache, page, level)?;
    if node.len() == 0 || node.len() >= most {
        return Ok(None);
    }
    Ok(Some(node.least().join(&entry.bounds)))
}
