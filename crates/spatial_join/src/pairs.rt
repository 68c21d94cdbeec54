//! The descent into the pairs of nodes whose boxes are near enough.

ghost use Rattle.std.specs.Prelude.{◌≡◌, ◌⊎◌, ◌↔◌, ◌+◌, ◌*◌, ◌^◌, ◌<◌, ◌≤◌, ◌++◌, ℕ, IfErr, OnOk, length};
ghost use Rattle.std.specs.Prelude.{map};
ghost use Rattle.page_file.specs.Fault.{IsDamage, IsOfDevice};
ghost use Rattle.page_file.specs.declared.fault.Fault.TheVariants as fault;
ghost use Rattle.page_cache.specs.Cache.{IsHonest, given, looks_of, pages};
ghost use Rattle.page_cache.specs.Calls.{Asks};
ghost use Rattle.tree_node.specs.Joins.{boxes_below, near_pairs};
ghost use Rattle.tree_node.specs.Nodes.{content_of, item_of};
ghost use Rattle.tree_node.specs.Trees.{Row};
ghost use Rattle.node_page.specs.Checked.{ComesBelow, ComesTo};
ghost use Rattle.spatial_join.specs.Opening.{Encloses, HasPages, HasRow, sole};
ghost use Rattle.spatial_join.specs.Pairs.{GainsPairs, pairs_of};

use crate::columns::{NodeInColumns, columns_of, next_place};
use crate::leaves::add_leaf_pairs;
use crate::opening::open;
use crate::reach::Reach;
use block_device::BlockDevice;
use node_page::{Entry, Node, Root};
use page_cache::PageCache;
use page_file::Fault;
use std::alloc::Allocator;

/// Appends the pairs of objects below two nodes whose boxes are in the reach of each other.
#[cycle(descent)]
pub(crate) fn add_pairs<const D: usize, B: BlockDevice, A: Allocator + Copy, H: Allocator>(
    cache: &mut PageCache<B, A>,
    left: &Node<D>,
    right: &Node<D>,
    reach: Reach,
    pairs: &mut Vec<(u64, u64), H>,
) -> Result<(), Fault>
    requires leaves { left.now.level ≡ 0 ↔ right.now.level ≡ 0 }
    requires left_pages { HasPages (content_of left.now) }
    requires right_pages { HasPages (content_of right.now) }
    requires few { length right.now.entries.items ≤ 100 }
    ensures asks { Asks cache.old cache.new result }
    ensures pairs { IsHonest cache.old → (s t : Row) → HasRow D (pages cache.old) (content_of left.now) s
        → HasRow D (pages cache.old) (content_of right.now) t → Encloses D s → Encloses D t
        → OnOk result (GainsPairs D reach.limit s t pairs.old.items pairs.new.items) }
    ensures looks { IsHonest cache.old → (s t : Row) → HasRow D (pages cache.old) (content_of left.now) s
        → HasRow D (pages cache.old) (content_of right.now) t
        → OnOk result (looks_of cache.new
        ≤ looks_of cache.old + 2 * near_pairs D reach.limit (boxes_below s) (boxes_below t)) }
    ensures stands { IsHonest cache.old → (s t : Row) → HasRow D (pages cache.old) (content_of left.now) s
        → HasRow D (pages cache.old) (content_of right.now) t → IfErr result IsOfDevice }
    ensures damage { IsHonest cache.old → IfErr result (λ f. (n : ℕ) → f ≡ fault.Damaged n
        → ComesBelow D (given cache.old) (content_of left.now) n
        ⊎ ComesBelow D (given cache.old) (content_of right.now) n) }
    ensures other_faults { IfErr result (λ f. IsOfDevice f ⊎ IsDamage f) }
{
    // The boxes are in columns, so that an entry is compared with eight of them at once.
    let columns = columns_of(right);
    for entry in left.entries.as_slice() {
        if left.level == 0 {
            push_pairs(entry, &columns, reach, pairs)?;
        } else {
            add_pairs_of_entry::<D, B, A, H>(cache, entry, left.level, &columns, reach, pairs)?;
        }
    }
    Ok(())
}

// Appends the pairs of objects below an entry of a node of that level and below the right node whose boxes
// are in the reach of each other. The node below the entry is opened once for all of them.
#[cycle(descent)]
fn add_pairs_of_entry<const D: usize, B: BlockDevice, A: Allocator + Copy, H: Allocator>(
    cache: &mut PageCache<B, A>,
    entry: &Entry<D>,
    level: u8,
    right: &NodeInColumns<D>,
    reach: Reach,
    pairs: &mut Vec<(u64, u64), H>,
) -> Result<(), Fault>
    requires above { 0 < level }
    requires right_above { 0 < right.now.node.now.level }
    requires page { entry.now.reference < 2 ^ 32 }
    requires right_pages { HasPages (content_of right.now.node.now) }
    ensures asks { Asks cache.old cache.new result }
    ensures pairs { IsHonest cache.old → (s t : Row) →
        HasRow D (pages cache.old) (sole level (item_of entry.now)) s
        → HasRow D (pages cache.old) (content_of right.now.node.now) t → Encloses D s → Encloses D t
        → OnOk result (GainsPairs D reach.limit s t pairs.old.items pairs.new.items) }
    ensures looks { IsHonest cache.old → (s t : Row) →
        HasRow D (pages cache.old) (sole level (item_of entry.now)) s
        → HasRow D (pages cache.old) (content_of right.now.node.now) t
        → OnOk result (looks_of cache.new
        ≤ looks_of cache.old + 2 * near_pairs D reach.limit (boxes_below s) (boxes_below t)) }
    ensures stands { IsHonest cache.old → (s t : Row) →
        HasRow D (pages cache.old) (sole level (item_of entry.now)) s
        → HasRow D (pages cache.old) (content_of right.now.node.now) t → IfErr result IsOfDevice }
    ensures damage { IsHonest cache.old → IfErr result (λ f. (n : ℕ) → f ≡ fault.Damaged n
        → ComesTo D (given cache.old) entry.now.reference n
        ⊎ ComesBelow D (given cache.old) (content_of right.now.node.now) n) }
    ensures other_faults { IfErr result (λ f. IsOfDevice f ⊎ IsDamage f) }
{
    let mask = reach.mask(right, &entry.bounds);
    if mask == 0 {
        return Ok(());
    }
    let below = Root {
        page: entry.reference as u32,
        level: level - 1,
    };
    let first = open::<D, B, A>(cache, below, &entry.bounds, right.node.level - 1)?;
    let columns = columns_of(&first);
    let mut from = 0;
    'other: while let Some(place) = next_place(mask, from) {
        from = place + 1;
        let other = right.node.entries[place];
        let beside = Root {
            page: other.reference as u32,
            level: right.node.level - 1,
        };
        if first.level == 0 {
            let page = beside.page;
            add_leaf_pairs::<D, B, A, H>(cache, &columns, page, &other.bounds, reach, pairs)?;
            continue;
        }
        let second = open::<D, B, A>(cache, beside, &other.bounds, below.level)?;
        add_pairs::<D, B, A, H>(cache, &first, &second, reach, pairs)?;
    }
    Ok(())
}

// Appends the pairs of an object and those of the right leaf whose boxes are in its reach.
fn push_pairs<const D: usize, H: Allocator>(
    entry: &Entry<D>,
    right: &NodeInColumns<D>,
    reach: Reach,
    pairs: &mut Vec<(u64, u64), H>,
) -> Result<(), Fault>
    ensures pairs { OnOk result (pairs.new.items
        ≡ pairs.old.items ++ pairs_of D reach.limit (map item_of right.now.node.now.entries.items)
        (item_of entry.now)) }
    ensures memory { IfErr result (λ f. f ≡ fault.Memory) }
{
    let mask = reach.mask(right, &entry.bounds);
    let mut from = 0;
    'other: while let Some(place) = next_place(mask, from) {
        from = place + 1;
        let other = right.node.entries[place];
        pairs.push((entry.reference, other.reference))?;
    }
    Ok(())
}
