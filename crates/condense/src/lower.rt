//! The root gives way to its only child.

ghost use Rattle.std.specs.Prelude.{◌≡◌, ◌⊎◌, ◌^◌, ◌-◌, ◌<◌, ◌≤◌, IfErr, IfNone, IfOk, IfSome, Some, length};
ghost use Rattle.std.specs.Prelude.{ℕ, OnOk, false, slice_index_or};
ghost use Rattle.page_file.specs.Fault.{IsDamage, IsOfDevice};
ghost use Rattle.page_file.specs.declared.fault.Fault.TheVariants as fault;
ghost use Rattle.page_cache.specs.Cache.{Grows, IsHonest, IsPageMap, given, pages};
ghost use Rattle.page_cache.specs.Cache.{touched_of};
ghost use Rattle.page_cache.specs.Calls.{Asks, Changes};
ghost use Rattle.tree_node.specs.Nodes.{Item, NodeContent};
ghost use Rattle.tree_node.specs.Trees.{Tree};
ghost use Rattle.node_page.specs.Faults.{NamesInRange};
ghost use Rattle.node_page.specs.Standing.{Stands, node_in};
ghost use Rattle.reinsert.specs.Inserted.{IsRootOf};
ghost use Rattle.condense.specs.Filled.{GivesWayTo};
ghost use Rattle.condense.specs.Removed.{IsRoot};

use block_device::BlockDevice;
use node_page::view_node;
use page_cache::PageCache;
use page_file::Fault;
use std::alloc::Allocator;
use tree_node::Root;

// While the root is no leaf and has one child, its page is freed, and the child is the root. A refusal after
// which no page is touched names the first root's page.
pub(crate) fn give_way<const D: usize, B: BlockDevice, A: Allocator + Copy>(
    cache: &mut PageCache<B, A>,
    root: Root,
) -> Result<Root, Fault>
    requires root { IsRoot root }
    ensures changes { Changes cache.old cache.new result }
    ensures grows { Grows 0 cache.old cache.new }
    ensures root { IfOk result IsRoot }
    ensures lowered { IsPageMap cache.old → (t : Tree) → IsRootOf root t → Stands D (pages cache.old) t
        → IfOk result (λ after. IsPageMap cache.new
        × GivesWayTo D (pages cache.old) (pages cache.new) t after) }
    ensures faults { IsPageMap cache.old → (t : Tree) → IsRootOf root t → Stands D (pages cache.old) t
        → IfErr result IsOfDevice }
    ensures untouched { IsHonest cache.old → touched_of cache.new ≡ false
        → IfErr result (λ f. IsOfDevice f ⊎ (f ≡ fault.Damaged root.page)) }
    ensures number { IsPageMap cache.old → IfErr result NamesInRange }
    ensures other_faults { IfErr result (λ f. IsOfDevice f ⊎ IsDamage f) }
{
    let mut now = root;
    'lowering: while now.level > 0 {
        let Some(below) = only_child::<D, B, A>(cache, now)? else {
            break;
        };
        cache.free(now.page)?;
        now = below;
    }
    Ok(now)
}

// The only child of a node above the leaves, or `None` where it has several.
fn only_child<const D: usize, B: BlockDevice, A: Allocator + Copy>(
    cache: &mut PageCache<B, A>,
    at: Root,
) -> Result<Option<Root>, Fault>
    requires above { 0 < at.level }
    ensures asks { Asks cache.old cache.new result }
    ensures child { IsHonest cache.old → (c : NodeContent) → node_in D (pages cache.old at.page) ≡ Some c
        → IfOk result (λ child. IfSome child (λ below. (length c.entries ≡ 1)
        × ((d : Item) → below.page ≡ (slice_index_or c.entries 0 d).reference))) }
    ensures several { IsHonest cache.old → (c : NodeContent) → node_in D (pages cache.old at.page) ≡ Some c
        → IfOk result (λ child. IfNone child (¬ (length c.entries ≡ 1))) }
    ensures root { IfOk result (λ child. IfSome child (λ below. (below.level ≡ at.level - 1)
        × (3 ≤ below.page) × (below.page < 2 ^ 31))) }
    ensures there { IsHonest cache.old → (c : NodeContent) → node_in D (pages cache.old at.page) ≡ Some c
        → c.level ≡ at.level → IfErr result IsOfDevice }
    ensures given_node { IsHonest cache.old → OnOk result ((c : NodeContent)
        × (node_in D (given cache.old at.page) ≡ Some c)) }
    ensures faults { IsHonest cache.old → IfErr result (λ f. IsOfDevice f ⊎ (f ≡ fault.Damaged at.page)) }
    ensures other_faults { IfErr result (λ f. IsOfDevice f ⊎ IsDamage f) }
{
    let node = view_node::<D, B, A>(cache, at.page, at.level)?;
    if node.len() != 1 {
        return Ok(None);
    }
    Ok(Some(Root {
        page: node.entry(0).reference as u32,
        level: at.level - 1,
    }))
}
