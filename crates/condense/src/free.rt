//! A tree freed.

ghost use Rattle.std.specs.Prelude.{◌≡◌, ◌⊎◌, ◌≤◌, ◌+◌, ℕ, Some, false, OnOk, IfErr};
ghost use Rattle.box_math.specs.Bounds.{IsDims};
ghost use Rattle.page_file.specs.Fault.{IsDamage, IsOfDevice};
ghost use Rattle.page_file.specs.declared.fault.Fault.TheVariants as fault;
ghost use Rattle.page_cache.specs.Cache.{Grows, IsHonest, IsPageMap, given, pages, touched_of};
ghost use Rattle.page_cache.specs.Calls.{Changes};
ghost use Rattle.tree_node.specs.Trees.{Tree, occurs_in};
ghost use Rattle.node_page.specs.Checked.{ComesTo};
ghost use Rattle.node_page.specs.Parts.{Moves, no_page};
ghost use Rattle.node_page.specs.Standing.{Stands};
ghost use Rattle.reinsert.specs.Inserted.{IsRootOf};
ghost use Rattle.condense.specs.Spelled.{AddsNoNode, KeepsNodes};

use crate::children::{child_count, child_of};
use block_device::BlockDevice;
use node_page::read_node;
use page_cache::PageCache;
use page_file::Fault;
use std::alloc::Allocator;
use tree_node::Root;

/// Frees all pages of the tree at that root.
///
/// Where the pages are a sound map, and stand for a tree there, none of the tree's pages is live after `Ok`,
/// and all others are as before. A refusal is of memory or of the device then, and the map stays sound. One
/// after which the cache is not touched (`is_touched`) came before the first page was freed, and leaves the
/// map. Also after a refusal no more pages are live than before.
///
/// In other pages one may also be damaged. Where the map is sound, or no page is touched, `Damaged` names a
/// page that a walk down the nodes, as they were before the first page was freed, comes to. In a sound map
/// that stays sound after `Ok`, nodes only went, and of those above the root's level none.
pub fn free_tree<const D: usize, B: BlockDevice, A: Allocator + Copy>(
    cache: &mut PageCache<B, A>,
    root: Root,
) -> Result<(), Fault>
    requires dims { IsDims D }
    ensures changes { Changes cache.old cache.new result }
    ensures grows { Grows 0 cache.old cache.new }
    ensures freed { IsPageMap cache.old → (t : Tree) → IsRootOf root t → Stands D (pages cache.old) t
        → OnOk result (Moves (pages cache.old) (pages cache.new) (λ n. occurs_in n t) no_page) }
    ensures sound { IsPageMap cache.old → (t : Tree) → IsRootOf root t → Stands D (pages cache.old) t
        → IsPageMap cache.new }
    ensures faults { IsPageMap cache.old → (t : Tree) → IsRootOf root t → Stands D (pages cache.old) t
        → 3 ≤ root.page → IfErr result IsOfDevice }
    ensures nodes { IsPageMap cache.old → OnOk result (IsPageMap cache.new
        × AddsNoNode D (pages cache.old) (pages cache.new)
        × KeepsNodes D (root.level + 1) (pages cache.old) (pages cache.new)) }
    ensures damage { IsHonest cache.old → IsPageMap cache.old ⊎ (touched_of cache.new ≡ false)
        → IfErr result (λ f. (n : ℕ) → f ≡ fault.Damaged n → ComesTo D (given cache.old) root.page n) }
    ensures other_faults { IfErr result (λ f. IsOfDevice f ⊎ IsDamage f) }
{
    let node = read_node::<D, B, A>(cache, root.page, root.level)?;
    'children: for at in 0..child_count(&node) {
        let below = child_of(&node, at);
        free_tree::<D, B, A>(cache, below)?;
    }
    cache.free(root.page)
}
