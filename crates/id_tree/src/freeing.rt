//! Tables given up.

ghost use Rattle.std.specs.Prelude.{◌≡◌, ◌⊎◌, ℕ, Bool, false, IfErr, OnOk};
ghost use Rattle.page_file.specs.Fault.{IsDamage, IsOfDevice};
ghost use Rattle.page_cache.specs.Cache.{Grows, IsHonest, IsPageMap, given, next_of, pages, touched_of};
ghost use Rattle.page_cache.specs.Calls.{Changes};
ghost use Rattle.node_page.specs.Parts.{Moves, no_page};
ghost use Rattle.id_tree.specs.Checked.{ComesInTree};
ghost use Rattle.id_tree.specs.Rows.{NodeStands, part_at};
ghost use Rattle.id_tree.specs.Tree.{IdTree, Row, TreeStands, part_of};
ghost use Rattle.id_tree.specs.Freeing.{Frees};
ghost use Rattle.page_file.specs.declared.fault.Fault.TheVariants as fault;

use crate::looks::{copy_page, step};
use block_device::BlockDevice;
use id_page::{count_at, has_fork_head, page_at};
use page_cache::PageCache;
use page_file::Fault;
use std::alloc::Allocator;

/// Frees all pages of the table.
///
/// With a sound map, where the pages stand for a table at that root, a refusal is `Memory` or `Device`. On
/// other pages it may be `Damaged` too. On an honest device, where no page is touched, that comes with the
/// number of a page that a walk down the forks comes to.
#[tactic(auto, using(page_cache::specs::Calls::changing))]
pub fn free_all<const D: usize, B: BlockDevice, A: Allocator + Copy>(
    cache: &mut PageCache<B, A>,
    root: u32,
) -> Result<(), Fault>
    ensures changes { Changes cache.old cache.new result }
    ensures sound { IsPageMap cache.old → (t : IdTree) → t.page ≡ root → TreeStands D (pages cache.old) t
        → IsPageMap cache.new }
    ensures freed { IsPageMap cache.old → (t : IdTree) → t.page ≡ root → TreeStands D (pages cache.old) t
        → OnOk result (Moves (pages cache.old) (pages cache.new) (part_of t) no_page) }
    ensures next { next_of cache.new ≡ next_of cache.old }
    ensures grows { Grows 0 cache.old cache.new }
    ensures faults { IsPageMap cache.old → (t : IdTree) → t.page ≡ root → TreeStands D (pages cache.old) t
        → IfErr result IsOfDevice }
    ensures damage { IsHonest cache.old → touched_of cache.new ≡ false
        → IfErr result (λ f. (n : ℕ) → f ≡ fault.Damaged n → ComesInTree D (given cache.old) root n) }
    ensures other_faults { IfErr result (λ f. IsOfDevice f ⊎ IsDamage f) }
{
    let way = step::<D, B, A>(cache, root, 0)?;
    free_node::<D, B, A>(cache, root, way.level)
}

// Frees the node of that level at a page, and all below it.
#[tactic(auto, using(page_cache::specs::Calls::turns))]
fn free_node<const D: usize, B: BlockDevice, A: Allocator + Copy>(
    cache: &mut PageCache<B, A>,
    page: u32,
    level: u8,
) -> Result<(), Fault>
    ensures changes { Changes cache.old cache.new result }
    ensures frees { IsPageMap cache.old → (edge : Bool) (row : Row)
        → NodeStands D (pages cache.old) page level edge row
        → Frees cache.old cache.new result (part_at page row) }
    ensures next { next_of cache.new ≡ next_of cache.old }
    ensures grows { Grows 0 cache.old cache.new }
    ensures damage { IsHonest cache.old → touched_of cache.new ≡ false
        → IfErr result (λ f. (n : ℕ) → f ≡ fault.Damaged n → ComesInTree D (given cache.old) page n) }
    ensures other_faults { IfErr result (λ f. IsOfDevice f ⊎ IsDamage f) }
{
    if level == 0 {
        return cache.free(page);
    }
    let bytes = copy_page(cache, page)?;
    if !has_fork_head::<D>(&bytes) {
        return Err(Fault::Damaged(page));
    }
    for place in 0..count_at(&bytes) {
        free_node::<D, B, A>(cache, page_at(&bytes, place), level - 1)?;
    }
    cache.free(page)
}
