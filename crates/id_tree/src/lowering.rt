//! The root on a lower level.

ghost use Rattle.std.specs.Prelude.{◌≡◌, ◌⊎◌, IfErr, ℕ, Some};
ghost use Rattle.page_file.specs.Fault.{IsDamage, IsOfDevice};
ghost use Rattle.page_cache.specs.Cache.{Grows, IsPageMap, pages};
ghost use Rattle.page_cache.specs.Calls.{Changes};
ghost use Rattle.id_tree.specs.Joining.{Lifts, Lowers, MayFree, MayLower};
ghost use Rattle.id_tree.specs.Tree.{Row, fork_in};
ghost use Rattle.id_page.specs.Fork.{ForkContent};
ghost use Rattle.id_tree.specs.Works.{Works};

use crate::looks::{copy_page, step};
use crate::pairs::put_and_free;
use block_device::BlockDevice;
use page_cache::PageCache;
use page_file::Fault;
use std::alloc::Allocator;

// Makes the root of that level one of two children or of level 1: its only child comes into its page as long
// as it has one above others.
pub(crate) fn lower<const D: usize, B: BlockDevice, A: Allocator + Copy>(
    cache: &mut PageCache<B, A>,
    root: u32,
    level: u8,
) -> Result<(), Fault>
    ensures changes { Changes cache.old cache.new result }
    ensures lowers { IsPageMap cache.old → (row : Row) → MayLower D (pages cache.old) root level row
        → Works D cache.old cache.new result
        (λ u. Lowers D (pages cache.old) (pages cache.new) root level row) IsOfDevice }
    ensures grows { Grows 0 cache.old cache.new }
    ensures other_faults { IfErr result (λ f. IsOfDevice f ⊎ IsDamage f) }
{
    if level <= 1 {
        return Ok(());
    }
    let way = step::<D, B, A>(cache, root, 0)?;
    if way.count != 1 {
        return Ok(());
    }
    let Some(child) = way.child else {
        return Err(Fault::Damaged(root));
    };
    lift(cache, root, child)?;
    lower::<D, B, A>(cache, root, level - 1)
}

// Puts the bytes of a child into its root, and frees it.
#[tactic(auto, using(page_cache::specs::Calls::changing))]
fn lift<B: BlockDevice, A: Allocator + Copy>(
    cache: &mut PageCache<B, A>,
    root: u32,
    child: u32,
) -> Result<(), Fault>
    ensures changes { Changes cache.old cache.new result }
    ensures lifts { IsPageMap cache.old → MayFree (pages cache.old) root child → (dims : ℕ) (c : ForkContent)
        → fork_in dims (pages cache.old child) ≡ Some c
        → Works dims cache.old cache.new result
        (λ u. Lifts (pages cache.old) (pages cache.new) root child) IsOfDevice }
    ensures grows { Grows 0 cache.old cache.new }
    ensures other_faults { IfErr result (λ f. IsOfDevice f ⊎ IsDamage f) }
{
    let bytes = copy_page(cache, child)?;
    put_and_free(cache, root, child, &bytes)
}
