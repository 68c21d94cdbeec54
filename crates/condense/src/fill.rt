//! What a removal has kept, inserted again.

ghost use Rattle.std.specs.Prelude.{◌≡◌, ◌*◌, ℕ, List, [], None, Ok, IfOk, IfErr};
ghost use Rattle.std.specs.Prelude.{OnOk};
ghost use Rattle.arrayvec.specs.ArrayVec.{array_vec_len};
ghost use Rattle.page_file.specs.declared.fault.Fault.TheVariants as fault;
ghost use Rattle.page_cache.specs.Cache.{Grows, IsPageMap, pages};
ghost use Rattle.page_cache.specs.Calls.{AsksUntil, Changes};
ghost use Rattle.tree_node.specs.Rows.{Waiter};
ghost use Rattle.tree_node.specs.Trees.{Tree};
ghost use Rattle.node_page.specs.Faults.{IsChangeFault, IsNoDamage, NamesInRange};
ghost use Rattle.reinsert.specs.Inserted.{most_new_pages};
ghost use Rattle.condense.specs.Filled.{CanFill, CanFillShaped, FillsTo};
ghost use Rattle.condense.specs.Removed.{IsRoot};
ghost use Rattle.condense.specs.Taken.{held_now};

use crate::kept::Orphans;
use block_device::BlockDevice;
use page_cache::PageCache;
use page_file::Fault;
use reinsert::{Waiting, insert_with};
use std::alloc::Allocator;
use tree_node::{Fanout, Root};

// Inserts what is kept, each entry on its own level.
pub(crate) fn insert_kept<const D: usize, B: BlockDevice, A: Allocator + Copy>(
    cache: &mut PageCache<B, A>,
    root: Root,
    fanout: Fanout,
    waiting: &mut Waiting<D>,
    kept: &mut Orphans<D>,
) -> Result<Root, Fault>
    requires root { IsRoot root }
    ensures changes { Changes cache.old cache.new result }
    ensures grows { Grows (most_new_pages * array_vec_len kept.old.list) cache.old cache.new }
    ensures root { IfOk result IsRoot }
    ensures none { kept.old.list.items ≡ [] → (result ≡ Ok root) × AsksUntil cache.old cache.new None }
    ensures filled { IsPageMap cache.old → (t : Tree) (ws : List Waiter) (elsewhere : ℕ → ℕ)
        → CanFill D (pages cache.old) root t ws elsewhere (held_now kept.old)
        → IfOk result (λ after. IsPageMap cache.new
        × FillsTo D fanout.most (pages cache.old) (pages cache.new) t ws elsewhere after) }
    ensures faults { IsPageMap cache.old → (t : Tree) (ws : List Waiter) (elsewhere : ℕ → ℕ)
        → CanFill D (pages cache.old) root t ws elsewhere (held_now kept.old) → CanFillShaped D fanout.most t
        ws
        → IfErr result (IsNoDamage cache.new) }
    ensures sound { IsPageMap cache.old → OnOk result (IsPageMap cache.new) }
    ensures number { IsPageMap cache.old → IfErr result NamesInRange }
    ensures other_faults { IfErr result (IsChangeFault cache.new) }
{
    let mut now = root;
    'inserting: while let Some(orphan) = kept.next() {
        if orphan.level > now.level {
            return Err(Fault::Damaged(now.page));
        }
        now = insert_with(cache, now, &orphan.entry, orphan.level, fanout, waiting)?;
    }
    Ok(now)
}
