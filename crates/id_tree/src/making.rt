//! Tables made.

ghost use Rattle.std.specs.Prelude.{◌≡◌, ◌≤◌, ◌<◌, ◌⊎◌, ℕ, IfOk, IfErr, OnOk};
ghost use Rattle.box_math.specs.Bounds.{IsDims};
ghost use Rattle.page_file.specs.Fault.{IsDamage};
ghost use Rattle.page_file.specs.declared.fault.Fault.TheVariants as fault;
ghost use Rattle.page_cache.specs.Cache.{BreaksAt, Grows, IsHonest, IsPageMap, next_of, pages};
ghost use Rattle.page_cache.specs.Calls.{Changes};
ghost use Rattle.node_page.specs.Faults.{IsNoDamage};
ghost use Rattle.id_tree.specs.Changes.{Makes};
ghost use Rattle.id_tree.specs.Tidy.{KeepsTidy};

use crate::giving::give_page;
use crate::rooting::no_child;
use block_device::BlockDevice;
use page_cache::PageCache;
use page_file::Fault;
use std::alloc::Allocator;

/// Makes a table of no objects, and answers the page of its root.
///
/// The new page has zeros in all bytes that it does not name.
///
/// With a sound map a refusal is `Memory` or `Device`, or `NoPages` where each page number is live. On an
/// honest device it may be `Damaged` too, with the number of the page at which the chain of free pages
/// breaks.
pub fn make<const D: usize, B: BlockDevice, A: Allocator + Copy>(
    cache: &mut PageCache<B, A>,
) -> Result<u32, Fault>
    requires dims { IsDims D }
    ensures changes { Changes cache.old cache.new result }
    ensures sound { IsPageMap cache.old → IsPageMap cache.new }
    ensures tidy { IsPageMap cache.old → OnOk result (KeepsTidy D (pages cache.old) (pages cache.new)) }
    ensures made { IsPageMap cache.old
        → IfOk result (λ root. Makes D (pages cache.old) (pages cache.new) root) }
    ensures number { IfOk result (λ root. (3 ≤ root) × (root < next_of cache.new)) }
    ensures grows { Grows 1 cache.old cache.new }
    ensures faults { IsPageMap cache.old → IfErr result (IsNoDamage cache.new) }
    ensures damage { IsHonest cache.old → IfErr result (λ f. (n : ℕ) → f ≡ fault.Damaged n
        → BreaksAt cache.old n) }
    ensures other_faults { IfErr result (λ f. IsNoDamage cache.new f ⊎ IsDamage f) }
{
    give_page(cache, &no_child::<D>())
}
