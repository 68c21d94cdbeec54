//! Many objects added.

ghost use Rattle.std.specs.Prelude.{◌≡◌, ◌⊎◌, ◌+◌, ◌/◌, ℕ, true, false, length, IfErr, OnOk};
ghost use Rattle.std.specs.List.Sorted.{IsNonDecreasingBy};
ghost use Rattle.box_math.specs.Bounds.{IsDims};
ghost use Rattle.page_file.specs.Fault.{IsDamage};
ghost use Rattle.page_file.specs.declared.fault.Fault.TheVariants as fault;
ghost use Rattle.page_cache.specs.Cache.{Grows, IsHonest, IsPageMap, given, pages, touched_of};
ghost use Rattle.page_cache.specs.Calls.{Changes};
ghost use Rattle.node_page.specs.Faults.{IsNoDamage};
ghost use Rattle.id_words.specs.Objects.{AreNew, pairs_in};
ghost use Rattle.id_chains.specs.Changes.{Fills};
ghost use Rattle.id_chains.specs.Table.{IdChains, IdChainsStand, class_of, objects_of};
ghost use Rattle.id_chains.specs.Tidy.{KeepsTidy};
ghost use Rattle.id_words.specs.Damage.{MayBreakAt};
ghost use Rattle.id_chains.specs.Walks.{BeginsInTable};

use crate::adding::add_run;
use block_device::BlockDevice;
use id_words::first_objects;
use node_page::Entry;
use page_cache::PageCache;
use page_file::Fault;
use std::alloc::Allocator;

/// Adds the objects of entries of leaves to the table, none of which has an identifier that is there or that
/// one before it has. No chain is walked: those of one chain that stand in a row are put into its first page
/// together, as many as it has room for, and then into a new page before it. So in the order of the
/// remainders by 1000 each page of objects is written once.
///
/// It makes at most one page more live for each object, and in that order one for each 100 objects and each
/// remainder, also where it is refused.
///
/// Pages with zeros in all bytes that they do not name stay so, and so is a new one.
///
/// With a sound map, where the pages stand for a table at that directory, a refusal is `Memory` or `Device`,
/// or `NoPages` where each page number is live. On other pages it may be `Damaged` too. On an honest device,
/// where the map is sound or no page is touched, that comes with the number of the directory's page or of the
/// first page of a chain in the table as it stood before, or, where the map is not sound, of a page given out
/// that is not live.
pub fn fill<const D: usize, B: BlockDevice, A: Allocator + Copy>(
    cache: &mut PageCache<B, A>,
    directory: u32,
    entries: &[Entry<D>],
) -> Result<(), Fault>
    requires dims { IsDims D }
    ensures changes { Changes cache.old cache.new result }
    ensures sound { IsPageMap cache.old → (t : IdChains) → t.page ≡ directory
        → IdChainsStand D (pages cache.old) t
        → AreNew (objects_of t) (pairs_in entries.now) → IsPageMap cache.new }
    ensures tidy { IsPageMap cache.old → (t : IdChains) → t.page ≡ directory
        → IdChainsStand D (pages cache.old) t
        → AreNew (objects_of t) (pairs_in entries.now)
        → OnOk result (KeepsTidy D (pages cache.old) (pages cache.new)) }
    ensures filled { IsPageMap cache.old → (t : IdChains) → t.page ≡ directory
        → IdChainsStand D (pages cache.old) t
        → AreNew (objects_of t) (pairs_in entries.now)
        → OnOk result (Fills D (pages cache.old) (pages cache.new) t (pairs_in entries.now)) }
    ensures grows { Grows (length entries.now) cache.old cache.new }
    ensures grows_in_order { IsNonDecreasingBy (λ object. class_of object.0) (pairs_in entries.now)
        → Grows (length entries.now / 100 + 1000) cache.old cache.new }
    ensures faults { IsPageMap cache.old → (t : IdChains) → t.page ≡ directory
        → IdChainsStand D (pages cache.old) t
        → AreNew (objects_of t) (pairs_in entries.now) → IfErr result (IsNoDamage cache.new) }
    ensures damage { IsHonest cache.old → IsPageMap cache.old ⊎ (touched_of cache.new ≡ false)
        → IfErr result (λ f. (n : ℕ) → f ≡ fault.Damaged n
        → BeginsInTable D (given cache.old) directory n ⊎ MayBreakAt cache.old n) }
    ensures other_faults { IfErr result (λ f. IsNoDamage cache.new f ⊎ IsDamage f) }
{
    let mut filled = 0;
    while filled < entries.len() {
        let objects = first_objects(&entries[filled..]);
        filled += add_run(cache, directory, &objects)?;
    }
    Ok(())
}
