//! Many objects added.

ghost use Rattle.std.specs.Prelude.{◌≡◌, ◌⊎◌, ◌+◌, ◌*◌, ◌%◌, ℕ, false, length, IfErr, IsPermutation, OnOk};
ghost use Rattle.std.specs.FinMap as map;
ghost use Rattle.box_math.specs.Bounds.{IsDims};
ghost use Rattle.page_file.specs.Fault.{IsDamage};
ghost use Rattle.page_file.specs.declared.fault.Fault.TheVariants as fault;
ghost use Rattle.page_cache.specs.Cache.{Grows, IsHonest, IsPageMap, given, pages, touched_of};
ghost use Rattle.page_cache.specs.Calls.{Changes};
ghost use Rattle.node_page.specs.Faults.{IsNoDamage};
ghost use Rattle.std.specs.List.Sorted.{IsNonDecreasingBy};
ghost use Rattle.id_chains.specs.Table.{class_of};
ghost use Rattle.id_words.specs.Damage.{MayBreakAt};
ghost use Rattle.id_words.specs.Objects.{AreNew, pairs_in};
ghost use Rattle.id_table.specs.Changes.{AreInOrder, Fills, KeepsTidy, most_filled_pages};
ghost use Rattle.id_table.specs.Checked.{MeetsInTable};
ghost use Rattle.id_table.specs.Table.{IdTable, IdsStand, kind_of, objects_of, page_of};

use crate::kind::{TableKind, kind_at};
use block_device::BlockDevice;
use node_page::Entry;
use page_cache::PageCache;
use page_file::Fault;
use std::alloc::Allocator;

/// Adds the objects of these entries of leaves to the table that begins at a page, none of which has an
/// identifier that is there or that another of them has. Where they were added, the entries are left in the
/// order that the table takes best: by identifier, or chain after chain.
///
/// With a sound map, where the pages stand for a table there, a refusal is `Memory` or `Device`, or `NoPages`
/// where each page number is live; also after a refusal at most `most_filled_pages` of the objects that are
/// there then more pages are live. On other pages it may be `Damaged` too: where no page was touched, with
/// the number of a page that a walk meets, or at which the chain of free pages breaks.
#[tactic(auto, using(page_cache::specs::Calls::changing))]
pub fn fill<const D: usize, B: BlockDevice, A: Allocator + Copy>(
    cache: &mut PageCache<B, A>,
    page: u32,
    entries: &mut [Entry<D>],
) -> Result<(), Fault>
    requires dims { IsDims D }
    ensures changes { Changes cache.old cache.new result }
    ensures same { IsPermutation entries.old entries.new }
    ensures ordered { IsHonest cache.old → (t : IdTable) → page_of t ≡ page → IdsStand D (pages cache.old) t
        → OnOk result (AreInOrder (kind_of t) (pairs_in entries.new)) }
    ensures sound { IsPageMap cache.old → (t : IdTable) → page_of t ≡ page → IdsStand D (pages cache.old) t
        → AreNew (objects_of t) (pairs_in entries.new) → IsPageMap cache.new }
    ensures filled { IsPageMap cache.old → (t : IdTable) → page_of t ≡ page → IdsStand D (pages cache.old) t
        → AreNew (objects_of t) (pairs_in entries.new)
        → OnOk result (Fills D (pages cache.old) (pages cache.new) t (pairs_in entries.new)) }
    ensures tidy { IsPageMap cache.old → (t : IdTable) → page_of t ≡ page → IdsStand D (pages cache.old) t
        → AreNew (objects_of t) (pairs_in entries.new)
        → OnOk result (KeepsTidy D (kind_of t) (pages cache.old) (pages cache.new)) }
    ensures grows_few { IsPageMap cache.old → (t : IdTable) → page_of t ≡ page →
        IdsStand D (pages cache.old) t → AreNew (objects_of t) (pairs_in entries.new)
        → Grows (most_filled_pages (map.len (objects_of t) + length entries.new)) cache.old cache.new }
    ensures grows { Grows (7 * length entries.new) cache.old cache.new }
    ensures faults { IsPageMap cache.old → (t : IdTable) → page_of t ≡ page → IdsStand D (pages cache.old) t
        → AreNew (objects_of t) (pairs_in entries.new) → IfErr result (IsNoDamage cache.new) }
    ensures damage { IsHonest cache.old → touched_of cache.new ≡ false
        → IfErr result (λ f. (n : ℕ) → f ≡ fault.Damaged n
        → MeetsInTable D (given cache.old) page n ⊎ MayBreakAt cache.old n) }
    ensures other_faults { IfErr result (λ f. IsNoDamage cache.new f ⊎ IsDamage f) }
{
    match kind_at::<D, B, A>(cache, page)? {
        TableKind::Chains => {
            sort_by_chain(entries);
            id_chains::fill(cache, page, entries)
        }
        TableKind::Tree => {
            sort_by_identifier(entries);
            id_tree::fill(cache, page, entries)
        }
    }
}

// Puts the objects of a chain in a row, so that each of its pages is then written once.
fn sort_by_chain<const D: usize>(entries: &mut [Entry<D>])
    ensures same { IsPermutation entries.old entries.new }
    ensures ordered { IsNonDecreasingBy (λ object. class_of object.0) (pairs_in entries.new) }
{
    entries.sort_unstable_by_key(
        |entry| -> u64
            ensures { result ≡ entry.entry.now.reference % 1000 }
        { entry.reference % 1000 },
    );
}

// Puts the objects in the order of identifiers, so that they leave full leaves.
fn sort_by_identifier<const D: usize>(entries: &mut [Entry<D>])
    ensures same { IsPermutation entries.old entries.new }
    ensures ordered { IsNonDecreasingBy (λ object. object.0) (pairs_in entries.new) }
{
    entries.sort_unstable_by_key(
        |entry| -> u64
            ensures { result ≡ entry.entry.now.reference }
        { entry.reference },
    );
}
