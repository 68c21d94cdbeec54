//! Many objects added.

ghost use Rattle.std.specs.Prelude.{◌≡◌, ◌⊎◌, ◌+◌, ◌*◌, ◌/◌, ℕ, false, length, IfErr, IfOk, OnOk, ◌<◌, ◌≤◌};
ghost use Rattle.std.specs.Prelude.{take};
ghost use Rattle.box_math.specs.Bounds.{IsDims};
ghost use Rattle.page_file.specs.Fault.{IsDamage};
ghost use Rattle.page_cache.specs.Cache.{Grows, IsHonest, IsPageMap, given, pages, touched_of};
ghost use Rattle.page_cache.specs.Calls.{Changes};
ghost use Rattle.node_page.specs.Faults.{IsNoDamage};
ghost use Rattle.id_words.specs.Objects.{AreNew, pairs_in};
ghost use Rattle.id_words.specs.Damage.{MayBreakAt};
ghost use Rattle.id_tree.specs.Changes.{Fills, most_added_pages};
ghost use Rattle.id_tree.specs.Checked.{ComesInTree};
ghost use Rattle.id_tree.specs.Tidy.{KeepsTidy};
ghost use Rattle.id_tree.specs.Tree.{IdTree, TreeStands, objects_of};
ghost use Rattle.id_tree.specs.Works.{Works};
ghost use Rattle.std.specs.FinMap as map;
ghost use Rattle.page_file.specs.declared.fault.Fault.TheVariants as fault;

use crate::adding::add_object;
use crate::runs::{count_of_run, push_all, run_from};
use block_device::BlockDevice;
use box_math::BBox;
use id_words::first_objects;
use node_page::Entry;
use page_cache::PageCache;
use page_file::Fault;
use std::alloc::Allocator;

/// Adds the objects of entries of leaves to the table, none of which has an identifier that is there or that
/// one before it has. In the order of their identifiers they leave full leaves, and a run of such objects is
/// put into its leaf with one walk, which no clause says.
///
/// Where the pages stand for a table, it makes at most one page more live for each 28 objects that the table
/// has then, and 14 more.
///
/// Pages with zeros in all bytes that they do not name stay so, and so are new ones.
///
/// With a sound map, where the pages stand for a table at that root, a refusal is `Memory` or `Device`, or
/// `NoPages` where each page number is live. On other pages it may be `Damaged` too. On an honest device,
/// where no page is touched, that comes with the number of a page that a walk down the forks comes to, or,
/// where the map is not sound, of a page given out that is not live.
pub fn fill<const D: usize, B: BlockDevice, A: Allocator + Copy>(
    cache: &mut PageCache<B, A>,
    root: u32,
    entries: &[Entry<D>],
) -> Result<(), Fault>
    requires dims { IsDims D }
    ensures changes { Changes cache.old cache.new result }
    ensures sound { IsPageMap cache.old → (t : IdTree) → t.page ≡ root → TreeStands D (pages cache.old) t
        → AreNew (objects_of t) (pairs_in entries.now) → IsPageMap cache.new }
    ensures tidy { IsPageMap cache.old → (t : IdTree) → t.page ≡ root → TreeStands D (pages cache.old) t
        → AreNew (objects_of t) (pairs_in entries.now)
        → OnOk result (KeepsTidy D (pages cache.old) (pages cache.new)) }
    ensures filled { IsPageMap cache.old → (t : IdTree) → t.page ≡ root → TreeStands D (pages cache.old) t
        → AreNew (objects_of t) (pairs_in entries.now)
        → OnOk result (Fills D (pages cache.old) (pages cache.new) t (pairs_in entries.now)) }
    ensures grows { Grows (most_added_pages * length entries.now) cache.old cache.new }
    ensures grows_few { IsPageMap cache.old → (t : IdTree) → t.page ≡ root → TreeStands D (pages cache.old) t
        → AreNew (objects_of t) (pairs_in entries.now)
        → Grows ((map.len (objects_of t) + length entries.now) / 28 + 14) cache.old cache.new }
    ensures faults { IsPageMap cache.old → (t : IdTree) → t.page ≡ root → TreeStands D (pages cache.old) t
        → AreNew (objects_of t) (pairs_in entries.now) → IfErr result (IsNoDamage cache.new) }
    ensures damage { IsHonest cache.old → touched_of cache.new ≡ false
        → IfErr result (λ f. (n : ℕ) → f ≡ fault.Damaged n
        → ComesInTree D (given cache.old) root n ⊎ MayBreakAt cache.old n) }
    ensures other_faults { IfErr result (λ f. IsNoDamage cache.new f ⊎ IsDamage f) }
{
    let mut filled = 0;
    while filled < entries.len() {
        let objects = first_objects(&entries[filled..]);
        filled += fill_run::<D, B, A>(cache, root, &objects)?;
    }
    Ok(())
}

// Adds the first of the objects, and those behind it that come into the same leaf as far as that one has
// room. Says how many it added.
fn fill_run<const D: usize, B: BlockDevice, A: Allocator + Copy>(
    cache: &mut PageCache<B, A>,
    root: u32,
    objects: &[(u64, (BBox<D>, u32))],
) -> Result<usize, Fault>
    requires dims { IsDims D }
    requires some { 0 < length objects.now }
    ensures changes { Changes cache.old cache.new result }
    ensures some { IfOk result (λ count. 0 < count) }
    ensures within { IfOk result (λ count. count ≤ length objects.now) }
    ensures fills { IsPageMap cache.old → (t : IdTree) → t.page ≡ root → TreeStands D (pages cache.old) t
        → AreNew (objects_of t) objects.now → Works D cache.old cache.new result
        (λ count. Fills D (pages cache.old) (pages cache.new) t (take count objects.now))
        (IsNoDamage cache.new) }
    ensures grows { Grows most_added_pages cache.old cache.new }
    ensures damage { IsHonest cache.old → touched_of cache.new ≡ false
        → IfErr result (λ f. (n : ℕ) → f ≡ fault.Damaged n
        → ComesInTree D (given cache.old) root n ⊎ MayBreakAt cache.old n) }
    ensures other_faults { IfErr result (λ f. IsNoDamage cache.new f ⊎ IsDamage f) }
{
    let first = objects[0].0;
    let run = run_from::<D, B, A>(cache, root, first)?;
    let count = count_of_run(objects, first, run.upto, run.room);
    if count == 0 {
        add_object::<D, B, A>(cache, root, &objects[0])?;
        return Ok(1);
    }
    push_all::<D, B, A>(cache, run.leaf, &objects[..count])?;
    Ok(count)
}
