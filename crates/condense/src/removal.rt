//! A lawful removal: the object leaves, what is kept comes back, and the root gives way.

ghost use Rattle.std.specs.Prelude.{◌≡◌, ◌⊎◌, ◌*◌, ◌<◌, ◌≤◌, List, [], ℕ, IfOk, IfErr, OnOk, Some};
ghost use Rattle.std.specs.Prelude.{true, false};
ghost use Rattle.arrayvec.specs.ArrayVec.{array_vec_len};
ghost use Rattle.box_math.specs.Bounds.{IsDims};
ghost use Rattle.box_math.specs.Objects.{Object};
ghost use Rattle.page_file.specs.Fault.{IsDamage, IsOfDevice};
ghost use Rattle.page_file.specs.Pages.{SameBut};
ghost use Rattle.page_file.specs.declared.fault.Fault.TheVariants as fault;
ghost use Rattle.page_cache.specs.Cache.{Grows, IsHonest, IsLive, IsPageMap, pages, touched_of};
ghost use Rattle.page_cache.specs.Calls.{Changes};
ghost use Rattle.tree_node.specs.Boxes.{RowHasBoxes};
ghost use Rattle.tree_node.specs.Nodes.{Item, content_of};
ghost use Rattle.tree_node.specs.Shape.{HasShape};
ghost use Rattle.tree_node.specs.Trees.{Tree};
ghost use Rattle.node_page.specs.Standing.{PageMap, node_in};
ghost use Rattle.node_page.specs.Faults.{IsChangeFault, IsNoDamage, NamesInRange};
ghost use Rattle.reinsert.specs.Inserted.{most_new_pages};
ghost use Rattle.condense.specs.Becoming.{IsSettledAs};
ghost use Rattle.condense.specs.Removed.{IsRoot, RemovesTo, TookOut};
ghost use Rattle.condense.specs.Steps.{Removes};
ghost use Rattle.condense.specs.Taken.{IsCut, held_now};

use crate::fill::insert_kept;
use crate::hand::InHand;
use crate::kept::{Kept, Orphans};
use crate::lower::give_way;
use crate::take::take_out;
use block_device::BlockDevice;
use node_page::write_node;
use page_cache::PageCache;
use page_file::Fault;
use reinsert::Waiting;
use std::alloc::Allocator;
use tree_node::{Entry, Fanout, Node, Root};

/// Removes the object of that identifier, which is the entry's reference, box and tag from the tree at that
/// root (docs/RULES.md).
///
/// Where the map is sound and the pages stand for a tree at the root, they stand after `Ok` for a tree that a
/// lawful removal leads to. Pages outside of these trees stay, those that came in were not live, and those
/// that went are no longer live. A tree that has its shape keeps it, and has its objects but for the one.
///
/// A refusal after which the cache is not touched (`is_touched`) leaves the map as it was; the room of what
/// is kept and of what waits is taken before the first write. Where the tree has its shape and the object, a
/// refusal is of memory or of the device, or each page number is live (`NoPages`). Where no leaf has the
/// object, no page is touched, and that is `Damaged` with the root's page, unless memory or the device
/// refused before. Also after a refusal, at most `most_removal_pages` more pages are live.
///
/// Whatever nodes the pages are, where the map is sound `Damaged` names a page from 3 to 2^31 - 1. Where the
/// cache is not touched after it, that is one that a walk down the nodes comes to; else it may be that of a
/// node that came meanwhile.
pub fn remove<const D: usize, B: BlockDevice, A: Allocator + Copy>(
    alloc: A,
    cache: &mut PageCache<B, A>,
    root: Root,
    object: &Entry<D>,
    fanout: Fanout,
) -> Result<Root, Fault>
    requires dims { IsDims D }
    requires root { IsRoot root }
    ensures { Removes D fanout.most root object.now.reference (object.now.bounds, object.now.tag)
        cache.old cache.new result }
{
    let mut kept = Kept::make(alloc)?;
    remove_with(cache, root, object, fanout, &mut kept)
}

/// Removes an object as `remove` does. The `Kept` serves again afterwards, also after a refusal. No allocator
/// is given: only the cache asks for memory, however often the root rises while what is kept comes back.
pub fn remove_with<const D: usize, B: BlockDevice, A: Allocator + Copy>(
    cache: &mut PageCache<B, A>,
    root: Root,
    object: &Entry<D>,
    fanout: Fanout,
    kept: &mut Kept<D>,
) -> Result<Root, Fault>
    requires root { IsRoot root }
    ensures { Removes D fanout.most root object.now.reference (object.now.bounds, object.now.tag)
        cache.old cache.new result }
{
    let waiting = &mut kept.waiting;
    let orphans = &mut kept.orphans;
    let hand = &mut kept.hand;
    orphans.begin();
    let Some(became) = take_out(cache, root, object, fanout, orphans, &mut hand.node)? else {
        return Err(Fault::Damaged(root.page));
    };
    hand.settled = became.is_written();
    put_root(cache, root, hand, fanout, waiting, orphans)
}

// Writes what the root has become, where it is not settled, inserts what is kept, and lets the root give way.
fn put_root<const D: usize, B: BlockDevice, A: Allocator + Copy>(
    cache: &mut PageCache<B, A>,
    root: Root,
    hand: &InHand<D>,
    fanout: Fanout,
    waiting: &mut Waiting<D>,
    kept: &mut Orphans<D>,
) -> Result<Root, Fault>
    requires root { IsRoot root }
    requires cut { hand.now.settled ≡ false → IsCut root.level (content_of hand.now.node) }
    ensures changes { Changes cache.old cache.new result }
    ensures grows { Grows (most_new_pages * array_vec_len kept.old.list) cache.old cache.new }
    ensures root { IfOk result IsRoot }
    ensures removed { IsPageMap cache.old → IsLive cache.old root.page → (m m1 : PageMap) (t : Tree)
        (elsewhere : ℕ → ℕ) (id : ℕ) (removed : Object) (items : List Item)
        → TookOut D fanout.most m m1 root t elsewhere id removed (held_now kept.old) items
        → SameBut root.page m1 (pages cache.old) → IsSettledAs D root (pages cache.old) items hand.now
        → IfOk result (λ after. IsPageMap cache.new
        × RemovesTo D fanout.most m (pages cache.new) elsewhere id removed t after) }
    ensures faults { IsPageMap cache.old → IsLive cache.old root.page → (m m1 : PageMap) (t : Tree)
        (elsewhere : ℕ → ℕ) (id : ℕ) (removed : Object) (items : List Item)
        → TookOut D fanout.most m m1 root t elsewhere id removed (held_now kept.old) items
        → SameBut root.page m1 (pages cache.old) → IsSettledAs D root (pages cache.old) items hand.now
        → HasShape D fanout.most t → RowHasBoxes D t.row
        → IfErr result (IsNoDamage cache.new) }
    ensures damage { IsPageMap cache.old → IsLive cache.old root.page
        → (kept.old.list.items ≡ []) ⊎ (touched_of cache.old ≡ true) → touched_of cache.new ≡ false
        → IfErr result (λ f. IsOfDevice f ⊎ (f ≡ fault.Damaged root.page)) }
    ensures number { IsPageMap cache.old → IsLive cache.old root.page → IfErr result NamesInRange }
    ensures other_faults { IfErr result (IsChangeFault cache.new) }
{
    write_root(cache, root, hand)?;
    let filled = insert_kept(cache, root, fanout, waiting, kept)?;
    give_way::<D, B, A>(cache, filled)
}

// Writes the root where its page does not have what it has become. One that no page can spell is refused.
#[tactic(auto, using(page_cache::specs::Calls::turns))]
fn write_root<const D: usize, B: BlockDevice, A: Allocator + Copy>(
    cache: &mut PageCache<B, A>,
    root: Root,
    hand: &InHand<D>,
) -> Result<(), Fault>
    requires cut { hand.now.settled ≡ false → IsCut root.level (content_of hand.now.node) }
    ensures changes { Changes cache.old cache.new result }
    ensures grows { Grows 0 cache.old cache.new }
    ensures written { IsPageMap cache.old → IsLive cache.old root.page → hand.now.settled ≡ false
        → OnOk result (node_in D (pages cache.new root.page) ≡ Some (content_of hand.now.node)) }
    ensures stays { IsHonest cache.old → hand.now.settled ≡ true
        → pages cache.new root.page ≡ pages cache.old root.page }
    ensures others { IsHonest cache.old → IsLive cache.old root.page →
        SameBut root.page (pages cache.old) (pages cache.new) }
    ensures sound { IsPageMap cache.old → IsLive cache.old root.page → IsPageMap cache.new }
    ensures faults { IsHonest cache.old → IsLive cache.old root.page
        → (hand.now.settled ≡ false → 0 < root.level → 1 ≤ array_vec_len hand.now.node.entries)
        → IfErr result IsOfDevice }
    ensures named { IsHonest cache.old → IsLive cache.old root.page
        → IfErr result (λ f. IsOfDevice f ⊎ (f ≡ fault.Damaged root.page)) }
    ensures other_faults { IfErr result (λ f. IsOfDevice f ⊎ IsDamage f) }
{
    if hand.settled {
        return Ok(());
    }
    if lacks_entries(&hand.node) {
        return Err(Fault::Damaged(root.page));
    }
    write_node(cache, root.page, &hand.node)
}

// Whether the node is none that a page can spell: above the leaves, and without an entry.
fn lacks_entries<const D: usize>(node: &Node<D>) -> bool
    ensures yes { result ≡ true → (0 < node.now.level) × (array_vec_len node.now.entries ≡ 0) }
    ensures no { result ≡ false → 0 < node.now.level → 1 ≤ array_vec_len node.now.entries }
{
    node.level > 0 && node.entries.is_empty()
}
