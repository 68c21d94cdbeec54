//! An object that gets another box.

ghost use Rattle.std.specs.Prelude.{◌≡◌, ◌⊎◌, ℕ, Bool, Some, true, IfErr, IsErrOf, OnErr, OnOk};
ghost use Rattle.std.specs.FinMap as map;
ghost use Rattle.box_math.specs.Bounds.{IsDims};
ghost use Rattle.box_math.specs.Objects.{Object, tag_of};
ghost use Rattle.page_file.specs.Fault.{IsDamage, IsOfDevice};
ghost use Rattle.page_file.specs.declared.fault.Fault.TheVariants as fault;
ghost use Rattle.page_cache.specs.Cache.{Grows, IsHonest, IsPageMap, KeepsMap, given, pages};
ghost use Rattle.page_cache.specs.Calls.{Changes};
ghost use Rattle.id_words.specs.Objects.{with_box};
ghost use Rattle.id_tree.specs.Changes.{Sets};
ghost use Rattle.id_tree.specs.Checked.{ComesInTree, IsMet};
ghost use Rattle.id_tree.specs.Rows.{IsLeafPlace};
ghost use Rattle.id_tree.specs.Tidy.{KeepsTidy};
ghost use Rattle.id_tree.specs.Tree.{IdTree, TreeStands, objects_of};

use crate::moving::move_at;
use crate::search::LeafPlace;
use block_device::BlockDevice;
use box_math::BBox;
use page_cache::PageCache;
use page_file::Fault;
use std::alloc::Allocator;

/// Gives the object with that identifier another box, where [`find`](crate::find) found it in the table. Its
/// tag is `tag`, as before. It writes one page, and looks at no other, which no clause says.
///
/// Pages with zeros in all bytes that they do not name stay so.
///
/// With a sound map, where the pages stand for a table at that root, a refusal is `Memory` or `Device`. On
/// other pages of an honest device it may be `Damaged` too, with the number of a page that a walk down the
/// forks comes to. After a refusal the map is as before.
#[tactic(auto, using(page_cache::specs::Calls::turns))]
pub fn update<const D: usize, B: BlockDevice, A: Allocator + Copy>(
    cache: &mut PageCache<B, A>,
    root: u32,
    at: LeafPlace,
    id: u64,
    bounds: &BBox<D>,
    tag: u32,
) -> Result<(), Fault>
    requires dims { IsDims D }
    ensures changes { Changes cache.old cache.new result }
    ensures refused { OnErr result (KeepsMap cache.old cache.new) }
    ensures sound { IsPageMap cache.old → (t : IdTree) → t.page ≡ root → TreeStands D (pages cache.old) t
        → IsLeafPlace t id at.leaf at.place → IsPageMap cache.new }
    ensures tidy { IsPageMap cache.old → (t : IdTree) → t.page ≡ root → TreeStands D (pages cache.old) t
        → IsLeafPlace t id at.leaf at.place → map.contains_key (objects_of t) id ≡ true
        → OnOk result (KeepsTidy D (pages cache.old) (pages cache.new)) }
    ensures updated { IsPageMap cache.old → (t : IdTree) → t.page ≡ root → TreeStands D (pages cache.old) t
        → IsLeafPlace t id at.leaf at.place
        → (kept : Object) → map.get (objects_of t) id ≡ Some kept → tag ≡ tag_of kept
        → OnOk result (Sets D (pages cache.old) (pages cache.new) t id (with_box kept bounds.now)) }
    ensures nowhere { at.leaf ≡ 0 → IsErrOf result (fault.Damaged root) }
    ensures grows { Grows 0 cache.old cache.new }
    ensures faults { IsPageMap cache.old → (t : IdTree) → t.page ≡ root → TreeStands D (pages cache.old) t
        → IsLeafPlace t id at.leaf at.place
        → map.contains_key (objects_of t) id ≡ true → IfErr result IsOfDevice }
    ensures damage { IsHonest cache.old → IsMet D (given cache.old) root at.leaf
        → IfErr result (λ f. (n : ℕ) → f ≡ fault.Damaged n → ComesInTree D (given cache.old) root n) }
    ensures other_faults { IfErr result (λ f. IsOfDevice f ⊎ IsDamage f) }
{
    if at.leaf == 0 {
        return Err(Fault::Damaged(root));
    }
    move_at(cache, at.leaf, at.place, &(id, (*bounds, tag)))
}
