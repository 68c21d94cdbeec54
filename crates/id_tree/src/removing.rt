//! An object removed.

ghost use Rattle.std.specs.Prelude.{◌≡◌, ◌≤◌, ◌⊎◌, ℕ, true, false, length, IfErr, OnOk};
ghost use Rattle.box_math.specs.Bounds.{IsDims};
ghost use Rattle.page_file.specs.Fault.{IsDamage, IsOfDevice};
ghost use Rattle.page_cache.specs.Cache.{Grows, IsHonest, IsPageMap, given, pages, touched_of};
ghost use Rattle.page_cache.specs.Calls.{Changes};
ghost use Rattle.id_tree.specs.Changes.{Removes};
ghost use Rattle.id_tree.specs.Checked.{ComesInTree, IsMet};
ghost use Rattle.id_tree.specs.Joining.{Has, IsAmong, IsOnly, MayShrink};
ghost use Rattle.id_tree.specs.Rows.{IsLeafPlace};
ghost use Rattle.id_tree.specs.Steps.{Becomes};
ghost use Rattle.id_tree.specs.Steps.Step.{drops};
ghost use Rattle.id_tree.specs.Tidy.{KeepsTidy};
ghost use Rattle.id_tree.specs.Tree.{IdTree, Row, TreeStands, objects_in, objects_of};
ghost use Rattle.id_tree.specs.Works.{Works};
ghost use Rattle.std.specs.FinMap as map;
ghost use Rattle.page_file.specs.declared.fault.Fault.TheVariants as fault;

use crate::below::look_below;
use crate::joining::{is_ample, join};
use crate::looks::{count_in, look, step};
use crate::lowering::lower;
use crate::moving::take_at;
use crate::pairs::put_and_free;
use crate::rooting::no_child;
use crate::search::LeafPlace;
use block_device::BlockDevice;
use page_cache::PageCache;
use page_file::Fault;
use std::alloc::Allocator;

/// Removes the object with that identifier, where [`find`](crate::find) found it in the table: the last
/// object of its leaf fills the place.
///
/// A leaf with two fifths of what fits, or more, is all that it looks at, which no clause says. Where the
/// leaf has less, it walks down from the root: each child with less than two fifths of what fits is joined
/// with the one next to it, and what does not fit into one page then is cut in two in the middle. A root that
/// keeps one child above others takes its place.
///
/// Pages with zeros in all bytes that they do not name stay so.
///
/// With a sound map, where the pages stand for a table at that root, a refusal is `Memory` or `Device`. On
/// other pages it may be `Damaged` too. On an honest device, where no page is touched, that comes with the
/// number of a page that a walk down the forks comes to.
pub fn remove<const D: usize, B: BlockDevice, A: Allocator + Copy>(
    cache: &mut PageCache<B, A>,
    root: u32,
    at: LeafPlace,
    id: u64,
) -> Result<(), Fault>
    requires dims { IsDims D }
    ensures changes { Changes cache.old cache.new result }
    ensures sound { IsPageMap cache.old → (t : IdTree) → t.page ≡ root → TreeStands D (pages cache.old) t
        → IsLeafPlace t id at.leaf at.place → IsPageMap cache.new }
    ensures tidy { IsPageMap cache.old → (t : IdTree) → t.page ≡ root → TreeStands D (pages cache.old) t
        → IsLeafPlace t id at.leaf at.place → map.contains_key (objects_of t) id ≡ true
        → OnOk result (KeepsTidy D (pages cache.old) (pages cache.new)) }
    ensures removed { IsPageMap cache.old → (t : IdTree) → t.page ≡ root → TreeStands D (pages cache.old) t
        → IsLeafPlace t id at.leaf at.place → map.contains_key (objects_of t) id ≡ true
        → OnOk result (Removes D (pages cache.old) (pages cache.new) t id) }
    ensures grows { Grows 0 cache.old cache.new }
    ensures faults { IsPageMap cache.old → (t : IdTree) → t.page ≡ root → TreeStands D (pages cache.old) t
        → IsLeafPlace t id at.leaf at.place
        → map.contains_key (objects_of t) id ≡ true → IfErr result IsOfDevice }
    ensures damage { IsHonest cache.old → IsMet D (given cache.old) root at.leaf
        → touched_of cache.new ≡ false
        → IfErr result (λ f. (n : ℕ) → f ≡ fault.Damaged n → ComesInTree D (given cache.old) root n) }
    ensures other_faults { IfErr result (λ f. IsOfDevice f ⊎ IsDamage f) }
{
    if at.leaf == 0 {
        return remove_from_root::<D, B, A>(cache, root, id);
    }
    if is_ample::<D, B, A>(cache, at.leaf, 0)? {
        return take_at::<D, B, A>(cache, at.leaf, at.place);
    }
    remove_from_root::<D, B, A>(cache, root, id)
}

// Removes an object from the table by a walk down from the root. A table without it is `Damaged`.
fn remove_from_root<const D: usize, B: BlockDevice, A: Allocator + Copy>(
    cache: &mut PageCache<B, A>,
    root: u32,
    id: u64,
) -> Result<(), Fault>
    requires dims { IsDims D }
    ensures changes { Changes cache.old cache.new result }
    ensures removes { IsPageMap cache.old → (t : IdTree) → t.page ≡ root → TreeStands D (pages cache.old) t
        → Works D cache.old cache.new result
        (λ u. Removes D (pages cache.old) (pages cache.new) t id) (λ f. Has id t.row → IsOfDevice f) }
    ensures grows { Grows 0 cache.old cache.new }
    ensures damage { IsHonest cache.old → touched_of cache.new ≡ false
        → IfErr result (λ f. (n : ℕ) → f ≡ fault.Damaged n → ComesInTree D (given cache.old) root n) }
    ensures other_faults { IfErr result (λ f. IsOfDevice f ⊎ IsDamage f) }
{
    let way = step::<D, B, A>(cache, root, id)?;
    if way.count > 1 {
        return remove_among::<D, B, A>(cache, root, way.level, id);
    }
    if way.level != 1 {
        return Err(Fault::Damaged(root));
    }
    let Some(leaf) = way.child else {
        return Err(Fault::Damaged(root));
    };
    remove_only::<D, B, A>(cache, root, leaf, id)
}

// Removes an object from the table whose root, of that level, has two children or more.
#[tactic(auto, using(page_cache::specs::Calls::changing))]
fn remove_among<const D: usize, B: BlockDevice, A: Allocator + Copy>(
    cache: &mut PageCache<B, A>,
    root: u32,
    level: u8,
    id: u64,
) -> Result<(), Fault>
    requires dims { IsDims D }
    ensures changes { Changes cache.old cache.new result }
    ensures removes { IsPageMap cache.old → (t : IdTree) → t.page ≡ root → IsAmong D (pages cache.old) t level
        → Works D cache.old cache.new result
        (λ u. Removes D (pages cache.old) (pages cache.new) t id) (λ f. Has id t.row → IsOfDevice f) }
    ensures grows { Grows 0 cache.old cache.new }
    ensures damage { IsHonest cache.old → touched_of cache.new ≡ false
        → IfErr result (λ f. (n : ℕ) → f ≡ fault.Damaged n → ComesInTree D (given cache.old) root n) }
    ensures other_faults { IfErr result (λ f. IsOfDevice f ⊎ IsDamage f) }
{
    remove_below::<D, B, A>(cache, root, level, true, id)?;
    lower::<D, B, A>(cache, root, level)
}

// Removes the object with an identifier at or below the node of that level at a page, which has enough to
// lose one: on the way down each child with little is joined first. The flag says whether the node is at the
// edge of its tree.
fn remove_below<const D: usize, B: BlockDevice, A: Allocator + Copy>(
    cache: &mut PageCache<B, A>,
    page: u32,
    level: u8,
    edge: bool,
    id: u64,
) -> Result<(), Fault>
    requires dims { IsDims D }
    ensures changes { Changes cache.old cache.new result }
    ensures removes { IsPageMap cache.old → (row : Row) → MayShrink D (pages cache.old) page level edge row
        → Works D cache.old cache.new result
        (λ u. Becomes D (pages cache.old) (pages cache.new) page level edge row id drops)
        (λ f. Has id row → IsOfDevice f) }
    ensures grows { Grows 0 cache.old cache.new }
    ensures touched { OnOk result (touched_of cache.new ≡ true) }
    ensures damage { IsHonest cache.old → touched_of cache.new ≡ false
        → IfErr result (λ f. (n : ℕ) → f ≡ fault.Damaged n → ComesInTree D (given cache.old) page n) }
    ensures other_faults { IfErr result (λ f. IsOfDevice f ⊎ IsDamage f) }
{
    if level == 0 {
        return take_in::<D, B, A>(cache, page, edge, id);
    }
    let below = look_below::<D, B, A>(cache, page, level, edge, id)?;
    let ample = is_ample::<D, B, A>(cache, below.child, level - 1)?;
    if ample {
        return remove_below::<D, B, A>(cache, below.child, level - 1, below.last, id);
    }
    let (child, last) = join::<D, B, A>(cache, page, level, edge, below.place, id)?;
    remove_below::<D, B, A>(cache, child, level - 1, last, id)
}

// Takes the object with an identifier from the leaf at a page, which has more than one. A leaf without it is
// `Damaged`.
#[tactic(auto, using(page_cache::specs::Calls::changing))]
fn take_in<const D: usize, B: BlockDevice, A: Allocator + Copy>(
    cache: &mut PageCache<B, A>,
    page: u32,
    edge: bool,
    id: u64,
) -> Result<(), Fault>
    requires dims { IsDims D }
    ensures changes { Changes cache.old cache.new result }
    ensures removes { IsPageMap cache.old → (row : Row) → MayShrink D (pages cache.old) page 0 edge row
        → Works D cache.old cache.new result
        (λ u. Becomes D (pages cache.old) (pages cache.new) page 0 edge row id drops)
        (λ f. Has id row → IsOfDevice f) }
    ensures grows { Grows 0 cache.old cache.new }
    ensures touched { OnOk result (touched_of cache.new ≡ true) }
    ensures damage { IsHonest cache.old → IfErr result (λ f. IsOfDevice f ⊎ (f ≡ fault.Damaged page)) }
    ensures other_faults { IfErr result (λ f. IsOfDevice f ⊎ IsDamage f) }
{
    let found = look::<D, B, A>(cache, page, id)?;
    let Some(object) = found else {
        return Err(Fault::Damaged(page));
    };
    take_at::<D, B, A>(cache, page, object.0)
}

// Removes an object from the table whose root has one leaf.
#[tactic(auto, using(page_cache::specs::Calls::changing))]
fn remove_only<const D: usize, B: BlockDevice, A: Allocator + Copy>(
    cache: &mut PageCache<B, A>,
    root: u32,
    leaf: u32,
    id: u64,
) -> Result<(), Fault>
    requires dims { IsDims D }
    ensures changes { Changes cache.old cache.new result }
    ensures removes { IsPageMap cache.old → (t : IdTree) → t.page ≡ root → IsOnly D (pages cache.old) t leaf
        → Works D cache.old cache.new result
        (λ u. Removes D (pages cache.old) (pages cache.new) t id) (λ f. Has id t.row → IsOfDevice f) }
    ensures grows { Grows 0 cache.old cache.new }
    ensures damage { IsHonest cache.old → touched_of cache.new ≡ false
        → IfErr result (λ f. (n : ℕ) → f ≡ fault.Damaged n
        → (n ≡ leaf) ⊎ (n ≡ root)) }
    ensures other_faults { IfErr result (λ f. IsOfDevice f ⊎ IsDamage f) }
{
    let count = count_in(cache, leaf)?;
    if count > 1 {
        return take_in::<D, B, A>(cache, leaf, true, id);
    }
    remove_last::<D, B, A>(cache, root, leaf, id)
}

// Removes the only object of the table: its leaf is freed.
#[tactic(auto, using(page_cache::specs::Calls::changing))]
fn remove_last<const D: usize, B: BlockDevice, A: Allocator + Copy>(
    cache: &mut PageCache<B, A>,
    root: u32,
    leaf: u32,
    id: u64,
) -> Result<(), Fault>
    requires dims { IsDims D }
    ensures changes { Changes cache.old cache.new result }
    ensures removes { IsPageMap cache.old → (t : IdTree) → t.page ≡ root → IsOnly D (pages cache.old) t leaf
        → length (objects_in t.row) ≤ 1 → Works D cache.old cache.new result
        (λ u. Removes D (pages cache.old) (pages cache.new) t id) (λ f. Has id t.row → IsOfDevice f) }
    ensures grows { Grows 0 cache.old cache.new }
    ensures damage { IsHonest cache.old → touched_of cache.new ≡ false
        → IfErr result (λ f. (n : ℕ) → f ≡ fault.Damaged n
        → (n ≡ leaf) ⊎ (n ≡ root)) }
    ensures other_faults { IfErr result (λ f. IsOfDevice f ⊎ IsDamage f) }
{
    let found = look::<D, B, A>(cache, leaf, id)?;
    let Some(_) = found else {
        return Err(Fault::Damaged(leaf));
    };
    put_and_free(cache, root, leaf, &no_child::<D>())
}
