//! An object added.

ghost use Rattle.std.specs.Prelude.{◌≡◌, ◌<◌, ◌⊎◌, ℕ, None, false, IfErr, OnOk};
ghost use Rattle.box_math.specs.Bounds.{IsDims};
ghost use Rattle.page_file.specs.Fault.{IsDamage, IsOfDevice};
ghost use Rattle.page_cache.specs.Cache.{Grows, IsHonest, IsPageMap, given, pages, touched_of};
ghost use Rattle.page_cache.specs.Calls.{Changes};
ghost use Rattle.node_page.specs.Faults.{IsNoDamage};
ghost use Rattle.id_words.specs.Damage.{MayBreakAt};
ghost use Rattle.id_words.specs.Objects.{kept_in};
ghost use Rattle.id_tree.specs.Changes.{Sets, most_added_pages};
ghost use Rattle.id_tree.specs.Checked.{ComesInTree, IsMet};
ghost use Rattle.id_tree.specs.Rows.{IsLeafPlace};
ghost use Rattle.id_tree.specs.Steps.{Becomes, IsFullBelow, IsFullTree, MayGrow, Widens};
ghost use Rattle.id_tree.specs.Steps.Step.{adds};
ghost use Rattle.id_tree.specs.Tidy.{KeepsTidy};
ghost use Rattle.id_tree.specs.Tree.{IdTree, Row, TreeStands, objects_in, objects_of};
ghost use Rattle.id_tree.specs.Works.{Works};
ghost use Rattle.std.specs.FinMap as map;
ghost use Rattle.page_file.specs.declared.fault.Fault.TheVariants as fault;

use crate::below::{Below, has_room, look_below};
use crate::looks::step;
use crate::pushing::push;
use crate::rooting::{deepen, start};
use crate::search::LeafPlace;
use crate::sharing::make_room;
use crate::splitting::split;
use block_device::BlockDevice;
use box_math::BBox;
use id_page::MOST_CHILDREN;
use page_cache::PageCache;
use page_file::Fault;
use std::alloc::Allocator;

/// The greatest level of a root: a tree with one level more would have more pages than there are numbers.
pub(crate) const MOST_LEVELS: u8 = 6;

/// Adds an object to the table, which does not have its identifier, where [`find`](crate::find) found that it
/// would come.
///
/// A leaf with room is all that it looks at, which no clause says; else it walks down from the root. There a
/// full leaf shares with the emptier one of the leaves next to it in their fork, where that one has at most
/// four fifths of what fits, and else is cut in two.
///
/// Pages with zeros in all bytes that they do not name stay so, and so are new ones.
///
/// With a sound map, where the pages stand for a table at that root, a refusal is `Memory` or `Device`, or
/// `NoPages` where each page number is live. On other pages it may be `Damaged` too. On an honest device,
/// where no page is touched, that comes with the number of a page that a walk down the forks comes to, or,
/// where the map is not sound, of a page given out that is not live.
pub fn add<const D: usize, B: BlockDevice, A: Allocator + Copy>(
    cache: &mut PageCache<B, A>,
    root: u32,
    at: LeafPlace,
    id: u64,
    bounds: &BBox<D>,
    tag: u32,
) -> Result<(), Fault>
    requires dims { IsDims D }
    ensures changes { Changes cache.old cache.new result }
    ensures sound { IsPageMap cache.old → (t : IdTree) → t.page ≡ root → TreeStands D (pages cache.old) t
        → IsLeafPlace t id at.leaf at.place → IsPageMap cache.new }
    ensures tidy { IsPageMap cache.old → (t : IdTree) → t.page ≡ root → TreeStands D (pages cache.old) t
        → IsLeafPlace t id at.leaf at.place
        → OnOk result (KeepsTidy D (pages cache.old) (pages cache.new)) }
    ensures added { IsPageMap cache.old → (t : IdTree) → t.page ≡ root → TreeStands D (pages cache.old) t
        → IsLeafPlace t id at.leaf at.place → map.contains_key (objects_of t) id ≡ false
        → OnOk result (Sets D (pages cache.old) (pages cache.new) t id (bounds.now, tag)) }
    ensures grows { Grows most_added_pages cache.old cache.new }
    ensures faults { IsPageMap cache.old → (t : IdTree) → t.page ≡ root → TreeStands D (pages cache.old) t
        → IsLeafPlace t id at.leaf at.place → IfErr result (IsNoDamage cache.new) }
    ensures damage { IsHonest cache.old → IsMet D (given cache.old) root at.leaf
        → touched_of cache.new ≡ false
        → IfErr result (λ f. (n : ℕ) → f ≡ fault.Damaged n
        → ComesInTree D (given cache.old) root n ⊎ MayBreakAt cache.old n) }
    ensures other_faults { IfErr result (λ f. IsNoDamage cache.new f ⊎ IsDamage f) }
{
    let object = (id, (*bounds, tag));
    if at.leaf == 0 {
        return add_object(cache, root, &object);
    }
    if has_room::<D, B, A>(cache, at.leaf, 0)? {
        return push(cache, at.leaf, &object);
    }
    add_object(cache, root, &object)
}

// Adds an object to the table at a root.
pub(crate) fn add_object<const D: usize, B: BlockDevice, A: Allocator + Copy>(
    cache: &mut PageCache<B, A>,
    root: u32,
    object: &(u64, (BBox<D>, u32)),
) -> Result<(), Fault>
    requires dims { IsDims D }
    ensures changes { Changes cache.old cache.new result }
    ensures takes { IsPageMap cache.old → (t : IdTree) → t.page ≡ root → TreeStands D (pages cache.old) t
        → Works D cache.old cache.new result (λ u. map.contains_key (objects_of t) object.now.0 ≡ false
        → Sets D (pages cache.old) (pages cache.new) t object.now.0 object.now.1) (IsNoDamage cache.new) }
    ensures grows { Grows most_added_pages cache.old cache.new }
    ensures damage { IsHonest cache.old → touched_of cache.new ≡ false
        → IfErr result (λ f. (n : ℕ) → f ≡ fault.Damaged n
        → ComesInTree D (given cache.old) root n ⊎ MayBreakAt cache.old n) }
    ensures other_faults { IfErr result (λ f. IsNoDamage cache.new f ⊎ IsDamage f) }
{
    let way = step::<D, B, A>(cache, root, object.0)?;
    if way.count == 0 {
        return start(cache, root, object);
    }
    if way.level > MOST_LEVELS {
        return Err(Fault::Damaged(root));
    }
    if way.count < MOST_CHILDREN {
        return add_below(cache, root, way.level, true, object);
    }
    add_deeper(cache, root, way.level, object)
}

// Adds an object to the table at a root of that level that has no room: the root gets one level more.
fn add_deeper<const D: usize, B: BlockDevice, A: Allocator + Copy>(
    cache: &mut PageCache<B, A>,
    root: u32,
    level: u8,
    object: &(u64, (BBox<D>, u32)),
) -> Result<(), Fault>
    requires dims { IsDims D }
    ensures changes { Changes cache.old cache.new result }
    ensures takes { IsPageMap cache.old → (t : IdTree) → t.page ≡ root
        → IsFullTree D (pages cache.old) t level → Works D cache.old cache.new result
        (λ u. map.contains_key (objects_of t) object.now.0 ≡ false
        → Sets D (pages cache.old) (pages cache.new) t object.now.0 object.now.1) (IsNoDamage cache.new) }
    ensures grows { Grows most_added_pages cache.old cache.new }
    ensures damage { IsHonest cache.old → touched_of cache.new ≡ false
        → IfErr result (λ f. (n : ℕ) → f ≡ fault.Damaged n → (n ≡ root) ⊎ MayBreakAt cache.old n) }
    ensures other_faults { IfErr result (λ f. IsNoDamage cache.new f ⊎ IsDamage f) }
{
    if level >= MOST_LEVELS {
        return Err(Fault::Damaged(root));
    }
    let child = deepen::<D, B, A>(cache, root, level)?;
    add_split(cache, root, level + 1, child, object)
}

// Adds an object to the table at a root of that level whose only child is full: that one is split first.
fn add_split<const D: usize, B: BlockDevice, A: Allocator + Copy>(
    cache: &mut PageCache<B, A>,
    root: u32,
    level: u8,
    child: u32,
    object: &(u64, (BBox<D>, u32)),
) -> Result<(), Fault>
    requires dims { IsDims D }
    requires high { 0 < level }
    ensures changes { Changes cache.old cache.new result }
    ensures takes { IsPageMap cache.old → (row : Row)
        → IsFullBelow D (pages cache.old) root level row object.now.0 child
        → Works D cache.old cache.new result (λ u. kept_in object.now.0 (objects_in row) ≡ None
        → Widens D (pages cache.old) (pages cache.new) root level row object.now.0 (adds object.now.1))
        (IsNoDamage cache.new) }
    ensures grows { Grows level cache.old cache.new }
    ensures other_faults { IfErr result (λ f. IsNoDamage cache.new f ⊎ IsDamage f) }
{
    let below = Below {
        child,
        place: 0,
        last: true,
        room: false,
    };
    let (half, half_last) = split::<D, B, A>(cache, root, level, &below, object.0)?;
    add_below(cache, half, level - 1, half_last, object)
}

// Adds an object at or below the node of that level at a page, which has room and some object: on the way
// down room is made in each full child. The flag says whether the node is at the edge of its tree.
pub(crate) fn add_below<const D: usize, B: BlockDevice, A: Allocator + Copy>(
    cache: &mut PageCache<B, A>,
    page: u32,
    level: u8,
    edge: bool,
    object: &(u64, (BBox<D>, u32)),
) -> Result<(), Fault>
    requires dims { IsDims D }
    ensures changes { Changes cache.old cache.new result }
    ensures takes { IsPageMap cache.old → (row : Row) → MayGrow D (pages cache.old) page level edge row
        → Works D cache.old cache.new result (λ u. kept_in object.now.0 (objects_in row) ≡ None
        → Becomes D (pages cache.old) (pages cache.new) page level edge row object.now.0
        (adds object.now.1)) (IsNoDamage cache.new) }
    ensures grows { Grows level cache.old cache.new }
    ensures damage { IsHonest cache.old → touched_of cache.new ≡ false
        → IfErr result (λ f. (n : ℕ) → f ≡ fault.Damaged n
        → ComesInTree D (given cache.old) page n ⊎ MayBreakAt cache.old n) }
    ensures other_faults { IfErr result (λ f. IsNoDamage cache.new f ⊎ IsDamage f) }
{
    if level == 0 {
        return push_in(cache, page, edge, object);
    }
    let below = look_below::<D, B, A>(cache, page, level, edge, object.0)?;
    if below.room {
        return add_below(cache, below.child, level - 1, below.last, object);
    }
    let (child, last) = make_room::<D, B, A>(cache, page, level, edge, &below, object.0)?;
    add_below(cache, child, level - 1, last, object)
}

// Adds an object to the leaf at a page, which has room.
#[tactic(auto, using(page_cache::specs::Calls::changing))]
fn push_in<const D: usize, B: BlockDevice, A: Allocator + Copy>(
    cache: &mut PageCache<B, A>,
    page: u32,
    edge: bool,
    object: &(u64, (BBox<D>, u32)),
) -> Result<(), Fault>
    requires dims { IsDims D }
    ensures changes { Changes cache.old cache.new result }
    ensures takes { IsPageMap cache.old → (row : Row) → MayGrow D (pages cache.old) page 0 edge row
        → Works D cache.old cache.new result (λ u. kept_in object.now.0 (objects_in row) ≡ None
        → Becomes D (pages cache.old) (pages cache.new) page 0 edge row object.now.0 (adds object.now.1))
        IsOfDevice }
    ensures grows { Grows 0 cache.old cache.new }
    ensures damage { IsHonest cache.old → IfErr result (λ f. IsOfDevice f ⊎ (f ≡ fault.Damaged page)) }
    ensures other_faults { IfErr result (λ f. IsOfDevice f ⊎ IsDamage f) }
{
    push(cache, page, object)
}
