//! The search for an identifier.

ghost use Rattle.std.specs.Prelude.{◌≡◌, ◌⊎◌, ℕ, Bool, List, Some, IfOk, IfErr, IfSome, OnOk};
ghost use Rattle.std.specs.FinMap as map;
ghost use Rattle.box_math.specs.Bounds.{IsDims};
ghost use Rattle.bucket_page.specs.Layout.{Entry};
ghost use Rattle.page_file.specs.Fault.{IsDamage, IsOfDevice};
ghost use Rattle.page_file.specs.declared.fault.Fault.TheVariants as fault;
ghost use Rattle.page_cache.specs.Cache.{IsHonest, given, pages};
ghost use Rattle.page_cache.specs.Calls.{Asks};
ghost use Rattle.id_tree.specs.Checked.{BeginsAsLeaf, ComesDown, ComesInTree, IsMet, IsReached};
ghost use Rattle.id_tree.specs.Rows.{IsLeafPlace, IsSoughtIn, LeadsBelow, MaySeek};
ghost use Rattle.id_tree.specs.Tree.{IdTree, Row, TreeStands, leaf_in, objects_of};

use crate::looks::{look, step};
use block_device::BlockDevice;
use box_math::BBox;
use page_cache::PageCache;
use page_file::Fault;
use std::alloc::Allocator;

/// Where a table has an identifier, or would get it. It stays so as long as the table does, whatever becomes
/// of other pages.
#[derive(Clone, Copy, Debug, PartialEq, Eq)]
pub struct LeafPlace {
    /// The page of the leaf to which the way leads; 0 where the root has no child.
    pub leaf: u32,
    /// The place in the leaf of the object with the identifier, if it is there.
    pub place: usize,
}

/// What a search for an identifier finds.
#[derive(Clone, Copy, Debug)]
pub struct Sought<const D: usize> {
    /// Where the identifier is, or would come.
    pub at: LeafPlace,
    /// The box and the tag of its object, if the table has it.
    pub kept: Option<(BBox<D>, u32)>,
}

/// The box and the tag of an object, if the table has its identifier, and where it is or would come. It looks
/// at one page of each level, which no clause says.
///
/// On an honest device, where the pages stand for a table at that root, a refusal is `Memory` or `Device`. On
/// other pages it may be `Damaged` too, with the number of a page that a walk down the forks comes to. Map
/// and gate stay, also after a refusal.
///
/// On any pages of such a device it answers only where a walk down forks, each one level below the one before
/// it, came to a page that begins as a leaf, or to a fork of no children.
pub fn find<const D: usize, B: BlockDevice, A: Allocator + Copy>(
    cache: &mut PageCache<B, A>,
    root: u32,
    id: u64,
) -> Result<Sought<D>, Fault>
    requires dims { IsDims D }
    ensures asks { Asks cache.old cache.new result }
    ensures found { IsHonest cache.old → (t : IdTree) → t.page ≡ root → TreeStands D (pages cache.old) t
        → IfOk result (λ sought. sought.kept ≡ map.get (objects_of t) id) }
    ensures place { IsHonest cache.old → (t : IdTree) → t.page ≡ root → TreeStands D (pages cache.old) t
        → IfOk result (λ sought. IsLeafPlace t id sought.at.leaf sought.at.place) }
    ensures stands { IsHonest cache.old → (t : IdTree) → t.page ≡ root → TreeStands D (pages cache.old) t
        → IfErr result IsOfDevice }
    ensures comes { IsHonest cache.old
        → IfOk result (λ sought. IsMet D (given cache.old) root sought.at.leaf) }
    ensures reached { IsHonest cache.old
        → IfOk result (λ sought. IsReached D (given cache.old) root sought.at.leaf) }
    ensures damage { IsHonest cache.old → IfErr result (λ f. (n : ℕ) → f ≡ fault.Damaged n
        → ComesInTree D (given cache.old) root n) }
    ensures other_faults { IfErr result (λ f. IsOfDevice f ⊎ IsDamage f) }
{
    match leaf_below::<D, B, A>(cache, root, id)? {
        Some(leaf) => seek_in(cache, leaf, id),
        None => Ok(Sought {
            at: LeafPlace { leaf: 0, place: 0 },
            kept: None,
        }),
    }
}

// The leaf to which the way to an identifier leads from the root of a table, if the root has a child.
fn leaf_below<const D: usize, B: BlockDevice, A: Allocator + Copy>(
    cache: &mut PageCache<B, A>,
    root: u32,
    id: u64,
) -> Result<Option<u32>, Fault>
    ensures asks { Asks cache.old cache.new result }
    ensures found { IsHonest cache.old → (t : IdTree) → t.page ≡ root → TreeStands D (pages cache.old) t
        → IfOk result (LeadsBelow root t.level id t.row) }
    ensures stands { IsHonest cache.old → (t : IdTree) → t.page ≡ root → TreeStands D (pages cache.old) t
        → IfErr result IsOfDevice }
    ensures comes { IsHonest cache.old
        → IfOk result (λ leaf. IfSome leaf (ComesInTree D (given cache.old) root)) }
    ensures down { IsHonest cache.old
        → IfOk result (λ leaf. (level : ℕ) × ComesDown D (given cache.old) root level leaf) }
    ensures damage { IsHonest cache.old → IfErr result (λ f. (n : ℕ) → f ≡ fault.Damaged n
        → ComesInTree D (given cache.old) root n) }
    ensures other_faults { IfErr result (λ f. IsOfDevice f ⊎ IsDamage f) }
{
    let way = step::<D, B, A>(cache, root, id)?;
    if way.level == 0 {
        return Err(Fault::Damaged(root));
    }
    match way.child {
        Some(child) => descend::<D, B, A>(cache, child, way.level - 1, id),
        None => Ok(None),
    }
}

// The same from the node of that level at a page.
fn descend<const D: usize, B: BlockDevice, A: Allocator + Copy>(
    cache: &mut PageCache<B, A>,
    page: u32,
    level: u8,
    id: u64,
) -> Result<Option<u32>, Fault>
    ensures asks { Asks cache.old cache.new result }
    ensures found { IsHonest cache.old → (edge : Bool) (row : Row)
        → MaySeek D (pages cache.old) page level edge row
        → IfOk result (LeadsBelow page level id row) }
    ensures stands { IsHonest cache.old → (edge : Bool) (row : Row)
        → MaySeek D (pages cache.old) page level edge row
        → IfErr result IsOfDevice }
    ensures comes { IsHonest cache.old
        → IfOk result (λ leaf. IfSome leaf (ComesInTree D (given cache.old) page)) }
    ensures down { IsHonest cache.old → IfOk result (ComesDown D (given cache.old) page level) }
    ensures damage { IsHonest cache.old → IfErr result (λ f. (n : ℕ) → f ≡ fault.Damaged n
        → ComesInTree D (given cache.old) page n) }
    ensures other_faults { IfErr result (λ f. IsOfDevice f ⊎ IsDamage f) }
{
    if level == 0 {
        return Ok(Some(page));
    }
    let way = step::<D, B, A>(cache, page, id)?;
    if way.level != level {
        return Err(Fault::Damaged(page));
    }
    match way.child {
        Some(child) => descend::<D, B, A>(cache, child, level - 1, id),
        None => Ok(None),
    }
}

// What a search for an identifier finds in the leaf at a page.
#[tactic(auto, using(page_cache::specs::Calls::ends_so))]
fn seek_in<const D: usize, B: BlockDevice, A: Allocator + Copy>(
    cache: &mut PageCache<B, A>,
    leaf: u32,
    id: u64,
) -> Result<Sought<D>, Fault>
    requires dims { IsDims D }
    ensures asks { Asks cache.old cache.new result }
    ensures found { IsHonest cache.old → (objects : List Entry)
        → leaf_in D (pages cache.old leaf) ≡ Some objects
        → IfOk result (λ sought. IsSoughtIn id objects sought.at.place sought.kept) }
    ensures there { IsHonest cache.old → (objects : List Entry)
        → leaf_in D (pages cache.old leaf) ≡ Some objects
        → IfErr result IsOfDevice }
    ensures here { IfOk result (λ sought. sought.at.leaf ≡ leaf) }
    ensures leaf { IsHonest cache.old → OnOk result (BeginsAsLeaf D (given cache.old) leaf) }
    ensures damage { IsHonest cache.old → IfErr result (λ f. IsOfDevice f ⊎ (f ≡ fault.Damaged leaf)) }
    ensures other_faults { IfErr result (λ f. IsOfDevice f ⊎ IsDamage f) }
{
    match look::<D, B, A>(cache, leaf, id) {
        Ok(Some((place, kept))) => Ok(Sought {
            at: LeafPlace { leaf, place },
            kept: Some(kept),
        }),
        Ok(None) => Ok(Sought {
            at: LeafPlace { leaf, place: 0 },
            kept: None,
        }),
        Err(fault) => Err(fault),
    }
}
