//! Objects whose identifiers lead to one leaf, put there after one walk.

ghost use Rattle.std.specs.Prelude.{◌≡◌, ◌<◌, ◌≤◌, ◌+◌, ◌⊎◌, ℕ, Bool, length, All, IfErr, IfOk, OnOk};
ghost use Rattle.std.specs.Prelude.{slice_index_or, take};
ghost use Rattle.box_math.specs.Bounds.{IsDims};
ghost use Rattle.bucket_page.specs.Layout.{Entry};
ghost use Rattle.page_file.specs.Fault.{IsDamage, IsOfDevice};
ghost use Rattle.page_file.specs.declared.fault.Fault.TheVariants as fault;
ghost use Rattle.page_cache.specs.Cache.{Grows, IsHonest, IsPageMap, given, pages};
ghost use Rattle.page_cache.specs.Calls.{Asks, Changes};
ghost use Rattle.id_page.specs.Leaf.{most_objects};
ghost use Rattle.id_words.specs.Objects.{AreNew};
ghost use Rattle.id_tree.specs.Changes.{Fills};
ghost use Rattle.id_tree.specs.Checked.{ComesInTree};
ghost use Rattle.id_tree.specs.Rows.{NodeStands};
ghost use Rattle.id_tree.specs.Runs.{HasRun, IsFromTo, TakesAll};
ghost use Rattle.id_tree.specs.Tidy.{KeepsTidy};
ghost use Rattle.id_tree.specs.Tree.{HasNode, IdTree, Row, TreeStands, objects_in, objects_of};

use crate::looks::{count_in, step};
use crate::pushing::push;
use block_device::BlockDevice;
use box_math::BBox;
use id_page::objects_that_fit;
use page_cache::PageCache;
use page_file::Fault;
use std::alloc::Allocator;

/// The leaf of a run: identifiers from that of the search up to this one lead to it, and it takes so many
/// objects more. Where the way ends at a fork of no children, it is that fork, and takes none.
#[derive(Clone, Copy, Drop)]
pub(crate) struct Run {
    pub(crate) leaf: u32,
    pub(crate) upto: u64,
    pub(crate) room: usize,
}

// The run of an identifier from the root of a table, in one walk.
pub(crate) fn run_from<const D: usize, B: BlockDevice, A: Allocator + Copy>(
    cache: &mut PageCache<B, A>,
    root: u32,
    id: u64,
) -> Result<Run, Fault>
    ensures asks { Asks cache.old cache.new result }
    ensures found { IsHonest cache.old → (t : IdTree) → t.page ≡ root → TreeStands D (pages cache.old) t
        → IfOk result (λ run. 0 < run.room → HasRun D root t.level t.row id run.upto run.leaf run.room) }
    ensures stands { IsHonest cache.old → (t : IdTree) → t.page ≡ root → TreeStands D (pages cache.old) t
        → IfErr result IsOfDevice }
    ensures comes { IsHonest cache.old → IfOk result (λ run. ComesInTree D (given cache.old) root run.leaf) }
    ensures damage { IsHonest cache.old → IfErr result (λ f. (n : ℕ) → f ≡ fault.Damaged n
        → ComesInTree D (given cache.old) root n) }
    ensures other_faults { IfErr result (λ f. IsOfDevice f ⊎ IsDamage f) }
{
    let way = step::<D, B, A>(cache, root, id)?;
    if way.level == 0 {
        return Err(Fault::Damaged(root));
    }
    match way.child {
        Some(child) => run_below::<D, B, A>(cache, child, way.level - 1, id, way.upto),
        None => Ok(Run {
            leaf: root,
            upto: way.upto,
            room: 0,
        }),
    }
}

// The same from the node of that level at a page, of which identifiers up to a greatest one are looked at.
fn run_below<const D: usize, B: BlockDevice, A: Allocator + Copy>(
    cache: &mut PageCache<B, A>,
    page: u32,
    level: u8,
    id: u64,
    upto: u64,
) -> Result<Run, Fault>
    ensures asks { Asks cache.old cache.new result }
    ensures found { IsHonest cache.old → (edge : Bool) (row : Row)
        → NodeStands D (pages cache.old) page level edge row
        → IfOk result (λ run. 0 < run.room → HasRun D page level row id run.upto run.leaf run.room) }
    ensures within { IfOk result (λ run. run.upto ≤ upto) }
    ensures stands { IsHonest cache.old → (edge : Bool) (row : Row)
        → NodeStands D (pages cache.old) page level edge row
        → IfErr result IsOfDevice }
    ensures comes { IsHonest cache.old → IfOk result (λ run. ComesInTree D (given cache.old) page run.leaf) }
    ensures damage { IsHonest cache.old → IfErr result (λ f. (n : ℕ) → f ≡ fault.Damaged n
        → ComesInTree D (given cache.old) page n) }
    ensures other_faults { IfErr result (λ f. IsOfDevice f ⊎ IsDamage f) }
{
    if level == 0 {
        return run_at::<D, B, A>(cache, page, upto);
    }
    let way = step::<D, B, A>(cache, page, id)?;
    if way.level != level {
        return Err(Fault::Damaged(page));
    }
    match way.child {
        Some(child) => run_below::<D, B, A>(cache, child, level - 1, id, upto.min(way.upto)),
        None => Ok(Run {
            leaf: page,
            upto,
            room: 0,
        }),
    }
}

// The run of the leaf at a page, in one look.
fn run_at<const D: usize, B: BlockDevice, A: Allocator + Copy>(
    cache: &mut PageCache<B, A>,
    page: u32,
    upto: u64,
) -> Result<Run, Fault>
    ensures asks { Asks cache.old cache.new result }
    ensures here { IfOk result (λ run. run.leaf ≡ page) }
    ensures upto { IfOk result (λ run. run.upto ≡ upto) }
    ensures room { IsHonest cache.old → (row : Row) → HasNode D (pages cache.old) page 0 row
        → IfOk result (λ run. 0 < run.room → length (objects_in row) + run.room ≤ most_objects D) }
    ensures there { IsHonest cache.old → (row : Row) → HasNode D (pages cache.old) page 0 row
        → IfErr result IsOfDevice }
    ensures damage { IsHonest cache.old → IfErr result (λ f. IsOfDevice f ⊎ (f ≡ fault.Damaged page)) }
    ensures other_faults { IfErr result (λ f. IsOfDevice f ⊎ IsDamage f) }
{
    let count = count_in(cache, page)?;
    Ok(Run {
        leaf: page,
        upto,
        room: objects_that_fit::<D>().saturating_sub(count),
    })
}

// How many of the objects, from the first on, have identifiers from one to another: at most so many.
pub(crate) fn count_of_run<const D: usize>(
    objects: &[(u64, (BBox<D>, u32))],
    from: u64,
    upto: u64,
    most: usize,
) -> usize
    ensures few { result ≤ most }
    ensures within { result ≤ length objects.now }
    ensures range { All (IsFromTo from upto) (take result objects.now) }
    ensures end { (other : Entry) → result < most → result < length objects.now
        → IsFromTo from upto (slice_index_or objects.now result other) → ⊥ }
{
    let mut count = 0;
    while count < objects.len() {
        let id = objects[count].0;
        if count == most {
            return count;
        }
        if id < from {
            return count;
        }
        if upto < id {
            return count;
        }
        count += 1;
    }
    count
}

// Adds objects to the leaf at a page, which takes them all.
pub(crate) fn push_all<const D: usize, B: BlockDevice, A: Allocator + Copy>(
    cache: &mut PageCache<B, A>,
    leaf: u32,
    objects: &[(u64, (BBox<D>, u32))],
) -> Result<(), Fault>
    requires dims { IsDims D }
    ensures changes { Changes cache.old cache.new result }
    ensures sound { IsPageMap cache.old → (t : IdTree) → TreeStands D (pages cache.old) t
        → TakesAll D t leaf objects.now → AreNew (objects_of t) objects.now → IsPageMap cache.new }
    ensures tidy { IsPageMap cache.old → (t : IdTree) → TreeStands D (pages cache.old) t
        → TakesAll D t leaf objects.now → AreNew (objects_of t) objects.now
        → OnOk result (KeepsTidy D (pages cache.old) (pages cache.new)) }
    ensures filled { IsPageMap cache.old → (t : IdTree) → TreeStands D (pages cache.old) t
        → TakesAll D t leaf objects.now → AreNew (objects_of t) objects.now
        → OnOk result (Fills D (pages cache.old) (pages cache.new) t objects.now) }
    ensures grows { Grows 0 cache.old cache.new }
    ensures faults { IsPageMap cache.old → (t : IdTree) → TreeStands D (pages cache.old) t
        → TakesAll D t leaf objects.now → AreNew (objects_of t) objects.now → IfErr result IsOfDevice }
    ensures damage { IsHonest cache.old → IfErr result (λ f. IsOfDevice f ⊎ (f ≡ fault.Damaged leaf)) }
    ensures other_faults { IfErr result (λ f. IsOfDevice f ⊎ IsDamage f) }
{
    let mut pushed = 0;
    while pushed < objects.len() {
        push::<D, B, A>(cache, leaf, &objects[pushed])?;
        pushed += 1;
    }
    Ok(())
}
