//! An object of a leaf written anew, and taken.

ghost use Rattle.std.specs.Prelude.{◌≡◌, ◌<◌, ◌⊎◌, Some, List, length, slice_set, swap_remove, IfErr, OnErr};
ghost use Rattle.std.specs.Prelude.{OnOk, true};
ghost use Rattle.box_math.specs.Bounds.{IsDims};
ghost use Rattle.bucket_page.specs.Layout.{Entry};
ghost use Rattle.page_file.specs.Fault.{IsDamage, IsOfDevice};
ghost use Rattle.page_file.specs.declared.fault.Fault.TheVariants as fault;
ghost use Rattle.page_file.specs.Pages.{SameBut};
ghost use Rattle.page_cache.specs.Cache.{Grows, IsHonest, IsLive, IsPageMap, KeepsMap, pages};
ghost use Rattle.page_cache.specs.Cache.{touched_of};
ghost use Rattle.page_cache.specs.Calls.{Changes};
ghost use Rattle.id_tree.specs.Tree.{leaf_in};
ghost use Rattle.id_tree.specs.Tidy.{KeepsTidy};
ghost use Rattle.id_tree.specs.Writes.{SetsObject, TakesObject};

use block_device::BlockDevice;
use box_math::BBox;
use id_page::{count_at, objects_that_fit, set_object, take_object};
use page_cache::PageCache;
use page_file::Fault;
use std::alloc::Allocator;

// Writes another object into the place of one of the leaf at a live page, where it lies in memory. After a
// refusal the map is as before.
pub(crate) fn move_at<const D: usize, B: BlockDevice, A: Allocator + Copy>(
    cache: &mut PageCache<B, A>,
    number: u32,
    place: usize,
    object: &(u64, (BBox<D>, u32)),
) -> Result<(), Fault>
    requires dims { IsDims D }
    ensures changes { Changes cache.old cache.new result }
    ensures refused { OnErr result (KeepsMap cache.old cache.new) }
    ensures written { IsHonest cache.old → (objects : List Entry)
        → leaf_in D (pages cache.old number) ≡ Some objects
        → place < length objects
        → OnOk result (leaf_in D (pages cache.new number) ≡ Some (slice_set objects place object.now)) }
    ensures tidy { IsHonest cache.old → (objects : List Entry)
        → leaf_in D (pages cache.old number) ≡ Some objects
        → place < length objects → OnOk result (KeepsTidy D (pages cache.old) (pages cache.new)) }
    ensures others { IsHonest cache.old → IsLive cache.old number
        → SameBut number (pages cache.old) (pages cache.new) }
    ensures sound { IsPageMap cache.old → IsLive cache.old number → IsPageMap cache.new }
    ensures grows { Grows 0 cache.old cache.new }
    ensures faults { IsHonest cache.old → IsLive cache.old number → IfErr result IsOfDevice }
    ensures damage { IsHonest cache.old → IfErr result (λ f. IsOfDevice f ⊎ (f ≡ fault.Damaged number)) }
    ensures other_faults { IfErr result (λ f. IsOfDevice f ⊎ IsDamage f) }
{
    cache.edit(
        number,
        |page: &mut [u8; 4096]|
            requires { IsDims D }
            ensures { SetsObject D place object.entry.now page.old page.new }
        { set_where_there(page, place, object) },
    )
}

// Writes another object into a place of a leaf page that has one there.
fn set_where_there<const D: usize>(
    page: &mut [u8; 4096],
    place: usize,
    object: &(u64, (BBox<D>, u32)),
)
    ensures { SetsObject D place object.now page.old page.new }
{
    if count_at(page) > objects_that_fit::<D>() {
        return;
    }
    if place < count_at(page) {
        set_object(page, place, object);
    }
}

// Takes the object in a place of the leaf at a live page, where it lies in memory: the last one fills the
// place. After a refusal the map is as before.
pub(crate) fn take_at<const D: usize, B: BlockDevice, A: Allocator + Copy>(
    cache: &mut PageCache<B, A>,
    number: u32,
    place: usize,
) -> Result<(), Fault>
    ensures changes { Changes cache.old cache.new result }
    ensures refused { OnErr result (KeepsMap cache.old cache.new) }
    ensures taken { IsHonest cache.old → (objects : List Entry) (other : Entry)
        → leaf_in D (pages cache.old number) ≡ Some objects → place < length objects
        → OnOk result (leaf_in D (pages cache.new number) ≡ Some (swap_remove objects place other)) }
    ensures tidy { IsHonest cache.old → (objects : List Entry)
        → leaf_in D (pages cache.old number) ≡ Some objects
        → place < length objects → OnOk result (KeepsTidy D (pages cache.old) (pages cache.new)) }
    ensures others { IsHonest cache.old → IsLive cache.old number
        → SameBut number (pages cache.old) (pages cache.new) }
    ensures sound { IsPageMap cache.old → IsLive cache.old number → IsPageMap cache.new }
    ensures grows { Grows 0 cache.old cache.new }
    ensures faults { IsHonest cache.old → IsLive cache.old number → IfErr result IsOfDevice }
    ensures damage { IsHonest cache.old → IfErr result (λ f. IsOfDevice f ⊎ (f ≡ fault.Damaged number)) }
    ensures touched { OnOk result (touched_of cache.new ≡ true) }
    ensures other_faults { IfErr result (λ f. IsOfDevice f ⊎ IsDamage f) }
{
    cache.edit(
        number,
        |page: &mut [u8; 4096]|
            ensures { TakesObject D place page.old page.new }
        { take_where_there::<D>(page, place) },
    )
}

// Takes the object in a place of a leaf page that has one there.
fn take_where_there<const D: usize>(page: &mut [u8; 4096], place: usize)
    ensures { TakesObject D place page.old page.new }
{
    if count_at(page) > objects_that_fit::<D>() {
        return;
    }
    if place < count_at(page) {
        take_object::<D>(page, place);
    }
}
