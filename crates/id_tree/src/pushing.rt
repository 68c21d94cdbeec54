//! An object put into a leaf that has room.

ghost use Rattle.std.specs.Prelude.{◌≡◌, ◌<◌, ◌⊎◌, Some, List, ◌∷◌, ◌++◌, [], length, IfErr, OnErr, OnOk};
ghost use Rattle.box_math.specs.Bounds.{IsDims};
ghost use Rattle.bucket_page.specs.Layout.{Entry};
ghost use Rattle.page_file.specs.Fault.{IsDamage, IsOfDevice};
ghost use Rattle.page_file.specs.declared.fault.Fault.TheVariants as fault;
ghost use Rattle.page_file.specs.Pages.{SameBut};
ghost use Rattle.page_cache.specs.Cache.{Grows, IsHonest, IsLive, IsPageMap, KeepsMap, pages};
ghost use Rattle.page_cache.specs.Calls.{Changes};
ghost use Rattle.id_page.specs.Leaf.{most_objects};
ghost use Rattle.id_tree.specs.Tree.{leaf_in};
ghost use Rattle.id_tree.specs.Tidy.{KeepsTidy};
ghost use Rattle.id_tree.specs.Writes.{PushesObject};

use block_device::BlockDevice;
use box_math::BBox;
use id_page::{count_at, objects_that_fit, push_object};
use page_cache::PageCache;
use page_file::Fault;
use std::alloc::Allocator;

// Adds an object to the leaf at a live page, which has room: it is written where the page lies in memory.
// After a refusal the map is as before.
pub(crate) fn push<const D: usize, B: BlockDevice, A: Allocator + Copy>(
    cache: &mut PageCache<B, A>,
    number: u32,
    object: &(u64, (BBox<D>, u32)),
) -> Result<(), Fault>
    requires dims { IsDims D }
    ensures changes { Changes cache.old cache.new result }
    ensures refused { OnErr result (KeepsMap cache.old cache.new) }
    ensures written { IsHonest cache.old → (objects : List Entry)
        → leaf_in D (pages cache.old number) ≡ Some objects
        → length objects < most_objects D
        → OnOk result (leaf_in D (pages cache.new number) ≡ Some (objects ++ object.now ∷ [])) }
    ensures tidy { IsHonest cache.old → (objects : List Entry)
        → leaf_in D (pages cache.old number) ≡ Some objects
        → length objects < most_objects D → OnOk result (KeepsTidy D (pages cache.old) (pages cache.new)) }
    ensures others { IsHonest cache.old → IsLive cache.old number
        → SameBut number (pages cache.old) (pages cache.new) }
    ensures sound { IsPageMap cache.old → IsLive cache.old number → IsPageMap cache.new }
    ensures grows { Grows 0 cache.old cache.new }
    ensures faults { IsHonest cache.old → IsLive cache.old number → IfErr result IsOfDevice }
    ensures damage { IsHonest cache.old → IfErr result (λ f. IsOfDevice f ⊎ (f ≡ fault.Damaged number)) }
    ensures other_faults { IfErr result (λ f. IsOfDevice f ⊎ IsDamage f) }
{
    cache.edit(
        number,
        |page: &mut [u8; 4096]|
            requires { IsDims D }
            ensures { PushesObject D object.entry.now page.old page.new }
        { push_where_room(page, object) },
    )
}

// Adds an object to a leaf page that has room.
fn push_where_room<const D: usize>(page: &mut [u8; 4096], object: &(u64, (BBox<D>, u32)))
    ensures { PushesObject D object.now page.old page.new }
{
    if count_at(page) < objects_that_fit::<D>() {
        push_object(page, object);
    }
}
