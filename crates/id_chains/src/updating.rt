//! An object that gets another box.

ghost use Rattle.std.specs.Prelude.{◌≡◌, ◌⊎◌, ℕ, Some, true, IfErr, OnErr, OnOk};
ghost use Rattle.std.specs.FinMap as map;
ghost use Rattle.box_math.specs.Bounds.{IsDims};
ghost use Rattle.box_math.specs.Objects.{Object};
ghost use Rattle.page_file.specs.Fault.{IsDamage, IsOfDevice};
ghost use Rattle.page_file.specs.declared.fault.Fault.TheVariants as fault;
ghost use Rattle.page_cache.specs.Cache.{Grows, IsHonest, IsPageMap, KeepsMap, given, pages};
ghost use Rattle.page_cache.specs.Calls.{Changes};
ghost use Rattle.id_words.specs.Objects.{with_box};
ghost use Rattle.id_chains.specs.Changes.{Sets};
ghost use Rattle.id_chains.specs.Table.{IdChains, IdChainsStand, class_of, objects_of};
ghost use Rattle.id_chains.specs.Tidy.{KeepsTidy};
ghost use Rattle.id_chains.specs.Walks.{MeetsInChain};

use crate::directory::{class_of, read_link};
use crate::places::{move_at, place_in};
use block_device::BlockDevice;
use box_math::BBox;
use page_cache::PageCache;
use page_file::Fault;
use std::alloc::Allocator;

/// Gives the object with that identifier, which the table has, another box, where it lies: one page is
/// written. Its tag stays.
///
/// Pages with zeros in all bytes that they do not name stay so.
///
/// With a sound map, where the pages stand for a table at that directory, a refusal is `Memory` or `Device`.
/// On other pages of an honest device it may be `Damaged` too, with the number of the directory's page or of
/// one that a walk along the chain of the identifier meets. After a refusal the map is as before.
#[tactic(auto, using(page_cache::specs::Calls::turns))]
pub fn update<const D: usize, B: BlockDevice, A: Allocator + Copy>(
    cache: &mut PageCache<B, A>,
    directory: u32,
    id: u64,
    bounds: &BBox<D>,
) -> Result<(), Fault>
    requires dims { IsDims D }
    ensures changes { Changes cache.old cache.new result }
    ensures refused { OnErr result (KeepsMap cache.old cache.new) }
    ensures sound { IsPageMap cache.old → (t : IdChains) → t.page ≡ directory
        → IdChainsStand D (pages cache.old) t
        → IsPageMap cache.new }
    ensures tidy { IsPageMap cache.old → (t : IdChains) → t.page ≡ directory
        → IdChainsStand D (pages cache.old) t
        → OnOk result (KeepsTidy D (pages cache.old) (pages cache.new)) }
    ensures updated { IsPageMap cache.old → (t : IdChains) → t.page ≡ directory →
        IdChainsStand D (pages cache.old) t
        → (kept : Object) → map.get (objects_of t) id ≡ Some kept
        → OnOk result (Sets D (pages cache.old) (pages cache.new) t id (with_box kept bounds.now)) }
    ensures grows { Grows 0 cache.old cache.new }
    ensures faults { IsPageMap cache.old → (t : IdChains) → t.page ≡ directory
        → IdChainsStand D (pages cache.old) t
        → map.contains_key (objects_of t) id ≡ true → IfErr result IsOfDevice }
    ensures damage { IsHonest cache.old → IfErr result (λ f. (n : ℕ) → f ≡ fault.Damaged n
        → MeetsInChain D (given cache.old) directory (class_of id) n) }
    ensures other_faults { IfErr result (λ f. IsOfDevice f ⊎ IsDamage f) }
{
    let class = class_of(id);
    let first = read_link::<D, B, A>(cache, directory, class)?;
    let (holder, place) = place_in::<D, B, A>(cache, directory, first, id)?;
    move_at(cache, holder, place, bounds)
}
