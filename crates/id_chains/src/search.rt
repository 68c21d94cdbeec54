//! The search for an identifier.

ghost use Rattle.std.specs.Prelude.{◌≡◌, ◌⊎◌, ℕ, IfOk, IfErr};
ghost use Rattle.std.specs.FinMap as map;
ghost use Rattle.box_math.specs.Bounds.{IsDims};
ghost use Rattle.page_file.specs.Fault.{IsDamage, IsOfDevice};
ghost use Rattle.page_file.specs.declared.fault.Fault.TheVariants as fault;
ghost use Rattle.page_cache.specs.Cache.{IsHonest, given, pages};
ghost use Rattle.page_cache.specs.Calls.{Asks};
ghost use Rattle.id_chains.specs.Table.{IdChains, IdChainsStand, class_of, objects_of};
ghost use Rattle.id_chains.specs.Walks.{MeetsInChain};

use crate::bucket::look;
use crate::directory::{class_of, read_link};
use block_device::BlockDevice;
use box_math::BBox;
use page_cache::PageCache;
use page_file::Fault;
use std::alloc::Allocator;

/// The box and the tag of an object, if the table has its identifier. A chain longer than the file has pages
/// is damaged.
///
/// On an honest device, where the pages stand for a table at that directory, a refusal is `Memory` or
/// `Device`. On other pages it may be `Damaged` too, with the number of the directory's page or of one that a
/// walk along the chain of the identifier meets. Map and gate stay, also after a refusal.
pub fn get<const D: usize, B: BlockDevice, A: Allocator + Copy>(
    cache: &mut PageCache<B, A>,
    directory: u32,
    id: u64,
) -> Result<Option<(BBox<D>, u32)>, Fault>
    requires dims { IsDims D }
    ensures asks { Asks cache.old cache.new result }
    ensures found { IsHonest cache.old → (t : IdChains) → t.page ≡ directory
        → IdChainsStand D (pages cache.old) t
        → IfOk result (λ kept. kept ≡ map.get (objects_of t) id) }
    ensures stands { IsHonest cache.old → (t : IdChains) → t.page ≡ directory
        → IdChainsStand D (pages cache.old) t
        → IfErr result IsOfDevice }
    ensures damage { IsHonest cache.old → IfErr result (λ f. (n : ℕ) → f ≡ fault.Damaged n
        → MeetsInChain D (given cache.old) directory (class_of id) n) }
    ensures other_faults { IfErr result (λ f. IsOfDevice f ⊎ IsDamage f) }
{
    let mut before = directory;
    let mut number = read_link::<D, B, A>(cache, directory, class_of(id))?;
    for walked in 0..cache.next_number() {
        if number == 0 {
            return Ok(None);
        }
        let (kept, next) = look::<D, B, A>(cache, number, id)?;
        if kept.is_some() {
            return Ok(kept);
        }
        before = number;
        number = next;
    }
    Err(Fault::Damaged(before))
}
