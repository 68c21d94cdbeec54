//! Tables given up.

ghost use Rattle.std.specs.Prelude.{◌≡◌, ◌<◌, ◌≤◌, ◌⊎◌, List, ℕ, Some, None, length, IfErr, IfOk, OnOk};
ghost use Rattle.std.specs.Prelude.{false};
ghost use Rattle.box_math.specs.Bounds.{IsDims};
ghost use Rattle.bucket_page.specs.Layout.{BucketContent};
ghost use Rattle.page_file.specs.Fault.{IsDamage, IsOfDevice};
ghost use Rattle.page_file.specs.Pages.{SameBut};
ghost use Rattle.page_file.specs.declared.fault.Fault.TheVariants as fault;
ghost use Rattle.page_cache.specs.Cache.{Grows, IsHonest, IsLive, IsPageMap, given, next_of};
ghost use Rattle.page_cache.specs.Cache.{pages, touched_of};
ghost use Rattle.page_cache.specs.Calls.{Asks, Changes};
ghost use Rattle.node_page.specs.Parts.{Moves, no_page};
ghost use Rattle.id_chains.specs.Pages.{Frees};
ghost use Rattle.id_chains.specs.Table.{Bucket, ChainStands, IdChains, IdChainsStand, bucket_in};
ghost use Rattle.id_chains.specs.Table.{occurs_in_chain};
ghost use Rattle.id_chains.specs.Table.{link_at, part_of};
ghost use Rattle.id_chains.specs.Walks.{MeetsAlong, MeetsInTable, NamesNext, NamesNoMore};

use crate::directory::{copy_page, is_directory, link_of};
use block_device::BlockDevice;
use bucket_page::{has_bucket_head, next_at};
use page_cache::PageCache;
use page_file::Fault;
use std::alloc::Allocator;

/// Frees all pages of the table.
///
/// With a sound map, where the pages stand for a table at that directory, a refusal is `Memory` or `Device`.
/// On other pages it may be `Damaged` too. On an honest device, where the map is sound or no page is touched,
/// that comes with the number of the directory's page or of one that a walk along a chain meets in the table
/// as it stood before.
#[tactic(auto, using(page_cache::specs::Calls::changing))]
pub fn free_all<const D: usize, B: BlockDevice, A: Allocator + Copy>(
    cache: &mut PageCache<B, A>,
    directory: u32,
) -> Result<(), Fault>
    requires dims { IsDims D }
    ensures changes { Changes cache.old cache.new result }
    ensures sound { IsPageMap cache.old → (t : IdChains) → t.page ≡ directory
        → IdChainsStand D (pages cache.old) t
        → IsPageMap cache.new }
    ensures freed { IsPageMap cache.old → (t : IdChains) → t.page ≡ directory
        → IdChainsStand D (pages cache.old) t
        → OnOk result (Moves (pages cache.old) (pages cache.new) (part_of t) no_page) }
    ensures next { next_of cache.new ≡ next_of cache.old }
    ensures grows { Grows 0 cache.old cache.new }
    ensures faults { IsPageMap cache.old → (t : IdChains) → t.page ≡ directory
        → IdChainsStand D (pages cache.old) t
        → IfErr result IsOfDevice }
    ensures damage { IsHonest cache.old → IsPageMap cache.old ⊎ (touched_of cache.new ≡ false)
        → IfErr result (λ f. (n : ℕ) → f ≡ fault.Damaged n
        → MeetsInTable D (given cache.old) directory n) }
    ensures other_faults { IfErr result (λ f. IsOfDevice f ⊎ IsDamage f) }
{
    let bytes = copy_page(cache, directory)?;
    if !is_directory::<D>(&bytes) {
        return Err(Fault::Damaged(directory));
    }
    free_pages::<D, B, A>(cache, directory, &bytes)
}

// Frees a directory and the chains that it names.
fn free_pages<const D: usize, B: BlockDevice, A: Allocator + Copy>(
    cache: &mut PageCache<B, A>,
    directory: u32,
    bytes: &[u8; 4096],
) -> Result<(), Fault>
    requires dims { IsDims D }
    ensures changes { Changes cache.old cache.new result }
    ensures sound { IsPageMap cache.old → (t : IdChains) → t.page ≡ directory
        → IdChainsStand D (pages cache.old) t
        → pages cache.old directory ≡ Some bytes.now → IsPageMap cache.new }
    ensures freed { IsPageMap cache.old → (t : IdChains) → t.page ≡ directory
        → IdChainsStand D (pages cache.old) t
        → pages cache.old directory ≡ Some bytes.now
        → OnOk result (Frees (pages cache.old) (pages cache.new) (part_of t)) }
    ensures next { next_of cache.new ≡ next_of cache.old }
    ensures grows { Grows 0 cache.old cache.new }
    ensures faults { IsPageMap cache.old → (t : IdChains) → t.page ≡ directory
        → IdChainsStand D (pages cache.old) t
        → pages cache.old directory ≡ Some bytes.now → IfErr result IsOfDevice }
    ensures damage { IsHonest cache.old
        → (IsPageMap cache.old × IsLive cache.old directory) ⊎ (touched_of cache.new ≡ false)
        → IfErr result (λ f. (n : ℕ) → f ≡ fault.Damaged n → (n ≡ directory)
        ⊎ ((class : ℕ) × (class < 1000) × MeetsAlong D (given cache.old) (link_at class bytes.now) n)) }
    ensures other_faults { IfErr result (λ f. IsOfDevice f ⊎ IsDamage f) }
{
    cache.free(directory)?;
    for class in 0..1000 {
        free_chain::<D, B, A>(cache, link_of(bytes, class))?;
    }
    Ok(())
}

// Frees the pages of a chain.
fn free_chain<const D: usize, B: BlockDevice, A: Allocator + Copy>(
    cache: &mut PageCache<B, A>,
    first: u32,
) -> Result<(), Fault>
    requires dims { IsDims D }
    ensures changes { Changes cache.old cache.new result }
    ensures sound { IsPageMap cache.old → (chain : List Bucket) → ChainStands D (pages cache.old) first chain
        → ((n : ℕ) → occurs_in_chain n chain ≤ 1) → IsPageMap cache.new }
    ensures freed { IsPageMap cache.old → (chain : List Bucket) → ChainStands D (pages cache.old) first chain
        → ((n : ℕ) → occurs_in_chain n chain ≤ 1)
        → OnOk result (Frees (pages cache.old) (pages cache.new) (λ n. occurs_in_chain n chain)) }
    ensures next { next_of cache.new ≡ next_of cache.old }
    ensures grows { Grows 0 cache.old cache.new }
    ensures faults { IsPageMap cache.old → (chain : List Bucket) → ChainStands D (pages cache.old) first chain
        → ((n : ℕ) → occurs_in_chain n chain ≤ 1) → length chain < next_of cache.old →
        IfErr result IsOfDevice }
    ensures kept { IsPageMap cache.old → OnOk result (IsPageMap cache.new
        × NamesNoMore D (given cache.old) (given cache.new)) }
    ensures damage { IsPageMap cache.old → IfErr result (λ f. (n : ℕ) → f ≡ fault.Damaged n
        → MeetsAlong D (given cache.old) first n) }
    ensures other_faults { IfErr result (λ f. IsOfDevice f ⊎ IsDamage f) }
{
    let mut before = first;
    let mut number = first;
    for freed in 0..cache.next_number() {
        if number == 0 {
            return Ok(());
        }
        before = number;
        number = free_bucket::<D, B, A>(cache, number)?;
    }
    Err(Fault::Damaged(before))
}

// Frees the page of a bucket, and answers that of the next one.
fn free_bucket<const D: usize, B: BlockDevice, A: Allocator + Copy>(
    cache: &mut PageCache<B, A>,
    number: u32,
) -> Result<u32, Fault>
    requires dims { IsDims D }
    ensures changes { Changes cache.old cache.new result }
    ensures following { IsPageMap cache.old → (c : BucketContent) →
        bucket_in D (pages cache.old number) ≡ Some c
        → IfOk result (λ next. next ≡ c.next) }
    ensures gone { IsPageMap cache.old → IsLive cache.old number →
        OnOk result (pages cache.new number ≡ None) }
    ensures others { IsPageMap cache.old → IsLive cache.old number
        → SameBut number (pages cache.old) (pages cache.new) }
    ensures sound { IsPageMap cache.old → IsLive cache.old number → IsPageMap cache.new }
    ensures next { next_of cache.new ≡ next_of cache.old }
    ensures grows { Grows 0 cache.old cache.new }
    ensures faults { IsPageMap cache.old → (c : BucketContent) → bucket_in D (pages cache.old number) ≡ Some c
        → 2 < number → IfErr result IsOfDevice }
    ensures names { IsHonest cache.old → IfOk result (λ next. NamesNext D (given cache.old number) next) }
    ensures kept { IsPageMap cache.old → OnOk result (IsPageMap cache.new
        × NamesNoMore D (given cache.old) (given cache.new)) }
    ensures damage { IsPageMap cache.old → IfErr result (λ f. IsOfDevice f ⊎ (f ≡ fault.Damaged number)) }
    ensures other_faults { IfErr result (λ f. IsOfDevice f ⊎ IsDamage f) }
{
    let next = next_after::<D, B, A>(cache, number)?;
    cache.free(number)?;
    Ok(next)
}

// The page of the next bucket, read in the lent page.
#[tactic(auto, using(page_cache::specs::Calls::ends_so))]
fn next_after<const D: usize, B: BlockDevice, A: Allocator + Copy>(
    cache: &mut PageCache<B, A>,
    number: u32,
) -> Result<u32, Fault>
    requires dims { IsDims D }
    ensures asks { Asks cache.old cache.new result }
    ensures following { IsHonest cache.old → (c : BucketContent) →
        bucket_in D (pages cache.old number) ≡ Some c
        → IfOk result (λ next. next ≡ c.next) }
    ensures names { IsHonest cache.old → IfOk result (λ next. NamesNext D (given cache.old number) next) }
    ensures there { IsHonest cache.old → (c : BucketContent) → bucket_in D (pages cache.old number) ≡ Some c
        → IfErr result IsOfDevice }
    ensures damage { IsHonest cache.old → IfErr result (λ f. IsOfDevice f ⊎ (f ≡ fault.Damaged number)) }
    ensures other_faults { IfErr result (λ f. IsOfDevice f ⊎ IsDamage f) }
{
    let page = cache.page(number)?;
    if !has_bucket_head::<D>(page) {
        return Err(Fault::Damaged(number));
    }
    Ok(next_at(page))
}
