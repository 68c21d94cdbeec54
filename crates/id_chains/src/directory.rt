//! The directory page: the first page of each chain.

ghost use Rattle.std.specs.Prelude.{◌≡◌, ◌<◌, ◌≤◌, ◌+◌, ◌⊎◌, ◌↔◌, List, ℕ, Some, IsTrue, IfOk, IfErr, OnOk};
ghost use Rattle.std.specs.Prelude.{true};
ghost use Rattle.box_math.specs.Bounds.{IsDims};
ghost use Rattle.page_file.specs.Fault.{IsDamage, IsOfDevice};
ghost use Rattle.page_file.specs.Pages.{SameBut};
ghost use Rattle.page_file.specs.declared.fault.Fault.TheVariants as fault;
ghost use Rattle.page_cache.specs.Cache.{Grows, IsHonest, IsLive, IsPageMap, given, looks_of};
ghost use Rattle.page_cache.specs.Cache.{next_of, pages, touched_of};
ghost use Rattle.page_cache.specs.Calls.{Asks, Changes};
ghost use Rattle.id_chains.specs.Table.{IsDirectory, class_of, link_at};
ghost use Rattle.id_chains.specs.Pages.{NewDirectory, SetsLink};
ghost use Rattle.id_chains.specs.Walks.{NamesFirst};

use block_bytes::{DIRECTORY_KIND, read_u8, read_u32, write_u8, write_u32, zero_block};
use block_device::BlockDevice;
use page_cache::PageCache;
use page_file::Fault;
use std::alloc::Allocator;

// The chain of an identifier.
pub(crate) fn class_of(id: u64) -> usize
    ensures value { result ≡ class_of id }
    ensures bound { result < 1000 }
{
    (id % 1000) as usize
}

// Whether the page begins as a directory of this dimension.
pub(crate) fn is_directory<const D: usize>(page: &[u8; 4096]) -> bool
    ensures { IsTrue result ↔ IsDirectory D page.now }
{
    read_u8(page, 0) == DIRECTORY_KIND && usize::from(read_u8(page, 1)) == D
}

// The first page of a chain, or 0 if it has none.
pub(crate) fn link_of(page: &[u8; 4096], class: usize) -> u32
    requires class { class < 1000 }
    ensures { result ≡ link_at class page.now }
{
    read_u32(page, 16 + 4 * class)
}

// Makes the page a directory of empty chains.
pub(crate) fn write_directory<const D: usize>(page: &mut [u8; 4096])
    requires { IsDims D }
    ensures { NewDirectory D page.new }
{
    *page = zero_block();
    write_u8(page, 0, DIRECTORY_KIND);
    write_u8(page, 1, D as u8);
}

// Writes the first page of a chain into a directory.
pub(crate) fn set_link(page: &mut [u8; 4096], class: usize, first: u32)
    requires class { class < 1000 }
    ensures { SetsLink class first page.old page.new }
{
    write_u32(page, 16 + 4 * class, first);
}

// The first page of a chain, read in the lent directory. A page that is none of this dimension is `Damaged`.
#[tactic(auto, using(page_cache::specs::Calls::ends_so))]
pub(crate) fn read_link<const D: usize, B: BlockDevice, A: Allocator + Copy>(
    cache: &mut PageCache<B, A>,
    directory: u32,
    class: usize,
) -> Result<u32, Fault>
    requires class { class < 1000 }
    ensures asks { Asks cache.old cache.new result }
    ensures link { IsHonest cache.old → (page : List ℕ) → pages cache.old directory ≡ Some page →
        IsDirectory D page
        → IfOk result (λ first. first ≡ link_at class page) }
    ensures names { IsHonest cache.old →
        IfOk result (λ first. NamesFirst D (given cache.old directory) class first) }
    ensures there { IsHonest cache.old → (page : List ℕ) → pages cache.old directory ≡ Some page →
        IsDirectory D page
        → IfErr result IsOfDevice }
    ensures damage { IsHonest cache.old → IfErr result (λ f. IsOfDevice f ⊎ (f ≡ fault.Damaged directory)) }
    ensures other_faults { IfErr result (λ f. IsOfDevice f ⊎ IsDamage f) }
{
    let page = cache.page(directory)?;
    if !is_directory::<D>(page) {
        return Err(Fault::Damaged(directory));
    }
    Ok(link_of(page, class))
}

// The bytes of a page.
#[tactic(auto, using(page_cache::specs::Calls::ends_so))]
pub(crate) fn copy_page<B: BlockDevice, A: Allocator + Copy>(
    cache: &mut PageCache<B, A>,
    number: u32,
) -> Result<[u8; 4096], Fault>
    ensures asks { Asks cache.old cache.new result }
    ensures bytes { IsHonest cache.old → IsLive cache.old number
        → IfOk result (λ bytes. pages cache.old number ≡ Some bytes) }
    ensures given_bytes { IsHonest cache.old → IfOk result (λ bytes. given cache.old number ≡ Some bytes) }
    ensures given_faults { IsHonest cache.old → 2 ≤ number → number < next_of cache.old →
        IfErr result IsOfDevice }
    ensures looks { looks_of cache.new ≤ looks_of cache.old + 1 }
    ensures faults { IsHonest cache.old → IsLive cache.old number → IfErr result IsOfDevice }
    ensures damage { IsHonest cache.old → IfErr result (λ f. IsOfDevice f ⊎ (f ≡ fault.Damaged number)) }
    ensures other_faults { IfErr result (λ f. IsOfDevice f ⊎ IsDamage f) }
{
    Ok(*cache.page(number)?)
}

// Writes the first page of a chain into the directory at a live page. After a refusal that page may hold any
// bytes.
pub(crate) fn write_link<B: BlockDevice, A: Allocator + Copy>(
    cache: &mut PageCache<B, A>,
    directory: u32,
    class: usize,
    first: u32,
) -> Result<(), Fault>
    requires class { class < 1000 }
    ensures changes { Changes cache.old cache.new result }
    ensures next { next_of cache.new ≡ next_of cache.old }
    ensures written { IsHonest cache.old → (page : List ℕ) → pages cache.old directory ≡ Some page
        → OnOk result ((after : List ℕ) × (pages cache.new directory ≡ Some after)
        × SetsLink class first page after) }
    ensures live { IsHonest cache.old → IsLive cache.old directory → IsLive cache.new directory }
    ensures others { IsHonest cache.old → IsLive cache.old directory
        → SameBut directory (pages cache.old) (pages cache.new) }
    ensures sound { IsPageMap cache.old → IsLive cache.old directory → IsPageMap cache.new }
    ensures grows { Grows 0 cache.old cache.new }
    ensures faults { IsHonest cache.old → IsLive cache.old directory → IfErr result IsOfDevice }
    ensures touched { OnOk result (touched_of cache.new ≡ true) }
    ensures damage { IsHonest cache.old → IfErr result (λ f. IsOfDevice f ⊎ (f ≡ fault.Damaged directory)) }
    ensures other_faults { IfErr result (λ f. IsOfDevice f ⊎ IsDamage f) }
{
    cache.edit(
        directory,
        |page: &mut [u8; 4096]|
            requires { class < 1000 }
            ensures { SetsLink class first page.old page.new }
        { set_link(page, class, first) },
    )
}
