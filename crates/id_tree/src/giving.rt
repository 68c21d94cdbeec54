//! Pages given out with what they are to hold.

ghost use Rattle.std.specs.Prelude.{◌≡◌, ◌<◌, ◌≤◌, ◌⊎◌, IfErr, IfOk, ℕ, OnOk, true, false};
ghost use Rattle.page_file.specs.Fault.{IsDamage};
ghost use Rattle.page_cache.specs.Cache.{Grows, IsLive, IsPageMap, next_of, pages, BreaksAt, IsHonest};
ghost use Rattle.page_cache.specs.Cache.{touched_of};
ghost use Rattle.page_cache.specs.Calls.{Changes};
ghost use Rattle.node_page.specs.Faults.{IsNoDamage};
ghost use Rattle.id_tree.specs.Writes.{Gives, GivesAndPuts};
ghost use Rattle.id_tree.specs.Tidy.{AreAsTidy, IsAsTidy, KeepsTidy};
ghost use Rattle.id_words.specs.Damage.{MayBreakAt};
ghost use Rattle.id_tree.specs.Works.{Works};
ghost use Rattle.page_file.specs.declared.fault.Fault.TheVariants as fault;

use block_device::BlockDevice;
use page_cache::PageCache;
use page_file::Fault;
use std::alloc::Allocator;

// Gives out a page with these bytes. After a refusal a page that was not live may be live, and all others are
// as before.
#[tactic(auto, using(page_cache::specs::Calls::turns))]
pub(crate) fn give_page<B: BlockDevice, A: Allocator + Copy>(
    cache: &mut PageCache<B, A>,
    bytes: &[u8; 4096],
) -> Result<u32, Fault>
    ensures changes { Changes cache.old cache.new result }
    ensures given { IsPageMap cache.old
        → IfOk result (λ number. Gives (pages cache.old) (pages cache.new) number bytes.now) }
    ensures number { IfOk result (λ number. (3 ≤ number) × (number < next_of cache.new)) }
    ensures sound { IsPageMap cache.old → IsPageMap cache.new }
    ensures tidy { IsPageMap cache.old → (dims : ℕ) → IsAsTidy dims (pages cache.old) bytes.now
        → OnOk result (KeepsTidy dims (pages cache.old) (pages cache.new)) }
    ensures grows { Grows 1 cache.old cache.new }
    ensures faults { IsPageMap cache.old → IfErr result (IsNoDamage cache.new) }
    ensures touched { OnOk result (touched_of cache.new ≡ true) }
    ensures damage { IsHonest cache.old → IfErr result (λ f. (n : ℕ) → f ≡ fault.Damaged n
        → BreaksAt cache.old n × MayBreakAt cache.old n) }
    ensures other_faults { IfErr result (λ f. IsNoDamage cache.new f ⊎ IsDamage f) }
{
    let number = cache.allocate()?;
    cache.put(number, bytes)?;
    Ok(number)
}

// Gives out a page with the second bytes, and puts the first ones into a live page.
#[tactic(auto, using(page_cache::specs::Calls::turns))]
pub(crate) fn give_and_put<B: BlockDevice, A: Allocator + Copy>(
    cache: &mut PageCache<B, A>,
    page: u32,
    first: &[u8; 4096],
    second: &[u8; 4096],
) -> Result<u32, Fault>
    ensures changes { Changes cache.old cache.new result }
    ensures gives { IsPageMap cache.old → IsLive cache.old page → (dims : ℕ)
        → AreAsTidy dims (pages cache.old) first.now second.now
        → Works dims cache.old cache.new result (λ number.
        GivesAndPuts (pages cache.old) (pages cache.new) page number first.now second.now)
        (IsNoDamage cache.new) }
    ensures grows { Grows 1 cache.old cache.new }
    ensures touched { OnOk result (touched_of cache.new ≡ true) }
    ensures damage { IsHonest cache.old → touched_of cache.new ≡ false
        → IfErr result (λ f. (n : ℕ) → f ≡ fault.Damaged n → MayBreakAt cache.old n) }
    ensures other_faults { IfErr result (λ f. IsNoDamage cache.new f ⊎ IsDamage f) }
{
    let number = give_page(cache, second)?;
    cache.put(page, first)?;
    Ok(number)
}
