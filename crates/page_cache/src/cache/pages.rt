//! The pages: given out, put, freed and lent.
ghost use Rattle.std.specs.Prelude.{◌≡◌, ◌⊎◌, ◌≤◌, ◌<◌, ◌+◌, ◌^◌, ℕ, List, Some, None, Err, IsErrOf, IsOk};
ghost use Rattle.std.specs.Prelude.{IfOk, IfErr, IsTrue};
ghost use Rattle.std.specs.Prelude.{OnOk, OnErr, option_map, slice_get, ◌||◌, is_ok, true};
ghost use Rattle.std.specs.Borrow.{sem};
ghost use Rattle.block_bytes.specs.Numbers.{zeros};
ghost use Rattle.node_bytes.specs.Layout.{node_test};
ghost use Rattle.page_file.specs.Fault.{HasCause, IsOfDevice, IsDamage};
ghost use Rattle.page_file.specs.Pages.{SameBut, TakesFirst};
ghost use Rattle.page_file.specs.declared.fault.Fault.TheVariants as fault;
ghost use Rattle.page_file.specs.declared.gate.Gate.TheVariants.{Open};
ghost use Rattle.page_cache.specs.Cache.{Grows, BreaksAt, IsBroken, IsFull, IsHeld, IsHonest, IsLive};
ghost use Rattle.page_cache.specs.Cache.{IsPageMap, IsUnchanged, KeepsMap};
ghost use Rattle.page_cache.specs.Cache.{device_of, free_count_of, free_of, gate_of, given, held_pages};
ghost use Rattle.page_cache.specs.Cache.{looks_of};
ghost use Rattle.page_cache.specs.Cache.{next_of, pages, touched_of};
ghost use Rattle.page_cache.specs.Calls.{Asks, Changes, IsLookedAt};
ghost use Rattle.page_cache.specs.Keeps.{KeepsBlocks};
ghost use Rattle.page_cache.specs.Loan.{EndsLookedAt, EndsReadAt};
ghost use Rattle.page_cache.specs.Uses.{Uses};
ghost use Rattle.page_cache.specs.PageSteps.{Allocates, Frees, Puts};

use crate::cache::PageCache;
use crate::frame::Frame;
use block_device::BlockDevice;
use page_file::Fault;
use std::alloc::Allocator;

impl<D: BlockDevice, A: Allocator + Copy> PageCache<D, A> {
    /// Lends a page that was given out, and counts a look. A number outside 2 to the last one given out is
    /// `Damaged` with that number, without a call of the device, and a page that is held is lent without one.
    ///
    /// A refusal counts no look; on an honest device that of a page given out is `Memory` or `Device`. Map,
    /// gate and next number stay, also after a refusal.
    pub fn page(&mut self, n: u32) -> Result<&[u8; 4096], Fault>
        ensures* looked_at { sem 𝓛 (EndsLookedAt D.row A.row D.BlockDevice A.Allocator self.entry n result) }
        ensures bytes { IsHonest self.old → IsLive self.old n →
            IfOk result (λ page. pages self.old n ≡ Some page.now) }
        ensures given_bytes { IsHonest self.old → IfOk result (λ page. given self.old n ≡ Some page.now) }
        ensures held { IsHeld self.old n → IsOk result }
        ensures outside { (n < 2) ⊎ (next_of self.old ≤ n) → IsErrOf result (fault.Damaged n) }
        ensures faults { IsHonest self.old → 2 ≤ n → n < next_of self.old → IfErr result IsOfDevice }
        ensures other_faults { IfErr result (λ f. IsOfDevice f ⊎ IsDamage f) }
    {
        self.look(n)?;
        match self.frames.peek_mru() {
            Some((_, frame)) => Ok(&frame.bytes),
            None => unreachable!(),
        }
    }

    /// Lends a page as `page` does, where it spells a node of so many axes. Another page is `Damaged` with
    /// its number, in one look. That a page spells a node is asked of its bytes once, and then known until
    /// they change, or leave memory.
    pub fn node_page<const AXES: usize>(&mut self, n: u32) -> Result<&[u8; 4096], Fault>
        ensures* read_at { sem 𝓛 (EndsReadAt D.row A.row D.BlockDevice A.Allocator self.entry n result) }
        ensures bytes { IsHonest self.old → IsLive self.old n →
            IfOk result (λ page. pages self.old n ≡ Some page.now) }
        ensures given_bytes { IsHonest self.old → IfOk result (λ page. given self.old n ≡ Some page.now) }
        ensures spells { IfOk result (λ page. node_test AXES page.now ≡ true) }
        ensures held { IsHeld self.old n → IfErr result (λ f. f ≡ fault.Damaged n) }
        ensures outside { (n < 2) ⊎ (next_of self.old ≤ n) → IsErrOf result (fault.Damaged n) }
        ensures there { IsHonest self.old → (page : List ℕ) → given self.old n ≡ Some page
            → node_test AXES page ≡ true → IfErr result IsOfDevice }
        ensures faults { IsHonest self.old → IfErr result (λ f. IsOfDevice f ⊎ (f ≡ fault.Damaged n)) }
        ensures other_faults { IfErr result (λ f. IsOfDevice f ⊎ IsDamage f) }
    {
        self.look(n)?;
        if !self.is_node::<AXES>(n) {
            return Err(Fault::Damaged(n));
        }
        match self.frames.peek_mru() {
            Some((_, frame)) => Ok(&frame.bytes),
            None => unreachable!(),
        }
    }

    // Whether the page used last spells a node of so many axes.
    fn is_node<const AXES: usize>(&mut self, n: u32) -> bool
        requires { IsHeld self.old n }
        ensures kept { KeepsBlocks self.old self.new }
        ensures file { self.new.file ≡ self.old.file }
        ensures held { held_pages self.new ≡ held_pages self.old }
        ensures holds { (k : ℕ) → IsHeld self.old k → IsHeld self.new k }
        ensures first { (f : Frame A) → slice_get self.old.frames.entries 0 ≡ Some (n, f)
            → (g : Frame A) × (slice_get self.new.frames.entries 0 ≡ Some (n, g)) × (g.bytes ≡ f.bytes)
            × (result ≡ node_test AXES f.bytes.value) }
    {
        let _count = self.frames.len();
        if self.is_known_node::<AXES>() {
            return true;
        }
        match self.frames.peek_mut(&n) {
            Some(frame) => frame.learn_node::<AXES>(),
            None => unreachable!(),
        }
    }

    // Whether the page used last is known to spell a node of so many axes.
    fn is_known_node<const AXES: usize>(&self) -> bool
        ensures { IsTrue result → (n : ℕ) (f : Frame A) → slice_get self.now.frames.entries 0 ≡ Some (n, f)
            → node_test AXES f.bytes.value ≡ true }
    {
        match self.frames.peek_mru() {
            Some((_, frame)) => frame.is_known_node::<AXES>(),
            None => false,
        }
    }

    // Makes a page the one used last, and counts a look.
    fn look(&mut self, n: u32) -> Result<(), Fault>
        ensures looked_at { IsLookedAt self.old self.new n result }
        ensures first { OnOk result ((f : _) × (slice_get self.new.frames.entries 0 ≡ Some (n, f)) ×
            (IsHonest self.old → given self.old n ≡ Some f.bytes.value)) }
        ensures held { IsHeld self.old n → IsOk result }
        ensures outside { (n < 2) ⊎ (next_of self.old ≤ n) → result ≡ Err (fault.Damaged n) }
        ensures faults { IsHonest self.old → 2 ≤ n → n < next_of self.old → IfErr result IsOfDevice }
        ensures other_faults { IfErr result (λ f. IsOfDevice f ⊎ IsDamage f) }
    {
        self.load(n)?;
        self.looks = self.looks.saturating_add(1);
        Ok(())
    }

    // Makes a page the one used last, and brings it in where it is not held.
    pub(crate) fn load(&mut self, n: u32) -> Result<(), Fault>
        ensures kept { KeepsBlocks self.old self.new }
        ensures first { OnOk result (option_map (λ e. e.0) (slice_get self.new.frames.entries 0) ≡ Some n) }
        ensures uses { Uses self.old self.new n result }
        ensures held { IsHeld self.old n → (self.new.file ≡ self.old.file) × IsOk result }
        ensures outside { (n < 2) ⊎ (next_of self.old ≤ n) →
            (result ≡ Err (fault.Damaged n)) × (self.new.file ≡ self.old.file) }
        ensures faults { IsHonest self.old → 2 ≤ n → n < next_of self.old → IfErr result IsOfDevice }
        ensures other_faults { IfErr result (λ f. IsOfDevice f ⊎ IsDamage f) }
        ensures cause { HasCause (D.faults (device_of self.old)) (D.faults (device_of self.new)) result }
    {
        if self.promote(n) {
            return Ok(());
        }
        if n < 2 || n >= self.file.next_number() {
            return Err(Fault::Damaged(n));
        }
        self.fetch(n)
    }

    /// Changes a live page in memory, and holds it. The gate is opened, if it is not open. A number outside 2
    /// to the last one given out is `Damaged` with that number, without a call of the device.
    ///
    /// After a refusal, which on an honest device is `Memory` or `Device`, the map is as before.
    #[tactic(auto, using(crate::specs::Calls::counted_by_end))]
    pub fn put(&mut self, n: u32, bytes: &[u8; 4096]) -> Result<(), Fault>
        ensures { Puts n bytes.now self.old self.new result }
    {
        self.refill(n, |page: &mut [u8; 4096]| *page = *bytes)
    }

    /// Gives out a page of zeros that was not live: the first free page where there is one, and else one of a
    /// new number. The gate is opened, if it is not open.
    ///
    /// After a refusal one page that was not live may hold any bytes, and may be live; all others are as
    /// before. `NoPages` comes only where each number from 2 to 2^31 - 1 is live. `Damaged` comes with the
    /// number of the first free page, where that is no free page (docs/FORMAT.md, "Pages"). A refusal that
    /// leaves as many pages free leaves the map.
    #[tactic(auto, using(crate::specs::Calls::counted_by_end))]
    pub fn allocate(&mut self) -> Result<u32, Fault>
        ensures { Allocates self.old self.new result }
    {
        self.open_gate()?;
        // The block of the page that is given out next is read and written below, so that page is not held.
        let first = self.file.first_free();
        self.release(first)?;
        let free = self.file.free_count();
        let allocated = self.file.allocate();
        self.touched |= allocated.is_ok() | (self.file.free_count() != free);
        allocated
    }

    /// Frees a live page other than the catalog: it is no longer live. The gate is opened, if it is not open.
    /// A number outside 3 to the last one given out is `Damaged` with that number, without a call of the
    /// device.
    ///
    /// After a refusal the page may hold any bytes, and may be live or not; all others are as before.
    /// With a sound map that is `Memory` or `Device`.
    #[tactic(auto, using(crate::specs::Calls::counted_by_end))]
    pub fn free(&mut self, n: u32) -> Result<(), Fault>
        ensures { Frees n self.old self.new result }
    {
        if n < 3 || n >= self.file.next_number() {
            return Err(Fault::Damaged(n));
        }
        self.open_gate()?;
        self.forget(n);
        self.touched = true;
        self.file.free(n)
    }

    /// The free pages, in the order in which they are given out again. `Damaged` where they are no chain of
    /// free pages as the format has it (docs/FORMAT.md, "Pages"), with the number of the page at which it
    /// ends to be one.
    ///
    /// What was put is written first. Map and gate stay, and so do the pages that are held.
    #[tactic(auto, using(crate::specs::Calls::counted_by_end))]
    pub fn free_pages<H: Allocator>(&mut self, alloc: H) -> Result<Vec<u32, H>, Fault>
        ensures asks { Asks self.old self.new result }
        ensures pages { IsHonest self.old → IfOk result (λ found. found.items ≡ free_of self.old) }
        ensures sound { IsHonest self.old → OnOk result (IsPageMap self.old) }
        ensures holds { (k : ℕ) → IsHeld self.old k → IsHeld self.new k }
        ensures damaged { IsHonest self.old →
            IfErr result (λ f. IsOfDevice f ⊎
            ((n : ℕ) × (f ≡ fault.Damaged n) × BreaksAt self.old n)) }
        ensures looks { looks_of self.new ≡ looks_of self.old }
        ensures faults { IsPageMap self.old → IfErr result IsOfDevice }
        ensures other_faults { IfErr result (λ f. IsOfDevice f ⊎ IsDamage f) }
    {
        self.write_all()?;
        self.file.free_pages(alloc)
    }
}
