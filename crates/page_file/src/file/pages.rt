//! The pages: given out, written, freed and read.
ghost use Rattle.std.specs.Prelude.{◌≡◌, ◌⊎◌, ◌≤◌, ◌<◌, ◌+◌, ◌-◌, ◌^◌, ℕ, Some, None, true, Err, IsErrOf};
ghost use Rattle.std.specs.Prelude.{IfOk};
ghost use Rattle.std.specs.Prelude.{IfErr, OnOk, OnErr};
ghost use Rattle.block_bytes.specs.Numbers.{zeros};
ghost use Rattle.block_device.specs.Device.{Only, Torn, block_at, written};
ghost use Rattle.page_file.specs.Fault.{HasCause, IsOfDevice, IsDamage};
ghost use Rattle.page_file.specs.File.{device_of, blocks_of, free_of, header_of, IsBroken, IsHonest, gate_of};
ghost use Rattle.page_file.specs.File.{Grows, IsFull, next_of, pages, given, IsLive, IsPageMap, KeepsGate};
ghost use Rattle.page_file.specs.File.{KeepsMap};
ghost use Rattle.page_file.specs.Layout.{free_block};
ghost use Rattle.page_file.specs.Pages.{BreaksAt, HasGiven, MayHaveGiven, SameBut, TakesFirst, may_link};
ghost use Rattle.page_file.specs.Pages.{free_page_link};
ghost use Rattle.page_file.specs.Pages.{next_given, with_one_free, with_one_given, with_one_taken};
ghost use Rattle.page_file.specs.declared.fault.Fault.TheVariants as fault;
ghost use Rattle.page_file.specs.declared.gate.Gate.TheVariants.{Open};

use crate::Fault;
use crate::blocks::{read_block, write_block};
use crate::file::PageFile;
use crate::header::Header;
use crate::layout::{free_link, free_page};
use block_bytes::zero_block;
use block_device::BlockDevice;
use std::alloc::Allocator;

const MOST_PAGES: u32 = 1 << 31;

impl<D: BlockDevice> PageFile<D> {
    /// Gives out a page of zeros that was not live: the first free page where there is one, and else one of a
    /// new number. The gate has to be open.
    ///
    /// After a refusal one page that was not live may hold any bytes, and may be live; all others are as
    /// before. `NoPages` comes only where each number from 2 to 2^31 - 1 is live. `Damaged` comes with the
    /// number of the first free page, where its block is not that of a free page (docs/FORMAT.md, "Pages");
    /// nothing has changed then.
    pub fn allocate(&mut self) -> Result<u32, Fault>
        requires { gate_of self.old ≡ Open }
        ensures gate { KeepsGate self.old self.new }
        ensures fresh { IsPageMap self.old →
            IfOk result (λ n. (pages self.old n ≡ None) × (pages self.new n ≡ Some zeros) ×
            SameBut n (pages self.old) (pages self.new)) }
        ensures taken { IsPageMap self.old →
            IfOk result (λ n. TakesFirst n (free_of self.old) (next_of self.old) (free_of self.new)
            (next_of self.new)) }
        ensures refused { IsPageMap self.old →
            OnErr result ((n : ℕ) × (pages self.old n ≡ None) × SameBut n (pages self.old) (pages self.new)) }
        ensures sound { IsPageMap self.old → IsPageMap self.new }
        ensures given_others { IsHonest self.old →
            IfOk result (λ n. SameBut n (given self.old) (given self.new)) }
        ensures given_refused { IsHonest self.old →
            OnErr result ((n : ℕ) × SameBut n (given self.old) (given self.new)) }
        ensures which { IfOk result (λ n. n ≡ next_given (header_of self.old)) }
        ensures gives { IsHonest self.old →
            OnOk result (HasGiven (blocks_of self.old) (blocks_of self.new) (header_of self.old)
            (header_of self.new)) }
        ensures may_give { IsHonest self.old →
            OnErr result (MayHaveGiven (blocks_of self.old) (blocks_of self.new) (header_of self.old)
            (header_of self.new)) }
        ensures number { IfOk result (λ n. (3 ≤ n) × (n < next_of self.new)) }
        ensures next { (next_of self.old ≤ next_of self.new) × (next_of self.new ≤ next_of self.old + 1) }
        ensures refused_next { OnErr result (next_of self.new ≡ next_of self.old) }
        ensures grows { Grows 1 self.old self.new }
        ensures full { IsErrOf result fault.NoPages → IsFull self.old × IsFull self.new }
        ensures all_live { IsErrOf result fault.NoPages → (n : ℕ) → 2 ≤ n → n < 2 ^ 31 → IsLive self.old n }
        ensures faults { IsPageMap self.old → IfErr result (λ f. IsOfDevice f ⊎ (f ≡ fault.NoPages)) }
        ensures damaged { IsHonest self.old →
            IfErr result (λ f. IsOfDevice f ⊎ ((f ≡ fault.NoPages) ⊎ IsBroken self.old self.new f)) }
        ensures other_faults { IfErr result (λ f. IsOfDevice f ⊎ ((f ≡ fault.NoPages) ⊎ IsDamage f)) }
        ensures cause { HasCause (D.faults (device_of self.old)) (D.faults (device_of self.new)) result }
    {
        self.give_out()
    }

    // The same, told of blocks and header.
    fn give_out(&mut self) -> Result<u32, Fault>
        requires { gate_of self.old ≡ Open }
        ensures gate { KeepsGate self.old self.new }
        ensures which { IfOk result (λ n. n ≡ next_given (header_of self.old)) }
        ensures gives { IsHonest self.old →
            OnOk result (HasGiven (blocks_of self.old) (blocks_of self.new) (header_of self.old)
            (header_of self.new)) }
        ensures may_give { IsHonest self.old →
            OnErr result (MayHaveGiven (blocks_of self.old) (blocks_of self.new) (header_of self.old)
            (header_of self.new)) }
        ensures number { IfOk result (λ n. (3 ≤ n) × (n < next_of self.new)) }
        ensures next { (next_of self.old ≤ next_of self.new) × (next_of self.new ≤ next_of self.old + 1) }
        ensures refused_next { OnErr result (next_of self.new ≡ next_of self.old) }
        ensures grows { Grows 1 self.old self.new }
        ensures full { IsErrOf result fault.NoPages → IsFull self.old × IsFull self.new }
        ensures damaged { IsHonest self.old →
            IfErr result (λ f. IsOfDevice f ⊎ ((f ≡ fault.NoPages) ⊎ IsBroken self.old self.new f)) }
        ensures other_faults { IfErr result (λ f. IsOfDevice f ⊎ ((f ≡ fault.NoPages) ⊎ IsDamage f)) }
        ensures cause { HasCause (D.faults (device_of self.old)) (D.faults (device_of self.new)) result }
    {
        if self.header.count == 0 {
            return self.give_new();
        }
        self.give_first()
    }

    // Gives out a page of a new number.
    fn give_new(&mut self) -> Result<u32, Fault>
        requires { gate_of self.old ≡ Open }
        ensures gate { KeepsGate self.old self.new }
        ensures header { IfOk result (λ n. (n ≡ next_of self.old) ×
            (header_of self.new ≡ with_one_given (header_of self.old))) }
        ensures refused_header { OnErr result (header_of self.new ≡ header_of self.old) }
        ensures block { IsHonest self.old →
            OnOk result (blocks_of self.new ≡ written (next_of self.old) zeros (blocks_of self.old)) }
        ensures torn { IsHonest self.old → Torn (next_of self.old) (blocks_of self.old) (blocks_of self.new) }
        ensures number { IfOk result (λ n. (3 ≤ n) × (n < next_of self.new)) }
        ensures next { (next_of self.old ≤ next_of self.new) × (next_of self.new ≤ next_of self.old + 1) }
        ensures no_pages { IsErrOf result fault.NoPages → next_of self.old ≡ 2 ^ 31 }
        ensures faults { IsHonest self.old → IfErr result (λ f. IsOfDevice f ⊎ (f ≡ fault.NoPages)) }
        ensures other_faults { IfErr result (λ f. IsOfDevice f ⊎ ((f ≡ fault.NoPages) ⊎ IsDamage f)) }
        ensures cause { HasCause (D.faults (device_of self.old)) (D.faults (device_of self.new)) result }
    {
        let n = self.header.next;
        if n >= MOST_PAGES {
            return Err(Fault::NoPages);
        }
        write_block(&mut self.device, n, &zero_block())?;
        self.header.next = n + 1;
        Ok(n)
    }

    // Gives out the first free page. Its link is read, then it leaves the chain in memory, and only then it
    // is written: were that write torn while the chain still led through it, the map would be lost.
    fn give_first(&mut self) -> Result<u32, Fault>
        requires open { gate_of self.old ≡ Open }
        requires some { 0 < (header_of self.old).count }
        ensures gate { KeepsGate self.old self.new }
        ensures which { IfOk result (λ n. n ≡ (header_of self.old).first) }
        ensures header { IsHonest self.old →
            OnOk result (header_of self.new ≡ with_one_taken (blocks_of self.old) (header_of self.old)) }
        ensures refused_header { IsHonest self.old →
            OnErr result (((header_of self.new ≡ header_of self.old)
            × (blocks_of self.new ≡ blocks_of self.old)) ⊎
            (header_of self.new ≡ with_one_taken (blocks_of self.old) (header_of self.old))) }
        ensures block { IsHonest self.old →
            OnOk result (blocks_of self.new ≡ written (header_of self.old).first zeros (blocks_of self.old)) }
        ensures torn { IsHonest self.old →
            Torn (header_of self.old).first (blocks_of self.old) (blocks_of self.new) }
        ensures grows { Grows 1 self.old self.new }
        ensures number { (3 ≤ (header_of self.old).first) × ((header_of self.old).first < next_of self.old) }
        ensures next { next_of self.new ≡ next_of self.old }
        ensures damaged { IsHonest self.old →
            IfErr result (λ f. IsOfDevice f ⊎ IsBroken self.old self.new f) }
        ensures other_faults { IfErr result (λ f. IsOfDevice f ⊎ IsDamage f) }
        ensures cause { HasCause (D.faults (device_of self.old)) (D.faults (device_of self.new)) result }
    {
        let n = self.header.first;
        let link = self.read_link(n, self.header.count)?;
        self.header = Header {
            version: self.header.version,
            next: self.header.next,
            first: link,
            count: self.header.count - 1,
        };
        self.write(n, &zero_block())?;
        Ok(n)
    }

    // The page that a free page names as the next, where so many are free from it on. `Damaged` with its
    // number where it is no free page as the format has it.
    fn read_link(&mut self, n: u32, count: u32) -> Result<u32, Fault>
        requires within { (3 ≤ n) × (n < next_of self.old) }
        ensures gate { KeepsGate self.old self.new }
        ensures map { KeepsMap self.old self.new }
        ensures header { header_of self.new ≡ header_of self.old }
        ensures blocks { IsHonest self.old → blocks_of self.new ≡ blocks_of self.old }
        ensures link { IsHonest self.old →
            IfOk result (λ link. free_page_link count (next_of self.old) (block_at n
            (blocks_of self.old)) ≡ Some link) }
        ensures there { IfOk result (λ link. may_link count (next_of self.old) link ≡ true) }
        ensures damaged { IsHonest self.old →
            IfErr result (λ f. IsOfDevice f ⊎
            ((f ≡ fault.Damaged n) ×
            (free_page_link count (next_of self.old) (block_at n (blocks_of self.old)) ≡ None))) }
        ensures other_faults { IfErr result (λ f. IsOfDevice f ⊎ (f ≡ fault.Damaged n)) }
        ensures cause { HasCause (D.faults (device_of self.old)) (D.faults (device_of self.new)) result }
    {
        let mut page = zero_block();
        self.read(n, &mut page)?;
        match free_link(&page, count, self.header.next) {
            Some(link) => Ok(link),
            None => Err(Fault::Damaged(n)),
        }
    }

    /// The free pages, in the order in which they are given out again. `Damaged` where they are no chain of
    /// free pages as the format has it (docs/FORMAT.md, "Pages"), with the number of the page at which it
    /// ends to be one: where a page of it is of another kind, where it closes on itself, and where it is
    /// longer or shorter than the count.
    pub fn free_pages<A: Allocator>(&mut self, alloc: A) -> Result<Vec<u32, A>, Fault>
        ensures gate { KeepsGate self.old self.new }
        ensures map { KeepsMap self.old self.new }
        ensures header { header_of self.new ≡ header_of self.old }
        ensures blocks { IsHonest self.old → blocks_of self.new ≡ blocks_of self.old }
        ensures pages { IsHonest self.old → IfOk result (λ found. found.items ≡ free_of self.old) }
        ensures sound { IsHonest self.old → OnOk result (IsPageMap self.old) }
        ensures faults { IsPageMap self.old → IfErr result IsOfDevice }
        ensures damaged { IsHonest self.old →
            IfErr result (λ f. IsOfDevice f ⊎
            ((n : ℕ) × (f ≡ fault.Damaged n) × BreaksAt (blocks_of self.old) (header_of self.old) n)) }
        ensures other_faults { IfErr result (λ f. IsOfDevice f ⊎ IsDamage f) }
        ensures cause { HasCause (D.faults (device_of self.old)) (D.faults (device_of self.new)) result }
    {
        let mut found = Vec::new(alloc);
        let mut next = self.header.first;
        let mut left = self.header.count;
        while left > 0 {
            let link = self.read_link(next, left)?;
            found.push(next)?;
            next = link;
            left -= 1;
        }
        Ok(found)
    }

    /// The first free page, 0 where there is none.
    pub fn first_free(&self) -> u32
        ensures { result ≡ (header_of self.now).first }
    {
        self.header.first
    }

    /// Writes a live page. The gate has to be open. A number outside 2 to the last one given out is `Damaged`
    /// with that number, without a call of the device.
    ///
    /// After a refusal the page is still live and may hold any bytes; all others are as before. On an honest
    /// device that is `Memory` or `Device`. A page given out that is not live is written, too, and no other
    /// page given out changes; which pages are live is then not said.
    pub fn write(&mut self, n: u32, bytes: &[u8; 4096]) -> Result<(), Fault>
        requires { gate_of self.old ≡ Open }
        ensures gate { KeepsGate self.old self.new }
        ensures written { IsHonest self.old → IsLive self.old n →
            OnOk result (pages self.new n ≡ Some bytes.now) }
        ensures live { IsHonest self.old → IsLive self.old n → IsLive self.new n }
        ensures others { IsHonest self.old → IsLive self.old n → SameBut n (pages self.old) (pages self.new) }
        ensures given { IsHonest self.old → OnOk result (given self.new n ≡ Some bytes.now) }
        ensures given_others { IsHonest self.old → SameBut n (given self.old) (given self.new) }
        ensures sound { IsPageMap self.old → IsLive self.old n → IsPageMap self.new }
        ensures header { header_of self.new ≡ header_of self.old }
        ensures block { IsHonest self.old →
            OnOk result (blocks_of self.new ≡ written n bytes.now (blocks_of self.old)) }
        ensures torn { IsHonest self.old → Torn n (blocks_of self.old) (blocks_of self.new) }
        ensures next { next_of self.new ≡ next_of self.old }
        ensures outside { (n < 2) ⊎ (next_of self.old ≤ n) →
            (result ≡ Err (fault.Damaged n)) × (self.new ≡ self.old) }
        ensures faults { IsHonest self.old → 2 ≤ n → n < next_of self.old → IfErr result IsOfDevice }
        ensures other_faults { IfErr result (λ f. IsOfDevice f ⊎ (f ≡ fault.Damaged n)) }
        ensures cause { HasCause (D.faults (device_of self.old)) (D.faults (device_of self.new)) result }
    {
        if n < 2 || n >= self.header.next {
            return Err(Fault::Damaged(n));
        }
        write_block(&mut self.device, n, bytes)
    }

    /// Frees a live page other than the catalog: it is no longer live, and is the first of the free pages.
    /// The gate has to be open. A number outside 3 to the last one given out is `Damaged` with that number,
    /// without a call of the device.
    ///
    /// After a refusal the page may hold any bytes, and may be live or not; all others are as before.
    /// With a sound map that is `Memory` or `Device`. No other page given out changes, live or not.
    pub fn free(&mut self, n: u32) -> Result<(), Fault>
        requires { gate_of self.old ≡ Open }
        ensures gate { KeepsGate self.old self.new }
        ensures freed { IsHonest self.old → IsLive self.old n → OnOk result (pages self.new n ≡ None) }
        ensures others { IsHonest self.old → IsLive self.old n → SameBut n (pages self.old) (pages self.new) }
        ensures given_others { IsHonest self.old → SameBut n (given self.old) (given self.new) }
        ensures sound { IsPageMap self.old → IsLive self.old n → IsPageMap self.new }
        ensures header { OnOk result (header_of self.new ≡ with_one_free n (header_of self.old)) }
        ensures refused_header { OnErr result (header_of self.new ≡ header_of self.old) }
        ensures block { IsHonest self.old →
            OnOk result (blocks_of self.new ≡ written n (free_block (header_of self.old).first)
            (blocks_of self.old)) }
        ensures torn { IsHonest self.old → Torn n (blocks_of self.old) (blocks_of self.new) }
        ensures next { next_of self.new ≡ next_of self.old }
        ensures grows { Grows 0 self.old self.new }
        ensures outside { (n < 3) ⊎ (next_of self.old ≤ n) →
            (result ≡ Err (fault.Damaged n)) × (self.new ≡ self.old) }
        ensures faults { IsPageMap self.old → IsLive self.old n → ¬ (n ≡ 2) → IfErr result IsOfDevice }
        ensures room_faults { IsHonest self.old → 3 ≤ n → n < next_of self.old →
            (header_of self.old).count < next_of self.old - 3 → IfErr result IsOfDevice }
        ensures other_faults { IfErr result (λ f. IsOfDevice f ⊎ (f ≡ fault.Damaged n)) }
        ensures cause { HasCause (D.faults (device_of self.old)) (D.faults (device_of self.new)) result }
    {
        // Where the page is live, not all are free; the last test keeps the count in bounds on a device that
        // is not honest.
        if n < 3 || n >= self.header.next || self.header.count >= self.header.next - 3 {
            return Err(Fault::Damaged(n));
        }
        write_block(&mut self.device, n, &free_page(self.header.first))?;
        self.header.first = n;
        self.header.count += 1;
        Ok(())
    }

    /// Reads a page that was given out. A number outside 2 to the last one given out is `Damaged` with
    /// that number, without a call of the device. After a refusal the buffer holds anything.
    pub fn read(&mut self, n: u32, into: &mut [u8; 4096]) -> Result<(), Fault>
        ensures gate { KeepsGate self.old self.new }
        ensures map { KeepsMap self.old self.new }
        ensures bytes { IsHonest self.old → IsLive self.old n →
            OnOk result (pages self.old n ≡ Some into.new) }
        ensures given_bytes { IsHonest self.old → OnOk result (given self.old n ≡ Some into.new) }
        ensures blocks { IsHonest self.old → blocks_of self.new ≡ blocks_of self.old }
        ensures header { header_of self.new ≡ header_of self.old }
        ensures outside { (n < 2) ⊎ (next_of self.old ≤ n) →
            (result ≡ Err (fault.Damaged n)) × (self.new ≡ self.old) }
        ensures faults { IsHonest self.old → 2 ≤ n → n < next_of self.old → IfErr result IsOfDevice }
        ensures other_faults { IfErr result (λ f. IsOfDevice f ⊎ (f ≡ fault.Damaged n)) }
        ensures cause { HasCause (D.faults (device_of self.old)) (D.faults (device_of self.new)) result }
    {
        if n < 2 || n >= self.header.next {
            return Err(Fault::Damaged(n));
        }
        read_block(&mut self.device, n, into)
    }

    /// Syncs what was written, and writes nothing: after an `Ok` a stop leaves the blocks as they are.
    /// The gate and the map stay.
    pub fn flush(&mut self) -> Result<(), Fault>
        ensures gate { KeepsGate self.old self.new }
        ensures map { KeepsMap self.old self.new }
        ensures blocks { IsHonest self.old → blocks_of self.new ≡ blocks_of self.old }
        ensures durable { IsHonest self.old →
            OnOk result (Only (blocks_of self.new) (D.may_leave (device_of self.new))) }
        ensures faults { IfErr result IsOfDevice }
        ensures cause { HasCause (D.faults (device_of self.old)) (D.faults (device_of self.new)) result }
    {
        self.device.sync()?;
        Ok(())
    }
}
