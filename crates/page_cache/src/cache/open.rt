//! The beginning of a cache: put over a file, or checked again after a closing.
ghost use Rattle.std.specs.Prelude.{◌≡◌, ◌↔◌, ◌≤◌, ℕ, IfOk, IfErr};
ghost use Rattle.block_device.specs.Device.{Blocks};
ghost use Rattle.page_file.specs.Fault.{HasCause, IsOfDevice};
ghost use Rattle.page_file.specs.File as below;
ghost use Rattle.page_file.specs.declared.fault.Fault.TheVariants as fault;
ghost use Rattle.page_file.specs.declared.gate.Gate.TheVariants.{Shut};
ghost use Rattle.page_cache.specs.Cache.{IsHeld, IsHonest, IsPageMap, KeepsGate, KeepsMap, LiesIn, blocks_of};
ghost use Rattle.page_cache.specs.Cache.{capacity_of, device_of, gate_of, given, looks_of, next_of, pages};
ghost use Rattle.page_cache.specs.GateSteps.{Covers};

use crate::cache::PageCache;
use block_device::BlockDevice;
use lru::LruCache;
use page_file::{Fault, PageFile};
use std::alloc::Allocator;
use std::num::NonZeroUsize;

impl<D: BlockDevice, A: Allocator + Copy> PageCache<D, A> {
    /// Puts a cache of at most `capacity` pages, 8 to 4096, over a file. It shows what the file shows, and
    /// holds no page yet.
    ///
    /// A refusal is `Memory`, and the device of the file comes back as it is, without a call of it.
    pub fn over(alloc: A, file: PageFile<D>, capacity: u32) -> Result<PageCache<D, A>, (Fault, D)>
        requires few { 8 ≤ capacity }
        requires many { capacity ≤ 4096 }
        ensures { Covers file capacity result }
    {
        let Some(capacity) = NonZeroUsize::new(capacity as usize) else {
            unreachable!()
        };
        match LruCache::new(alloc, capacity) {
            Ok(frames) => Ok(PageCache {
                file,
                frames,
                spare: None,
                looks: 0,
                touched: false,
            }),
            Err(_) => Err((Fault::Memory, file.abandon())),
        }
    }

    /// Syncs the device, and reads and checks gate and header again, as opening does. The gate has to be
    /// shut. No page is held afterwards: each is read anew.
    ///
    /// On an honest device the map is then what it was, and a refusal is `Memory` or `Device`; on another
    /// one a check may fail.
    pub fn check_again(&mut self) -> Result<(), Fault>
        requires { gate_of self.old ≡ Shut }
        ensures gate { KeepsGate self.old self.new }
        ensures map { IsHonest self.old → KeepsMap self.old self.new }
        ensures blocks { IsHonest self.old → blocks_of self.new ≡ blocks_of self.old }
        ensures forgets { (n : ℕ) → ¬ (IsHeld self.new n) }
        ensures looks { looks_of self.new ≡ looks_of self.old }
        ensures capacity { capacity_of self.new ≡ capacity_of self.old }
        ensures faults { IsHonest self.old → IfErr result IsOfDevice }
        ensures never { IfErr result (λ e. ¬ (e ≡ fault.NoPages)) }
        ensures cause { HasCause (D.faults (device_of self.old)) (D.faults (device_of self.new)) result }
    {
        self.frames.clear();
        self.file.check_again()
    }
}
