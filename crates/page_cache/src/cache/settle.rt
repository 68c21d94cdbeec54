//! The gate shut after a change, and a cache closed.
ghost use Rattle.std.specs.Prelude.{◌≡◌, ◌⊎◌, ◌↔◌, ℕ, Ok, IsOk, IfOk, IfErr, OnOk, OnErr};
ghost use Rattle.block_device.specs.Device.{LeavesOnly, Only};
ghost use Rattle.page_file.specs.Fault.{HasCause, IsDamage, IsOfDevice, faults_after};
ghost use Rattle.page_file.specs.Opening.{IsRefused};
ghost use Rattle.page_file.specs.Stops.{SameButGate};
ghost use Rattle.page_file.specs.declared.gate.Gate.TheVariants.{Shut, Open, Unsure};
ghost use Rattle.page_cache.specs.Cache.{IsHeld, IsHonest, IsUnchanged, KeepsMap, LiesIn, blocks_of};
ghost use Rattle.page_cache.specs.Cache.{capacity_of};
ghost use Rattle.page_cache.specs.Cache.{device_of};
ghost use Rattle.page_cache.specs.Cache.{gate_of, looks_of};
ghost use Rattle.page_cache.specs.GateSteps.{Closes, Settles};

use crate::cache::PageCache;
use block_device::BlockDevice;
use page_file::Fault;
use std::alloc::Allocator;

impl<D: BlockDevice, A: Allocator + Copy> PageCache<D, A> {
    /// Shuts the gate after all that was put. With the gate open the pages and the header are written and
    /// synced, and then the gate is written shut and synced; with it unsure the gate alone; with it shut
    /// nothing is written. The cache stays usable, and what is held stays held.
    ///
    /// After a refusal the gate is unsure, or open as before. On an honest device that is `Memory` or
    /// `Device`. The map and the version stay.
    pub fn settle(&mut self) -> Result<(), Fault>
        ensures { Settles self.old self.new result }
    {
        self.write_all()?;
        self.file.settle()
    }

    /// Settles the cache, and hands the device back. Opened again, it has the same map and the same version.
    ///
    /// After a refusal, which on an honest device is `Memory` or `Device`, the device comes back; a stop
    /// leaves of it what one during the call leaves.
    pub fn close(self) -> Result<D, (Fault, D)>
        ensures { Closes self result }
    {
        let mut cache = self;
        let settled = cache.settle();
        let device = cache.abandon();
        match settled {
            Ok(()) => Ok(device),
            Err(fault) => Err((fault, device)),
        }
    }
}
