//! The gate opened for a change, the version raised in one, and what was put synced.
ghost use Rattle.std.specs.Prelude.{◌≡◌, ◌⊎◌, ◌↔◌, ℕ, false, IsOk, IfErr, OnOk, OnErr};
ghost use Rattle.block_device.specs.Device.{LeavesOnly, Only};
ghost use Rattle.page_file.specs.Fault.{HasCause, IsDamage, IsOfDevice};
ghost use Rattle.page_file.specs.Stops.{SameButGate};
ghost use Rattle.page_file.specs.declared.gate.Gate.TheVariants.{Open, Unsure};
ghost use Rattle.page_cache.specs.Cache.{IsHeld, IsHonest, IsUnchanged, IsWritten, KeepsGate, KeepsMap};
ghost use Rattle.page_cache.specs.Cache.{blocks_of};
ghost use Rattle.page_cache.specs.Cache.{capacity_of, device_of, gate_of, looks_of, touched_of};
ghost use Rattle.page_cache.specs.Calls.{Asks};
ghost use Rattle.page_cache.specs.GateSteps.{BeginsChange, RaisesVersion};

use crate::cache::PageCache;
use block_device::BlockDevice;
use page_file::Fault;
use std::alloc::Allocator;

impl<D: BlockDevice, A: Allocator + Copy> PageCache<D, A> {
    /// Opens the gate for a change: it is written open, alone, and synced, if it is not open already. No page
    /// is touched by this change yet.
    ///
    /// A call that changes, gives out or frees a page opens the gate too, where it is not open. Where it is
    /// open, no such call is refused for its sake.
    ///
    /// After a refusal, which is `Memory` or `Device`, the gate is unsure. The map stays.
    pub fn begin_change(&mut self) -> Result<(), Fault>
        ensures { BeginsChange self.old self.new result }
    {
        self.touched = false;
        self.file.begin_change()
    }

    /// Makes version 3 that of the file: its pages may then be all that those of such a file are. The gate
    /// has to be open.
    ///
    /// It is no call of the device, and is never refused: the header says the version once the cache is
    /// settled. Map, counts and what is held stay, and no page is touched.
    pub fn raise_version(&mut self)
        requires { gate_of self.old ≡ Open }
        ensures { RaisesVersion self.old self.new }
    {
        self.file.raise_version();
    }

    /// Writes what was put and is not yet on the device, and syncs: after an `Ok` a stop leaves the blocks as
    /// they are. The gate and the map stay, and so do the pages that are held.
    ///
    /// On an honest device a refusal is `Memory` or `Device`; on another one a page may be damaged.
    #[tactic(auto, using(crate::specs::Calls::counted_by_end))]
    pub fn flush(&mut self) -> Result<(), Fault>
        ensures asks { Asks self.old self.new result }
        ensures written { IsHonest self.old → OnOk result (IsWritten self.new) }
        ensures holds { (k : ℕ) → IsHeld self.old k → IsHeld self.new k }
        ensures durable { IsHonest self.old →
            OnOk result (Only (blocks_of self.new) (D.may_leave (device_of self.new))) }
        ensures looks { looks_of self.new ≡ looks_of self.old }
        ensures faults { IsHonest self.old → IfErr result IsOfDevice }
        ensures other_faults { IfErr result (λ f. IsOfDevice f ⊎ IsDamage f) }
    {
        self.write_all()?;
        self.file.flush()
    }
}
