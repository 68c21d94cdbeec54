//! A pair in memory.
ghost use Rattle.std.specs.Prelude.{◌≡◌, ℕ, []};
ghost use Rattle.block_device.specs.Memory.{IsLeftBy};
ghost use Rattle.device_pair.specs.Memory.{base_of, journal_of, may_leave_of, AreLeft};
ghost use Rattle.device_pair.specs.Memory.{base_history_of, earlier_of, journal_history_of};

use crate::DevicePair;
use crate::two_devices::TwoDevices;
use block_device::{Left, MemoryDevice};
use std::alloc::{Allocator, Global};

/// A pair of devices in memory, which is honest and never fails, and of which a stop can be tried.
pub type MemoryPair<A = Global> = TwoDevices<MemoryDevice<A>, MemoryDevice<A>>;

impl<A: Allocator + Copy> TwoDevices<MemoryDevice<A>, MemoryDevice<A>> {
    /// Two devices without blocks, which take their memory from this allocator.
    pub fn new(alloc: A) -> Self
        ensures base { base_of result ≡ [] }
        ensures journal { journal_of result ≡ [] }
        ensures base_history { base_history_of result ≡ [] }
        ensures journal_history { journal_history_of result ≡ [] }
        ensures earlier { earlier_of result ≡ [] }
        ensures honest { ⟦<TwoDevices<MemoryDevice<A>, MemoryDevice<A>> as DevicePair>⟧.honest result }
    {
        TwoDevices::of(MemoryDevice::new(alloc), MemoryDevice::new(alloc))
    }

    /// The pair as a stop now leaves it, with nothing unsynced. It takes no memory.
    pub fn after_stop(self, base: Left, journal: Left) -> Self
        ensures base { IsLeftBy base self.base result.base }
        ensures journal { IsLeftBy journal self.journal result.journal }
        ensures earlier { earlier_of result ≡ [] }
        ensures outcome { may_leave_of self (base_of result) (journal_of result) }
        ensures durable { AreLeft (base_of result) (journal_of result) (may_leave_of result) }
        ensures honest { ⟦<TwoDevices<MemoryDevice<A>, MemoryDevice<A>> as DevicePair>⟧.honest result }
    {
        TwoDevices::of(self.base.after_stop(base), self.journal.after_stop(journal))
    }
}
