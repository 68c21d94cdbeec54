//! Writes and syncs, which are noted.
ghost use Rattle.std.specs.Prelude.{◌≡◌, ◌≤◌, ◌<◌, ◌^◌, ◌↔◌, None, OnOk, false, length};
ghost use Rattle.block_device.specs.Device.{Counts};
ghost use Rattle.page_file.specs.Opening.{failed_check};
ghost use Rattle.logged_pair.specs.Snapshots.{KeepsReaders, KeepsSnapshots};
ghost use Rattle.logged_pair.specs.Standing.{shown_of, IsHonest, IsSettled};
ghost use Rattle.journaled_device.specs.Journaled.{each_home_of, inner_of, pair_of, readers_of, HasSynced};
ghost use Rattle.journaled_device.specs.Journaled.{HasWritten};

use crate::device::JournaledDevice;
use crate::device::writing::write_beside;
use crate::readers::Readers;
use block_device::DeviceError;
use device_pair::DevicePair;
use std::alloc::Allocator;

impl<P: DevicePair, A: Allocator + Copy, G: Readers> JournaledDevice<P, A, G> {
    // Writes a block. A refused one may hold anything, so it is noted too, unless it was to be appended and
    // was not.
    pub(crate) fn put(&mut self, i: u32, bytes: &[u8; 4096]) -> Result<(), DeviceError>
        requires within { i ≤ length (shown_of (inner_of self.old)) }
        requires small { i < 2 ^ 31 }
        ensures done { IsHonest (inner_of self.old) → HasWritten i bytes.now self.old result self.new }
        ensures snapshots { IsHonest (inner_of self.old) → G.somebody_reads (readers_of self.old) →
            KeepsSnapshots (inner_of self.old) (inner_of self.new) }
        ensures each_home { each_home_of self.new ≡ each_home_of self.old }
        ensures honest { IsHonest (inner_of self.old) ↔ IsHonest (inner_of self.new) }
        ensures faults { Counts (P.faults (pair_of self.old)) (P.faults (pair_of self.new)) result }
    {
        let past = self.past.with(&self.pair, &Some(i));
        let result = write_beside(&mut self.pair, &mut self.readers, i, bytes);
        if i >= self.pair.blocks() {
            return result;
        }
        self.past = past;
        result
    }

    // Commits where opening takes what is read. Where not each commit is copied home, each reader goes on to see the
    // same at each moment, block 0 aside, which it keeps as it found it.
    pub(crate) fn make_last(&mut self) -> Result<(), DeviceError>
        ensures done { IsHonest (inner_of self.old) → HasSynced self.old result self.new }
        ensures settled { IsHonest (inner_of self.old) → failed_check (shown_of (inner_of self.old)) ≡ None →
            OnOk result (IsSettled (inner_of self.new)) }
        ensures snapshots { IsHonest (inner_of self.old) → each_home_of self.old ≡ false →
            KeepsReaders (inner_of self.old) (inner_of self.new) }
        ensures each_home { each_home_of self.new ≡ each_home_of self.old }
        ensures honest { IsHonest (inner_of self.old) ↔ IsHonest (inner_of self.new) }
        ensures faults { Counts (P.faults (pair_of self.old)) (P.faults (pair_of self.new)) result }
    {
        let past = self.past.with(&self.pair, &None);
        self.pair.sync_marked(self.each_home)?;
        self.past = past;
        Ok(())
    }
}
