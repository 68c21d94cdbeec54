//! What is copied home in a session: the gate with its first commit, and a long log where nobody reads.
ghost use Rattle.std.specs.Prelude.{◌≡◌, ◌^◌, ◌<◌, ◌↔◌, [], false, None, OnErr, OnOk};
ghost use Rattle.block_device.specs.Device.{Blocks, Counts, Torn, written};
ghost use Rattle.page_file.specs.Opening.{failed_check};
ghost use Rattle.logged_pair.specs.Commits.{OrOpened};
ghost use Rattle.logged_pair.specs.Snapshots.{KeepsReaders};
ghost use Rattle.logged_pair.specs.Standing.{clearing_of, commits_of, deciding_of, homes_of, pair_of, shown_of};
ghost use Rattle.logged_pair.specs.Standing.{IsHonest, IsSettled, KeepsTo};

use crate::pair::LoggedPair;
use block_device::DeviceError;
use device_pair::DevicePair;
use std::alloc::Allocator;

impl<P: DevicePair, A: Allocator + Copy> LoggedPair<P, A> {
    /// Writes a block, which a commit then makes last, where nobody reads. A log that has grown long is copied home
    /// before.
    pub fn write_alone(&mut self, i: u32, bytes: &[u8; 4096]) -> Result<(), DeviceError>
        requires small { i < 2 ^ 31 }
        ensures written { IsHonest self.old →
            OnOk result (shown_of self.new ≡ written i bytes.now (shown_of self.old)) }
        ensures torn { IsHonest self.old → OnErr result (Torn i (shown_of self.old) (shown_of self.new)) }
        ensures keeps { IsHonest self.old → KeepsTo (commits_of self.old) self.old self.new }
        ensures honest { IsHonest self.old ↔ IsHonest self.new }
        ensures faults { Counts (P.faults (pair_of self.old)) (P.faults (pair_of self.new)) result }
    {
        self.copy_long()?;
        self.finish()?;
        self.write_now(i, bytes)
    }

    // Copies home a log that has grown long.
    fn copy_long(&mut self) -> Result<(), DeviceError>
        ensures shown { IsHonest self.old → shown_of self.new ≡ shown_of self.old }
        ensures keeps { IsHonest self.old → KeepsTo (commits_of self.old) self.old self.new }
        ensures honest { IsHonest self.old ↔ IsHonest self.new }
        ensures faults { Counts (P.faults (pair_of self.old)) (P.faults (pair_of self.new)) result }
    {
        if !self.is_long() {
            return Ok(());
        }
        self.copy_home()
    }

    /// Commits what is read where opening takes it, and makes no call but reads where it does not. After the first
    /// commit of a session that has slots block 0 is copied home, so that a mark of the base is on disk before it is
    /// answered; with `each_home` each commit is copied, whole, for a base that others read without its journal. After
    /// an `Ok` what opening takes is the only commit, after an `Err` it may be one more.
    pub fn sync_marked(&mut self, each_home: bool) -> Result<(), DeviceError>
        ensures shown { IsHonest self.old → shown_of self.new ≡ shown_of self.old }
        ensures durable { IsHonest self.old → failed_check (shown_of self.old) ≡ None →
            OnOk result ((kept : Blocks) → commits_of self.new kept → kept ≡ shown_of self.old) }
        ensures settled { IsHonest self.old → failed_check (shown_of self.old) ≡ None →
            OnOk result (IsSettled self.new) }
        ensures keeps { IsHonest self.old →
            KeepsTo (OrOpened (commits_of self.old) (shown_of self.old)) self.old self.new }

        // Where not each commit is copied home, each reader goes on to see the same at each moment, block 0 aside.
        ensures readers { IsHonest self.old → each_home ≡ false → KeepsReaders self.old self.new }
        ensures honest { IsHonest self.old ↔ IsHonest self.new }
        ensures faults { Counts (P.faults (pair_of self.old)) (P.faults (pair_of self.new)) result }
    {
        if !self.is_taken()? {
            return Ok(());
        }
        let slots = self.slots.len();
        self.commit()?;
        self.mark(slots, each_home)
    }

    // Copies block 0 home where what was committed with so many slots was the first of a session that has any; or
    // all of it, where each commit is copied.
    fn mark(&mut self, slots: usize, each_home: bool) -> Result<(), DeviceError>
        requires none { homes_of self.old ≡ [] }
        ensures shown { IsHonest self.old → shown_of self.new ≡ shown_of self.old }
        ensures settled { IsHonest self.old → IsSettled self.old → OnOk result (IsSettled self.new) }
        ensures keeps { IsHonest self.old → KeepsTo (commits_of self.old) self.old self.new }
        ensures readers { IsHonest self.old → each_home ≡ false → KeepsReaders self.old self.new }
        ensures honest { IsHonest self.old ↔ IsHonest self.new }
        ensures faults { Counts (P.faults (pair_of self.old)) (P.faults (pair_of self.new)) result }
    {
        if slots == 0 {
            return Ok(());
        }
        if each_home {
            return self.copy_home();
        }
        self.mark_once()
    }

    // Copies block 0 home where it was not in this session.
    fn mark_once(&mut self) -> Result<(), DeviceError>
        requires none { homes_of self.old ≡ [] }
        ensures shown { IsHonest self.old → shown_of self.new ≡ shown_of self.old }
        ensures settled { IsHonest self.old → IsSettled self.old → OnOk result (IsSettled self.new) }
        ensures keeps { IsHonest self.old → KeepsTo (commits_of self.old) self.old self.new }
        ensures readers { IsHonest self.old → KeepsReaders self.old self.new }
        ensures honest { IsHonest self.old ↔ IsHonest self.new }
        ensures faults { Counts (P.faults (pair_of self.old)) (P.faults (pair_of self.new)) result }
    {
        if self.marked {
            return Ok(());
        }
        self.copy_gate()?;
        self.marked = true;
        Ok(())
    }

    // Copies block 0 home, and no other, and syncs it. All of the log stays.
    fn copy_gate(&mut self) -> Result<(), DeviceError>
        requires none { homes_of self.old ≡ [] }
        ensures shown { IsHonest self.old → shown_of self.new ≡ shown_of self.old }
        ensures settled { IsHonest self.old → OnOk result (IsSettled self.new) }
        ensures keeps { IsHonest self.old → KeepsTo (commits_of self.old) self.old self.new }
        ensures readers { IsHonest self.old → KeepsReaders self.old self.new }
        ensures honest { IsHonest self.old ↔ IsHonest self.new }
        ensures faults { Counts (P.faults (pair_of self.old)) (P.faults (pair_of self.new)) result }
    {
        self.finish()?;
        self.put_gate_home()?;
        self.sync_region()
    }

    // Copies block 0 home once the base is synced, where no commit has begun.
    fn put_gate_home(&mut self) -> Result<(), DeviceError>
        requires none { homes_of self.old ≡ [] }
        requires filling { deciding_of self.old ≡ false }
        requires settled { clearing_of self.old ≡ false }
        ensures shown { IsHonest self.old → shown_of self.new ≡ shown_of self.old }
        ensures durable { IsHonest self.old → OnOk result (IsSettled self.new) }
        ensures keeps { IsHonest self.old → KeepsTo (commits_of self.old) self.old self.new }
        ensures readers { IsHonest self.old → KeepsReaders self.old self.new }
        ensures honest { IsHonest self.old ↔ IsHonest self.new }
        ensures faults { Counts (P.faults (pair_of self.old)) (P.faults (pair_of self.new)) result }
    {
        self.log.sync_base()?;
        self.log.copy_first()
    }
}
