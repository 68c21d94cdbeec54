//! A commit: the region is synced, and then its flag.
ghost use Rattle.std.specs.Prelude.{◌≡◌, ◌↔◌, [], true, false, length, OnOk, OnErr};
ghost use Rattle.block_device.specs.Device.{Blocks, Counts, block_at};
ghost use Rattle.committed_log.specs.Committed as regions;
ghost use Rattle.committed_log.specs.Committed.{IsDurable};
ghost use Rattle.committed_log.specs.Log.{flag_block, region_of, says};
ghost use Rattle.committed_log.specs.Room.{HasRoomFor};
ghost use Rattle.logged_pair.specs.Commits.{CommitsNoMore, Either, OrNew};
ghost use Rattle.logged_pair.specs.Snapshots.{KeepsSnapshots, ShowsLast};
ghost use Rattle.logged_pair.specs.Stages.{IsRecorded, SameBehind};
ghost use Rattle.logged_pair.specs.Standing.{base_of, clearing_of, commits_of, deciding_of, homes_of};
ghost use Rattle.logged_pair.specs.Standing.{journal_of, log_of, pair_of, shown_of, IsHonest, IsSettled};
ghost use Rattle.logged_pair.specs.Standing.{IsStill, KeepsTo, SameSlots};

use crate::pair::LoggedPair;
use block_device::DeviceError;
use committed_log::flag_page;
use device_pair::DevicePair;
use std::alloc::Allocator;

impl<P: DevicePair, A: Allocator + Copy> LoggedPair<P, A> {
    // Commits what is read, where no commit has begun.
    pub(crate) fn commit_now(&mut self) -> Result<(), DeviceError>
        requires filling { deciding_of self.old ≡ false }
        requires settled { clearing_of self.old ≡ false }
        ensures durable { IsHonest self.old →
            OnOk result ((kept : Blocks) → commits_of self.new kept → kept ≡ shown_of self.old) }
        ensures settled { IsHonest self.old → OnOk result (IsSettled self.new) }
        ensures emptied { OnOk result (homes_of self.new ≡ []) }
        ensures shown { IsHonest self.old → shown_of self.new ≡ shown_of self.old }
        ensures commits { IsHonest self.old →
            CommitsNoMore (OrNew (commits_of self.old) (shown_of self.old)) (commits_of self.new) }
        ensures keeps { IsHonest self.old →
            KeepsTo (Either (commits_of self.old) (commits_of self.new)) self.old self.new }
        ensures snapshots { IsHonest self.old → KeepsSnapshots self.old self.new }
        ensures new_snapshot { IsHonest self.old → OnOk result (ShowsLast self.new) }
        ensures honest { IsHonest self.old ↔ IsHonest self.new }
        ensures faults { Counts (P.faults (pair_of self.old)) (P.faults (pair_of self.new)) result }
    {
        if self.slots.len() == 0 {
            return self.commit_appended();
        }
        self.record()?;
        self.prepare()?;
        self.decide()
    }

    // Commits blocks that were appended, where no other was written.
    fn commit_appended(&mut self) -> Result<(), DeviceError>
        requires filling { deciding_of self.old ≡ false }
        requires settled { clearing_of self.old ≡ false }
        requires none { homes_of self.old ≡ [] }
        ensures durable { IsHonest self.old →
            OnOk result ((kept : Blocks) → commits_of self.new kept → kept ≡ shown_of self.old) }
        ensures settled { IsHonest self.old → OnOk result (IsSettled self.new) }
        ensures emptied { OnOk result (homes_of self.new ≡ []) }
        ensures shown { IsHonest self.old → shown_of self.new ≡ shown_of self.old }
        ensures commits { IsHonest self.old →
            CommitsNoMore (OrNew (commits_of self.old) (shown_of self.old)) (commits_of self.new) }
        ensures keeps { IsHonest self.old →
            KeepsTo (Either (commits_of self.old) (commits_of self.new)) self.old self.new }
        ensures snapshots { IsHonest self.old → KeepsSnapshots self.old self.new }
        ensures new_snapshot { IsHonest self.old → OnOk result (ShowsLast self.new) }
        ensures honest { IsHonest self.old ↔ IsHonest self.new }
        ensures faults { Counts (P.faults (pair_of self.old)) (P.faults (pair_of self.new)) result }
    {
        self.log.sync_base()?;
        self.kept = self.log.base_blocks();
        Ok(())
    }

    // Syncs a region that is recorded, and the base, and takes the memory for its index. A commit of what is
    // read is then possible.
    fn prepare(&mut self) -> Result<(), DeviceError>
        requires filling { deciding_of self.old ≡ false }
        requires settled { clearing_of self.old ≡ false }
        requires recorded { IsHonest self.old → IsRecorded (homes_of self.old) (journal_of self.old) }
        ensures done { OnOk result (deciding_of self.new ≡ true) }
        ensures still_settled { clearing_of self.new ≡ false }
        ensures shown { IsHonest self.old → shown_of self.new ≡ shown_of self.old }
        ensures keeps { IsHonest self.old →
            KeepsTo (OrNew (commits_of self.old) (shown_of self.old)) self.old self.new }
        ensures refused { IsHonest self.old → OnErr result (KeepsTo (commits_of self.old) self.old self.new) }
        ensures snapshots { IsHonest self.old → KeepsSnapshots self.old self.new }
        ensures honest { IsHonest self.old ↔ IsHonest self.new }
        ensures faults { Counts (P.faults (pair_of self.old)) (P.faults (pair_of self.new)) result }
    {
        self.reserve_region()?;
        self.sync_region()?;
        self.deciding = true;
        Ok(())
    }

    // Takes the memory for the region in the index of those that are committed.
    fn reserve_region(&mut self) -> Result<(), DeviceError>
        ensures room { OnOk result
            (HasRoomFor (length (region_of (homes_of self.new))) (regions.slots_of (log_of self.new))) }
        ensures still { IsStill self.old self.new }
        ensures pair { pair_of self.new ≡ pair_of self.old }
        ensures faults { Counts (P.faults (pair_of self.old)) (P.faults (pair_of self.new)) result }
    {
        self.log.reserve(self.slots.len())
    }

    // Syncs the slots and their index, and the base.
    pub(crate) fn sync_region(&mut self) -> Result<(), DeviceError>
        ensures still { IsHonest self.old → IsStill self.old self.new }
        ensures slots { SameSlots self.old self.new }
        ensures synced { IsHonest self.old → OnOk result (IsDurable (log_of self.new)) }
        ensures honest { IsHonest self.old ↔ IsHonest self.new }
        ensures faults { Counts (P.faults (pair_of self.old)) (P.faults (pair_of self.new)) result }
    {
        self.log.sync_journal()?;
        self.log.sync_base()
    }

    // Has the flag say that the region is committed. Its sync is the commit. Refused, it may be asked again.
    pub(crate) fn decide(&mut self) -> Result<(), DeviceError>
        requires deciding { deciding_of self.old ≡ true }
        requires settled { clearing_of self.old ≡ false }
        ensures done { OnOk result (deciding_of self.new ≡ false) }
        ensures going_on { OnErr result (deciding_of self.new ≡ true) }
        ensures emptied { OnOk result (homes_of self.new ≡ []) }
        ensures still_settled { clearing_of self.new ≡ false }
        ensures none { homes_of self.old ≡ [] → homes_of self.new ≡ [] }
        ensures durable { IsHonest self.old →
            OnOk result ((kept : Blocks) → commits_of self.new kept → kept ≡ shown_of self.old) }
        ensures settled { IsHonest self.old → OnOk result (IsSettled self.new) }
        ensures shown { IsHonest self.old → shown_of self.new ≡ shown_of self.old }
        ensures keeps { IsHonest self.old → KeepsTo (commits_of self.old) self.old self.new }
        ensures snapshots { IsHonest self.old → KeepsSnapshots self.old self.new }
        ensures new_snapshot { IsHonest self.old → OnOk result (ShowsLast self.new) }
        ensures honest { IsHonest self.old ↔ IsHonest self.new }
        ensures faults { Counts (P.faults (pair_of self.old)) (P.faults (pair_of self.new)) result }
    {
        self.reserve_region()?; // so that nothing is refused once it is committed
        self.say_committed()?;
        self.take_region();
        Ok(())
    }

    // Takes in the region, which is committed, and for which there is memory.
    fn take_region(&mut self)
        requires deciding { deciding_of self.old ≡ true }
        requires settled { clearing_of self.old ≡ false }
        requires room { HasRoomFor (length (region_of (homes_of self.old)))
            (regions.slots_of (log_of self.old)) }
        requires said { IsHonest self.old → says (block_at 0 (journal_of self.old)) ≡ true }
        requires synced { IsHonest self.old → IsDurable (log_of self.old) }
        ensures done { deciding_of self.new ≡ false }
        ensures none { homes_of self.new ≡ [] }
        ensures still_settled { clearing_of self.new ≡ false }
        ensures durable { IsHonest self.old →
            (kept : Blocks) → commits_of self.new kept → kept ≡ shown_of self.old }
        ensures settled { IsHonest self.old → IsSettled self.new }
        ensures shown { IsHonest self.old → shown_of self.new ≡ shown_of self.old }
        ensures keeps { IsHonest self.old → KeepsTo (commits_of self.old) self.old self.new }
        ensures snapshots { IsHonest self.old → KeepsSnapshots self.old self.new }
        ensures new_snapshot { IsHonest self.old → ShowsLast self.new }
        ensures honest { IsHonest self.old ↔ IsHonest self.new }
        ensures faults { P.faults (pair_of self.new) ≡ P.faults (pair_of self.old) }
    {
        self.log.take_in(self.slots.homes());
        self.slots.clear();
        self.kept = self.log.base_blocks();
        self.deciding = false;
    }

    // Has the flag say that the region is committed, and syncs it.
    fn say_committed(&mut self) -> Result<(), DeviceError>
        requires deciding { deciding_of self.old ≡ true }
        requires settled { clearing_of self.old ≡ false }
        ensures slots { SameSlots self.old self.new }
        ensures index { regions.slots_of (log_of self.new) ≡ regions.slots_of (log_of self.old) }
        ensures said { IsHonest self.old → OnOk result (says (block_at 0 (journal_of self.new)) ≡ true) }
        ensures synced { IsHonest self.old → OnOk result (IsDurable (log_of self.new)) }
        ensures shown { IsHonest self.old → shown_of self.new ≡ shown_of self.old }
        ensures keeps { IsHonest self.old → KeepsTo (commits_of self.old) self.old self.new }
        ensures snapshots { IsHonest self.old → KeepsSnapshots self.old self.new }
        ensures honest { IsHonest self.old ↔ IsHonest self.new }
        ensures faults { Counts (P.faults (pair_of self.old)) (P.faults (pair_of self.new)) result }
    {
        self.put_flag()?;
        self.log.sync_journal() // the commit
    }

    // Writes the flag of the region.
    fn put_flag(&mut self) -> Result<(), DeviceError>
        requires deciding { deciding_of self.old ≡ true }
        requires settled { clearing_of self.old ≡ false }
        ensures slots { SameSlots self.old self.new }
        ensures index { regions.slots_of (log_of self.new) ≡ regions.slots_of (log_of self.old) }
        ensures base { IsHonest self.old → base_of self.new ≡ base_of self.old }
        ensures flag { IsHonest self.old → OnOk result (block_at 0 (journal_of self.new) ≡ flag_block 1) }
        ensures behind { IsHonest self.old → SameBehind (journal_of self.new) (journal_of self.old) }
        ensures shown { IsHonest self.old → shown_of self.new ≡ shown_of self.old }
        ensures keeps { IsHonest self.old → KeepsTo (commits_of self.old) self.old self.new }
        ensures snapshots { IsHonest self.old → KeepsSnapshots self.old self.new }
        ensures honest { IsHonest self.old ↔ IsHonest self.new }
        ensures faults { Counts (P.faults (pair_of self.old)) (P.faults (pair_of self.new)) result }
    {
        self.log.write_behind(0, &flag_page(1))
    }

    // Goes on with a commit, or with a log that is begun anew, until it is finished, if there is one.
    pub(crate) fn finish(&mut self) -> Result<(), DeviceError>
        ensures done { OnOk result (deciding_of self.new ≡ false) }
        ensures settled { OnOk result (clearing_of self.new ≡ false) }
        ensures still { deciding_of self.old ≡ false → clearing_of self.old ≡ false → self.new ≡ self.old }
        ensures none { homes_of self.old ≡ [] → homes_of self.new ≡ [] }
        ensures shown { IsHonest self.old → shown_of self.new ≡ shown_of self.old }
        ensures keeps { IsHonest self.old → KeepsTo (commits_of self.old) self.old self.new }
        ensures snapshots { IsHonest self.old → KeepsSnapshots self.old self.new }
        ensures honest { IsHonest self.old ↔ IsHonest self.new }
        ensures faults { Counts (P.faults (pair_of self.old)) (P.faults (pair_of self.new)) result }
    {
        if !self.log.is_clearing() {
            return self.go_on();
        }
        self.settle_log()?;
        self.go_on()
    }

    // Goes on with a commit that has begun, if there is one.
    fn go_on(&mut self) -> Result<(), DeviceError>
        requires settled { clearing_of self.old ≡ false }
        ensures done { OnOk result (deciding_of self.new ≡ false) }
        ensures still_settled { clearing_of self.new ≡ false }
        ensures still { deciding_of self.old ≡ false → self.new ≡ self.old }
        ensures none { homes_of self.old ≡ [] → homes_of self.new ≡ [] }
        ensures shown { IsHonest self.old → shown_of self.new ≡ shown_of self.old }
        ensures keeps { IsHonest self.old → KeepsTo (commits_of self.old) self.old self.new }
        ensures snapshots { IsHonest self.old → KeepsSnapshots self.old self.new }
        ensures honest { IsHonest self.old ↔ IsHonest self.new }
        ensures faults { Counts (P.faults (pair_of self.old)) (P.faults (pair_of self.new)) result }
    {
        if self.deciding {
            return self.decide();
        }
        Ok(())
    }

    // Ends a log that is begun anew, which was refused.
    fn settle_log(&mut self) -> Result<(), DeviceError>
        requires clearing { clearing_of self.old ≡ true }
        ensures settled { OnOk result (clearing_of self.new ≡ false) }
        ensures homes { homes_of self.new ≡ homes_of self.old }
        ensures shown { IsHonest self.old → shown_of self.new ≡ shown_of self.old }
        ensures keeps { IsHonest self.old → KeepsTo (commits_of self.old) self.old self.new }
        ensures honest { IsHonest self.old ↔ IsHonest self.new }
        ensures faults { Counts (P.faults (pair_of self.old)) (P.faults (pair_of self.new)) result }
    {
        self.log.settle()
    }
}
