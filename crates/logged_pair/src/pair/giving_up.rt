//! What was written since the last commit, given up.
ghost use Rattle.std.specs.Prelude.{◌≡◌, ◌↔◌, [], false, length, OnErr, OnOk};
ghost use Rattle.block_device.specs.Device.{BeginsOne, Blocks, Counts};
ghost use Rattle.logged_pair.specs.Commits.{CommitsNoMore};
ghost use Rattle.logged_pair.specs.Snapshots.{KeepsSnapshots};
ghost use Rattle.logged_pair.specs.Standing.{base_of, clearing_of, commits_of, deciding_of, homes_of};
ghost use Rattle.logged_pair.specs.Standing.{kept_of, pair_of, shown_of, IsHonest, KeepsTo};

use crate::pair::LoggedPair;
use block_device::DeviceError;
use device_pair::DevicePair;
use std::alloc::Allocator;

impl<P: DevicePair, A: Allocator + Copy> LoggedPair<P, A> {
    /// Gives up what was written since the last commit; one that has begun is finished first. What is then
    /// read begins with a commit that was there, and is the one commit. The base is synced where blocks were
    /// appended; else no device is called.
    pub fn give_up(&mut self) -> Result<(), DeviceError>
        ensures begins { IsHonest self.old →
            OnOk result (BeginsOne (commits_of self.old) (shown_of self.new)) }
        ensures one { IsHonest self.old →
            OnOk result ((k : Blocks) → commits_of self.new k → k ≡ shown_of self.new) }
        ensures emptied { OnOk result (homes_of self.new ≡ []) }
        ensures shown { IsHonest self.old → OnErr result (shown_of self.new ≡ shown_of self.old) }
        ensures no_more { IsHonest self.old →
            OnErr result (CommitsNoMore (commits_of self.old) (commits_of self.new)) }
        ensures keeps { IsHonest self.old → KeepsTo (BeginsOne (commits_of self.old)) self.old self.new }
        ensures snapshots { IsHonest self.old → KeepsSnapshots self.old self.new }
        ensures honest { IsHonest self.old ↔ IsHonest self.new }
        ensures faults { Counts (P.faults (pair_of self.old)) (P.faults (pair_of self.new)) result }
    {
        self.finish()?;
        self.keep_appended()?;
        self.forget_slots();
        Ok(())
    }

    // Syncs blocks that were appended since the last commit, which stay.
    fn keep_appended(&mut self) -> Result<(), DeviceError>
        requires filling { deciding_of self.old ≡ false }
        requires settled { clearing_of self.old ≡ false }
        ensures filling { deciding_of self.new ≡ false }
        ensures still_settled { clearing_of self.new ≡ false }
        ensures kept { OnOk result (kept_of self.new ≡ length (base_of self.new)) }
        ensures shown { IsHonest self.old → shown_of self.new ≡ shown_of self.old }
        ensures no_more { IsHonest self.old →
            OnErr result (CommitsNoMore (commits_of self.old) (commits_of self.new)) }
        ensures keeps { IsHonest self.old → KeepsTo (BeginsOne (commits_of self.old)) self.old self.new }
        ensures snapshots { IsHonest self.old → KeepsSnapshots self.old self.new }
        ensures honest { IsHonest self.old ↔ IsHonest self.new }
        ensures faults { Counts (P.faults (pair_of self.old)) (P.faults (pair_of self.new)) result }
    {
        if self.log.base_blocks() == self.kept {
            return Ok(());
        }
        self.log.sync_base()?;
        self.kept = self.log.base_blocks();
        Ok(())
    }

    // Forgets the slots, where all blocks of the base were there at the last commit.
    fn forget_slots(&mut self)
        requires filling { deciding_of self.old ≡ false }
        requires settled { clearing_of self.old ≡ false }
        requires kept { kept_of self.old ≡ length (base_of self.old) }
        ensures none { homes_of self.new ≡ [] }
        ensures begins { IsHonest self.old → BeginsOne (commits_of self.old) (shown_of self.new) }
        ensures one { IsHonest self.old → (k : Blocks) → commits_of self.new k → k ≡ shown_of self.new }
        ensures keeps { IsHonest self.old → KeepsTo (commits_of self.old) self.old self.new }
        ensures snapshots { IsHonest self.old → KeepsSnapshots self.old self.new }
        ensures honest { IsHonest self.old ↔ IsHonest self.new }
        ensures faults { P.faults (pair_of self.new) ≡ P.faults (pair_of self.old) }
    {
        self.slots.clear();
    }
}
