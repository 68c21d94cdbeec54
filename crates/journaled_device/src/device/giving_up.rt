//! What was written since the last commit, given up.
ghost use Rattle.std.specs.Prelude.{◌≡◌, ◌↔◌, [], OnErr, OnOk};
ghost use Rattle.block_device.specs.Device.{BeginsOne, Blocks, Counts, Only};
ghost use Rattle.device_pair.specs.Pairs.{PairLeaves};
ghost use Rattle.committed_log.specs.Log.{recovered};
ghost use Rattle.logged_pair.specs.Commits.{CommitsNoMore};
ghost use Rattle.logged_pair.specs.Standing.{commits_of, homes_of, shown_of, IsHonest};
ghost use Rattle.journaled_device.specs.Journaled.{each_home_of, inner_of, may_leave_of, pair_of};

use crate::device::JournaledDevice;
use crate::giving_up::GivesUp;
use crate::readers::Readers;
use block_device::DeviceError;
use device_pair::{DevicePair, Snapshots};
use std::alloc::Allocator;

impl<P: DevicePair, A: Allocator + Copy, G> JournaledDevice<P, A, G> {
    /// Gives up what was written since the last commit, as [`GivesUp::give_up`] says. A stop within the call,
    /// or after it, brings back blocks that begin with a commit that was there.
    pub fn forget(&mut self) -> Result<(), DeviceError>
        ensures begins { IsHonest (inner_of self.old) →
            OnOk result (BeginsOne (commits_of (inner_of self.old)) (shown_of (inner_of self.new))) }
        ensures durable { IsHonest (inner_of self.old) →
            OnOk result (Only (shown_of (inner_of self.new)) (may_leave_of self.new)) }
        ensures one { IsHonest (inner_of self.old) →
            OnOk result ((k : Blocks) → commits_of (inner_of self.new) k → k ≡ shown_of (inner_of self.new)) }
        ensures emptied { OnOk result (homes_of (inner_of self.new) ≡ []) }
        ensures shown { IsHonest (inner_of self.old) →
            OnErr result (shown_of (inner_of self.new) ≡ shown_of (inner_of self.old)) }
        ensures no_more { IsHonest (inner_of self.old) → OnErr result (CommitsNoMore
            (commits_of (inner_of self.old)) (commits_of (inner_of self.new))) }
        ensures stops { IsHonest (inner_of self.old) →
            PairLeaves P.moment P.left_since (pair_of self.old) (pair_of self.new)
            (λ a b. BeginsOne (commits_of (inner_of self.old)) (recovered a b)) }
        ensures each_home { each_home_of self.new ≡ each_home_of self.old }
        ensures honest { IsHonest (inner_of self.old) ↔ IsHonest (inner_of self.new) }
        ensures faults { Counts (P.faults (pair_of self.old)) (P.faults (pair_of self.new)) result }
    {
        self.pair.give_up()?;
        self.past = Snapshots::new();
        Ok(())
    }
}

impl<P: DevicePair, A: Allocator + Copy, G: Readers> GivesUp for JournaledDevice<P, A, G> {
    fn give_up(&mut self) -> Result<(), DeviceError> {
        self.forget()
    }
}
