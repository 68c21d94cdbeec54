//! What is committed, brought home.
ghost use Rattle.std.specs.Prelude.{◌≡◌, ◌↔◌, [], false, true, IfOk};
ghost use Rattle.block_device.specs.Device.{BeginsOne, Counts};
ghost use Rattle.device_pair.specs.Pairs.{PairLeaves};
ghost use Rattle.committed_log.specs.Committed as regions;
ghost use Rattle.committed_log.specs.Log.{recovered};
ghost use Rattle.logged_pair.specs.Commits.{CommitsNoMore};
ghost use Rattle.logged_pair.specs.Standing.{commits_of, homes_of, log_of, shown_of, IsHonest};
ghost use Rattle.journaled_device.specs.Journaled.{each_home_of, events_of, inner_of, pair_of, readers_of};

use crate::device::JournaledDevice;
use crate::readers::Readers;
use block_device::DeviceError;
use device_pair::DevicePair;
use std::alloc::Allocator;

impl<P: DevicePair, A: Allocator + Copy, G: Readers> JournaledDevice<P, A, G> {
    /// Copies home what is committed, where no block that was there was written since the last commit. It tells
    /// whether it did: where somebody reads all stays as it is. After true nobody reads any more. A stop within the
    /// call, or after it, brings back blocks that begin with a commit that was there.
    pub fn bring_home(&mut self) -> Result<bool, DeviceError>
        requires { homes_of (inner_of self.old) ≡ [] }
        ensures done { IfOk result (λ t. t ≡ true → regions.homes_of (log_of (inner_of self.new)) ≡ []) }
        ensures beside { IfOk result (λ t. t ≡ false → inner_of self.new ≡ inner_of self.old) }
        ensures reads { G.somebody_reads (readers_of self.old) → inner_of self.new ≡ inner_of self.old }
        ensures none { homes_of (inner_of self.new) ≡ [] }
        ensures shown { IsHonest (inner_of self.old) →
            shown_of (inner_of self.new) ≡ shown_of (inner_of self.old) }
        ensures no_more { IsHonest (inner_of self.old) →
            CommitsNoMore (commits_of (inner_of self.old)) (commits_of (inner_of self.new)) }
        ensures stops { IsHonest (inner_of self.old) →
            PairLeaves P.moment P.left_since (pair_of self.old) (pair_of self.new)
            (λ a b. BeginsOne (commits_of (inner_of self.old)) (recovered a b)) }
        ensures synced { events_of self.new ≡ events_of self.old }
        ensures each_home { each_home_of self.new ≡ each_home_of self.old }
        ensures honest { IsHonest (inner_of self.old) ↔ IsHonest (inner_of self.new) }
        ensures faults { Counts (P.faults (pair_of self.old)) (P.faults (pair_of self.new)) result }
    {
        if !self.readers.shut_out() {
            return Ok(false);
        }
        self.pair.copy_home()?;
        Ok(true)
    }
}
