//! The calls of a device over a base and its journal.
ghost use Rattle.journaled_device.specs.DeviceLaws.{brought_of, committed_of, counts_now_of, few_shown};
ghost use Rattle.journaled_device.specs.DeviceLaws.{only_now_of, shown_counts_of, since_earlier_of};
ghost use Rattle.journaled_device.specs.Journaled.{events_of, inner_of, left_since_of, may_leave_of};
ghost use Rattle.journaled_device.specs.Journaled.{moment_of, pair_of, recovery_of};
ghost use Rattle.logged_pair.specs.Standing.{shown_of, IsHonest, IsSettled};
ghost use Rattle.page_file.specs.Opening.{failed_check};
ghost use Rattle.std.specs.Prelude.{◌≡◌, None, OnOk};
ghost use Rattle.block_device.specs.Outcomes.{no_longer_left};

use crate::device::JournaledDevice;
use crate::readers::Readers;
use block_device::{BlockDevice, DeviceError};
use device_pair::DevicePair;
use std::alloc::Allocator;

impl<P: DevicePair, A: Allocator + Copy, G: Readers> BlockDevice for JournaledDevice<P, A, G> {
    ghost shown = { λ d. shown_of (inner_of d) };

    ghost honest = { λ d. IsHonest (inner_of d) };

    ghost may_leave = { λ d c. may_leave_of d c };

    ghost moment = { λ d. moment_of d };

    ghost left_since = { λ d t c. left_since_of d t c };

    ghost recovery = { recovery_of };

    ghost faults = { λ d. P.faults (pair_of d) };

    // After a sync that commits, a stop brings back exactly what is read.
    ghost sync_gives = { λ d result e. IsHonest (inner_of d) → failed_check (shown_of (inner_of d)) ≡ None →
        OnOk result (IsSettled (inner_of e)) };

    fn blocks(&self) -> u32 {
        self.pair.blocks()
    }

    fn read(&mut self, i: u32, into: &mut [u8; 4096]) -> Result<(), DeviceError> {
        self.pair.read(i, into)
    }

    fn write(&mut self, i: u32, bytes: &[u8; 4096]) -> Result<(), DeviceError> {
        self.put(i, bytes)
    }

    fn sync(&mut self) -> Result<(), DeviceError> {
        self.make_last()
    }

    ghost few_blocks = { λ d. few_shown (inner_of d) (P.few_blocks (pair_of d)).0 };

    ghost shown_counts = { λ d h. shown_counts_of d h };

    ghost no_longer = { λ d c _ now. no_longer_left (shown_of (inner_of d)) (events_of d) c now };

    ghost whole = { λ d c _ now. now.whole };

    ghost counts_now = { λ d t c _ le now. counts_now_of d t c now };

    ghost only_now = { λ d c h left. only_now_of d h c left };

    ghost since_earlier = { λ d t u c _ le left. since_earlier_of d t u c le left };

    ghost brought_now = { λ d c h found.
        brought_of d h c (P.few_blocks (pair_of d)).0 (λ a b left. P.only_now (pair_of d) a b h left) found };

    ghost committed = { λ d k h only taken is. committed_of d h k only taken is };

    ghost faults_fit = { λ d. P.faults_fit (pair_of d) };
}
