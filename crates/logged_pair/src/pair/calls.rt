//! Reads, writes and commits of a base and its log.
ghost use Rattle.std.specs.Prelude.{◌≡◌, ◌≤◌, ◌<◌, ◌+◌, ◌^◌, ◌↔◌, ◌⊎◌, [], false, true, length, OnOk, OnErr};
ghost use Rattle.block_device.specs.Device.{Blocks, Torn, Counts, block_at, written};
ghost use Rattle.logged_pair.specs.Commits.{CommitsNoMore, Either, OrNew};
ghost use Rattle.logged_pair.specs.Snapshots.{KeepsLast, KeepsSnapshots, LastStays, ShowsLast};
ghost use Rattle.logged_pair.specs.Standing.{clearing_of, commits_of, deciding_of, homes_of, journal_of};
ghost use Rattle.logged_pair.specs.Standing.{log_of, pair_of, shown_of, IsHonest, IsSettled, IsStill};
ghost use Rattle.logged_pair.specs.Standing.{KeepsTo};
ghost use Rattle.committed_log.specs.Committed as regions;

use crate::pair::LoggedPair;
use block_device::DeviceError;
use device_pair::DevicePair;
use std::alloc::Allocator;

/// How many blocks a long log has at least.
const LONG_LOG: usize = 4096;

impl<P: DevicePair, A: Allocator + Copy> LoggedPair<P, A> {
    /// How many blocks there are, at most 2^31.
    pub fn blocks(&self) -> u32
        ensures is { result ≡ length (shown_of self.now) }
        ensures few { result ≤ 2 ^ 31 }
    {
        self.log.base_blocks()
    }

    /// Reads a block from its slot, or through the regions that are committed.
    pub fn read(&mut self, i: u32, into: &mut [u8; 4096]) -> Result<(), DeviceError>
        requires { i < length (shown_of self.old) }
        ensures bytes { IsHonest self.old → OnOk result (into.new ≡ block_at i (shown_of self.old)) }
        ensures still { IsHonest self.old → IsStill self.old self.new }
        ensures snapshots { IsHonest self.old → KeepsSnapshots self.old self.new }
        ensures honest { IsHonest self.old ↔ IsHonest self.new }
        ensures faults { Counts (P.faults (pair_of self.old)) (P.faults (pair_of self.new)) result }
    {
        match self.slots.slot_of(i) {
            Some(k) => self.read_slot(k, into),
            None => self.log.read_base(i, into),
        }
    }

    // Reads a slot.
    fn read_slot(&mut self, k: usize, into: &mut [u8; 4096]) -> Result<(), DeviceError>
        requires { k < length (homes_of self.old) }
        ensures bytes { IsHonest self.old → OnOk result (into.new ≡ block_at (2 + k) (journal_of self.old)) }
        ensures still { IsHonest self.old → IsStill self.old self.new }
        ensures honest { IsHonest self.old ↔ IsHonest self.new }
        ensures faults { Counts (P.faults (pair_of self.old)) (P.faults (pair_of self.new)) result }
    {
        let at = 2 + k;
        if at >= self.log.behind_blocks() as usize {
            return Err(DeviceError::Memory);
        }
        self.log.read_behind(at as u32, into)
    }

    /// Writes a block, which a commit then makes last. One that was refused before is finished first. Nothing is
    /// copied home, however long the log is.
    pub fn write(&mut self, i: u32, bytes: &[u8; 4096]) -> Result<(), DeviceError>
        requires within { i ≤ length (shown_of self.old) }
        requires small { i < 2 ^ 31 }
        ensures written { IsHonest self.old →
            OnOk result (shown_of self.new ≡ written i bytes.now (shown_of self.old)) }
        ensures torn { IsHonest self.old → OnErr result (Torn i (shown_of self.old) (shown_of self.new)) }
        ensures keeps { IsHonest self.old → KeepsTo (commits_of self.old) self.old self.new }
        ensures snapshots { IsHonest self.old → KeepsSnapshots self.old self.new }
        ensures honest { IsHonest self.old ↔ IsHonest self.new }
        ensures faults { Counts (P.faults (pair_of self.old)) (P.faults (pair_of self.new)) result }
    {
        self.finish()?;
        self.write_now(i, bytes)
    }

    /// Whether the log has grown long, where no commit is being decided and nothing was written since the last one
    /// but blocks that were appended. A caller that knows that no reader is there copies it home then, before the
    /// first write of the next commit.
    pub fn is_long(&self) -> bool
        ensures none { result ≡ true → homes_of self.now ≡ [] }
        ensures filling { result ≡ true → deciding_of self.now ≡ false }
        ensures long { result ≡ true → LONG_LOG ≤ length (regions.homes_of (log_of self.now)) }
        ensures not { result ≡ false → (deciding_of self.now ≡ true) ⊎
            ((0 < length (homes_of self.now)) ⊎ (length (regions.homes_of (log_of self.now)) < LONG_LOG)) }
    {
        if self.deciding {
            return false;
        }
        if self.slots.len() > 0 {
            return false;
        }
        self.log.region_blocks() >= LONG_LOG
    }

    /// Commits what is read: after an `Ok` it is the only commit, after an `Err` it may be one more.
    pub fn commit(&mut self) -> Result<(), DeviceError>
        ensures durable { IsHonest self.old →
            OnOk result ((kept : Blocks) → commits_of self.new kept → kept ≡ shown_of self.old) }
        ensures settled { IsHonest self.old → OnOk result (IsSettled self.new) }
        ensures emptied { OnOk result (homes_of self.new ≡ []) }
        ensures shown { IsHonest self.old → shown_of self.new ≡ shown_of self.old }
        ensures commits { IsHonest self.old →
            CommitsNoMore (OrNew (commits_of self.old) (shown_of self.old)) (commits_of self.new) }
        ensures keeps { IsHonest self.old →
            KeepsTo (Either (commits_of self.old) (commits_of self.new)) self.old self.new }
        ensures snapshots { IsHonest self.old → KeepsSnapshots self.old self.new }
        ensures new_snapshot { IsHonest self.old → OnOk result (ShowsLast self.new) }
        ensures honest { IsHonest self.old ↔ IsHonest self.new }
        ensures faults { Counts (P.faults (pair_of self.old)) (P.faults (pair_of self.new)) result }
    {
        self.finish()?;
        self.commit_now()
    }

    /// Copies home what is committed, and begins the log anew, where nothing was written since the last commit
    /// but blocks that were appended. A commit that was refused before is finished first.
    pub fn copy_home(&mut self) -> Result<(), DeviceError>
        requires none { homes_of self.old ≡ [] }
        ensures done { OnOk result (regions.homes_of (log_of self.new) ≡ []) }
        ensures none { homes_of self.new ≡ [] }
        ensures filling { OnOk result (deciding_of self.new ≡ false) }
        ensures settled { OnOk result (clearing_of self.new ≡ false) }
        ensures shown { IsHonest self.old → shown_of self.new ≡ shown_of self.old }
        ensures durable { IsHonest self.old → OnOk result (IsSettled self.new) }
        ensures keeps { IsHonest self.old → KeepsTo (commits_of self.old) self.old self.new }

        // Who has read all regions that there were sees the same at each moment, though not who has read fewer.
        ensures last { IsHonest self.old → deciding_of self.old ≡ false → KeepsLast self.old self.new }
        ensures last_stays { IsHonest self.old → deciding_of self.old ≡ false →
            OnErr result (LastStays self.old self.new) }
        ensures honest { IsHonest self.old ↔ IsHonest self.new }
        ensures faults { Counts (P.faults (pair_of self.old)) (P.faults (pair_of self.new)) result }
    {
        self.finish()?;
        self.copy_now()
    }

    // The same where no commit has begun.
    fn copy_now(&mut self) -> Result<(), DeviceError>
        requires none { homes_of self.old ≡ [] }
        requires filling { deciding_of self.old ≡ false }
        requires settled { clearing_of self.old ≡ false }
        ensures done { OnOk result (regions.homes_of (log_of self.new) ≡ []) }
        ensures none { homes_of self.new ≡ [] }
        ensures filling { deciding_of self.new ≡ false }
        ensures settled { OnOk result (clearing_of self.new ≡ false) }
        ensures shown { IsHonest self.old → shown_of self.new ≡ shown_of self.old }
        ensures durable { IsHonest self.old → OnOk result (IsSettled self.new) }
        ensures keeps { IsHonest self.old → KeepsTo (commits_of self.old) self.old self.new }
        ensures last { IsHonest self.old → KeepsLast self.old self.new }
        ensures last_stays { IsHonest self.old → OnErr result (LastStays self.old self.new) }
        ensures honest { IsHonest self.old ↔ IsHonest self.new }
        ensures faults { Counts (P.faults (pair_of self.old)) (P.faults (pair_of self.new)) result }
    {
        self.log.sync_base()?;
        self.log.copy_home()
    }

    /// Its pair, as it is.
    pub fn into_pair(self) -> P
        ensures { result ≡ pair_of self }
    {
        let LoggedPair {
            log,
            slots: _,
            kept: _,
            deciding: _,
            marked: _,
        } = self;
        log.into_pair()
    }
}
