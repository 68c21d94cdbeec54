//! Reads, writes and syncs of the base through the regions, and of the journal behind them.
ghost use Rattle.std.specs.Prelude.{◌≡◌, ◌≤◌, ◌<◌, ◌+◌, ◌^◌, ◌↔◌, length, false, OnOk, OnErr};
ghost use Rattle.std.specs.List.{Contains};
ghost use Rattle.block_device.specs.Device.{Blocks, Torn, Counts, block_at, written};
ghost use Rattle.device_pair.specs.Pairs.{BaseFollows, JournalFollows, PairElapses};
ghost use Rattle.committed_log.specs.Appending.{AppendsOnly};
ghost use Rattle.committed_log.specs.Committed.{base_of, behind_of, clearing_of, homes_of, journal_of};
ghost use Rattle.committed_log.specs.Committed.{leaves_of, pair_of, seen_of, slots_of, IsHonest, IsStill};
ghost use Rattle.committed_log.specs.Committed.{KeepsFirst, SameLog};

use crate::log::CommittedLog;
use crate::slots::Slots;
use block_device::DeviceError;
use device_pair::DevicePair;
use std::alloc::Allocator;

impl<P: DevicePair, A: Allocator + Copy> CommittedLog<P, A> {
    /// How many blocks the base has, at most 2^31.
    pub fn base_blocks(&self) -> u32
        ensures is { result ≡ length (seen_of self.now) }
        ensures few { result ≤ 2 ^ 31 }
    {
        self.pair.base_blocks()
    }

    /// How many blocks of the journal stand behind the regions, at most 2^31.
    pub fn behind_blocks(&self) -> u32
        ensures is { result ≡ length (behind_of self.now) }
        ensures few { result ≤ 2 ^ 31 }
    {
        let start = self.slots.len();
        let blocks = self.pair.journal_blocks();
        if start >= blocks as usize {
            return 0;
        }
        blocks - start as u32
    }

    /// How many blocks the regions have.
    pub fn region_blocks(&self) -> usize
        ensures { result ≡ length (homes_of self.now) }
    {
        self.slots.len()
    }

    /// Whether a beginning anew was refused, which `settle` ends.
    pub fn is_clearing(&self) -> bool
        ensures { result ≡ clearing_of self.now }
    {
        self.clearing
    }

    /// Whether block i has a slot in the regions.
    pub fn has_slot(&self, i: u32) -> bool
        ensures none { result ≡ false → ¬ Contains (homes_of self.now) i }
    {
        self.slots.slot_of(i).is_some()
    }

    /// Reads a block of the base through the regions.
    pub fn read_base(&mut self, i: u32, into: &mut [u8; 4096]) -> Result<(), DeviceError>
        requires { i < length (seen_of self.old) }
        ensures bytes { IsHonest self.old → OnOk result (into.new ≡ block_at i (seen_of self.old)) }
        ensures still { IsHonest self.old → IsStill self.old self.new }
        ensures log { SameLog self.old self.new }
        ensures honest { IsHonest self.old ↔ IsHonest self.new }
        ensures faults { Counts (P.faults (pair_of self.old)) (P.faults (pair_of self.new)) result }
    {
        match self.slots.slot_of(i) {
            Some(k) => self.read_slot(k, into),
            None => self.pair.read_base(i, into),
        }
    }

    // Reads a block of the regions.
    pub(crate) fn read_slot(&mut self, k: usize, into: &mut [u8; 4096]) -> Result<(), DeviceError>
        requires { k < length (homes_of self.old) }
        ensures bytes { IsHonest self.old → OnOk result (into.new ≡ block_at k (journal_of self.old)) }
        ensures still { IsHonest self.old → IsStill self.old self.new }
        ensures log { SameLog self.old self.new }
        ensures honest { IsHonest self.old ↔ IsHonest self.new }
        ensures faults { Counts (P.faults (pair_of self.old)) (P.faults (pair_of self.new)) result }
    {
        if k >= self.pair.journal_blocks() as usize {
            return Err(DeviceError::Memory);
        }
        self.pair.read_journal(k as u32, into)
    }

    /// Reads a block of the journal behind the regions.
    pub fn read_behind(&mut self, i: u32, into: &mut [u8; 4096]) -> Result<(), DeviceError>
        requires { i < length (behind_of self.old) }
        ensures bytes { IsHonest self.old → OnOk result (into.new ≡ block_at i (behind_of self.old)) }
        ensures still { IsHonest self.old → IsStill self.old self.new }
        ensures log { SameLog self.old self.new }
        ensures honest { IsHonest self.old ↔ IsHonest self.new }
        ensures faults { Counts (P.faults (pair_of self.old)) (P.faults (pair_of self.new)) result }
    {
        let at = self.slots.len() + i as usize;
        self.pair.read_journal(at as u32, into)
    }

    /// Writes a block of the base, or adds it, where it has no slot in the regions. Where it has one the answer
    /// is `Memory`, and nothing was done.
    pub fn write_base(&mut self, i: u32, bytes: &[u8; 4096]) -> Result<(), DeviceError>
        requires within { i ≤ length (seen_of self.old) }
        requires small { i < 2 ^ 31 }
        requires settled { clearing_of self.old ≡ false }
        ensures written { IsHonest self.old →
            OnOk result (seen_of self.new ≡ written i bytes.now (seen_of self.old)) }
        ensures torn { IsHonest self.old → OnErr result (Torn i (seen_of self.old) (seen_of self.new)) }
        ensures behind { IsHonest self.old → behind_of self.new ≡ behind_of self.old }
        ensures stops { IsHonest self.old → BaseFollows (Torn i) (leaves_of self.old) (leaves_of self.new) }

        // The same of the base and of the whole journal, as who has read only some regions sees them.
        ensures base { IsHonest self.old → Torn i (base_of self.old) (base_of self.new) }
        ensures journal { IsHonest self.old → journal_of self.new ≡ journal_of self.old }
        ensures base_stops { IsHonest self.old →
            BaseFollows (Torn i) (P.may_leave (pair_of self.old)) (P.may_leave (pair_of self.new)) }
        ensures time { IsHonest self.old →
            PairElapses (P.moment (pair_of self.old)) (P.moment (pair_of self.new))
            (P.left_since (pair_of self.old))
            (P.left_since (pair_of self.new)) (P.may_leave (pair_of self.new)) }
        ensures log { SameLog self.old self.new }
        ensures honest { IsHonest self.old ↔ IsHonest self.new }
        ensures faults { Counts (P.faults (pair_of self.old)) (P.faults (pair_of self.new)) result }
    {
        if self.has_slot(i) {
            return Err(DeviceError::Memory);
        }
        self.pair.write_base(i, bytes)
    }

    /// Writes a block of the journal behind the regions, or adds it.
    pub fn write_behind(&mut self, i: u32, bytes: &[u8; 4096]) -> Result<(), DeviceError>
        requires within { i ≤ length (behind_of self.old) }
        requires settled { clearing_of self.old ≡ false }
        ensures written { IsHonest self.old →
            OnOk result (behind_of self.new ≡ written i bytes.now (behind_of self.old)) }
        ensures torn { IsHonest self.old → OnErr result (Torn i (behind_of self.old) (behind_of self.new)) }
        ensures seen { IsHonest self.old → seen_of self.new ≡ seen_of self.old }
        ensures base { IsHonest self.old → base_of self.new ≡ base_of self.old }
        ensures stops { IsHonest self.old →
            JournalFollows (Torn i) (leaves_of self.old) (leaves_of self.new) }

        // The regions stay, in each outcome too.
        ensures regions { IsHonest self.old →
            KeepsFirst (length (homes_of self.old)) (journal_of self.old) (journal_of self.new) }
        ensures region_stops { IsHonest self.old →
            JournalFollows (KeepsFirst (length (homes_of self.old))) (P.may_leave (pair_of self.old))
            (P.may_leave (pair_of self.new)) }

        // Behind the last block it only appends.
        ensures appends { IsHonest self.old → i ≡ length (behind_of self.old) → AppendsOnly self.old self.new }
        ensures time { IsHonest self.old →
            PairElapses (P.moment (pair_of self.old)) (P.moment (pair_of self.new))
            (P.left_since (pair_of self.old))
            (P.left_since (pair_of self.new)) (P.may_leave (pair_of self.new)) }
        ensures log { SameLog self.old self.new }
        ensures honest { IsHonest self.old ↔ IsHonest self.new }
        ensures faults { Counts (P.faults (pair_of self.old)) (P.faults (pair_of self.new)) result }
    {
        let at = self.slots.len() + i as usize;
        if at > self.pair.journal_blocks() as usize || at >= 1 << 31 {
            return Err(DeviceError::Memory);
        }
        self.pair.write_journal(at as u32, bytes)
    }

    /// Syncs the base: after an `Ok` a stop leaves it as it is read.
    pub fn sync_base(&mut self) -> Result<(), DeviceError>
        ensures durable { IsHonest self.old →
            OnOk result ((v j : Blocks) → leaves_of self.new v j → v ≡ seen_of self.old) }
        ensures still { IsHonest self.old → IsStill self.old self.new }
        ensures log { SameLog self.old self.new }
        ensures honest { IsHonest self.old ↔ IsHonest self.new }
        ensures faults { Counts (P.faults (pair_of self.old)) (P.faults (pair_of self.new)) result }
    {
        self.pair.sync_base()
    }

    /// Syncs the journal: after an `Ok` a stop leaves it as it is read.
    pub fn sync_journal(&mut self) -> Result<(), DeviceError>
        ensures durable { IsHonest self.old →
            OnOk result ((v j : Blocks) → leaves_of self.new v j → j ≡ behind_of self.old) }
        ensures still { IsHonest self.old → IsStill self.old self.new }
        ensures log { SameLog self.old self.new }
        ensures honest { IsHonest self.old ↔ IsHonest self.new }
        ensures faults { Counts (P.faults (pair_of self.old)) (P.faults (pair_of self.new)) result }
    {
        self.pair.sync_journal()
    }

    /// Its pair, as it is.
    pub fn into_pair(self) -> P
        ensures { result ≡ pair_of self }
    {
        self.into_parts().0
    }

    /// Its pair and the index of its regions, as they are.
    pub fn into_parts(self) -> (P, Slots<A>)
        ensures pair { result.0 ≡ pair_of self }
        ensures slots { result.1 ≡ slots_of self }
    {
        let CommittedLog {
            pair,
            slots,
            clearing: _,
        } = self;
        (pair, slots)
    }
}
