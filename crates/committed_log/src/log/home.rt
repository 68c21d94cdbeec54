//! The slots copied home, and the log begun anew.
ghost use Rattle.std.specs.Prelude.{◌≡◌, ◌<◌, ◌≤◌, ◌↔◌, [], length, slice_index, true, false, OnErr, OnOk};
ghost use Rattle.std.specs.List.{Contains};
ghost use Rattle.block_device.specs.Device.{Counts, block_at, written};
ghost use Rattle.device_pair.specs.Pairs.{PairLeaves};
ghost use Rattle.committed_log.specs.Log.{flag_block, recovered};
ghost use Rattle.committed_log.specs.Committed.{base_of, behind_of, clearing_of, homes_of, journal_of};
ghost use Rattle.committed_log.specs.Committed.{pair_of, seen_of, IsHonest, SameLog};
ghost use Rattle.committed_log.specs.Found.{IsSlot};
ghost use Rattle.committed_log.specs.Home.{FirstShow, IsCopied, IsQuiet, WritesOnly};

use crate::flag::flag_page;
use crate::log::CommittedLog;
use block_bytes::zero_block;
use block_device::DeviceError;
use device_pair::DevicePair;
use std::alloc::Allocator;

impl<P: DevicePair, A: Allocator + Copy> CommittedLog<P, A> {
    /// Copies the newest slot of each block home, and begins the log anew: first the copies are synced, then
    /// the first flag says that its region is not committed, which is synced too. Where nothing else is
    /// behind the regions: no region there is committed, and the base is synced.
    ///
    /// What is read of the base stays, and a stop within the call leaves what is recovered to it: also by who has
    /// read all of the regions that there were, though not by who has read fewer. Refused, it may be asked again;
    /// `settle` ends one that was refused once the first flag may have been written.
    pub fn copy_home(&mut self) -> Result<(), DeviceError>
        requires settled { clearing_of self.old ≡ false }
        requires quiet { IsHonest self.old → IsQuiet self.old }
        ensures seen { IsHonest self.old → seen_of self.new ≡ seen_of self.old }
        ensures done { OnOk result (homes_of self.new ≡ []) }
        ensures settled { OnOk result (clearing_of self.new ≡ false) }
        ensures room { IsHonest self.old → length (behind_of self.old) ≤ length (behind_of self.new) }
        ensures quiet { IsHonest self.old → IsQuiet self.new }
        ensures stops { IsHonest self.old →
            PairLeaves P.moment P.left_since (pair_of self.old) (pair_of self.new)
            (λ a b. recovered a b ≡ seen_of self.old) }
        ensures last { IsHonest self.old →
            PairLeaves P.moment P.left_since (pair_of self.old) (pair_of self.new)
            (FirstShow (homes_of self.old) (seen_of self.old)) }
        ensures refused { OnErr result (homes_of self.new ≡ homes_of self.old) }
        ensures honest { IsHonest self.old ↔ IsHonest self.new }
        ensures faults { Counts (P.faults (pair_of self.old)) (P.faults (pair_of self.new)) result }
    {
        if self.slots.len() == 0 {
            return Ok(());
        }
        self.copy_slots()?;
        self.pair.sync_base()?;
        self.clearing = true;
        self.settle()
    }

    /// Ends a beginning anew that was refused, if there is one.
    pub fn settle(&mut self) -> Result<(), DeviceError>
        ensures still { clearing_of self.old ≡ false → self.new ≡ self.old }
        ensures seen { IsHonest self.old → seen_of self.new ≡ seen_of self.old }
        ensures done { clearing_of self.old ≡ true → OnOk result (homes_of self.new ≡ []) }
        ensures settled { OnOk result (clearing_of self.new ≡ false) }
        ensures refused { clearing_of self.old ≡ true → OnErr result (SameLog self.old self.new) }
        ensures room { IsHonest self.old → length (behind_of self.old) ≤ length (behind_of self.new) }
        ensures quiet { IsHonest self.old → clearing_of self.old ≡ true → IsQuiet self.new }
        ensures stops { IsHonest self.old → clearing_of self.old ≡ true →
            PairLeaves P.moment P.left_since (pair_of self.old) (pair_of self.new)
            (λ a b. recovered a b ≡ seen_of self.old) }
        ensures last { IsHonest self.old → clearing_of self.old ≡ true →
            PairLeaves P.moment P.left_since (pair_of self.old) (pair_of self.new)
            (FirstShow (homes_of self.old) (seen_of self.old)) }
        ensures honest { IsHonest self.old ↔ IsHonest self.new }
        ensures faults { Counts (P.faults (pair_of self.old)) (P.faults (pair_of self.new)) result }
    {
        if !self.clearing {
            return Ok(());
        }
        self.put_flag()?;
        self.pair.sync_journal()?;
        self.slots.clear();
        self.clearing = false;
        Ok(())
    }

    // Has the first flag say that its region is not committed.
    fn put_flag(&mut self) -> Result<(), DeviceError>
        requires clearing { clearing_of self.old ≡ true }
        ensures log { SameLog self.old self.new }
        ensures base { IsHonest self.old → base_of self.new ≡ base_of self.old }
        ensures longer { IsHonest self.old → length (journal_of self.old) ≤ length (journal_of self.new) }
        ensures flag { IsHonest self.old → OnOk result (block_at 0 (journal_of self.new) ≡ flag_block 0) }
        ensures seen { IsHonest self.old → seen_of self.new ≡ seen_of self.old }
        ensures stops { IsHonest self.old →
            PairLeaves P.moment P.left_since (pair_of self.old) (pair_of self.new)
            (λ a b. recovered a b ≡ seen_of self.old) }
        ensures last { IsHonest self.old →
            PairLeaves P.moment P.left_since (pair_of self.old) (pair_of self.new)
            (FirstShow (homes_of self.old) (seen_of self.old)) }
        ensures honest { IsHonest self.old ↔ IsHonest self.new }
        ensures faults { Counts (P.faults (pair_of self.old)) (P.faults (pair_of self.new)) result }
    {
        if self.pair.journal_blocks() == 0 {
            return Err(DeviceError::Memory);
        }
        self.pair.write_journal(0, &flag_page(0))
    }

    /// Copies block 0 home where it has a slot, and no other block. Where nothing else is behind the regions: no region
    /// there is committed, and the base is synced.
    pub fn copy_first(&mut self) -> Result<(), DeviceError>
        requires settled { clearing_of self.old ≡ false }
        requires quiet { IsHonest self.old → IsQuiet self.old }
        ensures log { SameLog self.old self.new }
        ensures journal { IsHonest self.old → journal_of self.new ≡ journal_of self.old }
        ensures only { IsHonest self.old → WritesOnly 0 self.old self.new }
        ensures seen { IsHonest self.old → seen_of self.new ≡ seen_of self.old }
        ensures quiet { IsHonest self.old → IsQuiet self.new }
        ensures stops { IsHonest self.old →
            PairLeaves P.moment P.left_since (pair_of self.old) (pair_of self.new)
            (λ a b. recovered a b ≡ seen_of self.old) }
        ensures last { IsHonest self.old →
            PairLeaves P.moment P.left_since (pair_of self.old) (pair_of self.new)
            (FirstShow (homes_of self.old) (seen_of self.old)) }
        ensures honest { IsHonest self.old ↔ IsHonest self.new }
        ensures faults { Counts (P.faults (pair_of self.old)) (P.faults (pair_of self.new)) result }
    {
        match self.slots.slot_of(0) {
            Some(k) => self.copy_slot(k),
            None => Ok(()),
        }
    }

    // Copies the newest slot of each block home, that of block 0 first: who marks a base knows then that it is written.
    fn copy_slots(&mut self) -> Result<(), DeviceError>
        requires settled { clearing_of self.old ≡ false }
        requires quiet { IsHonest self.old → IsQuiet self.old }
        ensures log { SameLog self.old self.new }
        ensures journal { IsHonest self.old → journal_of self.new ≡ journal_of self.old }
        ensures home { IsHonest self.old → OnOk result (base_of self.new ≡ seen_of self.old) }
        ensures seen { IsHonest self.old → seen_of self.new ≡ seen_of self.old }
        ensures quiet { IsHonest self.old → IsQuiet self.new }
        ensures stops { IsHonest self.old →
            PairLeaves P.moment P.left_since (pair_of self.old) (pair_of self.new)
            (λ a b. recovered a b ≡ seen_of self.old) }
        ensures last { IsHonest self.old →
            PairLeaves P.moment P.left_since (pair_of self.old) (pair_of self.new)
            (FirstShow (homes_of self.old) (seen_of self.old)) }
        ensures honest { IsHonest self.old ↔ IsHonest self.new }
        ensures faults { Counts (P.faults (pair_of self.old)) (P.faults (pair_of self.new)) result }
    {
        self.copy_first()?;
        self.copy_each()
    }

    // Copies the newest slot of each block home, one after the other.
    fn copy_each(&mut self) -> Result<(), DeviceError>
        requires settled { clearing_of self.old ≡ false }
        requires quiet { IsHonest self.old → IsQuiet self.old }
        ensures log { SameLog self.old self.new }
        ensures journal { IsHonest self.old → journal_of self.new ≡ journal_of self.old }
        ensures home { IsHonest self.old → OnOk result (base_of self.new ≡ seen_of self.old) }
        ensures seen { IsHonest self.old → seen_of self.new ≡ seen_of self.old }
        ensures quiet { IsHonest self.old → IsQuiet self.new }
        ensures stops { IsHonest self.old →
            PairLeaves P.moment P.left_since (pair_of self.old) (pair_of self.new)
            (λ a b. recovered a b ≡ seen_of self.old) }
        ensures last { IsHonest self.old →
            PairLeaves P.moment P.left_since (pair_of self.old) (pair_of self.new)
            (FirstShow (homes_of self.old) (seen_of self.old)) }
        ensures honest { IsHonest self.old ↔ IsHonest self.new }
        ensures faults { Counts (P.faults (pair_of self.old)) (P.faults (pair_of self.new)) result }
    {
        for k in 0..self.slots.len() {
            self.copy_slot(k)?;
        }
        Ok(())
    }

    // Copies a block of the regions home, where it is the newest slot of its block.
    fn copy_slot(&mut self, k: usize) -> Result<(), DeviceError>
        requires settled { clearing_of self.old ≡ false }
        requires quiet { IsHonest self.old → IsQuiet self.old }
        requires there { k < length (homes_of self.old) }
        ensures log { SameLog self.old self.new }
        ensures journal { IsHonest self.old → journal_of self.new ≡ journal_of self.old }
        ensures only { IsHonest self.old → WritesOnly (slice_index (homes_of self.old) k) self.old self.new }
        ensures copied { IsHonest self.old → OnOk result (IsCopied k self.old self.new) }
        ensures seen { IsHonest self.old → seen_of self.new ≡ seen_of self.old }
        ensures quiet { IsHonest self.old → IsQuiet self.new }
        ensures stops { IsHonest self.old →
            PairLeaves P.moment P.left_since (pair_of self.old) (pair_of self.new)
            (λ a b. recovered a b ≡ seen_of self.old) }
        ensures last { IsHonest self.old →
            PairLeaves P.moment P.left_since (pair_of self.old) (pair_of self.new)
            (FirstShow (homes_of self.old) (seen_of self.old)) }
        ensures honest { IsHonest self.old ↔ IsHonest self.new }
        ensures faults { Counts (P.faults (pair_of self.old)) (P.faults (pair_of self.new)) result }
    {
        let home = self.slots.homes()[k];
        if home >= self.pair.base_blocks() {
            return Ok(());
        }
        if !self.is_newest(home, k) {
            return Ok(());
        }
        let mut page = zero_block();
        self.read_slot(k, &mut page)?;
        self.put_home(home, &page)
    }

    // Whether block k of the regions is the newest slot of this block.
    fn is_newest(&self, home: u32, k: usize) -> bool
        ensures newest { result ≡ true → IsSlot (homes_of self.now) home k }
        ensures other { result ≡ false → ¬ IsSlot (homes_of self.now) home k }
    {
        match self.slots.slot_of(home) {
            Some(newest) => newest == k,
            None => false,
        }
    }

    // Writes a block of the base that has a slot.
    fn put_home(&mut self, home: u32, bytes: &[u8; 4096]) -> Result<(), DeviceError>
        requires settled { clearing_of self.old ≡ false }
        requires quiet { IsHonest self.old → IsQuiet self.old }
        requires slot { Contains (homes_of self.old) home }
        ensures log { SameLog self.old self.new }
        ensures journal { IsHonest self.old → journal_of self.new ≡ journal_of self.old }
        ensures only { IsHonest self.old → WritesOnly home self.old self.new }
        ensures written { IsHonest self.old →
            OnOk result (base_of self.new ≡ written home bytes.now (base_of self.old)) }
        ensures seen { IsHonest self.old → seen_of self.new ≡ seen_of self.old }
        ensures quiet { IsHonest self.old → IsQuiet self.new }
        ensures stops { IsHonest self.old →
            PairLeaves P.moment P.left_since (pair_of self.old) (pair_of self.new)
            (λ a b. recovered a b ≡ seen_of self.old) }
        ensures last { IsHonest self.old →
            PairLeaves P.moment P.left_since (pair_of self.old) (pair_of self.new)
            (FirstShow (homes_of self.old) (seen_of self.old)) }
        ensures honest { IsHonest self.old ↔ IsHonest self.new }
        ensures faults { Counts (P.faults (pair_of self.old)) (P.faults (pair_of self.new)) result }
    {
        if home >= self.pair.base_blocks() {
            return Err(DeviceError::Memory);
        }
        self.pair.write_base(home, bytes)
    }
}
