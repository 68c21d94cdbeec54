//! Blocks written before a commit.
ghost use Rattle.std.specs.Prelude.{◌≡◌, ◌≤◌, ◌<◌, ◌+◌, ◌^◌, ◌↔◌, ◌⊎◌, ℕ, false, length, OnOk, OnErr};
ghost use Rattle.block_device.specs.Device.{Torn, Counts, written};
ghost use Rattle.committed_log.specs.Found.{IsSlot};
ghost use Rattle.committed_log.specs.Room.{HasRoomFor};
ghost use Rattle.logged_pair.specs.Snapshots.{KeepsSnapshots};
ghost use Rattle.logged_pair.specs.Standing.{base_of, clearing_of, commits_of, deciding_of, homes_of};
ghost use Rattle.logged_pair.specs.Standing.{journal_of, kept_of, pair_of, shown_of, slots_of, IsHonest};
ghost use Rattle.logged_pair.specs.Standing.{KeepsTo, SameSlots};

use crate::pair::LoggedPair;
use block_device::DeviceError;
use device_pair::DevicePair;
use std::alloc::Allocator;

impl<P: DevicePair, A: Allocator + Copy> LoggedPair<P, A> {
    // Writes a block of the region, not its flag.
    pub(crate) fn put_journal(&mut self, at: usize, bytes: &[u8; 4096]) -> Result<(), DeviceError>
        requires filling { deciding_of self.old ≡ false }
        requires settled { clearing_of self.old ≡ false }
        requires behind { 0 < at }
        ensures slots { SameSlots self.old self.new }
        ensures room { (n : ℕ) → HasRoomFor n (slots_of self.old) → HasRoomFor n (slots_of self.new) }
        ensures base { IsHonest self.old → base_of self.new ≡ base_of self.old }
        ensures there { OnOk result (at ≤ length (journal_of self.old)) }
        ensures written { IsHonest self.old →
            OnOk result (journal_of self.new ≡ written at bytes.now (journal_of self.old)) }
        ensures torn { IsHonest self.old → (Torn at (journal_of self.old) (journal_of self.new) ×
            (at ≤ length (journal_of self.old))) ⊎ (journal_of self.new ≡ journal_of self.old) }
        ensures keeps { IsHonest self.old → KeepsTo (commits_of self.old) self.old self.new }
        ensures snapshots { IsHonest self.old → KeepsSnapshots self.old self.new }
        ensures honest { IsHonest self.old ↔ IsHonest self.new }
        ensures faults { Counts (P.faults (pair_of self.old)) (P.faults (pair_of self.new)) result }
    {
        if at > self.log.behind_blocks() as usize {
            return Err(DeviceError::Memory);
        }
        self.log.write_behind(at as u32, bytes)
    }

    // Writes a block of the base behind those of the last commit.
    pub(crate) fn put_behind(&mut self, i: u32, bytes: &[u8; 4096]) -> Result<(), DeviceError>
        requires filling { deciding_of self.old ≡ false }
        requires settled { clearing_of self.old ≡ false }
        requires behind { kept_of self.old ≤ i }
        requires small { i < 2 ^ 31 }
        ensures slots { SameSlots self.old self.new }
        ensures written { IsHonest self.old →
            OnOk result (shown_of self.new ≡ written i bytes.now (shown_of self.old)) }
        ensures torn { IsHonest self.old → OnErr result (Torn i (shown_of self.old) (shown_of self.new)) }
        ensures keeps { IsHonest self.old → KeepsTo (commits_of self.old) self.old self.new }
        ensures snapshots { IsHonest self.old → KeepsSnapshots self.old self.new }
        ensures honest { IsHonest self.old ↔ IsHonest self.new }
        ensures faults { Counts (P.faults (pair_of self.old)) (P.faults (pair_of self.new)) result }
    {
        if i > self.log.base_blocks() {
            return Err(DeviceError::Memory);
        }
        self.log.write_base(i, bytes)
    }

    // Writes a block that has a slot.
    pub(crate) fn put_again(
        &mut self,
        slot: usize,
        i: u32,
        bytes: &[u8; 4096],
    ) -> Result<(), DeviceError>
        requires filling { deciding_of self.old ≡ false }
        requires settled { clearing_of self.old ≡ false }
        requires slot { IsSlot (homes_of self.old) i slot }
        requires committed { i < kept_of self.old }
        ensures written { IsHonest self.old →
            OnOk result (shown_of self.new ≡ written i bytes.now (shown_of self.old)) }
        ensures torn { IsHonest self.old → OnErr result (Torn i (shown_of self.old) (shown_of self.new)) }
        ensures keeps { IsHonest self.old → KeepsTo (commits_of self.old) self.old self.new }
        ensures snapshots { IsHonest self.old → KeepsSnapshots self.old self.new }
        ensures honest { IsHonest self.old ↔ IsHonest self.new }
        ensures faults { Counts (P.faults (pair_of self.old)) (P.faults (pair_of self.new)) result }
    {
        self.put_journal(2 + slot, bytes)
    }

    // Writes a block that has none. The memory is taken before the write, so that no slot is written that is
    // not found.
    pub(crate) fn put_first(&mut self, i: u32, bytes: &[u8; 4096]) -> Result<(), DeviceError>
        requires filling { deciding_of self.old ≡ false }
        requires settled { clearing_of self.old ≡ false }
        requires committed { i < kept_of self.old }
        ensures written { IsHonest self.old →
            OnOk result (shown_of self.new ≡ written i bytes.now (shown_of self.old)) }
        ensures torn { IsHonest self.old → OnErr result (Torn i (shown_of self.old) (shown_of self.new)) }
        ensures keeps { IsHonest self.old → KeepsTo (commits_of self.old) self.old self.new }
        ensures snapshots { IsHonest self.old → KeepsSnapshots self.old self.new }
        ensures honest { IsHonest self.old ↔ IsHonest self.new }
        ensures faults { Counts (P.faults (pair_of self.old)) (P.faults (pair_of self.new)) result }
    {
        self.slots.reserve(1)?;
        self.put_next(i, bytes)
    }

    // Writes a block into a new slot, for which there is memory.
    fn put_next(&mut self, i: u32, bytes: &[u8; 4096]) -> Result<(), DeviceError>
        requires filling { deciding_of self.old ≡ false }
        requires settled { clearing_of self.old ≡ false }
        requires committed { i < kept_of self.old }
        requires room { HasRoomFor 1 (slots_of self.old) }
        ensures written { IsHonest self.old →
            OnOk result (shown_of self.new ≡ written i bytes.now (shown_of self.old)) }
        ensures torn { IsHonest self.old → OnErr result (Torn i (shown_of self.old) (shown_of self.new)) }
        ensures keeps { IsHonest self.old → KeepsTo (commits_of self.old) self.old self.new }
        ensures snapshots { IsHonest self.old → KeepsSnapshots self.old self.new }
        ensures honest { IsHonest self.old ↔ IsHonest self.new }
        ensures faults { Counts (P.faults (pair_of self.old)) (P.faults (pair_of self.new)) result }
    {
        let at = 2 + self.slots.len();
        self.put_journal(at, bytes)?;
        self.slots.push(i);
        Ok(())
    }

    // Writes a block, where no commit has begun.
    pub(crate) fn write_now(&mut self, i: u32, bytes: &[u8; 4096]) -> Result<(), DeviceError>
        requires filling { deciding_of self.old ≡ false }
        requires settled { clearing_of self.old ≡ false }
        requires small { i < 2 ^ 31 }
        ensures written { IsHonest self.old →
            OnOk result (shown_of self.new ≡ written i bytes.now (shown_of self.old)) }
        ensures torn { IsHonest self.old → OnErr result (Torn i (shown_of self.old) (shown_of self.new)) }
        ensures keeps { IsHonest self.old → KeepsTo (commits_of self.old) self.old self.new }
        ensures snapshots { IsHonest self.old → KeepsSnapshots self.old self.new }
        ensures honest { IsHonest self.old ↔ IsHonest self.new }
        ensures faults { Counts (P.faults (pair_of self.old)) (P.faults (pair_of self.new)) result }
    {
        if i >= self.kept {
            return self.put_behind(i, bytes);
        }
        match self.slots.slot_of(i) {
            Some(slot) => self.put_again(slot, i, bytes),
            None => self.put_first(i, bytes),
        }
    }
}
