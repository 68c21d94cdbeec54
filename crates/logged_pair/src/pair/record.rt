//! Count and index of the region, and the first blocks of the next one.
ghost use Rattle.std.specs.Prelude.{◌≡◌, ◌≤◌, ◌<◌, ◌+◌, ◌*◌, ◌↔◌, ℕ, false, length, slice_index, OnOk};
ghost use Rattle.block_bytes.specs.Numbers.{number_at};
ghost use Rattle.block_device.specs.Device.{Counts};
ghost use Rattle.logged_pair.specs.Index.{HasIndex, HasNext};
ghost use Rattle.logged_pair.specs.Stages.{IsRecorded};
ghost use Rattle.logged_pair.specs.Snapshots.{KeepsSnapshots};
ghost use Rattle.logged_pair.specs.Standing.{clearing_of, commits_of, deciding_of, homes_of, journal_of};
ghost use Rattle.logged_pair.specs.Standing.{pair_of, shown_of, IsHonest, KeepsTo, SameSlots};

use crate::pair::LoggedPair;
use block_bytes::{write_u32, zero_block};
use block_device::DeviceError;
use committed_log::{HOMES, count_page, flag_page};
use device_pair::DevicePair;
use std::alloc::Allocator;

// The index block of the homes from number `from` on, at most 1024 of them.
pub(crate) fn index_page(homes: &[u32], from: usize) -> [u8; 4096]
    requires { from ≤ length homes.now }
    ensures { (m : ℕ) → m < 1024 → from + m < length homes.now →
        number_at 4 (4 * m) result ≡ slice_index homes.now (from + m) }
{
    let mut page = zero_block();
    let count = (homes.len() - from).min(HOMES);
    for m in 0..count {
        write_u32(&mut page, 4 * m, homes[from + m]);
    }
    page
}

impl<P: DevicePair, A: Allocator + Copy> LoggedPair<P, A> {
    // Writes the index of the homes behind the slots, flag and count of the next region behind that, and then
    // the count of the slots.
    pub(crate) fn record(&mut self) -> Result<(), DeviceError>
        requires filling { deciding_of self.old ≡ false }
        requires settled { clearing_of self.old ≡ false }
        ensures slots { SameSlots self.old self.new }
        ensures recorded { IsHonest self.old →
            OnOk result (IsRecorded (homes_of self.new) (journal_of self.new)) }
        ensures shown { IsHonest self.old → shown_of self.new ≡ shown_of self.old }
        ensures keeps { IsHonest self.old → KeepsTo (commits_of self.old) self.old self.new }
        ensures snapshots { IsHonest self.old → KeepsSnapshots self.old self.new }
        ensures honest { IsHonest self.old ↔ IsHonest self.new }
        ensures faults { Counts (P.faults (pair_of self.old)) (P.faults (pair_of self.new)) result }
    {
        let count = self.slots.len();
        if count >= 1 << 31 {
            return Err(DeviceError::Memory);
        }
        self.put_index()?;
        self.put_next_region()?;
        self.put_journal(1, &count_page(count as u32))
    }

    // Writes the index blocks.
    fn put_index(&mut self) -> Result<(), DeviceError>
        requires filling { deciding_of self.old ≡ false }
        requires settled { clearing_of self.old ≡ false }
        ensures slots { SameSlots self.old self.new }
        ensures index { IsHonest self.old → OnOk result (HasIndex (homes_of self.new) (journal_of self.new)) }
        ensures shown { IsHonest self.old → shown_of self.new ≡ shown_of self.old }
        ensures keeps { IsHonest self.old → KeepsTo (commits_of self.old) self.old self.new }
        ensures snapshots { IsHonest self.old → KeepsSnapshots self.old self.new }
        ensures honest { IsHonest self.old ↔ IsHonest self.new }
        ensures faults { Counts (P.faults (pair_of self.old)) (P.faults (pair_of self.new)) result }
    {
        let count = self.slots.len();
        for j in 0..count.div_ceil(HOMES) {
            let page = index_page(self.slots.homes(), j * HOMES);
            self.put_journal(2 + count + j, &page)?;
        }
        Ok(())
    }

    // Writes flag and count of the region behind this one, which is not committed.
    fn put_next_region(&mut self) -> Result<(), DeviceError>
        requires filling { deciding_of self.old ≡ false }
        requires settled { clearing_of self.old ≡ false }
        requires index { IsHonest self.old → HasIndex (homes_of self.old) (journal_of self.old) }
        ensures slots { SameSlots self.old self.new }
        ensures index { IsHonest self.old → OnOk result (HasIndex (homes_of self.new) (journal_of self.new)) }
        ensures next { IsHonest self.old → OnOk result (HasNext (homes_of self.new) (journal_of self.new)) }
        ensures shown { IsHonest self.old → shown_of self.new ≡ shown_of self.old }
        ensures keeps { IsHonest self.old → KeepsTo (commits_of self.old) self.old self.new }
        ensures snapshots { IsHonest self.old → KeepsSnapshots self.old self.new }
        ensures honest { IsHonest self.old ↔ IsHonest self.new }
        ensures faults { Counts (P.faults (pair_of self.old)) (P.faults (pair_of self.new)) result }
    {
        let count = self.slots.len();
        let next = 2 + count + count.div_ceil(HOMES);
        self.put_journal(next, &flag_page(0))?;
        self.put_journal(next + 1, &zero_block())
    }
}
