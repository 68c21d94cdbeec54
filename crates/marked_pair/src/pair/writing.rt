//! How a block of the base is written.
ghost use Rattle.std.specs.Prelude.{◌≡◌, ◌<◌, ◌≤◌, ◌^◌, ◌↔◌, true, length, Err, OnErr, OnOk};
ghost use Rattle.block_device.specs.Device.{Counts, Torn, one_more, written};
ghost use Rattle.block_device.specs.declared.device.DeviceError.TheVariants.{Failed};
ghost use Rattle.page_file.specs.Layout.{gate_block};
ghost use Rattle.marked_pair.specs.Mark.{IsMarked};
ghost use Rattle.marked_pair.specs.Pair.{base_of, disk_of, faults_of, kept_of, mark_of, pair_of, refusals_of};
ghost use Rattle.marked_pair.specs.Pair.{IsHonest, IsSameHere, IsTorn};
ghost use Rattle.marked_pair.specs.declared.mark.Mark.TheVariants.{Unknown, Written, Synced};

use crate::Mark;
use crate::mark::{MARKED, gate_page};
use crate::pair::MarkedPair;
use block_device::DeviceError;
use device_pair::DevicePair;

impl<P: DevicePair + Drop> MarkedPair<P> {
    // Refuses a write. Nothing is written.
    pub(crate) fn refuse(&mut self) -> Result<(), DeviceError>
        ensures refused { result ≡ Err Failed }
        ensures pair { pair_of self.new ≡ pair_of self.old }
        ensures kept { kept_of self.new ≡ kept_of self.old }
        ensures mark { mark_of self.new ≡ mark_of self.old }
        ensures counted { refusals_of self.new ≡ one_more (refusals_of self.old) }
    {
        self.refusals = self.refusals.saturating_add(1);
        Err(DeviceError::Failed)
    }

    // Writes block 0 as it is told, where there is no mark.
    pub(crate) fn put_gate(&mut self, bytes: &[u8; 4096]) -> Result<(), DeviceError>
        requires plain { IsHonest self.old → ¬ IsMarked (disk_of self.old) }
        ensures written { IsHonest self.old →
            OnOk result (disk_of self.new ≡ written 0 bytes.now (disk_of self.old)) }
        ensures torn { IsHonest self.old → OnErr result (Torn 0 (disk_of self.old) (disk_of self.new)) }
        ensures tears { IsHonest self.old → IsTorn 0 self.old self.new }
        ensures mark { IsHonest self.old → mark_of self.new ≡ Unknown }
        ensures here { IsSameHere self.old self.new }
        ensures honest { IsHonest self.old ↔ IsHonest self.new }
        ensures faults { Counts (P.faults (pair_of self.old)) (P.faults (pair_of self.new)) result }
    {
        self.clean = false;
        self.pair.write_base(0, bytes)
    }

    // Writes the mark, where there is none.
    fn put_mark(&mut self) -> Result<(), DeviceError>
        requires plain { IsHonest self.old → ¬ IsMarked (disk_of self.old) }
        ensures written { IsHonest self.old →
            OnOk result (disk_of self.new ≡ written 0 (gate_block 2) (disk_of self.old)) }
        ensures torn { IsHonest self.old → OnErr result (Torn 0 (disk_of self.old) (disk_of self.new)) }
        ensures tears { IsHonest self.old → IsTorn 0 self.old self.new }
        ensures mark { IsHonest self.old → OnOk result (mark_of self.new ≡ Written) }
        ensures here { IsSameHere self.old self.new }
        ensures honest { IsHonest self.old ↔ IsHonest self.new }
        ensures faults { Counts (P.faults (pair_of self.old)) (P.faults (pair_of self.new)) result }
    {
        self.put_gate(&gate_page(MARKED))?;
        self.note_mark();
        Ok(())
    }

    // Notes that the base has the mark.
    fn note_mark(&mut self)
        requires marked { IsHonest self.old → IsMarked (disk_of self.old) }
        ensures pair { pair_of self.new ≡ pair_of self.old }
        ensures mark { ¬ (mark_of self.new ≡ Unknown) }
        ensures written { mark_of self.old ≡ Unknown → mark_of self.new ≡ Written }
        ensures here { IsSameHere self.old self.new }
    {
        self.mark = self.mark.seen();
    }

    // Has a shut gate be there with the mark. One that has it is not written again, so that no stop tears it.
    pub(crate) fn put_shut(&mut self) -> Result<(), DeviceError>
        ensures written { IsHonest self.old →
            OnOk result (base_of self.new ≡ written 0 (gate_block 1) (base_of self.old)) }
        ensures torn { IsHonest self.old → OnErr result (Torn 0 (disk_of self.old) (disk_of self.new)) }
        ensures tears { IsHonest self.old → IsTorn 0 self.old self.new }
        ensures still { IsHonest self.old → IsMarked (disk_of self.old) →
            disk_of self.new ≡ disk_of self.old }
        ensures mark { IsHonest self.old → OnOk result (¬ (mark_of self.new ≡ Unknown)) }
        ensures here { IsSameHere self.old self.new }
        ensures honest { IsHonest self.old ↔ IsHonest self.new }
        ensures faults { Counts (P.faults (pair_of self.old)) (P.faults (pair_of self.new)) result }
    {
        if self.has_mark()? {
            self.note_mark();
            return Ok(());
        }
        self.put_mark()
    }

    // Writes a block that was not there when the pair was taken over.
    pub(crate) fn put_behind(&mut self, i: u32, bytes: &[u8; 4096]) -> Result<(), DeviceError>
        requires within { i ≤ length (disk_of self.old) }
        requires small { i < 2 ^ 31 }
        requires second { 0 < i }
        requires behind { kept_of self.old ≤ i }
        ensures written { IsHonest self.old →
            OnOk result (disk_of self.new ≡ written i bytes.now (disk_of self.old)) }
        ensures torn { IsHonest self.old → OnErr result (Torn i (disk_of self.old) (disk_of self.new)) }
        ensures tears { IsHonest self.old → IsTorn i self.old self.new }
        ensures mark { mark_of self.new ≡ mark_of self.old }
        ensures here { IsSameHere self.old self.new }
        ensures honest { IsHonest self.old ↔ IsHonest self.new }
        ensures faults { Counts (P.faults (pair_of self.old)) (P.faults (pair_of self.new)) result }
    {
        self.clean = false;
        self.pair.write_base(i, bytes)
    }

    // Writes a block that was there, behind a mark that is synced.
    pub(crate) fn put_there(&mut self, i: u32, bytes: &[u8; 4096]) -> Result<(), DeviceError>
        requires within { i ≤ length (disk_of self.old) }
        requires small { i < 2 ^ 31 }
        requires second { 0 < i }
        requires synced { mark_of self.old ≡ Synced }
        ensures written { IsHonest self.old →
            OnOk result (disk_of self.new ≡ written i bytes.now (disk_of self.old)) }
        ensures torn { IsHonest self.old → OnErr result (Torn i (disk_of self.old) (disk_of self.new)) }
        ensures tears { IsHonest self.old → IsTorn i self.old self.new }
        ensures mark { mark_of self.new ≡ mark_of self.old }
        ensures here { IsSameHere self.old self.new }
        ensures honest { IsHonest self.old ↔ IsHonest self.new }
        ensures faults { Counts (P.faults (pair_of self.old)) (P.faults (pair_of self.new)) result }
    {
        self.clean = false;
        self.pair.write_base(i, bytes)
    }

    // Writes a block that was there, behind a mark that a sync has made last. Where there is no such block by
    // then, the pair is not honest.
    pub(crate) fn put_after_sync(&mut self, i: u32, bytes: &[u8; 4096]) -> Result<(), DeviceError>
        requires within { i ≤ length (disk_of self.old) }
        requires small { i < 2 ^ 31 }
        requires second { 0 < i }
        requires known { ¬ (mark_of self.old ≡ Unknown) }
        ensures written { IsHonest self.old →
            OnOk result (disk_of self.new ≡ written i bytes.now (disk_of self.old)) }
        ensures torn { IsHonest self.old → OnErr result (Torn i (disk_of self.old) (disk_of self.new)) }
        ensures tears { IsHonest self.old → IsTorn i self.old self.new }
        ensures allowed { IsHonest self.old → refusals_of self.new ≡ refusals_of self.old }
        ensures kept { kept_of self.new ≡ kept_of self.old }
        ensures honest { IsHonest self.old ↔ IsHonest self.new }
        ensures faults { Counts (faults_of self.old) (faults_of self.new) result }
    {
        self.sync_mark()?;
        if i > self.pair.base_blocks() {
            return self.refuse();
        }
        self.put_there(i, bytes)
    }
}
