//! Which writes of the base are made, and how: those of the gate, of a block that was there, and of others.
ghost use Rattle.std.specs.Prelude.{◌≡◌, ◌<◌, ◌≤◌, ◌^◌, ◌↔◌, true, false, length, OnErr, OnOk};
ghost use Rattle.block_device.specs.Device.{Counts, Torn, written};
ghost use Rattle.page_file.specs.Layout.{gate_block};
ghost use Rattle.marked_pair.specs.Pair.{base_of, disk_of, faults_of, kept_of, mark_of, pair_of, refusals_of};
ghost use Rattle.marked_pair.specs.Pair.{IsHonest, IsTorn};
ghost use Rattle.marked_pair.specs.declared.mark.Mark.TheVariants.{Unknown, Synced};

use crate::Mark;
use crate::mark::{MARKED, SHUT, gate_page, reads_as};
use crate::pair::MarkedPair;
use block_device::DeviceError;
use device_pair::DevicePair;

impl<P: DevicePair + Drop> MarkedPair<P> {
    // Writes the gate: a shut one with the mark. Another one is refused where there is the mark, and so is
    // one with it.
    fn write_gate(&mut self, bytes: &[u8; 4096]) -> Result<(), DeviceError>
        ensures written { IsHonest self.old →
            OnOk result (base_of self.new ≡ written 0 bytes.now (base_of self.old)) }
        ensures torn { IsHonest self.old → OnErr result (Torn 0 (base_of self.old) (base_of self.new)) }
        ensures tears { IsHonest self.old → IsTorn 0 self.old self.new }
        ensures marks { bytes.now ≡ gate_block 1 → IsHonest self.old →
            OnOk result (¬ (mark_of self.new ≡ Unknown)) }
        ensures allowed { bytes.now ≡ gate_block 1 → refusals_of self.new ≡ refusals_of self.old }
        ensures honest { IsHonest self.old ↔ IsHonest self.new }
        ensures faults { Counts (faults_of self.old) (faults_of self.new) result }
    {
        if *bytes == gate_page(SHUT) {
            return self.put_shut();
        }
        self.write_other_gate(bytes)
    }

    // Writes a gate that is not the shut one.
    fn write_other_gate(&mut self, bytes: &[u8; 4096]) -> Result<(), DeviceError>
        ensures written { IsHonest self.old →
            OnOk result (base_of self.new ≡ written 0 bytes.now (base_of self.old)) }
        ensures torn { IsHonest self.old → OnErr result (Torn 0 (base_of self.old) (base_of self.new)) }
        ensures tears { IsHonest self.old → IsTorn 0 self.old self.new }
        ensures honest { IsHonest self.old ↔ IsHonest self.new }
        ensures faults { Counts (faults_of self.old) (faults_of self.new) result }
    {
        if reads_as(bytes, MARKED) {
            return self.refuse();
        }
        if self.has_mark()? {
            return self.refuse();
        }
        self.put_gate(bytes)
    }

    // Writes a block that was there, which is refused where no mark is known.
    fn write_there(&mut self, i: u32, bytes: &[u8; 4096]) -> Result<(), DeviceError>
        requires within { i ≤ length (disk_of self.old) }
        requires small { i < 2 ^ 31 }
        requires second { 0 < i }
        ensures refused { mark_of self.old ≡ Unknown → pair_of self.new ≡ pair_of self.old }
        ensures allowed { IsHonest self.old → ¬ (mark_of self.old ≡ Unknown) →
            refusals_of self.new ≡ refusals_of self.old }
        ensures written { IsHonest self.old →
            OnOk result (disk_of self.new ≡ written i bytes.now (disk_of self.old)) }
        ensures torn { IsHonest self.old → OnErr result (Torn i (disk_of self.old) (disk_of self.new)) }
        ensures tears { IsHonest self.old → IsTorn i self.old self.new }
        ensures honest { IsHonest self.old ↔ IsHonest self.new }
        ensures faults { Counts (faults_of self.old) (faults_of self.new) result }
    {
        match self.mark {
            Mark::Unknown => self.refuse(),
            Mark::Written => self.put_after_sync(i, bytes),
            Mark::Synced => self.put_there(i, bytes),
        }
    }

    // Writes a block but the gate.
    fn write_other(&mut self, i: u32, bytes: &[u8; 4096]) -> Result<(), DeviceError>
        requires within { i ≤ length (disk_of self.old) }
        requires small { i < 2 ^ 31 }
        requires second { 0 < i }
        ensures written { IsHonest self.old →
            OnOk result (base_of self.new ≡ written i bytes.now (base_of self.old)) }
        ensures torn { IsHonest self.old → OnErr result (Torn i (base_of self.old) (base_of self.new)) }
        ensures tears { IsHonest self.old → IsTorn i self.old self.new }
        ensures honest { IsHonest self.old ↔ IsHonest self.new }
        ensures faults { Counts (faults_of self.old) (faults_of self.new) result }
    {
        if i < self.kept {
            return self.write_there(i, bytes);
        }
        self.put_behind(i, bytes)
    }

    // Writes a block.
    pub(crate) fn write_block(&mut self, i: u32, bytes: &[u8; 4096]) -> Result<(), DeviceError>
        requires within { i ≤ length (disk_of self.old) }
        requires small { i < 2 ^ 31 }
        ensures written { IsHonest self.old →
            OnOk result (base_of self.new ≡ written i bytes.now (base_of self.old)) }
        ensures torn { IsHonest self.old → OnErr result (Torn i (base_of self.old) (base_of self.new)) }
        ensures tears { IsHonest self.old → IsTorn i self.old self.new }
        ensures honest { IsHonest self.old ↔ IsHonest self.new }
        ensures faults { Counts (faults_of self.old) (faults_of self.new) result }
    {
        if i == 0 {
            return self.write_gate(bytes);
        }
        self.write_other(i, bytes)
    }

    // Whether block i of the journal is a slot, and may not be one yet: where the base had no header, the
    // mark is synced first.
    pub(crate) fn is_early(&self, i: u32) -> bool
        ensures { result ≡ false → kept_of self.now < 2 → 2 ≤ i → mark_of self.now ≡ Synced }
    {
        self.kept < 2 && i >= 2 && self.mark != Mark::Synced
    }
}
