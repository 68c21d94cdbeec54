//! Calls that write no block.
ghost use Rattle.std.specs.Prelude.{◌≡◌, ◌<◌, ◌↔◌, true, false, IfOk, OnErr, OnOk};
ghost use Rattle.block_device.specs.Device.{Counts};
ghost use Rattle.marked_pair.specs.Behind.{LeavesBase};
ghost use Rattle.marked_pair.specs.Mark.{IsMarked};
ghost use Rattle.marked_pair.specs.Pair.{disk_of, mark_of, pair_of, IsHonest, IsQuiet, IsSameHere};
ghost use Rattle.marked_pair.specs.declared.mark.Mark.TheVariants.{Unknown, Synced};

use crate::mark::{MARKED, reads_as};
use crate::pair::MarkedPair;
use block_bytes::zero_block;
use block_device::DeviceError;
use device_pair::DevicePair;

impl<P: DevicePair + Drop> MarkedPair<P> {
    // Syncs the base where it was written since it was synced, and with it the mark.
    pub(crate) fn sync_mark(&mut self) -> Result<(), DeviceError>
        ensures durable { IsHonest self.old →
            OnOk result (LeavesBase (disk_of self.old) (P.may_leave (pair_of self.new))) }
        ensures synced { ¬ (mark_of self.old ≡ Unknown) → OnOk result (mark_of self.new ≡ Synced) }
        ensures unknown { mark_of self.old ≡ Unknown → mark_of self.new ≡ Unknown }
        ensures quiet { IsHonest self.old → IsQuiet self.old self.new }
        ensures here { IsSameHere self.old self.new }
        ensures honest { IsHonest self.old ↔ IsHonest self.new }
        ensures faults { Counts (P.faults (pair_of self.old)) (P.faults (pair_of self.new)) result }
    {
        if !self.clean {
            self.pair.sync_base()?;
            self.clean = true;
        }
        self.mark = self.mark.synced();
        Ok(())
    }

    // Whether the base has the mark.
    pub(crate) fn has_mark(&mut self) -> Result<bool, DeviceError>
        ensures found { IsHonest self.old →
            IfOk result (λ found. found ≡ true → IsMarked (disk_of self.new)) }
        ensures missing { IsHonest self.old →
            IfOk result (λ found. found ≡ false → ¬ IsMarked (disk_of self.new)) }
        ensures mark { mark_of self.new ≡ mark_of self.old }
        ensures quiet { IsHonest self.old → IsQuiet self.old self.new }
        ensures here { IsSameHere self.old self.new }
        ensures honest { IsHonest self.old ↔ IsHonest self.new }
        ensures faults { Counts (P.faults (pair_of self.old)) (P.faults (pair_of self.new)) result }
    {
        if self.pair.base_blocks() == 0 {
            return Ok(false);
        }
        let mut block = zero_block();
        self.pair.read_base(0, &mut block)?;
        Ok(reads_as(&block, MARKED))
    }
}
