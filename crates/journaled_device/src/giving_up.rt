//! Devices of which what was not committed can be given up.
ghost use Rattle.std.specs.Prelude.{◌≡◌, ◌↔◌, OnErr, OnOk};
ghost use Rattle.block_device.specs.Device.{BeginsOne, Blocks, Counts, Only};

use block_device::{BlockDevice, DeviceError};

/// A device that commits, and forgets what was written since.
pub trait GivesUp: BlockDevice {
    /// Gives up what was written since the last commit; one that has begun is finished first. What is then
    /// read begins with a commit that was there. It is the one commit, and as a plain disk all of it is
    /// synced.
    ///
    /// Refused, it reads as before, and has no commit that it had not: it may be asked again.
    fn give_up(&mut self) -> Result<(), DeviceError>
        ensures begins { Self.honest self.old →
            OnOk result (BeginsOne (Self.recovery.commits self.old) (Self.shown self.new)) }
        ensures durable { Self.honest self.old →
            OnOk result (Only (Self.shown self.new) (Self.may_leave self.new)) }
        ensures one { Self.honest self.old →
            OnOk result ((k : Blocks) → Self.recovery.commits self.new k → k ≡ Self.shown self.new) }
        ensures shown { Self.honest self.old → OnErr result (Self.shown self.new ≡ Self.shown self.old) }
        ensures no_more { Self.honest self.old → OnErr result ((k : Blocks) →
            Self.recovery.commits self.new k → Self.recovery.commits self.old k) }
        ensures honest { Self.honest self.old ↔ Self.honest self.new }
        ensures faults { Counts (Self.faults self.old) (Self.faults self.new) result };
}
