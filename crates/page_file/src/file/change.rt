//! The gate opened for a change, and the version raised in one.
ghost use Rattle.std.specs.Prelude.{◌≡◌, ◌↔◌, IsOk, IfErr, OnOk, OnErr};
ghost use Rattle.block_device.specs.Device.{LeavesOnly};
ghost use Rattle.page_file.specs.Fault.{HasCause, IsOfDevice};
ghost use Rattle.page_file.specs.File.{blocks_of, device_of, free_of, gate_of, header_of};
ghost use Rattle.page_file.specs.File.{IsHonest, KeepsMap, RaisesVersion};
ghost use Rattle.page_file.specs.Stops.{SameButGate};
ghost use Rattle.page_file.specs.declared.gate.Gate.TheVariants.{Open, Unsure};

use crate::Fault;
use crate::blocks::write_gate;
use crate::file::PageFile;
use crate::gate::Gate;
use crate::header::Version;
use block_device::BlockDevice;

impl<D: BlockDevice> PageFile<D> {
    /// Opens the gate for a change: it is written open, alone, and synced, if it is not open already.
    ///
    /// After a refusal, which is `Memory` or `Device`, the gate is unsure. The map stays.
    pub fn begin_change(&mut self) -> Result<(), Fault>
        ensures open { OnOk result (gate_of self.new ≡ Open) }
        ensures refused { OnErr result (gate_of self.new ≡ Unsure) }
        ensures was_open { gate_of self.old ≡ Open → (self.new ≡ self.old) × IsOk result }
        ensures map { KeepsMap self.old self.new }
        ensures header { header_of self.new ≡ header_of self.old }
        ensures free { IsHonest self.old → free_of self.new ≡ free_of self.old }
        ensures blocks { IsHonest self.old → SameButGate (blocks_of self.new) (blocks_of self.old) }

        // A stop leaves the blocks as they were, the gate aside.
        ensures stops { IsHonest self.old → ¬ (gate_of self.old ≡ Open) →
            LeavesOnly D.moment D.left_since D.recovery (device_of self.old) (device_of self.new)
            (λ c. SameButGate c (blocks_of self.old)) }

        ensures honest { IsHonest self.old ↔ IsHonest self.new }
        ensures faults { IfErr result IsOfDevice }
        ensures cause { HasCause (D.faults (device_of self.old)) (D.faults (device_of self.new)) result }
    {
        if self.gate == Gate::Open {
            return Ok(());
        }
        self.gate = Gate::Unsure;
        write_gate(&mut self.device, 0)?;
        self.gate = Gate::Open;
        Ok(())
    }

    /// Makes version 3 that of the file: its pages may then be all that those of such a file are. The gate
    /// has to be open.
    ///
    /// It is no call of the device, and is never refused: the header says the version once the file is
    /// settled. A file of that version is left as it is.
    pub fn raise_version(&mut self)
        requires { gate_of self.old ≡ Open }
        ensures { RaisesVersion self.old self.new }
    {
        self.header.version = Version::Three;
    }
}
