//! The gate shut after a change, and a file closed.
ghost use Rattle.std.specs.Prelude.{◌≡◌, ◌⊎◌, ◌↔◌, ◌≤◌, Ok, IsOk, IfOk, IfErr, OnOk, OnErr};
ghost use Rattle.block_device.specs.Device.{LeavesOnly, Only};
ghost use Rattle.page_file.specs.Fault.{HasCause, IsOfDevice, faults_after};
ghost use Rattle.page_file.specs.File.{device_of, blocks_of, IsHonest, gate_of, version_of, KeepsMap, LiesIn};
ghost use Rattle.page_file.specs.Layout.{version_in, version_number};
ghost use Rattle.page_file.specs.Opening.{IsRefused};
ghost use Rattle.page_file.specs.Stops.{SameButGate};
ghost use Rattle.page_file.specs.declared.fault.Fault.TheVariants as fault;
ghost use Rattle.page_file.specs.declared.gate.Gate.TheVariants.{Shut, Open, Unsure};

use crate::Fault;
use crate::blocks::{write_gate, write_header};
use crate::file::PageFile;
use crate::gate::Gate;
use block_device::BlockDevice;

impl<D: BlockDevice> PageFile<D> {
    /// Shuts the gate after all that was written. With the gate open the header is written and synced
    /// with all blocks before it, and then the gate is written shut and synced; with it unsure the gate
    /// alone; with it shut nothing is written. So a header of version 1 stays until a change of the file is
    /// settled, and then has the version of the file, 2 or 3. The file stays usable.
    ///
    /// After a refusal the gate is unsure, or open as before. On an honest device that is `Memory` or
    /// `Device`. The map and the version stay.
    pub fn settle(&mut self) -> Result<(), Fault>
        ensures shut { OnOk result (gate_of self.new ≡ Shut) }
        ensures lies { IsHonest self.old → OnOk result (LiesIn self.new (blocks_of self.new)) }
        ensures refused { OnErr result ((gate_of self.new ≡ Unsure) ⊎
            ((gate_of self.new ≡ Open) × (gate_of self.old ≡ Open))) }
        ensures was_shut { gate_of self.old ≡ Shut → (self.new ≡ self.old) × IsOk result }
        ensures version { IsHonest self.old → gate_of self.old ≡ Open →
            OnOk result (version_in (blocks_of self.new) ≡ version_number (version_of self.old)) }
        ensures was_unsure { IsHonest self.old → gate_of self.old ≡ Unsure →
            SameButGate (blocks_of self.new) (blocks_of self.old) }
        ensures map { KeepsMap self.old self.new }

        // A stop leaves blocks that opening refuses, or those that are read afterwards, the gate aside, in
        // which the file lies.
        ensures stops { IsHonest self.old →
            LeavesOnly D.moment D.left_since D.recovery (device_of self.old) (device_of self.new)
            (λ c. IsRefused c ⊎
            (SameButGate c (blocks_of self.new) × LiesIn self.new c)) }

        ensures honest { IsHonest self.old ↔ IsHonest self.new }
        ensures faults { IsHonest self.old → IfErr result IsOfDevice }
        ensures other_faults { IfErr result (λ f. IsOfDevice f ⊎ (f ≡ fault.Damaged 1)) }
        ensures cause { HasCause (D.faults (device_of self.old)) (D.faults (device_of self.new)) result }
    {
        if self.gate == Gate::Open {
            self.settle_blocks()?;
        }
        self.shut()
    }

    /// Settles the file, and hands its device back. Opened again, it has the same map and the same version.
    ///
    /// After a refusal, which on an honest device is `Memory` or `Device`, the device comes back; a stop
    /// leaves of it what one during the call leaves.
    pub fn close(self) -> Result<D, (Fault, D)>
        ensures lies { IfOk result (λ device. IsHonest self → LiesIn self (D.shown device)) }
        ensures durable { IfOk result (λ device. IsHonest self → Only (D.shown device) (D.may_leave device)) }
        ensures was_shut { gate_of self ≡ Shut → result ≡ Ok (device_of self) }
        ensures version { IfOk result (λ device. IsHonest self → gate_of self ≡ Open →
            version_in (D.shown device) ≡ version_number (version_of self)) }

        // A stop leaves blocks that opening refuses, or those that are read afterwards, the gate aside, in
        // which the file lies.
        ensures stops { IfOk result (λ device. IsHonest self →
            LeavesOnly D.moment D.left_since D.recovery (device_of self) device (λ c. IsRefused c ⊎
            (SameButGate c (D.shown device) × LiesIn self c))) }
        ensures refused_stops { IfErr result (λ e. IsHonest self →
            LeavesOnly D.moment D.left_since D.recovery (device_of self) e.1 (λ c. IsRefused c ⊎
            (SameButGate c (D.shown e.1) × LiesIn self c))) }

        ensures honest { IfOk result (λ device. IsHonest self ↔ D.honest device) }
        ensures refused_honest { IfErr result (λ e. IsHonest self ↔ D.honest e.1) }
        ensures faults { IfErr result (λ e. IsHonest self → IsOfDevice e.0) }
        ensures other_faults { IfErr result (λ e. IsOfDevice e.0 ⊎ (e.0 ≡ fault.Damaged 1)) }
        ensures no_fault { IfOk result (λ device. D.faults device ≡ D.faults (device_of self)) }
        ensures cause { IfErr result (λ e. D.faults e.1 ≡ faults_after e.0 (D.faults (device_of self))) }
    {
        let mut file = self;
        let settled = file.settle();
        let PageFile {
            device,
            header: _,
            gate: _,
        } = file;
        match settled {
            Ok(()) => Ok(device),
            Err(fault) => Err((fault, device)),
        }
    }

    // Writes the header, and syncs it with all that was written. The gate is then to be shut.
    fn settle_blocks(&mut self) -> Result<(), Fault>
        requires { gate_of self.old ≡ Open }
        ensures unsure { OnOk result (gate_of self.new ≡ Unsure) }
        ensures version { IsHonest self.old →
            OnOk result (version_in (blocks_of self.new) ≡ version_number (version_of self.old)) }
        ensures refused { OnErr result (gate_of self.new ≡ Open) }
        ensures map { KeepsMap self.old self.new }
        ensures stops { IsHonest self.old →
            LeavesOnly D.moment D.left_since D.recovery (device_of self.old) (device_of self.new) IsRefused }
        ensures honest { IsHonest self.old ↔ IsHonest self.new }
        ensures faults { IsHonest self.old → IfErr result IsOfDevice }
        ensures other_faults { IfErr result (λ f. IsOfDevice f ⊎ (f ≡ fault.Damaged 1)) }
        ensures cause { HasCause (D.faults (device_of self.old)) (D.faults (device_of self.new)) result }
    {
        // A file has three blocks; a device that is not honest may have lost them.
        if self.device.blocks() < 2 {
            return Err(Fault::Damaged(1));
        }
        write_header(&mut self.device, &self.header)?;
        self.gate = Gate::Unsure;
        Ok(())
    }

    // Writes the gate shut and syncs it, unless it is shut.
    fn shut(&mut self) -> Result<(), Fault>
        requires { ¬ (gate_of self.old ≡ Open) }
        ensures shut { OnOk result (gate_of self.new ≡ Shut) }
        ensures lies { IsHonest self.old → OnOk result (LiesIn self.new (blocks_of self.new)) }
        ensures refused { OnErr result (gate_of self.new ≡ Unsure) }
        ensures closed { ¬ (gate_of self.new ≡ Open) }
        ensures was_shut { gate_of self.old ≡ Shut → (self.new ≡ self.old) × IsOk result }
        ensures same { IsHonest self.old → SameButGate (blocks_of self.new) (blocks_of self.old) }
        ensures map { KeepsMap self.old self.new }
        ensures stops { IsHonest self.old →
            LeavesOnly D.moment D.left_since D.recovery (device_of self.old) (device_of self.new)
            (λ c. SameButGate c (blocks_of self.old)) }
        ensures honest { IsHonest self.old ↔ IsHonest self.new }
        ensures faults { IfErr result IsOfDevice }
        ensures cause { HasCause (D.faults (device_of self.old)) (D.faults (device_of self.new)) result }
    {
        if self.gate == Gate::Shut {
            return Ok(());
        }
        self.gate = Gate::Unsure;
        write_gate(&mut self.device, 1)?;
        self.gate = Gate::Shut;
        Ok(())
    }
}
