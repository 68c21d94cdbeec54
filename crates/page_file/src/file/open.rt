//! The beginning of a file of pages: opened, made anew, or checked again after a closing.
ghost use Rattle.std.specs.Prelude.{◌≡◌, ◌⊎◌, ◌↔◌, ◌≤◌, ◌<◌, ℕ, Some, None, length, IfOk, IfErr};
ghost use Rattle.block_device.specs.Device.{Only, LeavesOnly};
ghost use Rattle.page_file.specs.Fault.{HasCause, IsOfDevice, IsDamage, faults_after};
ghost use Rattle.page_file.specs.File.{device_of, blocks_of, gate_of, next_of, pages, version_of, IsHonest};
ghost use Rattle.page_file.specs.File.{IsNewFile, IsPageMap, KeepsGate, KeepsMap, LiesIn};
ghost use Rattle.page_file.specs.Layout.{IsWithin, catalog_block, opened_version, version_in};
ghost use Rattle.page_file.specs.Opening.{IsRefused, failed_check_up_to};
ghost use Rattle.page_file.specs.Stops.{SameButGate};
ghost use Rattle.page_file.specs.declared.fault.Fault.TheVariants as fault;
ghost use Rattle.page_file.specs.declared.gate.Gate.TheVariants.{Shut};
ghost use Rattle.page_file.specs.declared.header.Version.TheVariants.{Two};

use crate::Fault;
use crate::creation::{NEW_HEADER, create};
use crate::file::PageFile;
use crate::gate::Gate;
use crate::header::Version;
use crate::opening::check_opening;
use block_device::BlockDevice;

/// Opens the file that lies on a device. The device is synced, and then gate and header are read and
/// checked (docs/FORMAT.md, "Opening"); nothing is written, and no other block is read. A file of a version
/// above `newest` is refused as one of a version that is not known.
///
/// On an honest device a refusal is `Memory`, `Device`, or the fault of the first check that fails; where
/// none fails, the blocks are a file whose gate is shut. The device comes back with a refusal.
pub fn open_pages<D: BlockDevice>(device: D, newest: Version) -> Result<PageFile<D>, (Fault, D)>
    ensures shut { IfOk result (λ file. gate_of file ≡ Shut) }
    ensures passes { IfOk result (λ file. D.honest device →
        failed_check_up_to newest (D.shown device) ≡ None) }
    ensures within { IfOk result (λ file. IsWithin newest (version_of file)) }
    ensures lies { IfOk result (λ file. D.honest device → LiesIn file (D.shown device)) }

    // That is 3 where the header says 3, and else 2.
    ensures version { IfOk result (λ file. D.honest device →
        version_of file ≡ opened_version (D.shown device)) }

    ensures refused { IfErr result (λ e. D.honest device →
        IsOfDevice e.0 ⊎ (failed_check_up_to newest (D.shown device) ≡ Some e.0)) }

    // A stop leaves nothing but what one before the call might have left.
    ensures blocks { IfOk result (λ file. D.honest device → blocks_of file ≡ D.shown device) }
    ensures stops { IfOk result (λ file. D.honest device →
        LeavesOnly D.moment D.left_since D.recovery device (device_of file) (D.may_leave device)) }
    ensures refused_blocks { IfErr result (λ e. D.honest device → D.shown e.1 ≡ D.shown device) }
    ensures refused_stops { IfErr result (λ e. D.honest device →
        LeavesOnly D.moment D.left_since D.recovery device e.1 (D.may_leave device)) }

    // What a check refuses is durable: no stop brings back other blocks.
    ensures refused_durable { IfErr result (λ e. D.honest device →
        IsOfDevice e.0 ⊎ Only (D.shown e.1) (D.may_leave e.1)) }

    ensures honest { IfOk result (λ file. D.honest device ↔ D.honest (device_of file)) }
    ensures refused_honest { IfErr result (λ e. D.honest device ↔ D.honest e.1) }
    ensures never { IfErr result (λ e. ¬ (e.0 ≡ fault.NoPages)) }
    ensures no_fault { IfOk result (λ file. D.faults (device_of file) ≡ D.faults device) }
    ensures cause { IfErr result (λ e. D.faults e.1 ≡ faults_after e.0 (D.faults device)) }
{
    let mut device = device;
    match check_opening(&mut device, newest) {
        Ok(header) => Ok(PageFile {
            device,
            header,
            gate: Gate::Shut,
        }),
        Err(fault) => Err((fault, device)),
    }
}

impl<D: BlockDevice> PageFile<D> {
    /// Syncs the device, and reads and checks gate and header again, as opening does. The gate has to be
    /// shut.
    ///
    /// On an honest device the file is then what it was, and a refusal is `Memory` or `Device`; on another
    /// one a check may fail.
    #[tactic(auto, using(crate::specs::Newest::a_shut_file_is_opened))]
    pub fn check_again(&mut self) -> Result<(), Fault>
        requires { gate_of self.old ≡ Shut }
        ensures gate { KeepsGate self.old self.new }
        ensures map { IsHonest self.old → KeepsMap self.old self.new }
        ensures blocks { IsHonest self.old → blocks_of self.new ≡ blocks_of self.old }
        ensures faults { IsHonest self.old → IfErr result IsOfDevice }
        ensures never { IfErr result (λ e. ¬ (e ≡ fault.NoPages)) }
        ensures cause { HasCause (D.faults (device_of self.old)) (D.faults (device_of self.new)) result }
    {
        self.header = check_opening(&mut self.device, Version::Three)?;
        Ok(())
    }
}

/// Makes a file of pages on a device without blocks: its gate is shut, page 2, a catalog of no layers, is its
/// one page, and its version is 2.
///
/// On an honest device a refusal is `Memory` or `Device`. The device comes back with it.
pub fn create_pages<D: BlockDevice>(device: D) -> Result<PageFile<D>, (Fault, D)>
    requires { length (D.shown device) ≡ 0 }
    ensures shut { IfOk result (λ file. gate_of file ≡ Shut) }
    ensures next { IfOk result (λ file. next_of file ≡ 3) }
    ensures catalog { IfOk result (λ file. D.honest device → pages file 2 ≡ Some catalog_block) }
    ensures others { IfOk result (λ file. D.honest device → (k : ℕ) → ¬ (k ≡ 2) → pages file k ≡ None) }
    ensures sound { IfOk result (λ file. D.honest device → IsPageMap file) }
    ensures version { IfOk result (λ file. version_of file ≡ Two) }
    ensures header { IfOk result (λ file. D.honest device → version_in (blocks_of file) ≡ 2) }
    ensures lies { IfOk result (λ file. D.honest device → LiesIn file (blocks_of file)) }

    // A stop leaves blocks that opening refuses, or a new file: what is read afterwards, the gate aside.
    ensures stops { IfOk result (λ file. D.honest device →
        LeavesOnly D.moment D.left_since D.recovery device (device_of file) (λ c. IsRefused c ⊎
        (SameButGate c (blocks_of file) × IsNewFile c))) }
    ensures refused_stops { IfErr result (λ e. D.honest device →
        LeavesOnly D.moment D.left_since D.recovery device e.1 (λ c. IsRefused c
        ⊎ (SameButGate c (D.shown e.1) × IsNewFile c))) }

    ensures honest { IfOk result (λ file. D.honest device ↔ D.honest (device_of file)) }
    ensures refused_honest { IfErr result (λ e. D.honest device ↔ D.honest e.1) }
    ensures faults { IfErr result (λ e. D.honest device → IsOfDevice e.0) }
    ensures other_faults { IfErr result (λ e. IsOfDevice e.0 ⊎ IsDamage e.0) }
    ensures no_fault { IfOk result (λ file. D.faults (device_of file) ≡ D.faults device) }
    ensures cause { IfErr result (λ e. D.faults e.1 ≡ faults_after e.0 (D.faults device)) }
{
    let mut device = device;
    match create(&mut device) {
        Ok(()) => Ok(PageFile {
            device,
            header: NEW_HEADER,
            gate: Gate::Shut,
        }),
        Err(fault) => Err((fault, device)),
    }
}
