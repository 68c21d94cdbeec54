//! The blocks of a new file: the open gate, header and catalog after it, and at last the shut gate.
ghost use Rattle.std.specs.Prelude.{◌≡◌, ◌≤◌, ◌<◌, ◌^◌, ◌↔◌, ◌⊎◌, length, ℕ, OnOk, IfErr};
ghost use Rattle.block_device.specs.Device.{Blocks, Only, LeavesOnly, Torn, written, block_at};
ghost use Rattle.page_file.specs.Fault.{HasCause, IsOfDevice, IsDamage};
ghost use Rattle.page_file.specs.File.{IsNewFile};
ghost use Rattle.page_file.specs.Layout.{IsHeader, catalog_block, gate_block, new_header, version_in};
ghost use Rattle.page_file.specs.Opening.{IsRefused};
ghost use Rattle.page_file.specs.Stops.{IsOpen, AllLeave, SameButGate};

use crate::Fault;
use crate::blocks::{write_block, write_gate};
use crate::header::{Header, Version};
use crate::layout::{catalog_page, header_page};
use block_device::BlockDevice;

/// The header of a new file.
pub const NEW_HEADER: Header = Header {
    version: Version::Two,
    next: 3,
    first: 0,
    count: 0,
};

// Writes a block while the gate is open.
fn write_behind<D: BlockDevice>(device: &mut D, n: u32, bytes: &[u8; 4096]) -> Result<(), Fault>
    requires behind { 0 < n }
    requires small { n < 2 ^ 31 }
    ensures written { D.honest device.old →
        OnOk result (D.shown device.new ≡ written n bytes.now (D.shown device.old)) }
    ensures open { D.honest device.old → AllLeave (D.may_leave device.old) IsOpen →
        AllLeave (D.may_leave device.new) IsOpen }
    ensures stops { D.honest device.old → AllLeave (D.may_leave device.old) IsOpen →
        LeavesOnly D.moment D.left_since D.recovery device.old device.new IsRefused }
    ensures below { n ≤ length (D.shown device.old) → IfErr result IsOfDevice }
    ensures only { IfErr result (λ f. IsOfDevice f ⊎ IsDamage f) }
    ensures honest { D.honest device.old ↔ D.honest device.new }
    ensures cause { HasCause (D.faults device.old) (D.faults device.new) result }
{
    write_block(device, n, bytes)
}

// Writes an open gate into an empty device, and syncs it.
fn write_first<D: BlockDevice>(device: &mut D) -> Result<(), Fault>
    requires { length (D.shown device.old) ≡ 0 }
    ensures shown { D.honest device.old →
        OnOk result (D.shown device.new ≡ written 0 (gate_block 0) (D.shown device.old)) }
    ensures open { D.honest device.old → OnOk result (AllLeave (D.may_leave device.new) IsOpen) }
    ensures stops { D.honest device.old →
        LeavesOnly D.moment D.left_since D.recovery device.old device.new IsRefused }
    ensures only { IfErr result IsOfDevice }
    ensures honest { D.honest device.old ↔ D.honest device.new }
    ensures cause { HasCause (D.faults device.old) (D.faults device.new) result }
{
    write_gate(device, 0)
}

// Writes gate, header and catalog, the gate still open, and syncs them.
fn lay_out<D: BlockDevice>(device: &mut D) -> Result<(), Fault>
    requires { length (D.shown device.old) ≡ 0 }
    ensures size { D.honest device.old → OnOk result (length (D.shown device.new) ≡ 3) }
    ensures header { D.honest device.old →
        OnOk result (IsHeader new_header (block_at 1 (D.shown device.new))) }
    ensures version { D.honest device.old → OnOk result (version_in (D.shown device.new) ≡ 2) }
    ensures catalog { D.honest device.old → OnOk result (block_at 2 (D.shown device.new) ≡ catalog_block) }
    ensures durable { D.honest device.old → OnOk result (Only (D.shown device.new) (D.may_leave device.new)) }
    ensures stops { D.honest device.old →
        LeavesOnly D.moment D.left_since D.recovery device.old device.new IsRefused }
    ensures below { D.honest device.old → IfErr result IsOfDevice }
    ensures only { IfErr result (λ f. IsOfDevice f ⊎ IsDamage f) }
    ensures honest { D.honest device.old ↔ D.honest device.new }
    ensures cause { HasCause (D.faults device.old) (D.faults device.new) result }
{
    write_first(device)?;
    let header = header_page(&NEW_HEADER);
    write_behind(device, 1, &header)?;
    let catalog = catalog_page();
    write_behind(device, 2, &catalog)?;
    device.sync()?;
    Ok(())
}

/// Makes the blocks of a new file on a device without blocks, and shuts the gate.
pub fn create<D: BlockDevice>(device: &mut D) -> Result<(), Fault>
    requires { length (D.shown device.old) ≡ 0 }
    ensures size { D.honest device.old → OnOk result (length (D.shown device.new) ≡ 3) }
    ensures gate { D.honest device.old → OnOk result (block_at 0 (D.shown device.new) ≡ gate_block 1) }
    ensures header { D.honest device.old →
        OnOk result (IsHeader new_header (block_at 1 (D.shown device.new))) }
    ensures version { D.honest device.old → OnOk result (version_in (D.shown device.new) ≡ 2) }
    ensures catalog { D.honest device.old → OnOk result (block_at 2 (D.shown device.new) ≡ catalog_block) }
    ensures durable { D.honest device.old → OnOk result (Only (D.shown device.new) (D.may_leave device.new)) }
    ensures stops { D.honest device.old →
        LeavesOnly D.moment D.left_since D.recovery device.old device.new (λ c. IsRefused c ⊎
        (SameButGate c (D.shown device.new) × IsNewFile c)) }
    ensures below { D.honest device.old → IfErr result IsOfDevice }
    ensures only { IfErr result (λ f. IsOfDevice f ⊎ IsDamage f) }
    ensures honest { D.honest device.old ↔ D.honest device.new }
    ensures cause { HasCause (D.faults device.old) (D.faults device.new) result }
{
    lay_out(device)?;
    write_gate(device, 1)
}
