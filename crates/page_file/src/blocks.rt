//! Single blocks of a device: the gate and the header, each with its sync, and any block where there is
//! a place for it.
ghost use Rattle.std.specs.Prelude.{◌≡◌, ◌≤◌, ◌<◌, ◌^◌, ◌↔◌, ◌⊎◌, length, ℕ, OnOk, IfErr};
ghost use Rattle.block_device.specs.Device.{Blocks, Only, LeavesNoMore, LeavesOnly, Follows, Torn, block_at};
ghost use Rattle.block_device.specs.Device.{written};
ghost use Rattle.page_file.specs.Fault.{HasCause, IsOfDevice};
ghost use Rattle.page_file.specs.Layout.{gate_block, version_in, version_number, IsHeader};
ghost use Rattle.page_file.specs.Stops.{GateAside, TornFrom, SameButGate};
ghost use Rattle.page_file.specs.declared.fault.Fault.TheVariants as fault;

use crate::Fault;
use crate::header::Header;
use crate::layout::{gate_page, header_page};
use block_device::BlockDevice;

/// Writes the gate, open (0) or shut (1), alone, and syncs it.
pub fn write_gate<D: BlockDevice>(device: &mut D, shut: u8) -> Result<(), Fault>
    ensures same { D.honest device.old → SameButGate (D.shown device.new) (D.shown device.old) }
    ensures size { D.honest device.old → 0 < length (D.shown device.old) →
        length (D.shown device.new) ≡ length (D.shown device.old) }
    ensures shown { D.honest device.old →
        OnOk result (D.shown device.new ≡ written 0 (gate_block shut) (D.shown device.old)) }
    ensures gate { D.honest device.old → OnOk result (block_at 0 (D.shown device.new) ≡ gate_block shut) }
    ensures durable { D.honest device.old → OnOk result (Only (D.shown device.new) (D.may_leave device.new)) }
    ensures now { D.honest device.old → (c : Blocks) → D.may_leave device.new c →
        GateAside (D.may_leave device.old) c }
    ensures stops { D.honest device.old →
        LeavesOnly D.moment D.left_since D.recovery device.old device.new
        (GateAside (D.may_leave device.old)) }
    ensures only { IfErr result IsOfDevice }
    ensures honest { D.honest device.old ↔ D.honest device.new }
    ensures cause { HasCause (D.faults device.old) (D.faults device.new) result }
{
    let page = gate_page(shut);
    device.write(0, &page)?;
    device.sync()?;
    Ok(())
}

/// Writes the header while the gate is open, and syncs it with all that was written before.
pub fn write_header<D: BlockDevice>(device: &mut D, header: &Header) -> Result<(), Fault>
    requires room { 1 ≤ length (D.shown device.old) }
    ensures size { D.honest device.old → 1 < length (D.shown device.old) →
        length (D.shown device.new) ≡ length (D.shown device.old) }
    ensures others { D.honest device.old → (k : ℕ) → ¬ (k ≡ 1) →
        block_at k (D.shown device.new) ≡ block_at k (D.shown device.old) }
    ensures header { D.honest device.old →
        OnOk result (IsHeader header.now (block_at 1 (D.shown device.new))) }
    ensures version { D.honest device.old →
        OnOk result (version_in (D.shown device.new) ≡ version_number header.now.version) }
    ensures durable { D.honest device.old → OnOk result (Only (D.shown device.new) (D.may_leave device.new)) }
    ensures now { D.honest device.old → Follows (Torn 1) (D.may_leave device.old) (D.may_leave device.new) }
    ensures stops { D.honest device.old →
        LeavesOnly D.moment D.left_since D.recovery device.old device.new
        (TornFrom 1 (D.may_leave device.old)) }
    ensures only { IfErr result IsOfDevice }
    ensures honest { D.honest device.old ↔ D.honest device.new }
    ensures cause { HasCause (D.faults device.old) (D.faults device.new) result }
{
    let page = header_page(header);
    device.write(1, &page)?;
    device.sync()?;
    Ok(())
}

/// Writes a block, after a check that the device has a place for it.
pub fn write_block<D: BlockDevice>(device: &mut D, n: u32, bytes: &[u8; 4096]) -> Result<(), Fault>
    requires small { n < 2 ^ 31 }
    ensures written { D.honest device.old →
        OnOk result (D.shown device.new ≡ written n bytes.now (D.shown device.old)) }
    ensures torn { D.honest device.old → Torn n (D.shown device.old) (D.shown device.new) }
    ensures now { D.honest device.old → Follows (Torn n) (D.may_leave device.old) (D.may_leave device.new) }
    ensures stops { D.honest device.old →
        LeavesOnly D.moment D.left_since D.recovery device.old device.new
        (TornFrom n (D.may_leave device.old)) }
    ensures only { IfErr result (λ f. IsOfDevice f ⊎ (f ≡ fault.Damaged n)) }
    ensures below { n ≤ length (D.shown device.old) → IfErr result IsOfDevice }
    ensures honest { D.honest device.old ↔ D.honest device.new }
    ensures cause { HasCause (D.faults device.old) (D.faults device.new) result }
{
    if n > device.blocks() {
        return Err(Fault::Damaged(n));
    }
    device.write(n, bytes)?;
    Ok(())
}

/// Reads a block, where there is one.
pub fn read_block<D: BlockDevice>(
    device: &mut D,
    n: u32,
    into: &mut [u8; 4096],
) -> Result<(), Fault>
    ensures bytes { D.honest device.old → OnOk result (into.new ≡ block_at n (D.shown device.old)) }
    ensures shown { D.honest device.old → D.shown device.new ≡ D.shown device.old }
    ensures now { D.honest device.old → LeavesNoMore (D.may_leave device.old) (D.may_leave device.new) }
    ensures stops { D.honest device.old →
        LeavesOnly D.moment D.left_since D.recovery device.old device.new (D.may_leave device.old) }
    ensures only { IfErr result (λ f. IsOfDevice f ⊎ (f ≡ fault.Damaged n)) }
    ensures below { n < length (D.shown device.old) → IfErr result IsOfDevice }
    ensures honest { D.honest device.old ↔ D.honest device.new }
    ensures cause { HasCause (D.faults device.old) (D.faults device.new) result }
{
    if n >= device.blocks() {
        return Err(Fault::Damaged(n));
    }
    device.read(n, into)?;
    Ok(())
}
