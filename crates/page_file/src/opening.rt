//! The checks of opening, in their order.
ghost use Rattle.std.specs.Prelude.{◌≡◌, ◌≤◌, ◌<◌, ◌^◌, ◌↔◌, ◌⊎◌, ◌++◌, Some, None, true, length, List, ℕ};
ghost use Rattle.std.specs.Prelude.{IfOk};
ghost use Rattle.std.specs.Prelude.{IfErr, OnOk};
ghost use Rattle.block_device.specs.Device.{Blocks, Only, LeavesOnly, block_at};
ghost use Rattle.page_file.specs.Fault.{HasCause, IsOfDevice, IsDamage};
ghost use Rattle.page_file.specs.Layout.{IsWithin};
ghost use Rattle.page_file.specs.Opening.{Check, failed_check, failed_check_up_to, first_fault, gate_checks};
ghost use Rattle.page_file.specs.Opening.{header_checks_up_to};
ghost use Rattle.page_file.specs.Opening.{header_of_block};
ghost use Rattle.page_file.specs.Opening as opening;
ghost use Rattle.page_file.specs.Pages.{header_in};
ghost use Rattle.page_file.specs.declared.fault.Fault.TheVariants as fault;

use crate::Fault;
use crate::blocks::read_block;
use crate::header::{Header, Version, is_sound};
use crate::layout::{GATE_TEXT, HEADER_TEXT, is_read, read_header};
use block_bytes::{read_u8, read_u16, read_u64, zero_block};
use block_device::BlockDevice;

// The checks of the gate's block.
#[tactic(auto, unfolding(crate::specs::Opening::gate_checks))]
fn check_gate(page: &[u8; 4096]) -> Result<(), Fault>
    ensures ok { OnOk result ((rest : List Check) →
        first_fault (gate_checks page.now ++ rest) ≡ first_fault rest) }
    ensures err { IfErr result (λ e. (rest : List Check) →
        first_fault (gate_checks page.now ++ rest) ≡ Some e) }
    ensures only { IfErr result (λ e. (e ≡ fault.NotAStore) ⊎ (e ≡ fault.NotClosed)) }
{
    if read_u64(page, 0) != GATE_TEXT {
        return Err(Fault::NotAStore);
    }
    if read_u8(page, 8) != 1 {
        return Err(Fault::NotClosed);
    }
    Ok(())
}

// The checks of the header's block, in a file of so many blocks, where no version above `newest` is read.
#[tactic(auto, using(crate::specs::Newest::within_if_read), unfolding(crate::specs::Opening::header_checks_up_to))]
fn check_header(page: &[u8; 4096], blocks: u32, newest: Version) -> Result<Header, Fault>
    ensures ok { OnOk result (first_fault (header_checks_up_to newest blocks page.now) ≡ None) }
    ensures header { IfOk result (λ h. h ≡ header_of_block page.now) }
    ensures sound { IfOk result (λ h. (opening.is_sound h ≡ true) × (h.next ≤ blocks)) }
    ensures within { IfOk result (λ h. IsWithin newest h.version) }
    ensures err { IfErr result (λ e. first_fault (header_checks_up_to newest blocks page.now) ≡ Some e) }
    ensures only { IfErr result (λ e. (e ≡ fault.NotAStore)
        ⊎ ((e ≡ fault.WrongVersion) ⊎ (e ≡ fault.Damaged 1))) }
{
    if read_u64(page, 0) != HEADER_TEXT {
        return Err(Fault::NotAStore);
    }
    if !is_read(newest, read_u16(page, 8)) {
        return Err(Fault::WrongVersion);
    }
    let header = read_header(page);
    if header.next <= blocks && is_sound(&header) {
        Ok(header)
    } else {
        Err(Fault::Damaged(1))
    }
}

/// The fault of the first check of opening that fails, None where none does, of blocks of which these are the
/// first two: so many of them there are.
pub fn opening_fault(gate: &[u8; 4096], header: &[u8; 4096], blocks: u32) -> Option<Fault>
    ensures { (shown : Blocks) → block_at 0 shown ≡ gate.now → block_at 1 shown ≡ header.now →
        length shown ≡ blocks → failed_check shown ≡ result }
{
    fault_up_to(Version::Three, gate, header, blocks)
}

// The same where no version above `newest` is read.
#[tactic(auto, unfolding(crate::specs::Opening::failed_check_up_to))]
fn fault_up_to(
    newest: Version,
    gate: &[u8; 4096],
    header: &[u8; 4096],
    blocks: u32,
) -> Option<Fault>
    ensures { (shown : Blocks) → block_at 0 shown ≡ gate.now → block_at 1 shown ≡ header.now →
        length shown ≡ blocks → failed_check_up_to newest shown ≡ result }
{
    if blocks < 3 {
        return Some(Fault::NotAStore);
    }
    if let Err(fault) = check_gate(gate) {
        return Some(fault);
    }
    check_header(header, blocks, newest).err()
}

/// Syncs the device, and then reads and checks gate and header, where no version above `newest` is read.
#[tactic(auto, unfolding(crate::specs::Opening::failed_check_up_to))]
pub fn check_opening<D: BlockDevice>(device: &mut D, newest: Version) -> Result<Header, Fault>
    ensures ok { D.honest device.old → OnOk result (failed_check_up_to newest (D.shown device.old) ≡ None) }
    ensures header { D.honest device.old → IfOk result (λ h. h ≡ header_in (D.shown device.old)) }
    ensures err { D.honest device.old →
        IfErr result (λ f. IsOfDevice f ⊎ (failed_check_up_to newest (D.shown device.old) ≡ Some f)) }
    ensures sound { IfOk result (λ h. (opening.is_sound h ≡ true) × (h.next ≤ 2 ^ 31)) }
    ensures within { IfOk result (λ h. IsWithin newest h.version) }
    ensures never { IfErr result (λ e. ¬ (e ≡ fault.NoPages)) }
    ensures shown { D.honest device.old → D.shown device.new ≡ D.shown device.old }
    ensures durable { D.honest device.old → OnOk result (Only (D.shown device.new) (D.may_leave device.new)) }
    ensures refused_durable { D.honest device.old →
        IfErr result (λ f. IsOfDevice f ⊎ Only (D.shown device.new) (D.may_leave device.new)) }
    ensures stops { D.honest device.old →
        LeavesOnly D.moment D.left_since D.recovery device.old device.new (D.may_leave device.old) }
    ensures honest { D.honest device.old ↔ D.honest device.new }
    ensures cause { HasCause (D.faults device.old) (D.faults device.new) result }
{
    device.sync()?;
    let blocks = device.blocks();
    if blocks < 3 {
        return Err(Fault::NotAStore);
    }
    let mut page = zero_block();
    read_block(device, 0, &mut page)?;
    check_gate(&page)?;
    read_block(device, 1, &mut page)?;
    check_header(&page, blocks, newest)
}
