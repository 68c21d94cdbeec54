//! The title of a journal, and its end, as blocks.
ghost use Rattle.std.specs.Prelude.{◌≡◌, ◌<◌, ◌↔◌, ◌==◌, length, IfOk, OnOk};
ghost use Rattle.block_bytes.specs.Numbers.{zeros};
ghost use Rattle.block_device.specs.Device.{Blocks, Counts, block_at};
ghost use Rattle.device_pair.specs.Pairs.{PairLeaves};
ghost use Rattle.titled_pair.specs.Calls.{IsQuiet, LeavesItsBase};
ghost use Rattle.titled_pair.specs.Title.{end_of, end_text, header_in, reads_title, title_of, title_text};
ghost use Rattle.titled_pair.specs.Title.{with_text};

use block_bytes::{read_u64, write_u64, zero_block};
use block_device::DeviceError;
use device_pair::DevicePair;

/// How many blocks stand before the journal proper: its title and its end.
pub const TITLE_BLOCKS: u32 = 2;

// The ASCII text RSTARLOG.
const TITLE_TEXT: u64 = 0x5253_5441_524c_4f47;

// The ASCII text RSTARTTL.
const OLDER_TEXT: u64 = 0x5253_5441_5254_544c;

// The ASCII text RSTAREND.
const END_TEXT: u64 = 0x5253_5441_5245_4e44;

// A text, and behind it the bytes of block 1 of a base.
#[tactic(auto, unfolding(crate::specs::Title::with_text))]
fn text_page(text: u64, header: &[u8; 4096]) -> [u8; 4096]
    ensures { result ≡ with_text text header.now }
{
    let mut page = *header;
    write_u64(&mut page, 0, text);
    page
}

// Block 1 of the base, and zeros where there is none.
fn read_header<P: DevicePair>(pair: &mut P) -> Result<[u8; 4096], DeviceError>
    ensures is { P.honest pair.old → IfOk result (λ header. header ≡ header_in (P.base pair.old)) }
    ensures quiet { P.honest pair.old → IsQuiet P.DevicePair pair.old pair.new }
    ensures honest { P.honest pair.old ↔ P.honest pair.new }
    ensures faults { Counts (P.faults pair.old) (P.faults pair.new) result }
{
    let mut header = zero_block();
    if pair.base_blocks() < 2 {
        return Ok(header);
    }
    pair.read_base(1, &mut header)?;
    Ok(header)
}

/// The title that a journal of the base has: the text `RSTARLOG`, and behind it the bytes of block 1 of the
/// base, zeros where there is none. It fails where the device does.
pub fn title_of_base<P: DevicePair>(pair: &mut P) -> Result<[u8; 4096], DeviceError>
    ensures is { P.honest pair.old → IfOk result (λ page. page ≡ title_of (P.base pair.old)) }
    ensures quiet { P.honest pair.old → IsQuiet P.DevicePair pair.old pair.new }
    ensures honest { P.honest pair.old ↔ P.honest pair.new }
    ensures faults { Counts (P.faults pair.old) (P.faults pair.new) result }
{
    let header = read_header(pair)?;
    Ok(text_page(TITLE_TEXT, &header))
}

/// The end that a journal of the base has when its session has ended: the text `RSTAREND`, and the same
/// bytes.
pub fn end_of_base<P: DevicePair>(pair: &mut P) -> Result<[u8; 4096], DeviceError>
    ensures is { P.honest pair.old → IfOk result (λ page. page ≡ end_of (P.base pair.old)) }
    ensures quiet { P.honest pair.old → IsQuiet P.DevicePair pair.old pair.new }
    ensures honest { P.honest pair.old ↔ P.honest pair.new }
    ensures faults { Counts (P.faults pair.old) (P.faults pair.new) result }
{
    let header = read_header(pair)?;
    Ok(text_page(END_TEXT, &header))
}

/// Whether a block begins with the text of a title, or with `RSTARTTL`, as the titles of older programs do.
pub fn is_title(page: &[u8; 4096]) -> bool
    ensures { result ≡ reads_title page.now }
{
    read_u64(page, 0) == TITLE_TEXT || read_u64(page, 0) == OLDER_TEXT
}

/// A title with the text `RSTARLOG`, whichever it has.
pub fn retitled_page(title: &[u8; 4096]) -> [u8; 4096]
    ensures { result ≡ with_text title_text title.now }
{
    text_page(TITLE_TEXT, title)
}

/// Makes the title of the base's journal, which has no blocks. No session has ended.
pub fn make_title<P: DevicePair>(pair: &mut P) -> Result<(), DeviceError>
    requires none { length (P.journal pair.old) ≡ 0 }
    ensures base { P.honest pair.old → P.base pair.new ≡ P.base pair.old }
    ensures title { P.honest pair.old →
        OnOk result (block_at 0 (P.journal pair.new) ≡ title_of (P.base pair.old)) }
    ensures room { P.honest pair.old → OnOk result (length (P.journal pair.new) ≡ 2) }
    ensures not_ended { P.honest pair.old → OnOk result (block_at 1 (P.journal pair.new) ≡ zeros) }
    ensures stops { P.honest pair.old →
        PairLeaves P.moment P.left_since pair.old pair.new (LeavesItsBase (P.may_leave pair.old)) }
    ensures honest { P.honest pair.old ↔ P.honest pair.new }
    ensures faults { Counts (P.faults pair.old) (P.faults pair.new) result }
{
    let page = title_of_base(pair)?;
    pair.write_journal(0, &page)?;
    if pair.journal_blocks() != 1 {
        return Err(DeviceError::Memory);
    }
    pair.write_journal(1, &zero_block())
}
