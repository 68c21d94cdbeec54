//! The blocks of a file as bytes: gate, header, empty catalog and free page.
ghost use Rattle.std.specs.Prelude.{◌≡◌, IfSome, true};
ghost use Rattle.page_file.specs.Layout.{gate_block, header_block, catalog_block, free_block, IsHeader};
ghost use Rattle.page_file.specs.Layout as layout;
ghost use Rattle.page_file.specs.Opening.{header_of_block};
ghost use Rattle.page_file.specs.Pages.{free_page_link, may_link};

use crate::header::{Header, Version};
use block_bytes::{
    FREE_KIND, read_u8, read_u16, read_u32, write_u8, write_u16, write_u32, write_u64, zero_block,
};

/// The ASCII text RSTARGAT.
pub const GATE_TEXT: u64 = 0x5253_5441_5247_4154;

/// The ASCII text RSTARHDR.
pub const HEADER_TEXT: u64 = 0x5253_5441_5248_4452;

/// Whether files of which the header has this number as the version are read, where the newest version that
/// is read is this one (docs/FORMAT.md, "Versions").
pub fn is_read(newest: Version, number: u16) -> bool
    ensures { result ≡ layout.is_read newest number }
{
    1 <= number && number <= version_number(newest)
}

// The number of a version, as a header is written.
fn version_number(version: Version) -> u16
    ensures { result ≡ layout.version_number version }
{
    match version {
        Version::Two => 2,
        Version::Three => 3,
    }
}

// The version of a header's number, as it is read: 3, and each other one is read as 2.
fn version_from(number: u16) -> Version
    ensures { result ≡ layout.version_from number }
{
    if number == 3 {
        Version::Three
    } else {
        Version::Two
    }
}

/// The gate's block, open (0) or shut (1).
#[tactic(auto, unfolding(crate::specs::Layout::gate_block))]
pub fn gate_page(shut: u8) -> [u8; 4096]
    ensures { result ≡ gate_block shut }
{
    let mut page = zero_block();
    write_u64(&mut page, 0, GATE_TEXT);
    write_u8(&mut page, 8, shut);
    page
}

/// The header's block.
#[tactic(auto, unfolding(crate::specs::Layout::header_block))]
pub fn header_page(header: &Header) -> [u8; 4096]
    ensures is { result ≡ header_block header.now }
    ensures reads { IsHeader header.now result }
    ensures version { layout.header_version result ≡ layout.version_number header.now.version }
{
    let mut page = zero_block();
    write_u64(&mut page, 0, HEADER_TEXT);
    write_u16(&mut page, 8, version_number(header.version));
    write_u32(&mut page, 12, header.next);
    write_u32(&mut page, 16, header.first);
    write_u32(&mut page, 20, header.count);
    page
}

/// What a header's block says.
pub fn read_header(page: &[u8; 4096]) -> Header
    ensures { result ≡ header_of_block page.now }
{
    Header {
        version: version_from(read_u16(page, 8)),
        next: read_u32(page, 12),
        first: read_u32(page, 16),
        count: read_u32(page, 20),
    }
}

/// The block of a catalog of no layers.
#[tactic(auto, unfolding(crate::specs::Layout::catalog_block))]
pub fn catalog_page() -> [u8; 4096]
    ensures { result ≡ catalog_block }
{
    let mut page = zero_block();
    write_u8(&mut page, 0, 1);
    page
}

/// The block of a free page that names the next one.
#[tactic(auto, unfolding(crate::specs::Layout::free_block))]
pub fn free_page(next: u32) -> [u8; 4096]
    ensures { result ≡ free_block next }
{
    let mut page = zero_block();
    write_u8(&mut page, 0, FREE_KIND);
    write_u32(&mut page, 4, next);
    page
}

/// The page that a free page names as the next, where so many are free from it on. None where the block is no
/// such page as the format has it.
pub fn free_link(page: &[u8; 4096], count: u32, next: u32) -> Option<u32>
    ensures link { result ≡ free_page_link count next page.now }
    ensures there { IfSome result (λ link. may_link count next link ≡ true) }
{
    let link = read_u32(page, 4);
    let fits = if count == 1 {
        link == 0
    } else {
        3 <= link && link < next
    };
    if read_u8(page, 0) == FREE_KIND && fits {
        Some(link)
    } else {
        None
    }
}
