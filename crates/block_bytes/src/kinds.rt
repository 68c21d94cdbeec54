//! The kinds of pages, each the byte 0 of its pages, and the first four bytes of a page with entries.
ghost use Rattle.std.specs.Prelude.{◌≡◌, ◌≤◌, ℕ};
ghost use Rattle.block_bytes.specs.Kinds.{HasHead};
ghost use Rattle.block_bytes.specs.Numbers.{number_at};

use crate::writing::{write_u8, write_u16, zero_block};

/// The catalog, page 2 of each file.
pub const CATALOG_KIND: u8 = 1;

/// A node of a tree in format 1, whose objects have the tag 0. It is read and no longer written.
pub const UNTAGGED_NODE_KIND: u8 = 2;

/// The directory of an identifier table.
pub const DIRECTORY_KIND: u8 = 3;

/// A bucket of an identifier table in format 1, whose objects have the tag 0. It is read and no longer
/// written.
pub const UNTAGGED_BUCKET_KIND: u8 = 4;

/// A page that was freed.
pub const FREE_KIND: u8 = 5;

/// A node of a tree.
pub const NODE_KIND: u8 = 6;

/// A bucket of an identifier table.
pub const BUCKET_KIND: u8 = 7;

/// Makes the page one of zeros but for its kind, its dimension and its count.
pub fn write_head(page: &mut [u8; 4096], kind: u8, dims: u8, count: u16)
    ensures head { HasHead kind dims count page.new }
    ensures rest { (k : ℕ) → 4 ≤ k → number_at 1 k page.new ≡ 0 }
{
    *page = zero_block();
    write_u8(page, 0, kind);
    write_u8(page, 1, dims);
    write_u16(page, 2, count);
}
