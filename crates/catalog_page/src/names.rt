//! The name of a record: its length, and then its bytes.

ghost use Rattle.std.specs.Prelude.{◌≡◌, ◌+◌, ◌≤◌, ◌↔◌, length, IsSome, IfSome};
ghost use Rattle.block_bytes.specs.Numbers.{number_at};
ghost use Rattle.catalog_page.specs.Layout.{bytes_at, ChangesOnly};

use arrayvec::ArrayVec;
use block_bytes::{read_u8, write_u8};

/// The name whose length stands at the byte `at`, or `None` where that length is not 1 to 24.
pub(crate) fn read_name(page: &[u8; 4096], at: usize) -> Option<ArrayVec<u8, 24>>
    requires { at + 25 ≤ 4096 }
    ensures value { IfSome result
        (λ name. name.items ≡ bytes_at (number_at 1 at page.now) (at + 1) page.now) }
    ensures some { IsSome result ↔ ((1 ≤ number_at 1 at page.now) × (number_at 1 at page.now ≤ 24)) }
{
    let length = usize::from(read_u8(page, at));
    if length == 0 || length > 24 {
        return None;
    }
    let mut name = ArrayVec::new();
    for k in 0..length {
        name.push(read_u8(page, at + 1 + k));
    }
    Some(name)
}

/// Writes the name, its length at the byte `at` and its bytes after it. All other bytes stay.
pub(crate) fn write_name(page: &mut [u8; 4096], at: usize, name: &ArrayVec<u8, 24>)
    requires { at + 25 ≤ 4096 }
    ensures short { length name.now.items ≤ 24 }
    ensures size { number_at 1 at page.new ≡ length name.now.items }
    ensures bytes { bytes_at (length name.now.items) (at + 1) page.new ≡ name.now.items }
    ensures others { ChangesOnly (1 + length name.now.items) at page.old page.new }
{
    let length = name.len();
    write_u8(page, at, length as u8);
    for k in 0..length {
        write_u8(page, at + 1 + k, name[k]);
    }
}
