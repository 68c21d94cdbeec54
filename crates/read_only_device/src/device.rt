//! The device over a reader.
ghost use Rattle.std.specs.Prelude.{◌<◌, ◌^◌};

mod calls;

use crate::BlockReader;

/// A device over blocks that are only read: it borrows their reader, which no call of it can change. A write
/// is answered `Failed`, and makes no call. A stop leaves the blocks as they are read.
///
/// So who lends the reader has the same blocks after any run over the device, whatever the run did.
#[derive(Drop)]
pub struct ReadOnlyDevice<'a, R: BlockReader> {
    reader: &'a R,
    // how many calls have failed, up to the greatest number
    faults: u64,
    ghost fit: { faults < 2 ^ 64 },
}
