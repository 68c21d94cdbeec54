//! A pair that is only viewed, as a device.
ghost use Rattle.std.specs.Prelude.{◌<◌, ◌^◌};
ghost use Rattle.block_device.specs.Device.{IsBlock};

mod calls;

use committed_log::Slots;
use device_pair::DevicePair;
use std::alloc::Global;

/// What a base is read through.
#[derive(Drop)]
pub(crate) struct View {
    // its block 0, where that has no slot
    pub(crate) gate: [u8; 4096],
    // the slots of its blocks in the journal, behind the title
    pub(crate) slots: Slots<Global>,
    ghost whole: { IsBlock gate },
}

/// A pair of which nothing is written, as a device: its base, in a view. Each write fails.
///
/// To its callers both files are what it commits, and it takes no other. So one that they give back, whatever they did,
/// has both as they were.
#[derive(Drop)]
pub(crate) struct ViewedPair<P: DevicePair> {
    pair: P,
    view: View,
    // how many calls have failed, up to the greatest number
    faults: u64,
    ghost fit: { faults < 2 ^ 64 },
}
