//! A base and its journal, of which the first blocks are the committed regions of a log.
ghost use Rattle.committed_log.specs.Stops.{IsStanding};
ghost use Rattle.committed_log.specs.StopsFact.{standing_fact};

mod calls;
mod home;
mod open;
mod taking;

use crate::slots::Slots;
use device_pair::DevicePair;
pub use open::OpenFault;
use std::alloc::{Allocator, Global};
pub use taking::{HOMES, push_none, region_blocks};

/// The committed regions of a log over a base.
///
/// The base is read through the regions: a block has the bytes of its last slot, or else those of the base.
/// What stands behind the regions in the journal is where the next one is written. A block that has a slot is
/// written at home by `copy_home` alone. Memory is the index of the regions, at most 16 bytes for each of
/// their blocks.
#[derive(Drop)]
pub struct CommittedLog<P: DevicePair, A: Allocator + Copy = Global> {
    pair: P,
    // for each block of the regions its home, so that as many blocks of the journal are regions
    slots: Slots<A>,
    // the base has all slots, and the first flag has been asked to say that its region is not committed
    clearing: bool,
    ghost standing: { P.honest pair → IsStanding clearing slots.homes.items (P.base pair) (P.journal pair)
        (P.may_leave pair) } by { λ p q i h.
            standing_fact clearing slots.homes.items (P.base pair) (P.journal pair)
            (P.may_leave pair) (p h) (q h) i },
}
