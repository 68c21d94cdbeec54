//! A pair of which nothing is written.
ghost use Rattle.std.specs.Prelude.{◌≤◌, ◌+◌, ◌^◌, length};
ghost use Rattle.std.specs.List.{All};
ghost use Rattle.block_device.specs.Device.{IsBlock};
ghost use Rattle.device_pair.specs.Memory.{AreLeft};
ghost use Rattle.unwritten_pair.specs.Taken.{IsAsTakenOf};
ghost use Rattle.unwritten_pair.specs.TakenLaws.{left_is_fact, taken_is_fact, whole_is_fact};

mod calls;
mod taking;
mod writing;

use device_pair::{DevicePair, Snapshots};
use std::alloc::{Allocator, Global};

/// A pair of devices of which nothing is written: blocks that are appended to its journal are held in memory,
/// and every other write fails.
///
/// Both devices are synced when the pair is taken over, so that each stop since then leaves of them what is
/// read. A block in memory counts as one on disk while the pair is held.
#[derive(Drop)]
pub struct UnwrittenPair<P: DevicePair, A: Allocator = Global> {
    pair: P,
    // the blocks behind those of the pair's journal
    behind: Vec<[u8; 4096], A>,
    // how many writes were refused
    refusals: u64,
    // the pair and the blocks in memory before each write of one of these
    past: Snapshots<P, Vec<[u8; 4096], A>>,
    // the pair as it was taken over, beside how many blocks its journal had
    first: Snapshots<P, u32>,
    ghost few: { length (P.journal pair) + length behind.items ≤ 2 ^ 31 },
    ghost whole: { All IsBlock behind.items } by { whole_is_fact behind.items },
    ghost synced: { P.honest pair →
        AreLeft (P.base pair) (P.journal pair) (P.may_leave pair) } by { λ p q i h.
            left_is_fact (P.base pair) (P.journal pair) (P.may_leave pair) (p h) (q h) i },
    ghost unwritten: { P.honest pair →
        IsAsTakenOf P.base P.journal P.moment P.left_since first.taken pair } by { λ p q i h.
            taken_is_fact P.base P.journal P.moment P.left_since first.taken pair (p h) (q h) i },
}
