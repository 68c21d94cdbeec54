//! A base and a log of commits, whose sync is atomic.
ghost use Rattle.committed_log.specs.Committed as regions;
ghost use Rattle.logged_pair.specs.Stages.{IsStanding};
ghost use Rattle.logged_pair.specs.StagesFact.{standing_fact};

mod calls;
mod commit;
mod filling;
mod giving_up;
mod home;
mod open;
mod record;
mod taken;

use committed_log::{CommittedLog, Slots};
use device_pair::DevicePair;
pub(crate) use record::index_page;
use std::alloc::{Allocator, Global};

/// A base and a log of commits. A sync commits what was written since the last one, or nothing of it.
///
/// A block that was there at the last commit is written into a slot of the region behind those that are
/// committed, and read from there. Blocks behind those go straight into the base. Memory is the index of the
/// slots, which is taken before the write that needs it.
#[derive(Drop)]
pub struct LoggedPair<P: DevicePair, A: Allocator + Copy = Global> {
    log: CommittedLog<P, A>,
    slots: Slots<A>,
    // how many blocks the base had at the last commit
    kept: u32,
    // the region is whole and synced, and its flag says that it is committed, or not: it has been asked to
    deciding: bool,
    // block 0 of a commit of this session was copied home
    marked: bool,
    ghost standing: { regions.IsHonest log → IsStanding deciding (regions.clearing_of log) kept slots.homes.items
        (regions.seen_of log) (regions.behind_of log)
        (regions.leaves_of log) } by { λ p q i h.
            standing_fact deciding (regions.clearing_of log) kept slots.homes.items (regions.seen_of log)
            (regions.behind_of log)
            (regions.leaves_of log) (p h) (q h) i },
}
