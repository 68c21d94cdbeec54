//! A device over a base and the log of its commits, which commits where a sync finds blocks that opening takes.
ghost use Rattle.journaled_device.specs.Events.{IsNoted};
ghost use Rattle.journaled_device.specs.EventsFact.{noted_is_fact};
ghost use Rattle.logged_pair.specs.Standing.{IsHonest};

mod calls;
mod giving_up;
mod home;
mod noting;
mod open;
mod writing;

use crate::readers::Nobody;
use device_pair::{DevicePair, Snapshots};
use logged_pair::LoggedPair;
use std::alloc::{Allocator, Global};

/// A device over a base and its journal, of which a stop brings back the last commit, or the one in progress.
///
/// To its callers it is a plain disk: its contract says what a stop would leave of one after the same writes
/// and syncs. Beside that it tells what a stop really brings back. A sync commits what is read where
/// `page_file` would open it, and makes no call but reads where it would not.
///
/// Others may read the base through its log meanwhile: what is committed is copied home only where `readers` keep
/// them out.
#[derive(Drop)]
pub struct JournaledDevice<P: DevicePair, A: Allocator + Copy = Global, G = Nobody> {
    pair: LoggedPair<P, A>,
    // the pair before each write and sync, and the number of the block that was written
    past: Snapshots<LoggedPair<P, A>, Option<u32>>,
    readers: G,
    // each commit is copied home
    each_home: bool,
    ghost noted: { IsHonest pair →
        IsNoted pair past.taken } by { λ p q i h. noted_is_fact pair past.taken (p h) (q h) i },
}
