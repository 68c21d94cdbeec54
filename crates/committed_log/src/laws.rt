//! The laws of what a stop leaves of a log, each the contract of a function that does nothing.
ghost use Rattle.std.specs.Prelude.{◌≡◌, ◌≤◌, drop, false, length, take};
ghost use Rattle.block_device.specs.Device.{Blocks, block_at};
ghost use Rattle.committed_log.specs.Committed.{behind_of, clearing_of, homes_of, journal_of, pair_of, IsHonest};
ghost use Rattle.committed_log.specs.Log.{homes_in, overlaid, recovered, says};
ghost use Rattle.committed_log.specs.Opening.{IsMalformed};
ghost use Rattle.committed_log.specs.declared.log.CommittedLog.{CommittedLog};

use device_pair::DevicePair;
use std::alloc::Allocator;

/// Whatever a stop leaves of base and journal, recovery makes of it what it makes of the base as it is read
/// through the regions and of the blocks behind them.
pub fn recovery_goes_through_the_regions<P: DevicePair, A: Allocator + Copy>()
    ensures { (c : CommittedLog P A ⟦<P as DevicePair>⟧) (a b : Blocks) → IsHonest c →
        P.may_leave (pair_of c) a b →
        recovered a b ≡ recovered (overlaid (homes_of c) b a) (drop (length (homes_of c)) b) }
{}

/// Whatever a stop leaves of base and journal, each region of the log is whole in it, with room for its slots and
/// homes that are there: where opening finds it malformed, it is the blocks behind the regions that are so.
pub fn a_log_that_is_left_is_well_formed<P: DevicePair, A: Allocator + Copy>()
    ensures { (c : CommittedLog P A ⟦<P as DevicePair>⟧) (a b : Blocks) → IsHonest c →
        P.may_leave (pair_of c) a b → IsMalformed a b →
        IsMalformed (overlaid (homes_of c) b a) (drop (length (homes_of c)) b) }
{}

/// The index of a log behind which no region is committed is that of a journal that has all its regions, and to which
/// it only appended.
pub fn the_index_is_that_of_the_journal<P: DevicePair, A: Allocator + Copy>()
    ensures { (c : CommittedLog P A ⟦<P as DevicePair>⟧) (journal : Blocks) → IsHonest c → clearing_of c ≡ false →
        says (block_at 0 (behind_of c)) ≡ false → take (length journal) (journal_of c) ≡ journal →
        length (homes_of c) ≤ length journal → homes_in journal ≡ homes_of c }
{}
