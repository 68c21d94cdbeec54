//! A base and its log opened, after a stop or not.
ghost use Rattle.std.specs.Prelude.{◌≡◌, ◌≤◌, ◌↔◌, ℕ, false, [], length, take, IfOk, IfErr};
ghost use Rattle.block_device.specs.Device.{Blocks};
ghost use Rattle.device_pair.specs.Pairs.{PairLeaves};
ghost use Rattle.committed_log.specs.Appending.{OrAppended};
ghost use Rattle.committed_log.specs.Log.{homes_in, recovered};
ghost use Rattle.committed_log.specs.Opening.{IsMalformed, LeavesOr};
ghost use Rattle.committed_log.specs.declared.log.open.OpenFault.TheVariants as fault;
ghost use Rattle.logged_pair.specs.Snapshots.{end_of, seen_by, snapshot, HasSnapshot};
ghost use Rattle.logged_pair.specs.Standing.{clearing_of, commits_of, deciding_of, homes_of, kept_of, log_of};
ghost use Rattle.logged_pair.specs.Standing.{pair_of, shown_of, IsHonest};

use crate::pair::LoggedPair;
use committed_log::{CommittedLog, OpenFault, Slots};
use device_pair::DevicePair;
use std::alloc::Allocator;

impl<P: DevicePair, A: Allocator + Copy> LoggedPair<P, A> {
    /// Opens a base and its journal, which may be empty, and copies nothing. It may be cut short, at any moment.
    ///
    /// What is then read is what recovery makes of base and journal as they were read, and is the one commit.
    pub fn open(pair: P, alloc: A) -> Result<LoggedPair<P, A>, (OpenFault, P)>
        ensures shown { IfOk result (λ d. P.honest pair →
            shown_of d ≡ recovered (P.base pair) (P.journal pair)) }
        ensures commits { IfOk result (λ d. P.honest pair → (kept : Blocks) → commits_of d kept →
            kept ≡ recovered (P.base pair) (P.journal pair)) }
        ensures filling { IfOk result (λ d. deciding_of d ≡ false) }
        ensures settled { IfOk result (λ d. clearing_of d ≡ false) }
        ensures none { IfOk result (λ d. homes_of d ≡ []) }
        ensures base { IfOk result (λ d. P.honest pair → P.base (pair_of d) ≡ P.base pair) }
        ensures refused_base { IfErr result (λ e. P.honest pair → P.base e.1 ≡ P.base pair) }

        // A stop leaves what one before the call might have left, or what recovers to the same.
        ensures stops { IfOk result (λ d. P.honest pair →
            PairLeaves P.moment P.left_since pair (pair_of d)
            (LeavesOr (P.may_leave pair) (recovered (P.base pair) (P.journal pair)))) }
        ensures refused_stops { IfErr result (λ e. P.honest pair →
            PairLeaves P.moment P.left_since pair e.1
            (LeavesOr (P.may_leave pair) (recovered (P.base pair) (P.journal pair)))) }

        // Who has read the log up to a block p, where a region ends, goes on to see what it saw.
        ensures readers { IfOk result (λ d. P.honest pair → (p n : ℕ) → p ≤ end_of d →
            p ≤ length (P.journal pair) → length (homes_in (take p (P.journal pair))) ≡ p → n ≤ kept_of d →
            HasSnapshot p n d × (seen_by p n (log_of d) ≡ snapshot p n (P.base pair) (P.journal pair))) }
        ensures append_stops { IfOk result (λ d. P.honest pair →
            PairLeaves P.moment P.left_since pair (pair_of d)
            (OrAppended (P.may_leave pair) (P.base pair) (P.journal pair))) }
        ensures refused_append_stops { IfErr result (λ e. P.honest pair →
            PairLeaves P.moment P.left_since pair e.1
            (OrAppended (P.may_leave pair) (P.base pair) (P.journal pair))) }
        ensures malformed { IfErr result (λ e. P.honest pair → e.0 ≡ fault.Malformed →
            IsMalformed (P.base pair) (P.journal pair)) }
        ensures honest { IfOk result (λ d. P.honest pair ↔ IsHonest d) }
        ensures refused_honest { IfErr result (λ e. P.honest pair ↔ P.honest e.1) }
    {
        let log = CommittedLog::open(pair, alloc)?;
        let kept = log.base_blocks();
        Ok(LoggedPair {
            log,
            slots: Slots::new(alloc),
            kept,
            deciding: false,
            marked: false,
        })
    }
}
