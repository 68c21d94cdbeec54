//! The laws of a commit and of recovery, each the contract of a function that does nothing.
ghost use Rattle.std.specs.Prelude.{◌≡◌, ◌≤◌, ℕ, [], drop, false, length, take};
ghost use Rattle.block_device.specs.Device.{BeginsOne, Blocks};
ghost use Rattle.device_pair.specs.Pairs.{PairLeaves, PairsNoMore};
ghost use Rattle.committed_log.specs.Appending.{IsAppended};
ghost use Rattle.committed_log.specs.Committed as regions;
ghost use Rattle.committed_log.specs.Log.{homes_in, overlaid, recovered};
ghost use Rattle.committed_log.specs.Opening.{IsMalformed, LeavesOr};
ghost use Rattle.logged_pair.specs.Snapshots.{end_of, seen_by, snapshot, HasSnapshot, HasSnapshotBehind};
ghost use Rattle.logged_pair.specs.Snapshots.{KeepsReaders, KeepsSnapshots};
ghost use Rattle.logged_pair.specs.Standing.{base_of, clearing_of, commits_of, homes_of, kept_of, left_since_of};
ghost use Rattle.logged_pair.specs.Standing.{log_of, may_leave_of, pair_of, shown_of, IsHonest};
ghost use Rattle.logged_pair.specs.declared.pair.LoggedPair.{LoggedPair};

use device_pair::DevicePair;
use std::alloc::Allocator;

/// Whatever a stop of both devices leaves at one moment, recovery makes of it blocks that begin with a
/// commit.
pub fn recovery_gives_a_commit<P: DevicePair, A: Allocator + Copy>()
    ensures { (d : LoggedPair P A ⟦<P as DevicePair>⟧) (a b : Blocks) → IsHonest d →
        P.may_leave (pair_of d) a b → BeginsOne (commits_of d) (recovered a b) }
{}

/// Whatever a stop of both devices leaves, each region that says that it is committed is so, with room for its slots
/// and homes that are there: opening finds none malformed.
pub fn a_log_that_is_left_is_well_formed<P: DevicePair, A: Allocator + Copy>()
    ensures { (d : LoggedPair P A ⟦<P as DevicePair>⟧) (a b : Blocks) → IsHonest d →
        P.may_leave (pair_of d) a b → IsMalformed a b → ⊥ }
{}

/// What is read, recovered from both devices as they are read, is one of the outcomes of a stop now.
pub fn what_is_read_is_an_outcome<P: DevicePair, A: Allocator + Copy>()
    ensures { (d : LoggedPair P A ⟦<P as DevicePair>⟧) → IsHonest d →
        may_leave_of d (recovered (P.base (pair_of d)) (P.journal (pair_of d))) }
{}

/// Whatever a stop of both has left since a moment is found, once it is recovered, since that moment and since
/// each earlier one.
pub fn stops_of_the_pair_are_found<P: DevicePair, A: Allocator + Copy>()
    ensures { (d : LoggedPair P A ⟦<P as DevicePair>⟧) (t u : ℕ) (a b : Blocks) → IsHonest d →
        t ≤ u → P.left_since (pair_of d) u a b → left_since_of d t (recovered a b) }
{}

/// Over a pair that a stop of a logged pair has left, opening is such that a stop within it, or after it, leaves
/// one of its commits again.
pub fn a_stop_within_opening_leaves_a_commit<P: DevicePair, A: Allocator + Copy>()
    ensures { (d : LoggedPair P A ⟦<P as DevicePair>⟧) (pair opened : P) → IsHonest d →
        P.honest pair → PairsNoMore (P.may_leave (pair_of d)) (P.may_leave pair) →
        PairLeaves P.moment P.left_since pair opened
        (LeavesOr (P.may_leave pair) (recovered (P.base pair) (P.journal pair))) →
        PairLeaves P.moment P.left_since pair opened
        (λ a b. BeginsOne (commits_of d) (recovered a b)) }
{}

/// A logged pair that was given up, and whose devices are then opened, shows blocks that begin with one of its
/// commits.
pub fn what_is_given_up_is_a_commit_again<P: DevicePair, A: Allocator + Copy>()
    ensures { (d opened : LoggedPair P A ⟦<P as DevicePair>⟧) → IsHonest d →
        shown_of opened ≡ recovered (P.base (pair_of d)) (P.journal (pair_of d)) →
        BeginsOne (commits_of d) (shown_of opened) }
{}

/// Whatever a stop now may leave of both devices shows a reader's snapshot as they show it as they are read: the log
/// up to its block, and through it the base, whether the index of the log is read now or was read before. So a
/// reader sees it whose reads give what a stop at their moments may leave.
pub fn what_a_reader_reads_stays<P: DevicePair, A: Allocator + Copy>()
    ensures log { (d : LoggedPair P A ⟦<P as DevicePair>⟧) (p n : ℕ) (a b : Blocks) → HasSnapshot p n d →
        P.may_leave (pair_of d) a b → take p b ≡ take p (P.journal (pair_of d)) }
    ensures now { (d : LoggedPair P A ⟦<P as DevicePair>⟧) (p n : ℕ) (a b : Blocks) → HasSnapshot p n d →
        P.may_leave (pair_of d) a b → snapshot p n a b ≡ seen_by p n (log_of d) }
    ensures index { (d : LoggedPair P A ⟦<P as DevicePair>⟧) (p n : ℕ) (a b : Blocks) → HasSnapshot p n d →
        P.may_leave (pair_of d) a b →
        take n (overlaid (homes_in (take p (P.journal (pair_of d)))) b a) ≡ seen_by p n (log_of d) }
    ensures blocks { (d : LoggedPair P A ⟦<P as DevicePair>⟧) (p n : ℕ) → IsHonest d → HasSnapshot p n d →
        length (seen_by p n (log_of d)) ≡ n }
{}

/// Who looks at block 0 no more has a snapshot behind it where it had one, and sees that whatever a stop now may leave
/// of both devices, as who looks at all of them sees a snapshot.
pub fn what_is_read_behind_the_gate_stays<P: DevicePair, A: Allocator + Copy>()
    ensures there { (d : LoggedPair P A ⟦<P as DevicePair>⟧) (p n : ℕ) → HasSnapshot p n d →
        HasSnapshotBehind p n d }
    ensures log { (d : LoggedPair P A ⟦<P as DevicePair>⟧) (p n : ℕ) (a b : Blocks) → HasSnapshotBehind p n d →
        P.may_leave (pair_of d) a b → take p b ≡ take p (P.journal (pair_of d)) }
    ensures now { (d : LoggedPair P A ⟦<P as DevicePair>⟧) (p n : ℕ) (a b : Blocks) → HasSnapshotBehind p n d →
        P.may_leave (pair_of d) a b → drop 1 (snapshot p n a b) ≡ drop 1 (seen_by p n (log_of d)) }
    ensures index { (d : LoggedPair P A ⟦<P as DevicePair>⟧) (p n : ℕ) (a b : Blocks) → HasSnapshotBehind p n d →
        P.may_leave (pair_of d) a b →
        drop 1 (take n (overlaid (homes_in (take p (P.journal (pair_of d)))) b a)) ≡
        drop 1 (seen_by p n (log_of d)) }
{}

/// Calls in turn keep what readers see where each of them does: all of a snapshot, or what stands behind block 0. Who
/// keeps all of it keeps that.
pub fn calls_in_turn_keep_what_readers_see<P: DevicePair, A: Allocator + Copy>()
    ensures snapshots { (d e f : LoggedPair P A ⟦<P as DevicePair>⟧) → KeepsSnapshots d e →
        KeepsSnapshots e f → KeepsSnapshots d f }
    ensures readers { (d e f : LoggedPair P A ⟦<P as DevicePair>⟧) → KeepsReaders d e → KeepsReaders e f →
        KeepsReaders d f }
    ensures all { (d e : LoggedPair P A ⟦<P as DevicePair>⟧) → KeepsSnapshots d e → KeepsReaders d e }
{}

/// Who has read all regions of the log has a snapshot of the last commit, or of its first blocks.
pub fn the_last_commit_is_a_snapshot<P: DevicePair, A: Allocator + Copy>()
    ensures there { (d : LoggedPair P A ⟦<P as DevicePair>⟧) (n : ℕ) → IsHonest d →
        clearing_of d ≡ false → n ≤ kept_of d → HasSnapshot (end_of d) n d }
    ensures shown { (d : LoggedPair P A ⟦<P as DevicePair>⟧) (n : ℕ) → IsHonest d →
        clearing_of d ≡ false → seen_by (end_of d) n (log_of d) ≡ take n (base_of d) }
{}

/// What opening leaves of both devices, at each moment since they were synced, shows who has read the log before
/// what it saw.
pub fn what_is_appended_is_not_seen()
    ensures log { (p : ℕ) (base journal a b : Blocks) → p ≤ length journal → IsAppended base journal a b →
        take p b ≡ take p journal }
    ensures blocks { (p n : ℕ) (base journal a b : Blocks) → p ≤ length journal →
        IsAppended base journal a b → snapshot p n a b ≡ snapshot p n base journal }
{}

/// Where nothing is in the log, and nothing was written since the last commit but blocks that were appended, what is
/// read is the base alone.
pub fn what_is_home_is_the_base<P: DevicePair, A: Allocator + Copy>()
    ensures { (d : LoggedPair P A ⟦<P as DevicePair>⟧) → homes_of d ≡ [] →
        regions.homes_of (log_of d) ≡ [] → shown_of d ≡ P.base (pair_of d) }
{}
