//! The laws of a commit and of recovery, each the contract of a function that only calls the law of the pair.
ghost use Rattle.std.specs.Prelude.{◌≡◌, ◌≤◌, ℕ};
ghost use Rattle.block_device.specs.Device.{BeginsOne, Blocks};
ghost use Rattle.device_pair.specs.Pairs.{PairLeaves, PairsNoMore};
ghost use Rattle.committed_log.specs.Log.{recovered};
ghost use Rattle.committed_log.specs.Opening.{IsMalformed, LeavesOr};
ghost use Rattle.logged_pair.specs.Standing.{commits_of, shown_of, IsHonest};
ghost use Rattle.journaled_device.specs.Journaled.{found_since_of, inner_of, pair_of};
ghost use Rattle.journaled_device.specs.declared.device.JournaledDevice.{JournaledDevice};

use device_pair::DevicePair;
use logged_pair::laws;
use std::alloc::Allocator;

/// Whatever a stop of both devices leaves at one moment, recovery makes of it blocks that begin with a
/// commit.
pub fn recovery_gives_a_commit<P: DevicePair, A: Allocator + Copy, G>()
    ensures { (d : JournaledDevice P A G ⟦<P as DevicePair>⟧) (a b : Blocks) → IsHonest (inner_of d) →
        P.may_leave (pair_of d) a b → BeginsOne (commits_of (inner_of d)) (recovered a b) }
{
    laws::recovery_gives_a_commit::<P, A>()
}

/// Whatever a stop of both has left since a moment is found, once it is recovered, since that moment of the
/// device: it has one moment more with each write and sync, and as many as the pair when it is opened.
pub fn stops_of_the_pair_are_found<P: DevicePair, A: Allocator + Copy, G>()
    ensures { (d : JournaledDevice P A G ⟦<P as DevicePair>⟧) (t u : ℕ) (a b : Blocks) → IsHonest (inner_of d) →
        t ≤ u → P.left_since (pair_of d) u a b → found_since_of d t (recovered a b) }
{
    laws::stops_of_the_pair_are_found::<P, A>()
}

/// Over a pair that a stop of a device has left, opening is such that a stop within it, or after it, leaves
/// one of the device's commits again.
pub fn a_stop_within_opening_leaves_a_commit<P: DevicePair, A: Allocator + Copy, G>()
    ensures { (d : JournaledDevice P A G ⟦<P as DevicePair>⟧) (pair opened : P) → IsHonest (inner_of d) →
        P.honest pair → PairsNoMore (P.may_leave (pair_of d)) (P.may_leave pair) →
        PairLeaves P.moment P.left_since pair opened
        (LeavesOr (P.may_leave pair) (recovered (P.base pair) (P.journal pair))) →
        PairLeaves P.moment P.left_since pair opened
        (λ a b. BeginsOne (commits_of (inner_of d)) (recovered a b)) }
{
    laws::a_stop_within_opening_leaves_a_commit::<P, A>()
}

/// A device that was given up, and whose pair is then opened, shows blocks that begin with one of its
/// commits.
pub fn what_is_given_up_is_a_commit_again<P: DevicePair, A: Allocator + Copy, G>()
    ensures { (d opened : JournaledDevice P A G ⟦<P as DevicePair>⟧) → IsHonest (inner_of d) →
        shown_of (inner_of opened) ≡ recovered (P.base (pair_of d)) (P.journal (pair_of d)) →
        BeginsOne (commits_of (inner_of d)) (shown_of (inner_of opened)) }
{
    laws::what_is_given_up_is_a_commit_again::<P, A>()
}

/// Whatever a stop of both devices leaves, each region of the journal that says that it is committed is so, with room
/// for its slots and homes that are there: opening finds none malformed.
pub fn a_journal_that_is_left_is_well_formed<P: DevicePair, A: Allocator + Copy, G>()
    ensures { (d : JournaledDevice P A G ⟦<P as DevicePair>⟧) (a b : Blocks) → IsHonest (inner_of d) →
        P.may_leave (pair_of d) a b → IsMalformed a b → ⊥ }
{
    laws::a_log_that_is_left_is_well_formed::<P, A>()
}
