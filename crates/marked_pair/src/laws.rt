//! The laws of a pair behind a mark, each the contract of a function that does nothing.
ghost use Rattle.std.specs.Prelude.{◌≡◌, ◌≤◌, ◌∷◌, [], Some, length};
ghost use Rattle.block_device.specs.Device.{Blocks};
ghost use Rattle.page_file.specs.Opening.{IsRefused, failed_check};
ghost use Rattle.page_file.specs.declared.fault.Fault.TheVariants.{NotClosed};
ghost use Rattle.marked_pair.specs.Behind.{IsLeft};
ghost use Rattle.marked_pair.specs.Mark.{unmarked, IsMarked};
ghost use Rattle.marked_pair.specs.Pair.{base_of, disk_of, first_of, kept_of, mark_of, pair_of, IsHonest};
ghost use Rattle.marked_pair.specs.declared.mark.Mark.TheVariants.{Synced};
ghost use Rattle.marked_pair.specs.declared.pair.MarkedPair.{MarkedPair};

use device_pair::DevicePair;

/// While the mark is synced, opening refuses the base alone that a stop leaves: where it has the blocks of a
/// file, as one that is not closed.
pub fn a_base_behind_a_mark_is_refused<P: DevicePair>()
    ensures refused { (d : MarkedPair P ⟦<P as DevicePair>⟧) (a b : Blocks) → IsHonest d →
        mark_of d ≡ Synced →
        P.may_leave (pair_of d) a b → IsRefused a }
    ensures not_closed { (d : MarkedPair P ⟦<P as DevicePair>⟧) (a b : Blocks) → IsHonest d →
        mark_of d ≡ Synced →
        P.may_leave (pair_of d) a b → 3 ≤ length a → failed_check a ≡ Some NotClosed }
{}

/// Whatever a stop has left since the pair was taken over, now or within a call: its base has the mark, or
/// all blocks that were there then but the gate are as they were; and it has the mark where there was one
/// then.
pub fn a_stop_leaves_a_mark_or_the_base_as_it_was<P: DevicePair>()
    ensures since { (d : MarkedPair P ⟦<P as DevicePair>⟧) (p : P) (a b : Blocks) → IsHonest d →
        first_of d ≡ (p, kept_of d) ∷ [] → P.left_since (pair_of d) (P.moment p) a b →
        IsLeft (kept_of d) (P.base p) a b }
    ensures now { (d : MarkedPair P ⟦<P as DevicePair>⟧) (p : P) (a b : Blocks) → IsHonest d →
        first_of d ≡ (p, kept_of d) ∷ [] → P.may_leave (pair_of d) a b → IsLeft (kept_of d) (P.base p) a b }
{}

/// A base without a mark is shown as it is.
pub fn a_base_without_a_mark_is_shown<P: DevicePair>()
    ensures blocks { (c : Blocks) → ¬ IsMarked c → unmarked c ≡ c }
    ensures pair { (d : MarkedPair P ⟦<P as DevicePair>⟧) → ¬ IsMarked (disk_of d) → base_of d ≡ disk_of d }
{}
