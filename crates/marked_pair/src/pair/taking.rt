//! How a pair is taken over, and given back.
ghost use Rattle.std.specs.Prelude.{◌≡◌, ◌∷◌, ◌<◌, ◌≤◌, ◌↔◌, [], length, IfErr, IfOk, OnOk};
ghost use Rattle.device_pair.specs.Pairs.{PairLeaves};
ghost use Rattle.marked_pair.specs.Behind.{IsSynced};
ghost use Rattle.marked_pair.specs.Pair.{disk_of, first_of, kept_of, mark_of, pair_of, refusals_of, IsHonest};
ghost use Rattle.marked_pair.specs.declared.mark.Mark.TheVariants.{Unknown};

use crate::Mark;
use crate::pair::MarkedPair;
use block_device::DeviceError;
use device_pair::{DevicePair, Snapshots};

impl<P: DevicePair + Drop> MarkedPair<P> {
    /// Takes a pair, which is synced first; where that is refused, it is given back. No mark is known. Where
    /// the base has no header, the journal has no slots.
    pub fn over(pair: P) -> Result<MarkedPair<P>, (DeviceError, P)>
        requires few { length (P.base pair) < 2 → length (P.journal pair) ≤ 2 }
        ensures base { IfOk result (λ d. P.honest pair → disk_of d ≡ P.base pair) }
        ensures journal { IfOk result (λ d. P.honest pair → P.journal (pair_of d) ≡ P.journal pair) }
        ensures mark { IfOk result (λ d. mark_of d ≡ Unknown) }
        ensures kept { IfOk result (λ d. kept_of d ≡ length (disk_of d)) }
        ensures first { IfOk result (λ d. first_of d ≡ (pair_of d, length (disk_of d)) ∷ []) }
        ensures refusals { IfOk result (λ d. refusals_of d ≡ 0) }
        ensures stops { IfOk result (λ d. P.honest pair →
            PairLeaves P.moment P.left_since pair (pair_of d) (P.may_leave pair)) }
        ensures refused_stops { IfErr result (λ e. P.honest pair →
            PairLeaves P.moment P.left_since pair e.1 (P.may_leave pair)) }
        ensures honest { IfOk result (λ d. P.honest pair ↔ IsHonest d) }
        ensures refused_honest { IfErr result (λ e. P.honest pair ↔ P.honest e.1) }
    {
        let mut pair = pair;
        if let Err(fault) = sync_both(&mut pair) {
            return Err((fault, pair));
        }
        Ok(MarkedPair::of_synced(pair))
    }

    // Takes a pair that is synced.
    fn of_synced(pair: P) -> MarkedPair<P>
        requires synced { P.honest pair → IsSynced (P.base pair) (P.journal pair) (P.may_leave pair) }
        requires few { P.honest pair → length (P.base pair) < 2 → length (P.journal pair) ≤ 2 }
        ensures pair { pair_of result ≡ pair }
        ensures mark { mark_of result ≡ Unknown }
        ensures kept { kept_of result ≡ length (P.base pair) }
        ensures first { first_of result ≡ (pair, length (P.base pair)) ∷ [] }
        ensures refusals { refusals_of result ≡ 0 }
    {
        let kept = pair.base_blocks();
        let first = Snapshots::new().with(&pair, &kept);
        MarkedPair {
            pair,
            mark: Mark::Unknown,
            kept,
            refusals: 0,
            clean: true,
            first,
        }
    }

    /// The pair, as it is.
    pub fn into_pair(self) -> P
        ensures { result ≡ pair_of self }
    {
        self.pair
    }
}

// Syncs both devices.
fn sync_both<P: DevicePair>(pair: &mut P) -> Result<(), DeviceError>
    ensures base { P.honest pair.old → P.base pair.new ≡ P.base pair.old }
    ensures journal { P.honest pair.old → P.journal pair.new ≡ P.journal pair.old }
    ensures durable { P.honest pair.old →
        OnOk result (IsSynced (P.base pair.old) (P.journal pair.old) (P.may_leave pair.new)) }
    ensures stops { P.honest pair.old →
        PairLeaves P.moment P.left_since pair.old pair.new (P.may_leave pair.old) }
    ensures honest { P.honest pair.old ↔ P.honest pair.new }
{
    pair.sync_base()?;
    pair.sync_journal()
}
