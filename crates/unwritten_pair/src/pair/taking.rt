//! How a pair is taken over, and given back.
ghost use Rattle.std.specs.Prelude.{◌≡◌, ◌∷◌, ◌↔◌, [], length, IfErr, IfOk, OnOk};
ghost use Rattle.device_pair.specs.Memory.{AreLeft};
ghost use Rattle.device_pair.specs.Pairs.{PairLeaves};
ghost use Rattle.unwritten_pair.specs.Pair.{base_of, behind_of, first_of, journal_of, pair_of, refusals_of};
ghost use Rattle.unwritten_pair.specs.Pair.{IsHonest};

use crate::pair::UnwrittenPair;
use block_device::DeviceError;
use device_pair::{DevicePair, Snapshots};
use std::alloc::Allocator;

impl<P: DevicePair + Drop, A: Allocator + Copy> UnwrittenPair<P, A> {
    /// Takes a pair, both of whose devices are synced first. Where that fails, the pair is given back. The
    /// blocks of the journal that are held in memory take it from this allocator.
    pub fn over(pair: P, alloc: A) -> Result<UnwrittenPair<P, A>, (DeviceError, P)>
        ensures base { IfOk result (λ d. P.honest pair → base_of d ≡ P.base pair) }
        ensures journal { IfOk result (λ d. P.honest pair → journal_of d ≡ P.journal pair) }
        ensures own { IfOk result (λ d. P.honest pair → P.journal (pair_of d) ≡ P.journal pair) }
        ensures first { IfOk result (λ d. first_of d ≡ (pair_of d, length (P.journal (pair_of d))) ∷ []) }
        ensures refusals { IfOk result (λ d. refusals_of d ≡ 0) }
        ensures stops { IfOk result (λ d. P.honest pair →
            PairLeaves P.moment P.left_since pair (pair_of d) (P.may_leave pair)) }
        ensures honest { IfOk result (λ d. P.honest pair ↔ IsHonest d) }
        ensures refused_base { IfErr result (λ e. P.honest pair → P.base e.1 ≡ P.base pair) }
        ensures refused_journal { IfErr result (λ e. P.honest pair → P.journal e.1 ≡ P.journal pair) }
        ensures refused_stops { IfErr result (λ e. P.honest pair →
            PairLeaves P.moment P.left_since pair e.1 (P.may_leave pair)) }
        ensures refused_honest { IfErr result (λ e. P.honest pair ↔ P.honest e.1) }
    {
        let mut pair = pair;
        if let Err(fault) = sync_both(&mut pair) {
            return Err((fault, pair));
        }
        Ok(UnwrittenPair::of_synced(pair, alloc))
    }

    // Takes a pair that is synced.
    fn of_synced(pair: P, alloc: A) -> UnwrittenPair<P, A>
        requires synced { P.honest pair → AreLeft (P.base pair) (P.journal pair) (P.may_leave pair) }
        ensures pair { pair_of result ≡ pair }
        ensures behind { behind_of result ≡ [] }
        ensures first { first_of result ≡ (pair, length (P.journal pair)) ∷ [] }
        ensures refusals { refusals_of result ≡ 0 }
    {
        let first = Snapshots::new().with(&pair, &pair.journal_blocks());
        UnwrittenPair {
            pair,
            behind: Vec::new(alloc),
            refusals: 0,
            past: Snapshots::new(),
            first,
        }
    }

    /// Its pair: both of its devices have the blocks that they had when it was taken over.
    pub fn into_pair(self) -> P
        ensures { result ≡ pair_of self }
    {
        self.pair
    }
}

// Syncs both devices.
fn sync_both<P: DevicePair>(pair: &mut P) -> Result<(), DeviceError>
    ensures base { P.honest pair.old → P.base pair.new ≡ P.base pair.old }
    ensures journal { P.honest pair.old → P.journal pair.new ≡ P.journal pair.old }
    ensures durable { P.honest pair.old →
        OnOk result (AreLeft (P.base pair.old) (P.journal pair.old) (P.may_leave pair.new)) }
    ensures stops { P.honest pair.old →
        PairLeaves P.moment P.left_since pair.old pair.new (P.may_leave pair.old) }
    ensures honest { P.honest pair.old ↔ P.honest pair.new }
{
    pair.sync_base()?;
    pair.sync_journal()
}
