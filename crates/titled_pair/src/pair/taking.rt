//! How a pair is taken over, and given back.
ghost use Rattle.std.specs.Prelude.{◌≡◌, ◌∷◌, ◌≤◌, ◌↔◌, [], length, IfErr, IfOk};
ghost use Rattle.block_device.specs.Device.{Counts};
ghost use Rattle.device_pair.specs.Pairs.{PairLeaves};
ghost use Rattle.titled_pair.specs.Pair.{first_of, pair_of, IsHonest};

use crate::pair::TitledPair;
use block_device::DeviceError;
use device_pair::{DevicePair, Snapshots};

impl<P: DevicePair + Drop> TitledPair<P> {
    /// Takes a pair whose journal has a title, which is synced first. Where that is refused, the pair is
    /// given back.
    pub fn over(pair: P) -> Result<TitledPair<P>, (DeviceError, P)>
        requires titled { 2 ≤ length (P.journal pair) }
        ensures base { IfOk result (λ d. P.honest pair → P.base (pair_of d) ≡ P.base pair) }
        ensures journal { IfOk result (λ d. P.honest pair → P.journal (pair_of d) ≡ P.journal pair) }
        ensures first { IfOk result (λ d. first_of d ≡ (pair_of d, length (P.base (pair_of d))) ∷ []) }
        ensures stops { IfOk result (λ d. P.honest pair →
            PairLeaves P.moment P.left_since pair (pair_of d) (P.may_leave pair)) }
        ensures refused_stops { IfErr result (λ e. P.honest pair →
            PairLeaves P.moment P.left_since pair e.1 (P.may_leave pair)) }
        ensures honest { IfOk result (λ d. P.honest pair ↔ IsHonest d) }
        ensures refused_honest { IfErr result (λ e. P.honest pair ↔ P.honest e.1) }
    {
        let mut pair = pair;
        if let Err(fault) = pair.sync_journal() {
            return Err((fault, pair));
        }
        let first = Snapshots::new().with(&pair, &pair.base_blocks());
        Ok(TitledPair { pair, first })
    }

    /// The pair, as it is.
    pub fn into_pair(self) -> P
        ensures { result ≡ pair_of self }
    {
        self.pair
    }
}
