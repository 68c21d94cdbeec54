//! The laws of a pair whose journal has a title, each the contract of a function that does nothing.
ghost use Rattle.std.specs.Prelude.{◌≡◌, ◌∷◌, [], ℕ};
ghost use Rattle.block_device.specs.Device.{Blocks};
ghost use Rattle.titled_pair.specs.Pair.{first_of, pair_of, IsHonest};
ghost use Rattle.titled_pair.specs.Title.{HasTitle};
ghost use Rattle.titled_pair.specs.declared.pair.TitledPair.{TitledPair};

use device_pair::DevicePair;

/// Whatever a stop has left since the pair was taken over, now or within a call, its journal begins with the
/// title and the end that were there then.
pub fn a_stop_leaves_the_title<P: DevicePair>()
    ensures since { (d : TitledPair P ⟦<P as DevicePair>⟧) (p : P) (n : ℕ) (a e : Blocks) → IsHonest d →
        first_of d ≡ (p, n) ∷ [] → P.left_since (pair_of d) (P.moment p) a e → HasTitle (P.journal p) e }
    ensures now { (d : TitledPair P ⟦<P as DevicePair>⟧) (p : P) (n : ℕ) (a e : Blocks) → IsHonest d →
        first_of d ≡ (p, n) ∷ [] → P.may_leave (pair_of d) a e → HasTitle (P.journal p) e }
{}
