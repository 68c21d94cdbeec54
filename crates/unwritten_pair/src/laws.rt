//! The laws of a pair of which nothing is written, each the contract of a function that does nothing.
ghost use Rattle.std.specs.Prelude.{◌≡◌, ◌∷◌, [], ℕ};
ghost use Rattle.block_device.specs.Device.{Blocks};
ghost use Rattle.unwritten_pair.specs.Pair.{base_of, first_of, own_of, pair_of, IsHonest};
ghost use Rattle.unwritten_pair.specs.declared.pair.UnwrittenPair.{UnwrittenPair};

use device_pair::DevicePair;
use std::alloc::Allocator;

/// Both devices have the blocks that they had when the pair was taken over, and so has whatever a stop has
/// left of them since, now or within a call.
pub fn nothing_is_written<P: DevicePair, A: Allocator>()
    ensures base { (d : UnwrittenPair P A ⟦<P as DevicePair>⟧) (p : P) (n : ℕ) → IsHonest d →
        first_of d ≡ (p, n) ∷ [] → base_of d ≡ P.base p }
    ensures journal { (d : UnwrittenPair P A ⟦<P as DevicePair>⟧) (p : P) (n : ℕ) → IsHonest d →
        first_of d ≡ (p, n) ∷ [] → own_of d ≡ P.journal p }
    ensures since { (d : UnwrittenPair P A ⟦<P as DevicePair>⟧) (p : P) (n : ℕ) (a b : Blocks) → IsHonest d →
        first_of d ≡ (p, n) ∷ [] → P.left_since (pair_of d) (P.moment p) a b →
        (a ≡ P.base p) × (b ≡ P.journal p) }
    ensures now { (d : UnwrittenPair P A ⟦<P as DevicePair>⟧) (a b : Blocks) → IsHonest d →
        P.may_leave (pair_of d) a b → (a ≡ base_of d) × (b ≡ own_of d) }
{}
