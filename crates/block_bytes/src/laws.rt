//! What a write leaves to be read, each law the contract of a function that does nothing.
ghost use Rattle.std.specs.Prelude.{◌≡◌, ◌≤◌, ◌<◌, ◌+◌, ◌^◌, ℕ, ℤ, FitsSigned, List, length};
ghost use Rattle.std.specs.Int.{w32};
ghost use Rattle.block_bytes.specs.Numbers.{zeros, number_at, signed_at, put_number, put_signed, IsApart};
ghost use Rattle.block_bytes.specs.Numbers.{AreBytes};

/// What was written is read back.
#[tactic(auto, using(crate::specs::Laws::laws))]
pub fn written_is_read()
    ensures number { (n at x : ℕ) (block : List ℕ) → at + n ≤ length block → x < 256 ^ n
        → number_at n at (put_number n at x block) ≡ x }
    ensures signed { (at : ℕ) (z : ℤ) (block : List ℕ) → at + 4 ≤ length block → FitsSigned w32 z
        → signed_at at (put_signed at z block) ≡ z }
{}

/// A write keeps what is read from other places.
#[tactic(auto, using(crate::specs::Laws::laws))]
pub fn other_places_stay()
    ensures number { (n at m to x : ℕ) (block : List ℕ) → to + m ≤ length block → IsApart n at m to
        → number_at n at (put_number m to x block) ≡ number_at n at block }
    ensures signed { (n at to : ℕ) (z : ℤ) (block : List ℕ) → to + 4 ≤ length block → IsApart n at 4 to
        → number_at n at (put_signed to z block) ≡ number_at n at block }
{}

/// A write keeps the length.
#[tactic(auto, using(crate::specs::Laws::laws))]
pub fn a_block_keeps_its_length()
    ensures number { (n at x : ℕ) (block : List ℕ) → at + n ≤ length block
        → length (put_number n at x block) ≡ length block }
    ensures signed { (at : ℕ) (z : ℤ) (block : List ℕ) → at + 4 ≤ length block
        → length (put_signed at z block) ≡ length block }
{}

/// A number is read from its own bytes alone, and a signed one too.
#[tactic(auto, using(crate::specs::Laws::laws))]
pub fn own_bytes_are_read()
    ensures number { (n at : ℕ) (a b : List ℕ) →
        ((k : ℕ) → at ≤ k → k < at + n → number_at 1 k a ≡ number_at 1 k b)
        → number_at n at a ≡ number_at n at b }
    ensures signed { (at : ℕ) (a b : List ℕ) → number_at 4 at a ≡ number_at 4 at b →
        signed_at at a ≡ signed_at at b }
{}

/// Two blocks of bytes with the same number at a place have the same bytes there, and a signed number is that
/// of one number without a sign.
#[tactic(auto, using(crate::specs::Laws::fixing))]
pub fn a_number_fixes_its_bytes()
    ensures number { (n at : ℕ) (a b : List ℕ) → AreBytes a → AreBytes b →
        number_at n at a ≡ number_at n at b → (k : ℕ)
        → at ≤ k → k < at + n → number_at 1 k a ≡ number_at 1 k b }
    ensures signed { (at : ℕ) (a b : List ℕ) → AreBytes a → AreBytes b → signed_at at a ≡ signed_at at b
        → number_at 4 at a ≡ number_at 4 at b }
{}

/// A block of zeros is 4096 bytes long and has the number 0 everywhere.
#[tactic(auto, using(crate::specs::Laws::laws))]
pub fn zeros_are_read()
    ensures length { length zeros ≡ 4096 }
    ensures number { (n at : ℕ) → number_at n at zeros ≡ 0 }
{}

/// A number of n bytes is below 256^n.
#[tactic(auto, using(crate::specs::Laws::laws))]
pub fn a_number_fits()
    ensures { (n at : ℕ) (block : List ℕ) → AreBytes block → number_at n at block < 256 ^ n }
{}
