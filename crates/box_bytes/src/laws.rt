//! What corners and boxes at places of a block are, each law the contract of a function that does nothing.

ghost use Rattle.std.specs.Prelude.{◌≡◌, ℕ, ◌+◌, ◌*◌, ◌<◌, List, length, slice_index};
ghost use Rattle.block_bytes.specs.Numbers.{number_at, signed_at};
ghost use Rattle.box_math.specs.Bounds.{on_axis, IsOrdered, IsBox};
ghost use Rattle.box_bytes.specs.Corners.{corner_at, box_at, IsOfCorner};

/// A corner is a point: it has a coordinate for each axis, the signed number at the axis' place.
#[tactic(auto, using(crate::specs::Laws::laws))]
pub fn a_corner_has_a_number_for_each_axis()
    ensures length { (dims : ℕ) (block : List ℕ) (at stride : ℕ) →
        length (corner_at dims block at stride) ≡ dims }
    ensures number { (dims : ℕ) (block : List ℕ) (at stride axis : ℕ) → axis < dims
        → on_axis (corner_at dims block at stride) axis ≡ signed_at (at + stride * axis) block }
{}

/// A corner is read from its own bytes alone.
#[tactic(auto, using(crate::specs::Laws::laws))]
pub fn own_bytes_are_read()
    ensures { (dims : ℕ) (a b : List ℕ) (at stride : ℕ)
        → ((k : ℕ) → IsOfCorner dims at stride k → number_at 1 k a ≡ number_at 1 k b)
        → corner_at dims a at stride ≡ corner_at dims b at stride }
{}

/// A corner stays where its numbers do.
#[tactic(auto, using(crate::specs::Laws::laws))]
pub fn a_corner_stays_with_its_numbers()
    ensures { (dims : ℕ) (old new : List ℕ) (at stride : ℕ)
        → ((axis : ℕ) → axis < dims →
        number_at 4 (at + stride * axis) new ≡ number_at 4 (at + stride * axis) old)
        → corner_at dims new at stride ≡ corner_at dims old at stride }
{}

/// Two corners in a block of bytes, the lows at most the highs, are a box.
pub fn ordered_corners_are_a_box()
    ensures { (dims : ℕ) (block : List ℕ) (low high stride : ℕ) → ((k : ℕ) → slice_index block k < 256)
        → IsOrdered dims (corner_at dims block low stride) (corner_at dims block high stride)
        → IsBox dims (box_at dims block low high stride) }
{}
