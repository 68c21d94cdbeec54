//! How two boxes lie, and whether a point is one of a box.

ghost use Rattle.std.specs.Prelude.{◌≡◌, ◌↔◌, ◌≤ℤ◌, IsTrue};

use crate::bounds::BBox;

/// Whether `a <= b` and `c <= d`: both ends of two intervals compared.
#[inline]
fn both_ascend(a: i32, b: i32, c: i32, d: i32) -> bool
    ensures { IsTrue result ↔ ((a ≤ℤ b) × (c ≤ℤ d)) }
{
    a <= b && c <= d
}

#[tactic(auto, using(crate::proofs::Signed::signed_reads))]
impl<const D: usize> BBox<D> {
    ghost use Rattle.box_math.specs.Bounds.{HoldsPoint, holds_test, Meets, meets_test, Within, within_test};

    /// Whether some point is one of both boxes, also where they only touch.
    pub fn meets(&self, other: &BBox<D>) -> bool
        ensures meets { IsTrue result ↔ Meets D self.now other.now }
        ensures test { result ≡ meets_test D self.now other.now }
    {
        for axis in 0..D {
            let (low, high) = (self.low[axis], self.high[axis]);
            if !both_ascend(low, other.high[axis], other.low[axis], high) {
                return false;
            }
        }
        true
    }

    /// Whether each point of this box is one of the other, as where they are equal.
    pub fn within(&self, other: &BBox<D>) -> bool
        ensures within { IsTrue result ↔ Within D self.now other.now }
        ensures test { result ≡ within_test D self.now other.now }
    {
        for axis in 0..D {
            let (low, high) = (self.low[axis], self.high[axis]);
            if !both_ascend(other.low[axis], low, high, other.high[axis]) {
                return false;
            }
        }
        true
    }

    /// Whether each point of the other box is one of this one, as where they are equal.
    pub fn encloses(&self, other: &BBox<D>) -> bool
        ensures encloses { IsTrue result ↔ Within D other.now self.now }
        ensures test { result ≡ within_test D other.now self.now }
    {
        other.within(self)
    }

    /// Whether the point is one of the box, as its corners are.
    pub fn holds_point(&self, point: &[i32; D]) -> bool
        ensures holds { IsTrue result ↔ HoldsPoint D self.now point.now }
        ensures test { result ≡ holds_test D self.now point.now }
    {
        for axis in 0..D {
            if !both_ascend(self.low[axis], point[axis], point[axis], self.high[axis]) {
                return false;
            }
        }
        true
    }
}
