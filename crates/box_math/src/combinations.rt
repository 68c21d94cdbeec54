//! The boxes that others make: the least that encloses two, that of their common points, and one with its
//! sides moved out.

ghost use Rattle.std.specs.Prelude.{◌≡◌, ◌↔◌, ◌+ℤ◌, ◌-ℤ◌, pos, negsuc, IsSome, IfSome, is_some};
ghost use Rattle.std.specs.Int.{int_min, int_max};

use crate::bounds::BBox;

/// The number so much below this one, or the least `i32` where that is above it.
#[inline]
fn lowered(n: i32, by: u32) -> i32
    ensures { result ≡ int_max (negsuc 2147483647) (n -ℤ pos by) }
{
    (i64::from(n) - i64::from(by)).max(-2147483648) as i32
}

/// The number so much above this one, or the greatest `i32` where that is below it.
#[inline]
fn raised(n: i32, by: u32) -> i32
    ensures { result ≡ int_min (pos 2147483647) (n +ℤ pos by) }
{
    (i64::from(n) + i64::from(by)).min(2147483647) as i32
}

#[tactic(auto, using(crate::proofs::Signed::signed_reads))]
impl<const D: usize> BBox<D> {
    ghost use Rattle.box_math.specs.Bounds.{IsBox, Meets, meets_test, join_of, meet_of, widened_of};

    /// The least box that encloses both.
    pub fn join(&self, other: &BBox<D>) -> BBox<D>
        ensures value { result ≡ join_of D self.now other.now }
        ensures is_box { IsBox D result }
    {
        let mut low = self.low;
        let mut high = self.high;
        for axis in 0..D {
            low[axis] = self.low[axis].min(other.low[axis]);
            high[axis] = self.high[axis].max(other.high[axis]);
        }
        BBox { low, high }
    }

    /// The box of the points that are in both, or `None` where there is no such point.
    pub fn meet(&self, other: &BBox<D>) -> Option<BBox<D>>
        ensures some { IsSome result ↔ Meets D self.now other.now }
        ensures test { is_some result ≡ meets_test D self.now other.now }
        ensures value { IfSome result (λ b. b ≡ meet_of D self.now other.now) }
        ensures is_box { IfSome result (λ b. IsBox D b) }
    {
        if !self.meets(other) {
            return None;
        }
        let mut low = self.low;
        let mut high = self.high;
        for axis in 0..D {
            low[axis] = self.low[axis].max(other.low[axis]);
            high[axis] = self.high[axis].min(other.high[axis]);
        }
        Some(BBox { low, high })
    }

    /// The box with each side moved out by so much, but not past the ends of `i32`.
    pub fn widened(&self, by: u32) -> BBox<D>
        ensures value { result ≡ widened_of D by self.now }
        ensures is_box { IsBox D result }
    {
        let mut low = self.low;
        let mut high = self.high;
        for axis in 0..D {
            low[axis] = lowered(self.low[axis], by);
            high[axis] = raised(self.high[axis], by);
        }
        BBox { low, high }
    }
}
