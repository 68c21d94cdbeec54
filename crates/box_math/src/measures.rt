//! The measures of boxes, exact up to the ends of `i32`.

ghost use Rattle.std.specs.Prelude.{◌≡◌, ℕ, ◌*◌, ◌^◌, ◌<◌, ◌≤◌, ◌-ℤ◌, pos, unsigned_abs};
ghost use Rattle.std.specs.Int.{int_max};

use crate::bounds::BBox;

/// How far the second number lies above the first, 0 where it does not.
#[inline]
fn rise(from: i32, to: i32) -> u64
    ensures value { result ≡ unsigned_abs (int_max (pos 0) (to -ℤ from)) }
    ensures bound { result < 2 ^ 32 }
{
    if from < to {
        u64::from(to.abs_diff(from))
    } else {
        0
    }
}

#[inline]
fn square(n: u64) -> u128
    ensures { result ≡ n * n }
{
    u128::from(n) * u128::from(n)
}

#[tactic(auto, using(crate::proofs::Signed::signed_reads))]
impl<const D: usize> BBox<D> {
    ghost use Rattle.box_math.specs.Bounds.{on_axis, IsDims};
    ghost use Rattle.box_math.specs.Measures.{volume_of, overlap_of, margin_of};
    ghost use Rattle.box_math.specs.Measures.{point_dist2_of, centre2_of, centre_dist2_of, box_dist2_of};
    ghost use Rattle.box_math.specs.Measures.{near_test};

    /// The product of the sides, high less low: 0 where some side is 0.
    pub fn volume(&self) -> u128
        requires { IsDims D }
        ensures value { result ≡ volume_of D self.now }
        ensures bound { result < 2 ^ 96 }
    {
        let mut product: u128 = 1;
        for axis in 0..D {
            product *= u128::from(self.high[axis].abs_diff(self.low[axis]));
        }
        product
    }

    /// The sum of the sides, high less low, each taken once.
    pub fn margin(&self) -> u64
        requires { IsDims D }
        ensures value { result ≡ margin_of D self.now }
        ensures bound { result < 2 ^ 34 }
    {
        let mut sum = 0u64;
        for axis in 0..D {
            sum += u64::from(self.high[axis].abs_diff(self.low[axis]));
        }
        sum
    }

    /// The volume of the meet, and 0 where the boxes do not meet.
    pub fn overlap(&self, other: &BBox<D>) -> u128
        requires { IsDims D }
        ensures value { result ≡ overlap_of D self.now other.now }
        ensures bound { result < 2 ^ 96 }
    {
        let mut product: u128 = 1;
        for axis in 0..D {
            let low = self.low[axis].max(other.low[axis]);
            let high = self.high[axis].min(other.high[axis]);
            if high < low {
                return 0;
            }
            product *= u128::from(high.abs_diff(low));
        }
        product
    }

    /// Twice the centre: low and high added up, on each axis.
    pub fn centre2(&self) -> [i64; D]
        ensures value { result ≡ centre2_of D self.now }
        ensures bound { (axis : ℕ) → axis < D → unsigned_abs (on_axis result axis) ≤ 2 ^ 32 }
    {
        let mut centre = [0i64; D];
        for axis in 0..D {
            centre[axis] = i64::from(self.low[axis]) + i64::from(self.high[axis]);
        }
        centre
    }

    /// The square of the distance from the point to the nearest point of the box (MINDIST).
    pub fn point_dist2(&self, point: &[i32; D]) -> u128
        requires { IsDims D }
        ensures value { result ≡ point_dist2_of D self.now point.now }
        ensures bound { result < 2 ^ 66 }
    {
        let mut sum = 0u128;
        for axis in 0..D {
            let at = point[axis];
            let gap = at.abs_diff(at.clamp(self.low[axis], self.high[axis]));
            sum += square(u64::from(gap));
        }
        sum
    }

    /// The square of the distance between the doubled centres.
    pub fn centre_dist2(&self, other: &BBox<D>) -> u128
        requires { IsDims D }
        ensures value { result ≡ centre_dist2_of D self.now other.now }
        ensures bound { result < 2 ^ 68 }
    {
        let from = self.centre2();
        let to = other.centre2();
        let mut sum = 0u128;
        for axis in 0..D {
            sum += square(from[axis].abs_diff(to[axis]));
        }
        sum
    }

    /// The square of the distance between the nearest points of the boxes: the sum over the axes of the
    /// squared gap, the low of one less the high of the other where it lies above it, and 0 where they meet.
    pub fn box_dist2(&self, other: &BBox<D>) -> u128
        requires { IsDims D }
        ensures value { result ≡ box_dist2_of D self.now other.now }
        ensures bound { result < 2 ^ 66 }
    {
        let mut sum = 0u128;
        for axis in 0..D {
            let above = rise(self.high[axis], other.low[axis]);
            let below = rise(other.high[axis], self.low[axis]);
            let gap = above.max(below);
            sum += square(gap);
        }
        sum
    }

    /// Whether the squared distance of the boxes is at most so much: at most 0 where they meet.
    pub fn is_near(&self, other: &BBox<D>, within: u64) -> bool
        requires { IsDims D }
        ensures { result ≡ near_test D within self.now other.now }
    {
        self.box_dist2(other) <= u128::from(within)
    }
}
