//! Many boxes compared with a window at once: the answer is a mask, with one bit for each box.

ghost use Rattle.std.specs.Prelude.{◌≡◌, ℕ, ◌+◌, ◌-◌, ◌<◌, ◌≤◌, ◌&&◌, nat_lt, int_le, map, FitsSigned};
ghost use Rattle.std.specs.Int.{w32};
ghost use Rattle.std.specs.List.{range_with_len};
ghost use Rattle.box_math.specs.Bounds.{all_over, meets_test, on_axis};
ghost use Rattle.box_math.specs.Masks.{box_in_columns, has_bit, mask_from};

use crate::bounds::BBox;
use std::simd::prelude::*;

// How many boxes are compared at once.
const LANES: usize = 8;

/// Which of the first `n` boxes, 100 at most, meet the window: bit k of the mask is set exactly where k < n
/// and the box in place k meets it, also where they only touch.
///
/// The boxes stand in columns, as in a node page: `low[axis][place]` and `high[axis][place]`.
pub fn meet_mask<const D: usize>(
    low: &[[i32; 100]; D],
    high: &[[i32; 100]; D],
    n: usize,
    window: &BBox<D>,
) -> u128
    requires { n ≤ 100 }
    ensures { (k : ℕ) → has_bit result k
        ≡ (nat_lt k n && meets_test D (box_in_columns D low.now high.now k) window.now) }
{
    let mut at = n - n % LANES;
    let mut mask = last_mask(low, high, at, n, window);
    while at > 0 {
        at -= LANES;
        mask = 256 * mask + u128::from(block_mask(low, high, at, window));
    }
    mask
}

// The mask of the places from `at` to `n`, eight at most.
fn last_mask<const D: usize>(
    low: &[[i32; 100]; D],
    high: &[[i32; 100]; D],
    at: usize,
    n: usize,
    window: &BBox<D>,
) -> u128
    requires order { at ≤ n }
    requires few { n ≤ at + 8 }
    requires within { n ≤ 100 }
    ensures { result ≡ mask_from (λ k. meets_test D (box_in_columns D low.now high.now k) window.now) at
        (n - at) }
{
    if n < LANES {
        return single_mask(low, high, at, n, window);
    }
    // The eight places up to the last, without those before `at`.
    let before = at + LANES - n;
    u128::from(block_mask(low, high, n - LANES, window) >> before)
}

// The same, place by place.
fn single_mask<const D: usize>(
    low: &[[i32; 100]; D],
    high: &[[i32; 100]; D],
    at: usize,
    n: usize,
    window: &BBox<D>,
) -> u128
    requires order { at ≤ n }
    requires few { n ≤ 100 }
    ensures { result ≡ mask_from (λ k. meets_test D (box_in_columns D low.now high.now k) window.now) at
        (n - at) }
{
    let mut mask = 0;
    let mut place = n;
    while place > at {
        place -= 1;
        mask = 2 * mask + u128::from(meets_in(low, high, place, window));
    }
    mask
}

// Whether the box in the place meets the window.
fn meets_in<const D: usize>(
    low: &[[i32; 100]; D],
    high: &[[i32; 100]; D],
    place: usize,
    window: &BBox<D>,
) -> bool
    requires { place < 100 }
    ensures { result ≡ meets_test D (box_in_columns D low.now high.now place) window.now }
{
    for axis in 0..D {
        if !both_at_most(
            low[axis][place],
            window.high[axis],
            window.low[axis],
            high[axis][place],
        ) {
            return false;
        }
    }
    true
}

// Whether `a <= b` and `c <= d`.
fn both_at_most(a: i32, b: i32, c: i32, d: i32) -> bool
    ensures { result ≡ (int_le a b && int_le c d) }
{
    a <= b && c <= d
}

// The mask of the eight places from `at` on.
fn block_mask<const D: usize>(
    low: &[[i32; 100]; D],
    high: &[[i32; 100]; D],
    at: usize,
    window: &BBox<D>,
) -> u64
    requires { at + 8 ≤ 100 }
    ensures { result ≡ mask_from (λ k. meets_test D (box_in_columns D low.now high.now k) window.now) at 8 }
{
    let mut mask = 255;
    for axis in 0..D {
        mask &= axis_mask(
            &low[axis],
            &high[axis],
            at,
            window.low[axis],
            window.high[axis],
        );
    }
    mask
}

// The mask of the eight intervals from a place on that meet the interval from `first` to `last`.
fn axis_mask(lows: &[i32; 100], highs: &[i32; 100], at: usize, first: i32, last: i32) -> u64
    requires { at + 8 ≤ 100 }
    ensures { result ≡ mask_from (λ k. int_le (on_axis lows.now k) last && int_le first (on_axis highs.now k))
        at 8 }
{
    let begins = lanes(lows, at).simd_le(i32x8::splat(last));
    let ends = lanes(highs, at).simd_ge(i32x8::splat(first));
    (begins & ends).to_bitmask()
}

// The eight numbers from a place on.
fn lanes(column: &[i32; 100], at: usize) -> i32x8
    requires { at + 8 ≤ 100 }
    ensures read { result ≡ map (on_axis column.now) (range_with_len at 8) }
    ensures fits { (k : ℕ) → at ≤ k → k < at + 8 → FitsSigned w32 (on_axis column.now k) }
{
    i32x8::from_array([
        column[at],
        column[at + 1],
        column[at + 2],
        column[at + 3],
        column[at + 4],
        column[at + 5],
        column[at + 6],
        column[at + 7],
    ])
}
