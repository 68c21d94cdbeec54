//! The boxes of a node page compared with a window, eight at once, in the columns where they stand; and the
//! places whose bits are set.

ghost use Rattle.std.specs.Prelude.{◌≡◌, ℕ, ◌+◌, ◌*◌, ◌<◌, ◌≤◌, ◌&&◌, nat_lt, int_le, map, false, true};
ghost use Rattle.std.specs.Prelude.{FitsSigned};
ghost use Rattle.std.specs.Int.{w32};
ghost use Rattle.std.specs.List.{range_with_len};
ghost use Rattle.block_bytes.specs.Numbers.{signed_at};
ghost use Rattle.box_math.specs.Bounds.{IsDims, meets_test};
ghost use Rattle.box_math.specs.Masks.{has_bit, mask_from};
ghost use Rattle.node_bytes.specs.Layout.{item_at};

use block_bytes::read_i32;
use box_math::BBox;
use std::simd::prelude::*;

// How many boxes are compared at once.
const LANES: usize = 8;

/// Which of the boxes in the first `count` places meet the window: bit k of the mask is set exactly where k <
/// count and the box in place k meets it. The last block reads past its column, and the bits of those places
/// are cleared.
pub(crate) fn mask_in<const D: usize>(page: &[u8; 4096], count: usize, window: &BBox<D>) -> u128
    requires dims { IsDims D }
    requires count { count ≤ 100 }
    ensures { (k : ℕ) → has_bit result k
        ≡ (nat_lt k count && meets_test D (item_at D page.now k).bounds window.now) }
{
    let mut at = (count + LANES - 1) / LANES * LANES;
    let mut mask = 0u128;
    while at > 0 {
        at -= LANES;
        mask = 256 * mask + u128::from(block_mask(page, at, window));
    }
    mask & ((1 << count) - 1)
}

// The mask of the eight places from `at` on.
#[inline]
fn block_mask<const D: usize>(page: &[u8; 4096], at: usize, window: &BBox<D>) -> u64
    requires dims { IsDims D }
    requires at { at ≤ 96 }
    ensures { result ≡ mask_from (λ k. meets_test D (item_at D page.now k).bounds window.now) at 8 }
{
    let (low, high) = (window.low(), window.high());
    let mut mask = 255;
    for axis in 0..D {
        mask &= axis_mask(page, 16 + 800 * axis, at, low[axis], high[axis]);
    }
    mask
}

// The mask of the eight intervals from the place `at` on that meet the interval from `low` to `high`, where
// their lows stand in the column from the byte `first`, and their highs in the next.
#[inline]
fn axis_mask(page: &[u8; 4096], first: usize, at: usize, low: i32, high: i32) -> u64
    requires first { first ≤ 1616 }
    requires at { at ≤ 96 }
    ensures { result ≡ mask_from (λ k. int_le (signed_at (first + 4 * k) page.now) high
        && int_le low (signed_at (first + 400 + 4 * k) page.now)) at 8 }
{
    let begins = lanes(page, first, at).simd_le(i32x8::splat(high));
    let ends = lanes(page, first + 400, at).simd_ge(i32x8::splat(low));
    (begins & ends).to_bitmask()
}

// The eight numbers from the place `at` on of the column from the byte `first`.
#[inline]
fn lanes(page: &[u8; 4096], first: usize, at: usize) -> i32x8
    requires first { first ≤ 2016 }
    requires at { at ≤ 96 }
    ensures read { result ≡ map (λ k. signed_at (first + 4 * k) page.now) (range_with_len at 8) }
    ensures fits { (k : ℕ) → at ≤ k → k < at + 8 → FitsSigned w32 (signed_at (first + 4 * k) page.now) }
{
    let from = first + 4 * at;
    i32x8::from_array([
        read_i32(page, from),
        read_i32(page, from + 4),
        read_i32(page, from + 8),
        read_i32(page, from + 12),
        read_i32(page, from + 16),
        read_i32(page, from + 20),
        read_i32(page, from + 24),
        read_i32(page, from + 28),
    ])
}

/// The first place from one on whose bit is set in the mask, or one past all of its bits where none is.
#[inline]
pub fn next_set(mask: u128, from: usize) -> usize
    requires { from < 128 }
    ensures within { from ≤ result }
    ensures few { result < 256 }
    ensures set { result < 128 → has_bit mask result ≡ true }
    ensures unset { (k : ℕ) → from ≤ k → k < result → has_bit mask k ≡ false }
{
    from + (mask >> from).trailing_zeros() as usize
}
