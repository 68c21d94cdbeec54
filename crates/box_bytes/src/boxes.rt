//! A box at places of a block: its lows from one place and its highs from another, with the same stride.

ghost use Rattle.std.specs.Prelude.{◌≡◌, ◌+◌, ◌-◌, ◌*◌, ◌≤◌, ◌↔◌, IsSome, IfSome, is_some};
ghost use Rattle.box_math.specs.Bounds.{IsDims, IsBox, IsOrdered, ordered_test};
ghost use Rattle.box_bytes.specs.Corners.{corner_at, box_at, IsClearOfBox, AreApart, Keeps};

use crate::corners::{read_corner, write_corner};
use box_math::BBox;

/// The box whose lows stand from the byte `low` and whose highs from the byte `high`, each `stride` bytes
/// apart, or `None` where the low is above the high on some axis.
#[inline]
pub fn read_box<const D: usize>(
    block: &[u8; 4096],
    low: usize,
    high: usize,
    stride: usize,
) -> Option<BBox<D>>
    requires dims { IsDims D }
    requires stride { 4 ≤ stride }
    requires lows_within { low + stride * (D - 1) + 4 ≤ 4096 }
    requires highs_within { high + stride * (D - 1) + 4 ≤ 4096 }
    ensures value { IfSome result (λ b. b ≡ box_at D block.now low high stride) }
    ensures is_box { IfSome result (λ b. IsBox D b) }
    ensures some { IsSome result
        ↔ IsOrdered D (corner_at D block.now low stride) (corner_at D block.now high stride) }
    ensures test { is_some result
        ≡ ordered_test D (corner_at D block.now low stride) (corner_at D block.now high stride) }
{
    let lows = read_corner(block, low, stride);
    let highs = read_corner(block, high, stride);
    BBox::try_new(lows, highs)
}

/// Writes the box, its lows from the byte `low` and its highs from the byte `high`, each `stride` bytes
/// apart. All other bytes stay. No low may share a byte with a high.
#[inline]
pub fn write_box<const D: usize>(
    block: &mut [u8; 4096],
    low: usize,
    high: usize,
    stride: usize,
    bounds: &BBox<D>,
)
    requires dims { IsDims D }
    requires stride { 4 ≤ stride }
    requires lows_within { low + stride * (D - 1) + 4 ≤ 4096 }
    requires highs_within { high + stride * (D - 1) + 4 ≤ 4096 }
    requires apart { AreApart D low high stride }
    ensures is_box { IsBox D bounds.now }
    ensures written { box_at D block.new low high stride ≡ bounds.now }
    ensures others { Keeps (IsClearOfBox D low high stride) block.old block.new }
{
    write_corner(block, low, stride, &bounds.low());
    write_corner(block, high, stride, &bounds.high());
}
