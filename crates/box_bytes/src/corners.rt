//! A corner at places of a block: the coordinate of the first axis at a place, and that of each further
//! axis a stride on.

ghost use Rattle.std.specs.Prelude.{◌≡◌, ◌+◌, ◌-◌, ◌*◌, ◌≤◌};
ghost use Rattle.box_math.specs.Bounds.{IsDims};
ghost use Rattle.box_bytes.specs.Corners.{corner_at, IsClearOfCorner, Keeps};

use block_bytes::{read_i32, write_i32};

/// The corner whose first coordinate stands at the byte `at`, and each further one `stride` bytes on.
///
/// A coordinate has four bytes, the highest first, in two's complement (docs/FORMAT.md). The last one has to
/// lie within the block, and no two of them may share a byte.
#[inline]
pub fn read_corner<const D: usize>(block: &[u8; 4096], at: usize, stride: usize) -> [i32; D]
    requires dims { IsDims D }
    requires stride { 4 ≤ stride }
    requires within { at + stride * (D - 1) + 4 ≤ 4096 }
    ensures { result ≡ corner_at D block.now at stride }
{
    let mut corner = [0i32; D];
    for axis in 0..D {
        corner[axis] = read_i32(block, at + stride * axis);
    }
    corner
}

/// Writes the corner, its first coordinate at the byte `at` and each further one `stride` bytes on. All other
/// bytes stay.
#[inline]
pub fn write_corner<const D: usize>(
    block: &mut [u8; 4096],
    at: usize,
    stride: usize,
    corner: &[i32; D],
)
    requires dims { IsDims D }
    requires stride { 4 ≤ stride }
    requires within { at + stride * (D - 1) + 4 ≤ 4096 }
    ensures written { corner_at D block.new at stride ≡ corner.now }
    ensures others { Keeps (IsClearOfCorner D at stride) block.old block.new }
{
    for axis in 0..D {
        write_i32(block, at + stride * axis, corner[axis]);
    }
}
