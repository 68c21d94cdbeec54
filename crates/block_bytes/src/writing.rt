//! Writing a number at a place of a block. The place counts bytes, the number has to lie within the
//! block, and all other bytes stay.
ghost use Rattle.std.specs.Prelude.{◌≡◌, ◌≤◌, ◌<◌, ◌+◌};
ghost use Rattle.block_bytes.specs.Numbers.{zeros, put_number, put_signed};

use byteorder::{BigEndian, ByteOrder};

/// A block of zeros.
#[tactic(auto, unfolding(crate::specs::Numbers::zeros))]
pub fn zero_block() -> [u8; 4096]
    ensures { result ≡ zeros }
{
    [0; 4096]
}

/// Writes the byte at the place.
#[inline]
pub fn write_u8(block: &mut [u8; 4096], at: usize, x: u8)
    requires { at < 4096 }
    ensures { block.new ≡ put_number 1 at x block.old }
{
    block[at] = x;
}

/// Writes the number into the two bytes from the place, the higher first.
#[inline]
pub fn write_u16(block: &mut [u8; 4096], at: usize, x: u16)
    requires { at + 2 ≤ 4096 }
    ensures { block.new ≡ put_number 2 at x block.old }
{
    BigEndian::write_u16(&mut block[at..], x);
}

/// Writes the number into the four bytes from the place, the highest first.
#[inline]
pub fn write_u32(block: &mut [u8; 4096], at: usize, x: u32)
    requires { at + 4 ≤ 4096 }
    ensures { block.new ≡ put_number 4 at x block.old }
{
    BigEndian::write_u32(&mut block[at..], x);
}

/// Writes the number into the eight bytes from the place, the highest first.
#[inline]
pub fn write_u64(block: &mut [u8; 4096], at: usize, x: u64)
    requires { at + 8 ≤ 4096 }
    ensures { block.new ≡ put_number 8 at x block.old }
{
    BigEndian::write_u64(&mut block[at..], x);
}

/// Writes the signed number into the four bytes from the place, the highest first, in two's complement.
#[tactic(auto, using(crate::specs::Laws::signed_values), unfolding(crate::specs::Numbers::put_signed))]
#[inline]
pub fn write_i32(block: &mut [u8; 4096], at: usize, x: i32)
    requires { at + 4 ≤ 4096 }
    ensures { block.new ≡ put_signed at x block.old }
{
    write_u32(block, at, x.cast_unsigned());
}
