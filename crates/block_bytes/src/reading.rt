//! Reading a number at a place of a block. The place counts bytes, and the number has to lie within the
//! block.
ghost use Rattle.std.specs.Prelude.{◌≡◌, ◌≤◌, ◌<◌, ◌+◌};
ghost use Rattle.block_bytes.specs.Numbers.{number_at, signed_at};

use byteorder::{BigEndian, ByteOrder};

/// The byte at the place.
#[inline]
pub fn read_u8(block: &[u8; 4096], at: usize) -> u8
    requires { at < 4096 }
    ensures { result ≡ number_at 1 at block.now }
{
    block[at]
}

/// The number in the two bytes from the place, the higher first.
#[tactic(auto, unfolding(crate::specs::Numbers::number_at))]
#[inline]
pub fn read_u16(block: &[u8; 4096], at: usize) -> u16
    requires { at + 2 ≤ 4096 }
    ensures { result ≡ number_at 2 at block.now }
{
    BigEndian::read_u16(&block[at..])
}

/// The number in the four bytes from the place, the highest first.
#[tactic(auto, unfolding(crate::specs::Numbers::number_at))]
#[inline]
pub fn read_u32(block: &[u8; 4096], at: usize) -> u32
    requires { at + 4 ≤ 4096 }
    ensures { result ≡ number_at 4 at block.now }
{
    BigEndian::read_u32(&block[at..])
}

/// The number in the eight bytes from the place, the highest first.
#[tactic(auto, unfolding(crate::specs::Numbers::number_at))]
#[inline]
pub fn read_u64(block: &[u8; 4096], at: usize) -> u64
    requires { at + 8 ≤ 4096 }
    ensures { result ≡ number_at 8 at block.now }
{
    BigEndian::read_u64(&block[at..])
}

/// The signed number in the four bytes from the place, the highest first, in two's complement.
#[tactic(auto, unfolding(crate::specs::Numbers::number_at, crate::specs::Numbers::signed_at))]
#[inline]
pub fn read_i32(block: &[u8; 4096], at: usize) -> i32
    requires { at + 4 ≤ 4096 }
    ensures { result ≡ signed_at at block.now }
{
    BigEndian::read_i32(&block[at..])
}
