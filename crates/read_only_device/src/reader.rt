//! What reads blocks, and has no call that writes.
ghost use Rattle.std.specs.Prelude.{◌≡◌, ◌≤◌, ◌<◌, ◌^◌, length, OnOk, IsErrOf};
ghost use Rattle.std.specs.List.{All};
ghost use Rattle.block_device.specs.Device.{Blocks, IsBlock, block_at};

use block_device::DeviceError;

/// Blocks of 4096 bytes, numbered from 0, that are only read.
///
/// Each call takes the reader by `&self`, so its value stays: **no call writes a block.**
pub trait BlockReader {
    /// The blocks.
    ghost shown: { Self → Blocks };

    /// A read gives the blocks, a stop leaves them, and nobody writes them.
    ghost honest: { Self → Type 0 };

    /// How many blocks there are, at most 2^31.
    fn blocks(&self) -> u32
        ensures is { result ≡ length (shown self.now) }
        ensures few { result ≤ 2 ^ 31 };

    /// Reads block `i` into the buffer, which holds anything after an `Err`.
    fn read(&self, i: u32, into: &mut [u8; 4096]) -> Result<(), DeviceError>
        requires { i < length (shown self.now) }
        ensures bytes { honest self.now → OnOk result (into.new ≡ block_at i (shown self.now)) };

    /// There are at most 2^31 blocks.
    ghost few_blocks: { (r : Self) → length (shown r) ≤ 2 ^ 31 };

    /// They are of 4096 bytes.
    ghost whole: { (r : Self) → honest r → All IsBlock (shown r) };
}
