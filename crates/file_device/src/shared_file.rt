//! What a reader asks of a file.
ghost use Rattle.std.specs.Prelude.{◌≡◌, ◌<◌, ℕ, List, length, slice_index, IsOk, IfOk, OnOk};
ghost use Rattle.file_device.specs.File.{bytes_at};

use std::io;

/// A file that is only read. Each call takes it by `&self`, so its value stays: no call writes.
pub trait SharedFile: Drop {
    /// The bytes, as reads return them.
    ghost bytes: { Self → List ℕ };

    /// The operating system keeps the file as written, nobody writes it, and a stop leaves it.
    ghost is_kept: { Self → Type 0 };

    /// How many bytes the file has. A kept file tells it.
    fn size(&self) -> io::Result<u64>
        ensures tells { is_kept self.now → IsOk result }
        ensures size { is_kept self.now → IfOk result (λ n. n ≡ length (bytes self.now)) };

    /// Reads 4096 bytes from `at` on. Where the file has ended they are zero.
    fn read_at(&self, at: u64, into: &mut [u8; 4096]) -> io::Result<()>
        ensures { is_kept self.now → OnOk result (into.new ≡ bytes_at at (bytes self.now)) };

    /// Has the disk take what others wrote before.
    fn sync(&self) -> io::Result<()>;

    /// The numbers are bytes.
    ghost bytes_fit: { (f : Self) (k : ℕ) → is_kept f → slice_index (bytes f) k < 256 };
}
