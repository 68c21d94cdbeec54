//! Writers of which it can be said that a flush answered Ok.

use std::io;
use std::io::Write;

/// Every writer. `Write` promises the same of a flush that answered Ok and of one that failed; this trait has
/// a word for the first, which generic code can say of a writer only after such a flush, with nothing written
/// since.
pub trait FlushedWrite: Write {
    ghost use Rattle.std.specs.Prelude.{OnOk};
    ghost use Rattle.std.specs.Io.KnownBytes.{Keeps};

    /// The last call of the writer was a flush that answered Ok.
    ghost is_flushed: { Self → Type 0 };

    /// Flushes the writer.
    fn flush_out(&mut self) -> io::Result<()>
        ensures bytes { Keeps (Self.contents self.old) (Self.contents self.new) }
        ensures flushed { OnOk result (is_flushed self.new) };
}

impl<W: Write> FlushedWrite for W {
    ghost is_flushed = { λ _. Unit {0} };

    fn flush_out(&mut self) -> io::Result<()> {
        self.flush()
    }
}
