//! A run of the program over a file that is only read.
ghost use Rattle.std.specs.Io.KnownBytes.{Keeps};
ghost use Rattle.std.specs.Prelude.{◌≡◌};
ghost use Rattle.command_line.specs.Running.{HasRead, IsStatusAs, OpensAndReads};
ghost use Rattle.command_line.specs.Streams.{streams};

use crate::program::tell_unopened;
use crate::serving::{FAILED, run_store};
use command_language::CountedRead;
use command_shell::FlushedWrite;
use file_device::OpenError;
use layer_store::{Refusal, open_store};
use program_words::Options;
use read_only_device::{BlockReader, ReadOnlyDevice};
use reply_texts::tell_refusal;
use std::alloc::{Allocator, Global};
use std::io::Write;

// Opens the file at a path to be only read, and serves over it, or says that it can't be opened.
pub(crate) fn read_path<
    B: BlockReader + Drop,
    P: FnOnce(&str) -> Result<B, OpenError>,
    I: CountedRead,
    W: FlushedWrite,
    E: Write,
>(
    alloc: Global,
    path: &str,
    options: &Options<'_>,
    read_at: P,
    input: &mut I,
    output: &mut W,
    errors: &mut E,
) -> u8
    requires { P.IsAlwaysCallable read_at }
    ensures status { IsStatusAs options.now.strict result }
    ensures quiet { result ≡ 0 → Keeps (E.contents errors.old) (E.contents errors.new) }
    ensures flushed { result ≡ 0 → W.is_flushed output.new }
    ensures served { OpensAndReads options.now.strict B.BlockReader (P.post read_at path.entry)
        (streams I.remaining W.contents E.contents input.old output.old errors.old)
        (streams I.remaining W.contents E.contents input.new output.new errors.new) result }
{
    match read_at(path) {
        Ok(blocks) => serve_reader(alloc, &blocks, options, input, output, errors),
        Err(error) => {
            tell_unopened(error, path, false, errors);
            FAILED
        }
    }
}

/// Opens the store that a reader has, and answers the commands of the input over it, in a strict run up to the
/// first that is refused. **No block is written: the reader is borrowed, and has no call that writes.**
///
/// Where it is honest and holds an image of a table, the commands are answered by a lawful session that
/// begins with that table. Blocks that a check of opening refuses are never run on. The status is 0 only where
/// all was read and each reply written, and 3 only where a strict run stopped at a refused line. (That each
/// change answers `Device` or the table's refusal, and that one that answered `Device` ends with 1, is tested.)
pub fn serve_reader<B: BlockReader, A: Allocator + Copy, I: CountedRead, W: FlushedWrite, E: Write>(
    alloc: A,
    blocks: &B,
    options: &Options<'_>,
    input: &mut I,
    output: &mut W,
    errors: &mut E,
) -> u8
    ensures status { IsStatusAs options.now.strict result }
    ensures quiet { result ≡ 0 → Keeps (E.contents errors.old) (E.contents errors.new) }
    ensures flushed { result ≡ 0 → W.is_flushed output.new }
    ensures served { HasRead options.now.strict B.BlockReader blocks.now
        (streams I.remaining W.contents E.contents input.old output.old errors.old)
        (streams I.remaining W.contents E.contents input.new output.new errors.new) result }
{
    let limits = options.limits;
    match open_store(
        alloc,
        ReadOnlyDevice::over(blocks),
        limits.cache,
        limits.newest,
    ) {
        Ok(store) => run_store(store, options.strict, input, output, errors).status,
        Err((refusal, _)) => {
            tell_unread(refusal, errors);
            FAILED
        }
    }
}

// Says why a store can't be read.
pub(crate) fn tell_unread<E: Write>(refusal: Refusal, errors: &mut E) {
    if let Refusal::NotClosed = refusal {
        let _ = errors.write_all(b"rstore: fail 20 NotClosed: open FILE once for writing\n");
        return;
    }
    let _ = tell_refusal(refusal, errors);
}
