//! How a file and its journal are opened and ended by streams, over which C opens, locks and removes.

use crate::device::{ByStreams, LibraryDevice};
use block_device::{BlockDevice, DeviceError};
use device_pair::TwoDevices;
use file_device::{FileDevice, OpenError};
use journaled_device::Readers;
use journaled_file::{Found, JournalSource, Looked, end_device, judge, look, pair_up};
use journaled_store::OpeningJudge;
use layer_store::{Refusal, Store, Version, create_store, open_store};
use std::alloc::Global;
use std::rt::{Stdin, Stdout};
use stream_file::{FileSide, JournalWish, LockWish, StreamFile, ask_journal, ask_lock};

/// The two streams of C.
#[derive(Drop)]
pub struct Streams {
    /// What C answers.
    pub input: Stdin,
    /// What C is asked.
    pub output: Stdout,
}

impl Streams {
    /// These two.
    pub fn of(input: Stdin, output: Stdout) -> Streams {
        Streams { input, output }
    }

    // Asks C for the journal.
    fn ask(&mut self, wish: JournalWish) -> Result<(), OpenError> {
        ask_journal(&mut self.input, &mut self.output, wish)
    }
}

/// The streams by which C opens the journal, and those by which it opens the one that takes its place.
#[derive(Drop)]
pub struct JournalStreams {
    /// By which it is opened first.
    pub first: Streams,
    /// By which it is opened anew, or its copy.
    pub anew: Streams,
}

/// Those who read the file of these streams beside its writer, as C knows by the file's lock. That nobody reads
/// while the lock is held alone is a premise on C, and nothing is claimed of it here.
#[derive(Drop)]
pub struct StreamReaders {
    streams: Streams,
}

impl StreamReaders {
    /// Those of the file that these streams serve.
    pub fn of(streams: Streams) -> StreamReaders {
        StreamReaders { streams }
    }

    // Asks C for the lock.
    fn ask(&mut self, wish: LockWish) -> Result<(), OpenError> {
        ask_lock(&mut self.streams.input, &mut self.streams.output, wish)
    }
}

impl Readers for StreamReaders {
    ghost somebody_reads = { λ _. ⊥ };

    fn shut_out(&mut self) -> bool {
        self.ask(LockWish::Alone).is_ok()
    }

    fn let_in(&mut self) {
        let _ = self.ask(LockWish::Share);
    }
}

/// Why no store was opened.
#[derive(Clone, Copy, PartialEq, Eq, Debug)]
pub enum Unopened {
    /// The files could not be opened.
    File(OpenError),
    /// The store was refused.
    Store(Refusal),
}

impl From<OpenError> for Unopened {
    ghost use Rattle.std.specs.Prelude.{◌≡◌};
    ghost use Rattle.rstore_c.specs.declared.files.Unopened.TheVariants.{File};

    ghost from_gives = { λ e unopened. unopened ≡ File e };

    fn from(error: OpenError) -> Self {
        Unopened::File(error)
    }
}

/// Opens the store in the file and its journal, or with `create` makes one where the file has no blocks.
/// Whether the last run had closed anything and not ended, and may have changed more, is told. Where no store opens
/// over both, nothing is written into either. With `each_home` each commit is in the file once it is answered, and
/// not in its journal: for blocks of the caller's, whose journal is in memory.
pub fn open(
    alloc: Global,
    base: Streams,
    journal: JournalStreams,
    readers: Streams,
    ask: &mut Streams,
    create: bool,
    each_home: bool,
    cache: u32,
) -> Result<(Store<LibraryDevice>, bool), Unopened> {
    let mut source = JournalByStreams {
        ask: &mut *ask,
        journal: Some(journal.first),
        anew: Some(journal.anew),
    };
    let base = side(base, FileSide::Base)?;
    let (pair, unended) = paired(alloc, base, &mut source, create, cache)?;
    let readers = StreamReaders::of(readers);
    match store_over(alloc, pair, readers, create, each_home, cache)? {
        Ok(store) => Ok((store, unended)),
        Err((refusal, device)) => {
            let _ = end(device, ask);
            Err(Unopened::Store(refusal))
        }
    }
}

// A file with its journal, once a store opens over both or is to be made, and whether the last run had closed anything
// and not ended, and may have changed more. This stands over devices of any kind: each call over those of C, with all
// that lies on them, is dear to prove.
fn paired<B: BlockDevice + Drop, J: BlockDevice + Drop, S: JournalSource<J>>(
    alloc: Global,
    base: B,
    source: &mut S,
    create: bool,
    cache: u32,
) -> Result<(TwoDevices<B, J>, bool), Unopened> {
    let mut opening = OpeningJudge::of(alloc, cache, Version::Three, false);
    let looked = look(base, create, &mut *source, &mut opening, alloc);
    if let Some(refusal) = opening.refusal() {
        return Err(Unopened::Store(refusal));
    }
    let Looked {
        base,
        journal,
        found: _,
        opens: _,
    } = looked?;
    let (pair, unended, begun) = pair_up(base, journal, source, alloc)?;
    Ok((pair, unended && begun))
}

// The store over both files, or with `create` a new one where the device has no blocks. Where that is refused, the
// device is given back.
fn store_over(
    alloc: Global,
    pair: TwoDevices<ByStreams, ByStreams>,
    readers: StreamReaders,
    create: bool,
    each_home: bool,
    cache: u32,
) -> Result<Result<Store<LibraryDevice>, (Refusal, LibraryDevice)>, OpenError> {
    let device = LibraryDevice::over(alloc, pair, readers, each_home)?;
    if create && device.blocks() == 0 {
        return Ok(create_store(alloc, device, cache, Version::Three));
    }
    Ok(open_store(alloc, device, cache, Version::Three))
}

/// Opens the store in a file that is only read, also beside its writer: through the commits that its journal has to
/// bring back, of which nothing is written. C says which they are, and keeps both files as they are read.
pub fn open_to_read(
    alloc: Global,
    base: Streams,
    journal: JournalStreams,
    readers: Streams,
    ask: &mut Streams,
    cache: u32,
) -> Result<(Store<LibraryDevice>, bool), Unopened> {
    let beside = journal_to_read(journal.first, ask)?;
    // Its blocks are counted once those of the journal are, which name them.
    let base = side_to_read(base, FileSide::Base)?;
    let pair = pair_to_read(base, beside, no_journal(journal.anew)?)?;
    let readers = StreamReaders::of(readers);
    match store_over(alloc, pair, readers, false, false, cache)? {
        Ok(store) => Ok((store, false)),
        Err((refusal, _)) => Err(Unopened::Store(refusal)),
    }
}

// The journal that is there, or none.
fn journal_to_read(streams: Streams, ask: &mut Streams) -> Result<ByStreams, OpenError> {
    match ask.ask(JournalWish::Open) {
        Ok(()) => side_to_read(streams, FileSide::Journal),
        Err(error) if error.is_of_system() => no_journal(streams),
        Err(error) => Err(error),
    }
}

// A journal without a file.
fn no_journal(streams: Streams) -> Result<ByStreams, OpenError> {
    Ok(FileDevice::over(StreamFile::none(streams.input, streams.output))?)
}

// The device of a file that is only read.
fn side_to_read(streams: Streams, side: FileSide) -> Result<ByStreams, OpenError> {
    let Ok(file) = StreamFile::only_read(streams.input, streams.output, side) else {
        return Err(OpenError::Refused);
    };
    Ok(FileDevice::over(file)?)
}

// A file with its journal, as both are read: beside none where its journal is needless.
fn pair_to_read<B: BlockDevice + Drop, J: BlockDevice + Drop>(
    base: B,
    journal: J,
    none: J,
) -> Result<TwoDevices<B, J>, OpenError> {
    let mut pair = TwoDevices::of(base, journal);
    match judge(&mut pair)? {
        Found::Fresh => {
            let (base, _needless) = pair.into_devices();
            Ok(TwoDevices::of(base, none))
        }
        Found::Own | Found::Unended | Found::Ended => Ok(pair),
        Found::Missing => Err(OpenError::NoJournal),
        Found::Foreign => Err(OpenError::OtherJournal),
    }
}

/// Ends a run over the files: what was not committed is given up, what was is copied home, the mark is taken away, and
/// the journal is removed. Where somebody reads the file, nothing is copied, and the journal stays with all that was
/// committed. Then, and where a device fails, the next opening brings the same blocks back. A journal that can't be
/// removed is no failure: it says that the run has ended.
pub fn end(device: LibraryDevice, ask: &mut Streams) -> Result<(), DeviceError> {
    // The files are open, and nobody reads, until the journal is gone.
    if let Some(_parts) = end_device(device.below)? {
        let _ = ask.ask(JournalWish::Remove);
    }
    Ok(())
}

// The device of a file.
fn side(streams: Streams, side: FileSide) -> Result<ByStreams, OpenError> {
    let Ok(file) = StreamFile::over(streams.input, streams.output, side) else {
        return Err(OpenError::Refused);
    };
    Ok(FileDevice::over(file)?)
}

// The journal of a file, which C opens, locks and removes. It is opened by these streams, and once it was
// removed by those of `anew`.
#[derive(Drop)]
struct JournalByStreams<'a> {
    ask: &'a mut Streams,
    journal: Option<Streams>,
    anew: Option<Streams>,
}

impl JournalSource<ByStreams> for JournalByStreams<'_> {
    ghost is_honest = { ⊥ };

    fn open_there(&mut self) -> Result<Option<ByStreams>, OpenError> {
        match self.ask.ask(JournalWish::Open) {
            Ok(()) => {}
            Err(error) if error.is_of_system() => return Ok(None),
            Err(error) => return Err(error),
        }
        let Some(streams) = self.journal.take() else {
            return Err(OpenError::Refused);
        };
        Ok(Some(side(streams, FileSide::Journal)?))
    }

    fn open(&mut self, make: bool) -> Result<ByStreams, OpenError> {
        let first = self.journal.take();
        let streams = if first.is_some() {
            first
        } else {
            self.anew.take()
        };
        let Some(streams) = streams else {
            return Err(OpenError::Refused);
        };
        let wish = if make {
            JournalWish::Make
        } else {
            JournalWish::Open
        };
        self.ask.ask(wish)?;
        side(streams, FileSide::Journal)
    }

    // C knows which journal is open.
    fn remove(&mut self, _journal: &ByStreams) -> Result<(), OpenError> {
        self.ask.ask(JournalWish::Remove)
    }

    fn make_copy(&mut self) -> Result<ByStreams, OpenError> {
        let Some(streams) = self.anew.take() else {
            return Err(OpenError::Refused);
        };
        self.ask.ask(JournalWish::MakeCopy)?;
        side(streams, FileSide::Copy)
    }

    fn put_copy(&mut self, _journal: &ByStreams) -> Result<(), OpenError> {
        self.ask.ask(JournalWish::PutCopy)
    }
}
