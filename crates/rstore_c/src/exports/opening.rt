//! The calls that open, close and keep a store.
ghost use Rattle.std.specs.Prelude.{◌≡◌, ◌⊎◌, ℕ, [], None, Some, if◌then◌else◌};
ghost use Rattle.plain_table.specs.Answers.{done_answer, layers_answer};
ghost use Rattle.plain_table.specs.Commands.Command.{Check, Layers};
ghost use Rattle.c_session.specs.Calls.{AsksBy, ClosesBy, CommitsBy, HasListed, TellsBy};
ghost use Rattle.c_session.specs.Keeping.{as_it_is};
ghost use Rattle.rstore_c.specs.Opening.{TellsUnopened, number_of_error};

use crate::device::LibraryDevice;
use crate::files::{self, JournalStreams, Streams, Unopened};
use crate::handle::Handle;
use crate::held::Held;
use c_rows::{Layer, tell};
use c_session::{Opening, Session};
use file_device::OpenError;
use layer_store::{Refusal, Store, Version};
use std::alloc::Global;
use std::rt::{Stdin, Stdout};

// The number of the refusal by a device.
const DEVICE: u32 = 17;

// The number of a file that can't be opened.
fn number_of(error: OpenError) -> u32
    ensures { result ≡ number_of_error error }
{
    match error {
        OpenError::NotFound
        | OpenError::PermissionDenied
        | OpenError::IsADirectory
        | OpenError::Refused
        | OpenError::ClosedStream => 101,
        OpenError::InUse => 102,
        OpenError::NoLocks => 106,
        OpenError::NoJournal => 107,
        OpenError::OtherJournal => 108,
        OpenError::Memory => 16,
    }
}

// Why no store was opened, as a number.
fn unopened(why: Unopened, detail: &mut u64) -> u32
    ensures { TellsUnopened why result detail.new }
{
    match why {
        Unopened::File(error) => number_of(error),
        Unopened::Store(refusal) => tell(refusal, detail),
    }
}

// From which number on flags are of blocks of the caller's, whose journal is in memory.
const BLOCKS: u32 = 4;

/// Opens a store and gives the address of its session. `flags` is 0 for a file that is there, 1 for one that
/// is made where it has no blocks, and 2 for one that is only read; of blocks of the caller's it is 4 or 5 for
/// the first two. The streams take no argument of C's: they are what `read` of 0 and `write` of 1 are to this
/// library, which C renames as it links.
#[unsafe(no_mangle)]
pub extern "C" fn rstore_c_open(
    alloc: Global,
    base_input: Stdin,
    base_output: Stdout,
    journal_input: Stdin,
    journal_output: Stdout,
    anew_input: Stdin,
    anew_output: Stdout,
    readers_input: Stdin,
    readers_output: Stdout,
    ask_input: Stdin,
    ask_output: Stdout,
    flags: u32,
    cache: u32,
    at: &mut *mut u8,
    detail: &mut u64,
) -> u32 {
    let base = Streams::of(base_input, base_output);
    let journal = JournalStreams {
        first: Streams::of(journal_input, journal_output),
        anew: Streams::of(anew_input, anew_output),
    };
    let readers = Streams::of(readers_input, readers_output);
    let mut ask = Streams::of(ask_input, ask_output);
    let opened = if flags == 2 {
        files::open_to_read(alloc, base, journal, readers, &mut ask, cache)
    } else {
        files::open(
            alloc,
            base,
            journal,
            readers,
            &mut ask,
            flags & 1 == 1,
            flags >= BLOCKS,
            cache,
        )
    };
    match opened {
        Ok((store, unended)) => { hand_out(alloc, store, cache, flags == 2, unended, at, detail) }
        Err(why) => unopened(why, detail),
    }
}

// Puts a session over the store behind an address, which it gives.
fn hand_out(
    alloc: Global,
    store: Store<LibraryDevice>,
    cache: u32,
    read_only: bool,
    unended: bool,
    at: &mut *mut u8,
    detail: &mut u64,
) -> u32 {
    let opening = Opening {
        cache,
        newest: Version::Three,
    };
    match Box::new(alloc, held_over(alloc, store, opening, read_only, unended)) {
        Ok(held) => {
            *at = Box::into_raw(held) as *mut u8;
            0
        }
        Err(_) => tell(Refusal::Memory, detail),
    }
}

// A session over the store, which takes changes where it is not only read. Whether the last run had not ended
// is its detail.
fn held_over(
    alloc: Global,
    store: Store<LibraryDevice>,
    opening: Opening,
    read_only: bool,
    unended: bool,
) -> Held
    ensures read_only { result.session.read_only ≡ read_only }
    ensures unended { result.session.detail ≡ (if unended then 1 else 0) }
    ensures store { result.session.store ≡ Some store }
    ensures left { result.session.left ≡ None }
    ensures opening { result.session.opening ≡ opening }
{
    let session = Session::over(alloc, store, opening, read_only, u64::from(unended));
    Held { session }
}

/// Closes the store, frees what the session has, and ends the run over its files, which may fail where the
/// closing went well; also of one that could not be rolled back. C then frees the session's block.
#[unsafe(no_mangle)]
pub extern "C" fn rstore_c_close(
    alloc: Global,
    input: Stdin,
    output: Stdout,
    handle: &mut Handle,
) -> u32
    ensures closes { (device : _) × (number : ℕ) × ClosesBy handle.old.value.session handle.new.value.session
        (number, device) × ((result ≡ number) ⊎ ((number ≡ 0) × (result ≡ 17))) }
    ensures closed { handle.new.value.session.store ≡ None }
    ensures boxes { handle.new.value.session.boxes.items ≡ [] }
    ensures near { handle.new.value.session.near.items ≡ [] }
    ensures pairs { handle.new.value.session.pairs.items ≡ [] }
{
    let session = &mut handle.held().session;
    let read_only = session.is_read_only();
    let (number, device) = session.close(alloc);
    let failed = fails_to_end(device, read_only, Streams::of(input, output));
    closing_number(number, failed)
}

// Ends the run over the files of a store that was not only read, and says whether that failed.
fn fails_to_end(device: Option<LibraryDevice>, read_only: bool, streams: Streams) -> bool {
    let mut streams = streams;
    if let Some(device) = device {
        if !read_only {
            return files::end(device, &mut streams).is_err();
        }
    }
    false
}

// The number of a closing, or that of the device where it went well and the end of the run failed.
fn closing_number(number: u32, is_end_failed: bool) -> u32
    ensures { (result ≡ number) ⊎ ((number ≡ 0) × (result ≡ 17)) }
{
    if number != 0 {
        return number;
    }
    if is_end_failed {
        return DEVICE;
    }
    number
}

/// The number that came with the last refusal; after the opening 1 where the last run had committed and not
/// ended, and may have changed more.
#[unsafe(no_mangle)]
pub extern "C" fn rstore_c_detail(handle: &mut Handle) -> u64
    ensures detail { result ≡ handle.old.value.session.detail }
    ensures same { handle.new.value ≡ handle.old.value }
{
    handle.held().session.detail()
}

/// Keeps all changes in the file, and goes on.
#[unsafe(no_mangle)]
pub extern "C" fn rstore_c_commit(handle: &mut Handle) -> u32
    ensures { CommitsBy handle.old.value.session handle.new.value.session result }
{
    handle.held().session.commit()
}

/// Checks all pages.
#[unsafe(no_mangle)]
pub extern "C" fn rstore_c_check(handle: &mut Handle) -> u32
    ensures { AsksBy handle.old.value.session handle.new.value.session Check done_answer as_it_is result }
{
    handle.held().session.check()
}

/// The layers, ascending by name: as many as there is room for, and how many there are.
#[unsafe(no_mangle)]
pub extern "C" fn rstore_c_layers(handle: &mut Handle, out: &mut [Layer], count: &mut usize) -> u32
    ensures { TellsBy handle.old.value.session handle.new.value.session Layers layers_answer
        (HasListed out.old out.new count.old count.new) result }
{
    handle.held().session.layers(out, count)
}
