//! A run of the program that shows something of a file, and reads no line: a layer's tree as a picture, or
//! what one tunes the layers by.
ghost use Rattle.std.specs.Io.KnownBytes.{Keeps};
ghost use Rattle.std.specs.Prelude.{◌≡◌, ◌≤◌};
ghost use Rattle.command_line.specs.Serving.{OpensAndShows};

use crate::program::tell_unopened;
use crate::reading::tell_unread;
use crate::serving::{FAILED, WENT_WELL};
use block_device::BlockDevice;
use command_shell::FlushedWrite;
use file_device::OpenError;
use layer_store::{AnyBox, LayerInfo, LayerOutline, RawBox, RawQuery, Refusal, Store, open_store};
use program_words::{Options, show_misuse, tell_misuse};
use read_only_device::{BlockReader, ReadOnlyDevice};
use reply_texts::tell_refusal;
use std::alloc::{AllocError, Global};
use std::io::{Read, Write};
use std::{io, str};
use tree_outline::NodeOutline;
use tree_picture::{Drawn, MOST_ENTRIES, draw};
use tree_statistics::{
    LayerFacts, LayerStatistics, LevelStatistics, levels_of, write_json, write_table,
};

// Why nothing was shown, or not all.
#[derive(Debug, Drop)]
enum Unshown {
    Refused(Refusal),
    Unwritten,
}

impl From<Refusal> for Unshown {
    fn from(refusal: Refusal) -> Unshown {
        Unshown::Refused(refusal)
    }
}

impl From<AllocError> for Unshown {
    fn from(_: AllocError) -> Unshown {
        Unshown::Refused(Refusal::Memory)
    }
}

impl From<io::Error> for Unshown {
    fn from(error: io::Error) -> Unshown {
        if error.kind() == io::ErrorKind::OutOfMemory {
            Unshown::Refused(Refusal::Memory)
        } else {
            Unshown::Unwritten
        }
    }
}

/// Shows what the words ask for of the file at a path, which is opened to be only read and is borrowed by what
/// has no call that writes. The status is 2 where the words do not go together, and then nothing is written to
/// `output`; 1 where the file can't be opened, what is asked for is refused, or it can't be written; and else 0,
/// and then the last that was done to `output` was a flush that answered Ok.
pub(crate) fn show_path<
    B: BlockReader + Drop,
    P: FnOnce(&str) -> Result<B, OpenError>,
    W: FlushedWrite,
    E: Write,
>(
    alloc: Global,
    path: &str,
    options: &Options<'_>,
    read_at: P,
    output: &mut W,
    errors: &mut E,
) -> u8
    requires { P.IsAlwaysCallable read_at }
    ensures status { result ≤ 2 }
    ensures quiet { result ≡ 0 → Keeps (E.contents errors.old) (E.contents errors.new) }
    ensures flushed { result ≡ 0 → W.is_flushed output.new }
    ensures shown { OpensAndShows (P.post read_at path.entry) output.old output.new result }
{
    if let Some(misuse) = show_misuse(options) {
        return tell_misuse(misuse.text(), errors);
    }
    match read_at(path) {
        Ok(blocks) => show_reader(alloc, &blocks, options, output, errors),
        Err(error) => {
            tell_unopened(error, path, false, errors);
            FAILED
        }
    }
}

// Shows what is asked for of the store that a reader has. No block is written: the reader is borrowed, and
// has no call that writes.
fn show_reader<B: BlockReader, W: FlushedWrite, E: Write>(
    alloc: Global,
    blocks: &B,
    options: &Options<'_>,
    output: &mut W,
    errors: &mut E,
) -> u8
    ensures status { result ≤ 1 }
    ensures quiet { result ≡ 0 → Keeps (E.contents errors.old) (E.contents errors.new) }
    ensures flushed { result ≡ 0 → W.is_flushed output.new }
{
    match open_store(
        alloc,
        ReadOnlyDevice::over(blocks),
        options.limits.cache,
        options.limits.newest,
    ) {
        Ok(store) => {
            let mut store = store;
            let shown = show_store(alloc, &mut store, options, output);
            tell_shown(shown, output, errors)
        }
        Err((refusal, _)) => {
            tell_unread(refusal, errors);
            FAILED
        }
    }
}

// Flushes what was shown, or says why it was not.
fn tell_shown<W: FlushedWrite, E: Write>(
    shown: Result<(), Unshown>,
    output: &mut W,
    errors: &mut E,
) -> u8
    ensures status { result ≤ 1 }
    ensures quiet { result ≡ 0 → Keeps (E.contents errors.old) (E.contents errors.new) }
    ensures flushed { result ≡ 0 → W.is_flushed output.new }
{
    if let Err(Unshown::Refused(refusal)) = shown {
        let _ = tell_refusal(refusal, errors);
        return FAILED;
    }
    if shown.is_ok() && output.flush_out().is_ok() {
        WENT_WELL
    } else {
        let _ = errors.write_all(b"rstore: input or output failed\n");
        FAILED
    }
}

// Writes what is asked for of a store.
fn show_store<D: BlockDevice, W: Write>(
    alloc: Global,
    store: &mut Store<D, Global>,
    options: &Options<'_>,
    output: &mut W,
) -> Result<(), Unshown> {
    match options.draw {
        Some(layer) => draw_layer(alloc, store, layer, output),
        None => tell_layers(alloc, store, options.json, output),
    }
}

// Draws the tree of a layer.
fn draw_layer<D: BlockDevice, W: Write>(
    alloc: Global,
    store: &mut Store<D, Global>,
    layer: &str,
    output: &mut W,
) -> Result<(), Unshown> {
    let outline = store.outline(layer.as_bytes())?;
    let listed = store.layers()?;
    for info in listed.as_slice() {
        if info.name.as_slice() == layer.as_bytes() {
            let entries = entries_of(alloc, store, info)?;
            return draw_outline(alloc, &outline, info, layer, entries.as_slice(), output);
        }
    }
    Err(Unshown::Refused(Refusal::NoLayer))
}

// The objects of a layer, where they are few enough to be drawn, and else none.
fn entries_of<D: BlockDevice>(
    alloc: Global,
    store: &mut Store<D, Global>,
    info: &LayerInfo,
) -> Result<Vec<(u64, AnyBox, u32), Global>, Refusal> {
    if info.count > MOST_ENTRIES as u64 {
        return Ok(Vec::new(alloc));
    }
    let all = if info.dims == 2 {
        RawBox::Two([i32::MIN; 2], [i32::MAX; 2])
    } else {
        RawBox::Three([i32::MIN; 3], [i32::MAX; 3])
    };
    store.range(info.name.as_slice(), RawQuery::Window(all), None)
}

// Draws the tree of an outline.
fn draw_outline<W: Write>(
    alloc: Global,
    outline: &LayerOutline<Global>,
    info: &LayerInfo,
    name: &str,
    entries: &[(u64, AnyBox, u32)],
    output: &mut W,
) -> Result<(), Unshown> {
    let levels = levels_in(alloc, outline, info.fanout)?;
    let drawn = Drawn {
        name,
        axes: info.dims,
        fanout: info.fanout,
        objects: info.count,
        levels: levels.as_slice(),
        entries,
    };
    match outline {
        LayerOutline::Two(rows) => draw::<2, W>(&drawn, rows.as_slice(), output)?,
        LayerOutline::Three(rows) => draw::<3, W>(&drawn, rows.as_slice(), output)?,
    }
    Ok(())
}

// The levels of the tree of an outline.
fn levels_in(
    alloc: Global,
    outline: &LayerOutline<Global>,
    fanout: u8,
) -> Result<Vec<LevelStatistics, Global>, AllocError> {
    match outline {
        LayerOutline::Two(rows) => levels_of::<2, Global>(alloc, rows.as_slice(), fanout),
        LayerOutline::Three(rows) => levels_of::<3, Global>(alloc, rows.as_slice(), fanout),
    }
}

// Writes what one tunes the layers by, a layer after the other.
fn tell_layers<D: BlockDevice, W: Write>(
    alloc: Global,
    store: &mut Store<D, Global>,
    json: bool,
    output: &mut W,
) -> Result<(), Unshown> {
    let listed = store.layers()?;
    if json {
        output.write_all(b"{\"layers\":[")?;
    }
    let mut first = true;
    for info in listed.as_slice() {
        if json && !first {
            output.write_all(b",\n")?;
        }
        first = false;
        tell_layer(alloc, store, info, json, output)?;
    }
    if json {
        output.write_all(b"]}\n")?;
    }
    Ok(())
}

// Writes what one tunes a layer by.
fn tell_layer<D: BlockDevice, W: Write>(
    alloc: Global,
    store: &mut Store<D, Global>,
    info: &LayerInfo,
    json: bool,
    output: &mut W,
) -> Result<(), Unshown> {
    let outline = store.outline(info.name.as_slice())?;
    let levels = levels_in(alloc, &outline, info.fanout)?;
    let facts = LayerFacts {
        name: str::from_utf8(info.name.as_slice()).unwrap_or(""),
        axes: info.dims,
        fanout: info.fanout,
        objects: info.count,
        identifier_pages: store.id_pages(info.name.as_slice())?,
    };
    let layer = LayerStatistics::new(&facts, nodes_in(&outline), levels);
    if json {
        write_json(alloc, &layer, output)?;
    } else {
        write_table(&layer, output)?;
    }
    Ok(())
}

// How many nodes an outline has.
fn nodes_in(outline: &LayerOutline<Global>) -> usize {
    match outline {
        LayerOutline::Two(rows) => rows.len(),
        LayerOutline::Three(rows) => rows.len(),
    }
}
