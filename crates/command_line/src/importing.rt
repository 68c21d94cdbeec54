//! A run of the program that imports: objects are read from the input, all of them, and then put into a layer
//! of a file, all of them or none.
ghost use Rattle.std.specs.Io.KnownBytes.{Keeps};
ghost use Rattle.std.specs.Prelude.{◌≡◌, ◌≤◌, ◌⊎◌, ◌==◌, Ok, Err, IfErr, IfOk, is_ok, true};
ghost use Rattle.std.specs.declared.alloc.Global.{Global};
ghost use Rattle.plain_table.specs.Table.{Table};
ghost use Rattle.plain_table.specs.declared.refusal.Refusal.TheVariants as refusal;
ghost use Rattle.layer_store.specs.Representation.{BeginsWith, device_in};
ghost use Rattle.reply_texts.specs.Texts.{told_refusal};
ghost use Rattle.reply_texts.specs.Writing.{AppendsSome};
ghost use Rattle.command_line.specs.Importing.{HasImportedOn, IntoLayerOf, IsRefusedText, OpensAndImports};
ghost use Rattle.command_line.specs.Importing.{PutsInto};
ghost use Rattle.command_line.specs.Serving.{HasStarted};
ghost use Rattle.command_line.specs.Streams.{streams};
ghost use Rattle.program_words.specs.Asking.{asked_of};
ghost use Rattle.program_words.specs.Targets.{IsTargetOf};
ghost use Rattle.command_line.specs.declared.serving.Served.{Served};
ghost use Rattle.file_device.specs.declared.open.OpenError.{OpenError};

use crate::program::tell_unopened;
use crate::serving::{FAILED, Served, WENT_WELL, tell_no_store, tell_not_empty};
use block_device::BlockDevice;
use box_import::{
    Axes, ColumnFault, Columns, CsvRows, FeatureLines, ImportError, ImportedObject, Properties,
    Scale, Why,
};
use command_language::CountedRead;
use command_shell::FlushedWrite;
use file_device::OpenError;
use layer_import::{Import, PutProgress, Unimported, import_and_close};
use layer_store::{Refusal, Store, create_store, open_store};
use program_words::{ImportForm, ImportTask, Options, import_task, tell_misuse};
use reply_texts::{Reply, tell_refusal, write_reply};
use std::alloc::Global;
use std::io::{BufRead, BufReader, Read, Write};

// The exit status where the text of the input is refused.
const REFUSED: u8 = 3;

// How many bytes are read at once.
const READ_BYTES: usize = 65536;

// All objects of an input, and how many axes their boxes have.
#[derive(Drop)]
struct Batch {
    dims: u64,
    objects: Vec<ImportedObject>,
}

/// Imports into the file at a path as the words ask: reads all objects of the input, and then opens or makes the
/// file and puts them into the layer. Nothing is written to `output`. The status is 2 where the words do not go
/// together, and then nothing is read; 3 where the text of the input is refused; 1 where it can't be read or
/// there is no memory for it, and in these three cases no file is opened; 1 also where the file can't be opened
/// or the store refuses the objects; and else 0.
pub(crate) fn import_path<
    D: BlockDevice,
    O: FnOnce(&str, bool) -> Result<D, OpenError>,
    K: FnOnce(&str, D),
    I: CountedRead,
    W: FlushedWrite,
    E: Write,
    P: PutProgress,
>(
    alloc: Global,
    path: &str,
    options: &Options<'_>,
    open_at: O,
    end_at: K,
    input: &mut I,
    output: &mut W,
    errors: &mut E,
    progress: &mut P,
) -> u8
    requires opens { O.IsAlwaysCallable open_at }
    requires ends { K.IsAlwaysCallable end_at }
    ensures status { result ≤ 3 }
    ensures quiet { result ≡ 0 → Keeps (E.contents errors.old) (E.contents errors.new) }
    ensures flushed { result ≡ 0 → W.is_flushed output.new }
    ensures unwritten { Keeps (W.contents output.old) (W.contents output.new) }
    ensures imported { OpensAndImports D.BlockDevice (HasStarted Global D.BlockDevice options.now.limits.newest)
        (O.post open_at path.entry options.now.create) I.is_failing options.now.create
        (asked_of options.now).layer
        (streams I.remaining W.contents E.contents input.old output.old errors.old)
        (streams I.remaining W.contents E.contents input.new output.new errors.new) result }
{
    let task = match import_task(options) {
        Ok(task) => task,
        Err(misuse) => return tell_misuse(misuse.text(), errors),
    };
    if output.flush_out().is_err() {
        let _ = errors.write_all(b"rstore: input or output failed\n");
        return FAILED;
    }
    match read_batch(alloc, &task, input) {
        Ok(batch) => {
            let import = Import {
                layer: task.layer,
                dims: batch.dims,
                fanout: task.fanout,
                objects: batch.objects,
            };
            put_into(
                alloc, path, options, import, open_at, end_at, errors, progress,
            )
        }
        Err(error) => tell_error(&error, input, errors),
    }
}

// Says why the objects of an input were not read, and answers the status.
fn tell_error<I: CountedRead, E: Write>(error: &ImportError, input: &I, errors: &mut E) -> u8
    ensures { IsRefusedText I.is_failing input.now result
        ⊎ ((result ≡ 1) × ((I.is_failing input.now ≡ true)
        ⊎ AppendsSome (E.contents errors.old) (E.contents errors.new) (told_refusal refusal.Memory))) }
{
    if let ImportError::Memory = error {
        let _ = tell_refusal(Refusal::Memory, errors);
        return FAILED;
    }
    let cure = cure_of(error);
    let _ = write!(errors, "rstore: {error}{cure}\n");
    if input.has_failed() { FAILED } else { REFUSED }
}

// What the program's words do about a refusal, of which `box_import` knows none.
fn cure_of(error: &ImportError) -> &'static str {
    match error {
        ImportError::Columns {
            why: ColumnFault::Missing,
            ..
        } => ": --columns LIST names the columns",
        ImportError::Row {
            why: Why::NoWhole,
            ..
        }
        | ImportError::Feature {
            why: Why::NoWhole,
            ..
        } => ": --scale N multiplies coordinates, --scale 1 widens them to whole numbers",
        _ => "",
    }
}

// Reads all objects.
fn read_batch<I: Read>(
    alloc: Global,
    task: &ImportTask<'_>,
    input: &mut I,
) -> Result<Batch, ImportError> {
    let text = BufReader::with_capacity(alloc, READ_BYTES, input)?;
    match task.form {
        ImportForm::Csv(columns) => read_rows(alloc, text, columns, task.scale),
        ImportForm::GeoJson(properties, axes) => read_lines(
            alloc, text, properties, axes, task.scale,
        ),
    }
}

// Reads the rows of CSV.
fn read_rows<B: BufRead + Drop>(
    alloc: Global,
    text: B,
    columns: Columns<'_>,
    scale: Scale,
) -> Result<Batch, ImportError> {
    let mut rows = CsvRows::new(alloc, text, &columns, scale)?;
    let mut objects = Vec::new(alloc);
    for _ in 0..u64::MAX {
        match rows.next()? {
            Some(object) => objects.push(object)?,
            None => break,
        }
    }
    Ok(Batch {
        dims: rows.dims(),
        objects,
    })
}

// Reads lines of GeoJSON.
fn read_lines<B: BufRead + Drop>(
    alloc: Global,
    text: B,
    properties: Properties<'_>,
    axes: Axes,
    scale: Scale,
) -> Result<Batch, ImportError> {
    let mut lines = FeatureLines::new(alloc, text, properties, axes, scale);
    let mut objects = Vec::new(alloc);
    for _ in 0..u64::MAX {
        match lines.next()? {
            Some(object) => objects.push(object)?,
            None => break,
        }
    }
    let dims = match axes {
        Axes::Two => 2,
        Axes::Three => 3,
    };
    Ok(Batch { dims, objects })
}

// Opens the file at a path as the words ask, puts objects into it, and ends the run over it.
fn put_into<
    D: BlockDevice,
    O: FnOnce(&str, bool) -> Result<D, OpenError>,
    K: FnOnce(&str, D),
    E: Write,
    P: PutProgress,
>(
    alloc: Global,
    path: &str,
    options: &Options<'_>,
    import: Import<'_, Global>,
    open_at: O,
    end_at: K,
    errors: &mut E,
    progress: &mut P,
) -> u8
    requires opens { O.IsAlwaysCallable open_at }
    requires ends { K.IsAlwaysCallable end_at }
    ensures status { result ≤ 1 }
    ensures quiet { result ≡ 0 → Keeps (E.contents errors.old) (E.contents errors.new) }
    ensures imported { (said : _) → IsTargetOf said import.entry.layer.now import.entry.fanout →
        ((e : OpenError) × O.post open_at path.entry options.now.create (Err e) × (result ≡ 1))
        ⊎ ((device : D) × (left : Served D) × O.post open_at path.entry options.now.create (Ok device)
        × (left.status ≡ result) × IntoLayerOf D.BlockDevice
        (HasStarted Global D.BlockDevice options.now.limits.newest) options.now.create said device left) }
{
    match open_at(path, options.create) {
        Ok(device) => {
            let served = import_device(alloc, device, options, import, errors, progress);
            let Served { status, device } = served;
            end_at(path, device);
            status
        }
        Err(error) => {
            tell_unopened(error, path, options.create, errors);
            FAILED
        }
    }
}

// Imports on a device as the words ask: makes a store on one without blocks, or opens the one that is there.
fn import_device<D: BlockDevice, E: Write, P: PutProgress>(
    alloc: Global,
    device: D,
    options: &Options<'_>,
    import: Import<'_, Global>,
    errors: &mut E,
    progress: &mut P,
) -> Served<D>
    ensures status { result.status ≤ 1 }
    ensures quiet { result.status ≡ 0 → Keeps (E.contents errors.old) (E.contents errors.new) }
    ensures imported { HasImportedOn D.BlockDevice
        (HasStarted Global D.BlockDevice options.now.limits.newest) options.now.create
        import.entry.layer.now import.entry.fanout device result }
{
    let limits = options.limits;
    if !options.create {
        let opened = open_store(alloc, device, limits.cache, limits.newest);
        return import_store(opened, import, errors, progress);
    }
    if device.blocks() != 0 {
        return tell_not_empty(device, errors);
    }
    let made = create_store(alloc, device, limits.cache, limits.newest);
    import_store(made, import, errors, progress)
}

// Imports into a store, or says why there is none.
fn import_store<D: BlockDevice, E: Write, P: PutProgress>(
    store: Result<Store<D, Global>, (Refusal, D)>,
    import: Import<'_, Global>,
    errors: &mut E,
    progress: &mut P,
) -> Served<D>
    ensures status { result.status ≤ 1 }
    ensures quiet { result.status ≡ 0 → Keeps (E.contents errors.old) (E.contents errors.new) }
    ensures imported { (t : Table) (moment : _) → IfOk store (λ it. BeginsWith it moment t →
        PutsInto D.BlockDevice moment t import.entry.layer.now import.entry.fanout (device_in it) result) }
    ensures refused { IfErr store (λ e. (result.status ≡ 1) × (result.device ≡ e.1)) }
{
    match store {
        Ok(store) => {
            let imported = import_and_close(store, import, progress);
            Served {
                status: tell_outcome(imported.outcome, errors),
                device: imported.device,
            }
        }
        Err((refusal, device)) => tell_no_store(refusal, device, errors),
    }
}

// Says why objects were not imported, if they were not.
fn tell_outcome<E: Write>(outcome: Result<(), Unimported>, errors: &mut E) -> u8
    ensures most { result ≤ 1 }
    ensures is { (result == 0) ≡ is_ok outcome }
    ensures quiet { result ≡ 0 → Keeps (E.contents errors.old) (E.contents errors.new) }
{
    match outcome {
        Ok(()) => WENT_WELL,
        Err(
            Unimported {
                refusal,
                object: None,
            },
        ) => {
            let _ = tell_refusal(refusal, errors);
            FAILED
        }
        Err(
            Unimported {
                refusal,
                object: Some(id),
            },
        ) => {
            let _ = write!(errors, "rstore: object {id}: ");
            let _ = write_reply(&Reply::<Global>::Refused(refusal), errors);
            FAILED
        }
    }
}
