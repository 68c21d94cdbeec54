//! A run over a device or over a store: it is made or opened, its lines are answered, and it is closed.
ghost use Rattle.std.specs.FinMap.{empty};
ghost use Rattle.std.specs.Io.KnownBytes.{Keeps};
ghost use Rattle.std.specs.Prelude.{◌≡◌, ◌≤◌, ◌⊎◌, ◌==◌, false, length};
ghost use Rattle.std.specs.declared.alloc.Global.{Global};
ghost use Rattle.live_layers.specs.Image.{IsImage, OpeningRefuses};
ghost use Rattle.layer_store.specs.Representation.{Represents, device_in};
ghost use Rattle.page_file.specs.Opening.{IsRefused};
ghost use Rattle.page_file.specs.declared.fault.Fault.{Fault};
ghost use Rattle.plain_table.specs.Table.{Table};
ghost use Rattle.reply_texts.specs.Writing.{AppendsSome, Writes};
ghost use Rattle.command_shell.specs.Runs.{TellsEnd};
ghost use Rattle.command_line.specs.Running.{HasServed, HasServedOn, IsStatusAs, RunsOnceChecked, RunsOver};
ghost use Rattle.command_line.specs.Running.{status_of_outcome};
ghost use Rattle.command_line.specs.Serving.{HasStarted, IsRefusedOpening, IsRefusedStart, TellsRun};
ghost use Rattle.command_line.specs.Serving.{told_start};
ghost use Rattle.command_line.specs.Streams.{streams};

use block_device::BlockDevice;
use command_language::CountedRead;
use command_shell::{FlushedWrite, Outcome, run_and_close, run_strictly_and_close};
use layer_store::{Refusal, Store, create_store, open_store};
use program_words::Options;
use reply_texts::{put, tell_refusal};
use std::alloc::{Allocator, Global};
use std::io;
use std::io::Write;

// What is said of a file that was not closed. One that needs its journal was refused before, if that is gone.
const UNCLOSED: &[u8] =
    b"rstore: fail 20 NotClosed: the run that made FILE was cut short before it closed anything: put back \
FILE-journal if there was one, else remove FILE and make it anew\n";

pub(crate) const WENT_WELL: u8 = 0;

pub(crate) const FAILED: u8 = 1;

// The status of a run that a refused line ended.
const STOPPED: u8 = 3;

/// What a run over a device leaves.
#[derive(Drop)]
pub struct Served<D: BlockDevice> {
    /// The exit status: 0 where all went well, 3 where a strict run stopped at a refused line, and else 1.
    pub status: u8,
    /// The device.
    pub device: D,
}

// Serves over a device: makes a store on one without blocks where it is to be made, or opens the one that is
// there.
pub(crate) fn serve_device<D: BlockDevice, I: CountedRead, W: FlushedWrite, E: Write>(
    alloc: Global,
    device: D,
    options: &Options<'_>,
    input: &mut I,
    output: &mut W,
    errors: &mut E,
) -> Served<D>
    ensures status { IsStatusAs options.now.strict result.status }
    ensures quiet { result.status ≡ 0 → Keeps (E.contents errors.old) (E.contents errors.new) }
    ensures flushed { result.status ≡ 0 → W.is_flushed output.new }
    ensures served { HasServedOn options.now.strict D.BlockDevice
        (HasStarted Global D.BlockDevice options.now.limits.newest) options.now.create device
        (streams I.remaining W.contents E.contents input.old output.old errors.old)
        (streams I.remaining W.contents E.contents input.new output.new errors.new) result }
{
    if !options.create {
        return serve_opened(alloc, device, options, input, output, errors);
    }
    if device.blocks() != 0 {
        return tell_not_empty(device, errors);
    }
    serve_new(alloc, device, options, input, output, errors)
}

/// Opens the store on a device, answers the commands of the input, in a strict run up to the first that is
/// refused, and closes it.
///
/// **Where the device is honest and holds an image of a table, the commands are answered by a lawful session
/// that begins with that table; with status 0 all of the input is answered, and the device is an image of the
/// table at its end, also after a stop; with status 3 a line was refused in a strict run, and nothing is closed
/// but what a `reopen` closed before it. A start that was refused has read and changed nothing, also after a
/// stop. Blocks that a check of opening refuses are never run on; on any other, from the first `check` on
/// that was answered ok, the rest of the commands is answered lawfully, from some table on.** A device in a
/// file is honest where the file is kept (`DiskFile::is_kept`): the system keeps it as written, and nobody
/// else writes it.
pub fn serve_opened<D: BlockDevice, A: Allocator + Copy, I: CountedRead, W: FlushedWrite, E: Write>(
    alloc: A,
    device: D,
    options: &Options<'_>,
    input: &mut I,
    output: &mut W,
    errors: &mut E,
) -> Served<D>
    ensures status { IsStatusAs options.now.strict result.status }
    ensures quiet { result.status ≡ 0 → Keeps (E.contents errors.old) (E.contents errors.new) }
    ensures flushed { result.status ≡ 0 → W.is_flushed output.new }
    ensures told { options.now.strict ≡ false →
        TellsRun (result.status == 0) (E.contents errors.old) (E.contents errors.new) }
    ensures serves { (t : Table) → D.honest device → IsImage (D.shown device) t →
        let before = streams I.remaining W.contents E.contents input.old output.old errors.old in
        let after = streams I.remaining W.contents E.contents input.new output.new errors.new in
        IsRefusedOpening D.BlockDevice device before after result
        ⊎ HasServed options.now.strict D.BlockDevice (HasStarted A D.BlockDevice options.now.limits.newest)
        (D.may_leave device) t device before after result }
    ensures checked { D.honest device →
        let before = streams I.remaining W.contents E.contents input.old output.old errors.old in
        let after = streams I.remaining W.contents E.contents input.new output.new errors.new in
        IsRefusedOpening D.BlockDevice device before after result
        ⊎ RunsOnceChecked options.now.strict D.BlockDevice before after result }
    ensures refuses { (f : Fault) → D.honest device → OpeningRefuses (D.shown device) f →
        IsRefusedOpening D.BlockDevice device
        (streams I.remaining W.contents E.contents input.old output.old errors.old)
        (streams I.remaining W.contents E.contents input.new output.new errors.new) result }
{
    match open_store(alloc, device, options.limits.cache, options.limits.newest) {
        Ok(store) => run_store(store, options.strict, input, output, errors),
        Err((refusal, device)) => tell_no_store(refusal, device, errors),
    }
}

/// Makes a store on a device without blocks, answers the commands of the input, in a strict run up to the first
/// that is refused, and closes it. Where the device is honest, the commands are answered by a lawful session
/// that begins with the empty table; or the making was refused, nothing was read, and a stop leaves blocks that
/// opening refuses, or an image of the empty table.
pub fn serve_new<D: BlockDevice, A: Allocator + Copy, I: CountedRead, W: FlushedWrite, E: Write>(
    alloc: A,
    device: D,
    options: &Options<'_>,
    input: &mut I,
    output: &mut W,
    errors: &mut E,
) -> Served<D>
    requires { length (D.shown device) ≡ 0 }
    ensures status { IsStatusAs options.now.strict result.status }
    ensures quiet { result.status ≡ 0 → Keeps (E.contents errors.old) (E.contents errors.new) }
    ensures flushed { result.status ≡ 0 → W.is_flushed output.new }
    ensures told { options.now.strict ≡ false →
        TellsRun (result.status == 0) (E.contents errors.old) (E.contents errors.new) }
    ensures serves { D.honest device →
        let before = streams I.remaining W.contents E.contents input.old output.old errors.old in
        let after = streams I.remaining W.contents E.contents input.new output.new errors.new in
        IsRefusedStart D.BlockDevice (λ c. IsRefused c ⊎ IsImage c empty) device before after result
        ⊎ HasServed options.now.strict D.BlockDevice (HasStarted A D.BlockDevice options.now.limits.newest)
        (λ c. IsRefused c ⊎ IsImage c empty) empty device before after result }
{
    match create_store(alloc, device, options.limits.cache, options.limits.newest) {
        Ok(store) => run_store(store, options.strict, input, output, errors),
        Err((refusal, device)) => tell_no_store(refusal, device, errors),
    }
}

// Answers the lines of the input over a store and closes it, in a strict run where no line was refused.
pub(crate) fn run_store<
    D: BlockDevice,
    A: Allocator + Copy,
    I: CountedRead,
    W: FlushedWrite,
    E: Write,
>(store: Store<D, A>, strict: bool, input: &mut I, output: &mut W, errors: &mut E) -> Served<D>
    ensures status { IsStatusAs strict result.status }
    ensures quiet { result.status ≡ 0 → Keeps (E.contents errors.old) (E.contents errors.new) }
    ensures flushed { result.status ≡ 0 → W.is_flushed output.new }
    ensures told { strict ≡ false →
        TellsEnd (result.status == 0) (E.contents errors.old) (E.contents errors.new) }
    ensures runs { RunsOver strict D.BlockDevice (λ s. Represents store s) (device_in store)
        (streams I.remaining W.contents E.contents input.old output.old errors.old)
        (streams I.remaining W.contents E.contents input.new output.new errors.new) result }
{
    if strict {
        let settled = run_strictly_and_close(store, input, output, errors);
        return Served {
            status: status_of_outcome(settled.outcome),
            device: settled.device,
        };
    }
    let ended = run_and_close(store, input, output, errors);
    Served {
        status: status_of(ended.went_well),
        device: ended.device,
    }
}

// The exit status of a run over a store.
fn status_of(went_well: bool) -> u8
    ensures most { result ≤ 1 }
    ensures is { (result == 0) ≡ went_well }
{
    if went_well { WENT_WELL } else { FAILED }
}

// The exit status of a strict run.
fn status_of_outcome(outcome: Outcome) -> u8
    ensures { result ≡ status_of_outcome outcome }
{
    match outcome {
        Outcome::WentWell => WENT_WELL,
        Outcome::StoppedAtLine => STOPPED,
        Outcome::Failed | Outcome::Unclosed => FAILED,
    }
}

// Says why there is no store, and hands its device back.
pub(crate) fn tell_no_store<D: BlockDevice, E: Write>(
    refusal: Refusal,
    device: D,
    errors: &mut E,
) -> Served<D>
    ensures status { result.status ≡ 1 }
    ensures device { result.device ≡ device }
    ensures told { AppendsSome (E.contents errors.old) (E.contents errors.new) (told_start refusal) }
{
    let _ = tell_start(refusal, errors);
    Served {
        status: FAILED,
        device,
    }
}

// Says why a store was not made or opened, and what to do about one that was not closed.
fn tell_start<E: Write>(refusal: Refusal, errors: &mut E) -> io::Result<()>
    ensures { Writes (E.contents errors.old) (E.contents errors.new) result (told_start refusal) }
{
    if let Refusal::NotClosed = refusal {
        return put(errors, UNCLOSED);
    }
    tell_refusal(refusal, errors)
}

// Says that a file has bytes where a new store was asked for, and hands its device back.
pub(crate) fn tell_not_empty<D: BlockDevice, E: Write>(device: D, errors: &mut E) -> Served<D>
    ensures status { result.status ≡ 1 }
    ensures device { result.device ≡ device }
{
    let _ = errors.write_all(
        b"rstore: FILE is not empty: without --create it is opened as it is\n",
    );
    Served {
        status: FAILED,
        device,
    }
}
