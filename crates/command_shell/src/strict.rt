//! A strict run of the program: it stops at the first refused line, and then closes nothing.

ghost use Rattle.std.specs.Prelude.{◌≡◌, ◌⊎◌};
ghost use Rattle.block_device.specs.Device.{LeavesOnly};
ghost use Rattle.store_law.specs.Sessions.{SessionState};
ghost use Rattle.layer_store.specs.Checked.{Standing};
ghost use Rattle.layer_store.specs.Representation.{Represents, StandsAs, device_in};
ghost use Rattle.live_layers.specs.Image.{IsRefusedOrImageOf};
ghost use Rattle.command_shell.specs.Runs.{LeavesTablesOf};
ghost use Rattle.command_shell.specs.Strict.{IsLeft, RunsToSettle, SettlesInImage, TellsOutcome};
ghost use Rattle.command_shell.specs.declared.session.LinesEnd.{LinesEnd};
ghost use Rattle.command_shell.specs.declared.session.LinesEnd.TheVariants.{Ran, Stopped};
ghost use Rattle.command_shell.specs.declared.session.RunEnd.TheVariants.{Finished};

use crate::flushing::FlushedWrite;
use crate::session::{LinesEnd, RunEnd, run_strictly};
use block_device::BlockDevice;
use command_language::CountedRead;
use layer_store::Store;
use reply_texts::{Stop, put, tell_refusal, tell_stop};
use std::alloc::Allocator;
use std::io::Write;

/// How a strict run of the program ended.
#[derive(Clone, Copy, Debug, PartialEq, Eq)]
pub enum Outcome {
    /// All was read, no line was refused, each reply was written, and the store was closed.
    WentWell,
    /// A line was refused. Each reply was written, and nothing was closed.
    StoppedAtLine,
    /// Reading or writing failed, and nothing was closed.
    Failed,
    /// No line was refused and each reply was written, and the closing was refused.
    Unclosed,
}

/// What is left of a strict run of the program.
#[derive(Drop)]
pub struct Settled<D: BlockDevice> {
    /// How it ended.
    pub outcome: Outcome,
    /// The store's device.
    pub device: D,
}

/// Answers the lines of a reader up to the first that is refused, and flushes the replies. Where none was
/// refused, all was read and each reply was written, it closes the store; **and else it gives the store up,
/// so that nothing is closed but what a `reopen` closed that was answered ok.** Where not all went well, it
/// says so in a line to `errors`, whose own faults are passed over.
///
/// Whatever file was opened, on an honest device: from the first `check` on that was answered ok, the rest of
/// the commands is answered lawfully, from some table on, and where all went well the blocks are an image of
/// the table at the end.
pub fn run_strictly_and_close<
    D: BlockDevice,
    A: Allocator + Copy,
    R: CountedRead,
    W: FlushedWrite,
    E: Write,
>(store: Store<D, A>, input: &mut R, output: &mut W, errors: &mut E) -> Settled<D>
    ensures settles { RunsToSettle D.BlockDevice (λ s. Represents store s) result.outcome (device_in store)
        result.device (R.remaining input.old) (R.remaining input.new) (W.contents output.old)
        (W.contents output.new) (E.contents errors.old) (E.contents errors.new) }
    ensures flushed { (result.outcome ≡ Outcome.Failed) ⊎ W.is_flushed output.new }
{
    let mut store = store;
    let end = run_strictly(&mut store, input, output);
    if output.flush_out().is_err() {
        return give_up(store, errors);
    }
    match end {
        LinesEnd::Ran(end) => settle(store, end, errors),
        LinesEnd::Stopped(stop) => stop_there(store, &stop, errors),
    }
}

// Closes a store where all was read, and else gives it up.
fn settle<D: BlockDevice, A: Allocator + Copy, E: Write>(
    store: Store<D, A>,
    end: RunEnd,
    errors: &mut E,
) -> Settled<D>
    ensures told { TellsOutcome (Ran end) result.outcome (E.contents errors.old) (E.contents errors.new) }
    ensures left { (s : SessionState) → Represents store s →
        IsLeft D.BlockDevice result.outcome s.stops.since result.device s }
    ensures image { (s : Standing) → StandsAs store s →
        SettlesInImage result.outcome (D.shown result.device) s }
    ensures leaves { (s : SessionState) (first : D) → Represents store s →
        LeavesOnly D.moment D.left_since D.recovery first (device_in store)
        (IsRefusedOrImageOf s.stops.so_far) →
        LeavesTablesOf D.moment D.left_since D.recovery s first result.device }
{
    match end {
        RunEnd::Finished => close(store, errors),
        RunEnd::ReadFault | RunEnd::WriteFault => give_up(store, errors),
    }
}

// Gives up a store, and says that reading or writing failed.
fn give_up<D: BlockDevice, A: Allocator + Copy, E: Write>(
    store: Store<D, A>,
    errors: &mut E,
) -> Settled<D>
    ensures told { (end : LinesEnd) →
        TellsOutcome end result.outcome (E.contents errors.old) (E.contents errors.new) }
    ensures is { result.outcome ≡ Outcome.Failed }
    ensures left { (s : SessionState) → Represents store s →
        IsLeft D.BlockDevice result.outcome s.stops.since result.device s }
    ensures image { (s : Standing) → StandsAs store s →
        SettlesInImage result.outcome (D.shown result.device) s }
    ensures leaves { (s : SessionState) (first : D) → Represents store s →
        LeavesOnly D.moment D.left_since D.recovery first (device_in store)
        (IsRefusedOrImageOf s.stops.so_far) →
        LeavesTablesOf D.moment D.left_since D.recovery s first result.device }
{
    let _ = put(errors, b"rstore: input or output failed\n");
    Settled {
        outcome: Outcome::Failed,
        device: store.abandon(),
    }
}

// Gives up a store, and says at which line the run stopped.
fn stop_there<D: BlockDevice, A: Allocator + Copy, E: Write>(
    store: Store<D, A>,
    stop: &Stop,
    errors: &mut E,
) -> Settled<D>
    ensures told { TellsOutcome (Stopped stop.now) result.outcome (E.contents errors.old)
        (E.contents errors.new) }
    ensures left { (s : SessionState) → Represents store s →
        IsLeft D.BlockDevice result.outcome s.stops.since result.device s }
    ensures image { (s : Standing) → StandsAs store s →
        SettlesInImage result.outcome (D.shown result.device) s }
    ensures leaves { (s : SessionState) (first : D) → Represents store s →
        LeavesOnly D.moment D.left_since D.recovery first (device_in store)
        (IsRefusedOrImageOf s.stops.so_far) →
        LeavesTablesOf D.moment D.left_since D.recovery s first result.device }
{
    let _ = tell_stop(stop, errors);
    Settled {
        outcome: Outcome::StoppedAtLine,
        device: store.abandon(),
    }
}

// Closes a store, and says so where it is refused.
fn close<D: BlockDevice, A: Allocator + Copy, E: Write>(
    store: Store<D, A>,
    errors: &mut E,
) -> Settled<D>
    ensures told { TellsOutcome (Ran Finished) result.outcome (E.contents errors.old)
        (E.contents errors.new) }
    ensures left { (s : SessionState) → Represents store s →
        IsLeft D.BlockDevice result.outcome s.stops.since result.device s }
    ensures image { (s : Standing) → StandsAs store s →
        SettlesInImage result.outcome (D.shown result.device) s }
    ensures leaves { (s : SessionState) (first : D) → Represents store s →
        LeavesOnly D.moment D.left_since D.recovery first (device_in store)
        (IsRefusedOrImageOf s.stops.so_far) →
        LeavesTablesOf D.moment D.left_since D.recovery s first result.device }
{
    match store.close() {
        Ok(device) => Settled {
            outcome: Outcome::WentWell,
            device,
        },
        Err((refusal, device)) => {
            let _ = tell_refusal(refusal, errors);
            Settled {
                outcome: Outcome::Unclosed,
                device,
            }
        }
    }
}
