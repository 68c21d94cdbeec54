//! A run of the program: its session, the closing of its store, and whether it went well.

ghost use Rattle.std.specs.Prelude.{◌≡◌, IsOk, true};
ghost use Rattle.block_device.specs.Device.{Only};
ghost use Rattle.store_law.specs.Sessions.{SessionState};
ghost use Rattle.layer_store.specs.Representation.{Represents, device_in};
ghost use Rattle.command_shell.specs.Runs.{ChecksToClose, FoundSince, LeavesTablesOf, RunsToClose, TellsEnd};
ghost use Rattle.command_shell.specs.Serving.{run_state};

use crate::flushing::FlushedWrite;
use crate::session::{RunEnd, run};
use block_device::BlockDevice;
use command_language::CountedRead;
use layer_store::Store;
use reply_texts::{put, tell_refusal};
use std::alloc::Allocator;
use std::io;
use std::io::Write;

/// What is left of a run of the program.
#[derive(Drop)]
pub struct Ended<D: BlockDevice> {
    /// Whether all was read, each reply was written, and the store was closed.
    pub went_well: bool,
    /// The store's device.
    pub device: D,
}

/// Answers the lines of a reader, flushes the replies and closes the store, however the run ended. Where
/// something failed, it says so in a line to `errors`, whose own faults are passed over.
///
/// Where all went well, all that the reader had was read, each of its commands was answered by a lawful
/// session, and the device's blocks are an image of the table at its end; and a stop leaves nothing else. The
/// device is blamed in no reply unless its count of faults rose. Stops before the run may leave what they
/// might have left; each within it left blocks that opening refuses, or an image of one of the session's
/// tables.
///
/// Whatever file was opened, on an honest device: from the first `check` on that was answered ok, the rest of
/// the commands is answered lawfully, from some table on, and where all went well the blocks are an image of
/// the table at the end.
pub fn run_and_close<
    D: BlockDevice,
    A: Allocator + Copy,
    R: CountedRead,
    W: FlushedWrite,
    E: Write,
>(store: Store<D, A>, input: &mut R, output: &mut W, errors: &mut E) -> Ended<D>
    ensures run { (s : SessionState) → Represents store s → (s' : SessionState) ×
        RunsToClose result.went_well (D.shown result.device) (D.left_since result.device s.stops.since)
        (FoundSince D.recovery result.device s.stops.since)
        (D.faults result.device)
        (run_state s (R.remaining input.old) (W.contents output.old))
        (run_state s' (R.remaining input.new) (W.contents output.new))
        × LeavesTablesOf D.moment D.left_since D.recovery s' (device_in store) result.device }
    ensures checked { D.honest (device_in store) → ChecksToClose result.went_well (D.shown result.device)
        (R.remaining input.old) (R.remaining input.new) (W.contents output.old) (W.contents output.new) }
    ensures flushed { result.went_well ≡ true → W.is_flushed output.new }
    ensures told { TellsEnd result.went_well (E.contents errors.old) (E.contents errors.new) }
    ensures durable { (s : SessionState) → Represents store s → result.went_well ≡ true →
        Only (D.shown result.device) (D.may_leave result.device) }
{
    let mut store = store;
    let end = run(&mut store, input, output);
    let flushed = output.flush_out();
    match store.close() {
        Ok(device) => {
            let went_well = is_whole(end, &flushed);
            if !went_well {
                let _ = put(errors, b"rstore: input or output failed\n");
            }
            Ended { went_well, device }
        }
        Err((refusal, device)) => {
            let _ = tell_refusal(refusal, errors);
            Ended {
                went_well: false,
                device,
            }
        }
    }
}

// Whether all was read, and each reply was written.
fn is_whole(end: RunEnd, flushed: &io::Result<()>) -> bool
    ensures { result ≡ true → (end ≡ RunEnd.Finished) × IsOk flushed.now }
{
    match end {
        RunEnd::Finished => flushed.is_ok(),
        RunEnd::ReadFault | RunEnd::WriteFault => false,
    }
}
