//! A base beside its journal, as it is read.
ghost use Rattle.std.specs.Prelude.{◌≡◌, ◌⊎◌, [], length, IfErr, IfOk, IfSome, IsErrOf};
ghost use Rattle.block_device.specs.declared.device.DeviceError.TheVariants as device_fault;
ghost use Rattle.file_device.specs.declared.open.OpenError.TheVariants as error;
ghost use Rattle.journaled_file.specs.Judged.{IsJudged, IsNoJournal};
ghost use Rattle.journaled_file.specs.Opened.{read_of};
ghost use Rattle.journaled_file.specs.declared.judging.Found.TheVariants.{Foreign, Missing};
ghost use Rattle.marked_pair.specs.Mark.{unmarked, IsMarked};
ghost use Rattle.snapshot_file.specs.Beside.{beside};
ghost use Rattle.snapshot_file.specs.Shown.{IsSnapshot};

use crate::{UnmarkedReader, UntitledReader};
use block_device::DeviceError;
use committed_log::OpenFault;
use device_pair::TwoDevices;
use file_device::OpenError;
use journaled_file::{Found, judge};
use read_only_device::{BlockReader, HeldBlocks, ReadOnlyDevice};
use snapshot_reader::SnapshotReader;
use std::alloc::Global;

/// A base as it is read through what its journal has committed.
pub type Snapshot<B, J> = SnapshotReader<UnmarkedReader<B>, UntitledReader<J>>;

/// Reads what the journal is to the base, and its log where that has commits to bring back. Both are only read.
///
/// Where both readers are honest, what is shown is as docs/FORMAT.md says, "Files". `NoJournal` comes where there is
/// no journal and is to be one, where it has entries beside a base without a header, or where its log is none;
/// `OtherJournal` where it is another base's. Any other error is of a reader, or of memory.
pub fn snapshot_over<B: BlockReader + Drop, J: BlockReader + Drop>(
    base: B,
    journal: Option<J>,
    alloc: Global,
) -> Result<Snapshot<B, J>, OpenError>
    ensures shown { IfOk result (λ s. B.honest base → IfSome journal J.honest →
        IsSnapshot (B.shown base) (beside J.shown journal) (⟦<Snapshot<B, J> as BlockReader>⟧.shown s)) }
    ensures honest { IfOk result (λ s. B.honest base → IfSome journal J.honest →
        ⟦<Snapshot<B, J> as BlockReader>⟧.honest s) }
    ensures no_journal { IsErrOf result error.NoJournal → B.honest base → IfSome journal J.honest →
        IsJudged Missing (B.shown base) (beside J.shown journal)
        ⊎ IsNoJournal (B.shown base) (beside J.shown journal) }
    ensures other_journal { IsErrOf result error.OtherJournal → B.honest base → IfSome journal J.honest →
        IsJudged Foreign (B.shown base) (beside J.shown journal) }
    ensures only { IfErr result (λ e. (e ≡ error.NoJournal) ⊎ ((e ≡ error.OtherJournal)
        ⊎ ((e ≡ error.Refused) ⊎ (e ≡ error.Memory)))) }
{
    match found_beside(&base, &journal, alloc)? {
        Found::Missing => Err(OpenError::NoJournal),
        Found::Foreign => Err(OpenError::OtherJournal),
        Found::Own => through_log(base, journal, alloc),
        Found::Fresh | Found::Unended => without_log(base, alloc),
        Found::Ended => alone(UnmarkedReader::shut(base), alloc),
    }
}

// What the journal is to the base, where there is one, and else a file without blocks.
fn found_beside<B: BlockReader, J: BlockReader>(
    base: &B,
    journal: &Option<J>,
    alloc: Global,
) -> Result<Found, OpenError>
    ensures judged { IfOk result (λ found. B.honest base.now → IfSome journal.now J.honest →
        IsJudged found (B.shown base.now) (beside J.shown journal.now)) }
    ensures only { IfErr result (λ e. (e ≡ error.Refused) ⊎ (e ≡ error.Memory)) }
{
    let answer = match journal {
        Some(journal) => judged(base, journal),
        None => judged_alone(base, alloc),
    };
    match answer {
        Ok(found) => Ok(found),
        Err(fault) => Err(told(fault)),
    }
}

// What a file without blocks is to the base.
fn judged_alone<B: BlockReader>(base: &B, alloc: Global) -> Result<Found, DeviceError>
    ensures { IfOk result (λ found. B.honest base.now → IsJudged found (B.shown base.now) []) }
{
    match HeldBlocks::over(Vec::new(alloc)) {
        Some(none) => judged(base, &none),
        None => Err(DeviceError::Memory),
    }
}

// What a journal is to the base.
fn judged<B: BlockReader, J: BlockReader>(base: &B, journal: &J) -> Result<Found, DeviceError>
    ensures { IfOk result (λ found. B.honest base.now → J.honest journal.now →
        IsJudged found (B.shown base.now) (J.shown journal.now)) }
{
    let mut pair = TwoDevices::of(ReadOnlyDevice::over(base), ReadOnlyDevice::over(journal));
    judge(&mut pair)
}

// The base, a gate with the mark as a shut one.
fn unmarked_base<B: BlockReader + Drop>(base: B) -> Result<UnmarkedReader<B>, OpenError>
    ensures shown { IfOk result (λ r. B.honest base →
        ⟦<UnmarkedReader<B> as BlockReader>⟧.shown r ≡ unmarked (B.shown base)) }
    ensures many { IfOk result (λ r.
        length (⟦<UnmarkedReader<B> as BlockReader>⟧.shown r) ≡ length (B.shown base)) }
    ensures honest { IfOk result (λ r. B.honest base → ⟦<UnmarkedReader<B> as BlockReader>⟧.honest r) }
    ensures only { IfErr result (λ e. (e ≡ error.Refused) ⊎ (e ≡ error.Memory)) }
{
    match UnmarkedReader::over(base) {
        Ok(reader) => Ok(reader),
        Err(fault) => Err(told(fault)),
    }
}

// A base that is read without a log, a gate with the mark as a shut one.
fn without_log<B: BlockReader + Drop, J: BlockReader + Drop>(
    base: B,
    alloc: Global,
) -> Result<Snapshot<B, J>, OpenError>
    ensures shown { IfOk result (λ s. B.honest base →
        ⟦<Snapshot<B, J> as BlockReader>⟧.shown s ≡ unmarked (B.shown base)) }
    ensures plain { IfOk result (λ s. B.honest base → ¬ IsMarked (B.shown base) →
        ⟦<Snapshot<B, J> as BlockReader>⟧.shown s ≡ B.shown base) }
    ensures honest { IfOk result (λ s. B.honest base → ⟦<Snapshot<B, J> as BlockReader>⟧.honest s) }
    ensures only { IfErr result (λ e. (e ≡ error.Refused) ⊎ (e ≡ error.Memory)) }
{
    alone(unmarked_base(base)?, alloc)
}

// A base that is read without a log, as it is given.
fn alone<B: BlockReader + Drop, J: BlockReader + Drop>(
    base: UnmarkedReader<B>,
    alloc: Global,
) -> Result<Snapshot<B, J>, OpenError>
    ensures shown { IfOk result (λ s. ⟦<Snapshot<B, J> as BlockReader>⟧.shown s
        ≡ ⟦<UnmarkedReader<B> as BlockReader>⟧.shown base) }
    ensures honest { IfOk result (λ s. ⟦<UnmarkedReader<B> as BlockReader>⟧.honest base →
        ⟦<Snapshot<B, J> as BlockReader>⟧.honest s) }
    ensures only { IfErr result (λ e. (e ≡ error.Refused) ⊎ (e ≡ error.Memory)) }
{
    match SnapshotReader::open(base, UntitledReader::behind(None), alloc) {
        Ok(snapshot) => Ok(snapshot),
        Err((OpenFault::Device(fault), _, _)) => Err(told(fault)),
        Err((OpenFault::Malformed, _, _)) => Err(OpenError::Refused), // a log without blocks is well formed
    }
}

// A base that is read through the log of its journal.
fn through_log<B: BlockReader + Drop, J: BlockReader + Drop>(
    base: B,
    journal: Option<J>,
    alloc: Global,
) -> Result<Snapshot<B, J>, OpenError>
    ensures shown { IfOk result (λ s. B.honest base → IfSome journal J.honest →
        ⟦<Snapshot<B, J> as BlockReader>⟧.shown s ≡ read_of (B.shown base) (beside J.shown journal)) }
    ensures honest { IfOk result (λ s. B.honest base → IfSome journal J.honest →
        ⟦<Snapshot<B, J> as BlockReader>⟧.honest s) }
    ensures no_journal { IsErrOf result error.NoJournal → B.honest base → IfSome journal J.honest →
        IsNoJournal (B.shown base) (beside J.shown journal) }
    ensures only { IfErr result (λ e. (e ≡ error.NoJournal) ⊎ ((e ≡ error.Refused) ⊎ (e ≡ error.Memory))) }
{
    let base = unmarked_base(base)?;
    let log = UntitledReader::behind(journal);
    if base.blocks() < 2 && log.blocks() > 2 {
        return Err(OpenError::NoJournal);
    }
    match SnapshotReader::open(base, log, alloc) {
        Ok(snapshot) => Ok(snapshot),
        Err((OpenFault::Device(fault), _, _)) => Err(told(fault)),
        Err((OpenFault::Malformed, _, _)) => Err(OpenError::NoJournal),
    }
}

// What is told of a reader's fault.
fn told(fault: DeviceError) -> OpenError
    ensures refused { fault ≡ device_fault.Failed → result ≡ error.Refused }
    ensures memory { fault ≡ device_fault.Memory → result ≡ error.Memory }
    ensures only { (result ≡ error.Refused) ⊎ (result ≡ error.Memory) }
{
    match fault {
        DeviceError::Failed => OpenError::Refused,
        DeviceError::Memory => OpenError::Memory,
    }
}
