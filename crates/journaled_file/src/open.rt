//! How a file and its journal are opened.
ghost use Rattle.std.specs.Prelude.{◌≡◌, ◌<◌, ◌≤◌, ◌↔◌, ◌⊎◌, ℕ, length, IfErr, IfOk, OnOk};
ghost use Rattle.block_device.specs.Device.{Blocks};
ghost use Rattle.device_pair.specs.Pairs.{PairLeaves, PairsNoMore};
ghost use Rattle.file_device.specs.declared.open.OpenError.TheVariants as error;
ghost use Rattle.journaled_file.specs.Ending.{AreRead, GateTorn, LeavesFinishing};
ghost use Rattle.journaled_file.specs.Judged.{HasEnded, IsJudged, IsNoJournal};
ghost use Rattle.journaled_file.specs.Opened.{LeavesRead, read_of};
ghost use Rattle.journaled_file.specs.Paired.{IsShut};
ghost use Rattle.journaled_file.specs.declared.judging.Found.TheVariants.{Ended, Unended};
ghost use Rattle.journaled_device.specs.Journaled.{inner_of, pair_of};
ghost use Rattle.committed_log.specs.declared.log.open.OpenFault.TheVariants.{Malformed};
ghost use Rattle.logged_pair.specs.Standing.{commits_of, shown_of, IsHonest};
ghost use Rattle.marked_pair.specs.Behind.{IsSynced, LeavesBase};
ghost use Rattle.marked_pair.specs.Mark.{unmarked, IsMarked};
ghost use Rattle.marked_pair.specs.Pair.{pair_of as titled_of};
ghost use Rattle.titled_pair.specs.Pair.{pair_of as files_of};

use crate::end::put_end;
use crate::judging::{Found, is_marked, judge};
use crate::looking::{Looked, StoreJudge, look, stand_in};
use crate::pairing::{JournalSource, beside_anew, pair_up};
use crate::readers::FileReaders;
use block_device::{BlockDevice, DeviceError};
use committed_log::OpenFault;
use device_pair::{DevicePair, TwoDevices};
use file_device::{
    FileDevice, HostFile, OpenError, copy_path, journal_path, make_anew, make_nameless, open_file,
    open_journal, open_shared, replace_journal, unlink_journal,
};
use journaled_device::JournaledDevice;
use marked_pair::{MarkedPair, SHUT, gate_page};
use std::alloc::{Alloc, Allocator, Global};
use std::fs::{self, File, Files};
use titled_pair::{TITLE_BLOCKS, TitledPair};

/// A base and its journal, as a device that commits.
pub type JournaledOver<P, A, G> = JournaledDevice<MarkedPair<TitledPair<P>>, A, G>;

/// A file with its journal, as such a device.
pub type JournaledFile = JournaledOver<TwoDevices<SystemFile, SystemFile>, Global, FileReaders>;

// A file or its journal.
type SystemFile = FileDevice<HostFile<File>>;

/// A file with its journal, opened.
#[derive(Drop)]
pub struct OpenedFile {
    /// Both as a device.
    pub device: JournaledFile,
    /// Where the journal lies; of a device that is only looked at none.
    pub name: Option<String>,
    /// Whether a run that was cut short had closed anything, and may have changed more.
    pub unended: bool,
}

/// Opens the file at `path` for reading and writing, and its journal beside it, which is made where there is
/// none. With `create` an empty file is made where there is none.
///
/// The lock of the file is shared with its readers, and the journal is locked alone, until they are closed. What a
/// run that was cut short had closed is brought back. A journal without entries, beside a file that needs none, is
/// made anew. Where the journal is none or another file's,
/// nothing is written into either, and so it is where no store opens over both: the device is then only looked
/// at, and is dropped and not ended.
pub fn open_journaled<R: Files<File = File> + Alloc, G: StoreJudge>(
    rt: &R,
    alloc: Global,
    path: &str,
    create: bool,
    judge: &mut G,
) -> Result<OpenedFile, OpenError> {
    let (base, lock) = open_shared(rt, path, create)?;
    let readers = FileReaders::of(lock);
    let name = journal_name(rt, alloc, path)?;
    let part = copy_path(alloc, name.as_str())?;
    let blocks = base.blocks();
    let mut source = JournalAt {
        rt,
        name: name.as_str(),
        part: part.as_str(),
        readers: &readers,
        blocks,
    };
    let looked = look(base, create, &mut source, judge, alloc)?;
    if !looked.opens {
        let none = source.nameless()?;
        return as_it_was(looked, none, alloc, readers);
    }
    let Looked {
        base,
        journal,
        found: _,
        opens: _,
    } = looked;
    let (pair, unended, begun) = pair_up(base, journal, &mut source, alloc)?;
    Ok(OpenedFile {
        device: device_over(pair, alloc, readers)?,
        name: Some(name),
        unended: unended && begun,
    })
}

// Both files as they were found, over which no store opens. The journal stays: in its place stands `none`, a file
// without a name, into which it is written anew where it has commits to bring back.
fn as_it_was(
    looked: Looked<SystemFile, SystemFile>,
    none: SystemFile,
    alloc: Global,
    readers: FileReaders,
) -> Result<OpenedFile, OpenError> {
    let Looked {
        base,
        journal,
        found,
        opens: _,
    } = looked;
    if found != Found::Own {
        return only_read(stand_in(base, none, found)?, alloc, readers);
    }
    match journal {
        Some(journal) => {
            let (pair, _journal, _) = beside_anew(TwoDevices::of(base, journal), none, alloc)?;
            only_read(pair, alloc, readers)
        }
        None => Err(OpenError::Refused),
    }
}

// A pair as a device that no one is to write.
fn only_read(
    pair: TwoDevices<SystemFile, SystemFile>,
    alloc: Global,
    readers: FileReaders,
) -> Result<OpenedFile, OpenError> {
    let device = device_over(pair, alloc, readers)?;
    Ok(OpenedFile {
        device,
        name: None,
        unended: false,
    })
}

// The path of the journal of the file that this path leads to: it lies beside the file itself, and not beside
// a link to it.
fn journal_name<R: Files<File = File> + Alloc>(
    rt: &R,
    alloc: Global,
    path: &str,
) -> Result<String, OpenError> {
    match fs::canonicalize(rt, path) {
        Ok(real) => Ok(journal_path(alloc, real.as_str())?),
        Err(_) => Err(OpenError::Refused),
    }
}

// The journal of a file, which the system opens, locks and removes by this path.
#[derive(Drop)]
struct JournalAt<'a, R> {
    rt: &'a R,
    name: &'a str,
    // where a copy of it is made
    part: &'a str,
    // of the file, and how many blocks it had when it was opened
    readers: &'a FileReaders,
    blocks: u32,
}

impl<R: Files<File = File>> JournalAt<'_, R> {
    // A journal that is locked. Where the file has got other blocks before that, another run has written it.
    fn held(&self, journal: SystemFile) -> Result<SystemFile, OpenError> {
        if self.readers.has_blocks(self.blocks) {
            Ok(journal)
        } else {
            Err(OpenError::InUse)
        }
    }

    // A file that has no name, and is gone with the run.
    fn nameless(&self) -> Result<SystemFile, OpenError> {
        make_nameless(self.rt, self.part)
    }
}

impl<R: Files<File = File>> JournalSource<SystemFile> for JournalAt<'_, R> {
    ghost is_honest = { ⊥ };

    fn open_there(&mut self) -> Result<Option<SystemFile>, OpenError> {
        match open_journal(self.rt, self.name)? {
            Some(journal) => Ok(Some(self.held(journal)?)),
            None => Ok(None),
        }
    }

    fn open(&mut self, make: bool) -> Result<SystemFile, OpenError> {
        self.held(open_file(self.rt, self.name, make)?)
    }

    fn remove(&mut self, journal: &SystemFile) -> Result<(), OpenError> {
        unlink_journal(self.rt, self.name, journal).map_err(|_| OpenError::Refused)
    }

    fn make_copy(&mut self) -> Result<SystemFile, OpenError> {
        make_anew(self.rt, self.part)
    }

    fn put_copy(&mut self, journal: &SystemFile) -> Result<(), OpenError> {
        replace_journal(self.rt, self.part, self.name, journal).map_err(|_| OpenError::Refused)
    }
}

/// Syncs both, judges, and ends a session whose journal has nothing to bring back: one whose clean end was cut
/// short, and one that has not ended. After that the base is read without its journal.
///
/// Nothing is judged that is not synced, and an end that was found is written again before anything rests on
/// it, since a sync of it may have failed.
pub fn judge_and_finish<P: DevicePair>(pair: &mut P) -> Result<Found, DeviceError>
    ensures judged { P.honest pair.old →
        IfOk result (λ found. IsJudged found (P.base pair.old) (P.journal pair.old)) }
    ensures finished { P.honest pair.old → IfOk result (λ found. (found ≡ Ended) ⊎ (found ≡ Unended) →
        IsShut (P.base pair.old) (P.base pair.new)) }
    ensures ended { P.honest pair.old → IfOk result (λ found. (found ≡ Ended) ⊎ (found ≡ Unended) →
        HasEnded (P.base pair.old) (P.journal pair.new)) }
    ensures other { P.honest pair.old → IfOk result (λ found. ¬ (found ≡ Ended) → ¬ (found ≡ Unended) →
        AreRead (P.base pair.old) (P.journal pair.old) (P.base pair.new) (P.journal pair.new)) }

    // From then on a stop leaves both as they are read.
    ensures durable { P.honest pair.old →
        IfOk result (λ _. IsSynced (P.base pair.new) (P.journal pair.new) (P.may_leave pair.new)) }
    ensures stops { P.honest pair.old →
        PairLeaves P.moment P.left_since pair.old pair.new
        (LeavesFinishing (P.may_leave pair.old) (P.base pair.old) (P.journal pair.old)) }
    ensures honest { P.honest pair.old ↔ P.honest pair.new }
{
    sync_both(pair)?;
    let found = judge(pair)?;
    if !found.is_over() {
        return Ok(found);
    }
    finish_end(pair)?;
    Ok(found)
}

/// Syncs both.
pub(crate) fn sync_both<P: DevicePair>(pair: &mut P) -> Result<(), DeviceError>
    ensures base { P.honest pair.old → P.base pair.new ≡ P.base pair.old }
    ensures journal { P.honest pair.old → P.journal pair.new ≡ P.journal pair.old }
    ensures durable { P.honest pair.old →
        OnOk result (IsSynced (P.base pair.old) (P.journal pair.old) (P.may_leave pair.new)) }
    ensures now { P.honest pair.old → PairsNoMore (P.may_leave pair.old) (P.may_leave pair.new) }
    ensures stops { P.honest pair.old →
        PairLeaves P.moment P.left_since pair.old pair.new (P.may_leave pair.old) }
    ensures honest { P.honest pair.old ↔ P.honest pair.new }
{
    pair.sync_base()?;
    pair.sync_journal()
}

// Writes the end of a base that has the mark, and then its gate, each with a sync.
fn finish_end<P: DevicePair>(pair: &mut P) -> Result<(), DeviceError>
    requires synced { P.honest pair.old →
        IsSynced (P.base pair.old) (P.journal pair.old) (P.may_leave pair.old) }
    requires over { P.honest pair.old →
        IsMarked (P.base pair.old) ⊎ HasEnded (P.base pair.old) (P.journal pair.old) }
    ensures shut { P.honest pair.old → OnOk result (IsShut (P.base pair.old) (P.base pair.new)) }
    ensures ended { P.honest pair.old → OnOk result (HasEnded (P.base pair.old) (P.journal pair.new)) }
    ensures durable { P.honest pair.old →
        OnOk result (IsSynced (P.base pair.new) (P.journal pair.new) (P.may_leave pair.new)) }
    ensures stops { P.honest pair.old →
        PairLeaves P.moment P.left_since pair.old pair.new
        (LeavesFinishing (P.may_leave pair.old) (P.base pair.old) (P.journal pair.old)) }
    ensures honest { P.honest pair.old ↔ P.honest pair.new }
{
    if !is_marked(pair)? {
        return shut_gate(pair);
    }
    if !put_end(pair)? {
        return Err(DeviceError::Failed);
    }
    shut_gate(pair)
}

/// Writes the gate of the base shut, without a mark, and syncs it. A base without blocks has none.
#[tactic(auto, using(crate::specs::FinishingLaws::shut_written, crate::specs::FinishingLaws::shut_none))]
pub(crate) fn shut_gate<P: DevicePair>(pair: &mut P) -> Result<(), DeviceError>
    ensures shut { P.honest pair.old → OnOk result (IsShut (P.base pair.old) (P.base pair.new)) }
    ensures durable { P.honest pair.old → 0 < length (P.base pair.old) →
        OnOk result (LeavesBase (P.base pair.new) (P.may_leave pair.new)) }
    ensures synced { P.honest pair.old →
        IsSynced (P.base pair.old) (P.journal pair.old) (P.may_leave pair.old) →
        OnOk result (IsSynced (P.base pair.new) (P.journal pair.new) (P.may_leave pair.new)) }
    ensures journal { P.honest pair.old → P.journal pair.new ≡ P.journal pair.old }
    ensures stops { P.honest pair.old →
        PairLeaves P.moment P.left_since pair.old pair.new (GateTorn (P.may_leave pair.old)) }
    ensures honest { P.honest pair.old ↔ P.honest pair.new }
{
    if pair.base_blocks() == 0 {
        return Ok(());
    }
    pair.write_base(0, &gate_page(SHUT))?;
    pair.sync_base()
}

/// The pair that a device lies on, as it is, and who knows of its readers.
pub(crate) fn parts_under<P: DevicePair + Drop, A: Allocator + Copy, G: Drop>(
    device: JournaledOver<P, A, G>,
) -> (P, G)
    ensures { result.0 ≡ files_of (titled_of (pair_of device)) }
{
    let (marked, readers) = device.into_parts();
    (files_under(marked), readers)
}

// The pair under its title and its mark.
fn files_under<P: DevicePair + Drop>(marked: MarkedPair<TitledPair<P>>) -> P
    ensures { result ≡ files_of (titled_of marked) }
{
    marked.into_pair().into_pair()
}

/// `open_over`, where a pair that is refused is let go.
pub(crate) fn device_over<P: DevicePair + Drop, A: Allocator + Copy, G: Drop>(
    pair: P,
    alloc: A,
    readers: G,
) -> Result<JournaledOver<P, A, G>, OpenError>
    ensures honest { IfOk result (λ d. P.honest pair ↔ IsHonest (inner_of d)) }
{
    match open_over(pair, alloc, readers, false) {
        Ok(device) => Ok(device),
        Err((error, _)) => Err(error),
    }
}

/// Opens a pair whose journal has a title. Where the pair is honest, what is then read is what recovery makes
/// of the base, a gate with the mark as a shut one, and of the journal behind its title; and a stop within
/// leaves what is read so again. Where it is refused, the pair is given back.
///
/// Nothing is copied home: the base stays as it is, its mark aside, and the journal gets no more than the first
/// blocks of a region behind those that are there. With `each_home` a sync copies each commit home, for a base that
/// others read without its journal.
pub fn open_over<P: DevicePair + Drop, A: Allocator + Copy, G: Drop>(
    pair: P,
    alloc: A,
    readers: G,
    each_home: bool,
) -> Result<JournaledOver<P, A, G>, (OpenError, P)>
    ensures shown { IfOk result (λ d. P.honest pair →
        shown_of (inner_of d) ≡ read_of (P.base pair) (P.journal pair)) }
    ensures commits { IfOk result (λ d. P.honest pair → (k : Blocks) → commits_of (inner_of d) k →
        k ≡ shown_of (inner_of d)) }
    ensures stops { IfOk result (λ d. P.honest pair → (t : ℕ) (a e : Blocks) → t ≤ P.moment pair →
        P.left_since (files_of (titled_of (pair_of d))) t a e →
        LeavesRead (P.left_since pair t) (read_of (P.base pair) (P.journal pair)) a e) }
    ensures refused_stops { IfErr result (λ r. P.honest pair → (t : ℕ) (a e : Blocks) → t ≤ P.moment pair →
        P.left_since r.1 t a e →
        LeavesRead (P.left_since pair t) (read_of (P.base pair) (P.journal pair)) a e) }
    ensures base { IfOk result (λ d. P.honest pair →
        unmarked (P.base (files_of (titled_of (pair_of d)))) ≡ unmarked (P.base pair)) }
    ensures honest { IfOk result (λ d. P.honest pair ↔ IsHonest (inner_of d)) }
    ensures refused_honest { IfErr result (λ e. P.honest pair ↔ P.honest e.1) }
    ensures refused { IfErr result (λ e. (e.0 ≡ error.NoJournal) ⊎ (e.0 ≡ error.Refused)) }
    ensures no_journal { IfErr result (λ e. P.honest pair → e.0 ≡ error.NoJournal →
        IsNoJournal (P.base pair) (P.journal pair)) }
{
    if pair.journal_blocks() < TITLE_BLOCKS {
        return Err((OpenError::NoJournal, pair));
    }
    let titled = match TitledPair::over(pair) {
        Ok(titled) => titled,
        Err((_, pair)) => return Err((OpenError::Refused, pair)),
    };
    if titled.base_blocks() < 2 && titled.journal_blocks() > 2 {
        return Err((OpenError::NoJournal, titled.into_pair()));
    }
    let marked = match MarkedPair::over(titled) {
        Ok(marked) => marked,
        Err((_, titled)) => return Err((OpenError::Refused, titled.into_pair())),
    };
    match JournaledDevice::open(marked, alloc, readers, each_home) {
        Ok(device) => Ok(device),
        Err((fault, left)) => Err((told(fault), left.into_pair().into_pair())),
    }
}

/// What is told of a fault of the journal's opening.
pub(crate) fn told(fault: OpenFault) -> OpenError
    ensures is { (result ≡ error.NoJournal) ⊎ (result ≡ error.Refused) }
    ensures malformed { result ≡ error.NoJournal → fault ≡ Malformed }
    ensures no_journal { fault ≡ Malformed → result ≡ error.NoJournal }
{
    match fault {
        OpenFault::Malformed => OpenError::NoJournal,
        OpenFault::Device(_) => OpenError::Refused,
    }
}
