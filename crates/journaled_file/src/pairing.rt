//! How a file gets its journal: the one that is there, or a new one.
ghost use Rattle.std.specs.Prelude.{◌≡◌, ◌<◌, ◌≤◌, ◌↔◌, ⊤, ℕ, List, true, false, length, take, IfOk, IfSome, OnOk};
ghost use Rattle.block_device.specs.Device.{Blocks, block_at, written};
ghost use Rattle.committed_log.specs.Log.{homes_in, overlaid, recovered};
ghost use Rattle.committed_log.specs.Room.{blocks_of};
ghost use Rattle.device_pair.specs.Pairs.{PairLeaves};
ghost use Rattle.journaled_file.specs.Ending.{GateTorn};
ghost use Rattle.journaled_file.specs.Judged.{IsJudged, IsOf};
ghost use Rattle.journaled_file.specs.Opened.{read_of};
ghost use Rattle.journaled_file.specs.Paired.{HasBegunEmpty, HasBegunNoMore, IsAnew, IsMarkedAnew, IsNew};
ghost use Rattle.journaled_file.specs.Paired.{IsPaired, IsRewritten, LeavesOwnGate};
ghost use Rattle.journaled_file.specs.declared.judging.Found.TheVariants.{Own};
ghost use Rattle.marked_pair.specs.Mark.{reads_as, unmarked, IsMarked};
ghost use Rattle.titled_pair.specs.Calls.{IsQuiet};
ghost use Rattle.titled_pair.specs.Title.{title_text, untitled, with_text};

use crate::judging::{Found, is_marked};
use crate::open::{judge_and_finish, told};
use block_bytes::{write_u8, zero_block};
use block_device::{BlockDevice, DeviceError};
use committed_log::laws::the_index_is_that_of_the_journal;
use committed_log::{CommittedLog, Slots};
use device_pair::{DevicePair, TwoDevices};
use file_device::OpenError;
use logged_pair::write_newest;
use marked_pair::{MARKED, gate_page, reads_as};
use std::alloc::Global;
use titled_pair::{TITLE_BLOCKS, TitledPair, make_title, retitled_page, title_of_base};

/// Who opens the journal of a file, locks it and removes it.
pub trait JournalSource<J: BlockDevice> {
    /// Each journal that it gives is honest.
    ghost is_honest: { Type 0 };

    /// What the blocks of the journal that is there may be. A caller knows nothing else of them: one who promises this
    /// of a journal has the blocks that were opened.
    ghost is_there: { Self → Blocks → Type 0 } = { λ _ _. ⊤ };

    /// Opens the journal that is there, with its folder synced. None where the system opens none: `open` tells
    /// why. Nothing is made.
    fn open_there(&mut self) -> Result<Option<J>, OpenError>
        ensures there { is_honest → IfOk result (λ there. IfSome there (λ journal.
            is_there self.old (J.shown journal))) }
        ensures honest { is_honest → IfOk result (λ there. IfSome there (λ journal. J.honest journal)) };

    /// Opens the journal, or with `make` an empty one where there is none.
    fn open(&mut self, make: bool) -> Result<J, OpenError>
        ensures honest { is_honest → IfOk result (λ journal. J.honest journal) };

    /// Removes this journal, which is open and stays so. It is gone for good once `open` has made another.
    fn remove(&mut self, journal: &J) -> Result<(), OpenError>;

    /// Makes an empty file for a copy of the journal, and locks it. One that was left is removed.
    fn make_copy(&mut self) -> Result<J, OpenError>
        ensures honest { is_honest → IfOk result (λ copy. J.honest copy) };

    /// Puts that file in the place of this journal: a stop leaves the one or the other, and the copy once this
    /// has answered `Ok`.
    fn put_copy(&mut self, journal: &J) -> Result<(), OpenError>;
}

/// Gives a file its journal, which may be open, and tells whether the last run over it had closed anything and
/// not ended; and whether it had begun more than it had committed, where that stands in the journal. The journal
/// that is there is judged with it (`judge_and_finish`); one that is needless is removed, and made anew. One that
/// has commits to bring back is written anew, with the newest slot of each block alone, into a new file, which takes
/// its place: what is read of it may have been lost by a sync that failed, and all that is brought back rests on it.
///
/// `NoJournal` and `OtherJournal` come where the journal is none, or another file's: then nothing is written
/// into either. Any other error is one of the source or of the devices.
pub fn pair_up<B: BlockDevice + Drop, J: BlockDevice + Drop, S: JournalSource<J>>(
    base: B,
    there: Option<J>,
    source: &mut S,
    alloc: Global,
) -> Result<(TwoDevices<B, J>, bool, bool), OpenError>
    ensures paired { IfOk result (λ r. B.honest base → S.is_honest → IfSome there (λ j. J.honest j)
        → (journal : Blocks) × IfSome there (λ j. journal ≡ J.shown j)
        × IsPaired (B.shown base) journal (⟦<TwoDevices<B, J> as DevicePair>⟧.base r.0)
        (⟦<TwoDevices<B, J> as DevicePair>⟧.journal r.0) r.1 r.2) }
    ensures anew { IfOk result (λ r. ⟦<TwoDevices<B, J> as DevicePair>⟧.honest r.0
        → HasBegunEmpty (⟦<TwoDevices<B, J> as DevicePair>⟧.moment r.0)
        (⟦<TwoDevices<B, J> as DevicePair>⟧.left_since r.0)) }
    ensures honest { IfOk result (λ r. B.honest base → S.is_honest → IfSome there (λ j. J.honest j)
        → ⟦<TwoDevices<B, J> as DevicePair>⟧.honest r.0) }
{
    let mut base = base;
    let marked = has_mark(&mut base)?;
    let journal = journal_of(there, marked, source)?;
    let mut pair = TwoDevices::of(base, journal);
    match judge_and_finish(&mut pair)? {
        Found::Own => {
            let (pair, begun) = rewritten(pair, source, alloc)?;
            Ok((pair, marked, begun))
        }
        Found::Unended => Ok((renewed(pair, source)?, true, true)),
        Found::Fresh | Found::Ended => Ok((renewed(pair, source)?, false, false)),
        Found::Missing => Err(OpenError::NoJournal),
        Found::Foreign => Err(OpenError::OtherJournal),
    }
}

// The journal of a file: the one that is open, or it is opened or made. A file that has the mark can't be read
// without its journal.
fn journal_of<J: BlockDevice + Drop, S: JournalSource<J>>(
    there: Option<J>,
    marked: bool,
    source: &mut S,
) -> Result<J, OpenError>
    ensures same { IfOk result (λ journal. IfSome there (λ j. journal ≡ j)) }
    ensures honest { IfOk result (λ journal. S.is_honest → IfSome there (λ j. J.honest j) → J.honest journal) }
{
    if let Some(journal) = there {
        return Ok(journal);
    }
    match source.open(!marked) {
        Err(error) if marked && error.is_of_system() => Err(OpenError::NoJournal),
        opened => opened,
    }
}

// Whether the gate of a file has the mark of a run that has not ended.
fn has_mark<D: BlockDevice>(base: &mut D) -> Result<bool, DeviceError>
    ensures marked { D.honest base.old → IfOk result (λ t. t ≡ true → IsMarked (D.shown base.old)) }
    ensures unmarked { D.honest base.old → IfOk result (λ t. t ≡ false → ¬ IsMarked (D.shown base.old)) }
    ensures shown { D.honest base.old → D.shown base.new ≡ D.shown base.old }
    ensures honest { D.honest base.old ↔ D.honest base.new }
{
    if base.blocks() == 0 {
        return Ok(false);
    }
    let mut gate = [0; 4096];
    base.read(0, &mut gate)?;
    Ok(reads_as(&gate, MARKED))
}

// The pair with a journal that is made anew, and has a title.
fn renewed<B: BlockDevice + Drop, J: BlockDevice + Drop, S: JournalSource<J>>(
    pair: TwoDevices<B, J>,
    source: &mut S,
) -> Result<TwoDevices<B, J>, OpenError>
    ensures honest { IfOk result (λ new. ⟦<TwoDevices<B, J> as DevicePair>⟧.honest pair → S.is_honest
        → ⟦<TwoDevices<B, J> as DevicePair>⟧.honest new) }
    ensures base { IfOk result (λ new. ⟦<TwoDevices<B, J> as DevicePair>⟧.honest pair → S.is_honest
        → ⟦<TwoDevices<B, J> as DevicePair>⟧.base new ≡ ⟦<TwoDevices<B, J> as DevicePair>⟧.base pair) }
    ensures new { IfOk result (λ new. ⟦<TwoDevices<B, J> as DevicePair>⟧.honest new
        → IsNew (⟦<TwoDevices<B, J> as DevicePair>⟧.base new)
        (⟦<TwoDevices<B, J> as DevicePair>⟧.journal new)) }
    ensures anew { IfOk result (λ new. ⟦<TwoDevices<B, J> as DevicePair>⟧.honest new
        → HasBegunEmpty (⟦<TwoDevices<B, J> as DevicePair>⟧.moment new)
        (⟦<TwoDevices<B, J> as DevicePair>⟧.left_since new)) }
{
    let mut pair = pair;
    if pair.journal_blocks() != 0 {
        let (base, old) = pair.into_devices();
        source.remove(&old)?;
        drop(old);
        pair = TwoDevices::of(base, source.open(true)?);
    }
    if pair.journal_blocks() != 0 {
        return Err(OpenError::Refused); // another program made it meanwhile
    }
    put_title(&mut pair)?;
    Ok(pair)
}

/// Makes the title of a journal without blocks.
pub(crate) fn put_title<P: DevicePair>(pair: &mut P) -> Result<(), DeviceError>
    requires none { length (P.journal pair.old) ≡ 0 }
    ensures base { P.honest pair.old → P.base pair.new ≡ P.base pair.old }
    ensures new { P.honest pair.old → OnOk result (IsNew (P.base pair.new) (P.journal pair.new)) }
    ensures anew { P.honest pair.old → HasBegunEmpty (P.moment pair.new) (P.left_since pair.new) }
    ensures honest { P.honest pair.old ↔ P.honest pair.new }
{
    make_title(pair)
}

// The pair with its journal, which has commits, written anew, and with a mark that is on disk; and whether more was
// begun than was committed.
fn rewritten<B: BlockDevice + Drop, J: BlockDevice + Drop, S: JournalSource<J>>(
    pair: TwoDevices<B, J>,
    source: &mut S,
    alloc: Global,
) -> Result<(TwoDevices<B, J>, bool), OpenError>
    ensures honest { IfOk result (λ r. ⟦<TwoDevices<B, J> as DevicePair>⟧.honest pair → S.is_honest
        → ⟦<TwoDevices<B, J> as DevicePair>⟧.honest r.0) }
    ensures own { IfOk result (λ r. ⟦<TwoDevices<B, J> as DevicePair>⟧.honest pair → S.is_honest
        → IsJudged Own (⟦<TwoDevices<B, J> as DevicePair>⟧.base pair) (⟦<TwoDevices<B, J> as DevicePair>⟧.journal pair)
        → IsRewritten (⟦<TwoDevices<B, J> as DevicePair>⟧.base pair) (⟦<TwoDevices<B, J> as DevicePair>⟧.base r.0)
        (⟦<TwoDevices<B, J> as DevicePair>⟧.journal r.0)) }
    ensures read { IfOk result (λ r. ⟦<TwoDevices<B, J> as DevicePair>⟧.honest pair → S.is_honest
        → read_of (⟦<TwoDevices<B, J> as DevicePair>⟧.base r.0) (⟦<TwoDevices<B, J> as DevicePair>⟧.journal r.0)
        ≡ read_of (⟦<TwoDevices<B, J> as DevicePair>⟧.base pair)
        (⟦<TwoDevices<B, J> as DevicePair>⟧.journal pair)) }
    ensures no_more { IfOk result (λ r. ⟦<TwoDevices<B, J> as DevicePair>⟧.honest pair → S.is_honest
        → r.1 ≡ false → HasBegunNoMore (⟦<TwoDevices<B, J> as DevicePair>⟧.journal pair)) }
    ensures anew { IfOk result (λ r. ⟦<TwoDevices<B, J> as DevicePair>⟧.honest r.0
        → HasBegunEmpty (⟦<TwoDevices<B, J> as DevicePair>⟧.moment r.0)
        (⟦<TwoDevices<B, J> as DevicePair>⟧.left_since r.0)) }
{
    let (pair, old, begun) = beside_anew(pair, source.make_copy()?, alloc)?;
    source.put_copy(&old)?;
    drop(old);
    let mut pair = pair;
    renew_mark(&mut pair)?;
    Ok((pair, begun))
}

/// A base beside its journal written anew into one without blocks: the title, with the text of today, since programs
/// that write another know a journal of one region alone; the end; and the newest slot of each block, as one region. It
/// is written whole and synced. With it comes the journal that it had, and whether more was begun there than was
/// committed.
pub(crate) fn beside_anew<B: BlockDevice + Drop, J: BlockDevice + Drop, K: BlockDevice + Drop>(
    pair: TwoDevices<B, J>,
    copy: K,
    alloc: Global,
) -> Result<(TwoDevices<B, K>, J, bool), OpenError>
    ensures honest { IfOk result (λ r. ⟦<TwoDevices<B, J> as DevicePair>⟧.honest pair → K.honest copy
        → ⟦<TwoDevices<B, K> as DevicePair>⟧.honest r.0) }
    ensures base { IfOk result (λ r. ⟦<TwoDevices<B, J> as DevicePair>⟧.honest pair → K.honest copy
        → ⟦<TwoDevices<B, K> as DevicePair>⟧.base r.0 ≡ ⟦<TwoDevices<B, J> as DevicePair>⟧.base pair) }
    ensures read { IfOk result (λ r. ⟦<TwoDevices<B, J> as DevicePair>⟧.honest pair → K.honest copy
        → (a : Blocks) → length a ≡ length (⟦<TwoDevices<B, J> as DevicePair>⟧.base pair)
        → recovered a (untitled (⟦<TwoDevices<B, K> as DevicePair>⟧.journal r.0))
        ≡ recovered a (untitled (⟦<TwoDevices<B, J> as DevicePair>⟧.journal pair))) }
    ensures own { IfOk result (λ r. ⟦<TwoDevices<B, J> as DevicePair>⟧.honest pair → K.honest copy → (a : Blocks)
        → IsJudged Own a (⟦<TwoDevices<B, J> as DevicePair>⟧.journal pair)
        → IsJudged Own a (⟦<TwoDevices<B, K> as DevicePair>⟧.journal r.0)) }
    ensures synced { IfOk result (λ r. ⟦<TwoDevices<B, K> as DevicePair>⟧.honest r.0 → (a e : Blocks)
        → ⟦<TwoDevices<B, K> as DevicePair>⟧.may_leave r.0 a e
        → e ≡ ⟦<TwoDevices<B, K> as DevicePair>⟧.journal r.0) }
    ensures no_more { IfOk result (λ r. ⟦<TwoDevices<B, J> as DevicePair>⟧.honest pair → r.2 ≡ false
        → HasBegunNoMore (⟦<TwoDevices<B, J> as DevicePair>⟧.journal pair)) }
    ensures anew { IfOk result (λ r. ⟦<TwoDevices<B, K> as DevicePair>⟧.honest r.0
        → HasBegunEmpty (⟦<TwoDevices<B, K> as DevicePair>⟧.moment r.0)
        (⟦<TwoDevices<B, K> as DevicePair>⟧.left_since r.0)) }
{
    let mut pair = pair;
    let front = front_of(&mut pair)?;
    let (pair, slots) = indexed(pair, alloc)?;
    let begun = pair.journal_blocks() as usize > slots.len() + 4;
    let (base, mut old) = pair.into_devices();
    let mut pair = TwoDevices::of(base, copy);
    if pair.journal_blocks() != 0 {
        return Err(OpenError::Refused); // another program made it meanwhile
    }
    put_anew(&mut old, &slots, &front, &mut pair)?;
    Ok((pair, old, begun))
}

// Title, with the text of today, and end of a journal.
#[derive(Drop)]
struct Front {
    title: [u8; 4096],
    end: [u8; 4096],
}

// Those of the journal of a pair.
fn front_of<P: DevicePair>(pair: &mut P) -> Result<Front, OpenError>
    ensures room { P.honest pair.old → OnOk result (2 ≤ length (P.journal pair.old)) }
    ensures title { P.honest pair.old →
        IfOk result (λ front. front.title ≡ with_text title_text (block_at 0 (P.journal pair.old))) }
    ensures end { P.honest pair.old → IfOk result (λ front. front.end ≡ block_at 1 (P.journal pair.old)) }
    ensures quiet { P.honest pair.old → IsQuiet P.DevicePair pair.old pair.new }
    ensures honest { P.honest pair.old ↔ P.honest pair.new }
{
    let (title, end) = heads_of(pair)?;
    Ok(Front {
        title: retitled_page(&title),
        end,
    })
}

/// Title and end of the journal of a pair.
pub(crate) fn heads_of<P: DevicePair>(pair: &mut P) -> Result<([u8; 4096], [u8; 4096]), OpenError>
    ensures room { P.honest pair.old → OnOk result (2 ≤ length (P.journal pair.old)) }
    ensures title { P.honest pair.old → IfOk result (λ r. r.0 ≡ block_at 0 (P.journal pair.old)) }
    ensures end { P.honest pair.old → IfOk result (λ r. r.1 ≡ block_at 1 (P.journal pair.old)) }
    ensures quiet { P.honest pair.old → IsQuiet P.DevicePair pair.old pair.new }
    ensures honest { P.honest pair.old ↔ P.honest pair.new }
{
    if pair.journal_blocks() < TITLE_BLOCKS {
        return Err(OpenError::NoJournal);
    }
    let mut title = zero_block();
    pair.read_journal(0, &mut title)?;
    if pair.journal_blocks() < TITLE_BLOCKS {
        return Err(OpenError::NoJournal);
    }
    let mut end = zero_block();
    pair.read_journal(1, &mut end)?;
    Ok((title, end))
}

// The index of the log of a pair's journal, which opening may append to.
pub(crate) fn indexed<P: DevicePair + Drop>(
    pair: P,
    alloc: Global,
) -> Result<(P, Slots<Global>), OpenError>
    ensures base { IfOk result (λ r. P.honest pair → P.base r.0 ≡ P.base pair) }
    ensures read { IfOk result (λ r. P.honest pair → (a : Blocks) →
        overlaid (blocks_of r.1) (untitled (P.journal r.0)) a ≡ recovered a (untitled (P.journal pair))) }
    ensures homes { IfOk result (λ r. P.honest pair → blocks_of r.1 ≡ homes_in (untitled (P.journal pair))) }
    ensures begins { IfOk result (λ r. P.honest pair → take (length (untitled (P.journal pair)))
        (untitled (P.journal r.0)) ≡ untitled (P.journal pair)) }
    ensures honest { IfOk result (λ r. P.honest pair ↔ P.honest r.0) }
{
    let blocks = pair.journal_blocks();
    if blocks < TITLE_BLOCKS {
        return Err(OpenError::NoJournal);
    }
    let titled = match TitledPair::over(pair) {
        Ok(titled) => titled,
        Err((fault, _)) => return Err(fault.into()),
    };
    let log = match CommittedLog::open(titled, alloc) {
        Ok(log) => log,
        Err((fault, _)) => return Err(told(fault)),
    };
    let (titled, slots) = log.into_parts();
    if slots.len() + 2 > blocks as usize {
        return Err(OpenError::NoJournal);
    }
    the_index_is_that_of_the_journal::<TitledPair<P>, Global>();
    Ok((titled.into_pair(), slots))
}

// Writes title, end and the newest slots of a journal into one without blocks, and syncs it.
fn put_anew<J: BlockDevice, P: DevicePair>(
    from: &mut J,
    slots: &Slots<Global>,
    front: &Front,
    pair: &mut P,
) -> Result<(), DeviceError>
    requires none { length (P.journal pair.old) ≡ 0 }
    ensures read { J.honest from.old → P.honest pair.old → OnOk result ((a : Blocks) →
        length a ≡ length (P.base pair.old) → recovered a (untitled (P.journal pair.new))
        ≡ overlaid (blocks_of slots.now) (untitled (J.shown from.old)) a) }
    ensures front { P.honest pair.old → OnOk result (IsAnew front.now.title front.now.end (P.journal pair.new)) }
    ensures base { P.honest pair.old → P.base pair.new ≡ P.base pair.old }
    ensures synced { P.honest pair.old → OnOk result ((a e : Blocks) → P.may_leave pair.new a e →
        e ≡ P.journal pair.new) }
    ensures anew { P.honest pair.old → OnOk result (HasBegunEmpty (P.moment pair.new) (P.left_since pair.new)) }
    ensures honest { P.honest pair.old ↔ P.honest pair.new }
{
    pair.write_journal(0, &front.title)?;
    if pair.journal_blocks() != 1 {
        return Err(DeviceError::Memory);
    }
    pair.write_journal(1, &front.end)?;
    write_newest(from, slots, pair)
}

// Writes the mark again, with other bytes, where the base's header is as its journal's title has it. There no
// other block was written behind a mark that a run had synced, so the one that is read may not be on disk; and
// such a base is known without one. Elsewhere a block was, and so the mark is.
fn renew_mark<P: DevicePair>(pair: &mut P) -> Result<(), DeviceError>
    ensures own { P.honest pair.old → IsJudged Own (P.base pair.old) (P.journal pair.old) →
        OnOk result (IsJudged Own (P.base pair.new) (P.journal pair.new)) }
    ensures shown { P.honest pair.old →
        OnOk result (unmarked (P.base pair.new) ≡ unmarked (P.base pair.old)) }
    ensures sure { P.honest pair.old →
        OnOk result (IsMarkedAnew (P.base pair.old) (P.base pair.new) (P.journal pair.new)) }
    ensures journal { P.honest pair.old → P.journal pair.new ≡ P.journal pair.old }
    ensures stops { P.honest pair.old →
        PairLeaves P.moment P.left_since pair.old pair.new
        (LeavesOwnGate (P.may_leave pair.old) (P.base pair.old) (P.journal pair.old)) }
    ensures honest { P.honest pair.old ↔ P.honest pair.new }
{
    if !is_marked(pair)? {
        return Ok(());
    }
    if pair.base_blocks() < 2 {
        return Ok(());
    }
    if !has_its_title(pair)? {
        return Ok(());
    }
    put_other_mark(pair)
}

// Writes the mark with other bytes than it has, and syncs it.
fn put_other_mark<P: DevicePair>(pair: &mut P) -> Result<(), DeviceError>
    ensures marked { P.honest pair.old → OnOk result ((b : List ℕ) × (reads_as 2 b ≡ true)
        × (¬ (b ≡ block_at 0 (P.base pair.old))) × (P.base pair.new ≡ written 0 b (P.base pair.old))) }
    ensures shown { P.honest pair.old → IsMarked (P.base pair.old) →
        OnOk result (unmarked (P.base pair.new) ≡ unmarked (P.base pair.old)) }
    ensures journal { P.honest pair.old → P.journal pair.new ≡ P.journal pair.old }
    ensures stops { P.honest pair.old →
        PairLeaves P.moment P.left_since pair.old pair.new (GateTorn (P.may_leave pair.old)) }
    ensures honest { P.honest pair.old ↔ P.honest pair.new }
{
    if pair.base_blocks() == 0 {
        return Err(DeviceError::Failed);
    }
    let mut gate = zero_block();
    pair.read_base(0, &mut gate)?;
    let mark = other_mark(&gate)?;
    if pair.base_blocks() == 0 {
        return Err(DeviceError::Failed);
    }
    pair.write_base(0, &mark)?;
    pair.sync_base()?;
    Ok(())
}

// Whether the journal's title is the one of the base.
fn has_its_title<P: DevicePair>(pair: &mut P) -> Result<bool, DeviceError>
    ensures is { P.honest pair.old →
        IfOk result (λ t. t ≡ true → IsOf (P.base pair.old) (P.journal pair.old)) }
    ensures other { P.honest pair.old →
        IfOk result (λ t. t ≡ false → ¬ IsOf (P.base pair.old) (P.journal pair.old)) }
    ensures quiet { P.honest pair.old → IsQuiet P.DevicePair pair.old pair.new }
    ensures honest { P.honest pair.old ↔ P.honest pair.new }
{
    let title = title_of_base(pair)?;
    if pair.journal_blocks() == 0 {
        return Err(DeviceError::Failed);
    }
    let mut found = zero_block();
    pair.read_journal(0, &mut found)?;
    Ok(retitled_page(&found) == title)
}

// A gate with the mark that is another block than this one.
fn other_mark(gate: &[u8; 4096]) -> Result<[u8; 4096], DeviceError>
    ensures marked { IfOk result (λ mark. reads_as 2 mark ≡ true) }
    ensures other { IfOk result (λ mark. ¬ (mark ≡ gate.now)) }
{
    let mark = mark_beside(gate);
    if !reads_as(&mark, MARKED) {
        return Err(DeviceError::Failed);
    }
    if mark == *gate {
        return Err(DeviceError::Failed);
    }
    Ok(mark)
}

// The gate that is written with the mark first, or behind it another byte.
fn mark_beside(gate: &[u8; 4096]) -> [u8; 4096] {
    let mut mark = gate_page(MARKED);
    if mark == *gate {
        write_u8(&mut mark, 9, 1);
    }
    mark
}
