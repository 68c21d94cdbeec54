//! How a file and its journal are looked at, before anything is written into either.
ghost use Rattle.std.specs.Prelude.{◌≡◌, ◌≤◌, ◌↔◌, length, true, IfOk, IfSome, None};
ghost use Rattle.block_device.specs.Device.{LeavesOnly};
ghost use Rattle.committed_log.specs.Room.{blocks_of};
ghost use Rattle.device_pair.specs.Pairs.{PairLeaves};
ghost use Rattle.journaled_file.specs.Judged.{IsJudged};
ghost use Rattle.journaled_file.specs.Viewed.{CommitsNoMore, HasSlots};
ghost use Rattle.marked_pair.specs.Behind.{IsSynced};
ghost use Rattle.titled_pair.specs.Title.{untitled};
ghost use Rattle.unwritten_pair.specs.Pair.{base_of, journal_of};

use crate::judging::{Found, judge};
use crate::open::sync_both;
use crate::pairing::{JournalSource, heads_of, indexed, put_title};
use crate::viewed::{View, ViewedPair};
use block_bytes::zero_block;
use block_device::{BlockDevice, DeviceError};
use committed_log::{Slots, count_page, flag_page};
use device_pair::{DevicePair, TwoDevices};
use file_device::OpenError;
use marked_pair::{MARKED, SHUT, gate_page, reads_as};
use std::alloc::Global;
use unwritten_pair::UnwrittenPair;

/// Who opens a store over a device, and gives the device back.
pub trait StoreJudge {
    /// Tells whether a store opens over a device. Where the device or memory fails that is not known. The device
    /// comes back with the blocks that it had, and a stop of it leaves, and brings back, nothing else.
    fn opens<D: BlockDevice + Drop>(&mut self, device: D) -> (Result<bool, OpenError>, D)
        ensures shown { D.honest device → D.shown result.1 ≡ D.shown device }
        ensures stops { D.honest device →
            LeavesOnly D.moment D.left_since D.recovery device result.1 (D.may_leave device) }
        ensures honest { D.honest device → D.honest result.1 };
}

/// A file and its journal as they were looked at. Nothing was written into either.
#[derive(Drop)]
pub struct Looked<B: BlockDevice, J: BlockDevice> {
    /// The file.
    pub base: B,
    /// Its journal, where there was one to be looked at.
    pub journal: Option<J>,
    /// What that is to the file.
    pub found: Found,
    /// Whether a store opens over what recovery would make of both, or is to be made.
    pub opens: bool,
}

/// Looks at a file and at its journal, where one can be opened: both are synced and judged, and a store is
/// opened over what recovery would make of them, which is then given up. Nothing is written into either. With
/// `create` a file without blocks is not looked at, and neither is one without a journal: what is made then is
/// a journal, which takes nothing away.
///
/// `NoJournal` and `OtherJournal` come where the journal is none, or another file's. Any other error is one of
/// the devices, or of memory.
pub fn look<B: BlockDevice + Drop, J: BlockDevice + Drop, S: JournalSource<J>, G: StoreJudge>(
    base: B,
    create: bool,
    source: &mut S,
    judge: &mut G,
    alloc: Global,
) -> Result<Looked<B, J>, OpenError>
    ensures base { IfOk result (λ r. B.honest base → S.is_honest → B.shown r.base ≡ B.shown base) }
    ensures there { IfOk result (λ r. B.honest base → S.is_honest →
        IfSome r.journal (λ j. S.is_there source.old (J.shown j))) }
    ensures found { IfOk result (λ r. B.honest base → S.is_honest →
        IfSome r.journal (λ j. IsJudged r.found (B.shown base) (J.shown j))) }
    ensures honest { IfOk result (λ r. B.honest base → S.is_honest → B.honest r.base) }
    ensures journal { IfOk result (λ r. B.honest base → S.is_honest → IfSome r.journal (λ j. J.honest j)) }
{
    if create && base.blocks() == 0 {
        return Ok(unseen(base));
    }
    match source.open_there()? {
        Some(journal) => look_at(TwoDevices::of(base, journal), judge, alloc),
        None => Ok(unseen(base)),
    }
}

// A file that was not looked at.
fn unseen<B: BlockDevice + Drop, J: BlockDevice + Drop>(base: B) -> Looked<B, J>
    ensures base { result.base ≡ base }
    ensures journal { result.journal ≡ None }
{
    Looked {
        base,
        journal: None,
        found: Found::Fresh,
        opens: true,
    }
}

// Looks at a file and its journal.
fn look_at<B: BlockDevice + Drop, J: BlockDevice + Drop, G: StoreJudge>(
    pair: TwoDevices<B, J>,
    judge: &mut G,
    alloc: Global,
) -> Result<Looked<B, J>, OpenError>
    ensures base { IfOk result (λ r. ⟦<TwoDevices<B, J> as DevicePair>⟧.honest pair
        → B.shown r.base ≡ ⟦<TwoDevices<B, J> as DevicePair>⟧.base pair) }
    ensures same { IfOk result (λ r. ⟦<TwoDevices<B, J> as DevicePair>⟧.honest pair
        → IfSome r.journal (λ j. J.shown j ≡ ⟦<TwoDevices<B, J> as DevicePair>⟧.journal pair)) }
    ensures found { IfOk result (λ r. ⟦<TwoDevices<B, J> as DevicePair>⟧.honest pair
        → IsJudged r.found (⟦<TwoDevices<B, J> as DevicePair>⟧.base pair)
        (⟦<TwoDevices<B, J> as DevicePair>⟧.journal pair)) }
    ensures honest { IfOk result (λ r. ⟦<TwoDevices<B, J> as DevicePair>⟧.honest pair → B.honest r.base) }
    ensures journal { IfOk result (λ r. ⟦<TwoDevices<B, J> as DevicePair>⟧.honest pair
        → IfSome r.journal (λ j. J.honest j)) }
{
    let (found, opens, pair) = look_over(pair, judge, alloc)?;
    let (base, journal) = pair.into_devices();
    Ok(Looked {
        base,
        journal: Some(journal),
        found,
        opens,
    })
}

// The same of a pair of any kind.
fn look_over<P: DevicePair + Drop, G: StoreJudge>(
    pair: P,
    store: &mut G,
    alloc: Global,
) -> Result<(Found, bool, P), OpenError>
    ensures base { IfOk result (λ r. P.honest pair → P.base r.2 ≡ P.base pair) }
    ensures journal { IfOk result (λ r. P.honest pair → P.journal r.2 ≡ P.journal pair) }
    ensures found { IfOk result (λ r. P.honest pair → IsJudged r.0 (P.base pair) (P.journal pair)) }
    ensures honest { IfOk result (λ r. P.honest pair → P.honest r.2) }
{
    let mut pair = pair;
    let found = sync_and_judge(&mut pair)?;
    match found {
        Found::Missing => Err(OpenError::NoJournal),
        Found::Foreign => Err(OpenError::OtherJournal),
        Found::Own => {
            let (opens, pair) = look_at_commit(pair, store, alloc)?;
            Ok((Found::Own, opens, pair))
        }
        Found::Fresh | Found::Unended | Found::Ended => {
            let (opens, pair) = look_at_base(pair, found, store, alloc)?;
            Ok((found, opens, pair))
        }
    }
}

/// Syncs both, and tells what the journal is to the base: what is judged is on disk. Nothing is written.
pub(crate) fn sync_and_judge<P: DevicePair>(pair: &mut P) -> Result<Found, DeviceError>
    ensures judged { P.honest pair.old →
        IfOk result (λ found. IsJudged found (P.base pair.old) (P.journal pair.old)) }
    ensures base { P.honest pair.old → P.base pair.new ≡ P.base pair.old }
    ensures journal { P.honest pair.old → P.journal pair.new ≡ P.journal pair.old }
    ensures durable { P.honest pair.old →
        IfOk result (λ _. IsSynced (P.base pair.old) (P.journal pair.old) (P.may_leave pair.new)) }
    ensures stops { P.honest pair.old →
        PairLeaves P.moment P.left_since pair.old pair.new (P.may_leave pair.old) }
    ensures honest { P.honest pair.old ↔ P.honest pair.new }
{
    sync_both(pair)?;
    judge(pair)
}

// Opens a store over a file and the commit that its journal has.
fn look_at_commit<P: DevicePair + Drop, G: StoreJudge>(
    pair: P,
    store: &mut G,
    alloc: Global,
) -> Result<(bool, P), OpenError>
    ensures base { IfOk result (λ r. P.honest pair → P.base r.1 ≡ P.base pair) }
    ensures journal { IfOk result (λ r. P.honest pair → P.journal r.1 ≡ P.journal pair) }
    ensures honest { IfOk result (λ r. P.honest pair → P.honest r.1) }
{
    let (pair, slots) = slots_of(pair, alloc)?;
    let mut pair = pair;
    if pair.base_blocks() < 2 {
        return Err(OpenError::NoJournal);
    }
    let gate = gate_of(&mut pair)?;
    let (opens, pair) = opens_over(pair, View { gate, slots }, true, store)?;
    Ok((opens, pair))
}

// The index of the log of a pair's journal. Opening a log may append to it, which is done in memory. That the journal
// comes back as it was is asked of it where nothing says so.
fn slots_of<P: DevicePair + Drop>(pair: P, alloc: Global) -> Result<(P, Slots<Global>), OpenError>
    ensures base { IfOk result (λ r. P.honest pair → P.base r.0 ≡ P.base pair) }
    ensures journal { IfOk result (λ r. P.honest pair → P.journal r.0 ≡ P.journal pair) }
    ensures there { IfOk result (λ r. P.honest pair →
        length (blocks_of r.1) ≤ length (untitled (P.journal r.0))) }
    ensures honest { IfOk result (λ r. P.honest pair → P.honest r.0) }
{
    let mut pair = pair;
    let (title, end) = heads_of(&mut pair)?;
    let blocks = pair.journal_blocks();
    let (held, slots) = indexed(unwritten(pair, alloc)?, alloc)?;
    let mut pair = held.into_pair();
    if pair.journal_blocks() != blocks {
        return Err(OpenError::Refused);
    }
    if slots.len() + 2 > blocks as usize {
        return Err(OpenError::NoJournal);
    }
    let (same_title, same_end) = heads_of(&mut pair)?;
    if !are_same(&title, &same_title) {
        return Err(OpenError::Refused);
    }
    if !are_same(&end, &same_end) {
        return Err(OpenError::Refused);
    }
    Ok((pair, slots))
}

// Whether two blocks are the same.
fn are_same(block: &[u8; 4096], other: &[u8; 4096]) -> bool
    ensures { result ≡ true → block.now ≡ other.now }
{
    block == other
}

// Opens a store over a file whose journal has no commit to bring back.
fn look_at_base<P: DevicePair + Drop, G: StoreJudge>(
    pair: P,
    found: Found,
    store: &mut G,
    alloc: Global,
) -> Result<(bool, P), OpenError>
    ensures base { IfOk result (λ r. P.honest pair → P.base r.1 ≡ P.base pair) }
    ensures journal { IfOk result (λ r. P.honest pair → P.journal r.1 ≡ P.journal pair) }
    ensures honest { IfOk result (λ r. P.honest pair → P.honest r.1) }
{
    let mut pair = pair;
    let gate = gate_beside(&mut pair, found)?;
    let slots = Slots::new(alloc);
    let (opens, pair) = opens_over(pair, View { gate, slots }, false, store)?;
    Ok((opens, pair))
}

// The gate of a file beside such a journal: of an ended session the shut one.
fn gate_beside<P: DevicePair>(pair: &mut P, found: Found) -> Result<[u8; 4096], DeviceError>
    ensures base { P.honest pair.old → P.base pair.new ≡ P.base pair.old }
    ensures journal { P.honest pair.old → P.journal pair.new ≡ P.journal pair.old }
    ensures honest { P.honest pair.old ↔ P.honest pair.new }
{
    if found == Found::Ended && pair.base_blocks() >= 2 {
        return Ok(gate_page(SHUT));
    }
    gate_of(pair)
}

// The gate of a file, one with the mark as a shut one.
fn gate_of<P: DevicePair>(pair: &mut P) -> Result<[u8; 4096], DeviceError>
    ensures base { P.honest pair.old → P.base pair.new ≡ P.base pair.old }
    ensures journal { P.honest pair.old → P.journal pair.new ≡ P.journal pair.old }
    ensures honest { P.honest pair.old ↔ P.honest pair.new }
{
    let mut gate = zero_block();
    if pair.base_blocks() == 0 {
        return Ok(gate);
    }
    pair.read_base(0, &mut gate)?;
    if reads_as(&gate, MARKED) {
        return Ok(gate_page(SHUT));
    }
    Ok(gate)
}

// Whether a store opens over a file in a view. One that commits has the gate that is written for a shut one: a journal
// that has another, which reads as shut, is none.
fn opens_over<P: DevicePair + Drop, G: StoreJudge>(
    pair: P,
    view: View,
    commits: bool,
    store: &mut G,
) -> Result<(bool, P), OpenError>
    ensures base { IfOk result (λ r. P.honest pair → HasSlots view (P.journal pair) → P.base r.1 ≡ P.base pair) }
    ensures journal { IfOk result (λ r. P.honest pair → HasSlots view (P.journal pair) →
        P.journal r.1 ≡ P.journal pair) }
    ensures honest { IfOk result (λ r. P.honest pair → HasSlots view (P.journal pair) → P.honest r.1) }
{
    let (opens, device) = opens_device(ViewedPair::of(pair, view), commits, store)?;
    Ok((opens, device.into_pair()))
}

/// A file beside a journal without blocks, which `put_stand_in` makes one that has nothing to bring back.
pub(crate) fn stand_in<B: BlockDevice + Drop, J: BlockDevice + Drop>(
    base: B,
    journal: J,
    found: Found,
) -> Result<TwoDevices<B, J>, OpenError>
    ensures honest { IfOk result (λ pair. B.honest base → J.honest journal
        → ⟦<TwoDevices<B, J> as DevicePair>⟧.honest pair) }
{
    let mut pair = TwoDevices::of(base, journal);
    if pair.journal_blocks() != 0 {
        return Err(OpenError::Refused);
    }
    put_stand_in(&mut pair, found)?;
    Ok(pair)
}

// Makes a journal without blocks one that has nothing to bring back, or beside a file whose session has ended
// the shut gate.
fn put_stand_in<P: DevicePair>(pair: &mut P, found: Found) -> Result<(), DeviceError>
    requires none { length (P.journal pair.old) ≡ 0 }
    ensures honest { P.honest pair.old ↔ P.honest pair.new }
{
    put_title(pair)?;
    if found != Found::Ended {
        return Ok(());
    }
    if pair.base_blocks() < 2 {
        return Ok(());
    }
    append(pair, &flag_page(1))?;
    append(pair, &count_page(1))?;
    append(pair, &gate_page(SHUT))?;
    append(pair, &zero_block()) // the slot is of block 0
}

// Adds a block to a journal.
fn append<P: DevicePair>(pair: &mut P, bytes: &[u8; 4096]) -> Result<(), DeviceError>
    ensures honest { P.honest pair.old ↔ P.honest pair.new }
{
    let at = pair.journal_blocks();
    if at >= 1 << 31 {
        return Err(DeviceError::Memory);
    }
    pair.write_journal(at, bytes)
}

// A pair into which nothing is written, by what it is.
fn unwritten<P: DevicePair + Drop>(
    pair: P,
    alloc: Global,
) -> Result<UnwrittenPair<P, Global>, OpenError>
    ensures base { IfOk result (λ d. P.honest pair → base_of d ≡ P.base pair) }
    ensures journal { IfOk result (λ d. P.honest pair → journal_of d ≡ P.journal pair) }
    ensures honest { IfOk result (λ d. P.honest pair → ⟦<UnwrittenPair<P, Global> as DevicePair>⟧.honest d) }
{
    match UnwrittenPair::over(pair, alloc) {
        Ok(pair) => Ok(pair),
        Err((fault, _)) => Err(fault.into()),
    }
}

// Whether a store opens over a device. One that commits has the gate that is written for a shut one.
fn opens_device<D: BlockDevice + Drop, G: StoreJudge>(
    device: D,
    commits: bool,
    store: &mut G,
) -> Result<(bool, D), OpenError>
    ensures commits { IfOk result (λ r. D.honest device → CommitsNoMore D.recovery device r.1) }
    ensures honest { IfOk result (λ r. D.honest device → D.honest r.1) }
{
    let (opens, device) = store.opens(device);
    let opens = opens?;
    let mut device = device;
    if opens && commits {
        check_gate(&mut device)?;
    }
    Ok((opens, device))
}

// Refuses a gate that is another block than the one that is written for a shut gate.
fn check_gate<D: BlockDevice>(device: &mut D) -> Result<(), OpenError>
    ensures commits { D.honest device.old → CommitsNoMore D.recovery device.old device.new }
    ensures honest { D.honest device.old ↔ D.honest device.new }
{
    if device.blocks() == 0 {
        return Err(OpenError::NoJournal);
    }
    let mut gate = zero_block();
    device.read(0, &mut gate)?;
    if gate == gate_page(SHUT) {
        Ok(())
    } else {
        Err(OpenError::NoJournal)
    }
}
