//! How a run ends.
ghost use Rattle.std.specs.Prelude.{◌≡◌, ◌<◌, ◌↔◌, ◌⊎◌, true, false, length, IfOk, IfSome};
ghost use Rattle.block_device.specs.Device.{BeginsOne, written};
ghost use Rattle.device_pair.specs.Pairs.{PairLeaves};
ghost use Rattle.journaled_file.specs.Ending.{EndTorn, LeavesEnding};
ghost use Rattle.journaled_file.specs.Judged.{HasEnded, HasEntries};
ghost use Rattle.journaled_device.specs.Journaled.{inner_of, pair_of};
ghost use Rattle.logged_pair.specs.Standing.{commits_of, IsHonest};
ghost use Rattle.marked_pair.specs.Behind.{IsSynced, LeavesBase};
ghost use Rattle.marked_pair.specs.Mark.{unmarked, IsMarked};
ghost use Rattle.marked_pair.specs.Pair.{pair_of as titled_of};
ghost use Rattle.page_file.specs.Layout.{gate_block};
ghost use Rattle.titled_pair.specs.Calls.{IsQuiet};
ghost use Rattle.titled_pair.specs.Pair.{pair_of as files_of};

use crate::judging::{has_entries, is_marked};
use crate::open::{parts_under, shut_gate};
use crate::{JournaledFile, JournaledOver};
use block_device::{BlockDevice, DeviceError};
use device_pair::{DevicePair, TwoDevices};
use file_device::{FileDevice, HostFile, remove_journal};
use journaled_device::Readers;
use logged_pair::laws::what_is_home_is_the_base;
use marked_pair::MarkedPair;
use std::alloc::Allocator;
use std::fs::{File, Files};
use std::io::ErrorKind;
use titled_pair::{TitledPair, end_of_base};

/// Ends a run over a file whose journal lies at `name`: what was not committed is given up, what was is copied home,
/// the mark is taken away, and the journal is removed. Where somebody reads the file, nothing is copied, and the
/// journal stays with all that was committed; where a commit can't be finished no mark is taken away. Then, and where
/// this is cut short or fails, the next opening brings the same blocks back.
///
/// A failure of a device is answered, and memory that is refused. Another journal that can't be removed is no
/// failure: it says that the run has ended.
pub fn end_journaled<R: Files<File = File>>(
    rt: &R,
    name: &str,
    device: JournaledFile,
) -> Result<(), DeviceError> {
    // The files are locked until the journal is gone.
    match ended(device)? {
        Some((_base, journal, _readers)) => removed(rt, name, &journal),
        None => Ok(()),
    }
}

// Ends the run over a device, and gives both its files where the base is then read without its journal. It stands
// over devices of any kind, since each call over those of the system, with all that lies on them, is dear to prove.
fn ended<B: BlockDevice + Drop, J: BlockDevice + Drop, A: Allocator + Copy, G: Readers + Drop>(
    device: JournaledOver<TwoDevices<B, J>, A, G>,
) -> Result<Option<(B, J, G)>, DeviceError> {
    match end_device(device)? {
        Some((pair, readers)) => {
            let (base, journal) = pair.into_devices();
            Ok(Some((base, journal, readers)))
        }
        None => Ok(None),
    }
}

/// Ends the run over a device: what was not committed is given up, what was is copied home, and the session is
/// ended as `end_session` says. The pair is given, with who keeps readers out of it, where the base is then read
/// without its journal: its blocks begin with a commit that was there. Where somebody reads, nothing is copied and
/// none is given.
pub fn end_device<P: DevicePair + Drop, A: Allocator + Copy, G: Readers + Drop>(
    device: JournaledOver<P, A, G>,
) -> Result<Option<(P, G)>, DeviceError>
    ensures home { IfOk result (λ ended. IfSome ended (λ parts. IsHonest (inner_of device) →
        BeginsOne (commits_of (inner_of device)) (unmarked (P.base parts.0)))) }
    ensures honest { IfOk result (λ ended. IfSome ended (λ parts.
        IsHonest (inner_of device) ↔ P.honest parts.0)) }
{
    let Some((mut pair, readers)) = brought_home(device)? else {
        return Ok(None);
    };
    if end_session(&mut pair)? {
        return Ok(Some((pair, readers)));
    }
    Ok(None)
}

// The pair of a device whose base has what was committed, and no more. None where somebody reads it.
fn brought_home<P: DevicePair + Drop, A: Allocator + Copy, G: Readers + Drop>(
    device: JournaledOver<P, A, G>,
) -> Result<Option<(P, G)>, DeviceError>
    ensures begins { IfOk result (λ home. IfSome home (λ parts. IsHonest (inner_of device) →
        BeginsOne (commits_of (inner_of device)) (unmarked (P.base parts.0)))) }
    ensures honest { IfOk result (λ home. IfSome home (λ parts.
        IsHonest (inner_of device) ↔ P.honest parts.0)) }
{
    let mut device = device;
    device.forget()?;
    if !device.bring_home()? {
        return Ok(None);
    }
    what_is_home_is_the_base::<MarkedPair<TitledPair<P>>, A>();
    Ok(Some(parts_under(device)))
}

// Removes the journal, and tries it again where that is refused, since memory may be there by then.
fn removed<R: Files<File = File>>(
    rt: &R,
    name: &str,
    journal: &FileDevice<HostFile<File>>,
) -> Result<(), DeviceError> {
    if remove_journal(rt, name, journal).is_ok() {
        return Ok(());
    }
    match remove_journal(rt, name, journal) {
        Err(error) if error.kind() == ErrorKind::OutOfMemory => Err(DeviceError::Memory),
        _ => Ok(()),
    }
}

/// Takes the mark of the base away, once the journal says that the session has ended. Whether the base is
/// then read without its journal is answered: it is not where a commit was not finished, and then nothing is
/// written.
#[tactic(auto, using(crate::specs::FinishingLaws::shut_is))]
pub fn end_session<P: DevicePair>(pair: &mut P) -> Result<bool, DeviceError>
    ensures ended { P.honest pair.old → IfOk result (λ t. t ≡ true → ¬ HasEntries (P.journal pair.old)) }
    ensures not_ended { P.honest pair.old →
        IfOk result (λ t. t ≡ false → HasEntries (P.journal pair.old) ⊎ (length (P.journal pair.old) < 2)) }
    ensures left { P.honest pair.old → IfOk result (λ t. t ≡ false → P.base pair.new ≡ P.base pair.old) }
    ensures unfinished { P.honest pair.old → HasEntries (P.journal pair.old) →
        IsQuiet P.DevicePair pair.old pair.new }
    ensures shut { P.honest pair.old → IsMarked (P.base pair.old) →
        IfOk result (λ t. t ≡ true → P.base pair.new ≡ written 0 (gate_block 1) (P.base pair.old)) }
    ensures plain { P.honest pair.old → ¬ IsMarked (P.base pair.old) → P.base pair.new ≡ P.base pair.old }
    ensures durable { P.honest pair.old → IsMarked (P.base pair.old) →
        IfOk result (λ t. t ≡ true → LeavesBase (P.base pair.new) (P.may_leave pair.new)) }

    // Before its end stands in the journal, a stop leaves what one left before, and from then on a base that
    // is ending.
    ensures stops { P.honest pair.old →
        PairLeaves P.moment P.left_since pair.old pair.new
        (LeavesEnding (P.may_leave pair.old) (P.base pair.old)) }
    ensures honest { P.honest pair.old ↔ P.honest pair.new }
{
    if has_entries(pair)? {
        return Ok(false);
    }
    if !is_marked(pair)? {
        return Ok(true);
    }
    if !put_end(pair)? {
        return Ok(false);
    }
    shut_gate(pair)?;
    Ok(true)
}

// Has the journal say that the session has ended with the base as it is, all of it synced. Whether it has
// room for that is answered.
pub(crate) fn put_end<P: DevicePair>(pair: &mut P) -> Result<bool, DeviceError>
    ensures base { P.honest pair.old → P.base pair.new ≡ P.base pair.old }
    ensures end { P.honest pair.old →
        IfOk result (λ t. t ≡ true → HasEnded (P.base pair.old) (P.journal pair.new)) }
    ensures synced { P.honest pair.old →
        IfOk result (λ t. t ≡ true → IsSynced (P.base pair.new) (P.journal pair.new) (P.may_leave pair.new)) }
    ensures no_room { P.honest pair.old → IfOk result (λ t. t ≡ false → length (P.journal pair.old) < 2) }
    ensures stops { P.honest pair.old →
        PairLeaves P.moment P.left_since pair.old pair.new
        (EndTorn (P.may_leave pair.old) (P.base pair.old)) }
    ensures honest { P.honest pair.old ↔ P.honest pair.new }
{
    if pair.journal_blocks() < 2 {
        return Ok(false);
    }
    let page = end_of_base(pair)?;
    pair.sync_base()?;
    if pair.journal_blocks() < 2 {
        return Ok(false);
    }
    pair.write_journal(1, &page)?;
    pair.sync_journal()?;
    Ok(true)
}
