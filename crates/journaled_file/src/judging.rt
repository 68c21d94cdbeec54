//! What a base and the file beside it are, as they are found.
ghost use Rattle.std.specs.Prelude.{◌≡◌, ◌<◌, ◌≤◌, ◌↔◌, ◌⊎◌, true, false, length, IfOk};
ghost use Rattle.block_device.specs.Device.{block_at};
ghost use Rattle.journaled_file.specs.Judged.{HasEnded, HasEntries, IsJudged};
ghost use Rattle.journaled_file.specs.declared.judging.Found.TheVariants.{Ended, Unended};
ghost use Rattle.marked_pair.specs.Mark.{IsMarked};
ghost use Rattle.titled_pair.specs.Calls.{IsQuiet};
ghost use Rattle.titled_pair.specs.Title.{reads_title};

use block_bytes::zero_block;
use block_device::DeviceError;
use committed_log::says_committed;
use device_pair::DevicePair;
use marked_pair::{MARKED, reads_as};
use titled_pair::{TITLE_BLOCKS, end_of_base, is_title, retitled_page, title_of_base};

// How many blocks a journal has at most that never had an entry: its title, its end, a gate and a count.
const EMPTY_BLOCKS: u32 = TITLE_BLOCKS + 2;

/// What the file that has the name of a base's journal is to the base.
#[derive(Clone, Copy, Debug, PartialEq, Eq, Drop)]
pub enum Found {
    /// The base is read without it: it never had an entry or is empty again, or its making was cut short.
    Fresh,
    /// The base's journal, which has a commit to bring back.
    Own,
    /// The journal of a base that has the mark, empty again: its session has not ended.
    Unended,
    /// Its journal, whose session has ended but for the base's gate.
    Ended,
    /// No journal, where there is to be one, or is another file.
    Missing,
    /// The journal of another base.
    Foreign,
}

impl Found {
    // Whether a session is over, or is to be, whose journal has nothing to bring back.
    pub(crate) fn is_over(self) -> bool
        ensures over { result ≡ true → (self ≡ Ended) ⊎ (self ≡ Unended) }
        ensures not_ended { result ≡ false → ¬ (self ≡ Ended) }
        ensures not_unended { result ≡ false → ¬ (self ≡ Unended) }
    {
        matches!(self, Found::Ended | Found::Unended)
    }
}

/// Tells what the journal of a pair is to its base (docs/FORMAT.md, "The journal", "Files"). Nothing is
/// written. It fails where the pair does.
pub fn judge<P: DevicePair>(pair: &mut P) -> Result<Found, DeviceError>
    ensures judged { P.honest pair.old →
        IfOk result (λ found. IsJudged found (P.base pair.old) (P.journal pair.old)) }
    ensures quiet { P.honest pair.old → IsQuiet P.DevicePair pair.old pair.new }
    ensures honest { P.honest pair.old ↔ P.honest pair.new }
{
    let marked = is_marked(pair)?;
    let blocks = pair.journal_blocks();
    if blocks < TITLE_BLOCKS {
        return Ok(if marked { Found::Missing } else { Found::Fresh });
    }
    let mut title = zero_block();
    pair.read_journal(0, &mut title)?;
    if !is_title(&title) {
        let cut_short = !marked && blocks == TITLE_BLOCKS;
        return Ok(if cut_short {
            Found::Fresh
        } else {
            Found::Missing
        });
    }
    judge_titled(pair, marked, &title)
}

// The same of a journal that has this title.
fn judge_titled<P: DevicePair>(
    pair: &mut P,
    marked: bool,
    title: &[u8; 4096],
) -> Result<Found, DeviceError>
    requires room { P.honest pair.old → 2 ≤ length (P.journal pair.old) }
    requires marked { P.honest pair.old → marked ≡ true → IsMarked (P.base pair.old) }
    requires unmarked { P.honest pair.old → marked ≡ false → ¬ IsMarked (P.base pair.old) }
    requires title { P.honest pair.old → title.now ≡ block_at 0 (P.journal pair.old) }
    requires reads { reads_title title.now ≡ true }
    ensures judged { P.honest pair.old →
        IfOk result (λ found. IsJudged found (P.base pair.old) (P.journal pair.old)) }
    ensures quiet { P.honest pair.old → IsQuiet P.DevicePair pair.old pair.new }
    ensures honest { P.honest pair.old ↔ P.honest pair.new }
{
    if has_ended(pair)? {
        return Ok(Found::Ended);
    }
    let complete = has_entries(pair)?;
    if marked && !complete {
        return Ok(Found::Unended);
    }
    if marked {
        return Ok(Found::Own);
    }
    if pair.journal_blocks() <= EMPTY_BLOCKS {
        return Ok(Found::Fresh);
    }
    // Also one that is empty again: the file that it is of has the mark, and is not read without it. A base
    // without a header never brings about an entry, though a session that made its file has the same title.
    if pair.base_blocks() < 2 || retitled_page(title) != title_of_base(pair)? {
        return Ok(Found::Foreign);
    }
    Ok(if complete { Found::Own } else { Found::Fresh })
}

/// Whether the gate of the base has the mark of a run that has not ended.
pub(crate) fn is_marked<P: DevicePair>(pair: &mut P) -> Result<bool, DeviceError>
    ensures marked { P.honest pair.old → IfOk result (λ t. t ≡ true → IsMarked (P.base pair.old)) }
    ensures unmarked { P.honest pair.old → IfOk result (λ t. t ≡ false → ¬ IsMarked (P.base pair.old)) }
    ensures quiet { P.honest pair.old → IsQuiet P.DevicePair pair.old pair.new }
    ensures honest { P.honest pair.old ↔ P.honest pair.new }
{
    if pair.base_blocks() == 0 {
        return Ok(false);
    }
    let mut gate = zero_block();
    pair.read_base(0, &mut gate)?;
    Ok(reads_as(&gate, MARKED))
}

// Whether the journal says that its session has ended with this base.
fn has_ended<P: DevicePair>(pair: &mut P) -> Result<bool, DeviceError>
    requires room { P.honest pair.old → 2 ≤ length (P.journal pair.old) }
    ensures is { P.honest pair.old →
        IfOk result (λ t. t ≡ true → HasEnded (P.base pair.old) (P.journal pair.old)) }
    ensures none { P.honest pair.old →
        IfOk result (λ t. t ≡ false → ¬ HasEnded (P.base pair.old) (P.journal pair.old)) }
    ensures quiet { P.honest pair.old → IsQuiet P.DevicePair pair.old pair.new }
    ensures honest { P.honest pair.old ↔ P.honest pair.new }
{
    if pair.journal_blocks() < TITLE_BLOCKS {
        return Ok(false);
    }
    let mut end = zero_block();
    pair.read_journal(1, &mut end)?;
    Ok(end == end_of_base(pair)?)
}

/// Whether the journal is complete behind its title, and may have entries.
pub(crate) fn has_entries<P: DevicePair>(pair: &mut P) -> Result<bool, DeviceError>
    ensures is { P.honest pair.old → IfOk result (λ t. t ≡ true → HasEntries (P.journal pair.old)) }
    ensures none { P.honest pair.old → IfOk result (λ t. t ≡ false → ¬ HasEntries (P.journal pair.old)) }
    ensures quiet { P.honest pair.old → IsQuiet P.DevicePair pair.old pair.new }
    ensures honest { P.honest pair.old ↔ P.honest pair.new }
{
    if pair.journal_blocks() <= EMPTY_BLOCKS {
        return Ok(false);
    }
    let mut gate = zero_block();
    pair.read_journal(TITLE_BLOCKS, &mut gate)?;
    Ok(says_committed(&gate))
}
