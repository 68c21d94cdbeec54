//! The index of a log that is only read: the home of each block of its regions.
ghost use Rattle.std.specs.Prelude.{◌≡◌, ◌≤◌, ◌<◌, ◌+◌, ◌/◌, ◌%◌, ◌++◌, ℕ, Some, None, true, false, drop};
ghost use Rattle.std.specs.Prelude.{length, IfOk, IsErrOf, OnOk};
ghost use Rattle.std.specs.List.{All};
ghost use Rattle.block_device.specs.Device.{Blocks, block_at};
ghost use Rattle.committed_log.specs.Log.{count_in, home_in, homes_in, index_blocks, region_of, says};
ghost use Rattle.committed_log.specs.Log.{size_of, slot_homes};
ghost use Rattle.committed_log.specs.Opening.{IsMalformed};
ghost use Rattle.committed_log.specs.Room.{blocks_of, HasRoomFor};
ghost use Rattle.committed_log.specs.declared.log.open.OpenFault.TheVariants as fault;
ghost use Rattle.snapshot_reader.specs.Reading.{AreRead, IsBrokenBelow};

use block_bytes::{read_u32, zero_block};
use block_device::DeviceError;
use committed_log::{HOMES, OpenFault, Slots, push_none, region_blocks, says_committed};
use read_only_device::BlockReader;
use std::alloc::Allocator;

/// Reads the index of a log over a base of so many blocks.
pub(crate) fn read_index<J: BlockReader, A: Allocator + Copy>(
    journal: &J,
    limit: u32,
    alloc: A,
) -> Result<Slots<A>, OpenFault>
    ensures there { IfOk result (λ s. length (blocks_of s) ≤ length (J.shown journal.now)) }
    ensures homes { IfOk result (λ s. J.honest journal.now → blocks_of s ≡ homes_in (J.shown journal.now)) }
    ensures malformed { J.honest journal.now → IsErrOf result fault.Malformed →
        (a : Blocks) → length a ≡ limit → IsMalformed a (J.shown journal.now) }
    ensures well_formed { IfOk result (λ s. J.honest journal.now →
        (a : Blocks) → length a ≡ limit → ¬ IsMalformed a (J.shown journal.now)) }
{
    let mut slots = Slots::new(alloc);
    'regions: while read_region(journal, limit, &mut slots)? {}
    Ok(slots)
}

// Takes in the region behind the others where it is committed. Tells whether it was.
fn read_region<J: BlockReader, A: Allocator + Copy>(
    journal: &J,
    limit: u32,
    slots: &mut Slots<A>,
) -> Result<bool, OpenFault>
    requires there { length (blocks_of slots.old) ≤ length (J.shown journal.now) }
    ensures there { OnOk result (length (blocks_of slots.new) ≤ length (J.shown journal.now)) }
    ensures more { IfOk result (λ t. t ≡ true → length (blocks_of slots.old) < length (blocks_of slots.new)) }
    ensures read { J.honest journal.now → OnOk result (AreRead limit (blocks_of slots.old) (J.shown journal.now) →
        AreRead limit (blocks_of slots.new) (J.shown journal.now)) }
    ensures unsaid { J.honest journal.now → IfOk result (λ t. t ≡ false →
        says (block_at 0 (drop (length (blocks_of slots.new)) (J.shown journal.now))) ≡ false) }
    ensures malformed { J.honest journal.now → IsErrOf result fault.Malformed →
        IsBrokenBelow limit (drop (length (blocks_of slots.old)) (J.shown journal.now)) }
{
    let Some(n) = read_count(journal, slots.len())? else {
        return Ok(false);
    };
    take_region(journal, limit, n, slots)?;
    Ok(true)
}

// Reads whether the region behind the first `start` blocks is committed, and how many slots it has then.
fn read_count<J: BlockReader>(journal: &J, start: usize) -> Result<Option<u32>, OpenFault>
    requires there { start ≤ length (J.shown journal.now) }
    ensures none { J.honest journal.now →
        IfOk result (λ r. r ≡ None → says (block_at 0 (drop start (J.shown journal.now))) ≡ false) }
    ensures said { J.honest journal.now → IfOk result (λ r. (n : ℕ) → r ≡ Some n →
        says (block_at 0 (drop start (J.shown journal.now))) ≡ true) }
    ensures count { J.honest journal.now → IfOk result (λ r. (n : ℕ) → r ≡ Some n →
        n ≡ count_in (drop start (J.shown journal.now))) }
    ensures room { IfOk result (λ r. (n : ℕ) → r ≡ Some n →
        start + (2 + n + index_blocks n) ≤ length (J.shown journal.now)) }
    ensures malformed { J.honest journal.now → IsErrOf result fault.Malformed →
        (says (block_at 0 (drop start (J.shown journal.now))) ≡ true) ×
        (length (drop start (J.shown journal.now)) < size_of (drop start (J.shown journal.now))) }
{
    let behind = journal.blocks() as usize - start;
    if behind == 0 {
        return Ok(None);
    }
    let mut page = zero_block();
    read_behind(journal, start, 0, &mut page)?;
    if !says_committed(&page) {
        return Ok(None);
    }
    if behind < 2 {
        return Err(OpenFault::Malformed);
    }
    read_behind(journal, start, 1, &mut page)?;
    let n = read_u32(&page, 8);
    if region_blocks(n as usize) > behind {
        return Err(OpenFault::Malformed);
    }
    Ok(Some(n))
}

// Reads block i of those behind the first `start`.
fn read_behind<J: BlockReader>(
    journal: &J,
    start: usize,
    i: usize,
    into: &mut [u8; 4096],
) -> Result<(), DeviceError>
    requires { start + i < length (J.shown journal.now) }
    ensures { J.honest journal.now →
        OnOk result (into.new ≡ block_at i (drop start (J.shown journal.now))) }
{
    journal.read((start + i) as u32, into)
}

// Takes in the region behind the others, which has n slots.
fn take_region<J: BlockReader, A: Allocator + Copy>(
    journal: &J,
    limit: u32,
    n: u32,
    slots: &mut Slots<A>,
) -> Result<(), OpenFault>
    requires { length (blocks_of slots.old) + (2 + n + index_blocks n) ≤ length (J.shown journal.now) }
    ensures many { OnOk result (length (blocks_of slots.new) ≡
        length (blocks_of slots.old) + (2 + n + index_blocks n)) }
    ensures homes { J.honest journal.now → OnOk result (blocks_of slots.new ≡ blocks_of slots.old
        ++ region_of (slot_homes n 0 n (drop (length (blocks_of slots.old)) (J.shown journal.now)))) }
    ensures below { J.honest journal.now → OnOk result (All (λ h. h < limit)
        (slot_homes n 0 n (drop (length (blocks_of slots.old)) (J.shown journal.now)))) }
    ensures malformed { J.honest journal.now → IsErrOf result fault.Malformed → ¬ All (λ h. h < limit)
        (slot_homes n 0 n (drop (length (blocks_of slots.old)) (J.shown journal.now))) }
{
    let start = slots.len();
    slots.reserve(region_blocks(n as usize))?;
    push_none(slots, 2);
    push_homes(journal, start, limit, n, slots)?;
    push_none(slots, (n as usize).div_ceil(HOMES));
    Ok(())
}

// Adds the n slots of the region behind the first `start` blocks, each of which has to have a block of the base as
// its home.
fn push_homes<J: BlockReader, A: Allocator + Copy>(
    journal: &J,
    start: usize,
    limit: u32,
    n: u32,
    slots: &mut Slots<A>,
) -> Result<(), OpenFault>
    requires there { start + (2 + n + index_blocks n) ≤ length (J.shown journal.now) }
    requires room { HasRoomFor n slots.old }
    ensures many { OnOk result (length (blocks_of slots.new) ≡ length (blocks_of slots.old) + n) }
    ensures slots { J.honest journal.now → OnOk result (blocks_of slots.new ≡ blocks_of slots.old
        ++ slot_homes n 0 n (drop start (J.shown journal.now))) }
    ensures room { OnOk result ((m : ℕ) → HasRoomFor (m + n) slots.old → HasRoomFor m slots.new) }
    ensures below { J.honest journal.now →
        OnOk result (All (λ h. h < limit) (slot_homes n 0 n (drop start (J.shown journal.now)))) }
    ensures malformed { J.honest journal.now → IsErrOf result fault.Malformed →
        ¬ All (λ h. h < limit) (slot_homes n 0 n (drop start (J.shown journal.now))) }
{
    let mut page = zero_block();
    for k in 0..n {
        let home = read_home(journal, start, n, k, &mut page)?;
        if home >= limit {
            return Err(OpenFault::Malformed);
        }
        slots.push(home);
    }
    Ok(())
}

// Reads the home of slot k of n of the region behind the first `start` blocks. The page holds the index block of
// the slot before it, where it is the same.
fn read_home<J: BlockReader>(
    journal: &J,
    start: usize,
    n: u32,
    k: u32,
    page: &mut [u8; 4096],
) -> Result<u32, DeviceError>
    requires there { start + (2 + n + index_blocks n) ≤ length (J.shown journal.now) }
    requires within { k < n }
    requires held { J.honest journal.now → 0 < k % 1024 →
        page.old ≡ block_at (2 + n + k / 1024) (drop start (J.shown journal.now)) }
    ensures held { J.honest journal.now →
        OnOk result (page.new ≡ block_at (2 + n + k / 1024) (drop start (J.shown journal.now))) }
    ensures home { J.honest journal.now →
        IfOk result (λ h. h ≡ home_in n k (drop start (J.shown journal.now))) }
{
    turn_index(journal, start, n, k, page)?;
    Ok(read_u32(page, 4 * (k as usize % HOMES)))
}

// Has the page hold the index block of slot k of n, where it holds that of the slot before it.
fn turn_index<J: BlockReader>(
    journal: &J,
    start: usize,
    n: u32,
    k: u32,
    page: &mut [u8; 4096],
) -> Result<(), DeviceError>
    requires there { start + (2 + n + index_blocks n) ≤ length (J.shown journal.now) }
    requires within { k < n }
    requires held { J.honest journal.now → 0 < k % 1024 →
        page.old ≡ block_at (2 + n + k / 1024) (drop start (J.shown journal.now)) }
    ensures { J.honest journal.now →
        OnOk result (page.new ≡ block_at (2 + n + k / 1024) (drop start (J.shown journal.now))) }
{
    if k as usize % HOMES > 0 {
        return Ok(());
    }
    read_behind(journal, start, 2 + n as usize + k as usize / HOMES, page)
}
