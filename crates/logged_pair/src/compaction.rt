//! A log written anew, as one region that has the newest slot of each block.
ghost use Rattle.std.specs.Prelude.{◌≡◌, ◌<◌, ◌≤◌, ◌+◌, ◌^◌, ◌++◌, ◌∷◌, ◌↔◌, ℕ, List, [], true, drop, length};
ghost use Rattle.std.specs.Prelude.{IfOk, OnOk};
ghost use Rattle.block_device.specs.Device.{Blocks, block_at};
ghost use Rattle.committed_log.specs.Log.{count_block, flag_block, index_blocks, overlaid, recovered, says};
ghost use Rattle.committed_log.specs.Room.{blocks_of};
ghost use Rattle.logged_pair.specs.Compaction.{AreIndex, AreListed, AreNewest, IsNewest, Lists, WritesJournal};

use crate::pair::index_page;
use block_bytes::zero_block;
use block_device::{BlockDevice, DeviceError};
use committed_log::{HOMES, Slots, count_page, flag_page};
use device_pair::DevicePair;
use std::alloc::Allocator;

/// Writes a log anew behind the blocks of a journal, as one region that has the newest slot of each block, and syncs
/// it. The log is that of `from`, behind as many blocks as the journal has, and `slots` is its index. Nothing of the
/// base is written. After an error the journal may hold anything.
///
/// Through the new log each base of so many blocks is read as it is through the old one.
pub fn write_newest<J: BlockDevice, P: DevicePair, A: Allocator + Copy>(
    from: &mut J,
    slots: &Slots<A>,
    pair: &mut P,
) -> Result<(), DeviceError>
    ensures read { J.honest from.old → P.honest pair.old → OnOk result ((a : Blocks) →
        length a ≡ length (P.base pair.old) →
        recovered a (drop (length (P.journal pair.old)) (P.journal pair.new))
        ≡ overlaid (blocks_of slots.now) (drop (length (P.journal pair.old)) (J.shown from.old)) a) }
    ensures begins { P.honest pair.old → OnOk result ((log : Blocks)
        × (P.journal pair.new ≡ P.journal pair.old ++ log) × (says (block_at 0 log) ≡ true) × (4 ≤ length log)) }
    ensures synced { P.honest pair.old → OnOk result ((a b : Blocks) → P.may_leave pair.new a b →
        b ≡ P.journal pair.new) }
    ensures writes { P.honest pair.old → WritesJournal P.DevicePair pair.old pair.new }
    ensures honest { P.honest pair.old ↔ P.honest pair.new }
{
    let front = pair.journal_blocks() as usize;
    let homes = listed(slots, pair.base_blocks())?;
    put_head(pair, homes.len())?;
    put_slots(from, slots, &homes, front, pair)?;
    put_index(&homes, pair)?;
    put_end(pair)
}

// The blocks, of so many, that have a slot, in order.
fn listed<A: Allocator + Copy>(slots: &Slots<A>, limit: u32) -> Result<Vec<u32, A>, DeviceError>
    ensures { IfOk result (λ homes. AreListed (blocks_of slots.now) limit homes.items) }
{
    let mut homes = Vec::new(*slots.allocator());
    for i in 0..limit {
        list(slots, i, &mut homes)?;
    }
    Ok(homes)
}

// Adds a block that has a slot.
fn list<A: Allocator + Copy>(
    slots: &Slots<A>,
    i: u32,
    homes: &mut Vec<u32, A>,
) -> Result<(), DeviceError>
    ensures { OnOk result (Lists (blocks_of slots.now) i homes.old.items homes.new.items) }
{
    if slots.slot_of(i).is_some() {
        homes.push(i)?;
    }
    Ok(())
}

// Adds a block to a journal.
fn append<P: DevicePair>(pair: &mut P, bytes: &[u8; 4096]) -> Result<(), DeviceError>
    ensures added { P.honest pair.old →
        OnOk result (P.journal pair.new ≡ P.journal pair.old ++ bytes.now ∷ []) }
    ensures writes { P.honest pair.old → WritesJournal P.DevicePair pair.old pair.new }
    ensures honest { P.honest pair.old ↔ P.honest pair.new }
{
    let at = pair.journal_blocks();
    if at >= 1 << 31 {
        return Err(DeviceError::Memory);
    }
    pair.write_journal(at, bytes)
}

// Adds the flag of a region that is committed, and the count of its slots.
fn put_head<P: DevicePair>(pair: &mut P, count: usize) -> Result<(), DeviceError>
    ensures small { OnOk result (count < 2 ^ 31) }
    ensures added { P.honest pair.old → OnOk result
        (P.journal pair.new ≡ P.journal pair.old ++ flag_block 1 ∷ count_block count ∷ []) }
    ensures writes { P.honest pair.old → WritesJournal P.DevicePair pair.old pair.new }
    ensures honest { P.honest pair.old ↔ P.honest pair.new }
{
    if count >= 1 << 31 {
        return Err(DeviceError::Memory);
    }
    append(pair, &flag_page(1))?;
    append(pair, &count_page(count as u32))
}

// Adds the newest slots of these blocks.
fn put_slots<J: BlockDevice, P: DevicePair, A: Allocator + Copy>(
    from: &mut J,
    slots: &Slots<A>,
    homes: &[u32],
    front: usize,
    pair: &mut P,
) -> Result<(), DeviceError>
    requires { front ≤ 2 ^ 31 }
    ensures added { P.honest pair.old → OnOk result ((blocks : Blocks)
        × (P.journal pair.new ≡ P.journal pair.old ++ blocks) × (J.honest from.old →
        AreNewest (blocks_of slots.now) (drop front (J.shown from.old)) homes.now (length homes.now) blocks)) }
    ensures writes { P.honest pair.old → WritesJournal P.DevicePair pair.old pair.new }
    ensures honest { P.honest pair.old ↔ P.honest pair.new }
{
    for k in 0..homes.len() {
        put_slot(from, slots, homes[k], front, pair)?;
    }
    Ok(())
}

// Adds the newest slot of a block.
fn put_slot<J: BlockDevice, P: DevicePair, A: Allocator + Copy>(
    from: &mut J,
    slots: &Slots<A>,
    home: u32,
    front: usize,
    pair: &mut P,
) -> Result<(), DeviceError>
    requires { front ≤ 2 ^ 31 }
    ensures added { P.honest pair.old → OnOk result ((bytes : List ℕ)
        × (P.journal pair.new ≡ P.journal pair.old ++ bytes ∷ [])
        × (J.honest from.old → IsNewest (blocks_of slots.now) (drop front (J.shown from.old)) home bytes)) }
    ensures from { J.honest from.old → J.shown from.new ≡ J.shown from.old }
    ensures from_honest { J.honest from.old ↔ J.honest from.new }
    ensures writes { P.honest pair.old → WritesJournal P.DevicePair pair.old pair.new }
    ensures honest { P.honest pair.old ↔ P.honest pair.new }
{
    let Some(slot) = slots.slot_of(home) else {
        return Err(DeviceError::Memory);
    };
    let at = front + slot;
    if at >= from.blocks() as usize {
        return Err(DeviceError::Memory);
    }
    let mut page = zero_block();
    from.read(at as u32, &mut page)?;
    append(pair, &page)
}

// Adds the index of these homes.
fn put_index<P: DevicePair>(homes: &[u32], pair: &mut P) -> Result<(), DeviceError>
    ensures added { P.honest pair.old → OnOk result ((blocks : Blocks)
        × (P.journal pair.new ≡ P.journal pair.old ++ blocks)
        × AreIndex homes.now (index_blocks (length homes.now)) blocks) }
    ensures writes { P.honest pair.old → WritesJournal P.DevicePair pair.old pair.new }
    ensures honest { P.honest pair.old ↔ P.honest pair.new }
{
    for j in 0..homes.len().div_ceil(HOMES) {
        append(pair, &index_page(homes, j * HOMES))?;
    }
    Ok(())
}

// Adds flag and count of a region that is not committed, and syncs the journal.
fn put_end<P: DevicePair>(pair: &mut P) -> Result<(), DeviceError>
    ensures added { P.honest pair.old → OnOk result ((count : List ℕ)
        × (P.journal pair.new ≡ P.journal pair.old ++ flag_block 0 ∷ count ∷ [])) }
    ensures synced { P.honest pair.old → OnOk result ((a b : Blocks) → P.may_leave pair.new a b →
        b ≡ P.journal pair.new) }
    ensures writes { P.honest pair.old → WritesJournal P.DevicePair pair.old pair.new }
    ensures honest { P.honest pair.old ↔ P.honest pair.new }
{
    append(pair, &flag_page(0))?;
    append(pair, &zero_block())?;
    pair.sync_journal()
}
