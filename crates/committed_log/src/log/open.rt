//! A base and its log opened, after a stop or not.
ghost use Rattle.std.specs.Prelude.{◌≡◌, ◌≤◌, ◌<◌, ◌+◌, ◌^◌, ◌↔◌, ◌⊎◌, ◌/◌, ◌%◌, [], ℕ, Some, None, true};
ghost use Rattle.std.specs.Prelude.{false, length, min, IfOk, IfErr, IfSome, IsErrOf, OnOk, take, vec_capacity};
ghost use Rattle.std.specs.List.{All};
ghost use Rattle.block_device.specs.Device.{Counts, block_at};
ghost use Rattle.device_pair.specs.Pairs.{PairLeaves};
ghost use Rattle.committed_log.specs.Appending.{Appended, AppendsOnly, IsAppended, OrAppended};
ghost use Rattle.committed_log.specs.Log.{count_in, home_in, recovered, says, size_of, slot_homes};
ghost use Rattle.committed_log.specs.Committed.{base_of, behind_of, clearing_of, homes_of, journal_of};
ghost use Rattle.committed_log.specs.Committed.{pair_of, seen_of, IsDurable, IsHonest, IsStill};
ghost use Rattle.committed_log.specs.Committed.{SameLog};
ghost use Rattle.committed_log.specs.Opening.{AreSynced, IsBroken, IsEmpty, IsMalformed, LeavesOr};
ghost use Rattle.committed_log.specs.Region.{HasSlots};
ghost use Rattle.committed_log.specs.declared.log.open.OpenFault.TheVariants as fault;

use crate::flag::{flag_page, says_committed};
use crate::log::CommittedLog;
use crate::log::taking::{HOMES, region_blocks};
use crate::slots::Slots;
use block_bytes::{read_u32, zero_block};
use block_device::DeviceError;
use device_pair::DevicePair;
use std::alloc::Allocator;

/// Why a base and its log could not be opened.
#[derive(Clone, Copy, Debug, PartialEq, Eq, Drop)]
pub enum OpenFault {
    /// A device failed, or memory was refused.
    Device(DeviceError),
    /// A region reads as committed and is none: another program wrote it.
    Malformed,
}

impl From<DeviceError> for OpenFault {
    ghost use Rattle.committed_log.specs.declared.log.open.OpenFault.TheVariants as fault;

    ghost from_gives = { λ x e. e ≡ fault.Device x };

    fn from(e: DeviceError) -> Self {
        OpenFault::Device(e)
    }
}

// Syncs both devices.
fn sync_both<P: DevicePair>(pair: &mut P) -> Result<(), DeviceError>
    ensures base { P.honest pair.old → P.base pair.new ≡ P.base pair.old }
    ensures journal { P.honest pair.old → P.journal pair.new ≡ P.journal pair.old }
    ensures durable { P.honest pair.old →
        OnOk result (AreSynced (P.base pair.old) (P.journal pair.old) (P.may_leave pair.new)) }
    ensures stops { P.honest pair.old →
        PairLeaves P.moment P.left_since pair.old pair.new (P.may_leave pair.old) }
    ensures honest { P.honest pair.old ↔ P.honest pair.new }
    ensures faults { Counts (P.faults pair.old) (P.faults pair.new) result }
{
    pair.sync_base()?;
    pair.sync_journal()
}

// Makes the flag of the first region of a journal that has no blocks.
fn make_flag<P: DevicePair>(pair: &mut P) -> Result<(), DeviceError>
    requires none { length (P.journal pair.old) ≡ 0 }
    requires synced { P.honest pair.old →
        AreSynced (P.base pair.old) (P.journal pair.old) (P.may_leave pair.old) }
    ensures base { P.honest pair.old → P.base pair.new ≡ P.base pair.old }
    ensures few { P.honest pair.old → length (P.journal pair.new) ≤ 1 }
    ensures there { P.honest pair.old → OnOk result (0 < length (P.journal pair.new)) }
    ensures unsaid { P.honest pair.old → OnOk result (says (block_at 0 (P.journal pair.new)) ≡ false) }
    ensures durable { P.honest pair.old →
        OnOk result (AreSynced (P.base pair.new) (P.journal pair.new) (P.may_leave pair.new)) }
    ensures stops { P.honest pair.old →
        PairLeaves P.moment P.left_since pair.old pair.new (λ a b. recovered a b ≡ P.base pair.old) }
    ensures append_stops { P.honest pair.old →
        PairLeaves P.moment P.left_since pair.old pair.new
        (IsAppended (P.base pair.old) (P.journal pair.old)) }
    ensures honest { P.honest pair.old ↔ P.honest pair.new }
    ensures faults { Counts (P.faults pair.old) (P.faults pair.new) result }
{
    pair.write_journal(0, &flag_page(0))?;
    pair.sync_journal()
}

// Syncs both devices, and makes the flag of the first region where the journal has no blocks.
fn prepare<P: DevicePair>(pair: &mut P) -> Result<(), DeviceError>
    ensures base { P.honest pair.old → P.base pair.new ≡ P.base pair.old }
    ensures journal { P.honest pair.old → 0 < length (P.journal pair.old) →
        P.journal pair.new ≡ P.journal pair.old }
    ensures there { P.honest pair.old → OnOk result (0 < length (P.journal pair.new)) }
    ensures made { P.honest pair.old → OnOk result ((P.journal pair.new ≡ P.journal pair.old)
        ⊎ IsEmpty (P.journal pair.new)) }
    ensures same { P.honest pair.old →
        recovered (P.base pair.new) (P.journal pair.new) ≡ recovered (P.base pair.old) (P.journal pair.old) }
    ensures durable { P.honest pair.old →
        OnOk result (AreSynced (P.base pair.new) (P.journal pair.new) (P.may_leave pair.new)) }
    ensures stops { P.honest pair.old →
        PairLeaves P.moment P.left_since pair.old pair.new
        (LeavesOr (P.may_leave pair.old) (recovered (P.base pair.old) (P.journal pair.old))) }
    ensures appends { P.honest pair.old →
        OnOk result (Appended (P.base pair.old) (P.journal pair.old) (P.base pair.new) (P.journal pair.new)
        (P.may_leave pair.new)) }
    ensures append_stops { P.honest pair.old →
        PairLeaves P.moment P.left_since pair.old pair.new
        (OrAppended (P.may_leave pair.old) (P.base pair.old) (P.journal pair.old)) }
    ensures honest { P.honest pair.old ↔ P.honest pair.new }
    ensures faults { Counts (P.faults pair.old) (P.faults pair.new) result }
{
    sync_both(pair)?;
    if pair.journal_blocks() > 0 {
        return Ok(());
    }
    make_flag(pair)
}

impl<P: DevicePair, A: Allocator + Copy> CommittedLog<P, A> {
    /// Opens a base and its journal, which may be empty, and copies nothing. Both are synced; nothing is written
    /// but the flag and the count of the region behind the last one where they are not there.
    ///
    /// What is then read through the regions is what recovery makes of base and journal, and no region behind
    /// them is committed.
    pub fn open(pair: P, alloc: A) -> Result<CommittedLog<P, A>, (OpenFault, P)>
        ensures seen { IfOk result (λ c. P.honest pair →
            seen_of c ≡ recovered (P.base pair) (P.journal pair)) }
        ensures settled { IfOk result (λ c. clearing_of c ≡ false) }
        ensures durable { IfOk result (λ c. P.honest pair → IsDurable c) }
        ensures unsaid { IfOk result (λ c. P.honest pair → says (block_at 0 (behind_of c)) ≡ false) }
        ensures room { IfOk result (λ c. P.honest pair → 2 ≤ length (behind_of c)) }
        ensures base { IfOk result (λ c. P.honest pair → base_of c ≡ P.base pair) }
        ensures refused_base { IfErr result (λ e. P.honest pair → P.base e.1 ≡ P.base pair) }

        // A stop leaves what one before the call might have left, or what recovers to the same.
        ensures stops { IfOk result (λ c. P.honest pair →
            PairLeaves P.moment P.left_since pair (pair_of c)
            (LeavesOr (P.may_leave pair) (recovered (P.base pair) (P.journal pair)))) }
        ensures refused_stops { IfErr result (λ e. P.honest pair →
            PairLeaves P.moment P.left_since pair e.1
            (LeavesOr (P.may_leave pair) (recovered (P.base pair) (P.journal pair)))) }

        // And what shows the same to who has read the journal as it was.
        ensures appends { IfOk result (λ c. P.honest pair →
            Appended (P.base pair) (P.journal pair) (base_of c) (journal_of c) (P.may_leave (pair_of c))) }
        ensures append_stops { IfOk result (λ c. P.honest pair →
            PairLeaves P.moment P.left_since pair (pair_of c)
            (OrAppended (P.may_leave pair) (P.base pair) (P.journal pair))) }
        ensures refused_append_stops { IfErr result (λ e. P.honest pair →
            PairLeaves P.moment P.left_since pair e.1
            (OrAppended (P.may_leave pair) (P.base pair) (P.journal pair))) }
        ensures malformed { IfErr result (λ e. P.honest pair → e.0 ≡ fault.Malformed →
            IsMalformed (P.base pair) (P.journal pair)) }
        ensures honest { IfOk result (λ c. P.honest pair ↔ IsHonest c) }
        ensures refused_honest { IfErr result (λ e. P.honest pair ↔ P.honest e.1) }
    {
        let mut pair = pair;
        if let Err(fault) = prepare(&mut pair) {
            return Err((OpenFault::Device(fault), pair));
        }
        let mut log = CommittedLog {
            pair,
            slots: Slots::new(alloc),
            clearing: false,
        };
        match log.read_regions() {
            Ok(()) => Ok(log),
            Err(fault) => Err((fault, log.into_pair())),
        }
    }

    // Takes in the regions that are committed, and has a flag and a count stand behind them.
    fn read_regions(&mut self) -> Result<(), OpenFault>
        requires settled { clearing_of self.old ≡ false }
        requires durable { IsHonest self.old → IsDurable self.old }
        ensures seen { IsHonest self.old →
            OnOk result (seen_of self.new ≡ recovered (seen_of self.old) (behind_of self.old)) }
        ensures settled { clearing_of self.new ≡ false }
        ensures durable { IsHonest self.old → OnOk result (IsDurable self.new) }
        ensures unsaid { IsHonest self.old → OnOk result (says (block_at 0 (behind_of self.new)) ≡ false) }
        ensures room { IsHonest self.old → OnOk result (2 ≤ length (behind_of self.new)) }
        ensures base { IsHonest self.old → base_of self.new ≡ base_of self.old }
        ensures stops { IsHonest self.old →
            PairLeaves P.moment P.left_since (pair_of self.old) (pair_of self.new)
            (λ a b. recovered a b ≡ recovered (base_of self.old) (journal_of self.old)) }
        ensures malformed { IsHonest self.old → IsErrOf result fault.Malformed →
            IsMalformed (base_of self.old) (journal_of self.old) }
        ensures appends { IsHonest self.old → AppendsOnly self.old self.new }
        ensures honest { IsHonest self.old ↔ IsHonest self.new }
    {
        'regions: while self.read_region()? {}
        self.add_count()?;
        Ok(())
    }

    // Has a count stand behind the flag behind the regions, where nothing stands there.
    fn add_count(&mut self) -> Result<(), DeviceError>
        requires settled { clearing_of self.old ≡ false }
        requires durable { IsHonest self.old → IsDurable self.old }
        requires unsaid { IsHonest self.old → says (block_at 0 (behind_of self.old)) ≡ false }
        ensures log { SameLog self.old self.new }
        ensures seen { IsHonest self.old → seen_of self.new ≡ seen_of self.old }
        ensures unsaid { IsHonest self.old → says (block_at 0 (behind_of self.new)) ≡ false }
        ensures room { IsHonest self.old → OnOk result (2 ≤ length (behind_of self.new)) }
        ensures durable { IsHonest self.old → OnOk result (IsDurable self.new) }
        ensures base { IsHonest self.old → base_of self.new ≡ base_of self.old }
        ensures stops { IsHonest self.old →
            PairLeaves P.moment P.left_since (pair_of self.old) (pair_of self.new)
            (λ a b. recovered a b ≡ seen_of self.old) }
        ensures appends { IsHonest self.old → AppendsOnly self.old self.new }
        ensures honest { IsHonest self.old ↔ IsHonest self.new }
    {
        if self.behind_blocks() >= 2 {
            return Ok(());
        }
        if self.behind_blocks() == 0 {
            return Err(DeviceError::Memory);
        }
        self.write_behind(1, &zero_block())?;
        self.sync_journal()
    }

    // Takes in the region behind the others where it is committed. Tells whether it was.
    fn read_region(&mut self) -> Result<bool, OpenFault>
        requires settled { clearing_of self.old ≡ false }
        requires durable { IsHonest self.old → IsDurable self.old }
        ensures seen { IsHonest self.old → recovered (seen_of self.new) (behind_of self.new)
            ≡ recovered (seen_of self.old) (behind_of self.old) }
        ensures more { IfOk result (λ t. t ≡ true →
            length (homes_of self.old) < length (homes_of self.new)) }
        ensures said { IsHonest self.old → IfOk result (λ t. t ≡ true →
            says (block_at 0 (behind_of self.old)) ≡ true) }
        ensures unsaid { IsHonest self.old → IfOk result (λ t. t ≡ false →
            says (block_at 0 (behind_of self.new)) ≡ false) }
        ensures settled { clearing_of self.new ≡ false }
        ensures durable { IsHonest self.old → OnOk result (IsDurable self.new) }
        ensures base { IsHonest self.old → base_of self.new ≡ base_of self.old }

        // Where the journal is not as it was, a flag was added to it, and no region is behind the others.
        ensures journal { IsHonest self.old → OnOk result ((journal_of self.new ≡ journal_of self.old)
            ⊎ (says (block_at 0 (behind_of self.new)) ≡ false)) }
        ensures stops { IsHonest self.old →
            PairLeaves P.moment P.left_since (pair_of self.old) (pair_of self.new)
            (λ a b. recovered a b ≡ recovered (base_of self.old) (journal_of self.old)) }
        ensures malformed { IsHonest self.old → IsErrOf result fault.Malformed →
            IsBroken (base_of self.old) (behind_of self.old) }
        ensures appends { IsHonest self.old → AppendsOnly self.old self.new }
        ensures honest { IsHonest self.old ↔ IsHonest self.new }
    {
        let Some(homes) = self.find_region()? else {
            return Ok(false);
        };
        self.take_region(&homes)?;
        Ok(true)
    }

    // Takes in the region behind the others, whose slots have these homes, and has a flag stand behind it.
    fn take_region(&mut self, homes: &[u32]) -> Result<(), DeviceError>
        requires few { length homes.now < 2 ^ 32 }
        requires settled { clearing_of self.old ≡ false }
        requires durable { IsHonest self.old → IsDurable self.old }
        requires slots { IsHonest self.old →
            HasSlots homes.now (length (seen_of self.old)) (behind_of self.old) }
        ensures seen { IsHonest self.old → recovered (seen_of self.new) (behind_of self.new)
            ≡ recovered (seen_of self.old) (behind_of self.old) }
        ensures more { OnOk result (length (homes_of self.old) < length (homes_of self.new)) }
        ensures settled { clearing_of self.new ≡ false }
        ensures durable { IsHonest self.old → OnOk result (IsDurable self.new) }
        ensures base { IsHonest self.old → base_of self.new ≡ base_of self.old }
        ensures journal { IsHonest self.old → OnOk result ((journal_of self.new ≡ journal_of self.old)
            ⊎ (says (block_at 0 (behind_of self.new)) ≡ false)) }
        ensures stops { IsHonest self.old →
            PairLeaves P.moment P.left_since (pair_of self.old) (pair_of self.new)
            (λ a b. recovered a b ≡ recovered (base_of self.old) (journal_of self.old)) }
        ensures appends { IsHonest self.old → AppendsOnly self.old self.new }
        ensures honest { IsHonest self.old ↔ IsHonest self.new }
    {
        self.reserve(homes.len())?;
        self.add_flag(region_blocks(homes.len()))?;
        self.take_in(homes);
        Ok(())
    }

    // Reads the homes of the slots of the region behind the others, where it is committed.
    fn find_region(&mut self) -> Result<Option<Vec<u32, A>>, OpenFault>
        ensures none { IsHonest self.old →
            IfOk result (λ r. r ≡ None → says (block_at 0 (behind_of self.old)) ≡ false) }
        ensures some { IsHonest self.old → IfOk result (λ r. IfSome r (λ homes.
            HasSlots homes.items (length (seen_of self.old)) (behind_of self.old))) }
        ensures few { IfOk result (λ r. IfSome r (λ homes. length homes.items < 2 ^ 32)) }
        ensures malformed { IsHonest self.old → IsErrOf result fault.Malformed →
            IsBroken (base_of self.old) (behind_of self.old) }
        ensures still { IsHonest self.old → IsStill self.old self.new }
        ensures log { SameLog self.old self.new }
        ensures honest { IsHonest self.old ↔ IsHonest self.new }
    {
        match self.read_count()? {
            None => Ok(None),
            Some(n) => Ok(Some(self.read_homes(n)?)),
        }
    }

    // Reads whether the region behind the others is committed, and how many slots it has then.
    fn read_count(&mut self) -> Result<Option<u32>, OpenFault>
        ensures none { IsHonest self.old →
            IfOk result (λ r. r ≡ None → says (block_at 0 (behind_of self.old)) ≡ false) }
        ensures some { IsHonest self.old → IfOk result (λ r. (n : ℕ) → r ≡ Some n →
            (n ≡ count_in (behind_of self.old)) × (says (block_at 0 (behind_of self.old)) ≡ true) ×
            (size_of (behind_of self.old) ≤ length (behind_of self.old))) }
        ensures malformed { IsHonest self.old → IsErrOf result fault.Malformed →
            (says (block_at 0 (behind_of self.old)) ≡ true) ×
            (length (behind_of self.old) < size_of (behind_of self.old)) }
        ensures still { IsHonest self.old → IsStill self.old self.new }
        ensures log { SameLog self.old self.new }
        ensures honest { IsHonest self.old ↔ IsHonest self.new }
    {
        if self.behind_blocks() == 0 {
            return Ok(None);
        }
        let mut page = zero_block();
        self.read_behind(0, &mut page)?;
        if !says_committed(&page) {
            return Ok(None);
        }
        if self.behind_blocks() < 2 {
            return Err(OpenFault::Malformed);
        }
        self.read_behind(1, &mut page)?;
        let n = read_u32(&page, 8);
        if region_blocks(n as usize) > self.behind_blocks() as usize {
            return Err(OpenFault::Malformed);
        }
        Ok(Some(n))
    }

    // Reads the homes of the n slots of the region behind the others, each of which has to be a block of the
    // base.
    fn read_homes(&mut self, n: u32) -> Result<Vec<u32, A>, OpenFault>
        requires room { IsHonest self.old →
            2 + n + (n / 1024 + min 1 (n % 1024)) ≤ length (behind_of self.old) }
        ensures homes { IsHonest self.old →
            IfOk result (λ homes. homes.items ≡ slot_homes n 0 n (behind_of self.old)) }
        ensures many { IfOk result (λ homes. length homes.items ≡ n) }
        ensures below { IfOk result (λ homes. All (λ h. h < length (seen_of self.old)) homes.items) }
        ensures malformed { IsHonest self.old → IsErrOf result fault.Malformed →
            ¬ All (λ h. h < length (seen_of self.old)) (slot_homes n 0 n (behind_of self.old)) }
        ensures still { IsHonest self.old → IsStill self.old self.new }
        ensures log { SameLog self.old self.new }
        ensures honest { IsHonest self.old ↔ IsHonest self.new }
    {
        let limit = self.base_blocks();
        let mut homes = room_for(*self.slots.allocator(), n)?;
        let mut page = zero_block();
        for k in 0..n {
            let home = self.read_home(n, k, &mut page)?;
            if home >= limit {
                return Err(OpenFault::Malformed);
            }
            homes.push_reserved(home);
        }
        Ok(homes)
    }

    // Reads the home of slot k of n of the region behind the others. The page holds the index block of the slot
    // before it, where it is the same.
    fn read_home(&mut self, n: u32, k: u32, page: &mut [u8; 4096]) -> Result<u32, DeviceError>
        requires held { IsHonest self.old → 0 < k % 1024 →
            page.old ≡ block_at (2 + n + k / 1024) (behind_of self.old) }
        ensures held { IsHonest self.old →
            IfOk result (λ h. page.new ≡ block_at (2 + n + k / 1024) (behind_of self.old)) }
        ensures home { IsHonest self.old → IfOk result (λ h. h ≡ home_in n k (behind_of self.old)) }
        ensures still { IsHonest self.old → IsStill self.old self.new }
        ensures log { SameLog self.old self.new }
        ensures honest { IsHonest self.old ↔ IsHonest self.new }
    {
        self.turn_index(n, k, page)?;
        Ok(read_u32(page, 4 * (k as usize % HOMES)))
    }

    // Has the page hold the index block of slot k of n, where it holds that of the slot before it.
    fn turn_index(&mut self, n: u32, k: u32, page: &mut [u8; 4096]) -> Result<(), DeviceError>
        requires held { IsHonest self.old → 0 < k % 1024 →
            page.old ≡ block_at (2 + n + k / 1024) (behind_of self.old) }
        ensures held { IsHonest self.old →
            OnOk result (page.new ≡ block_at (2 + n + k / 1024) (behind_of self.old)) }
        ensures still { IsHonest self.old → IsStill self.old self.new }
        ensures log { SameLog self.old self.new }
        ensures honest { IsHonest self.old ↔ IsHonest self.new }
    {
        if k as usize % HOMES > 0 {
            return Ok(());
        }
        let at = 2 + n as usize + k as usize / HOMES;
        if at >= self.behind_blocks() as usize {
            return Err(DeviceError::Memory);
        }
        self.read_behind(at as u32, page)
    }

    // Has a flag stand behind a region of so many blocks, which says that no other is committed, where nothing
    // stands there.
    fn add_flag(&mut self, size: usize) -> Result<(), DeviceError>
        requires settled { clearing_of self.old ≡ false }
        requires durable { IsHonest self.old → IsDurable self.old }
        requires size { IsHonest self.old → size ≡ size_of (behind_of self.old) }
        requires there { IsHonest self.old → size ≤ length (behind_of self.old) }
        ensures log { SameLog self.old self.new }
        ensures seen { IsHonest self.old → seen_of self.new ≡ seen_of self.old }
        ensures region { IsHonest self.old → take size (behind_of self.new) ≡ take size (behind_of self.old) }
        ensures there { IsHonest self.old → OnOk result (size < length (behind_of self.new)) }
        ensures flag { IsHonest self.old → OnOk result ((journal_of self.new ≡ journal_of self.old)
            ⊎ (says (block_at size (behind_of self.new)) ≡ false)) }
        ensures same { IsHonest self.old → recovered (seen_of self.new) (behind_of self.new)
            ≡ recovered (seen_of self.old) (behind_of self.old) }
        ensures durable { IsHonest self.old → OnOk result (IsDurable self.new) }
        ensures base { IsHonest self.old → base_of self.new ≡ base_of self.old }
        ensures stops { IsHonest self.old →
            PairLeaves P.moment P.left_since (pair_of self.old) (pair_of self.new)
            (λ a b. recovered a b ≡ recovered (base_of self.old) (journal_of self.old)) }
        ensures appends { IsHonest self.old → AppendsOnly self.old self.new }
        ensures honest { IsHonest self.old ↔ IsHonest self.new }
        ensures faults { Counts (P.faults (pair_of self.old)) (P.faults (pair_of self.new)) result }
    {
        let blocks = self.behind_blocks() as usize;
        if size < blocks {
            return Ok(());
        }
        if size > blocks {
            return Err(DeviceError::Memory);
        }
        self.write_behind(size as u32, &flag_page(0))?;
        self.sync_journal()
    }
}

// Memory for n homes.
fn room_for<A: Allocator>(alloc: A, n: u32) -> Result<Vec<u32, A>, DeviceError>
    ensures none { IfOk result (λ homes. homes.items ≡ []) }
    ensures room { IfOk result (λ homes. n ≤ vec_capacity homes) }
{
    Ok(Vec::with_capacity(alloc, n as usize)?)
}
