//! The trait of a device: what a read returns, what a stop may leave, and the count of faults.
ghost use Rattle.std.specs.Prelude.{◌≡◌, ◌≤◌, ◌<◌, ◌+◌, ◌^◌, ◌↔◌, ℕ, List, length, Result, OnOk, OnErr, ⊤};
ghost use Rattle.block_device.specs.declared.device.DeviceError.{DeviceError};
ghost use Rattle.block_device.specs.declared.device.DeviceError.TheVariants.{Memory};
ghost use Rattle.std.specs.List.{All};
ghost use Rattle.block_device.specs.Device.{Blocks, IsBlock, Only, LeavesNoMore, Follows, Torn, Elapses};
ghost use Rattle.block_device.specs.Device.{Counts};
ghost use Rattle.block_device.specs.Device.{BeginsOne, Brings, Recovery, no_recovery};
ghost use Rattle.block_device.specs.Device.{block_at, written};

use std::alloc::{AllocError, AllocFailed};
use thiserror::Error;

/// Why a call of a device did not do what it was asked.
#[derive(Clone, Copy, Debug, PartialEq, Eq, Drop, Error)]
pub enum DeviceError {
    /// The device failed. Each such answer counts as a fault.
    #[error("the device failed")]
    Failed,
    /// Memory was refused.
    #[error("no memory")]
    Memory,
}

impl From<AllocError> for DeviceError {
    ghost from_gives = { λ _ e. e ≡ Memory };

    fn from(_: AllocError) -> Self {
        DeviceError::Memory
    }
}

impl<T: Drop> From<AllocFailed<T>> for DeviceError {
    ghost from_gives = { λ _ e. e ≡ Memory };

    fn from(_: AllocFailed<T>) -> Self {
        DeviceError::Memory
    }
}

/// A device of blocks of 4096 bytes, numbered from 0. Blocks are added at the end and never removed.
///
/// What is said of its blocks and of stops holds of an honest device alone, and each call keeps it as
/// honest as it was. A device that is not honest may answer and hold anything, but for the count of its
/// blocks at the moment and the count of its faults.
///
/// docs/FORMAT.md, "The disk model of a stop", says the same in words.
pub trait BlockDevice {
    /// The blocks, as a read returns them.
    ghost shown: { Self → Blocks };

    /// A read gives what was last written, and nobody else writes.
    ghost honest: { Self → Type 0 };

    /// What a stop now may leave.
    ghost may_leave: { Self → Blocks → Type 0 };

    /// The moment, as a number that doesn't fall.
    ghost moment: { Self → ℕ };

    /// What a stop at some moment from that one on might have left, within a call or between two.
    ghost left_since: { Self → ℕ → Blocks → Type 0 };

    /// What a device of this kind commits, and what a stop brings back of it: by default nothing.
    ghost recovery: { Recovery Self } = { no_recovery };

    /// How many calls have answered `Failed`, a u64 that stays at its greatest value.
    ghost faults: { Self → ℕ };

    /// What a device of this kind says beyond the trait of a read: of the device, the block's number,
    /// the buffer, the answer, and then the buffer and the device.
    ghost read_gives: { Self → ℕ → List ℕ → Result (Unit {0}) DeviceError → List ℕ →
        Self → Type 0 } = { λ _ _ _ _ _ _. ⊤ };

    /// The same of a write: of the device, the block's number, the bytes, the answer and the device.
    ghost write_gives: { Self → ℕ → List ℕ → Result (Unit {0}) DeviceError → Self →
        Type 0 } = { λ _ _ _ _ _. ⊤ };

    /// The same of a sync: of the device, the answer and the device.
    ghost sync_gives: { Self → Result (Unit {0}) DeviceError → Self → Type 0 } = { λ _ _ _. ⊤ };

    /// How many blocks there are, at most 2^31.
    fn blocks(&self) -> u32
        ensures is { result ≡ length (shown self.now) }
        ensures few { result ≤ 2 ^ 31 };

    /// Reads block `i` into the buffer, which holds anything after an `Err`.
    fn read(&mut self, i: u32, into: &mut [u8; 4096]) -> Result<(), DeviceError>
        requires { i < length (shown self.old) }
        ensures bytes { honest self.old → OnOk result (into.new ≡ block_at i (shown self.old)) }
        ensures shown { honest self.old → shown self.new ≡ shown self.old }

        // A stop within the call or after it leaves what one before it might have left.
        ensures stops { honest self.old → LeavesNoMore (may_leave self.old) (may_leave self.new) }
        ensures time { honest self.old →
            Elapses (moment self.old) (moment self.new) (left_since self.old) (left_since self.new)
            (may_leave self.new) }
        ensures brings { honest self.old → Brings moment recovery self.old self.new (may_leave self.new) }

        ensures honest { honest self.old ↔ honest self.new }
        ensures faults { Counts (faults self.old) (faults self.new) result }
        ensures gives { read_gives self.old i into.old result into.new self.new };

    /// Writes block `i`, or appends it where `i` is the count of blocks. Until a sync succeeds, a stop
    /// may leave any bytes in it. After an `Err` it may hold any bytes, and may or may not be appended.
    fn write(&mut self, i: u32, bytes: &[u8; 4096]) -> Result<(), DeviceError>
        requires within { i ≤ length (shown self.old) }
        requires small { i < 2 ^ 31 }
        ensures written { honest self.old →
            OnOk result (shown self.new ≡ written i bytes.now (shown self.old)) }
        ensures torn { honest self.old → OnErr result (Torn i (shown self.old) (shown self.new)) }

        // A stop leaves what one before the call might have left, with any bytes in this block.
        ensures stops { honest self.old → Follows (Torn i) (may_leave self.old) (may_leave self.new) }
        ensures time { honest self.old →
            Elapses (moment self.old) (moment self.new) (left_since self.old) (left_since self.new)
            (may_leave self.new) }
        ensures brings { honest self.old → Brings moment recovery self.old self.new (may_leave self.new) }

        ensures honest { honest self.old ↔ honest self.new }
        ensures faults { Counts (faults self.old) (faults self.new) result }
        ensures gives { write_gives self.old i bytes.now result self.new };

    /// Makes what was written last: after an `Ok` a stop leaves the blocks as they are read.
    fn sync(&mut self) -> Result<(), DeviceError>
        ensures durable { honest self.old → OnOk result (Only (shown self.old) (may_leave self.new)) }
        ensures shown { honest self.old → shown self.new ≡ shown self.old }

        ensures stops { honest self.old → LeavesNoMore (may_leave self.old) (may_leave self.new) }
        ensures time { honest self.old →
            Elapses (moment self.old) (moment self.new) (left_since self.old) (left_since self.new)
            (may_leave self.new) }
        ensures brings { honest self.old → Brings moment recovery self.old self.new (may_leave self.new) }

        ensures honest { honest self.old ↔ honest self.new }
        ensures faults { Counts (faults self.old) (faults self.new) result }
        ensures gives { sync_gives self.old result self.new };

    /// There are at most 2^31 blocks.
    ghost few_blocks: { (d : Self) → length (shown d) ≤ 2 ^ 31 };

    /// What is read is one of the outcomes of a stop now.
    ghost shown_counts: { (d : Self) → honest d → may_leave d (shown d) };

    /// A stop leaves at most one block more than is read, one of an append that failed.
    ghost no_longer: { (d : Self) (c : Blocks) → honest d → may_leave d c → length c ≤ length (shown d) + 1 };

    /// A stop leaves blocks of 4096 bytes, so what is read are such, too.
    ghost whole: { (d : Self) (c : Blocks) → honest d → may_leave d c → All IsBlock c };

    /// This moment is one of those since an earlier one.
    ghost counts_now: { (d : Self) (t : ℕ) (c : Blocks) → honest d → t ≤ moment d → may_leave d c →
        left_since d t c };

    /// Since this moment there is no other.
    ghost only_now: { (d : Self) (c : Blocks) → honest d → left_since d (moment d) c → may_leave d c };

    /// The moments since one include those since a later one.
    ghost since_earlier: { (d : Self) (t u : ℕ) (c : Blocks) → honest d → t ≤ u → left_since d u c →
        left_since d t c };

    /// A stop now brings back blocks that begin with a commit.
    ghost brought_now: { (d : Self) (c : Blocks) → honest d → recovery.found_since d (moment d) c →
        BeginsOne (recovery.commits d) c };

    /// Where all is durable, and what is read is committed at all, it is the one commit.
    ghost committed: { (d : Self) (k : Blocks) → honest d → Only (shown d) (may_leave d) →
        recovery.takes (shown d) →
        recovery.commits d k → k ≡ shown d };

    /// The count of faults is a u64.
    ghost faults_fit: { (d : Self) → faults d < 2 ^ 64 };
}
