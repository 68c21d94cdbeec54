//! The region behind the others, once it is committed.
ghost use Rattle.std.specs.Prelude.{◌≡◌, ◌<◌, ◌+◌, ◌/◌, ◌%◌, ◌++◌, ◌^◌, ℕ, length, drop, false, replicate};
ghost use Rattle.std.specs.Prelude.{IfErr, OnOk, min};
ghost use Rattle.block_device.specs.declared.device.DeviceError.TheVariants.{Memory};
ghost use Rattle.committed_log.specs.Log.{no_home, overlaid, region_of, size_of};
ghost use Rattle.committed_log.specs.Committed.{behind_of, clearing_of, homes_of, pair_of, seen_of, slots_of};
ghost use Rattle.committed_log.specs.Committed.{IsDurable, IsHonest};
ghost use Rattle.committed_log.specs.Region.{IsRegion};
ghost use Rattle.committed_log.specs.Room.{blocks_of, HasRoomFor};

use crate::log::CommittedLog;
use crate::slots::Slots;
use block_device::DeviceError;
use device_pair::DevicePair;
use std::alloc::Allocator;

/// How many homes an index block holds.
pub const HOMES: usize = 1024;

/// Adds blocks that are no slots.
pub fn push_none<A: Allocator + Copy>(slots: &mut Slots<A>, count: usize)
    requires { HasRoomFor count slots.old }
    ensures slots { blocks_of slots.new ≡ blocks_of slots.old ++ replicate count no_home }
    ensures room { (n : ℕ) → HasRoomFor (n + count) slots.old → HasRoomFor n slots.new }
{
    for _k in 0..count {
        slots.push(u32::MAX);
    }
}

// Adds slots of these homes.
fn push_all<A: Allocator + Copy>(slots: &mut Slots<A>, homes: &[u32])
    requires { HasRoomFor (length homes.now) slots.old }
    ensures slots { blocks_of slots.new ≡ blocks_of slots.old ++ homes.now }
    ensures room { (n : ℕ) → HasRoomFor (n + length homes.now) slots.old → HasRoomFor n slots.new }
{
    for k in 0..homes.len() {
        slots.push(homes[k]);
    }
}

/// How many blocks a region of n slots has.
pub fn region_blocks(n: usize) -> usize
    requires { n < 2 ^ 32 }
    ensures { result ≡ 2 + n + (n / 1024 + min 1 (n % 1024)) }
{
    2 + n + n.div_ceil(HOMES)
}

impl<P: DevicePair, A: Allocator + Copy> CommittedLog<P, A> {
    /// Takes the memory for a region of n slots. Where it is refused, the regions stay.
    pub fn reserve(&mut self, n: usize) -> Result<(), DeviceError>
        requires { n < 2 ^ 32 }
        ensures homes { homes_of self.new ≡ homes_of self.old }
        ensures pair { pair_of self.new ≡ pair_of self.old }
        ensures clearing { clearing_of self.new ≡ clearing_of self.old }
        ensures room { OnOk result (HasRoomFor (2 + n + (n / 1024 + min 1 (n % 1024))) (slots_of self.new)) }
        ensures refused { IfErr result (λ e. e ≡ Memory) }
    {
        self.slots.reserve(region_blocks(n))
    }

    /// Takes in the region behind the others, which is committed and synced and has slots of these homes.
    pub fn take_in(&mut self, homes: &[u32])
        requires few { length homes.now < 2 ^ 32 }
        requires room { HasRoomFor (length (region_of homes.now)) (slots_of self.old) }
        requires settled { clearing_of self.old ≡ false }
        requires region { IsHonest self.old →
            IsRegion homes.now (length (seen_of self.old)) (behind_of self.old) }
        requires durable { IsHonest self.old → IsDurable self.old }
        ensures homes { homes_of self.new ≡ homes_of self.old ++ region_of homes.now }
        ensures pair { pair_of self.new ≡ pair_of self.old }
        ensures settled { clearing_of self.new ≡ false }
        ensures seen { IsHonest self.old →
            seen_of self.new ≡ overlaid (region_of homes.now) (behind_of self.old) (seen_of self.old) }
        ensures behind { IsHonest self.old →
            behind_of self.new ≡ drop (size_of (behind_of self.old)) (behind_of self.old) }
        ensures durable { IsHonest self.old → IsDurable self.new }
    {
        push_none(&mut self.slots, 2);
        push_all(&mut self.slots, homes);
        push_none(&mut self.slots, homes.len().div_ceil(HOMES));
    }
}
