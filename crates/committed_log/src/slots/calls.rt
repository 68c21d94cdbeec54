//! Slots made, found and added.
ghost use Rattle.std.specs.Prelude.{◌≡◌, ◌<◌, ◌≤◌, ◌+◌, ◌/◌, ◌^◌, ◌++◌, [], ◌∷◌, length, replicate};
ghost use Rattle.std.specs.Prelude.{ℕ, None, IfSome, IfErr, IfOk, OnOk, vec_len, vec_capacity};
ghost use Rattle.std.specs.List.{Contains};
ghost use Rattle.block_device.specs.declared.device.DeviceError.TheVariants.{Memory};
ghost use Rattle.committed_log.specs.Buckets.{bucket_in, AreChained};
ghost use Rattle.committed_log.specs.Found.{IsSlot};
ghost use Rattle.committed_log.specs.Room.{blocks_of, HasRoomFor};

use crate::slots::Slots;
use block_device::DeviceError;
use std::alloc::{AllocError, Allocator};

// The bucket of a block: its number, mixed, falls into one of so many equal parts of 2^32.
#[tactic(auto, unfolding(crate::specs::Buckets::bucket_in))]
fn bucket(i: u32, count: usize) -> usize
    requires some { 0 < count }
    requires few { count < 2 ^ 32 }
    ensures is { result ≡ bucket_in count i }
    ensures within { result < count }
{
    let mixed = u64::from(i.wrapping_mul(0x9E37_79B9));
    (mixed * count as u64 / (1 << 32)) as usize
}

// So many zeros, with no room for more.
fn zeros<A: Allocator>(alloc: A, count: usize) -> Result<Vec<u32, A>, AllocError>
    ensures items { IfOk result (λ v. v.items ≡ replicate count 0) }
    ensures len { IfOk result (λ v. vec_len v ≡ count) }
    ensures capacity { IfOk result (λ v. vec_capacity v ≡ count) }
{
    let mut row = Vec::with_capacity(alloc, count)?;
    for _k in 0..count {
        row.push_reserved(0);
    }
    Ok(row)
}

// Chains the slots of these blocks by buckets that are empty.
fn chain<A: Allocator>(homes: &[u32], before: &mut Vec<u32, A>, heads: &mut Vec<u32, A>)
    requires few { length homes.now < 2 ^ 32 }
    requires room { length homes.now ≤ vec_capacity before.old }
    requires some { 0 < vec_len heads.old }
    requires few_buckets { vec_len heads.old < 2 ^ 32 }
    requires empty { heads.old.items ≡ replicate (vec_len heads.old) 0 }
    ensures chained { AreChained homes.now before.new.items heads.new.items }
    ensures buckets { vec_len heads.new ≡ vec_len heads.old }
    ensures before_kept { vec_capacity before.new ≡ vec_capacity before.old }
    ensures heads_kept { vec_capacity heads.new ≡ vec_capacity heads.old }
{
    before.clear();
    for k in 0..homes.len() {
        let b = bucket(homes[k], heads.len());
        before.push_reserved(heads[b]);
        heads[b] = k as u32 + 1;
    }
}

impl<A: Allocator + Copy> Slots<A> {
    /// No slots. It takes no memory.
    pub fn new(alloc: A) -> Slots<A>
        ensures { blocks_of result ≡ [] }
    {
        Slots {
            homes: Vec::new(alloc),
            before: Vec::new(alloc),
            heads: Vec::new(alloc),
        }
    }

    /// Its allocator.
    pub fn allocator(&self) -> &A {
        self.homes.allocator()
    }

    /// How many slots there are.
    pub fn len(&self) -> usize
        ensures { result ≡ length (blocks_of self.now) }
    {
        self.homes.len()
    }

    /// The blocks that the slots hold, in order of the slots.
    pub fn homes(&self) -> &[u32]
        ensures { result.now ≡ blocks_of self.now }
    {
        &self.homes
    }

    /// The slot that holds block i: the last one whose home it is.
    pub fn slot_of(&self, i: u32) -> Option<usize>
        ensures found { IfSome result (λ m. IsSlot (blocks_of self.now) i m) }
        ensures none { result ≡ None → ¬ Contains (blocks_of self.now) i }
    {
        if self.heads.is_empty() {
            return None;
        }
        let mut next = self.heads[bucket(i, self.heads.len())];
        while next > 0 {
            let slot = next as usize - 1;
            if self.homes[slot] == i {
                return Some(slot);
            }
            next = self.before[slot];
        }
        None
    }

    /// Takes the memory for n slots more. Where it is refused, the slots stay.
    pub fn reserve(&mut self, n: usize) -> Result<(), DeviceError>
        requires { n < 2 ^ 33 }
        ensures same { blocks_of self.new ≡ blocks_of self.old }
        ensures room { OnOk result (HasRoomFor n self.new) }
        ensures refused { IfErr result (λ e. e ≡ Memory) }
    {
        let len = self.homes.len();
        if len + n >= u32::MAX as usize {
            return Err(DeviceError::Memory);
        }
        let room = len + n;
        if room <= self.homes.capacity()
            && room <= self.before.capacity()
            && !self.heads.is_empty()
        {
            return Ok(());
        }
        let more = n.max(len / 4 + 1);
        self.spread(room / 3 + 1)?;
        self.homes.reserve_exact(more)?;
        self.before.reserve_exact(more)?;
        Ok(())
    }

    // Chains the slots by so many buckets.
    fn spread(&mut self, count: usize) -> Result<(), DeviceError>
        requires some { 0 < count }
        requires few { count < 2 ^ 32 }
        ensures same { blocks_of self.new ≡ blocks_of self.old }
        ensures buckets { OnOk result (vec_len self.new.heads ≡ count) }
        ensures refused { IfErr result (λ e. e ≡ Memory) }
    {
        let mut heads = zeros(*self.homes.allocator(), count)?;
        chain(&self.homes, &mut self.before, &mut heads);
        self.heads = heads;
        Ok(())
    }

    /// Adds a slot that holds block i.
    pub fn push(&mut self, i: u32)
        requires { HasRoomFor 1 self.old }
        ensures slots { blocks_of self.new ≡ blocks_of self.old ++ i ∷ [] }
        ensures room { (n : ℕ) → HasRoomFor (n + 1) self.old → HasRoomFor n self.new }
    {
        let b = bucket(i, self.heads.len());
        self.before.push_reserved(self.heads[b]);
        self.homes.push_reserved(i);
        self.heads[b] = self.homes.len() as u32;
    }

    /// Gives up all slots and their memory.
    pub fn clear(&mut self)
        ensures { blocks_of self.new ≡ [] }
    {
        let alloc = *self.homes.allocator();
        *self = Slots::new(alloc);
    }
}
