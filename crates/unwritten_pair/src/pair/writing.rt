//! How a block in memory is written, and how a write is refused.
ghost use Rattle.std.specs.Prelude.{◌≡◌, ◌∷◌, ◌++◌, ◌<◌, ◌≤◌, ◌+◌, ◌^◌, [], length, Err};
ghost use Rattle.std.specs.Prelude.{IsErrOf, OnErr, OnOk};
ghost use Rattle.std.specs.List.{All};
ghost use Rattle.block_device.specs.Device.{IsBlock, one_more, written};
ghost use Rattle.block_device.specs.declared.device.DeviceError.TheVariants.{Failed};
ghost use Rattle.device_pair.specs.Pairs.{PairElapses};
ghost use Rattle.unwritten_pair.specs.Pair.{behind_of, left_since_of, may_leave_of, moment_of, own_of};
ghost use Rattle.unwritten_pair.specs.Pair.{pair_of, past_of, refusals_of};

use crate::pair::UnwrittenPair;
use block_device::DeviceError;
use device_pair::DevicePair;
use std::alloc::Allocator;
use std::slice::from_ref;

const MOST_BLOCKS: usize = 1 << 31;

impl<P: DevicePair + Drop, A: Allocator + Copy> UnwrittenPair<P, A> {
    // Refuses a write. Nothing is written.
    pub(crate) fn refuse(&mut self) -> Result<(), DeviceError>
        ensures refused { result ≡ Err Failed }
        ensures pair { pair_of self.new ≡ pair_of self.old }
        ensures behind { behind_of self.new ≡ behind_of self.old }
        ensures time { PairElapses (moment_of self.old) (moment_of self.new) (left_since_of self.old)
            (left_since_of self.new) (may_leave_of self.new) }
        ensures counted { refusals_of self.new ≡ one_more (refusals_of self.old) }
    {
        self.refusals = self.refusals.saturating_add(1);
        Err(DeviceError::Failed)
    }

    // Remembers what is read, which costs nothing.
    fn remember(&mut self)
        ensures pair { pair_of self.new ≡ pair_of self.old }
        ensures behind { self.new.behind ≡ self.old.behind }
        ensures past { past_of self.new ≡ (pair_of self.old, self.old.behind) ∷ past_of self.old }
        ensures refusals { refusals_of self.new ≡ refusals_of self.old }
    {
        self.past = self.past.with(&self.pair, &self.behind);
    }

    // Writes a block that is in memory.
    fn put_there(&mut self, at: usize, bytes: &[u8; 4096])
        requires there { at < length (behind_of self.old) }
        ensures pair { pair_of self.new ≡ pair_of self.old }
        ensures written { behind_of self.new ≡ written at bytes.now (behind_of self.old) }
        ensures past { past_of self.new ≡ (pair_of self.old, self.old.behind) ∷ past_of self.old }
        ensures refusals { refusals_of self.new ≡ refusals_of self.old }
    {
        self.remember();
        self.behind[at] = *bytes;
    }

    // Appends a block to those in memory.
    fn append(&mut self, bytes: &[u8; 4096]) -> Result<(), DeviceError>
        requires room { length (own_of self.old) + length (behind_of self.old) < 2 ^ 31 }
        ensures pair { pair_of self.new ≡ pair_of self.old }
        ensures pushed { OnOk result (behind_of self.new ≡ behind_of self.old ++ bytes.now ∷ []) }
        ensures same { OnErr result (behind_of self.new ≡ behind_of self.old) }
        ensures memory { IsErrOf result Failed → ⊥ }
        ensures past { past_of self.new ≡ (pair_of self.old, self.old.behind) ∷ past_of self.old }
        ensures refusals { refusals_of self.new ≡ refusals_of self.old }
    {
        self.remember();
        self.behind.extend_from_slice(from_ref(bytes))?;
        Ok(())
    }

    // Writes a block in memory, or appends one.
    pub(crate) fn put(&mut self, at: usize, bytes: &[u8; 4096]) -> Result<(), DeviceError>
        requires within { at ≤ length (behind_of self.old) }
        requires room { length (own_of self.old) + at < 2 ^ 31 }
        ensures pair { pair_of self.new ≡ pair_of self.old }
        ensures written { OnOk result (behind_of self.new ≡ written at bytes.now (behind_of self.old)) }
        ensures same { OnErr result (behind_of self.new ≡ behind_of self.old) }
        ensures memory { IsErrOf result Failed → ⊥ }
        ensures past { past_of self.new ≡ (pair_of self.old, self.old.behind) ∷ past_of self.old }
        ensures refusals { refusals_of self.new ≡ refusals_of self.old }
    {
        if at < self.behind.len() {
            self.put_there(at, bytes);
            return Ok(());
        }
        self.append(bytes)
    }
}

// Drops the blocks in memory where they no longer have numbers: a pair that isn't honest may have got more
// blocks.
pub(crate) fn drop_unnumbered<P: DevicePair, A: Allocator>(
    pair: &P,
    behind: &mut Vec<[u8; 4096], A>,
)
    ensures few { length (P.journal pair.now) + length behind.new.items ≤ 2 ^ 31 }
    ensures same { length (P.journal pair.now) + length behind.old.items ≤ 2 ^ 31 →
        behind.new.items ≡ behind.old.items }
    ensures whole { All IsBlock behind.old.items → All IsBlock behind.new.items }
{
    if behind.len() > MOST_BLOCKS - pair.journal_blocks() as usize {
        behind.clear();
    }
}
