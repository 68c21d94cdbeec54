//! The calls of a pair of which nothing is written.
ghost use Rattle.std.specs.Prelude.{◌≡◌, ◌<◌, ◌≤◌, length, refl, Err, IsErrOf, IsOk};
ghost use Rattle.block_device.specs.Fuse.{faults_with-fits};
ghost use Rattle.block_device.specs.declared.device.DeviceError.TheVariants.{Failed};
ghost use Rattle.device_pair.specs.BothLaws.{both_earlier, both_now, both_only};
ghost use Rattle.unwritten_pair.specs.Held.{HasJournal, HasBase};
ghost use Rattle.unwritten_pair.specs.HeldLaws.{few_blocks_of, no_longer_of, whole_of};
ghost use Rattle.unwritten_pair.specs.Pair.{base_of, behind_of, faults_of, journal_of, left_since_of};
ghost use Rattle.unwritten_pair.specs.Pair.{may_leave_of, moment_of, own_of, pair_of, past_of, refusals_of};
ghost use Rattle.unwritten_pair.specs.Pair.{HasPut, IsHonest, IsSame};

use crate::pair::UnwrittenPair;
use crate::pair::writing::drop_unnumbered;
use block_device::DeviceError;
use device_pair::DevicePair;
use std::alloc::Allocator;

impl<P: DevicePair + Drop, A: Allocator + Copy> DevicePair for UnwrittenPair<P, A> {
    ghost base = { λ d. base_of d };

    ghost journal = { λ d. journal_of d };

    ghost honest = { λ d. IsHonest d };

    ghost may_leave = { λ d. may_leave_of d };

    ghost moment = { λ d. moment_of d };

    ghost left_since = { λ d. left_since_of d };

    ghost faults = { λ d. faults_of d };

    // A read leaves the blocks of its pair, and those in memory.
    ghost read_base_gives = { λ d _ _ _ _ e. IsHonest d → IsSame d e };

    ghost read_journal_gives = { λ d _ _ _ _ e. IsHonest d → IsSame d e };

    // A write leaves its pair, and one of the base fails.
    ghost write_base_gives = { λ d _ _ result e. (result ≡ Err Failed) × (pair_of e ≡ pair_of d) };

    ghost write_journal_gives = { λ d i _ result e. HasPut d i result e };

    // A sync leaves all.
    ghost sync_base_gives = { λ d result e. IsOk result × (e ≡ d) };

    ghost sync_journal_gives = { λ d result e. IsOk result × (e ≡ d) };

    fn base_blocks(&self) -> u32 {
        self.pair.base_blocks()
    }

    fn journal_blocks(&self) -> u32 {
        self.pair.journal_blocks() + self.behind.len() as u32
    }

    fn read_base(&mut self, i: u32, into: &mut [u8; 4096]) -> Result<(), DeviceError> {
        let answer = self.pair.read_base(i, into);
        drop_unnumbered(&self.pair, &mut self.behind);
        answer
    }

    fn read_journal(&mut self, i: u32, into: &mut [u8; 4096]) -> Result<(), DeviceError> {
        let own = self.pair.journal_blocks();
        if i >= own {
            *into = self.behind[(i - own) as usize];
            return Ok(());
        }
        let answer = self.pair.read_journal(i, into);
        drop_unnumbered(&self.pair, &mut self.behind);
        answer
    }

    fn write_base(&mut self, _: u32, _: &[u8; 4096]) -> Result<(), DeviceError> {
        self.refuse()
    }

    fn write_journal(&mut self, i: u32, bytes: &[u8; 4096]) -> Result<(), DeviceError> {
        let own = self.pair.journal_blocks();
        if i < own {
            return self.refuse();
        }
        self.put((i - own) as usize, bytes)
    }

    // All is on disk that ever is.
    fn sync_base(&mut self) -> Result<(), DeviceError> {
        Ok(())
    }

    fn sync_journal(&mut self) -> Result<(), DeviceError> {
        Ok(())
    }

    ghost few_blocks = { λ d.
        few_blocks_of (base_of d) (own_of d) (behind_of d) (P.few_blocks (pair_of d)) d.few };

    ghost shown_counts = { λ d _. (refl, refl) };

    ghost no_longer = { λ d a b _ left. no_longer_of (base_of d) (journal_of d) a b left };

    ghost whole = { λ d a b honest left.
        whole_of (base_of d) (own_of d) (behind_of d) a b left
        (P.whole (pair_of d) (base_of d) (own_of d) honest (P.shown_counts (pair_of d) honest)) d.whole };

    ghost counts_now = { λ d t a b _ _ left.
        both_now (HasBase (base_of d)) (HasJournal (own_of d)) (pair_of d) d.behind (past_of d) t a b left };

    ghost only_now = { λ d a b _ left.
        both_only (HasBase (base_of d)) (HasJournal (own_of d)) (pair_of d) d.behind (past_of d) a b left };

    ghost since_earlier = { λ d t u a b _ le left.
        both_earlier (HasBase (base_of d)) (HasJournal (own_of d)) (pair_of d) d.behind (past_of d) t u
        a b le left };

    ghost faults_fit = { λ d. faults_with-fits (P.faults (pair_of d)) (refusals_of d) };
}
