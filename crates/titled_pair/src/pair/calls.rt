//! The calls of a pair whose journal has a title.
ghost use Rattle.std.specs.Prelude.{◌≡◌, ◌<◌, ◌≤◌, ◌-◌, ◌^◌, length, refl};
ghost use Rattle.titled_pair.specs.Pair.{journal_of, left_since_of, may_leave_of, pair_of};
ghost use Rattle.titled_pair.specs.TitleLaws.{few_behind, no_longer_behind, untitled_whole_of};

use crate::TITLE_BLOCKS;
use crate::pair::TitledPair;
use block_device::DeviceError;
use device_pair::DevicePair;

const MOST_BLOCKS: u32 = 1 << 31;

impl<P: DevicePair + Drop> DevicePair for TitledPair<P> {
    ghost base = { λ d. P.base (pair_of d) };

    ghost journal = { λ d. journal_of d };

    ghost honest = { λ d. P.honest (pair_of d) };

    ghost may_leave = { λ d. may_leave_of d };

    ghost moment = { λ d. P.moment (pair_of d) };

    ghost left_since = { λ d. left_since_of d };

    ghost faults = { λ d. P.faults (pair_of d) };

    fn base_blocks(&self) -> u32 {
        self.pair.base_blocks()
    }

    fn journal_blocks(&self) -> u32 {
        self.pair.journal_blocks().saturating_sub(TITLE_BLOCKS)
    }

    fn read_base(&mut self, i: u32, into: &mut [u8; 4096]) -> Result<(), DeviceError> {
        self.pair.read_base(i, into)
    }

    fn read_journal(&mut self, i: u32, into: &mut [u8; 4096]) -> Result<(), DeviceError> {
        self.pair.read_journal(i + TITLE_BLOCKS, into)
    }

    fn write_base(&mut self, i: u32, bytes: &[u8; 4096]) -> Result<(), DeviceError> {
        self.pair.write_base(i, bytes)
    }

    // A journal of 2^31 blocks has no room for one more.
    fn write_journal(&mut self, i: u32, bytes: &[u8; 4096]) -> Result<(), DeviceError> {
        let at = i + TITLE_BLOCKS;
        if at >= MOST_BLOCKS || at > self.pair.journal_blocks() {
            return Err(DeviceError::Memory);
        }
        self.pair.write_journal(at, bytes)
    }

    fn sync_base(&mut self) -> Result<(), DeviceError> {
        self.pair.sync_base()
    }

    fn sync_journal(&mut self) -> Result<(), DeviceError> {
        self.pair.sync_journal()
    }

    ghost few_blocks = { λ d.
        few_behind (P.base (pair_of d)) (P.journal (pair_of d)) (P.few_blocks (pair_of d)) };

    ghost shown_counts = { λ d honest. (P.journal (pair_of d), P.shown_counts (pair_of d) honest, refl) };

    ghost no_longer = { λ d a b honest left.
        no_longer_behind (P.base (pair_of d)) (P.journal (pair_of d)) a left.0 b
        left.2 (P.no_longer (pair_of d) a left.0 honest left.1) };

    ghost whole = { λ d a b honest left.
        untitled_whole_of a left.0 b left.2 (P.whole (pair_of d) a left.0 honest left.1) };

    ghost counts_now = { λ d t a b honest le left. (
      left.0,
      P.counts_now (pair_of d) t a left.0 honest le left.1,
      left.2,
    ) };

    ghost only_now = { λ d a b honest left. (left.0, P.only_now (pair_of d) a left.0 honest left.1, left.2) };

    ghost since_earlier = { λ d t u a b honest le left. (
      left.0,
      P.since_earlier (pair_of d) t u a left.0 honest le left.1,
      left.2,
    ) };

    ghost faults_fit = { λ d. P.faults_fit (pair_of d) };
}
