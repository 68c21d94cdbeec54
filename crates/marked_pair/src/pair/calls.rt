//! The calls of a pair behind a mark.
ghost use Rattle.std.specs.Prelude.{◌≡◌, ◌<◌, ◌≤◌, length, refl};
ghost use Rattle.block_device.specs.Fuse.{faults_with-fits};
ghost use Rattle.marked_pair.specs.Pair.{base_of, disk_of, faults_of, left_since_of, may_leave_of, pair_of};
ghost use Rattle.marked_pair.specs.Pair.{refusals_of};
ghost use Rattle.marked_pair.specs.PairLaws.{few_blocks_of, no_longer_of};
ghost use Rattle.marked_pair.specs.ShownLaws.{shown_whole};

use crate::mark::unmark;
use crate::pair::MarkedPair;
use block_device::DeviceError;
use device_pair::DevicePair;

impl<P: DevicePair + Drop> DevicePair for MarkedPair<P> {
    ghost base = { λ d. base_of d };

    ghost journal = { λ d. P.journal (pair_of d) };

    ghost honest = { λ d. P.honest (pair_of d) };

    ghost may_leave = { λ d. may_leave_of d };

    ghost moment = { λ d. P.moment (pair_of d) };

    ghost left_since = { λ d. left_since_of d };

    ghost faults = { λ d. faults_of d };

    fn base_blocks(&self) -> u32 {
        self.pair.base_blocks()
    }

    fn journal_blocks(&self) -> u32 {
        self.pair.journal_blocks()
    }

    fn read_base(&mut self, i: u32, into: &mut [u8; 4096]) -> Result<(), DeviceError> {
        self.pair.read_base(i, into)?;
        if i == 0 {
            unmark(into);
        }
        Ok(())
    }

    fn read_journal(&mut self, i: u32, into: &mut [u8; 4096]) -> Result<(), DeviceError> {
        self.pair.read_journal(i, into)
    }

    fn write_base(&mut self, i: u32, bytes: &[u8; 4096]) -> Result<(), DeviceError> {
        self.write_block(i, bytes)
    }

    fn write_journal(&mut self, i: u32, bytes: &[u8; 4096]) -> Result<(), DeviceError> {
        if self.is_early(i) {
            return self.refuse();
        }
        self.pair.write_journal(i, bytes)
    }

    fn sync_base(&mut self) -> Result<(), DeviceError> {
        self.sync_mark()
    }

    fn sync_journal(&mut self) -> Result<(), DeviceError> {
        self.pair.sync_journal()
    }

    ghost few_blocks = { λ d. few_blocks_of (disk_of d) (P.few_blocks (pair_of d)) };

    ghost shown_counts = { λ d honest. (disk_of d, P.shown_counts (pair_of d) honest, refl) };

    ghost no_longer = { λ d a b honest left.
        no_longer_of (disk_of d) (P.journal (pair_of d)) left.0 a b left.2
        (P.no_longer (pair_of d) left.0 b honest left.1) };

    ghost whole = { λ d a b honest left.
        let both = P.whole (pair_of d) left.0 b honest left.1 in
        (shown_whole left.0 a left.2 both.0, both.1) };

    ghost counts_now = { λ d t a b honest le left. (
      left.0,
      P.counts_now (pair_of d) t left.0 b honest le left.1,
      left.2,
    ) };

    ghost only_now = { λ d a b honest left. (left.0, P.only_now (pair_of d) left.0 b honest left.1, left.2) };

    ghost since_earlier = { λ d t u a b honest le left. (
      left.0,
      P.since_earlier (pair_of d) t u left.0 b honest le left.1,
      left.2,
    ) };

    ghost faults_fit = { λ d. faults_with-fits (P.faults (pair_of d)) (refusals_of d) };
}
