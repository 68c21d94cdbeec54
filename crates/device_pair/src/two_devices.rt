//! Two devices as a pair.
ghost use Rattle.std.specs.Prelude.{◌≡◌, ◌∷◌, ◌^◌, ◌<◌, List, [], length};
ghost use Rattle.block_device.specs.Fuse.{faults_with, faults_with-fits};
ghost use Rattle.device_pair.specs.Both.{Both, BothSince};
ghost use Rattle.device_pair.specs.BothLaws.{both_now, both_only, both_earlier};

mod memory;

use crate::{DevicePair, Snapshots};
use block_device::{BlockDevice, DeviceError};
pub use memory::MemoryPair;

/// Two devices of one disk, of which a stop leaves each as it is at the same moment.
///
/// The pair is honest where both are. What a stop may leave of it is what it may leave of each, taken
/// together at each moment: before each call, and now.
#[derive(Drop)]
pub struct TwoDevices<B: BlockDevice, J: BlockDevice> {
    base: B,
    journal: J,
    // both before each read, write and sync of either
    past: Snapshots<B, J>,
}

impl<B: BlockDevice + Drop, J: BlockDevice + Drop> TwoDevices<B, J> {
    /// A base and its journal.
    pub fn of(base: B, journal: J) -> TwoDevices<B, J>
        ensures base { result.base ≡ base }
        ensures journal { result.journal ≡ journal }
        ensures earlier { result.past.taken ≡ [] }
    {
        TwoDevices {
            base,
            journal,
            past: Snapshots::new(),
        }
    }

    /// The base and its journal, as they are.
    pub fn into_devices(self) -> (B, J)
        ensures base { result.0 ≡ self.base }
        ensures journal { result.1 ≡ self.journal }
    {
        (self.base, self.journal)
    }

    // Remembers both as they are, which costs nothing.
    fn remember(&mut self)
        ensures base { self.new.base ≡ self.old.base }
        ensures journal { self.new.journal ≡ self.old.journal }
        ensures taken { self.new.past.taken ≡ (self.old.base, self.old.journal) ∷ self.old.past.taken }
    {
        self.past = self.past.with(&self.base, &self.journal);
    }
}

impl<B: BlockDevice + Drop, J: BlockDevice + Drop> DevicePair for TwoDevices<B, J> {
    ghost base = { λ d. B.shown d.base };

    ghost journal = { λ d. J.shown d.journal };

    ghost honest = { λ d. B.honest d.base × J.honest d.journal };

    ghost may_leave = { λ d. Both B.may_leave J.may_leave d.base d.journal };

    ghost moment = { λ d. length d.past.taken };

    ghost left_since = { λ d. BothSince B.may_leave J.may_leave d.base d.journal d.past.taken };

    ghost faults = { λ d. faults_with (B.faults d.base) (J.faults d.journal) };

    // Each call is the one of its device, and leaves the other as it is.
    ghost read_base_gives = { λ d i into result bytes e.
        B.read_gives d.base i into result bytes e.base × (e.journal ≡ d.journal) };

    ghost read_journal_gives = { λ d i into result bytes e.
        J.read_gives d.journal i into result bytes e.journal × (e.base ≡ d.base) };

    ghost write_base_gives = { λ d i bytes result e.
        B.write_gives d.base i bytes result e.base × (e.journal ≡ d.journal) };

    ghost write_journal_gives = { λ d i bytes result e.
        J.write_gives d.journal i bytes result e.journal × (e.base ≡ d.base) };

    ghost sync_base_gives = { λ d result e. B.sync_gives d.base result e.base × (e.journal ≡ d.journal) };

    ghost sync_journal_gives = { λ d result e. J.sync_gives d.journal result e.journal × (e.base ≡ d.base) };

    fn base_blocks(&self) -> u32 {
        self.base.blocks()
    }

    fn journal_blocks(&self) -> u32 {
        self.journal.blocks()
    }

    fn read_base(&mut self, i: u32, into: &mut [u8; 4096]) -> Result<(), DeviceError> {
        self.remember();
        self.base.read(i, into)
    }

    fn read_journal(&mut self, i: u32, into: &mut [u8; 4096]) -> Result<(), DeviceError> {
        self.remember();
        self.journal.read(i, into)
    }

    fn write_base(&mut self, i: u32, bytes: &[u8; 4096]) -> Result<(), DeviceError> {
        self.remember();
        self.base.write(i, bytes)
    }

    fn write_journal(&mut self, i: u32, bytes: &[u8; 4096]) -> Result<(), DeviceError> {
        self.remember();
        self.journal.write(i, bytes)
    }

    fn sync_base(&mut self) -> Result<(), DeviceError> {
        self.remember();
        self.base.sync()
    }

    fn sync_journal(&mut self) -> Result<(), DeviceError> {
        self.remember();
        self.journal.sync()
    }

    ghost few_blocks = { λ d. (B.few_blocks d.base, J.few_blocks d.journal) };

    ghost shown_counts = { λ d honest. (B.shown_counts d.base honest.0, J.shown_counts d.journal honest.1) };

    ghost no_longer = { λ d a b honest left. (
      B.no_longer d.base a honest.0 left.0,
      J.no_longer d.journal b honest.1 left.1,
    ) };

    ghost whole = { λ d a b honest left. (
      B.whole d.base a honest.0 left.0,
      J.whole d.journal b honest.1 left.1,
    ) };

    ghost counts_now = { λ d t a b _ _ left.
        both_now B.may_leave J.may_leave d.base d.journal d.past.taken t a b left };

    ghost only_now = { λ d a b _ left.
        both_only B.may_leave J.may_leave d.base d.journal d.past.taken a b left };

    ghost since_earlier = { λ d t u a b _ le left.
        both_earlier B.may_leave J.may_leave d.base d.journal d.past.taken t u
        a b le left };

    ghost faults_fit = { λ d. faults_with-fits (B.faults d.base) (J.faults d.journal) };
}
