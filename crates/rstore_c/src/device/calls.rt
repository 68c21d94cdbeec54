//! The calls of the library's device, each that of the device below.
ghost use Rattle.journaled_device.specs.DeviceLaws.{few_shown};
ghost use Rattle.journaled_device.specs.Journaled.{inner_of};
ghost use Rattle.rstore_c.specs.Device.{faults_below_fit, few_below, recovery_through};

use crate::device::{LibraryDevice, WithJournal};
use block_device::{BlockDevice, DeviceError};
use journaled_device::GivesUp;

impl BlockDevice for LibraryDevice {
    ghost shown = { λ d. ⟦<WithJournal as BlockDevice>⟧.shown d.below };

    ghost honest = { λ d. ⟦<WithJournal as BlockDevice>⟧.honest d.below };

    ghost may_leave = { λ d. ⟦<WithJournal as BlockDevice>⟧.may_leave d.below };

    ghost moment = { λ d. ⟦<WithJournal as BlockDevice>⟧.moment d.below };

    ghost left_since = { λ d. ⟦<WithJournal as BlockDevice>⟧.left_since d.below };

    ghost recovery = { recovery_through (λ d. d.below) ⟦<WithJournal as BlockDevice>⟧.recovery };

    ghost faults = { λ d. ⟦<WithJournal as BlockDevice>⟧.faults d.below };

    ghost sync_gives = { λ d result e. ⟦<WithJournal as BlockDevice>⟧.sync_gives d.below result e.below };

    fn blocks(&self) -> u32 {
        self.below.blocks()
    }

    fn read(&mut self, i: u32, into: &mut [u8; 4096]) -> Result<(), DeviceError> {
        self.below.read(i, into)
    }

    fn write(&mut self, i: u32, bytes: &[u8; 4096]) -> Result<(), DeviceError> {
        self.below.write(i, bytes)
    }

    fn sync(&mut self) -> Result<(), DeviceError> {
        self.below.sync()
    }

    ghost few_blocks = { λ d. few_shown (inner_of d.below) (few_below d) };

    // It is never honest, as no file is that C serves.
    ghost shown_counts = { λ _ never. absurd never.0 };

    ghost no_longer = { λ _ _ never. absurd never.0 };

    ghost whole = { λ _ _ never. absurd never.0 };

    ghost counts_now = { λ _ _ _ never. absurd never.0 };

    ghost only_now = { λ _ _ never. absurd never.0 };

    ghost since_earlier = { λ _ _ _ _ never. absurd never.0 };

    ghost brought_now = { λ _ _ never. absurd never.0 };

    ghost committed = { λ _ _ never. absurd never.0 };

    ghost faults_fit = { faults_below_fit };
}

impl GivesUp for LibraryDevice {
    fn give_up(&mut self) -> Result<(), DeviceError> {
        self.below.give_up()
    }
}
