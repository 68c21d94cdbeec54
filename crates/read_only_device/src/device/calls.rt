//! Its calls.
ghost use Rattle.std.specs.Prelude.{◌≡◌, Err, IsOk};
ghost use Rattle.std.proofs.Common.{refl};
ghost use Rattle.block_device.specs.declared.device.DeviceError.TheVariants.{Failed};
ghost use Rattle.read_only_device.specs.ReadOnly.{left_is_whole, one_longer, reader_of, refusals_of};

use crate::{BlockReader, ReadOnlyDevice};
use block_device::{BlockDevice, DeviceError};

impl<'a, R: BlockReader> ReadOnlyDevice<'a, R> {
    /// The device over a reader.
    pub fn over(reader: &'a R) -> ReadOnlyDevice<'a, R>
        ensures reader { reader_of result ≡ reader.now }
        ensures no_fault { refusals_of result ≡ 0 }
    {
        ReadOnlyDevice { reader, faults: 0 }
    }
}

impl<'a, R: BlockReader> BlockDevice for ReadOnlyDevice<'a, R> {
    ghost shown = { λ d. R.shown (reader_of d) };

    ghost honest = { λ d. R.honest (reader_of d) };

    ghost may_leave = { λ d c. c ≡ R.shown (reader_of d) };

    ghost moment = { λ _. 0 };

    ghost left_since = { λ d _ c. c ≡ R.shown (reader_of d) };

    ghost faults = { λ d. refusals_of d };

    // The reader stays, by each call.
    ghost read_gives = { λ d _ _ _ _ e. reader_of e ≡ reader_of d };

    // A write fails.
    ghost write_gives = { λ d _ _ result e. (result ≡ Err Failed) × (reader_of e ≡ reader_of d) };

    ghost sync_gives = { λ d result e. IsOk result × (e ≡ d) };

    fn blocks(&self) -> u32 {
        self.reader.blocks()
    }

    fn read(&mut self, i: u32, into: &mut [u8; 4096]) -> Result<(), DeviceError> {
        let answer = self.reader.read(i, into);
        if let Err(DeviceError::Failed) = answer {
            self.faults = self.faults.saturating_add(1);
        }
        answer
    }

    fn write(&mut self, _: u32, _: &[u8; 4096]) -> Result<(), DeviceError> {
        self.faults = self.faults.saturating_add(1);
        Err(DeviceError::Failed)
    }

    fn sync(&mut self) -> Result<(), DeviceError> {
        Ok(())
    }

    ghost few_blocks = { λ d. R.few_blocks (reader_of d) };

    ghost shown_counts = { λ d _. refl };

    ghost no_longer = { λ d c _ left. one_longer c (R.shown (reader_of d)) left };

    ghost whole = { λ d c honest left.
        left_is_whole c (R.shown (reader_of d)) left (R.whole (reader_of d) honest) };

    ghost counts_now = { λ _ _ _ _ _ left. left };

    ghost only_now = { λ _ _ _ left. left };

    ghost since_earlier = { λ _ _ _ _ _ _ left. left };

    ghost brought_now = { λ d c _ found. absurd found };

    ghost committed = { λ d k _ _ _ kept. absurd kept };

    ghost faults_fit = { λ d. d.fit };
}
