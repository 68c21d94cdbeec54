//! A device that fails at a call of one's choice, for tests of what its users then do.
ghost use Rattle.std.specs.Prelude.{◌≡◌, ◌<◌, ◌≤◌, ◌^◌, ◌-◌, true, if◌then◌else◌};
ghost use Rattle.block_device.specs.Device.{one_more};
ghost use Rattle.block_device.specs.Fuse.{inner_of, passes_of, mode_of, calls_of, blown_of, fails_next};
ghost use Rattle.block_device.specs.Fuse.{faults_with};
ghost use Rattle.block_device.specs.Fuse.{faults_with-fits, CallsBelow};

use crate::{BlockDevice, DeviceError};

/// Whether a fuse that has failed a call lets the later ones pass.
#[derive(Clone, Copy, Debug, PartialEq, Eq, Drop)]
pub enum FuseMode {
    /// One call fails, and each later one passes.
    Once,
    /// Each later call fails too.
    Onward,
}

/// A device whose read, write or sync fails after so many that passed.
#[derive(Drop)]
pub struct FuseDevice<D: BlockDevice> {
    inner: D,
    passes: u64,
    mode: FuseMode,
    // how many calls there were, and how many of them it failed
    calls: u64,
    blown: u64,
}

impl<D: BlockDevice> FuseDevice<D> {
    /// A fuse over a device. Of the reads, writes and syncs, number `passes` + 1 fails.
    pub fn new(inner: D, passes: u64, mode: FuseMode) -> Self
        requires { passes < 2 ^ 64 - 1 }
        ensures inner { inner_of result ≡ inner }
        ensures passes { passes_of result ≡ passes }
        ensures mode { mode_of result ≡ mode }
        ensures calls { calls_of result ≡ 0 }
        ensures blown { blown_of result ≡ 0 }
    {
        FuseDevice {
            inner,
            passes,
            mode,
            calls: 0,
            blown: 0,
        }
    }

    /// How many reads, writes and syncs there were, those that failed among them. It stays at u64::MAX.
    pub fn calls(&self) -> u64
        ensures { result ≡ calls_of self.now }
    {
        self.calls
    }

    /// The device below, as it is.
    pub fn into_inner(self) -> D
        ensures { result ≡ inner_of self }
    {
        self.inner
    }

    // Counts a call, and says whether it is to fail.
    fn blows(&mut self) -> bool
        ensures fails { result ≡ fails_next self.old }
        ensures calls { calls_of self.new ≡ one_more (calls_of self.old) }
        ensures blown { blown_of self.new
            ≡ (if result then one_more (blown_of self.old) else blown_of self.old) }
        ensures inner { inner_of self.new ≡ inner_of self.old }
        ensures passes { passes_of self.new ≡ passes_of self.old }
        ensures mode { mode_of self.new ≡ mode_of self.old }
    {
        let at = self.calls;
        self.calls = at.saturating_add(1);
        let fails = match self.mode {
            FuseMode::Once => at == self.passes,
            FuseMode::Onward => at >= self.passes,
        };
        if fails {
            self.blown = self.blown.saturating_add(1);
        }
        fails
    }
}

impl<D: BlockDevice> BlockDevice for FuseDevice<D> {
    ghost shown = { λ f. D.shown (inner_of f) };

    ghost honest = { λ f. D.honest (inner_of f) };

    ghost may_leave = { λ f. D.may_leave (inner_of f) };

    ghost moment = { λ f. D.moment (inner_of f) };

    ghost left_since = { λ f. D.left_since (inner_of f) };

    ghost faults = { λ f. faults_with (D.faults (inner_of f)) (blown_of f) };

    // A read that the fuse fails leaves the buffer, too.
    ghost read_gives = { λ f i into result bytes g.
        CallsBelow f g result (D.read_gives (inner_of f) i into result bytes (inner_of g)) ×
        (fails_next f ≡ true → bytes ≡ into) };

    ghost write_gives = { λ f i bytes result g.
        CallsBelow f g result (D.write_gives (inner_of f) i bytes result (inner_of g)) };

    ghost sync_gives = { λ f result g.
        CallsBelow f g result (D.sync_gives (inner_of f) result (inner_of g)) };

    fn blocks(&self) -> u32 {
        self.inner.blocks()
    }

    fn read(&mut self, i: u32, into: &mut [u8; 4096]) -> Result<(), DeviceError> {
        if self.blows() {
            return Err(DeviceError::Failed);
        }
        self.inner.read(i, into)
    }

    fn write(&mut self, i: u32, bytes: &[u8; 4096]) -> Result<(), DeviceError> {
        if self.blows() {
            return Err(DeviceError::Failed);
        }
        self.inner.write(i, bytes)
    }

    fn sync(&mut self) -> Result<(), DeviceError> {
        if self.blows() {
            return Err(DeviceError::Failed);
        }
        self.inner.sync()
    }

    ghost few_blocks = { λ f. D.few_blocks (inner_of f) };

    ghost shown_counts = { λ f. D.shown_counts (inner_of f) };

    ghost no_longer = { λ f. D.no_longer (inner_of f) };

    ghost whole = { λ f. D.whole (inner_of f) };

    ghost counts_now = { λ f. D.counts_now (inner_of f) };

    ghost only_now = { λ f. D.only_now (inner_of f) };

    ghost since_earlier = { λ f. D.since_earlier (inner_of f) };

    ghost brought_now = { λ d c _ found. absurd found };

    ghost committed = { λ d k _ _ _ kept. absurd kept };

    ghost faults_fit = { λ f. faults_with-fits (D.faults (inner_of f)) (blown_of f) };
}
