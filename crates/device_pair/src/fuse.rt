//! A pair that fails at a call of one's choice, for tests of what its users then do.
ghost use Rattle.std.specs.Prelude.{◌≡◌, ◌<◌, ◌≤◌, ◌^◌, ◌-◌, true, if◌then◌else◌};
ghost use Rattle.block_device.specs.Device.{one_more};
ghost use Rattle.block_device.specs.Fuse.{faults_with, faults_with-fits};
ghost use Rattle.device_pair.specs.Fuse.{inner_of, passes_of, mode_of, calls_of, blown_of, fails_next};
ghost use Rattle.device_pair.specs.Fuse.{CallsBelow};

use crate::DevicePair;
use block_device::{DeviceError, FuseMode};

/// A pair whose read, write or sync of either side fails after so many that passed.
#[derive(Drop)]
pub struct FusePair<P: DevicePair> {
    inner: P,
    passes: u64,
    mode: FuseMode,
    // how many calls there were, and how many of them it failed
    calls: u64,
    blown: u64,
}

impl<P: DevicePair> FusePair<P> {
    /// A fuse over a pair. Of the reads, writes and syncs, number `passes` + 1 fails.
    pub fn new(inner: P, passes: u64, mode: FuseMode) -> Self
        requires { passes < 2 ^ 64 - 1 }
        ensures inner { inner_of result ≡ inner }
        ensures passes { passes_of result ≡ passes }
        ensures mode { mode_of result ≡ mode }
        ensures calls { calls_of result ≡ 0 }
        ensures blown { blown_of result ≡ 0 }
    {
        FusePair {
            inner,
            passes,
            mode,
            calls: 0,
            blown: 0,
        }
    }

    /// How many reads, writes and syncs there were, those that failed among them. It stays at u64::MAX.
    pub fn calls(&self) -> u64
        ensures { result ≡ calls_of self.now }
    {
        self.calls
    }

    /// The pair below, as it is.
    pub fn into_inner(self) -> P
        ensures { result ≡ inner_of self }
    {
        self.inner
    }

    // Counts a call, and says whether it is to fail.
    fn blows(&mut self) -> bool
        ensures fails { result ≡ fails_next self.old }
        ensures calls { calls_of self.new ≡ one_more (calls_of self.old) }
        ensures blown { blown_of self.new
            ≡ (if result then one_more (blown_of self.old) else blown_of self.old) }
        ensures inner { inner_of self.new ≡ inner_of self.old }
        ensures passes { passes_of self.new ≡ passes_of self.old }
        ensures mode { mode_of self.new ≡ mode_of self.old }
    {
        let at = self.calls;
        self.calls = at.saturating_add(1);
        let fails = match self.mode {
            FuseMode::Once => at == self.passes,
            FuseMode::Onward => at >= self.passes,
        };
        if fails {
            self.blown = self.blown.saturating_add(1);
        }
        fails
    }
}

impl<P: DevicePair> DevicePair for FusePair<P> {
    ghost base = { λ f. P.base (inner_of f) };

    ghost journal = { λ f. P.journal (inner_of f) };

    ghost honest = { λ f. P.honest (inner_of f) };

    ghost may_leave = { λ f. P.may_leave (inner_of f) };

    ghost moment = { λ f. P.moment (inner_of f) };

    ghost left_since = { λ f. P.left_since (inner_of f) };

    ghost faults = { λ f. faults_with (P.faults (inner_of f)) (blown_of f) };

    // A read that the fuse fails leaves the buffer, too.
    ghost read_base_gives = { λ f i into result bytes g.
        CallsBelow f g result (P.read_base_gives (inner_of f) i into result bytes (inner_of g)) ×
        (fails_next f ≡ true → bytes ≡ into) };

    ghost read_journal_gives = { λ f i into result bytes g.
        CallsBelow f g result (P.read_journal_gives (inner_of f) i into result bytes (inner_of g)) ×
        (fails_next f ≡ true → bytes ≡ into) };

    ghost write_base_gives = { λ f i bytes result g.
        CallsBelow f g result (P.write_base_gives (inner_of f) i bytes result (inner_of g)) };

    ghost write_journal_gives = { λ f i bytes result g.
        CallsBelow f g result (P.write_journal_gives (inner_of f) i bytes result (inner_of g)) };

    ghost sync_base_gives = { λ f result g.
        CallsBelow f g result (P.sync_base_gives (inner_of f) result (inner_of g)) };

    ghost sync_journal_gives = { λ f result g.
        CallsBelow f g result (P.sync_journal_gives (inner_of f) result (inner_of g)) };

    fn base_blocks(&self) -> u32 {
        self.inner.base_blocks()
    }

    fn journal_blocks(&self) -> u32 {
        self.inner.journal_blocks()
    }

    fn read_base(&mut self, i: u32, into: &mut [u8; 4096]) -> Result<(), DeviceError> {
        if self.blows() {
            return Err(DeviceError::Failed);
        }
        self.inner.read_base(i, into)
    }

    fn read_journal(&mut self, i: u32, into: &mut [u8; 4096]) -> Result<(), DeviceError> {
        if self.blows() {
            return Err(DeviceError::Failed);
        }
        self.inner.read_journal(i, into)
    }

    fn write_base(&mut self, i: u32, bytes: &[u8; 4096]) -> Result<(), DeviceError> {
        if self.blows() {
            return Err(DeviceError::Failed);
        }
        self.inner.write_base(i, bytes)
    }

    fn write_journal(&mut self, i: u32, bytes: &[u8; 4096]) -> Result<(), DeviceError> {
        if self.blows() {
            return Err(DeviceError::Failed);
        }
        self.inner.write_journal(i, bytes)
    }

    fn sync_base(&mut self) -> Result<(), DeviceError> {
        if self.blows() {
            return Err(DeviceError::Failed);
        }
        self.inner.sync_base()
    }

    fn sync_journal(&mut self) -> Result<(), DeviceError> {
        if self.blows() {
            return Err(DeviceError::Failed);
        }
        self.inner.sync_journal()
    }

    ghost few_blocks = { λ f. P.few_blocks (inner_of f) };

    ghost shown_counts = { λ f. P.shown_counts (inner_of f) };

    ghost no_longer = { λ f. P.no_longer (inner_of f) };

    ghost whole = { λ f. P.whole (inner_of f) };

    ghost counts_now = { λ f. P.counts_now (inner_of f) };

    ghost only_now = { λ f. P.only_now (inner_of f) };

    ghost since_earlier = { λ f. P.since_earlier (inner_of f) };

    ghost faults_fit = { λ f. faults_with-fits (P.faults (inner_of f)) (blown_of f) };
}
