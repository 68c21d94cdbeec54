//! Whether opening takes what is read.
ghost use Rattle.std.specs.Prelude.{◌≡◌, ◌<◌, ◌↔◌, IfOk, false, is_none, length, true};
ghost use Rattle.block_device.specs.Device.{Counts, block_at};
ghost use Rattle.page_file.specs.Opening.{failed_check};
ghost use Rattle.logged_pair.specs.Standing.{pair_of, shown_of, IsHonest, IsStill};

use crate::pair::LoggedPair;
use block_bytes::zero_block;
use block_device::DeviceError;
use device_pair::DevicePair;
use page_file::opening_fault;
use std::alloc::Allocator;

impl<P: DevicePair, A: Allocator + Copy> LoggedPair<P, A> {
    // Reads block i where there are three blocks, fewer than which opening refuses. Tells whether it did.
    fn read_where_there(&mut self, i: u32, into: &mut [u8; 4096]) -> Result<bool, DeviceError>
        requires { i < 3 }
        ensures bytes { IsHonest self.old →
            IfOk result (λ t. t ≡ true → into.new ≡ block_at i (shown_of self.old)) }
        ensures none { IsHonest self.old → IfOk result (λ t. t ≡ false → length (shown_of self.old) < 3) }
        ensures still { IsHonest self.old → IsStill self.old self.new }
        ensures honest { IsHonest self.old ↔ IsHonest self.new }
        ensures faults { Counts (P.faults (pair_of self.old)) (P.faults (pair_of self.new)) result }
    {
        if self.blocks() < 3 {
            return Ok(false);
        }
        self.read(i, into)?;
        Ok(true)
    }

    // Whether opening takes what is read.
    pub(crate) fn is_taken(&mut self) -> Result<bool, DeviceError>
        ensures is { IsHonest self.old → IfOk result (λ t. is_none (failed_check (shown_of self.old)) ≡ t) }
        ensures still { IsHonest self.old → IsStill self.old self.new }
        ensures honest { IsHonest self.old ↔ IsHonest self.new }
        ensures faults { Counts (P.faults (pair_of self.old)) (P.faults (pair_of self.new)) result }
    {
        let mut gate = zero_block();
        if !self.read_where_there(0, &mut gate)? {
            return Ok(false);
        }
        let mut header = zero_block();
        if !self.read_where_there(1, &mut header)? {
            return Ok(false);
        }
        let fault = opening_fault(&gate, &header, self.blocks());
        Ok(fault.is_none())
    }
}
