//! The call that gives up what was changed.
ghost use Rattle.std.specs.Prelude.{◌≡◌, IfErr, IfOk, None, Option};
ghost use Rattle.layer_store.specs.Faults.{IsMemoryOrDevice};
ghost use Rattle.block_device.specs.declared.device.DeviceError.TheVariants as error;
ghost use Rattle.plain_table.specs.declared.refusal.Refusal.TheVariants as refusal;
ghost use Rattle.c_session.specs.RollingBack.{IsBack, IsLeftOf, RollsBackBy, device_of};

use crate::session::{CLOSED, Opening, Session};
use block_device::{BlockDevice, DeviceError};
use c_rows::tell;
use journaled_device::GivesUp;
use layer_store::{Refusal, Store, open_store};
use std::alloc::Allocator;

// The refusal by a device.
fn refusal_by(fault: DeviceError) -> Refusal
    ensures failed { fault ≡ error.Failed → result ≡ refusal.Device }
    ensures memory { fault ≡ error.Memory → result ≡ refusal.Memory }
    ensures why { IsMemoryOrDevice result }
{
    match fault {
        DeviceError::Failed => Refusal::Device,
        DeviceError::Memory => Refusal::Memory,
    }
}

// The store that lies on a device once what it has not committed is given up.
fn reopened<D: GivesUp, A: Allocator + Copy>(
    alloc: A,
    device: D,
    opening: Opening,
) -> Result<Store<D, A>, (Refusal, D)>
    ensures back { IfOk result (IsBack device opening) }
    ensures left { IfErr result (λ e. IsLeftOf D.BlockDevice device opening e.0 e.1) }
{
    let mut device = device;
    if let Err(fault) = device.give_up() {
        return Err((refusal_by(fault), device));
    }
    open_store(alloc, device, opening.cache, opening.newest)
}

impl<D: BlockDevice, A: Allocator + Copy> Session<D, A> {
    // The device of the store, which is given up, or the one that was left.
    fn take_device(&mut self) -> Option<D>
        ensures device { result ≡ device_of self.old.store self.old.left }
        ensures none { result ≡ None → self.new ≡ self.old }
        ensures session { (left : Option D) × (self.new ≡ record self.old { store = None; left = left }) }
    {
        match self.store.take() {
            Some(store) => Some(store.abandon()),
            None => self.left.take(),
        }
    }
}

impl<D: GivesUp + Drop, A: Allocator + Copy> Session<D, A> {
    /// Gives up what was changed since the last closing, also of a store that has failed, and goes on. The rows
    /// that were answered last are kept.
    ///
    /// **Over an honest device the store then has one of the tables that its device was sure to bring back: the one
    /// that was closed last, or one whose closing was tried since** ([`crate::laws`]). Nothing is given up of a
    /// session that is only read.
    ///
    /// Refused, by `Memory` or `Device` where the store may have each version, the session has no store, and each
    /// call but this one answers 103; the device is sure to bring back the same, and it may be tried again.
    pub fn roll_back(&mut self, alloc: A) -> u32
        ensures { RollsBackBy self.old self.new result }
    {
        if self.read_only {
            return 0;
        }
        let opening = self.opening;
        let Some(device) = self.take_device() else {
            return CLOSED;
        };
        match reopened(alloc, device, opening) {
            Ok(store) => {
                self.store = Some(store);
                self.left = None;
                0
            }
            Err((refusal, device)) => {
                self.left = Some(device);
                tell(refusal, &mut self.detail)
            }
        }
    }
}
