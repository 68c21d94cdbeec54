//! The faults of a file of pages.
ghost use Rattle.std.specs.Prelude.{◌≡◌};
ghost use Rattle.page_file.specs.Fault.{fault_of, number_of};

use block_device::DeviceError;
use std::alloc::{AllocError, AllocFailed};
use thiserror::Error;

/// Why a call on a file of pages did not do what it was asked.
#[derive(Clone, Copy, Debug, PartialEq, Eq, Drop, Error)]
pub enum Fault {
    /// Memory was refused.
    #[error("no memory")]
    Memory,
    /// The device failed in this call.
    #[error("the device failed")]
    Device,
    /// The page of this number is not what it must be, or there is no such page.
    #[error("page {0} is damaged")]
    Damaged(u32),
    /// The gate is not shut: the file was not closed after a change.
    #[error("the file was not closed")]
    NotClosed,
    /// Gate or header are not those of a store.
    #[error("not a store's file")]
    NotAStore,
    /// The header's version is not known.
    #[error("the version is not known")]
    WrongVersion,
    /// No page number is left.
    #[error("no page number is left")]
    NoPages,
}

impl Fault {
    /// The number of this fault in the one numbering of all refusals (docs/FORMAT.md, "Faults").
    pub fn number(&self) -> u8
        ensures { result ≡ number_of self.now }
    {
        match self {
            Fault::Memory => 16,
            Fault::Device => 17,
            Fault::Damaged(_) => 18,
            Fault::NotClosed => 20,
            Fault::NotAStore => 21,
            Fault::WrongVersion => 22,
            Fault::NoPages => 25,
        }
    }
}

impl From<DeviceError> for Fault {
    ghost from_gives = { λ e f. f ≡ fault_of e };

    fn from(e: DeviceError) -> Self {
        match e {
            DeviceError::Failed => Fault::Device,
            DeviceError::Memory => Fault::Memory,
        }
    }
}

impl From<AllocError> for Fault {
    ghost use Rattle.page_file.specs.declared.fault.Fault.TheVariants.{Memory};

    ghost from_gives = { λ _ f. f ≡ Memory };

    fn from(_: AllocError) -> Self {
        Fault::Memory
    }
}

impl<T: Drop> From<AllocFailed<T>> for Fault {
    ghost use Rattle.page_file.specs.declared.fault.Fault.TheVariants.{Memory};

    ghost from_gives = { λ _ f. f ≡ Memory };

    fn from(_: AllocFailed<T>) -> Self {
        Fault::Memory
    }
}
