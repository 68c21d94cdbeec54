//! Who tells whether a store opens over a file and its journal.
ghost use Rattle.std.specs.Prelude.{◌≡◌};

use block_device::BlockDevice;
use file_device::OpenError;
use journaled_file::StoreJudge;
use layer_store::{Refusal, Version, open_store};
use std::alloc::Global;

/// Opens the store that lies on a device by all checks of opening, and gives it up.
#[derive(Drop)]
pub struct OpeningJudge {
    alloc: Global,
    cache: u32,
    newest: Version,
    create: bool,
    refusal: Option<Refusal>,
}

impl OpeningJudge {
    /// One that opens stores with so many cached pages, of this version at most. With `create` none opens: one is
    /// to be made, where there are no blocks.
    pub fn of(alloc: Global, cache: u32, newest: Version, create: bool) -> OpeningJudge {
        OpeningJudge {
            alloc,
            cache,
            newest,
            create,
            refusal: None,
        }
    }

    /// Why the store was refused, if one was.
    pub fn refusal(&self) -> Option<Refusal>
        ensures { result ≡ self.now.refusal }
    {
        self.refusal
    }
}

impl StoreJudge for OpeningJudge {
    fn opens<D: BlockDevice + Drop>(&mut self, device: D) -> (Result<bool, OpenError>, D) {
        if self.create {
            return (Ok(false), device);
        }
        match open_store(self.alloc, device, self.cache, self.newest) {
            Ok(store) => (Ok(true), store.abandon()),
            Err((refusal, device)) => {
                self.refusal = Some(refusal);
                (told(refusal), device)
            }
        }
    }
}

// What a refusal says of the blocks: nothing where memory or the device failed.
fn told(refusal: Refusal) -> Result<bool, OpenError> {
    match refusal {
        Refusal::Memory => Err(OpenError::Memory),
        Refusal::Device => Err(OpenError::Refused),
        _ => Ok(false),
    }
}
