//! What a file says of its numbers and its version, and its device given back as it is.
ghost use Rattle.std.specs.Prelude.{◌≡◌};
ghost use Rattle.page_file.specs.File.{device_of, free_count_of, next_of, version_of};

use crate::file::PageFile;
use crate::header::Version;
use block_device::BlockDevice;

impl<D: BlockDevice> PageFile<D> {
    /// One more than the greatest page number given out.
    pub fn next_number(&self) -> u32
        ensures { result ≡ next_of self.now }
    {
        self.header.next
    }

    /// How many pages are free.
    pub fn free_count(&self) -> u32
        ensures { result ≡ free_count_of self.now }
    {
        self.header.count
    }

    /// What its pages may be.
    pub fn version(&self) -> Version
        ensures { result ≡ version_of self.now }
    {
        self.header.version
    }

    /// The device as it is, without a call of it.
    pub fn abandon(self) -> D
        ensures { result ≡ device_of self }
    {
        self.device
    }
}
