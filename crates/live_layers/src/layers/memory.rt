//! Where the layers' answers take their memory from.

ghost use Rattle.std.specs.Prelude.{◌≡◌};
ghost use Rattle.live_layers.specs.Keeping.{alloc_of};

use crate::layers::Layers;
use block_device::BlockDevice;
use std::alloc::Allocator;

impl<B: BlockDevice, A: Allocator + Copy> Layers<B, A> {
    /// Where answers take their memory from.
    pub fn alloc(&self) -> A
        ensures { result ≡ alloc_of self.now }
    {
        self.alloc
    }
}
