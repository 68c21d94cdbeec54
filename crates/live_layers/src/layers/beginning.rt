//! The gate opened for a change of pages.

ghost use Rattle.std.specs.Prelude.{◌≡◌, false, IfErr};
ghost use Rattle.page_file.specs.Fault.{IsOfDevice};
ghost use Rattle.plain_table.specs.Table.{Table};
ghost use Rattle.page_cache.specs.Cache.{touched_of};
ghost use Rattle.live_layers.specs.Begun.{Begins};
ghost use Rattle.live_layers.specs.Broken.{told_by};
ghost use Rattle.live_layers.specs.Keeping.{IsSound, cache_of};
ghost use Rattle.live_layers.specs.Staying.{KeepsPagesAndRecords};

use crate::broken::Broken;
use crate::layers::Layers;
use block_device::BlockDevice;
use page_file::Fault;
use std::alloc::Allocator;

impl<B: BlockDevice, A: Allocator + Copy> Layers<B, A> {
    // Opens the gate for a change of the pages, which stay.
    pub(crate) fn begin(&mut self) -> Result<(), Broken>
        ensures begins { Begins (cache_of self.old) (cache_of self.new) result }
        ensures untouched { IfErr result (λ b. b.touched ≡ false) }
        ensures clear { touched_of (cache_of self.new) ≡ false }
        ensures faults { IfErr result (λ b. IsOfDevice b.cause) }
        ensures keeps { KeepsPagesAndRecords self.old self.new }
        ensures count { self.new.object_count ≡ self.old.object_count }
        ensures sound { (t : Table) → IsSound self.old t → IsSound self.new t }
    {
        self.cache.begin_change()?;
        Ok(())
    }

    // Why a change of the pages broke off that was begun and met this fault: the cache tells whether it
    // touched a page.
    pub(crate) fn broken_by(&self, cause: Fault) -> Broken
        ensures { result ≡ told_by (cache_of self.now) cause }
    {
        Broken {
            cause,
            touched: self.cache.is_touched(),
        }
    }
}
