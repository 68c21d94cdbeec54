//! Caches over new files, for the tests of what stands on pages.
#![tactic(auto)]

ghost use Rattle.std.specs.Prelude.{◌≡◌, ◌≤◌, IfOk};
ghost use Rattle.page_cache.specs.Cache.{gate_of};
ghost use Rattle.page_file.specs.declared.gate.Gate.TheVariants.{Open};

use block_device::{BlockDevice, MemoryDevice};
use page_cache::PageCache;
use page_file::{Fault, create_pages};
use std::alloc::Global;

/// A cache over a device in memory.
pub type Cache = PageCache<MemoryDevice, Global>;

/// A new file of pages with an open gate. No device of these tests has a block at first.
pub fn new_cache<B: BlockDevice + Drop>(
    alloc: Global,
    device: B,
    capacity: u32,
) -> Result<PageCache<B, Global>, Fault>
    requires { (8 ≤ capacity) × (capacity ≤ 4096) }
    ensures { IfOk result (λ cache. gate_of cache ≡ Open) }
{
    if device.blocks() != 0 {
        return Err(Fault::Device);
    }
    let file = create_pages(device).map_err(|(fault, _)| fault)?;
    let mut cache = PageCache::over(alloc, file, capacity).map_err(|(fault, _)| fault)?;
    cache.begin_change()?;
    Ok(cache)
}

/// A cache of 4096 pages in memory, in which none is given out but the catalog's.
pub fn bare(alloc: Global) -> Result<Cache, Fault>
    ensures { IfOk result (λ cache. gate_of cache ≡ Open) }
{
    new_cache(alloc, MemoryDevice::new(alloc), 4096)
}

/// A cache of eight pages over a new device, on which pages 3 and so on have these bytes. Its gate is open.
pub fn cache_of<B: BlockDevice + Drop>(
    alloc: Global,
    device: B,
    pages: &[[u8; 4096]],
) -> Result<PageCache<B, Global>, Fault>
    ensures { IfOk result (λ cache. gate_of cache ≡ Open) }
{
    let mut cache = new_cache(alloc, device, 8)?;
    for page in pages {
        let n = cache.allocate()?;
        cache.put(n, page)?;
    }
    Ok(cache)
}
