//! Pages of nodes of two axes that are written by hand, and caches over files that have them.

use block_bytes::{write_head, write_i32, write_u8, write_u32, write_u64};
use block_device::MemoryDevice;
use box_math::BBox;
use page_cache::PageCache;
use page_file::{Fault, PageFile, Version, open_pages};
use std::alloc::Global;
use test_caches::{Cache, cache_of};

/// An entry: its reference, its box from (x, y) to (u, v), and its tag.
pub type Row = (u64, [i32; 4], u32);

/// A page of a node.
#[derive(Clone, Copy)]
pub enum Page {
    /// A node on a level. Above the leaves no tag is looked at.
    Node(u8, &'static [Row]),
    /// A leaf of format 1, which has no tags: the bytes where others have them are 3.
    Old(&'static [Row]),
}

/// The box from (x, y) to (u, v).
pub fn box_of([x, y, u, v]: [i32; 4]) -> BBox<2> {
    BBox::try_new([x, y], [u, v]).unwrap_or_default()
}

/// The bytes of a page, with at most 100 of its rows.
pub fn bytes_of(page: Page) -> [u8; 4096] {
    match page {
        Page::Node(level, rows) => {
            let mut bytes = leaf_of(6, rows);
            write_u8(&mut bytes, 4, level);
            bytes
        }
        Page::Old(rows) => {
            let mut bytes = leaf_of(2, rows);
            bytes[2416..2816].copy_from_slice(&[3; 400]);
            bytes
        }
    }
}

// The bytes of a leaf of a kind.
fn leaf_of(kind: u8, rows: &[Row]) -> [u8; 4096] {
    let mut page = [0; 4096];
    let count = u16::try_from(rows.len()).unwrap_or(0);
    write_head(&mut page, kind, 2, count);
    for place in 0..rows.len().min(100) {
        let (reference, [x, y, u, v], tag) = rows[place];
        write_i32(&mut page, 16 + 4 * place, x);
        write_i32(&mut page, 416 + 4 * place, u);
        write_i32(&mut page, 816 + 4 * place, y);
        write_i32(&mut page, 1216 + 4 * place, v);
        write_u64(&mut page, 1616 + 8 * place, reference);
        write_u32(&mut page, 2416 + 4 * place, tag);
    }
    page
}

/// A cache of eight pages over a file that was closed and opened again, whose pages 3 and so on are these.
pub fn scene(alloc: Global, pages: &[Page]) -> Result<Cache, Fault> {
    let device = device_of(alloc, pages)?;
    match open_pages(device, Version::Three) {
        Ok(file) => cache_over(alloc, file),
        Err((fault, _)) => Err(fault),
    }
}

// The device of that file.
fn device_of(alloc: Global, pages: &[Page]) -> Result<MemoryDevice, Fault> {
    let mut written = Vec::new(alloc);
    for &page in pages {
        written.push(bytes_of(page))?;
    }
    let cache = cache_of(alloc, MemoryDevice::new(alloc), written.as_slice())?;
    match cache.close() {
        Ok(device) => Ok(device),
        Err((fault, _)) => Err(fault),
    }
}

fn cache_over(alloc: Global, file: PageFile<MemoryDevice>) -> Result<Cache, Fault> {
    match PageCache::over(alloc, file, 8) {
        Ok(cache) => Ok(cache),
        Err((fault, _)) => Err(fault),
    }
}
