//! A cache of pages: its type, and what its fields keep.
ghost use Rattle.std.specs.Prelude.{◌≡◌, ◌≤◌, ◌<◌, ◌^◌, ℕ, Some, IsSome, true, false};
ghost use Rattle.page_file.specs.File.{IsHonest, gate_of, given, next_of};
ghost use Rattle.page_file.specs.declared.gate.Gate.TheVariants.{Open};
ghost use Rattle.page_cache.specs.Frames.{frame_at};

mod change;
mod edit;
mod frames;
mod open;
mod pages;
mod settle;
mod view;

use crate::frame::Frame;
use block_device::BlockDevice;
use lru::{DefaultHasher, LruCache};
use page_file::PageFile;
use std::alloc::Allocator;

/// A cache over a file of pages: the same map from live page number to 4096 bytes, the same gate and the same
/// version as the file's, with pages held in memory and a count of looks.
///
/// A page that is put is changed in memory alone. It is written when it leaves the cache, in `flush`, in
/// `free_pages` and in `settle`; where that is refused it stays held. A page leaves where there is no room
/// for another one, and is then the one that was used least; it is the only one that a call lets go, but for
/// a free page that is given out, and `check_again`, which reads all anew.
///
/// Each call answers as the file's call of that name does, and may besides answer `Memory`. On a device that
/// is not honest, and on blocks that stand for no map of pages, each call is safe and returns.
#[derive(Drop)]
pub struct PageCache<D: BlockDevice, A: Allocator> {
    file: PageFile<D>,
    frames: LruCache<u32, Frame<A>, DefaultHasher, A>,
    // the bytes of a page that left, for the next one
    spare: Option<Box<[u8; 4096], A>>,
    looks: u64,
    // whether a page was put, given out or freed since `begin_change`
    touched: bool,
    ghost within: { (n : ℕ) → IsSome (frame_at frames.entries n) → (2 ≤ n) × (n < next_of file) },
    ghost true_to: { IsHonest file → (n : ℕ) (f : _) → frame_at frames.entries n ≡ Some f →
        f.changed ≡ false →
        given file n ≡ Some f.bytes.value },
    ghost behind_the_gate: { (n : ℕ) (f : _) → frame_at frames.entries n ≡ Some f → f.changed ≡ true →
        gate_of file ≡ Open },
    ghost counted: { looks < 2 ^ 64 },
}
