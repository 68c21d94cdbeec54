//! The session.
ghost use Rattle.std.specs.Prelude.{◌≡◌, [], None, Some};
ghost use Rattle.c_session.specs.Outlining.{nodes_of};

mod asking;
mod changes;
mod fetching;
mod outlining;
mod parts;
mod questions;
mod rolling_back;
mod whole;

use block_device::BlockDevice;
use layer_store::{Store, Version};
use live_layers::LayerOutline;
use plain_table::AnyBox;
use std::alloc::{Allocator, Global};

/// What a call answers of a session that is closed, or that has no store since it could not be rolled back.
pub const CLOSED: u32 = 103;

/// What it answers where its numbers are no box, point or query.
pub const BAD_NUMBERS: u32 = 104;

/// What a change answers of a session that is only read.
pub const READ_ONLY: u32 = 105;

/// How a store is opened: how many pages it holds in memory, and of which version its file may become.
#[derive(Clone, Copy, Drop)]
pub struct Opening {
    /// How many pages, 8 to 4096.
    pub cache: u32,
    /// The newest version.
    pub newest: Version,
}

/// A store, until it is closed, with the rows that were answered last.
///
/// Each call answers 0, the number of a refusal (1 to 25), or one of the numbers above. One of these leaves
/// the session as it is.
#[derive(Drop)]
pub struct Session<D: BlockDevice, A: Allocator = Global> {
    store: Option<Store<D, A>>,
    // where there is no store, the device of one that was given up and could not be opened again
    left: Option<D>,
    // how it is opened again
    opening: Opening,
    read_only: bool,
    // what the last range query answered, ascending by identifier
    boxes: Vec<(u64, AnyBox, u32), A>,
    // what the last nearest query answered: identifiers and squared distances
    near: Vec<(u64, u128), A>,
    // what the last join answered
    pairs: Vec<(u64, u64), A>,
    // the nodes of the tree that was asked for last
    outline: LayerOutline<A>,
    // the number that came with the last refusal: a page, an identifier or a fault, else 0
    detail: u64,
}

impl<D: BlockDevice, A: Allocator + Copy> Session<D, A> {
    /// A session over a store that was opened so, which is only read where that is wanted. What came with its
    /// opening is its first detail.
    pub fn over(
        alloc: A,
        store: Store<D, A>,
        opening: Opening,
        read_only: bool,
        detail: u64,
    ) -> Session<D, A>
        ensures store { result.store ≡ Some store }
        ensures left { result.left ≡ None }
        ensures opening { result.opening ≡ opening }
        ensures read_only { result.read_only ≡ read_only }
        ensures detail { result.detail ≡ detail }
        ensures boxes { result.boxes.items ≡ [] }
        ensures near { result.near.items ≡ [] }
        ensures pairs { result.pairs.items ≡ [] }
        ensures outline { nodes_of result.outline ≡ 0 }
    {
        Session {
            store: Some(store),
            left: None,
            opening,
            read_only,
            boxes: Vec::new(alloc),
            near: Vec::new(alloc),
            pairs: Vec::new(alloc),
            outline: LayerOutline::Two(Vec::new(alloc)),
            detail,
        }
    }

    /// Whether it is only read.
    pub fn is_read_only(&self) -> bool
        ensures { result ≡ self.now.read_only }
    {
        self.read_only
    }

    /// The number that came with the last refusal.
    pub fn detail(&self) -> u64
        ensures { result ≡ self.now.detail }
    {
        self.detail
    }
}
