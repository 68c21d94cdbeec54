//! The rows that were answered last.
ghost use Rattle.std.specs.Prelude.{◌≡◌, length};
ghost use Rattle.c_rows.specs.Rows.{id_of, near_of, pair_of, row_of};
ghost use Rattle.c_session.specs.Fetching.{Fetches};

use crate::session::Session;
use block_device::BlockDevice;
use c_rows::{Near, Pair, Row, write_ids, write_nearest, write_objects, write_pairs};
use std::alloc::Allocator;

impl<D: BlockDevice, A: Allocator + Copy> Session<D, A> {
    /// How many rows the last range query has.
    pub fn boxes_len(&self) -> usize
        ensures { result ≡ length self.now.boxes.items }
    {
        self.boxes.len()
    }

    /// How many rows the last nearest query has.
    pub fn near_len(&self) -> usize
        ensures { result ≡ length self.now.near.items }
    {
        self.near.len()
    }

    /// How many rows the last join has.
    pub fn pairs_len(&self) -> usize
        ensures { result ≡ length self.now.pairs.items }
    {
        self.pairs.len()
    }

    /// Writes the rows of the last range query from the given one on into an array, as many as it has room
    /// for, and says how many.
    pub fn fetch_boxes(&self, from: usize, out: &mut [Row]) -> usize
        ensures { Fetches row_of self.now.boxes.items from out.old out.new result }
    {
        let rows = self.boxes.as_slice();
        if from > rows.len() {
            return 0;
        }
        write_objects(&rows[from..], out)
    }

    /// The same of their identifiers alone.
    pub fn fetch_ids(&self, from: usize, out: &mut [u64]) -> usize
        ensures { Fetches id_of self.now.boxes.items from out.old out.new result }
    {
        let rows = self.boxes.as_slice();
        if from > rows.len() {
            return 0;
        }
        write_ids(&rows[from..], out)
    }

    /// The same of the last nearest query.
    pub fn fetch_near(&self, from: usize, out: &mut [Near]) -> usize
        ensures { Fetches near_of self.now.near.items from out.old out.new result }
    {
        let rows = self.near.as_slice();
        if from > rows.len() {
            return 0;
        }
        write_nearest(&rows[from..], out)
    }

    /// The same of the last join.
    pub fn fetch_pairs(&self, from: usize, out: &mut [Pair]) -> usize
        ensures { Fetches pair_of self.now.pairs.items from out.old out.new result }
    {
        let rows = self.pairs.as_slice();
        if from > rows.len() {
            return 0;
        }
        write_pairs(&rows[from..], out)
    }
}
