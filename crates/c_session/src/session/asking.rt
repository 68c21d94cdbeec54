//! The calls that ask what no command does: a range query in any order, and the join of given rows.
ghost use Rattle.std.specs.Prelude.{◌⊎◌, map};
ghost use Rattle.c_rows.specs.Boxes.{raw_query};
ghost use Rattle.c_rows.specs.Rows.{object_in};
ghost use Rattle.c_session.specs.Asking.{AsksRows, AsksUnordered};
ghost use Rattle.c_session.specs.Calls.{HasNoMemory, tag_of};

use crate::session::questions::tag_of;
use crate::session::{BAD_NUMBERS, CLOSED, Session};
use block_device::BlockDevice;
use c_rows::{Row, objects_of, raw_query, tell};
use plain_table::Refusal;
use std::alloc::Allocator;

impl<D: BlockDevice, A: Allocator + Copy> Session<D, A> {
    /// Asks as [`Session::range`] does, for the objects in any order, and keeps them.
    pub fn range_unordered(
        &mut self,
        layer: &[u8],
        kind: u32,
        numbers: &[i32],
        tagged: bool,
        tag: u32,
    ) -> u32
        ensures { AsksUnordered self.old self.new layer.now (raw_query kind numbers.now) (tag_of tagged tag)
            result }
    {
        let Some(query) = raw_query(kind, numbers) else {
            return BAD_NUMBERS;
        };
        let Some(store) = &mut self.store else {
            return CLOSED;
        };
        match store.range_unordered(layer, query, tag_of(tagged, tag)) {
            Ok(rows) => {
                self.boxes = rows;
                0
            }
            Err(refusal) => tell(refusal, &mut self.detail),
        }
    }

    /// Asks for the pairs of given rows, of two axes where `axes` is 2 and else of three, and of the objects of a layer
    /// that are at most this squared distance apart, and keeps them.
    pub fn join_rows(&mut self, alloc: A, axes: u32, rows: &[Row], layer: &[u8], within: u64) -> u32
        ensures { AsksRows self.old self.new (map (object_in axes) rows.now) layer.now within result
            ⊎ HasNoMemory self.old self.new result }
    {
        let Some(store) = &mut self.store else {
            return CLOSED;
        };
        let Ok(objects) = objects_of(alloc, axes, rows) else {
            return tell(Refusal::Memory, &mut self.detail);
        };
        match store.join_rows(objects.as_slice(), layer, within) {
            Ok(pairs) => {
                self.pairs = pairs;
                0
            }
            Err(refusal) => tell(refusal, &mut self.detail),
        }
    }
}
