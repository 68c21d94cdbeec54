//! The calls that ask of layers.
ghost use Rattle.std.specs.Prelude.{◌≡◌};
ghost use Rattle.plain_table.specs.Answers.{boxes_answer, count_answer, distances_answer, object_answer};
ghost use Rattle.plain_table.specs.Answers.{pairs_answer};
ghost use Rattle.plain_table.specs.Commands.Command.{Count, Get, Join, Nearest, Range};
ghost use Rattle.c_rows.specs.Boxes.{raw_point, raw_query};
ghost use Rattle.c_session.specs.Calls.{AsksBy, AsksWith, HasCount, HasObject, TellsBy, tag_of};
ghost use Rattle.c_session.specs.Keeping.{with_boxes, with_near, with_pairs};

use crate::session::{BAD_NUMBERS, CLOSED, Session};
use block_device::BlockDevice;
use c_rows::{Row, object_row, raw_point, raw_query, tell};
use std::alloc::Allocator;

// The tag that a query asks for, if it asks for one.
pub(super) fn tag_of(tagged: bool, tag: u32) -> Option<u32>
    ensures { result ≡ tag_of tagged tag }
{
    if tagged { Some(tag) } else { None }
}

impl<D: BlockDevice, A: Allocator + Copy> Session<D, A> {
    /// How many objects a layer has.
    pub fn count(&mut self, layer: &[u8], count: &mut u64) -> u32
        ensures { TellsBy self.old self.new (Count layer.now) count_answer
            (HasCount count.old count.new) result }
    {
        let Some(store) = &mut self.store else {
            return CLOSED;
        };
        match store.count(layer) {
            Ok(found) => {
                *count = found;
                0
            }
            Err(refusal) => tell(refusal, &mut self.detail),
        }
    }

    /// The box and the tag of an object, as a row.
    pub fn get(&mut self, layer: &[u8], id: u64, row: &mut Row) -> u32
        ensures { TellsBy self.old self.new (Get layer.now id) (object_answer id)
            (HasObject id row.old row.new) result }
    {
        let Some(store) = &mut self.store else {
            return CLOSED;
        };
        match store.get(layer, id) {
            Ok((bounds, tag)) => {
                *row = object_row(id, &bounds, tag);
                0
            }
            Err(refusal) => tell(refusal, &mut self.detail),
        }
    }

    /// Asks for the objects that meet a window (0), lie within it (1), enclose it (2), or hold a point (3),
    /// where it is tagged only for those that have the tag. The session keeps them.
    pub fn range(&mut self, layer: &[u8], kind: u32, numbers: &[i32], tagged: bool, tag: u32) -> u32
        ensures { AsksWith self.old self.new (raw_query kind numbers.now)
            (λ query. Range layer.now query (tag_of tagged tag)) boxes_answer with_boxes result }
    {
        let Some(query) = raw_query(kind, numbers) else {
            return BAD_NUMBERS;
        };
        let Some(store) = &mut self.store else {
            return CLOSED;
        };
        match store.range(layer, query, tag_of(tagged, tag)) {
            Ok(rows) => {
                self.boxes = rows;
                0
            }
            Err(refusal) => tell(refusal, &mut self.detail),
        }
    }

    /// Asks for the k objects that are nearest to a point, and keeps them.
    pub fn nearest(&mut self, layer: &[u8], k: u64, numbers: &[i32]) -> u32
        ensures { AsksWith self.old self.new (raw_point numbers.now) (λ p. Nearest layer.now k p)
            distances_answer with_near result }
    {
        let Some(point) = raw_point(numbers) else {
            return BAD_NUMBERS;
        };
        let Some(store) = &mut self.store else {
            return CLOSED;
        };
        match store.nearest(layer, k, point) {
            Ok(rows) => {
                self.near = rows;
                0
            }
            Err(refusal) => tell(refusal, &mut self.detail),
        }
    }

    /// Asks for the pairs of objects of two layers that are at most this squared distance apart, and keeps
    /// them.
    pub fn join(&mut self, first: &[u8], second: &[u8], within: u64) -> u32
        ensures { AsksBy self.old self.new (Join first.now second.now within) pairs_answer with_pairs result }
    {
        let Some(store) = &mut self.store else {
            return CLOSED;
        };
        match store.join(first, second, within) {
            Ok(rows) => {
                self.pairs = rows;
                0
            }
            Err(refusal) => tell(refusal, &mut self.detail),
        }
    }
}
