//! The calls that keep, or tell, a part of an answer, and one that gets objects one by one.
ghost use Rattle.std.specs.Prelude.{◌≡◌, None};
ghost use Rattle.plain_table.specs.Commands.Command.{Range};
ghost use Rattle.c_rows.specs.Boxes.{raw_point, raw_query};
ghost use Rattle.c_session.specs.Calls.{tag_of};
ghost use Rattle.c_session.specs.Parts.{AsksAfter, AsksNearRows, GetsNear, TellsLast, everywhere};

use crate::session::questions::tag_of;
use crate::session::{BAD_NUMBERS, CLOSED, Session};
use block_device::BlockDevice;
use c_rows::{keep_after, keep_with, last_of, raw_point, raw_query, tell};
use layer_store::{Refusal, Store};
use plain_table::{AnyBox, RawBox, RawQuery};
use std::alloc::Allocator;

impl<D: BlockDevice, A: Allocator + Copy> Session<D, A> {
    /// Asks as `range` does, and of the rows keeps those whose identifiers are greater than this. It takes the memory
    /// of the whole answer.
    pub fn range_after(
        &mut self,
        layer: &[u8],
        kind: u32,
        numbers: &[i32],
        tagged: bool,
        tag: u32,
        after: u64,
    ) -> u32
        ensures { AsksAfter self.old self.new (raw_query kind numbers.now)
            (λ query. Range layer.now query (tag_of tagged tag)) after result }
    {
        let Some(query) = raw_query(kind, numbers) else {
            return BAD_NUMBERS;
        };
        let Some(store) = &mut self.store else {
            return CLOSED;
        };
        match store.range(layer, query, tag_of(tagged, tag)) {
            Ok(rows) => {
                let mut rows = rows;
                keep_after(&mut rows, after);
                self.boxes = rows;
                0
            }
            Err(refusal) => tell(refusal, &mut self.detail),
        }
    }

    /// The greatest identifier that is at most this, if there is one, of the objects of a layer of so many axes, 2
    /// or 3: all of them are asked for. The rows that were answered last stay.
    pub fn last(
        &mut self,
        layer: &[u8],
        axes: u32,
        most: u64,
        id: &mut u64,
        found: &mut bool,
    ) -> u32
        ensures { TellsLast self.old self.new layer.now axes most id.old id.new found.old found.new result }
    {
        let Some(store) = &mut self.store else {
            return CLOSED;
        };
        match store.range(layer, RawQuery::Window(everywhere(axes)), None) {
            Ok(rows) => {
                let last = last_of(rows.as_slice(), most);
                *found = last.is_some();
                *id = last.unwrap_or(*id);
                0
            }
            Err(refusal) => tell(refusal, &mut self.detail),
        }
    }

    /// Asks for the k objects that are nearest to a point, and gets each of them. It keeps the former, and of the
    /// latter, where it is tagged, those that have the tag, in the same order.
    pub fn nearest_rows(
        &mut self,
        layer: &[u8],
        k: u64,
        numbers: &[i32],
        tagged: bool,
        tag: u32,
    ) -> u32
        ensures { AsksNearRows self.old self.new layer.now k (raw_point numbers.now) (tag_of tagged tag)
            result }
    {
        let Some(point) = raw_point(numbers) else {
            return BAD_NUMBERS;
        };
        let Some(store) = &mut self.store else {
            return CLOSED;
        };
        let near = match store.nearest(layer, k, point) {
            Ok(near) => near,
            Err(refusal) => return tell(refusal, &mut self.detail),
        };
        match get_near(store, layer, near.as_slice(), tag_of(tagged, tag)) {
            Ok(objects) => {
                self.near = near;
                self.boxes = objects;
                0
            }
            Err(refusal) => tell(refusal, &mut self.detail),
        }
    }
}

// The box of all numbers.
fn everywhere(axes: u32) -> RawBox
    ensures { result ≡ everywhere axes }
{
    if axes == 2 {
        return RawBox::Two([i32::MIN; 2], [i32::MAX; 2]);
    }
    RawBox::Three([i32::MIN; 3], [i32::MAX; 3])
}

// The objects of near ones, in their order, of which those that have the tag, if one is asked for.
fn get_near<D: BlockDevice, A: Allocator + Copy>(
    store: &mut Store<D, A>,
    layer: &[u8],
    near: &[(u64, u128)],
    tag: Option<u32>,
) -> Result<Vec<(u64, AnyBox, u32), A>, Refusal>
    ensures { GetsNear store.old store.new layer.now near.now tag result }
{
    let mut objects = get_each(store, layer, near)?;
    if let Some(tag) = tag {
        keep_with(&mut objects, tag);
    }
    Ok(objects)
}

// All of them.
fn get_each<D: BlockDevice, A: Allocator + Copy>(
    store: &mut Store<D, A>,
    layer: &[u8],
    near: &[(u64, u128)],
) -> Result<Vec<(u64, AnyBox, u32), A>, Refusal>
    ensures { GetsNear store.old store.new layer.now near.now None result }
{
    let mut objects = Vec::new(store.alloc());
    for k in 0..near.len() {
        let id = near[k].0;
        let (bounds, tag) = store.get(layer, id)?;
        objects.push((id, bounds, tag))?;
    }
    Ok(objects)
}
