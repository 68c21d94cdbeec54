//! An object inserted into a layer.

ghost use Rattle.std.specs.Prelude.{OnOk};
ghost use Rattle.plain_table.specs.Boxes.{given_bounds};
ghost use Rattle.plain_table.specs.Commands.Command.{Insert};
ghost use Rattle.plain_table.specs.Table.{Table, layer_at};
ghost use Rattle.live_layers.specs.Changes.{IsChangeBy};
ghost use Rattle.live_layers.specs.Keeping.{ChangesTree, IsSound};
ghost use Rattle.live_layers.specs.Rules.{HasGained};

mod adding;
mod checking;
mod insert_box;

use crate::layers::Layers;
use crate::layers::inserting::insert_box::Label;
use crate::rooms::Rooms;
use crate::unmade::Unmade;
use block_device::BlockDevice;
use plain_table::RawBox;
use std::alloc::Allocator;

impl<B: BlockDevice, A: Allocator + Copy> Layers<B, A> {
    /// Inserts an object with a new identifier, a box and a tag into a layer: by a lawful insertion into its
    /// tree, and then into its identifier table.
    ///
    /// Refused, in this order, by BadName, NoLayer, WrongDims, BadBox, Duplicate and TooManyObjects.
    pub fn insert(
        &mut self,
        name: &[u8],
        id: u64,
        bounds: RawBox,
        tag: u32,
        rooms: &mut Rooms<A>,
    ) -> Result<(), Unmade>
        ensures change { IsChangeBy self.old self.new (Insert name.now id bounds tag) result }
        ensures tree { (t : Table) → IsSound self.old t → OnOk result (ChangesTree self.old self.new name.now
            (HasGained (layer_at t name.now) id (given_bounds bounds, tag))) }
    {
        let place = match self.named(name) {
            Ok(place) => place,
            Err(refusal) => return Err(Unmade::Refused(refusal)),
        };
        let label = Label { id, tag };
        match bounds {
            RawBox::Two(low, high) => self.insert_box::<2>(
                place,
                label,
                low,
                high,
                &mut rooms.kept_two,
            ),
            RawBox::Three(low, high) => {
                self.insert_box::<3>(place, label, low, high, &mut rooms.kept_three)
            }
        }
    }
}
