//! An object of a layer that gets another box.

ghost use Rattle.std.specs.Prelude.{◌≡◌, false, true, OnOk};
ghost use Rattle.plain_table.specs.Boxes.{given_bounds};
ghost use Rattle.plain_table.specs.Commands.Command.{Move};
ghost use Rattle.plain_table.specs.Step.{changes};
ghost use Rattle.plain_table.specs.Table.{Table, layer_at};
ghost use Rattle.live_layers.specs.Changes.{IsChangeBy};
ghost use Rattle.live_layers.specs.Keeping.{ChangesTree, IsSound};
ghost use Rattle.live_layers.specs.Rules.{HasMoved};
ghost use Rattle.live_layers.specs.Staying.{KeepsPagesAndRecords};

mod check_move;
mod move_box;
mod replacing;

use crate::layers::Layers;
use crate::rooms::Rooms;
use crate::unmade::Unmade;
use block_device::BlockDevice;
use plain_table::RawBox;
use std::alloc::Allocator;

impl<B: BlockDevice, A: Allocator + Copy> Layers<B, A> {
    /// Gives the object with that identifier another box: by a lawful removal and then a lawful insertion. It
    /// keeps its tag. A move to the box that it has changes nothing.
    ///
    /// Refused, in this order, by BadName, NoLayer, WrongDims, BadBox and NoObject.
    pub fn move_object(
        &mut self,
        name: &[u8],
        id: u64,
        bounds: RawBox,
        rooms: &mut Rooms<A>,
    ) -> Result<(), Unmade>
        ensures change { IsChangeBy self.old self.new (Move name.now id bounds) result }
        ensures tree { (t : Table) → IsSound self.old t → changes t (Move name.now id bounds) ≡ true →
            OnOk result (ChangesTree self.old self.new name.now
            (HasMoved (layer_at t name.now) id (given_bounds bounds))) }
        ensures same { (t : Table) → IsSound self.old t → changes t (Move name.now id bounds) ≡ false →
            KeepsPagesAndRecords self.old self.new }
    {
        let place = match self.named(name) {
            Ok(place) => place,
            Err(refusal) => return Err(Unmade::Refused(refusal)),
        };
        match bounds {
            RawBox::Two(low, high) => self.move_box::<2>(place, id, low, high, &mut rooms.kept_two),
            RawBox::Three(low, high) => {
                self.move_box::<3>(place, id, low, high, &mut rooms.kept_three)
            }
        }
    }
}
