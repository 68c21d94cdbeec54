//! An object deleted from a layer.

ghost use Rattle.std.specs.Prelude.{OnOk};
ghost use Rattle.plain_table.specs.Commands.Command.{Delete};
ghost use Rattle.plain_table.specs.Table.{Table, layer_at};
ghost use Rattle.live_layers.specs.Changes.{IsChangeBy};
ghost use Rattle.live_layers.specs.Keeping.{ChangesTree, IsSound};
ghost use Rattle.live_layers.specs.Rules.{HasLost};

mod delete_at;
mod taking;

use crate::layers::Layers;
use crate::rooms::Rooms;
use crate::unmade::Unmade;
use block_device::BlockDevice;
use std::alloc::Allocator;

impl<B: BlockDevice, A: Allocator + Copy> Layers<B, A> {
    /// Deletes the object with that identifier from a layer: by a lawful removal from its tree, and then from
    /// its identifier table.
    ///
    /// Refused, in this order, by BadName, NoLayer and NoObject.
    pub fn delete(&mut self, name: &[u8], id: u64, rooms: &mut Rooms<A>) -> Result<(), Unmade>
        ensures change { IsChangeBy self.old self.new (Delete name.now id) result }
        ensures tree { (t : Table) → IsSound self.old t → OnOk result
            (ChangesTree self.old self.new name.now (HasLost (layer_at t name.now) id)) }
    {
        let place = match self.named(name) {
            Ok(place) => place,
            Err(refusal) => return Err(Unmade::Refused(refusal)),
        };
        let located = self.locate(place);
        if located.dims == 2 {
            self.delete_at::<2>(place, &located, id, &mut rooms.kept_two)
        } else {
            self.delete_at::<3>(place, &located, id, &mut rooms.kept_three)
        }
    }
}
