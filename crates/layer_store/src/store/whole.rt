//! The commands that ask of all layers.

ghost use Rattle.std.specs.Prelude.{◌≡◌, ◌≤◌, ◌⊎◌, ◌+◌, ◌*◌, length, IfErr, OnOk};
ghost use Rattle.live_layers.specs.Checked.{IsCheckRefusal};
ghost use Rattle.live_layers.specs.Keeping.{records_in};
ghost use Rattle.page_cache.specs.Cache.{next_of};
ghost use Rattle.plain_table.specs.Answers.{done_answer, dump_answer, layers_answer};
ghost use Rattle.plain_table.specs.Commands.Command.{Check, Dump, Layers as ListLayers};
ghost use Rattle.plain_table.specs.declared.refusal.Refusal.TheVariants as refusal;
ghost use Rattle.store_law.specs.States.StoreState.{Dead};
ghost use Rattle.layer_store.specs.Commands.{Answers};
ghost use Rattle.layer_store.specs.Representation.{BeginsWithSome, IsAliveWithSome, IsInState, IsSettled};
ghost use Rattle.layer_store.specs.Representation.{SpellsRecords};
ghost use Rattle.layer_store.specs.Representation.{cache_in, device_in, layers_in, looks_in};

use crate::store::{FAILED, Store};
use arrayvec::ArrayVec;
use block_device::BlockDevice;
use plain_table::{DumpRow, LayerInfo, Refusal};
use std::alloc::Allocator;

impl<D: BlockDevice, A: Allocator + Copy> Store<D, A> {
    /// The layers, ascending by name, by their records: the name, axes, fanout and number of objects of each.
    /// It takes no memory, and makes no call of the device.
    pub fn layers(&mut self) -> Result<ArrayVec<LayerInfo, 60>, Refusal>
        ensures answers { Answers self.old self.new ListLayers layers_answer result }
        ensures gives_up { IfErr result (λ r. r ≡ refusal.StoreFailed 19) }
        ensures same { self.new ≡ self.old }
    {
        if self.failed {
            Err(FAILED)
        } else {
            Ok(self.layers.layers())
        }
    }

    /// All layers and objects, as the commands that make them again: for each layer, ascending by name, the
    /// one that creates it, and then those that insert its objects, ascending by identifier.
    pub fn dump(&mut self) -> Result<Vec<DumpRow, A>, Refusal>
        ensures answers { Answers self.old self.new Dump dump_answer result }
    {
        if self.failed {
            return Err(FAILED);
        }
        self.layers.dump()
    }

    /// Checks all pages. On an honest device it is done only where they hold a table, whatever file was
    /// opened; so a store that was opened and checked begins as one of an image does. It makes at most two
    /// looks for each layer and number below the next one, two more for each layer, and one at the catalog.
    ///
    /// Refused by `Memory`, `Device` or `Damaged`, and on an honest device with a sound store not by
    /// `Damaged`.
    pub fn check(&mut self) -> Result<(), Refusal>
        ensures answers { Answers self.old self.new Check done_answer result }
        ensures sound { D.honest (device_in self.old) → OnOk result (IsAliveWithSome self.new) }
        ensures begins { D.honest (device_in self.old) → IsSettled self.old →
            OnOk result (BeginsWithSome self.new (D.moment (device_in self.new))) }
        ensures spelled { D.honest (device_in self.old) → IsSettled self.old →
            OnOk result (SpellsRecords self.new) }
        ensures looks { looks_in self.new ≤ looks_in self.old +
            (1 + 2 * length (records_in (layers_in self.old))
            + 2 * (length (records_in (layers_in self.old)) * next_of (cache_in self.old))) }
        ensures refused { IsInState self.old Dead ⊎ IfErr result IsCheckRefusal }
    {
        if self.failed {
            return Err(FAILED);
        }
        self.layers.check()
    }
}
