//! The layer that a question names.

ghost use Rattle.std.specs.Prelude.{◌≡◌, ◌⊎◌, ◌<◌, true, length, IfOk, IfErr};
ghost use Rattle.plain_table.specs.Table.{Table, is_layer_name};
ghost use Rattle.plain_table.specs.declared.refusal.Refusal.TheVariants as refusal;
ghost use Rattle.live_layers.specs.Faults.{is_plain};
ghost use Rattle.live_layers.specs.Keeping.{Finds, IsSound, records_in};
ghost use Rattle.live_layers.specs.Questions.{IsNamed, IsUnnamed};
ghost use Rattle.live_layers.specs.Refusals.{IsRecordedAt, IsUnrecorded};

use crate::layers::Layers;
use block_device::BlockDevice;
use plain_table::{Refusal, is_layer_name};
use std::alloc::Allocator;

impl<D: BlockDevice, A: Allocator> Layers<D, A> {
    // The place of the layer of that name. Refused, in this order, by BadName and NoLayer.
    pub(crate) fn named(&self, name: &[u8]) -> Result<usize, Refusal>
        ensures within { IfOk result (λ place. place < length (records_in self.now)) }
        ensures good { IfOk result (λ _. is_layer_name name.now ≡ true) }
        ensures found { (t : Table) → IsSound self.now t → IfOk result (λ place. Finds t name.now place) }
        ensures named { (t : Table) → IsSound self.now t → IfOk result (λ _. IsNamed t name.now) }
        ensures unnamed { (t : Table) → IsSound self.now t → IfErr result (IsUnnamed t name.now) }
        ensures gives_up { IfErr result (λ r. (r ≡ refusal.BadName) ⊎ (r ≡ refusal.NoLayer)) }
        ensures recorded { IfOk result (IsRecordedAt self.now name.now) }
        ensures unrecorded { IfErr result (IsUnrecorded self.now name.now) }
        ensures cause { IfErr result (λ refusal. is_plain refusal ≡ true) }
    {
        if !is_layer_name(name) {
            return Err(Refusal::BadName);
        }
        let Ok(place) = self.find(name) else {
            return Err(Refusal::NoLayer);
        };
        Ok(place)
    }
}
