//! The layers closed, and read again from the same device.

ghost use Rattle.std.specs.Prelude.{◌≡◌, ◌⊎◌, ◌↔◌, IfErr, IsOk, OnErr, OnOk};
ghost use Rattle.page_file.specs.Fault.{HasCause, IsDamage, IsOfDevice};
ghost use Rattle.page_file.specs.declared.fault.Fault.TheVariants as fault;
ghost use Rattle.page_file.specs.declared.gate.Gate.TheVariants.{Shut};
ghost use Rattle.page_file.specs.Pages.{SameBut};
ghost use Rattle.page_cache.specs.Cache.{IsHonest, KeepsGate, KeepsMap, device_of, gate_of, next_of, pages};
ghost use Rattle.plain_table.specs.Commands.Command.{Reopen};
ghost use Rattle.plain_table.specs.Table.{Table};
ghost use Rattle.live_layers.specs.Changes.{GoesOn, IsBegun, IsChanged};
ghost use Rattle.live_layers.specs.Closings.{ClosingLeaves};
ghost use Rattle.live_layers.specs.Keeping.{IsSettled, IsSound, IsWritten, SpellsRecords, SpellsUnchanged};
ghost use Rattle.live_layers.specs.Keeping.{cache_of};
ghost use Rattle.live_layers.specs.Keeping.{records_in};
ghost use Rattle.live_layers.specs.Faults.{HasUnmadeCause, IsMet};
ghost use Rattle.live_layers.specs.Staying.{KeepsEachTree, KeepsVersions};

use crate::faults::as_refusal;
use crate::layers::Layers;
use crate::layers::open::{count_of, read_catalog};
use crate::unmade::Unmade;
use block_device::BlockDevice;
use page_file::Fault;
use std::alloc::Allocator;

impl<B: BlockDevice, A: Allocator + Copy> Layers<B, A> {
    /// Settles the layers, forgets what is held of their pages, and reads gate, header and catalog again: the
    /// table stays, and each tree.
    ///
    /// Refused while settling, on an honest device with sound layers by `Memory` or `Device`, they go on. A
    /// fault met afterwards breaks it off: the blocks are then an image of the table.
    pub fn reopen(&mut self) -> Result<(), Unmade>
        ensures changed { (t : Table) → IsSound self.old t → IsChanged self.old self.new t Reopen result }
        ensures leaves { (t : Table) → IsSound self.old t → ClosingLeaves self.old self.new t result }
        ensures trees { (t : Table) → IsSound self.old t → KeepsEachTree self.old self.new }
        ensures settled { IsOk result → IsSettled self.new }

        // All pages but that of the catalog stay, which then spells the records. Refused, it keeps the
        // records, which that page spells where nothing was changed since the last closing or its try.
        ensures beside { IsHonest (cache_of self.old) →
            SameBut 2 (pages (cache_of self.old)) (pages (cache_of self.new)) }
        ensures records { OnErr result (records_in self.new ≡ records_in self.old) }
        ensures read { IsHonest (cache_of self.old) → OnOk result (SpellsRecords self.new) }
        ensures spelled { (t : Table) → IsSound self.old t → SpellsUnchanged self.old →
            SpellsUnchanged self.new }

        // Where it was not finished the gate is not shut.
        ensures refused { IsBegun result ⊎ ¬ (gate_of (cache_of self.new) ≡ Shut) }

        ensures next { IsHonest (cache_of self.old) →
            next_of (cache_of self.new) ≡ next_of (cache_of self.old) }
        ensures versions { KeepsVersions self.old self.new }
        ensures honest { IsHonest (cache_of self.old) ↔ IsHonest (cache_of self.new) }
        ensures goes_on { GoesOn result }
        ensures met { IsHonest (cache_of self.old) → IfErr result (IsMet (cache_of self.new)) }
        ensures cause { HasUnmadeCause (B.faults (device_of (cache_of self.old)))
            (B.faults (device_of (cache_of self.new))) result }
    {
        if let Err(fault) = self.settle() {
            return Err(Unmade::Refused(as_refusal(fault)));
        }
        match self.read_again() {
            Ok(()) => Ok(()),
            Err(fault) => Err(Unmade::Broken(fault)),
        }
    }

    // Reads gate, header and catalog again, of layers that are settled. No page is held afterwards.
    fn read_again(&mut self) -> Result<(), Fault>
        requires { gate_of (cache_of self.old) ≡ Shut }
        ensures gate { KeepsGate (cache_of self.old) (cache_of self.new) }
        ensures sound { (t : Table) → IsSound self.old t → IsWritten self.old → IsSound self.new t }
        ensures trees { (t : Table) → IsSound self.old t → IsWritten self.old →
            KeepsEachTree self.old self.new }
        ensures written { IsWritten self.old → IsWritten self.new }
        ensures map { IsHonest (cache_of self.old) → KeepsMap (cache_of self.old) (cache_of self.new) }
        ensures records { OnErr result (records_in self.new ≡ records_in self.old) }
        ensures read { IsHonest (cache_of self.old) → OnOk result (SpellsRecords self.new) }
        ensures next { IsHonest (cache_of self.old) →
            next_of (cache_of self.new) ≡ next_of (cache_of self.old) }
        ensures versions { KeepsVersions self.old self.new }
        ensures faults { (t : Table) → IsSound self.old t → IsWritten self.old → IfErr result IsOfDevice }
        ensures never { IfErr result (λ f. ¬ (f ≡ fault.NoPages)) }
        ensures met { IsHonest (cache_of self.old) → IfErr result (λ f. IsOfDevice f ⊎ IsDamage f) }
        ensures cause { HasCause (B.faults (device_of (cache_of self.old)))
            (B.faults (device_of (cache_of self.new)))
            result }
    {
        self.cache.check_again()?;
        let records = read_catalog(&mut self.cache)?;
        self.object_count = count_of(&records);
        self.records = records;
        Ok(())
    }
}
