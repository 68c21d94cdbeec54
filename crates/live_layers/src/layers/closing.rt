//! The records written into the catalog, the gate shut after all pages, and the device handed back.

ghost use Rattle.std.specs.Prelude.{◌≡◌, ◌⊎◌, ◌↔◌, List, ◌∷◌, IsOk, IfErr, OnErr, OnOk};
ghost use Rattle.block_device.specs.Device.{LeavesOnly};
ghost use Rattle.page_file.specs.Fault.{HasCause, IsDamage, IsOfDevice};
ghost use Rattle.page_file.specs.Layout.{opened_version};
ghost use Rattle.page_file.specs.declared.gate.Gate.TheVariants.{Shut};
ghost use Rattle.page_file.specs.Pages.{SameBut};
ghost use Rattle.page_cache.specs.Cache.{IsHonest, IsPageMap, IsUnchanged, blocks_of, device_of, gate_of};
ghost use Rattle.page_cache.specs.Cache.{next_of, pages, version_of};
ghost use Rattle.plain_table.specs.Table.{Table};
ghost use Rattle.live_layers.specs.Image.{IsImage, IsRefusedOrImageOf};
ghost use Rattle.live_layers.specs.Keeping.{IsSettled, IsSound, IsWritten, RestLeavesOneOf, SpellsUnchanged};
ghost use Rattle.live_layers.specs.Keeping.{cache_of, records_in};
ghost use Rattle.live_layers.specs.Staying.{KeepsEachTree, KeepsVersions, LeavesTreesIn};

use crate::layers::{CATALOG, Layers};
use block_bytes::zero_block;
use block_device::BlockDevice;
use catalog_page::encode;
use page_file::Fault;
use std::alloc::Allocator;

impl<B: BlockDevice, A: Allocator + Copy> Layers<B, A> {
    // Writes the records into the page of the catalog, if it does not spell them.
    fn write(&mut self) -> Result<(), Fault>
        // A stop leaves what one at rest leaves.
        ensures stops { (ts : List Table) → IsHonest (cache_of self.old) →
            RestLeavesOneOf (cache_of self.old) ts →
            LeavesOnly B.moment B.left_since B.recovery (device_of (cache_of self.old))
            (device_of (cache_of self.new))
            (IsRefusedOrImageOf ts) }
        ensures rests { (ts : List Table) → IsHonest (cache_of self.old) →
            RestLeavesOneOf (cache_of self.old) ts →
            RestLeavesOneOf (cache_of self.new) ts }

        ensures sound { (t : Table) → IsSound self.old t → IsSound self.new t }
        ensures trees { (t : Table) → IsSound self.old t → KeepsEachTree self.old self.new }
        ensures written { OnOk result (IsWritten self.new) }
        ensures was_written { IsWritten self.old → (self.new ≡ self.old) × IsOk result }
        ensures refused { OnErr result (¬ (gate_of (cache_of self.new) ≡ Shut)) }
        ensures beside { IsHonest (cache_of self.old) →
            SameBut 2 (pages (cache_of self.old)) (pages (cache_of self.new)) }
        ensures records { records_in self.new ≡ records_in self.old }
        ensures spelled { IsHonest (cache_of self.old) → SpellsUnchanged self.old → SpellsUnchanged self.new }
        ensures next { next_of (cache_of self.new) ≡ next_of (cache_of self.old) }
        ensures versions { KeepsVersions self.old self.new }
        ensures honest { IsHonest (cache_of self.old) ↔ IsHonest (cache_of self.new) }
        ensures faults { IsPageMap (cache_of self.old) → IfErr result IsOfDevice }
        ensures other_faults { IfErr result (λ f. IsOfDevice f ⊎ IsDamage f) }
        ensures cause { HasCause (B.faults (device_of (cache_of self.old)))
            (B.faults (device_of (cache_of self.new)))
            result }
    {
        if self.written {
            return Ok(());
        }
        self.cache.begin_change()?;
        let mut page = zero_block();
        encode(&self.records, &mut page);
        self.cache.put(CATALOG, &page)?;
        self.written = true;
        Ok(())
    }

    /// Writes the records into the page of the catalog, if it does not spell them, and shuts the gate after
    /// all pages. The table stays with its trees, and the blocks are an image of it then, and have them.
    ///
    /// On an honest device with a sound store it is refused by `Memory` or `Device`.
    pub fn settle(&mut self) -> Result<(), Fault>
        // A stop leaves what one at rest leaves, or an image of the table.
        ensures stops { (ts : List Table) (t : Table) → IsSound self.old t →
            RestLeavesOneOf (cache_of self.old) ts →
            LeavesOnly B.moment B.left_since B.recovery (device_of (cache_of self.old))
            (device_of (cache_of self.new))
            (IsRefusedOrImageOf (t ∷ ts)) }
        ensures closed { (t : Table) → IsSound self.old t →
            OnOk result (IsImage (blocks_of (cache_of self.new)) t) }
        ensures rests { (ts : List Table) (t : Table) → IsSound self.old t →
            RestLeavesOneOf (cache_of self.old) ts →
            RestLeavesOneOf (cache_of self.new) (t ∷ ts) }

        // Where nothing is to be written, nothing is done.
        ensures was_settled { IsSettled self.old →
            IsUnchanged (cache_of self.old) (cache_of self.new) × IsOk result }

        ensures sound { (t : Table) → IsSound self.old t → IsSound self.new t }
        ensures trees { (t : Table) → IsSound self.old t → KeepsEachTree self.old self.new }
        ensures left { (t : Table) → IsSound self.old t →
            OnOk result (LeavesTreesIn self.old (blocks_of (cache_of self.new))) }
        ensures shut { OnOk result (gate_of (cache_of self.new) ≡ Shut) }
        ensures refused { OnErr result (¬ (gate_of (cache_of self.new) ≡ Shut)) }
        ensures written { OnOk result (IsWritten self.new) }

        // All pages but that of the catalog stay, and the records, which that page spells where nothing was
        // changed since the last closing or its try.
        ensures beside { IsHonest (cache_of self.old) →
            SameBut 2 (pages (cache_of self.old)) (pages (cache_of self.new)) }
        ensures records { records_in self.new ≡ records_in self.old }
        ensures spelled { (t : Table) → IsSound self.old t → SpellsUnchanged self.old →
            SpellsUnchanged self.new }

        // The versions stay, and the blocks have that of the file.
        ensures versions { KeepsVersions self.old self.new }
        ensures has_version { IsHonest (cache_of self.old) → OnOk result
            (opened_version (blocks_of (cache_of self.new)) ≡ version_of (cache_of self.old)) }

        ensures next { next_of (cache_of self.new) ≡ next_of (cache_of self.old) }
        ensures honest { IsHonest (cache_of self.old) ↔ IsHonest (cache_of self.new) }
        ensures faults { (t : Table) → IsSound self.old t → IfErr result IsOfDevice }
        ensures other_faults { IfErr result (λ f. IsOfDevice f ⊎ IsDamage f) }
        ensures cause { HasCause (B.faults (device_of (cache_of self.old)))
            (B.faults (device_of (cache_of self.new)))
            result }
    {
        self.write()?;
        self.cache.settle()
    }

    /// The device as it is, without a call of it. What was not settled may be lost.
    pub fn abandon(self) -> B
        ensures { result ≡ device_of (cache_of self) }
    {
        let Layers {
            alloc: _,
            cache,
            records: _,
            object_count: _,
            written: _,
            newest: _,
        } = self;
        cache.abandon()
    }
}
