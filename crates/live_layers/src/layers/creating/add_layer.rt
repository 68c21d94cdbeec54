//! The pages and the record of a layer that is made.

ghost use Rattle.std.specs.Prelude.{◌≡◌, ◌≤◌, ◌<◌, ℕ, IfErr, IfOk, OnOk, false, true, length};
ghost use Rattle.std.specs.FinMap as map;
ghost use Rattle.layer_pages.specs.Changes.{BecomesLayer, IsEmptyLeaf};
ghost use Rattle.layer_pages.specs.Layers.{CanBeRoot};
ghost use Rattle.page_cache.specs.Calls.{Changes};
ghost use Rattle.page_file.specs.Fault.{IsOfDevice};
ghost use Rattle.node_page.specs.Faults.{IsChangeFault, IsNoDamage};
ghost use Rattle.node_page.specs.Parts.{no_page};
ghost use Rattle.page_cache.specs.Cache.{Grows, IsPageMap, gate_of, next_of, pages, version_of};
ghost use Rattle.page_file.specs.declared.gate.Gate.TheVariants.{Open};
ghost use Rattle.plain_table.specs.Table.{Table, is_dims};
ghost use Rattle.live_layers.specs.Begun.{BeginsChange};
ghost use Rattle.live_layers.specs.Creating.{Admits, BringsTree, MayBeLayer, kind_in, new_layer};
ghost use Rattle.live_layers.specs.Creating.{version_after};
ghost use Rattle.live_layers.specs.Keeping.{Belongs, IsSound, cache_of, newest_of, records_in};

use crate::broken::Broken;
use crate::layers::Layers;
use crate::names::name_of;
use block_device::BlockDevice;
use catalog_page::LayerRecord;
use id_table::TableKind;
use layer_pages::make;
use node_page::Root;
use page_cache::PageCache;
use page_file::{Fault, Version};
use std::alloc::Allocator;

impl<B: BlockDevice, A: Allocator + Copy> Layers<B, A> {
    // Makes the pages of a layer without objects, and puts its record in at a place.
    pub(crate) fn add_layer(
        &mut self,
        place: usize,
        name: &[u8],
        dims: u8,
        fanout: u8,
    ) -> Result<(), Broken>
        requires may_be { MayBeLayer name.now dims fanout }
        requires within { place ≤ length (records_in self.old) }
        requires room { length (records_in self.old) < 60 }
        ensures added { (t : Table) → IsSound self.old t → Belongs t name.now place →
            OnOk result (IsSound self.new (map.insert t name.now (new_layer dims fanout))) }
        ensures tree { (t : Table) → IsSound self.old t → Belongs t name.now place →
            OnOk result (BringsTree self.old self.new name.now IsEmptyLeaf) }
        ensures faults { (t : Table) → IsSound self.old t →
            IfErr result (λ b. IsOfDevice b.cause) }
        ensures begins { BeginsChange self.old self.new
            (version_after (newest_of self.old) (version_of (cache_of self.old))) result }
    {
        let kind = kind_in(self.newest);
        self.begin()?;
        let (root, ids_root) = match make_pages(&mut self.cache, dims, kind) {
            Ok(made) => made,
            Err(fault) => return Err(self.broken_by(fault)),
        };
        admit(&mut self.cache, kind);
        let record = LayerRecord {
            name: name_of(name),
            dims,
            fanout,
            level: root.level,
            root: root.page,
            ids_root,
            count: 0,
        };
        self.records.insert(place, record);
        self.written = false;
        Ok(())
    }
}

// Raises the version of the file where a table of this kind asks for it.
fn admit<B: BlockDevice, A: Allocator + Copy>(cache: &mut PageCache<B, A>, kind: TableKind)
    requires { gate_of cache.old ≡ Open }
    ensures { Admits cache.old cache.new kind }
{
    match kind {
        TableKind::Chains => {}
        TableKind::Tree => cache.raise_version(),
    }
}

// The kind of table that a layer gets in a file of this version.
fn kind_in(version: Version) -> TableKind
    ensures { result ≡ kind_in version }
{
    match version {
        Version::Two => TableKind::Chains,
        Version::Three => TableKind::Tree,
    }
}

// The pages of a layer without objects whose boxes have so many axes, with a table of this kind.
fn make_pages<B: BlockDevice, A: Allocator + Copy>(
    cache: &mut PageCache<B, A>,
    dims: u8,
    kind: TableKind,
) -> Result<(Root, u32), Fault>
    requires dims { is_dims dims ≡ true }
    ensures changes { Changes cache.old cache.new result }
    ensures places { IfOk result (λ made. CanBeRoot made.0 × (3 ≤ made.1) × (made.1 < next_of cache.new)) }
    ensures sound { IsPageMap cache.old → IsPageMap cache.new }
    ensures made { IsPageMap cache.old → (most : ℕ) → IfOk result (λ made.
        BecomesLayer dims most (pages cache.old) (pages cache.new) no_page kind made.0 made.1 map.empty
        IsEmptyLeaf) }
    ensures grows { Grows 2 cache.old cache.new }
    ensures faults { IsPageMap cache.old → IfErr result (IsNoDamage cache.new) }
    ensures other_faults { IfErr result (IsChangeFault cache.new) }
{
    if dims == 2 {
        make::<2, B, A>(cache, kind)
    } else {
        make::<3, B, A>(cache, kind)
    }
}
