//! The pages of a layer: the nodes of its tree, and those of its identifier table.

ghost use Rattle.std.specs.Prelude.{◌≡◌, ℕ, List, IfOk, IfErr};
ghost use Rattle.box_math.specs.Bounds.{IsDims};
ghost use Rattle.plain_table.specs.Table.{Table};
ghost use Rattle.store_law.specs.Lawful.{IsFault};
ghost use Rattle.live_layers.specs.Changes.{KeepsInQuestion, Rose};
ghost use Rattle.live_layers.specs.Keeping.{IsSound};
ghost use Rattle.live_layers.specs.Located.{IsLocated};
ghost use Rattle.live_layers.specs.Outlines.{IsOfName, IsIdPages, ListsNodes, ListsTree};

use crate::faults::as_refusal;
use crate::layers::Layers;
use crate::located::Located;
use crate::outlines::LayerOutline;
use block_device::BlockDevice;
use id_table::check_table;
use plain_table::Refusal;
use std::alloc::Allocator;
use tree_outline::{NodeOutline, outline};

impl<B: BlockDevice, A: Allocator + Copy> Layers<B, A> {
    /// The nodes of the tree of a layer, each of which is looked at once.
    ///
    /// Refused, in this order, by BadName and NoLayer.
    pub fn outline(&mut self, name: &[u8]) -> Result<LayerOutline<A>, Refusal>
        ensures listed { (t : Table) → IsSound self.old t →
            IsOfName (Rose self.old self.new) t name.now (ListsTree self.old self.new t name.now) result }
        ensures keeps { KeepsInQuestion self.old self.new result }
    {
        let place = self.named(name)?;
        let located = self.locate(place);
        if located.dims == 2 {
            let rows = self.nodes_at::<2>(&located)?;
            Ok(LayerOutline::Two(rows))
        } else {
            let rows = self.nodes_at::<3>(&located)?;
            Ok(LayerOutline::Three(rows))
        }
    }

    /// How many pages the identifier table of a layer has.
    ///
    /// Refused, in this order, by BadName and NoLayer.
    pub fn id_pages(&mut self, name: &[u8]) -> Result<u64, Refusal>
        ensures counted { (t : Table) → IsSound self.old t →
            IsOfName (Rose self.old self.new) t name.now (IsIdPages self.old t name.now) result }
        ensures keeps { KeepsInQuestion self.old self.new result }
    {
        let place = self.named(name)?;
        let located = self.locate(place);
        if located.dims == 2 {
            self.id_pages_at::<2>(&located)
        } else {
            self.id_pages_at::<3>(&located)
        }
    }

    // The nodes of the tree of the layer that stands there, which has D axes.
    fn nodes_at<const D: usize>(
        &mut self,
        located: &Located,
    ) -> Result<Vec<NodeOutline<D>, A>, Refusal>
        requires dims { IsDims D }
        requires axes { located.now.dims ≡ D }
        ensures listed { (t : Table) (name : List ℕ) → IsSound self.old t →
            IsLocated self.old t name located.now →
            IfOk result (λ rows. ListsNodes self.old self.new name rows.items) }
        ensures fault { (t : Table) (name : List ℕ) → IsSound self.old t →
            IsLocated self.old t name located.now → IfErr result (IsFault (Rose self.old self.new)) }
        ensures keeps { KeepsInQuestion self.old self.new result }
    {
        match outline::<D, B, A, A>(self.alloc, &mut self.cache, located.root) {
            Ok(rows) => Ok(rows),
            Err(fault) => Err(as_refusal(fault)),
        }
    }

    // How many pages the identifier table of the layer that stands there has, which has D axes.
    fn id_pages_at<const D: usize>(&mut self, located: &Located) -> Result<u64, Refusal>
        requires dims { IsDims D }
        requires axes { located.now.dims ≡ D }
        ensures counted { (t : Table) (name : List ℕ) → IsSound self.old t →
            IsLocated self.old t name located.now → IfOk result (IsIdPages self.old t name) }
        ensures fault { (t : Table) (name : List ℕ) → IsSound self.old t →
            IsLocated self.old t name located.now → IfErr result (IsFault (Rose self.old self.new)) }
        ensures keeps { KeepsInQuestion self.old self.new result }
    {
        let alloc = self.alloc;
        match check_table::<D, B, A, &A>(&alloc, &mut self.cache, located.ids_root) {
            Ok(facts) => Ok(facts.pages.len() as u64),
            Err(fault) => Err(as_refusal(fault)),
        }
    }
}
