//! Layers made.

ghost use Rattle.std.specs.Prelude.{◌≡◌, ◌≤◌, ◌<◌, length, MatchResult, IfErr, IfOk, OnOk, None, Some, true};
ghost use Rattle.layer_pages.specs.Changes.{IsEmptyLeaf};
ghost use Rattle.plain_table.specs.Commands.Command.{Create};
ghost use Rattle.plain_table.specs.Step.{refusal_of};
ghost use Rattle.plain_table.specs.Table.{Table};
ghost use Rattle.live_layers.specs.Faults.{is_plain};
ghost use Rattle.live_layers.specs.Changes.{IsChangeBy};
ghost use Rattle.live_layers.specs.Creating.{BringsTree, MayBeLayer, version_after};
ghost use Rattle.live_layers.specs.Keeping.{Belongs, IsSound, cache_of, newest_of, records_in};
ghost use Rattle.live_layers.specs.Refusals.{IsTried, refusals_in};
ghost use Rattle.page_cache.specs.Cache.{version_of};

mod add_layer;

use crate::faults::change_of;
use crate::layers::Layers;
use crate::unmade::Unmade;
use block_device::BlockDevice;
use plain_table::{MOST_LAYERS, Refusal, is_dims, is_fanout, is_layer_name};
use std::alloc::Allocator;

impl<B: BlockDevice, A: Allocator + Copy> Layers<B, A> {
    /// Makes a layer without objects: its tree is an empty leaf, and all other trees stay. In files that may
    /// be of version 3 its identifier table is a tree, and the version of the file is raised.
    ///
    /// Refused, in this order, by BadName, BadDims, BadFanout, LayerExists and TooManyLayers.
    pub fn create(&mut self, name: &[u8], dims: u64, fanout: u64) -> Result<(), Unmade>
        ensures change { IsChangeBy self.old self.new (Create name.now dims fanout) result }
        ensures tree { (t : Table) → IsSound self.old t →
            OnOk result (BringsTree self.old self.new name.now IsEmptyLeaf) }
        ensures version { (t : Table) → IsSound self.old t → OnOk result (version_of (cache_of self.new)
            ≡ version_after (newest_of self.old) (version_of (cache_of self.old))) }
    {
        match self.check_layer(name, dims, fanout) {
            Ok(place) => change_of(self.add_layer(place, name, dims as u8, fanout as u8)),
            Err(refusal) => Err(Unmade::Refused(refusal)),
        }
    }

    // The place of a layer that may be made, or why it may not.
    fn check_layer(&self, name: &[u8], dims: u64, fanout: u64) -> Result<usize, Refusal>
        ensures allowed { (t : Table) → IsSound self.now t →
            MatchResult result (λ place. refusal_of t (Create name.now dims fanout) ≡ None)
            (λ r. refusal_of t (Create name.now dims fanout) ≡ Some r) }
        ensures in_turn { IsTried (refusals_in self.now (Create name.now dims fanout)) result }
        ensures belongs { (t : Table) → IsSound self.now t → IfOk result (λ place. Belongs t name.now place) }
        ensures may_be { IfOk result (λ place. MayBeLayer name.now dims fanout) }
        ensures within { IfOk result (λ place. place ≤ length (records_in self.now)) }
        ensures room { IfOk result (λ place. length (records_in self.now) < 60) }
        ensures blames_none { IfErr result (λ r. is_plain r ≡ true) }
    {
        if !is_layer_name(name) {
            return Err(Refusal::BadName);
        }
        if !is_dims(dims) {
            return Err(Refusal::BadDims);
        }
        if !is_fanout(fanout) {
            return Err(Refusal::BadFanout);
        }
        let Err(place) = self.find(name) else {
            return Err(Refusal::LayerExists);
        };
        if self.records.len() >= MOST_LAYERS {
            return Err(Refusal::TooManyLayers);
        }
        Ok(place)
    }
}
