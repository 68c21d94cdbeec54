//! What follows from the promises of questions, and of the conditions under which commands are refused: each law
//! is the contract of a function that does nothing.

ghost use Rattle.std.specs.Prelude.{◌≡◌};
ghost use Rattle.page_cache.specs.Cache.{IsHonest, KeepsGate};
ghost use Rattle.page_cache.specs.declared.cache.PageCache.{PageCache};
ghost use Rattle.plain_table.specs.Commands.{Command};
ghost use Rattle.plain_table.specs.Step.{first_refusal, refusal_of};
ghost use Rattle.plain_table.specs.Table.{Table};
ghost use Rattle.store_law.specs.Stops.{Stops};
ghost use Rattle.live_layers.specs.Keeping.{IsSound, Leaves};
ghost use Rattle.live_layers.specs.Refusals.{has_object_of, refusals_in};
ghost use Rattle.live_layers.specs.declared.layers.Layers.{Layers as KeptLayers};

use block_device::BlockDevice;
use std::alloc::Allocator;

/// Where a call keeps the gate, as each question does, stops leave after it what they left before.
pub fn stops_leave_the_same_after_a_question<B: BlockDevice, A: Allocator>()
    ensures { (old new : PageCache B A ⟦<B as BlockDevice>⟧) (stops : Stops) → IsHonest old →
        KeepsGate old new →
        Leaves old stops → Leaves new stops }
{}

/// The conditions that layers try are those of the table that they are sound with, where the pages told whether it has
/// an object of the identifier.
pub fn sound_layers_refuse_as_their_table<B: BlockDevice, A: Allocator>()
    ensures { (kept : KeptLayers B A ⟦<B as BlockDevice>⟧) (t : Table) (c : Command) → IsSound kept t →
        first_refusal (refusals_in kept c (has_object_of t c)) ≡ refusal_of t c }
{}
