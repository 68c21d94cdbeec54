//! What a rollback brings back, as the contract of a function that does nothing.
ghost use Rattle.layer_store.specs.Representation.{Represents, device_in};
ghost use Rattle.layer_store.specs.declared.store.Store.{Store};
ghost use Rattle.live_layers.specs.Image.{CommitsWhatOpens};
ghost use Rattle.store_law.specs.Sessions.{SessionState};
ghost use Rattle.c_session.specs.RollingBack.{BringsBack};

use block_device::BlockDevice;
use layer_store::laws::a_stop_is_found_to_have_left_a_closed_table;
use std::alloc::Allocator;

/// **Over a device that commits what opening takes, the device of a store, alive or dead, is sure to bring back one
/// of the tables that the state of its session keeps: the one that was closed last, or one whose closing was tried
/// since.** So a rollback gives the store one of these.
pub fn a_store_brings_back_a_closed_table<D: BlockDevice, A: Allocator>()
    ensures { (store : Store D A ⟦<D as BlockDevice>⟧) (s : SessionState) → Represents store s →
        CommitsWhatOpens D.recovery → BringsBack D.recovery (device_in store) s.stops.kept }
{
    a_stop_is_found_to_have_left_a_closed_table::<D, A>();
}
