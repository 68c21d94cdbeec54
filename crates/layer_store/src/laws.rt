//! What follows from the definitions of images and of what a store represents: each law is the contract of a
//! function that does nothing.
ghost use Rattle.std.specs.Prelude.{◌≡◌, ◌∷◌, ℕ, List};
ghost use Rattle.block_device.specs.Device.{Begins, BeginsOne, Blocks, LeavesOnly};
ghost use Rattle.live_layers.specs.Image.{CommitsWhatOpens, IsImage, IsImageOfOne, IsRefusedOrImageOf};
ghost use Rattle.live_layers.specs.Image.{MayRemain};
ghost use Rattle.live_layers.specs.Image.{OpeningRefuses, OpeningRefusesUpTo};
ghost use Rattle.page_file.specs.Layout.{IsWithin, opened_version};
ghost use Rattle.page_file.specs.declared.fault.Fault.{Fault};
ghost use Rattle.page_file.specs.declared.fault.Fault.TheVariants.{WrongVersion};
ghost use Rattle.page_file.specs.declared.header.Version.{Version};
ghost use Rattle.plain_table.specs.Table.{Table};
ghost use Rattle.plain_table.specs.Step.{Answer};
ghost use Rattle.layer_store.specs.Checked.{LawfulOnceChecked, LawfulReply, standing_of};
ghost use Rattle.store_law.specs.Sessions.{LawfulStep, Session, SessionState, Takes};
ghost use Rattle.store_law.specs.States.{Request, StoreState};
ghost use Rattle.store_law.specs.Stops.{tables_left};
ghost use Rattle.layer_store.specs.Calls.{Calls};
ghost use Rattle.layer_store.specs.Representation.{IsInState, IsOfStore, Represents, StandsAs, StopsLeave};
ghost use Rattle.layer_store.specs.Representation.{blocks_in, device_in, from_now, resting_on};
ghost use Rattle.layer_store.specs.declared.store.Store.{Store};

use block_device::BlockDevice;
use std::alloc::Allocator;

/// Blocks are an image of at most one table.
#[tactic(auto, using(live_layers::proofs::OneTable::an_image_is_of_one_table))]
pub fn an_image_is_of_one_table()
    ensures { (blocks : Blocks) (t u : Table) → IsImage blocks t → IsImage blocks u → t ≡ u }
{}

/// No check of opening refuses an image.
#[tactic(auto, using(live_layers::proofs::OneTable::an_image_is_not_refused))]
pub fn an_image_is_not_refused()
    ensures { (blocks : Blocks) (t : Table) (f : Fault) → IsImage blocks t → OpeningRefuses blocks f → ⊥ }
{}

/// Opening refuses blocks in one way, so it is known which fault is answered.
#[tactic(auto, using(live_layers::proofs::OneTable::blocks_are_refused_in_one_way))]
pub fn blocks_are_refused_in_one_way()
    ensures { (blocks : Blocks) (f g : Fault) → OpeningRefuses blocks f → OpeningRefuses blocks g → f ≡ g }
{}

/// Where no version above `newest` is read, opening refuses an image exactly where its version is above that, and
/// then as one of a version that is not known; and it refuses blocks in one way.
pub fn an_image_is_refused_where_its_version_is_above()
    ensures within { (newest : Version) (blocks : Blocks) (t : Table) (f : Fault) → IsImage blocks t →
        IsWithin newest (opened_version blocks) → OpeningRefusesUpTo newest blocks f → ⊥ }
    ensures above { (newest : Version) (blocks : Blocks) (t : Table) → IsImage blocks t →
        ¬ (IsWithin newest (opened_version blocks)) → OpeningRefusesUpTo newest blocks WrongVersion }
    ensures one_way { (newest : Version) (blocks : Blocks) (f g : Fault) →
        OpeningRefusesUpTo newest blocks f → OpeningRefusesUpTo newest blocks g → f ≡ g }
{}

/// A stop between two calls leaves of a store what the state of its session says, and one at any moment since
/// the beginning left blocks that opening refuses, or an image of one of that state's tables.
pub fn stops_leave_what_the_session_state_says<D: BlockDevice, A: Allocator>()
    ensures now { (store : Store D A ⟦<D as BlockDevice>⟧) (s : SessionState) → Represents store s →
        (c : Blocks) → D.may_leave (device_in store) c → MayRemain s.stops.now c }
    ensures so_far { (store : Store D A ⟦<D as BlockDevice>⟧) (s : SessionState) → Represents store s →
        (c : Blocks) → D.left_since (device_in store) s.stops.since c → IsRefusedOrImageOf s.stops.so_far c }
{}

/// Blocks that begin with an image of a table are one, whatever is behind it.
#[tactic(auto, using(live_layers::proofs::RecoveryLemmas::image_longer))]
pub fn what_begins_with_an_image_is_one()
    ensures { (blocks c : Blocks) (t : Table) → IsImage blocks t → Begins blocks c → IsImage c t }
{}

/// **Over a device that commits what opening takes, no stop is refused: what one is found to have left is an
/// image of a table.** Between two calls it is one of the tables that the state of the session keeps, which
/// are the last one that was closed and those whose closing was tried since; and one at any moment since the
/// beginning left an image of one of those that were kept since.
pub fn a_stop_is_found_to_have_left_a_closed_table<D: BlockDevice, A: Allocator>()
    ensures now { (store : Store D A ⟦<D as BlockDevice>⟧) (s : SessionState) → Represents store s →
        CommitsWhatOpens D.recovery → (c : Blocks) → BeginsOne (D.recovery.commits (device_in store)) c →
        IsImageOfOne s.stops.kept c }
    ensures so_far { (store : Store D A ⟦<D as BlockDevice>⟧) (s : SessionState) → Represents store s →
        CommitsWhatOpens D.recovery → (c : Blocks) →
        D.recovery.found_since (device_in store) s.stops.since c →
        IsImageOfOne s.stops.kept_so_far c }
{}

/// Once a closing has ended, refused or not, a stop at any moment since the beginning left blocks that
/// opening refuses, or an image of one of the tables so far or of the table that was closed.
pub fn a_closing_adds_its_table<D: BlockDevice, A: Allocator>()
    ensures { (store : Store D A ⟦<D as BlockDevice>⟧) (s : SessionState) (t : Table) (device : D) →
        Represents store s → LeavesOnly D.moment D.left_since D.recovery (device_in store) device
        (IsRefusedOrImageOf (t ∷ tables_left s.stops.now)) →
        (c : Blocks) → D.left_since device s.stops.since c → IsRefusedOrImageOf (t ∷ s.stops.so_far) c }
{}

/// The state of a session is that of its store, with the faults of its device.
pub fn a_session_state_is_of_its_store<D: BlockDevice, A: Allocator>()
    ensures { (store : Store D A ⟦<D as BlockDevice>⟧) (s : SessionState) → Represents store s →
        IsOfStore store s }
{}

/// A store is in at most one state: it is not both alive and dead, and its pages hold one table.
pub fn a_store_is_in_one_state<D: BlockDevice, A: Allocator>()
    ensures { (store : Store D A ⟦<D as BlockDevice>⟧) (s t : StoreState) → IsInState store s →
        IsInState store t → s ≡ t }
{}

/// Each moment may be taken for the beginning: the tables so far are then those that a stop now may leave.
pub fn a_session_state_begins_at_each_call<D: BlockDevice, A: Allocator>()
    ensures { (store : Store D A ⟦<D as BlockDevice>⟧) (s : SessionState) → Represents store s →
        Represents store (from_now s (D.moment (device_in store))) }
{}

/// Where the blocks of a store are an image of a table, a stop leaves of them no other table's, whatever
/// closings were refused before.
pub fn an_image_rests_on_its_table<D: BlockDevice, A: Allocator>()
    ensures { (store : Store D A ⟦<D as BlockDevice>⟧) (s : SessionState) (t : Table) → Represents store s →
        IsImage (blocks_in store) t →
        Represents store (resting_on s (D.moment (device_in store)) t) }
{}

/// Calls in turn, of which each promises what [`crate::Store`] says, are a lawful session from each state
/// that the store was in, and a stop at any moment of them left what one before might have left, blocks that
/// opening refuses, or an image of one of the tables so far. And on an honest device, whatever file was
/// opened, the calls after a check that was answered ok were answered lawfully, from some table on.
pub fn calls_in_turn_are_a_session<D: BlockDevice, A: Allocator>()
    ensures session { (old new : Store D A ⟦<D as BlockDevice>⟧) (rs : List Request) (xs : List Answer) →
        Calls old new rs xs →
        Takes Represents old new (λ s s'. Session s rs xs s'
        × StopsLeave old new (IsRefusedOrImageOf s'.stops.so_far)) }
    ensures checked { (old new : Store D A ⟦<D as BlockDevice>⟧) (rs : List Request) (xs : List Answer) →
        Calls old new rs xs → D.honest (device_in old) → LawfulOnceChecked (StandsAs new) rs xs }
    ensures honest { (old new : Store D A ⟦<D as BlockDevice>⟧) (rs : List Request) (xs : List Answer) →
        Calls old new rs xs → D.honest (device_in old) → D.honest (device_in new) }
{}

/// A lawful step is a lawful answer, whatever stops leave.
#[tactic(auto, using(crate::proofs::SessionLemmas::a_step_is_a_reply))]
pub fn a_step_is_a_reply()
    ensures { (old new : SessionState) (r : Request) (a : Answer) → LawfulStep old r a new →
        LawfulReply (standing_of old) r a (standing_of new) }
{}
