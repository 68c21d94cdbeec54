//! The closing of a store, and its reopening.

ghost use Rattle.std.specs.Prelude.{◌≡◌, ◌⊎◌, ◌∷◌, Ok, Err, IsOk, IfOk, IfErr, OnErr, OnOk};
ghost use Rattle.block_device.specs.Device.{LeavesOnly, Only};
ghost use Rattle.live_layers.specs.Faults.{faults_after_refusal};
ghost use Rattle.live_layers.specs.Image.{IsImage, IsRefusedOrImageOf};
ghost use Rattle.live_layers.specs.Staying.{KeepsEachTree, KeepsVersions, LeavesTreesIn};
ghost use Rattle.live_layers.specs.Keeping.{records_in};
ghost use Rattle.page_cache.specs.Cache.{gate_of, pages};
ghost use Rattle.page_file.specs.Layout.{opened_version};
ghost use Rattle.page_file.specs.Pages.{SameBut};
ghost use Rattle.page_file.specs.declared.gate.Gate.TheVariants.{Shut};
ghost use Rattle.plain_table.specs.Answers.{done_answer};
ghost use Rattle.plain_table.specs.Commands.Command.{Reopen};
ghost use Rattle.plain_table.specs.Table.{Table};
ghost use Rattle.plain_table.specs.declared.refusal.Refusal.TheVariants as refusal;
ghost use Rattle.store_law.specs.Sessions.{SessionState};
ghost use Rattle.store_law.specs.States.StoreState.{Alive, Dead};
ghost use Rattle.store_law.specs.Stops.{tables_left};
ghost use Rattle.layer_store.specs.Commands.{CountsFaults, IsMetIn, IsUnfinished, StaysDead, StaysHonest};
ghost use Rattle.layer_store.specs.Commands.{TakesReply, TakesStep, TellsOfEnd};
ghost use Rattle.layer_store.specs.Faults.{IsMemoryOrDevice};
ghost use Rattle.layer_store.specs.Representation.{HasFailed, IsInState, IsSettled, Represents};
ghost use Rattle.layer_store.specs.Representation.{SpellsRecords, SpellsUnchanged, StopsLeave};
ghost use Rattle.layer_store.specs.Representation.{blocks_in, cache_in, device_in, file_version, layers_in};

use crate::store::changes::tell;
use crate::store::{FAILED, Store};
use block_device::BlockDevice;
use live_layers::as_refusal;
use plain_table::Refusal;
use std::alloc::Allocator;

impl<D: BlockDevice, A: Allocator + Copy> Store<D, A> {
    /// Closes the table into the file, forgets what is held of it, and reads gate, header and catalog again.
    /// The blocks are then an image of the table, and each tree stays.
    ///
    /// Refused while closing it answers `Memory` or `Device`, and the store goes on. Refused afterwards it
    /// answers `StoreFailed` with the number of the fault, the store has failed, and the blocks are an image
    /// of its table.
    pub fn reopen(&mut self) -> Result<(), Refusal>
        ensures step { TakesStep self.old self.new Reopen (done_answer result) }
        ensures reply { TakesReply self.old self.new Reopen (done_answer result) }
        ensures honest { StaysHonest self.old self.new }
        ensures closed { (t : Table) → IsInState self.old (Alive t) → IsOk result ⊎ IsInState self.new Dead →
            IsImage (blocks_in self.new) t }
        ensures trees { (t : Table) → IsInState self.old (Alive t) →
            KeepsEachTree (layers_in self.old) (layers_in self.new) }

        // A stop leaves what one before the call leaves, or an image of the table; and after a closing that
        // is finished nothing but what is read.
        ensures stops { (s : SessionState) (t : Table) → Represents self.old s → s.state ≡ Alive t →
            StopsLeave self.old self.new (IsRefusedOrImageOf (t ∷ tables_left s.stops.now)) }
        ensures durable { (t : Table) → IsInState self.old (Alive t) → IsOk result ⊎ IsInState self.new Dead →
            Only (blocks_in self.new) (D.may_leave (device_in self.new)) }

        // One that is settled is only read: a stop leaves the blocks as they are.
        ensures now_settled { IsOk result → IsSettled self.new }
        ensures quiet { (t : Table) → IsInState self.old (Alive t) → IsSettled self.old →
            StopsLeave self.old self.new (λ c. c ≡ blocks_in self.old) }

        // One that is refused has failed, or was not finished: its gate is not shut. One that has failed
        // stays so, on any device.
        ensures ends { OnErr result (IsInState self.new Dead ⊎ ¬ (gate_of (cache_in self.new) ≡ Shut)) }
        // It is refused by StoreFailed exactly where it is dead afterwards, also one that is not sound.
        ensures ended { IfErr result (TellsOfEnd self.new) }
        // On any honest device all pages but that of the catalog stay, which then spells the records.
        // Refused, it keeps the records, which that page spells where nothing was changed since the last
        // closing or its try.
        ensures beside { D.honest (device_in self.old) →
            SameBut 2 (pages (cache_in self.old)) (pages (cache_in self.new)) }
        ensures records { OnErr result (records_in (layers_in self.new) ≡ records_in (layers_in self.old)) }
        ensures read { D.honest (device_in self.old) → OnOk result (SpellsRecords self.new) }
        ensures spelled { (t : Table) → IsInState self.old (Alive t) →
            SpellsUnchanged self.old → SpellsUnchanged self.new }
        ensures versions { KeepsVersions (layers_in self.old) (layers_in self.new) }
        ensures dead { StaysDead self.old self.new result }
        // On any honest device a fault that was met refused it, or ended the store, which tells its number.
        ensures met { D.honest (device_in self.old) → IsInState self.old Dead ⊎
            IfErr result (IsMetIn (cache_in self.new)) }
        ensures cause { CountsFaults self.old self.new result }
    {
        if self.failed {
            return Err(FAILED);
        }
        let closed = self.layers.reopen();
        tell(&mut self.failed, closed)
    }

    /// Closes the table into the file, and hands the device back.
    ///
    /// Closed, its blocks are an image of the table, and have each tree, and the version of the file.
    /// Refused it answers `Memory` or `Device`, and the device comes back: then a stop leaves of it blocks
    /// that opening refuses, or an image of a table that was closed before, or of this one. A store that
    /// failed answers `StoreFailed(19)`, with the device as it is.
    pub fn close(self) -> Result<D, (Refusal, D)>
        ensures closed { (t : Table) → IsInState self (Alive t) →
            IfOk result (λ device. IsImage (D.shown device) t) }
        ensures trees { (t : Table) → IsInState self (Alive t) →
            IfOk result (λ device. LeavesTreesIn (layers_in self) (D.shown device)) }
        ensures version { IfOk result (λ device. D.honest (device_in self) →
            opened_version (D.shown device) ≡ file_version self) }

        // A stop leaves what one before the call leaves, or an image of the table; and after a closing that
        // is finished nothing but what is read.
        ensures stops { (s : SessionState) (t : Table) → Represents self s → s.state ≡ Alive t →
            IfOk result (λ device.
            LeavesOnly D.moment D.left_since D.recovery (device_in self) device
            (IsRefusedOrImageOf (t ∷ tables_left s.stops.now))) }
        ensures refused_stops { (s : SessionState) (t : Table) → Represents self s → s.state ≡ Alive t →
            IfErr result (λ e.
            LeavesOnly D.moment D.left_since D.recovery (device_in self) e.1
            (IsRefusedOrImageOf (t ∷ tables_left s.stops.now))) }
        ensures durable { (t : Table) → IsInState self (Alive t) →
            IfOk result (λ device. Only (D.shown device) (D.may_leave device)) }

        // Of one that is settled already the device comes back as it is.
        ensures quiet { IsSettled self → IsInState self Dead ⊎ (result ≡ Ok (device_in self)) }

        ensures refused { (t : Table) → IsInState self (Alive t) → IfErr result (λ e. IsMemoryOrDevice e.0) }

        // One that is refused was not finished: what is left is what a refused reopening leaves, and its gate
        // is not shut.
        ensures unfinished { (t : Table) → IsInState self (Alive t) →
            IfErr result (λ e. IsUnfinished self e.0 e.1) }

        ensures dead { IsInState self Dead → result ≡ Err (refusal.StoreFailed 19, device_in self) }
        ensures failed { HasFailed self → result ≡ Err (refusal.StoreFailed 19, device_in self) }
        ensures no_fault { IfOk result (λ device. D.faults device ≡ D.faults (device_in self)) }
        ensures cause { IfErr result
            (λ e. D.faults e.1 ≡ faults_after_refusal e.0 (D.faults (device_in self))) }
        ensures honest { IfOk result (λ device. D.honest (device_in self) → D.honest device) }
        ensures refused_honest { IfErr result (λ e. D.honest (device_in self) → D.honest e.1) }
    {
        let Store {
            layers,
            rooms,
            failed,
        } = self;
        drop(rooms);
        if failed {
            return Err((FAILED, layers.abandon()));
        }
        let mut layers = layers;
        let settled = layers.settle();
        let device = layers.abandon();
        match settled {
            Ok(()) => Ok(device),
            Err(fault) => Err((as_refusal(fault), device)),
        }
    }

    /// Gives up what was changed since the last closing: hands the device back as it is, of a store that is
    /// alive or has failed, and makes no call of it. Opening refuses such a device where a change was begun;
    /// one that commits brings back what was closed last.
    pub fn abandon(self) -> D
        ensures { result ≡ device_in self }
    {
        let Store {
            layers,
            rooms,
            failed: _,
        } = self;
        drop(rooms);
        layers.abandon()
    }
}
