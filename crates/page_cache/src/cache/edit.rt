//! A page changed where it lies in memory.
ghost use Rattle.std.specs.Prelude.{◌≡◌, ◌⊎◌, ◌≤◌, ◌<◌, ℕ, List, Some, Err, IsErrOf, IfOk, IfErr, OnOk};
ghost use Rattle.std.specs.Prelude.{OnErr};
ghost use Rattle.std.specs.Prelude.{if◌then◌else◌, ◌==◌, ◌||◌, is_ok, true};
ghost use Rattle.std.specs.Fn.{FnOnceReturnsAtMut};
ghost use Rattle.block_device.specs.Device.{IsBlock};
ghost use Rattle.node_bytes.specs.Layout.{StaysNode};
ghost use Rattle.page_file.specs.Fault.{IsOfDevice, IsDamage};
ghost use Rattle.page_file.specs.Pages.{SameBut};
ghost use Rattle.page_file.specs.declared.fault.Fault.TheVariants as fault;
ghost use Rattle.page_file.specs.declared.gate.Gate.TheVariants.{Open};
ghost use Rattle.page_cache.specs.Cache.{Grows, IsHeld, IsHonest, IsLive, IsPageMap, IsUnchanged, KeepsMap};
ghost use Rattle.page_cache.specs.Cache.{device_of, gate_of, given, held_pages, looks_of, next_of, pages};
ghost use Rattle.page_cache.specs.Cache.{touched_of};
ghost use Rattle.page_cache.specs.Calls.{Changes};
ghost use Rattle.page_cache.specs.Frames.{frame_at};
ghost use Rattle.page_cache.specs.Uses.{Uses};
ghost use Rattle.page_cache.specs.PageSteps.{Edits, Refills};

use crate::cache::PageCache;
use crate::frame::{Frame, axes_of, see_block};
use block_device::BlockDevice;
use page_file::Fault;
use std::alloc::Allocator;

impl<D: BlockDevice, A: Allocator + Copy> PageCache<D, A> {
    /// Changes a live page where it lies in memory, and holds it: `change` gets its bytes, and its answer is
    /// handed on. The gate is opened, if it is not open. A number outside 2 to the last one given out is
    /// `Damaged` with that number, without a call of the device.
    ///
    /// It counts no look. After a refusal, which on an honest device is `Memory` or `Device`, the map is as
    /// before.
    #[tactic(auto, using(crate::specs::Calls::counted_by_end))]
    pub fn edit<T, F: FnOnce(&mut [u8; 4096]) -> T>(
        &mut self,
        n: u32,
        change: F,
    ) -> Result<T, Fault>
        requires change { F.IsAlwaysCallable change }
        ensures { Edits n (λ page answer after. FnOnceReturnsAtMut F.FnOnce change page answer after)
            self.old self.new result }
    {
        self.edit_known(n, 0, change)
    }

    /// Changes a live page as `edit` does, where `change` leaves a page that spells a node of so many axes
    /// one that does: what is known of it is known still.
    #[tactic(auto, using(crate::specs::Calls::counted_by_end))]
    pub fn edit_node<const AXES: usize, T, F: FnOnce(&mut [u8; 4096]) -> T>(
        &mut self,
        n: u32,
        change: F,
    ) -> Result<T, Fault>
        requires change { F.IsAlwaysCallable change }
        requires stays { (page after : List ℕ) (answer : T) →
            FnOnceReturnsAtMut F.FnOnce change page answer after → StaysNode AXES page after }
        ensures { Edits n (λ page answer after. FnOnceReturnsAtMut F.FnOnce change page answer after)
            self.old self.new result }
    {
        self.edit_known(n, axes_of::<AXES>(), change)
    }

    // Changes a live page where it lies, of which it stays known that it spells a node of so many axes; of 0
    // axes nothing is known.
    #[tactic(auto, using(crate::specs::Calls::counted_by_end))]
    fn edit_known<T, F: FnOnce(&mut [u8; 4096]) -> T>(
        &mut self,
        n: u32,
        axes: u8,
        change: F,
    ) -> Result<T, Fault>
        requires change { F.IsAlwaysCallable change }
        requires stays { 0 < axes → (page after : List ℕ) (answer : T) →
            FnOnceReturnsAtMut F.FnOnce change page answer after → StaysNode axes page after }
        ensures { Edits n (λ page answer after. FnOnceReturnsAtMut F.FnOnce change page answer after)
            self.old self.new result }
    {
        if n < 2 || n >= self.file.next_number() {
            return Err(Fault::Damaged(n));
        }
        self.open_gate()?;
        self.load(n)?;
        Ok(self.change_held(n, axes, change))
    }

    /// Fills a live page in memory, and holds it: `fill` gets a page of any bytes, which is that page where
    /// it is held. The gate is opened, if it is not open. A number outside 2 to the last one given out is
    /// `Damaged` with that number, without a call of the device.
    ///
    /// It counts no look. After a refusal, which on an honest device is `Memory` or `Device`, the map is as
    /// before.
    #[tactic(auto, using(crate::specs::Calls::counted_by_end))]
    pub fn refill<F: FnOnce(&mut [u8; 4096])>(&mut self, n: u32, fill: F) -> Result<(), Fault>
        requires fill { F.IsAlwaysCallable fill }
        ensures { Refills n (λ before after. FnOnceReturnsAtMut F.FnOnce fill before tt after)
            self.old self.new result }
    {
        if n < 2 || n >= self.file.next_number() {
            return Err(Fault::Damaged(n));
        }
        self.open_gate()?;
        if self.promote(n) {
            self.change_held(n, 0, fill);
            return Ok(());
        }
        self.make_room()?;
        let mut bytes = self.blank()?;
        fill(&mut bytes);
        see_block(&bytes);
        let frame = Frame {
            bytes,
            changed: true,
            axes: 0,
        };
        let held = self.hold(n, frame);
        self.touched |= held.is_ok();
        held
    }

    // Changes the bytes of a page that is held, of which it stays known that they spell a node of so many
    // axes; of 0 axes nothing is known.
    fn change_held<T, F: FnOnce(&mut [u8; 4096]) -> T>(&mut self, n: u32, axes: u8, change: F) -> T
        requires held { IsHeld self.old n }
        requires open { gate_of self.old ≡ Open }
        requires change { F.IsAlwaysCallable change }
        requires stays { 0 < axes → (page after : List ℕ) (answer : T) →
            FnOnceReturnsAtMut F.FnOnce change page answer after → StaysNode axes page after }
        ensures frames { (old : Frame A) → frame_at self.old.frames.entries n ≡ Some old
            → (new : Frame A) × (new.changed ≡ true) × IsBlock new.bytes.value
            × FnOnceReturnsAtMut F.FnOnce change old.bytes.value result new.bytes.value
            × ((k : ℕ) → frame_at self.new.frames.entries k
            ≡ (if k == n then Some new else frame_at self.old.frames.entries k)) }
        ensures held { held_pages self.new ≡ held_pages self.old }
        ensures file { self.new.file ≡ self.old.file }
        ensures looks { self.new.looks ≡ self.old.looks }
        ensures touched { self.new.touched ≡ true }
        ensures capacity { self.new.frames.cap ≡ self.old.frames.cap }
    {
        let _count = self.frames.len();
        match self.frames.peek_mut(&n) {
            Some(frame) => {
                self.touched = true;
                frame.change(axes, change)
            }
            None => unreachable!(),
        }
    }
}
