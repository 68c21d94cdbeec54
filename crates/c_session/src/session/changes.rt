//! The calls that change the table.
ghost use Rattle.std.specs.Prelude.{◌⊎◌, map};
ghost use Rattle.plain_table.specs.Commands.Command.{Create, Delete, Drop, Insert, Load, Move};
ghost use Rattle.c_rows.specs.Rows.{object_in};
ghost use Rattle.c_session.specs.Calls.{ChangesBy, ChangesWith, HasNoMemory};
ghost use Rattle.c_rows.specs.Boxes.{raw_box};

use crate::session::{BAD_NUMBERS, CLOSED, READ_ONLY, Session};
use block_device::BlockDevice;
use c_rows::{Row, number_of, objects_of, raw_box, tell};
use plain_table::Refusal;
use std::alloc::Allocator;

impl<D: BlockDevice, A: Allocator + Copy> Session<D, A> {
    /// Makes an empty layer of that name with 2 or 3 axes, whose nodes may have 4 to 100 entries.
    pub fn create_layer(&mut self, layer: &[u8], dims: u64, fanout: u64) -> u32
        ensures { ChangesBy self.old self.new (Create layer.now dims fanout) result }
    {
        if self.read_only {
            return READ_ONLY;
        }
        match &mut self.store {
            Some(store) => number_of(store.create(layer, dims, fanout), &mut self.detail),
            None => CLOSED,
        }
    }

    /// Takes out a layer with its objects.
    pub fn drop_layer(&mut self, layer: &[u8]) -> u32
        ensures { ChangesBy self.old self.new (Drop layer.now) result }
    {
        if self.read_only {
            return READ_ONLY;
        }
        match &mut self.store {
            Some(store) => number_of(store.drop_layer(layer), &mut self.detail),
            None => CLOSED,
        }
    }

    /// Adds an object. Its box is given by its numbers, the lows and then the highs.
    pub fn insert(&mut self, layer: &[u8], id: u64, numbers: &[i32], tag: u32) -> u32
        ensures { ChangesWith self.old self.new (raw_box numbers.now) (λ b. Insert layer.now id b tag)
            result }
    {
        if self.read_only {
            return READ_ONLY;
        }
        let Some(bounds) = raw_box(numbers) else {
            return BAD_NUMBERS;
        };
        match &mut self.store {
            Some(store) => number_of(store.insert(layer, id, bounds, tag), &mut self.detail),
            None => CLOSED,
        }
    }

    /// Gives an object another box. It keeps its tag.
    pub fn move_object(&mut self, layer: &[u8], id: u64, numbers: &[i32]) -> u32
        ensures { ChangesWith self.old self.new (raw_box numbers.now) (λ b. Move layer.now id b) result }
    {
        if self.read_only {
            return READ_ONLY;
        }
        let Some(bounds) = raw_box(numbers) else {
            return BAD_NUMBERS;
        };
        match &mut self.store {
            Some(store) => number_of(store.move_object(layer, id, bounds), &mut self.detail),
            None => CLOSED,
        }
    }

    /// Takes out an object.
    pub fn delete(&mut self, layer: &[u8], id: u64) -> u32
        ensures { ChangesBy self.old self.new (Delete layer.now id) result }
    {
        if self.read_only {
            return READ_ONLY;
        }
        match &mut self.store {
            Some(store) => number_of(store.delete(layer, id), &mut self.detail),
            None => CLOSED,
        }
    }

    /// Puts objects into an empty layer all at once, of two axes where `axes` is 2, and else of three.
    pub fn load(&mut self, alloc: A, layer: &[u8], axes: u32, rows: &[Row]) -> u32
        ensures { ChangesBy self.old self.new (Load layer.now (map (object_in axes) rows.now)) result
            ⊎ HasNoMemory self.old self.new result }
    {
        if self.read_only {
            return READ_ONLY;
        }
        let Some(store) = &mut self.store else {
            return CLOSED;
        };
        match objects_of(alloc, axes, rows) {
            Ok(objects) => number_of(store.load_owned(layer, objects), &mut self.detail),
            Err(_) => tell(Refusal::Memory, &mut self.detail),
        }
    }
}
