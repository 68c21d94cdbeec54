//! The calls that change the table: each is one lawful step of the store that the handle holds.
ghost use Rattle.std.specs.Prelude.{◌⊎◌, map};
ghost use Rattle.plain_table.specs.Commands.Command.{Create, Delete, Drop, Insert, Load, Move};
ghost use Rattle.c_rows.specs.Boxes.{raw_box};
ghost use Rattle.c_rows.specs.Rows.{object_in};
ghost use Rattle.c_session.specs.Calls.{ChangesBy, ChangesWith, HasNoMemory};

use crate::handle::Handle;
use c_rows::Row;
use std::alloc::Global;

/// Makes a layer.
#[unsafe(no_mangle)]
pub extern "C" fn rstore_c_create_layer(
    handle: &mut Handle,
    layer: &[u8],
    dims: u64,
    fanout: u64,
) -> u32
    ensures { ChangesBy handle.old.value.session handle.new.value.session (Create layer.now dims fanout)
        result }
{
    handle.held().session.create_layer(layer, dims, fanout)
}

/// Takes out a layer.
#[unsafe(no_mangle)]
pub extern "C" fn rstore_c_drop_layer(handle: &mut Handle, layer: &[u8]) -> u32
    ensures { ChangesBy handle.old.value.session handle.new.value.session (Drop layer.now) result }
{
    handle.held().session.drop_layer(layer)
}

/// Adds an object.
#[unsafe(no_mangle)]
pub extern "C" fn rstore_c_insert(
    handle: &mut Handle,
    layer: &[u8],
    id: u64,
    numbers: &[i32],
    tag: u32,
) -> u32
    ensures { ChangesWith handle.old.value.session handle.new.value.session (raw_box numbers.now)
        (λ b. Insert layer.now id b tag) result }
{
    handle.held().session.insert(layer, id, numbers, tag)
}

/// Gives an object another box.
#[unsafe(no_mangle)]
pub extern "C" fn rstore_c_move(handle: &mut Handle, layer: &[u8], id: u64, numbers: &[i32]) -> u32
    ensures { ChangesWith handle.old.value.session handle.new.value.session (raw_box numbers.now)
        (λ b. Move layer.now id b) result }
{
    handle.held().session.move_object(layer, id, numbers)
}

/// Takes out an object.
#[unsafe(no_mangle)]
pub extern "C" fn rstore_c_delete(handle: &mut Handle, layer: &[u8], id: u64) -> u32
    ensures { ChangesBy handle.old.value.session handle.new.value.session (Delete layer.now id) result }
{
    handle.held().session.delete(layer, id)
}

/// Puts objects into an empty layer, of two axes where `axes` is 2, and else of three.
#[unsafe(no_mangle)]
pub extern "C" fn rstore_c_load(
    alloc: Global,
    handle: &mut Handle,
    layer: &[u8],
    axes: u32,
    rows: &[Row],
) -> u32
    ensures { ChangesBy handle.old.value.session handle.new.value.session
        (Load layer.now (map (object_in axes) rows.now)) result
        ⊎ HasNoMemory handle.old.value.session handle.new.value.session result }
{
    handle.held().session.load(alloc, layer, axes, rows)
}
