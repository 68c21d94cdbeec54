//! Commands as plain data, their answers as numbers, and a store beside another.

use block_device::{BlockDevice, MemoryDevice};
use layer_store::{AnyBox, RawBox, RawPoint, RawQuery, Refusal, Store};
use plain_table::{DumpRow, LayerInfo};
use std::alloc::{AllocError, Allocator, Global};

/// The window that all boxes of two axes meet.
pub const PLANE: RawBox = RawBox::Two([i32::MIN; 2], [i32::MAX; 2]);

/// The window that all boxes of three axes meet.
pub const SPACE: RawBox = RawBox::Three([i32::MIN; 3], [i32::MAX; 3]);

/// An object as it is given: its identifier, its box, unchecked, and its tag.
pub type Object = (u64, RawBox, u32);

/// A command. Those before the joins are on the layer of a name.
#[derive(Clone, Copy, Debug)]
pub enum Command<'a> {
    /// A new layer with so many axes and such a fanout.
    Create(&'a [u8], u64, u64),
    /// A new object with the tag 0.
    Insert(&'a [u8], u64, RawBox),
    /// All objects of a layer that has none.
    Load(&'a [u8], &'a [Object]),
    /// Another box for an object.
    Move(&'a [u8], u64, RawBox),
    /// An object taken out.
    Delete(&'a [u8], u64),
    /// The layer taken out.
    Drop(&'a [u8]),
    /// An object.
    Get(&'a [u8], u64),
    /// How many objects there are.
    Count(&'a [u8]),
    /// The objects that meet a box.
    Window(&'a [u8], RawBox),
    /// The objects within a box.
    Inside(&'a [u8], RawBox),
    /// The objects that enclose a box.
    Around(&'a [u8], RawBox),
    /// The objects that hold a point.
    Point(&'a [u8], RawPoint),
    /// The objects with a tag that a query seeks.
    Tagged(&'a [u8], RawQuery, u32),
    /// So many objects nearest to a point.
    Nearest(&'a [u8], u64, RawPoint),
    /// The pairs of objects of two layers that are so near.
    Join(&'a [u8], &'a [u8], u64),
    /// All layers.
    Layers,
    /// All layers and objects.
    Dump,
    /// Whether the pages are as they have to be.
    Check,
    /// A closing, after which the store reads again.
    Reopen,
}

impl Command<'_> {
    /// Whether it may change the table.
    pub fn is_change(self) -> bool {
        matches!(
            self,
            Command::Create(..)
                | Command::Insert(..)
                | Command::Load(..)
                | Command::Move(..)
                | Command::Delete(..)
                | Command::Drop(..)
        )
    }

    /// Whether it is a closing.
    pub fn is_closing(self) -> bool {
        matches!(self, Command::Reopen)
    }
}

/// The numbers of an answer's rows, one after the other: a count, or identifiers with bounds, squared
/// distances or other identifiers, or the bytes of names with numbers. A change has none.
pub type Answer = Result<Vec<i128>, Refusal>;

/// Puts the command to a store.
pub fn answer<D: BlockDevice, A: Allocator + Copy + Drop>(
    alloc: Global,
    store: &mut Store<D, A>,
    command: Command<'_>,
) -> Answer {
    let mut numbers = Vec::new(alloc);
    if command.is_change() {
        change(store, command)?;
    } else {
        ask(&mut numbers, store, command)?;
    }
    Ok(numbers)
}

// Puts a change to a store. Here and in `ask` the other commands are named too, so that no new one is passed
// over.
fn change<D: BlockDevice, A: Allocator + Copy + Drop>(
    store: &mut Store<D, A>,
    change: Command<'_>,
) -> Result<(), Refusal> {
    match change {
        Command::Create(name, dims, fanout) => store.create(name, dims, fanout),
        Command::Insert(name, id, bounds) => store.insert(name, id, bounds, 0),
        Command::Load(name, objects) => store.load(name, objects),
        Command::Move(name, id, bounds) => store.move_object(name, id, bounds),
        Command::Delete(name, id) => store.delete(name, id),
        Command::Drop(name) => store.drop_layer(name),
        Command::Get(..)
        | Command::Count(..)
        | Command::Window(..)
        | Command::Inside(..)
        | Command::Around(..)
        | Command::Point(..)
        | Command::Tagged(..)
        | Command::Nearest(..)
        | Command::Join(..)
        | Command::Layers
        | Command::Dump
        | Command::Check
        | Command::Reopen => Ok(()),
    }
}

// Puts a command that is no change to a store, and adds the numbers of its answer.
fn ask<D: BlockDevice, A: Allocator + Copy + Drop>(
    numbers: &mut Vec<i128>,
    store: &mut Store<D, A>,
    question: Command<'_>,
) -> Result<(), Refusal> {
    match question {
        Command::Get(name, id) => {
            let (bounds, tag) = store.get(name, id)?;
            push_row(numbers, &(id, bounds, tag))?
        }
        Command::Count(name) => numbers.push(i128::from(store.count(name)?))?,
        Command::Window(name, bounds) => push_rows(numbers, &store.window(name, bounds, None)?)?,
        Command::Inside(name, bounds) => push_rows(numbers, &store.inside(name, bounds, None)?)?,
        Command::Around(name, bounds) => push_rows(numbers, &store.around(name, bounds, None)?)?,
        Command::Point(name, point) => push_rows(numbers, &store.point(name, point, None)?)?,
        Command::Tagged(name, query, tag) => {
            push_rows(numbers, &store.range(name, query, Some(tag))?)?
        }
        Command::Nearest(name, k, point) => {
            push_distances(numbers, &store.nearest(name, k, point)?)?
        }
        Command::Join(first, second, within) => {
            push_pairs(numbers, &store.join(first, second, within)?)?
        }
        Command::Layers => push_infos(numbers, &store.layers()?)?,
        Command::Dump => push_dump(numbers, &store.dump()?)?,
        Command::Check => store.check()?,
        Command::Reopen => store.reopen()?,
        Command::Create(..)
        | Command::Insert(..)
        | Command::Load(..)
        | Command::Move(..)
        | Command::Delete(..)
        | Command::Drop(..) => {}
    }
    Ok(())
}

fn push_coordinates(numbers: &mut Vec<i128>, coordinates: &[i32]) -> Result<(), AllocError> {
    for &coordinate in coordinates {
        numbers.push(i128::from(coordinate))?;
    }
    Ok(())
}

// The tag is shown where it is not 0, as in the text of a row.
fn push_row(numbers: &mut Vec<i128>, row: &(u64, AnyBox, u32)) -> Result<(), AllocError> {
    numbers.push(i128::from(row.0))?;
    match row.1 {
        AnyBox::Two(bounds) => {
            push_coordinates(numbers, &bounds.low())?;
            push_coordinates(numbers, &bounds.high())?;
        }
        AnyBox::Three(bounds) => {
            push_coordinates(numbers, &bounds.low())?;
            push_coordinates(numbers, &bounds.high())?;
        }
    }
    if row.2 != 0 {
        numbers.push(i128::from(row.2))?;
    }
    Ok(())
}

fn push_rows(numbers: &mut Vec<i128>, rows: &[(u64, AnyBox, u32)]) -> Result<(), AllocError> {
    for row in rows {
        push_row(numbers, row)?;
    }
    Ok(())
}

fn push_distances(numbers: &mut Vec<i128>, rows: &[(u64, u128)]) -> Result<(), AllocError> {
    for row in rows {
        numbers.push(i128::from(row.0))?;
        numbers.push(i128::try_from(row.1).unwrap_or(i128::MAX))?;
    }
    Ok(())
}

fn push_pairs(numbers: &mut Vec<i128>, pairs: &[(u64, u64)]) -> Result<(), AllocError> {
    for pair in pairs {
        numbers.push(i128::from(pair.0))?;
        numbers.push(i128::from(pair.1))?;
    }
    Ok(())
}

fn push_layer(
    numbers: &mut Vec<i128>,
    name: &[u8],
    dims: u8,
    fanout: u8,
) -> Result<(), AllocError> {
    for &byte in name {
        numbers.push(i128::from(byte))?;
    }
    numbers.push(i128::from(dims))?;
    numbers.push(i128::from(fanout))?;
    Ok(())
}

fn push_infos(numbers: &mut Vec<i128>, layers: &[LayerInfo]) -> Result<(), AllocError> {
    for layer in layers {
        push_layer(numbers, layer.name.as_slice(), layer.dims, layer.fanout)?;
        numbers.push(i128::from(layer.count))?;
    }
    Ok(())
}

fn push_dump(numbers: &mut Vec<i128>, rows: &[DumpRow]) -> Result<(), AllocError> {
    for row in rows {
        match row {
            DumpRow::Create(name, dims, fanout) => {
                push_layer(numbers, name.as_slice(), *dims, *fanout)?
            }
            DumpRow::Insert(name, id, bounds, tag) => {
                for &byte in name.as_slice() {
                    numbers.push(i128::from(byte))?;
                }
                push_row(numbers, &(*id, *bounds, *tag))?;
            }
        }
    }
    Ok(())
}

/// Whether the store's pages are as they have to be, and it has the layers and objects that the reference store
/// has: by a dump, and the objects of the layers of these names by windows, those with an identifier below a
/// bound by their identifier tables too, and their counts.
pub fn represents<D: BlockDevice, A: Allocator + Copy + Drop>(
    alloc: Global,
    store: &mut Store<D, A>,
    reference: &mut Store<MemoryDevice>,
    names: &[&[u8]],
    ids: u64,
) -> bool {
    for question in [Command::Layers, Command::Dump, Command::Check] {
        if answer(alloc, store, question) != answer(alloc, reference, question) {
            return false;
        }
    }
    for &name in names {
        for question in [
            Command::Window(name, PLANE),
            Command::Window(name, SPACE),
            Command::Count(name),
        ] {
            if answer(alloc, store, question) != answer(alloc, reference, question) {
                return false;
            }
        }
        for id in 0..ids {
            let question = Command::Get(name, id);
            if answer(alloc, store, question) != answer(alloc, reference, question) {
                return false;
            }
        }
    }
    true
}
