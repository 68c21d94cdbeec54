//! Objects put into a layer of a store, which is then closed, or given up.
ghost use Rattle.std.specs.Prelude.{◌≡◌, is_ok, IfErr};
ghost use Rattle.plain_table.specs.Table.{Table};
ghost use Rattle.store_law.specs.Sessions.{SessionState};
ghost use Rattle.store_law.specs.States.StoreState.{Alive};
ghost use Rattle.layer_store.specs.Calls.{Calls};
ghost use Rattle.layer_store.specs.Representation.{Represents, closed_since, device_in};
ghost use Rattle.layer_import.specs.Imports.{HasImported, Inserts, IsUnimported, Puts, import_commands};
ghost use Rattle.layer_import.specs.Imports.{outcome_of};

use block_device::BlockDevice;
use layer_store::{RawBox, Refusal, Store};
use std::alloc::Allocator;

/// Objects for a layer.
#[derive(Drop)]
pub struct Import<'a, A: Allocator> {
    /// The layer's name.
    pub layer: &'a [u8],
    /// How many axes the layer has where it is made, 2 or 3.
    pub dims: u64,
    /// Its fanout where it is made, 4 to 100.
    pub fanout: u64,
    /// The objects: identifiers, boxes and tags.
    pub objects: Vec<(u64, RawBox, u32), A>,
}

/// Why objects were not imported.
#[derive(Clone, Copy, Debug, PartialEq, Eq)]
pub struct Unimported {
    /// What the store answered.
    pub refusal: Refusal,
    /// The object that was refused, where they were inserted one by one.
    pub object: Option<u64>,
}

/// Who is told how far an import is.
pub trait PutProgress {
    /// So many objects are to be put in.
    fn begin(&mut self, all: usize);

    /// So many more were.
    fn put(&mut self, more: usize);

    /// No more will be.
    fn end(&mut self);
}

impl From<Refusal> for Unimported {
    ghost use Rattle.std.specs.Prelude.{◌≡◌, None};

    ghost from_gives = { λ refusal why. why ≡ record { refusal = refusal; object = None } };

    fn from(refusal: Refusal) -> Unimported {
        Unimported {
            refusal,
            object: None,
        }
    }
}

/// What is left of an import.
#[derive(Drop)]
pub struct Imported<D: BlockDevice> {
    /// Whether all objects were put in and the store was closed, or why not.
    pub outcome: Result<(), Unimported>,
    /// The store's device.
    pub device: D,
}

/// Puts objects into a layer of a store and closes it. The layer is made where there is none of that name;
/// one without objects is loaded, and into another the objects are inserted in turn.
///
/// **Where the store holds a table that was closed last, then either each of these commands was done, and the
/// blocks are an image of the table after them; or the store was given up, as where one is refused, and
/// nothing was closed: over a device that commits the table is found as it was.** Where the closing is
/// refused, by `Memory` or `Device`, the table is found as it was, or as it was to be.
///
/// What is told of a refusal is what the store answered the last call, and an object is named where that was
/// its insertion. `progress` is told how many objects were put in.
pub fn import_and_close<D: BlockDevice, A: Allocator + Copy, P: PutProgress>(
    store: Store<D, A>,
    import: Import<'_, A>,
    progress: &mut P,
) -> Imported<D>
    ensures imported { (s : SessionState) (t : Table) (moment : _) → Represents store s → s.state ≡ Alive t →
        s.stops ≡ closed_since moment t →
        HasImported D.BlockDevice moment t
        (import_commands t import.entry.layer.now import.entry.dims import.entry.fanout
        import.entry.objects.items)
        (is_ok result.outcome) (device_in store) result.device }
    ensures why { IfErr result.outcome (IsUnimported store import.entry.layer.now import.entry.dims
        import.entry.fanout import.entry.objects.items) }
{
    let mut store = store;
    if let Err(why) = put_all(&mut store, import, progress) {
        return Imported {
            outcome: Err(why),
            device: store.abandon(),
        };
    }
    match store.close() {
        Ok(device) => Imported {
            outcome: Ok(()),
            device,
        },
        Err((refusal, device)) => Imported {
            outcome: Err(Unimported::from(refusal)),
            device,
        },
    }
}

// Puts objects into a layer of a store, and tells how far it is.
fn put_all<D: BlockDevice, A: Allocator + Copy, P: PutProgress>(
    store: &mut Store<D, A>,
    import: Import<'_, A>,
    progress: &mut P,
) -> Result<(), Unimported>
    ensures { Puts (Calls store.old store.new) import.entry.layer.now import.entry.dims import.entry.fanout
        import.entry.objects.items result }
{
    progress.begin(import.objects.len());
    let outcome = put(store, import, progress);
    progress.end();
    outcome
}

// Puts objects into a layer of a store, which is made where it is not there.
fn put<D: BlockDevice, A: Allocator + Copy, P: PutProgress>(
    store: &mut Store<D, A>,
    import: Import<'_, A>,
    progress: &mut P,
) -> Result<(), Unimported>
    ensures { Puts (Calls store.old store.new) import.entry.layer.now import.entry.dims import.entry.fanout
        import.entry.objects.items result }
{
    let objects = import.objects;
    match store.count(import.layer) {
        Ok(count) => {
            if count > 0 {
                return insert_each(store, import.layer, objects.as_slice(), progress);
            }
            let all = objects.len();
            told(store.load_owned(import.layer, objects), all, progress)
        }
        Err(Refusal::NoLayer) => {
            if let Err(refusal) = store.create(import.layer, import.dims, import.fanout) {
                return Err(Unimported::from(refusal));
            }
            let all = objects.len();
            told(store.load_owned(import.layer, objects), all, progress)
        }
        Err(refusal) => Err(Unimported::from(refusal)),
    }
}

// What a load of all objects, which are so many, was answered.
fn told<P: PutProgress>(
    loaded: Result<(), Refusal>,
    objects: usize,
    progress: &mut P,
) -> Result<(), Unimported>
    ensures { result ≡ outcome_of loaded }
{
    match loaded {
        Ok(()) => {
            progress.put(objects);
            Ok(())
        }
        Err(refusal) => Err(Unimported::from(refusal)),
    }
}

// Inserts objects in turn.
fn insert_each<D: BlockDevice, A: Allocator + Copy, P: PutProgress>(
    store: &mut Store<D, A>,
    layer: &[u8],
    objects: &[(u64, RawBox, u32)],
    progress: &mut P,
) -> Result<(), Unimported>
    ensures { Inserts (Calls store.old store.new) layer.now objects.now result }
{
    for object in objects {
        if let Err(refusal) = store.insert(layer, object.0, object.1, object.2) {
            return Err(Unimported {
                refusal,
                object: Some(object.0),
            });
        }
        progress.put(1);
    }
    Ok(())
}
