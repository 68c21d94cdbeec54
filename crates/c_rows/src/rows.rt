//! Rows of answers.
ghost use Rattle.std.specs.Prelude.{◌≡◌, ◌++◌, length, min, map, take, drop};
ghost use Rattle.c_rows.specs.Rows.{id_of, near_of, pair_of, row_of};

use plain_table::AnyBox;

/// An object: its identifier, its box, its tag, and how many axes it has. Of two axes the third low and high
/// are 0.
#[repr(C)]
#[derive(Clone, Copy)]
pub struct Row {
    /// Its identifier.
    pub id: u64,
    /// The low on each axis.
    pub low: [i32; 3],
    /// The high on each axis.
    pub high: [i32; 3],
    /// Its tag.
    pub tag: u32,
    /// How many axes it has, 2 or 3.
    pub axes: u32,
}

/// An object with its squared distance, which is `distance_high` times 2^64 and `distance`.
#[repr(C)]
#[derive(Clone, Copy)]
pub struct Near {
    /// Its identifier.
    pub id: u64,
    /// The squared distance, its lower 64 bits.
    pub distance: u64,
    /// And those above.
    pub distance_high: u64,
}

/// A pair of objects of two layers.
#[repr(C)]
#[derive(Clone, Copy)]
pub struct Pair {
    /// The identifier of the one of the first layer.
    pub first: u64,
    /// And of the second.
    pub second: u64,
}

/// An object as C has it.
pub fn object_row(id: u64, bounds: &AnyBox, tag: u32) -> Row
    ensures { result ≡ row_of (id, bounds.now, tag) }
{
    match bounds {
        AnyBox::Two(bounds) => {
            let [a, b] = bounds.low();
            let [c, d] = bounds.high();
            Row {
                id,
                low: [a, b, 0],
                high: [c, d, 0],
                tag,
                axes: 2,
            }
        }
        AnyBox::Three(bounds) => Row {
            id,
            low: bounds.low(),
            high: bounds.high(),
            tag,
            axes: 3,
        },
    }
}

/// A near object as C has it.
pub fn near_row(id: u64, distance: u128) -> Near
    ensures { result ≡ near_of (id, distance) }
{
    Near {
        id,
        distance: (distance % (1 << 64)) as u64,
        distance_high: (distance / (1 << 64)) as u64,
    }
}

/// Writes objects into an array, as many as it has room for, and says how many.
pub fn write_objects(objects: &[(u64, AnyBox, u32)], out: &mut [Row]) -> usize
    ensures count { result ≡ min (length objects.now) (length out.old) }
    ensures rows { out.new ≡ map row_of (take result objects.now) ++ drop result out.old }
{
    let count = objects.len().min(out.len());
    for k in 0..count {
        let (id, bounds, tag) = &objects[k];
        out[k] = object_row(*id, bounds, *tag);
    }
    count
}

/// The same of their identifiers alone.
pub fn write_ids(objects: &[(u64, AnyBox, u32)], out: &mut [u64]) -> usize
    ensures count { result ≡ min (length objects.now) (length out.old) }
    ensures rows { out.new ≡ map id_of (take result objects.now) ++ drop result out.old }
{
    let count = objects.len().min(out.len());
    for k in 0..count {
        out[k] = objects[k].0;
    }
    count
}

/// The same of near objects.
pub fn write_nearest(objects: &[(u64, u128)], out: &mut [Near]) -> usize
    ensures count { result ≡ min (length objects.now) (length out.old) }
    ensures rows { out.new ≡ map near_of (take result objects.now) ++ drop result out.old }
{
    let count = objects.len().min(out.len());
    for k in 0..count {
        out[k] = near_row(objects[k].0, objects[k].1);
    }
    count
}

/// The same of pairs.
pub fn write_pairs(pairs: &[(u64, u64)], out: &mut [Pair]) -> usize
    ensures count { result ≡ min (length pairs.now) (length out.old) }
    ensures rows { out.new ≡ map pair_of (take result pairs.now) ++ drop result out.old }
{
    let count = pairs.len().min(out.len());
    for k in 0..count {
        let (first, second) = pairs[k];
        out[k] = Pair { first, second };
    }
    count
}
