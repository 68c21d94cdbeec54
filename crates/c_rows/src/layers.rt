//! Layers in a listing.
ghost use Rattle.std.specs.Prelude.{◌≡◌, ◌++◌, length, min, map, take, drop};
ghost use Rattle.c_rows.specs.Layers.{layer_of, name_of};

use plain_table::{LayerInfo, LayerName};

/// A layer. Its name ends at the first 0.
#[repr(C)]
#[derive(Clone, Copy)]
pub struct Layer {
    /// How many objects it has.
    pub count: u64,
    /// Its name, and zeros.
    pub name: [u8; 32],
    /// How many axes it has, 2 or 3.
    pub dims: u32,
    /// How many entries a node of it may have.
    pub fanout: u32,
}

/// A layer as C has it.
pub fn layer_row(info: &LayerInfo) -> Layer
    ensures { result ≡ layer_of info.now }
{
    Layer {
        count: info.count,
        name: name_of(&info.name),
        dims: u32::from(info.dims),
        fanout: u32::from(info.fanout),
    }
}

// A name, and zeros.
fn name_of(name: &LayerName) -> [u8; 32]
    ensures { result ≡ name_of name.now.items }
{
    let mut bytes = [0; 32];
    for k in 0..name.len() {
        bytes[k] = name[k];
    }
    bytes
}

/// Writes layers into an array, as many as it has room for, and says how many.
pub fn write_layers(layers: &[LayerInfo], out: &mut [Layer]) -> usize
    ensures count { result ≡ min (length layers.now) (length out.old) }
    ensures rows { out.new ≡ map layer_of (take result layers.now) ++ drop result out.old }
{
    let count = layers.len().min(out.len());
    for k in 0..count {
        out[k] = layer_row(&layers[k]);
    }
    count
}
