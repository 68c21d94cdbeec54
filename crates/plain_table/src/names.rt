//! What a layer may be called, and what it may be made of.

ghost use Rattle.std.specs.Prelude.{◌≡◌};
ghost use Rattle.std.specs.List.{list_all};
ghost use Rattle.plain_table.specs.Table.{is_layer_name, is_name_byte, is_letter, is_dims, is_fanout};

use crate::limits::MOST_NAME_BYTES;

/// Whether this is 1 to 24 letters `a-z`, digits and underscores, the first a letter.
pub fn is_layer_name(name: &[u8]) -> bool
    ensures { result ≡ is_layer_name name.now }
{
    if name.is_empty() || name.len() > MOST_NAME_BYTES {
        return false;
    }
    is_letter(name[0]) && has_name_bytes(name)
}

// Whether all these are bytes of a name.
fn has_name_bytes(name: &[u8]) -> bool
    ensures { result ≡ list_all is_name_byte name.now }
{
    name.iter().all(|byte| is_name_byte(*byte))
}

// Whether this is one of `a` to `z`.
fn is_letter(byte: u8) -> bool
    ensures { result ≡ is_letter byte }
{
    matches!(byte, b'a'..=b'z')
}

// Whether this is a letter, a digit or an underscore.
fn is_name_byte(byte: u8) -> bool
    ensures { result ≡ is_name_byte byte }
{
    matches!(byte, b'a'..=b'z' | b'0'..=b'9' | b'_')
}

/// Whether a layer may have so many axes: 2 or 3.
pub fn is_dims(dims: u64) -> bool
    ensures { result ≡ is_dims dims }
{
    dims == 2 || dims == 3
}

/// Whether this is a fanout: a node may have 4 to 100 entries at most.
pub fn is_fanout(fanout: u64) -> bool
    ensures { result ≡ is_fanout fanout }
{
    fanout >= 4 && fanout <= 100
}
