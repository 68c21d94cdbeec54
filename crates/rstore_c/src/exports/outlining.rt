//! The calls that ask for the pages of layers, which no command does.
ghost use Rattle.std.specs.Prelude.{◌≡◌};
ghost use Rattle.c_session.specs.Outlining.{CountsIdPagesBy, FetchesNodes, OutlinesBy, nodes_of};

use crate::handle::Handle;
use c_rows::NodeRow;

/// The nodes of the tree of a layer, the root first, which the session keeps. How many there are is told.
#[unsafe(no_mangle)]
pub extern "C" fn rstore_c_outline(handle: &mut Handle, layer: &[u8], count: &mut usize) -> u32
    ensures asks { OutlinesBy handle.old.value.session handle.new.value.session layer.now result }
    ensures count { count.new ≡ nodes_of handle.new.value.session.outline }
{
    let session = &mut handle.held().session;
    let number = session.outline(layer);
    *count = session.outline_len();
    number
}

/// Writes the nodes of the last outline, as `rstore_c_rows` does.
#[unsafe(no_mangle)]
pub extern "C" fn rstore_c_nodes(handle: &mut Handle, from: usize, out: &mut [NodeRow]) -> usize
    ensures nodes { FetchesNodes handle.old.value.session.outline from out.old out.new result }
    ensures same { handle.new.value ≡ handle.old.value }
{
    handle.held().session.fetch_nodes(from, out)
}

/// How many pages the identifier table of a layer has.
#[unsafe(no_mangle)]
pub extern "C" fn rstore_c_id_pages(handle: &mut Handle, layer: &[u8], pages: &mut u64) -> u32
    ensures { CountsIdPagesBy handle.old.value.session handle.new.value.session layer.now pages.old pages.new
        result }
{
    handle.held().session.id_pages(layer, pages)
}
