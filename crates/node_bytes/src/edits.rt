//! A node page changed in place.

ghost use Rattle.std.specs.Prelude.{◌≡◌, ◌<◌, ◌≤◌, ◌↔◌, IsTrue, Some, length};
ghost use Rattle.block_bytes.specs.Numbers.{number_at};
ghost use Rattle.block_bytes.specs.Kinds.{node_kind};
ghost use Rattle.box_math.specs.Bounds.{IsDims};
ghost use Rattle.tree_node.specs.Nodes.{NodeContent, item_of};
ghost use Rattle.node_bytes.specs.Enlarged.{IsBoxed};
ghost use Rattle.node_bytes.specs.Layout.{IsOfLevel, IsPageOfNode, IsTidy, StaysNode, node_at, pushed};
ghost use Rattle.node_bytes.specs.Taken.{without_entry};

use crate::closing::close_entry;
use crate::entries::write_entry;
use crate::head::{count_at, is_tagged};
use crate::tags::add_tags;
use block_bytes::{read_u8, write_u16};
use box_bytes::write_box;
use box_math::{BBox, is_dims};
use tree_node::Entry;

/// Adds an entry to a node page whose count is below 100: it is written in the place after the last one, and
/// counted. A page of format 1 becomes one with tags. One with zeros in all bytes that it does not name stays
/// one.
pub(crate) fn push_entry<const D: usize>(page: &mut [u8; 4096], entry: &Entry<D>)
    requires dims { IsDims D }
    requires room { number_at 2 2 page.old < 100 }
    ensures pushed { (c : NodeContent) → node_at D page.old ≡ Some c →
        IsOfLevel c.level entry.now.reference entry.now.tag
        → node_at D page.new ≡ Some (pushed c (item_of entry.now)) }
    ensures kind { (c : NodeContent) → node_at D page.old ≡ Some c → number_at 1 0 page.new ≡ node_kind }
    ensures tidy { IsTidy D page.old → IsTidy D page.new }
{
    add_tags::<D>(page);
    let tagged = is_tagged(page);
    let count = count_at(page);
    write_entry(page, count, entry, tagged);
    write_u16(page, 2, count as u16 + 1);
}

/// Gives the entry in a place of a node page another box, where it has such an entry. A page of format 1
/// becomes one with tags. One with zeros in all bytes that it does not name stays one, and so does one that
/// spells a node.
pub fn write_box_at<const D: usize>(page: &mut [u8; 4096], place: usize, bounds: &BBox<D>)
    ensures { IsBoxed D place bounds.now page.old page.new }
{
    if is_dims(D) && place < 100 && place < count_at(page) {
        add_tags::<D>(page);
        write_box(page, 16 + 4 * place, 416 + 4 * place, 800, bounds);
    }
}

/// Adds an entry to a node page as `push_entry` does, where its count is below 100 and the entry is one of
/// the page's level. A page that spells a node spells one still.
pub fn push_where_room<const D: usize>(page: &mut [u8; 4096], entry: &Entry<D>)
    ensures pushed { (c : NodeContent) → node_at D page.old ≡ Some c → length c.entries < 100
        → IsOfLevel c.level entry.now.reference entry.now.tag
        → node_at D page.new ≡ Some (pushed c (item_of entry.now)) }
    ensures is_page { IsTidy D page.old → (c : NodeContent) → node_at D page.old ≡ Some c
        → length c.entries < 100 → IsOfLevel c.level entry.now.reference entry.now.tag
        → IsPageOfNode D page.new (pushed c (item_of entry.now)) }
    ensures stays { StaysNode D page.old page.new }
    ensures full { 100 ≤ number_at 2 2 page.old → page.new ≡ page.old }
{
    if is_dims(D) && count_at(page) < 100 && is_of_level(read_u8(page, 4), entry) {
        push_entry(page, entry);
    }
}

// Whether an entry may stand in a node of that level.
fn is_of_level<const D: usize>(level: u8, entry: &Entry<D>) -> bool
    ensures { IsTrue result ↔ IsOfLevel level entry.now.reference entry.now.tag }
{
    level == 0 || (entry.reference >= 3 && entry.reference < 1 << 31 && entry.tag == 0)
}

/// Takes the entry in a place out of a node page: those behind it move up by one place, the bytes of the last
/// one become zeros, and the count falls. A page of format 1 becomes one with tags. One with zeros in all
/// bytes that it does not name stays one. A node above the leaves has to keep an entry.
pub(crate) fn drop_entry<const D: usize>(page: &mut [u8; 4096], place: usize)
    requires dims { IsDims D }
    requires within { place < number_at 2 2 page.old }
    requires few { number_at 2 2 page.old ≤ 100 }
    ensures taken { (c : NodeContent) → node_at D page.old ≡ Some c → 1 < length c.entries
        → node_at D page.new ≡ Some (without_entry c place) }
    ensures kind { (c : NodeContent) → node_at D page.old ≡ Some c → number_at 1 0 page.new ≡ node_kind }
    ensures tidy { IsTidy D page.old → IsTidy D page.new }
{
    add_tags::<D>(page);
    let tagged = is_tagged(page);
    let count = count_at(page);
    close_entry::<D>(page, place, count, tagged);
    write_u16(page, 2, count as u16 - 1);
}

/// Takes the entry in a place out of a node page as `drop_entry` does, where it has such an entry and another
/// one. A page that spells a node spells one still.
pub fn drop_where_there<const D: usize>(page: &mut [u8; 4096], place: usize)
    ensures taken { (c : NodeContent) → node_at D page.old ≡ Some c → place < length c.entries
        → 1 < length c.entries → node_at D page.new ≡ Some (without_entry c place) }
    ensures is_page { IsTidy D page.old → (c : NodeContent) → node_at D page.old ≡ Some c
        → place < length c.entries → 1 < length c.entries → IsPageOfNode D page.new (without_entry c place) }
    ensures stays { StaysNode D page.old page.new }
    ensures absent { number_at 2 2 page.old ≤ place → page.new ≡ page.old }
    ensures only { number_at 2 2 page.old ≡ 1 → page.new ≡ page.old }
{
    let count = count_at(page);
    if !is_dims(D) || place >= count || count == 1 {
        return;
    }
    if count <= 100 {
        drop_entry::<D>(page, place);
    }
}
