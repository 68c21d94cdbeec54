//! A node read in the page that spells it, without decoding the page.

ghost use Rattle.std.specs.Prelude.{◌≡◌, ◌≢◌, ℕ, ◌<◌, ◌≤◌, ◌<ℤ◌, ◌↔◌, Some, IfSome, IfNone, IsTrue, true};
ghost use Rattle.std.specs.Prelude.{false};
ghost use Rattle.std.specs.Prelude.{All, length, map, slice_get, slice_index_or};
ghost use Rattle.box_math.specs.Bounds.{IsDims, IsBox, meets_test, on_axis};
ghost use Rattle.box_math.specs.Masks.{has_bit};
ghost use Rattle.node_bytes.specs.Columns.{AreColumns};
ghost use Rattle.tree_node.specs.Boxes.{least_box};
ghost use Rattle.tree_node.specs.Nodes.{Item, NodeContent, content_of, item_of};
ghost use Rattle.node_bytes.specs.Enlarged.{with_box_at};
ghost use Rattle.node_bytes.specs.Layout.{has_tags, node_at, node_test, IsLaidOut, IsSpellable};
ghost use Rattle.node_bytes.specs.Taken.{without_entry};

use crate::columns::{has_entries, least_in, none_is_flat, read_columns};
use crate::entries::entry_at;
use crate::head::{count_at, has_node_head, is_tagged};
use crate::masks::mask_in;
use block_bytes::read_u8;
use box_math::BBox;
use tree_node::{Entry, Node};

/// Whether the page spells a node of that dimension, of whatever level.
pub fn spells_node<const D: usize>(page: &[u8; 4096]) -> bool
    ensures { result ≡ node_test D page.now }
{
    let level = read_u8(page, 4);
    has_node_head::<D>(page, level) && has_entries::<D>(page, level, count_at(page))
}

/// A node that lies in a page: its level and its entries.
#[derive(Drop)]
pub struct NodeView<'a, const D: usize> {
    page: &'a [u8; 4096],
    level: u8,
    count: usize,
    tagged: bool,
    pub ghost dims: { IsDims D },
    ghost laid_out: { IsLaidOut D level count page.now },
    ghost tags: { tagged ≡ has_tags page.now },
}

impl<'a, const D: usize> NodeView<'a, D> {
    ghost use Rattle.node_bytes.specs.Views.{content_in};

    /// The node that the page spells, of which it is known that it spells one of that dimension, or `None`
    /// where its level is another one. Its entries are not looked at.
    pub fn of_known(page: &'a [u8; 4096], level: u8) -> Option<NodeView<'a, D>>
        requires { node_test D page.now ≡ true }
        ensures spelled { IfSome result (λ view. node_at D page.now ≡ Some (content_in view)) }
        ensures level { IfSome result (λ view. (content_in view).level ≡ level) }
        ensures spellable { IfSome result (λ view. IsSpellable (content_in view)) }
        ensures boxes { IfSome result (λ view. All (λ item. IsBox D item.bounds) (content_in view).entries) }
        ensures none { IfNone result ((c : NodeContent) → node_at D page.now ≡ Some c → c.level ≢ level) }
    {
        if read_u8(page, 4) != level {
            return None;
        }
        Some(NodeView {
            page,
            level,
            count: count_at(page),
            tagged: is_tagged(page),
        })
    }

    /// The node that the page spells, or `None` where it spells none of that dimension and level, as `decode`
    /// tells.
    pub fn of(page: &'a [u8; 4096], level: u8) -> Option<NodeView<'a, D>>
        ensures spelled { IfSome result (λ view. node_at D page.now ≡ Some (content_in view)) }
        ensures level { IfSome result (λ view. (content_in view).level ≡ level) }
        ensures spellable { IfSome result (λ view. IsSpellable (content_in view)) }
        ensures boxes { IfSome result (λ view. All (λ item. IsBox D item.bounds) (content_in view).entries) }
        ensures none { IfNone result ((c : NodeContent) → node_at D page.now ≡ Some c → c.level ≢ level) }
    {
        if !has_node_head::<D>(page, level) {
            return None;
        }
        let count = count_at(page);
        if !has_entries::<D>(page, level, count) {
            return None;
        }
        let tagged = is_tagged(page);
        Some(NodeView {
            page,
            level,
            count,
            tagged,
        })
    }

    /// The level of the node, 0 for a leaf.
    pub fn level(&self) -> u8
        ensures { result ≡ (content_in self.now).level }
    {
        self.level
    }

    /// How many entries the node has, at most 100.
    pub fn len(&self) -> usize
        ensures count { result ≡ length (content_in self.now).entries }
        ensures few { result ≤ 100 }
    {
        self.count
    }

    /// The entry in the place.
    pub fn entry(&self, place: usize) -> Entry<D>
        requires { place < length (content_in self.now).entries }
        ensures { item_of result ≡ slice_index_or (content_in self.now).entries place (item_of result) }
    {
        entry_at(self.page, place, self.tagged)
    }

    /// Which of the entries meet the window, also where they only touch: bit k of the mask is set exactly
    /// where the box of the entry in place k meets it.
    pub fn mask(&self, window: &BBox<D>) -> u128
        ensures met { (place : ℕ) (item : Item) → slice_get (content_in self.now).entries place ≡ Some item
            → has_bit result place ≡ meets_test D item.bounds window.now }
        ensures none { (place : ℕ) → length (content_in self.now).entries ≤ place →
            has_bit result place ≡ false }
    {
        mask_in(self.page, self.count, window)
    }

    /// The lows and the highs of the entries, a column for each axis, with zeros after them.
    pub fn columns(&self) -> ([[i32; 100]; D], [[i32; 100]; D])
        ensures lows { AreColumns D (map (λ item. item.bounds.low) (content_in self.now).entries) result.0 }
        ensures highs { AreColumns D (map (λ item. item.bounds.high) (content_in self.now).entries) result.1 }
    {
        let lows = read_columns(self.page, 16, self.count);
        let highs = read_columns(self.page, 416, self.count);
        (lows, highs)
    }

    /// Whether no entry's box is flat: on each axis its low is below its high.
    pub fn none_is_flat(&self) -> bool
        ensures { IsTrue result ↔ ((axis place : ℕ) (item : Item) → axis < D
            → slice_get (content_in self.now).entries place ≡ Some item
            → on_axis item.bounds.low axis <ℤ on_axis item.bounds.high axis) }
    {
        none_is_flat::<D>(self.page, self.count)
    }

    /// The least box round the entries, of which there is one.
    pub fn least(&self) -> BBox<D>
        requires { 0 < length (content_in self.now).entries }
        ensures { result ≡ least_box D (content_in self.now).entries }
    {
        least_in(self.page, 0, self.count)
    }

    /// The least box round the entries but the one in a place, of which there is another.
    pub fn least_beside(&self, place: usize) -> BBox<D>
        requires within { place < length (content_in self.now).entries }
        requires others { 1 < length (content_in self.now).entries }
        ensures { result ≡ least_box D (without_entry (content_in self.now) place).entries }
    {
        let behind = self.count - place - 1;
        if place == 0 {
            return least_in(self.page, 1, behind);
        }
        let before = least_in(self.page, 0, place);
        if behind == 0 {
            return before;
        }
        before.join(&least_in(self.page, place + 1, behind))
    }

    /// The least box round the entries where the one in a place has that box.
    pub fn least_boxed(&self, place: usize, bounds: &BBox<D>) -> BBox<D>
        requires { place < length (content_in self.now).entries }
        ensures { result ≡ least_box D (with_box_at (content_in self.now) place bounds.now).entries }
    {
        if self.count == 1 {
            return *bounds;
        }
        self.least_beside(place).join(bounds)
    }

    /// Makes the node the one in the page. Nothing is copied but the entries.
    pub fn decode_into(&self, node: &mut Node<D>)
        ensures { content_of node.new ≡ content_in self.now }
    {
        node.level = self.level;
        node.entries.clear();
        for place in 0..self.len() {
            node.entries.push(self.entry(place));
        }
    }
}
