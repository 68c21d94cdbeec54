//! Node pages of format 1, which have no tags, made pages with tags.

ghost use Rattle.std.specs.Prelude.{◌≡◌, ◌≢◌, ℕ, ◌+◌, ◌*◌, ◌<◌, ◌≤◌, Some};
ghost use Rattle.block_bytes.specs.Kinds.{node_kind, untagged_node_kind};
ghost use Rattle.block_bytes.specs.Numbers.{number_at};
ghost use Rattle.box_math.specs.Bounds.{IsDims};
ghost use Rattle.tree_node.specs.Nodes.{NodeContent};
ghost use Rattle.node_bytes.specs.Layout.{IsTidy, node_at, tag_place};

use block_bytes::{NODE_KIND, UNTAGGED_NODE_KIND, read_u8, write_u8, write_u32};

/// Makes a node page of format 1 one with tags, all of them 0, which spells the same node; another stays as
/// it is. A page with zeros in all bytes that it does not name stays one.
#[inline]
pub(crate) fn add_tags<const D: usize>(page: &mut [u8; 4096])
    requires { IsDims D }
    ensures same { (c : NodeContent) → node_at D page.old ≡ Some c → node_at D page.new ≡ Some c }
    ensures kind { (c : NodeContent) → node_at D page.old ≡ Some c → number_at 1 0 page.new ≡ node_kind }
    ensures count { number_at 2 2 page.new ≡ number_at 2 2 page.old }
    ensures tidy { IsTidy D page.old → IsTidy D page.new }
    ensures another { number_at 1 0 page.old ≢ untagged_node_kind → page.new ≡ page.old }
{
    if read_u8(page, 0) == UNTAGGED_NODE_KIND {
        clear_tags::<D>(page);
        write_u8(page, 0, NODE_KIND);
    }
}

// Makes the tag in each place 0.
fn clear_tags<const D: usize>(page: &mut [u8; 4096])
    requires { IsDims D }
    ensures cleared { (place : ℕ) → place < 100 → number_at 4 (tag_place D place) page.new ≡ 0 }
    ensures others { (n at : ℕ) → at + n ≤ 816 + 800 * D → number_at n at page.new ≡ number_at n at page.old }
    ensures zeros { (k : ℕ) → number_at 1 k page.old ≡ 0 → number_at 1 k page.new ≡ 0 }
{
    for place in 0..100 {
        write_u32(page, 816 + 800 * D + 4 * place, 0);
    }
}
