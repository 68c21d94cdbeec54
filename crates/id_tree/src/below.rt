//! The child of a fork where an identifier is.

ghost use Rattle.std.specs.Prelude.{◌≡◌, ◌<◌, ◌≤◌, ◌+◌, ◌⊎◌, ◌&&◌, ◌==◌, Bool, true, false, length, IfErr};
ghost use Rattle.std.specs.Prelude.{IfOk, OnOk, ℕ};
ghost use Rattle.page_file.specs.Fault.{IsDamage, IsOfDevice};
ghost use Rattle.page_file.specs.declared.fault.Fault.TheVariants as fault;
ghost use Rattle.page_cache.specs.Cache.{IsHonest, pages, given};
ghost use Rattle.page_cache.specs.Calls.{Asks};
ghost use Rattle.id_tree.specs.Rows.{HasRoom, IsFull, NodeStands};
ghost use Rattle.id_tree.specs.Steps.{IsBeneath};
ghost use Rattle.id_tree.specs.Tree.{HasNode, Row, links_of};
ghost use Rattle.id_tree.specs.Checked.{ComesInTree, NamesChild, SpellsFork};

use crate::looks::{count_in, step};
use block_device::BlockDevice;
use id_page::{MOST_CHILDREN, objects_that_fit};
use page_cache::PageCache;
use page_file::Fault;
use std::alloc::Allocator;

/// The child of a fork where an identifier is: its page and its place, whether it is at the edge of the tree,
/// and whether it has room.
#[derive(Clone, Copy, Drop)]
pub(crate) struct Below {
    pub(crate) child: u32,
    pub(crate) place: usize,
    pub(crate) last: bool,
    pub(crate) room: bool,
}

// Looks for the child of the fork of that level at a page where an identifier is. A page that is none, and
// one of no children, is `Damaged`.
#[tactic(auto, using(page_cache::specs::Calls::turns))]
pub(crate) fn look_below<const D: usize, B: BlockDevice, A: Allocator + Copy>(
    cache: &mut PageCache<B, A>,
    page: u32,
    level: u8,
    edge: bool,
    id: u64,
) -> Result<Below, Fault>
    requires high { 0 < level }
    ensures asks { Asks cache.old cache.new result }
    ensures found { IsHonest cache.old → (row : Row) → NodeStands D (pages cache.old) page level edge row
        → IfOk result (λ below. IsBeneath D level edge row id below.child below.place below.last below.room) }
    ensures there { IsHonest cache.old → (row : Row) → NodeStands D (pages cache.old) page level edge row
        → 0 < length (links_of row) → IfErr result IsOfDevice }
    ensures names { IsHonest cache.old → IfOk result
        (λ below. NamesChild D (given cache.old) page below.child) }
    ensures fork { IsHonest cache.old
        → OnOk result ((count : ℕ) × SpellsFork D (given cache.old) page level count) }
    ensures damage { IsHonest cache.old → IfErr result (λ f. (n : ℕ) → f ≡ fault.Damaged n
        → ComesInTree D (given cache.old) page n) }
    ensures other_faults { IfErr result (λ f. IsOfDevice f ⊎ IsDamage f) }
{
    let way = step::<D, B, A>(cache, page, id)?;
    if way.level != level {
        return Err(Fault::Damaged(page));
    }
    let Some(child) = way.child else {
        return Err(Fault::Damaged(page));
    };
    let room = has_room::<D, B, A>(cache, child, level - 1)?;
    Ok(Below {
        child,
        place: way.place,
        last: is_last(edge, way.place, way.count),
        room,
    })
}

// Whether the child in a place, of so many, is at the edge of the tree.
pub(crate) fn is_last(edge: bool, place: usize, count: usize) -> bool
    requires within { place ≤ count }
    requires few { count ≤ 340 }
    ensures { result ≡ (edge && (place + 1 == count)) }
{
    edge && place + 1 == count
}

// Whether the node of that level at a page has room for an object or a child more, in one look.
pub(crate) fn has_room<const D: usize, B: BlockDevice, A: Allocator + Copy>(
    cache: &mut PageCache<B, A>,
    number: u32,
    level: u8,
) -> Result<bool, Fault>
    ensures asks { Asks cache.old cache.new result }
    ensures room { IsHonest cache.old → (row : Row) → HasNode D (pages cache.old) number level row
        → IfOk result (λ room. room ≡ true → HasRoom D level row) }
    ensures full { IsHonest cache.old → (row : Row) → HasNode D (pages cache.old) number level row
        → IfOk result (λ room. room ≡ false → IsFull D level row) }
    ensures there { IsHonest cache.old → (row : Row) → HasNode D (pages cache.old) number level row
        → IfErr result IsOfDevice }
    ensures damage { IsHonest cache.old → IfErr result (λ f. IsOfDevice f ⊎ (f ≡ fault.Damaged number)) }
    ensures other_faults { IfErr result (λ f. IsOfDevice f ⊎ IsDamage f) }
{
    let count = count_in(cache, number)?;
    if level == 0 {
        return Ok(count < objects_that_fit::<D>());
    }
    Ok(count < MOST_CHILDREN)
}
