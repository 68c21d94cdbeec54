//! The join of two trees (Brinkhoff, Kriegel and Seeger 1993).

ghost use Rattle.std.specs.Prelude.{◌≡◌, ◌⊎◌, ◌+◌, ◌*◌, ◌≤◌, ℕ, IfOk, IfErr, OnOk};
ghost use Rattle.box_math.specs.Bounds.{IsDims};
ghost use Rattle.page_file.specs.Fault.{IsDamage, IsOfDevice};
ghost use Rattle.page_file.specs.declared.fault.Fault.TheVariants as fault;
ghost use Rattle.page_cache.specs.Cache.{IsHonest, given, looks_of, pages};
ghost use Rattle.page_cache.specs.Calls.{Asks};
ghost use Rattle.tree_node.specs.Joins.{admitted_pairs};
ghost use Rattle.tree_node.specs.Trees.{Tree};
ghost use Rattle.node_page.specs.Checked.{ComesTo};
ghost use Rattle.node_page.specs.Rooted.{IsTreeAt};
ghost use Rattle.spatial_join.specs.Pairs.{IsJoinAnswer};

use crate::opening::open_root;
use crate::pairs::add_pairs;
use crate::reach::Reach;
use block_device::BlockDevice;
use node_page::Root;
use page_cache::PageCache;
use page_file::Fault;
use std::alloc::Allocator;

/// All pairs of identifiers of an object of each tree whose boxes have at most this squared distance, by the
/// first and then by the second. Within 0 are boxes that meet, also where they only touch. The trees may be
/// one and the same, and their nodes may have different greatest counts of entries.
///
/// On an honest device, where both trees stand in the pages with the shape of an R-tree, a refusal is
/// `Memory` or `Device`, and at most two pages are looked at for the pair of roots, and for each other pair
/// of a node of each tree whose boxes are so near. On other pages a refusal may be `Damaged` too, with the
/// number of a page that a walk down the nodes comes to from one of the roots. Map and gate stay, also after
/// a refusal.
pub fn join<const D: usize, B: BlockDevice, A: Allocator + Copy, H: Allocator>(
    alloc: H,
    cache: &mut PageCache<B, A>,
    a: Root,
    b: Root,
    within: u64,
) -> Result<Vec<(u64, u64), H>, Fault>
    requires { IsDims D }
    ensures asks { Asks cache.old cache.new result }
    ensures pairs { IsHonest cache.old → (s t : Tree) (most other_most : ℕ)
        → IsTreeAt D most (pages cache.old) a s → IsTreeAt D other_most (pages cache.old) b t
        → IfOk result (λ pairs. IsJoinAnswer D within s t pairs.items) }
    ensures looks { IsHonest cache.old → (s t : Tree) (most other_most : ℕ)
        → IsTreeAt D most (pages cache.old) a s → IsTreeAt D other_most (pages cache.old) b t
        → OnOk result (looks_of cache.new ≤ looks_of cache.old + 2 * admitted_pairs D within s t) }
    ensures stands { IsHonest cache.old → (s t : Tree) (most other_most : ℕ)
        → IsTreeAt D most (pages cache.old) a s → IsTreeAt D other_most (pages cache.old) b t
        → IfErr result IsOfDevice }
    ensures damage { IsHonest cache.old → IfErr result (λ f. (n : ℕ) → f ≡ fault.Damaged n
        → ComesTo D (given cache.old) a.page n ⊎ ComesTo D (given cache.old) b.page n) }
    ensures other_faults { IfErr result (λ f. IsOfDevice f ⊎ IsDamage f) }
{
    let mut pairs = Vec::new(alloc);
    let left = open_root::<D, B, A>(cache, a, b.level)?;
    let right = open_root::<D, B, A>(cache, b, a.level)?;
    add_pairs::<D, B, A, H>(cache, &left, &right, Reach::of(within), &mut pairs)?;
    pairs.sort_unstable();
    Ok(pairs)
}
