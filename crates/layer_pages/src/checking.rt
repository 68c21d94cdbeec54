//! Layers checked: whether one stands.

ghost use Rattle.std.specs.Prelude.{◌≡◌, ◌⊎◌, ◌+◌, ◌*◌, ◌≤◌, ◌↔◌, ℕ, true, All, IfErr, IfOk, IsPermutation};
ghost use Rattle.std.specs.Prelude.{IsTrue};
ghost use Rattle.std.specs.FinMap as map;
ghost use Rattle.box_math.specs.Bounds.{IsBox, IsDims};
ghost use Rattle.box_math.specs.Objects.{bounds_of};
ghost use Rattle.page_file.specs.Fault.{IsDamage, IsOfDevice};
ghost use Rattle.page_file.specs.declared.fault.Fault.TheVariants as fault;
ghost use Rattle.page_cache.specs.Cache.{IsHonest, IsPageMap, given, looks_of, next_of, pages};
ghost use Rattle.page_cache.specs.Calls.{Asks};
ghost use Rattle.layer_pages.specs.Checked.{AreOfOneLayer, ComesInLayer, IsCheckedLayer, odd_page};
ghost use Rattle.layer_pages.specs.Layers.{IsLayerAt, LayerPages, Objects};

use block_device::BlockDevice;
use box_math::BBox;
use id_table::{TableFacts, check_table};
use node_page::{Root, TreeFacts, check_tree};
use page_cache::PageCache;
use page_file::Fault;
use std::alloc::Allocator;

// The page that says how many objects each layer has.
const CATALOG: u32 = 2;

/// Checks the layer of `count` objects with its root and its identifier table at these pages, whose tree has
/// nodes of at most `fanout` entries, and answers its pages.
///
/// On an honest device it answers so only where such a layer stands there; else, unless memory or the device
/// refused before, it is `Damaged` with the number of a page that a walk through the layer comes to: that of
/// the catalog where there is another count of objects, and that of the identifier table where it has others
/// than the tree. Where such a layer stands, a refusal is `Memory` or `Device`. It makes no more than two
/// looks for each number below the next one, and one more, whatever the pages are. Map and gate stay, also
/// after a refusal.
pub fn check<'a, const D: usize, B: BlockDevice, A: Allocator + Copy, H: Allocator>(
    alloc: &'a H,
    cache: &mut PageCache<B, A>,
    root: Root,
    ids_root: u32,
    fanout: u8,
    count: u64,
) -> Result<Vec<u32, &'a H>, Fault>
    requires { IsDims D }
    ensures asks { Asks cache.old cache.new result }
    ensures layer { IsPageMap cache.old → IfOk result (λ list.
        IsCheckedLayer D fanout (pages cache.old) root ids_root count list.items) }
    ensures given_layer { IsHonest cache.old → IfOk result (λ list.
        IsCheckedLayer D fanout (given cache.old) root ids_root count list.items) }
    ensures stands { IsHonest cache.old → (l : LayerPages) (objects : Objects)
        → IsLayerAt D fanout (pages cache.old) root ids_root l objects → map.len objects ≡ count
        → IfErr result IsOfDevice }
    ensures looks { looks_of cache.new ≤ looks_of cache.old + 2 * next_of cache.old + 1 }
    ensures damage { IsHonest cache.old → IfErr result (λ f. (n : ℕ) → f ≡ fault.Damaged n →
        ComesInLayer D (given cache.old) root ids_root n) }
    ensures other_faults { IfErr result (λ f. IsOfDevice f ⊎ IsDamage f) }
{
    let tree = check_tree::<D, B, A, &H>(alloc, cache, root, fanout)?;
    let table = check_table::<D, B, A, &H>(alloc, cache, ids_root)?;
    pages_of_both(ids_root, count, tree, table)
}

// The pages of a tree and a table, where both have the same objects, so many. No page is in both, since those
// of a tree are of another kind.
fn pages_of_both<'a, const D: usize, H: Allocator>(
    ids_root: u32,
    count: u64,
    tree: TreeFacts<D, &'a H>,
    table: TableFacts<D, &'a H>,
) -> Result<Vec<u32, &'a H>, Fault>
    requires { IsDims D }
    ensures joined { IfOk result (λ list. AreOfOneLayer D count tree.entry.pairs.items table.entry.pairs.items
        tree.entry.pages.items table.entry.pages.items list.items) }
    ensures stands { (objects : Objects) → map.len objects ≡ count
        → IsPermutation tree.entry.pairs.items (map.entries objects)
        → IsPermutation table.entry.pairs.items (map.entries objects) → IfErr result (λ f. f ≡ fault.Memory) }
    ensures damage { IfErr result (λ f. (f ≡ fault.Memory)
        ⊎ (f ≡ fault.Damaged (odd_page ids_root count tree.entry.pairs.items))) }
    ensures faults { IfErr result (λ f. (f ≡ fault.Memory) ⊎ IsDamage f) }
{
    let mut held = tree.pairs;
    let mut listed = table.pairs;
    if held.len() as u64 != count {
        return Err(Fault::Damaged(CATALOG));
    }
    if !have_same(held.as_mut_slice(), listed.as_mut_slice()) {
        return Err(Fault::Damaged(ids_root));
    }
    let mut pages = tree.pages;
    pages.extend_from_slice(table.pages.as_slice())?;
    Ok(pages)
}

// Whether both lists have the same objects. They are left in the order of identifiers.
fn have_same<const D: usize>(
    held: &mut [(u64, (BBox<D>, u32))],
    listed: &mut [(u64, (BBox<D>, u32))],
) -> bool
    ensures same { result ≡ true → IsPermutation held.old listed.old }
    ensures boxes { result ≡ true → All (λ object. IsBox D (bounds_of object.1)) held.old }
    ensures found { (objects : Objects) → IsPermutation held.old (map.entries objects)
        → IsPermutation listed.old (map.entries objects) → result ≡ true }
{
    held.sort_unstable_by_key(
        |object| -> u64
            ensures { result ≡ object.entry.now.0 }
        { object.0 },
    );
    listed.sort_unstable_by_key(
        |object| -> u64
            ensures { result ≡ object.entry.now.0 }
        { object.0 },
    );
    are_equal(held, listed)
}

// Whether both lists are the same.
fn are_equal<const D: usize>(
    held: &[(u64, (BBox<D>, u32))],
    listed: &[(u64, (BBox<D>, u32))],
) -> bool
    ensures equal { IsTrue result ↔ (held.now ≡ listed.now) }
    ensures boxes { result ≡ true → All (λ object. IsBox D (bounds_of object.1)) held.now }
{
    if held.len() != listed.len() {
        return false;
    }
    for place in 0..held.len() {
        if !is_same(&held[place], &listed[place]) {
            return false;
        }
    }
    true
}

// Whether both objects are the same.
fn is_same<const D: usize>(object: &(u64, (BBox<D>, u32)), other: &(u64, (BBox<D>, u32))) -> bool
    ensures equal { IsTrue result ↔ (object.now ≡ other.now) }
    ensures is_box { IsBox D (bounds_of object.now.1) }
{
    // a box that was looked at is known to be one
    let _ = (object.1).0.low();
    object.0 == other.0 && is_same_kept(&object.1, &other.1)
}

// Whether the same is kept of two objects.
fn is_same_kept<const D: usize>(kept: &(BBox<D>, u32), other: &(BBox<D>, u32)) -> bool
    ensures { IsTrue result ↔ (kept.now ≡ other.now) }
{
    kept.1 == other.1 && kept.0 == other.0
}
