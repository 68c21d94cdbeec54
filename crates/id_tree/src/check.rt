//! Identifier trees checked: whether one stands.

ghost use Rattle.std.specs.Prelude.{◌≡◌, ◌≤◌, ◌<◌, ◌+◌, ◌++◌, ◌∷◌, ◌⊎◌, [], List, ℕ, All, Some, None, true};
ghost use Rattle.std.specs.Prelude.{false};
ghost use Rattle.std.specs.Prelude.{IfErr, IfOk, IfSome, OnErr, OnOk, IsTrue, length, slice_index_or};
ghost use Rattle.block_bytes.specs.Numbers.{number_at};
ghost use Rattle.box_math.specs.Bounds.{IsDims};
ghost use Rattle.bucket_page.specs.Layout.{Entry};
ghost use Rattle.page_file.specs.Fault.{IsDamage, IsOfDevice};
ghost use Rattle.page_file.specs.declared.fault.Fault.TheVariants as fault;
ghost use Rattle.page_cache.specs.Cache.{IsHonest, IsPageMap, given, looks_of, next_of, pages};
ghost use Rattle.page_cache.specs.Calls.{Asks};
ghost use Rattle.node_page.specs.Checked.{named_pages};
ghost use Rattle.id_page.specs.Fork.{ForkContent, Link, fork_at};
ghost use Rattle.id_page.specs.Leaf.{leaf_at, most_objects};
ghost use Rattle.id_words.specs.Seen.{SeesOne, seen_times};
ghost use Rattle.id_words.specs.Objects.{times_in};
ghost use Rattle.id_tree.specs.Checked.{AddsNode, AddsObjects, ComesInTree, FindsFork, FindsLeaf, FindsRoot};
ghost use Rattle.id_tree.specs.Checked.{IsCheckedTable, IsRange, MayAdd, MayBeLeaf, most_identifier};
ghost use Rattle.id_tree.specs.Tree.{IdTree, Row, TreeStands, least_children, least_objects};

use crate::adding::MOST_LEVELS;
use crate::below::is_last;
use block_device::BlockDevice;
use box_math::BBox;
use id_page::{count_at, has_fork_head, is_leaf, key_at, level_at, object_at, page_at};
use node_page::Visits;
use page_cache::PageCache;
use page_file::Fault;
use std::alloc::Allocator;
use std::collections::BTreeSet;

/// How many children a fork has at least, but at the edge of its tree.
const LEAST_CHILDREN: usize = 85;

/// What a table holds.
#[derive(Drop)]
pub struct TableFacts<const D: usize, H: Allocator> {
    /// The identifier of each object, and then its box and its tag, leaf after leaf.
    pub pairs: Vec<(u64, (BBox<D>, u32)), H>,
    /// The pages of its nodes.
    pub pages: Vec<u32, H>,
}

// What the node in a page is to be by the fork above it: its level, whether it is at the edge of its tree,
// where it may have few, and the least and the greatest identifier that it may have.
#[derive(Clone, Copy, Drop)]
struct Expected {
    page: u32,
    level: u8,
    edge: bool,
    low: u64,
    top: u64,
}

/// Checks the table with its root at a page, and answers what it holds.
///
/// On an honest device it answers so only where a table stands there, and a refusal is then `Memory` or
/// `Device`. Elsewhere it may be `Damaged` too, with the number of a page that a walk down the forks comes
/// to. It makes no more looks than the file's next number, whatever the pages are. Map and gate stay, also
/// after a refusal.
pub fn check_table<const D: usize, B: BlockDevice, A: Allocator + Copy, H: Allocator + Copy>(
    alloc: H,
    cache: &mut PageCache<B, A>,
    root: u32,
) -> Result<TableFacts<D, H>, Fault>
    requires { IsDims D }
    ensures asks { Asks cache.old cache.new result }
    ensures table { IsPageMap cache.old → IfOk result (λ facts. IsCheckedTable D (pages cache.old) root
        facts.pairs.items facts.pages.items) }
    ensures given_table { IsHonest cache.old → IfOk result (λ facts. IsCheckedTable D (given cache.old) root
        facts.pairs.items facts.pages.items) }
    ensures stands { IsHonest cache.old → (t : IdTree) → t.page ≡ root → TreeStands D (pages cache.old) t
        → IfErr result IsOfDevice }
    ensures looks { looks_of cache.new ≤ looks_of cache.old + next_of cache.old }
    ensures damage { IsHonest cache.old
        → IfErr result (λ f. (n : ℕ) → f ≡ fault.Damaged n → ComesInTree D (given cache.old) root n) }
    ensures other_faults { IfErr result (λ f. IsOfDevice f ⊎ IsDamage f) }
{
    let mut visits = Visits::new(alloc, cache.next_number())?;
    let mut pairs = Vec::new(alloc);
    let mut seen = BTreeSet::new(alloc);
    come_to(root, &mut visits)?;
    let bytes = copy_given(cache, root)?;
    if !is_root::<D>(&bytes) {
        return Err(Fault::Damaged(root));
    }
    let count = count_at(&bytes);
    if count == 0 {
        let pages = visits.into_pages();
        return Ok(TableFacts { pairs, pages });
    }
    let node = Expected {
        page: root,
        level: level_at(&bytes),
        edge: true,
        low: 0,
        top: u64::MAX,
    };
    add_below::<D, B, A, H>(cache, node, &bytes, &mut visits, &mut seen, &mut pairs)?;
    let pages = visits.into_pages();
    Ok(TableFacts { pairs, pages })
}

// Visits a page that a table may have.
fn come_to<H: Allocator + Copy>(page: u32, visits: &mut Visits<H>) -> Result<(), Fault>
    ensures added { OnOk result (visits.new.pages.items ≡ visits.old.pages.items ++ page ∷ []) }
    ensures low { OnOk result (2 < page) }
    ensures marks { length visits.new.marks.items ≡ length visits.old.marks.items }
    ensures unchanged { OnErr result (visits.new.pages.items ≡ visits.old.pages.items) }
    ensures first { 2 < page → named_pages visits.old.pages.items page ≡ 0 →
        page < length visits.old.marks.items
        → IfErr result (λ f. f ≡ fault.Memory) }
    ensures faults { IfErr result (λ f. (f ≡ fault.Memory) ⊎ (f ≡ fault.Damaged page)) }
{
    if page < 3 {
        return Err(Fault::Damaged(page));
    }
    visits.visit(page)
}

// The bytes of a page that was given out, in one look.
#[tactic(auto, using(page_cache::specs::Calls::ends_so))]
fn copy_given<B: BlockDevice, A: Allocator + Copy>(
    cache: &mut PageCache<B, A>,
    number: u32,
) -> Result<[u8; 4096], Fault>
    ensures asks { Asks cache.old cache.new result }
    ensures bytes { IsHonest cache.old → IfOk result (λ bytes. given cache.old number ≡ Some bytes) }
    ensures there { IsHonest cache.old → 2 ≤ number → number < next_of cache.old →
        IfErr result IsOfDevice }
    ensures looks { looks_of cache.new ≤ looks_of cache.old + 1 }
    ensures damage { IsHonest cache.old → IfErr result (λ f. IsOfDevice f ⊎ (f ≡ fault.Damaged number)) }
    ensures other_faults { IfErr result (λ f. IsOfDevice f ⊎ IsDamage f) }
{
    Ok(*cache.page(number)?)
}

// Whether a page is the root of a table: a fork of level 1 to 6, with two children where it is above others.
fn is_root<const D: usize>(page: &[u8; 4096]) -> bool
    ensures root { IsTrue result → FindsRoot D (number_at 1 4 page.now) (number_at 2 2 page.now) page.now }
    ensures accepts { (c : ForkContent) → fork_at D page.now ≡ Some c → c.level ≤ 6
        → (1 < c.level → 2 ≤ length c.links) → IsTrue result }
{
    if !has_fork_head::<D>(page) {
        return false;
    }
    let level = level_at(page);
    if level > MOST_LEVELS {
        return false;
    }
    if level == 1 {
        return true;
    }
    let count = count_at(page);
    if count < 2 {
        return false;
    }
    true
}

// Checks the node in a page with these bytes, which was visited, and all below it, and appends its objects
// and the pages below it.
fn add_below<const D: usize, B: BlockDevice, A: Allocator + Copy, H: Allocator + Copy>(
    cache: &mut PageCache<B, A>,
    node: Expected,
    bytes: &[u8; 4096],
    visits: &mut Visits<H>,
    seen: &mut BTreeSet<u64, H>,
    pairs: &mut Vec<(u64, (BBox<D>, u32)), H>,
) -> Result<(), Fault>
    requires dims { IsDims D }
    requires low_page { 2 < node.page }
    requires numbers { length visits.old.marks.items ≡ next_of cache.old }
    ensures asks { Asks cache.old cache.new result }
    ensures found { IsHonest cache.old → given cache.old node.page ≡ Some bytes.now
        → OnOk result (AddsNode D (given cache.old) node.page node.level node.edge node.low node.top
        pairs.old.items pairs.new.items visits.old.pages.items visits.new.pages.items seen.old seen.new) }
    ensures stands { IsHonest cache.old → given cache.old node.page ≡ Some bytes.now → (row : Row)
        → MayAdd D (given cache.old) node.page node.level node.edge node.low node.top row
        visits.old.pages.items seen.old → IfErr result IsOfDevice }
    ensures numbers { length visits.new.marks.items ≡ length visits.old.marks.items }
    ensures looks { looks_of cache.new + length visits.old.pages.items
        ≤ looks_of cache.old + length visits.new.pages.items }
    ensures damage { IsHonest cache.old → given cache.old node.page ≡ Some bytes.now
        → IfErr result (λ f. (n : ℕ) → f ≡ fault.Damaged n → ComesInTree D (given cache.old) node.page n) }
    ensures other_faults { IfErr result (λ f. IsOfDevice f ⊎ IsDamage f) }
{
    if node.level == 0 {
        return add_leaf::<D, H>(bytes, node, seen, pairs);
    }
    if !is_fork_of::<D>(bytes, node.level, node.edge) {
        return Err(Fault::Damaged(node.page));
    }
    let count = count_at(bytes);
    for place in 0..count {
        let Some(range) = range_of(bytes, place, count, node.low, node.top) else {
            return Err(Fault::Damaged(node.page));
        };
        let child = page_at(bytes, place);
        come_to(child, visits)?;
        let below = copy_given(cache, child)?;
        let next = Expected {
            page: child,
            level: node.level - 1,
            edge: is_last(node.edge, place, count),
            low: range.0,
            top: range.1,
        };
        add_below::<D, B, A, H>(cache, next, &below, visits, seen, pairs)?;
    }
    Ok(())
}

// Whether a page is a fork of that level with enough children.
fn is_fork_of<const D: usize>(page: &[u8; 4096], level: u8, edge: bool) -> bool
    ensures fork { IsTrue result → FindsFork D level edge page.now }
    ensures few { IsTrue result → number_at 2 2 page.now ≤ 340 }
    ensures accepts { (links : List Link) → fork_at D page.now ≡ Some
        (record { level = level; links = links })
        → 0 < length links → (edge ≡ false → least_children ≤ length links) → IsTrue result }
{
    if !has_fork_head::<D>(page) {
        return false;
    }
    let height = level_at(page);
    if height != level {
        return false;
    }
    are_enough(count_at(page), edge, LEAST_CHILDREN)
}

// Whether so many are some, and at least so many but at the edge of a tree.
fn are_enough(count: usize, edge: bool, least: usize) -> bool
    ensures some { result ≡ true → 0 < count }
    ensures large { result ≡ true → edge ≡ false → least ≤ count }
    ensures accepts { 0 < count → (edge ≡ false → least ≤ count) → result ≡ true }
{
    if count == 0 {
        return false;
    }
    if edge {
        return true;
    }
    count >= least
}

// The least and the greatest identifier that the child in a place of a fork page may have, where those of the
// fork are from one to another. None is below a key of zero.
fn range_of(page: &[u8; 4096], place: usize, count: usize, low: u64, top: u64) -> Option<(u64, u64)>
    requires within { place < count }
    requires few { count ≤ 340 }
    ensures range { (dims : ℕ) (c : ForkContent) → fork_at dims page.now ≡ Some c → count ≡ length c.links
        → IfSome result (λ range. IsRange c.links place low top range.0 range.1) }
    ensures none { result ≡ None → (dims : ℕ) (c : ForkContent) (other : Link)
        → fork_at dims page.now ≡ Some c → count ≡ length c.links
        → (place + 1 < count) × ((slice_index_or c.links (place + 1) other).0 ≡ 0) }
{
    let from = from_of(page, place, low);
    if place + 1 == count {
        return Some((from, top));
    }
    let next = key_at(page, place + 1);
    if next == 0 {
        return None;
    }
    Some((from, next - 1))
}

// The least identifier that the child in a place may have.
fn from_of(page: &[u8; 4096], place: usize, low: u64) -> u64
    requires few { place < 340 }
    ensures first { place ≡ 0 → result ≡ low }
    ensures later { 0 < place → (dims : ℕ) (c : ForkContent) (other : Link) → fork_at dims page.now ≡ Some c
        → place < length c.links → result ≡ (slice_index_or c.links place other).0 }
{
    if place == 0 {
        return low;
    }
    key_at(page, place)
}

// Checks a leaf page, and appends its objects, each of which has an identifier from one to another that was
// not seen before.
fn add_leaf<const D: usize, H: Allocator + Copy>(
    page: &[u8; 4096],
    node: Expected,
    seen: &mut BTreeSet<u64, H>,
    pairs: &mut Vec<(u64, (BBox<D>, u32)), H>,
) -> Result<(), Fault>
    requires dims { IsDims D }
    ensures found { OnOk result (FindsLeaf D node.edge node.low node.top page.now
        pairs.old.items pairs.new.items seen.old seen.new) }
    ensures stands { (objects : List Entry) → leaf_at D page.now ≡ Some objects
        → MayBeLeaf D node.edge node.low node.top objects seen.old → IfErr result (λ f. f ≡ fault.Memory) }
    ensures faults { IfErr result (λ f. (f ≡ fault.Memory) ⊎ (f ≡ fault.Damaged node.page)) }
{
    if !is_leaf::<D>(page) {
        return Err(Fault::Damaged(node.page));
    }
    if !are_enough(count_at(page), node.edge, least_in_leaf::<D>()) {
        return Err(Fault::Damaged(node.page));
    }
    add_objects::<D, H>(page, node.page, node.low, node.top, seen, pairs)
}

// How many objects a leaf has at least.
fn least_in_leaf<const D: usize>() -> usize
    ensures { result ≡ least_objects D }
{
    if D == 2 {
        return 37;
    }
    29
}

// Appends the objects of a leaf page.
fn add_objects<const D: usize, H: Allocator + Copy>(
    page: &[u8; 4096],
    number: u32,
    low: u64,
    top: u64,
    seen: &mut BTreeSet<u64, H>,
    pairs: &mut Vec<(u64, (BBox<D>, u32)), H>,
) -> Result<(), Fault>
    requires dims { IsDims D }
    requires few { number_at 2 2 page.now ≤ most_objects D }
    ensures found { (objects : List Entry) → leaf_at D page.now ≡ Some objects
        → OnOk result (AddsObjects low top objects pairs.old.items pairs.new.items seen.old seen.new) }
    ensures stands { (objects : List Entry) → leaf_at D page.now ≡ Some objects
        → All (λ o. low ≤ o.0) objects → (top < most_identifier → All (λ o. o.0 ≤ top) objects)
        → ((id : ℕ) → seen_times seen.old id + times_in id objects ≤ 1)
        → IfErr result (λ f. f ≡ fault.Memory) }
    ensures faults { IfErr result (λ f. (f ≡ fault.Memory) ⊎ (f ≡ fault.Damaged number)) }
{
    for place in 0..count_at(page) {
        let Some(object) = object_at::<D>(page, place) else {
            return Err(Fault::Damaged(number));
        };
        let new = sees_new(object.0, low, top, seen)?;
        if !new {
            return Err(Fault::Damaged(number));
        }
        pairs.push(object)?;
    }
    Ok(())
}

// Sees an identifier, and answers whether it is from one to another and was not seen before.
fn sees_new<H: Allocator + Copy>(
    id: u64,
    low: u64,
    top: u64,
    seen: &mut BTreeSet<u64, H>,
) -> Result<bool, Fault>
    ensures within { IfOk result (λ new. new ≡ true → (low ≤ id) × (id ≤ top)) }
    ensures new { IfOk result (λ new. new ≡ true → SeesOne seen.old seen.new id) }
    ensures known { IfOk result (λ new. new ≡ false → low ≤ id → (top < most_identifier → id ≤ top)
        → seen_times seen.old id ≡ 1) }
    ensures memory { IfErr result (λ f. f ≡ fault.Memory) }
{
    if id < low {
        return Ok(false);
    }
    if id > top {
        return Ok(false);
    }
    Ok(seen.insert(id)?)
}
