//! Tables asked: for an identifier, and whether one stands.

ghost use Rattle.std.specs.Prelude.{◌≡◌, ◌⊎◌, ◌+◌, ◌≤◌, ℕ, IfOk, IfErr};
ghost use Rattle.std.specs.FinMap as map;
ghost use Rattle.box_math.specs.Bounds.{IsDims};
ghost use Rattle.page_file.specs.Fault.{IsDamage, IsOfDevice};
ghost use Rattle.page_file.specs.declared.fault.Fault.TheVariants as fault;
ghost use Rattle.page_cache.specs.Cache.{IsHonest, IsPageMap, given, looks_of, next_of, pages};
ghost use Rattle.page_cache.specs.Calls.{Asks};
ghost use Rattle.id_table.specs.Checked.{ComesInTable, IsCheckedTable, MeetsInTable, MeetsSpot};
ghost use Rattle.id_table.specs.Table.{IdTable, IdsStand, IsSpotAt, objects_of, page_of};

use crate::kind::{TableKind, kind_at};
use block_device::BlockDevice;
use box_math::BBox;
use id_tree::LeafPlace;
use page_cache::PageCache;
use page_file::Fault;
use std::alloc::Allocator;

/// What a table holds.
#[derive(Drop)]
pub struct TableFacts<const D: usize, H: Allocator> {
    /// The identifier of each object, and then its box and its tag, page after page.
    pub pairs: Vec<(u64, (BBox<D>, u32)), H>,
    /// The pages of the table.
    pub pages: Vec<u32, H>,
}

/// Where a search found an identifier in a table, or found that it would come. It stays so as long as the
/// table does, whatever becomes of other pages.
#[derive(Clone, Copy, Debug, PartialEq, Eq)]
pub enum Spot {
    /// In a chain of buckets, which a change walks once more.
    InChain,
    /// In this place of a tree's leaf.
    InLeaf(LeafPlace),
}

/// What a search for an identifier finds.
#[derive(Clone, Copy, Debug)]
pub struct Sought<const D: usize> {
    /// Where the identifier is, or would come.
    pub spot: Spot,
    /// The box and the tag of its object, if the table has it.
    pub kept: Option<(BBox<D>, u32)>,
}

/// The box and the tag of an object, if the table that begins at a page has its identifier, and where it is
/// or would come.
///
/// On an honest device, where the pages stand for a table there, a refusal is `Memory` or `Device`. On other
/// pages it may be `Damaged` too, with the number of a page that a walk through the table comes to. Map and
/// gate stay, also after a refusal.
#[tactic(auto, using(page_cache::specs::Calls::turns, page_cache::specs::Calls::asks_and_refuses))]
pub fn find<const D: usize, B: BlockDevice, A: Allocator + Copy>(
    cache: &mut PageCache<B, A>,
    page: u32,
    id: u64,
) -> Result<Sought<D>, Fault>
    requires dims { IsDims D }
    ensures asks { Asks cache.old cache.new result }
    ensures found { IsHonest cache.old → (t : IdTable) → page_of t ≡ page → IdsStand D (pages cache.old) t
        → IfOk result (λ sought. sought.kept ≡ map.get (objects_of t) id) }
    ensures spot { IsHonest cache.old
        → IfOk result (λ sought. IsSpotAt D (pages cache.old) page id sought.spot) }
    ensures stands { IsHonest cache.old → (t : IdTable) → page_of t ≡ page → IdsStand D (pages cache.old) t
        → IfErr result IsOfDevice }
    ensures met { IsHonest cache.old
        → IfOk result (λ sought. MeetsSpot D (given cache.old) page sought.spot) }
    ensures damage { IsHonest cache.old
        → IfErr result (λ f. (n : ℕ) → f ≡ fault.Damaged n → MeetsInTable D (given cache.old) page n) }
    ensures other_faults { IfErr result (λ f. IsOfDevice f ⊎ IsDamage f) }
{
    match kind_at::<D, B, A>(cache, page)? {
        TableKind::Chains => {
            let kept = id_chains::get::<D, B, A>(cache, page, id)?;
            Ok(Sought {
                spot: Spot::InChain,
                kept,
            })
        }
        TableKind::Tree => {
            let sought = id_tree::find::<D, B, A>(cache, page, id)?;
            Ok(Sought {
                spot: Spot::InLeaf(sought.at),
                kept: sought.kept,
            })
        }
    }
}

/// Checks the table that begins at a page, and answers what it holds.
///
/// On an honest device it answers so only where a table stands there; else it is `Damaged` with the number of
/// a page that a walk through the table comes to, unless memory or the device refused before. Where a table
/// stands, a refusal is `Memory` or `Device`. It makes no more looks than the file's next number and one,
/// whatever the pages are. Map and gate stay, also after a refusal.
#[tactic(auto, using(page_cache::specs::Calls::turns, page_cache::specs::Calls::asks_and_refuses))]
pub fn check_table<const D: usize, B: BlockDevice, A: Allocator + Copy, H: Allocator + Copy>(
    alloc: H,
    cache: &mut PageCache<B, A>,
    page: u32,
) -> Result<TableFacts<D, H>, Fault>
    requires { IsDims D }
    ensures asks { Asks cache.old cache.new result }
    ensures table { IsPageMap cache.old → IfOk result (λ facts. IsCheckedTable D (pages cache.old) page
        facts.pairs.items facts.pages.items) }
    ensures given_table { IsHonest cache.old →
        IfOk result (λ facts. IsCheckedTable D (given cache.old) page
        facts.pairs.items facts.pages.items) }
    ensures stands { IsHonest cache.old → (t : IdTable) → page_of t ≡ page → IdsStand D (pages cache.old) t
        → IfErr result IsOfDevice }
    ensures looks { looks_of cache.new ≤ looks_of cache.old + next_of cache.old + 1 }
    ensures damage { IsHonest cache.old
        → IfErr result (λ f. (n : ℕ) → f ≡ fault.Damaged n → ComesInTable D (given cache.old) page n) }
    ensures other_faults { IfErr result (λ f. IsOfDevice f ⊎ IsDamage f) }
{
    match kind_at::<D, B, A>(cache, page)? {
        TableKind::Chains => {
            let facts = id_chains::check_table::<D, B, A, H>(alloc, cache, page)?;
            Ok(TableFacts {
                pairs: facts.pairs,
                pages: facts.pages,
            })
        }
        TableKind::Tree => {
            let facts = id_tree::check_table::<D, B, A, H>(alloc, cache, page)?;
            Ok(TableFacts {
                pairs: facts.pairs,
                pages: facts.pages,
            })
        }
    }
}
