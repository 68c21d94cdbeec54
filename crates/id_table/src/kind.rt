//! The two kinds of tables, told apart by byte 0 of the first page.

ghost use Rattle.std.specs.Prelude.{◌≡◌, ◌⊎◌, ◌+◌, ◌≤◌, ◌↔◌, ℕ, List, Some, IfErr, IfOk};
ghost use Rattle.block_bytes.specs.Numbers.{number_at};
ghost use Rattle.box_math.specs.Bounds.{IsDims};
ghost use Rattle.page_file.specs.Fault.{IsDamage, IsOfDevice};
ghost use Rattle.page_file.specs.declared.fault.Fault.TheVariants as fault;
ghost use Rattle.page_cache.specs.Cache.{IsHonest, given, looks_of, pages};
ghost use Rattle.page_cache.specs.Calls.{Asks};
ghost use Rattle.id_page.specs.Layout.{fork_kind};
ghost use Rattle.id_table.specs.Table.{IdTable, IdsStand, kind_of, page_of};
ghost use Rattle.id_table.specs.declared.kind.TableKind.TheVariants.{Tree};

use block_bytes::read_u8;
use block_device::BlockDevice;
use id_page::FORK_KIND;
use page_cache::PageCache;
use page_file::Fault;
use std::alloc::Allocator;

/// What a table is made of: a directory with chains of buckets, as in files of versions 1 and 2, or a tree of
/// pages (docs/FORMAT.md, "Identifier tables").
#[derive(Clone, Copy, PartialEq, Eq, Debug)]
pub enum TableKind {
    /// 1,000 chains of buckets by remainder. A file of each version may have them.
    Chains,
    /// Leaves and forks. Only a file of version 3 may have them.
    Tree,
}

/// The kind of the table that begins at a page: a tree where byte 0 is that of a fork, else chains.
///
/// It makes one look. On an honest device, where a table stands there, a refusal is `Memory` or `Device`;
/// else it may be `Damaged` too, with the number of the page. Map and gate stay, also after a refusal.
#[tactic(auto, using(page_cache::specs::Calls::ends_so))]
pub fn kind_at<const D: usize, B: BlockDevice, A: Allocator + Copy>(
    cache: &mut PageCache<B, A>,
    page: u32,
) -> Result<TableKind, Fault>
    requires dims { IsDims D }
    ensures asks { Asks cache.old cache.new result }
    ensures kind { IsHonest cache.old → (t : IdTable) → page_of t ≡ page → IdsStand D (pages cache.old) t
        → IfOk result (λ kind. kind ≡ kind_of t) }
    ensures byte { IsHonest cache.old → (bytes : List ℕ) → given cache.old page ≡ Some bytes
        → IfOk result (λ kind. kind ≡ Tree ↔ number_at 1 0 bytes ≡ fork_kind) }
    ensures stands { IsHonest cache.old → (t : IdTable) → page_of t ≡ page → IdsStand D (pages cache.old) t
        → IfErr result IsOfDevice }
    ensures looks { looks_of cache.new ≤ looks_of cache.old + 1 }
    ensures damage { IsHonest cache.old → IfErr result (λ f. IsOfDevice f ⊎ (f ≡ fault.Damaged page)) }
    ensures other_faults { IfErr result (λ f. IsOfDevice f ⊎ IsDamage f) }
{
    let bytes = cache.page(page)?;
    if read_u8(bytes, 0) == FORK_KIND {
        Ok(TableKind::Tree)
    } else {
        Ok(TableKind::Chains)
    }
}
