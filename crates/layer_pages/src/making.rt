//! Layers made.

ghost use Rattle.std.specs.Prelude.{◌≡◌, ◌^◌, ◌<◌, ◌≤◌, ℕ, [], None, Some, IfErr, IfOk};
ghost use Rattle.std.specs.FinMap as map;
ghost use Rattle.box_math.specs.Bounds.{IsDims};
ghost use Rattle.page_file.specs.Pages.{SameBut};
ghost use Rattle.page_cache.specs.Cache.{Grows, IsPageMap, next_of, pages};
ghost use Rattle.page_cache.specs.Calls.{Changes};
ghost use Rattle.node_page.specs.Parts.{no_page};
ghost use Rattle.node_page.specs.Standing.{node_in};
ghost use Rattle.node_page.specs.Faults.{IsChangeFault, IsNoDamage};
ghost use Rattle.layer_pages.specs.Changes.{BecomesLayer, IsEmptyLeaf};
ghost use Rattle.layer_pages.specs.Layers.{CanBeRoot};

use arrayvec::ArrayVec;
use block_device::BlockDevice;
use id_table::TableKind;
use node_page::{Node, Root, write_node};
use page_cache::PageCache;
use page_file::Fault;
use std::alloc::Allocator;

/// Makes a layer of no objects in pages that were not live, with an identifier table of this kind, and
/// answers its root and the first page of that table.
///
/// With a sound map a refusal is `Memory` or `Device`, or `NoPages` where each page number is live. Also
/// after a refusal at most two more pages are live.
pub fn make<const D: usize, B: BlockDevice, A: Allocator + Copy>(
    cache: &mut PageCache<B, A>,
    kind: TableKind,
) -> Result<(Root, u32), Fault>
    requires dims { IsDims D }
    ensures changes { Changes cache.old cache.new result }
    ensures places { IfOk result (λ made. CanBeRoot made.0 × (3 ≤ made.1) × (made.1 < next_of cache.new)) }
    ensures sound { IsPageMap cache.old → IsPageMap cache.new }
    ensures made { IsPageMap cache.old → (most : ℕ) → IfOk result (λ made.
        BecomesLayer D most (pages cache.old) (pages cache.new) no_page kind made.0 made.1 map.empty
        IsEmptyLeaf) }
    ensures grows { Grows 2 cache.old cache.new }
    ensures faults { IsPageMap cache.old → IfErr result (IsNoDamage cache.new) }
    ensures other_faults { IfErr result (IsChangeFault cache.new) }
{
    let page = make_leaf::<D, B, A>(cache)?;
    let ids_root = id_table::make::<D, B, A>(cache, kind)?;
    Ok((Root { page, level: 0 }, ids_root))
}

// Gives out a page and writes an empty leaf into it.
fn make_leaf<const D: usize, B: BlockDevice, A: Allocator + Copy>(
    cache: &mut PageCache<B, A>,
) -> Result<u32, Fault>
    requires dims { IsDims D }
    ensures changes { Changes cache.old cache.new result }
    ensures number { IfOk result (λ page. (3 ≤ page) × (page < 2 ^ 31)) }
    ensures sound { IsPageMap cache.old → IsPageMap cache.new }
    ensures fresh { IsPageMap cache.old → IfOk result (λ page. pages cache.old page ≡ None) }
    ensures leaf { IsPageMap cache.old → IfOk result (λ page.
        node_in D (pages cache.new page) ≡ Some (record { level = 0; entries = [] })) }
    ensures others { IsPageMap cache.old →
        IfOk result (λ page. SameBut page (pages cache.old) (pages cache.new)) }
    ensures grows { Grows 1 cache.old cache.new }
    ensures faults { IsPageMap cache.old → IfErr result (IsNoDamage cache.new) }
    ensures other_faults { IfErr result (IsChangeFault cache.new) }
{
    let leaf: Node<D> = Node {
        level: 0,
        entries: ArrayVec::new(),
    };
    let page = cache.allocate()?;
    write_node(cache, page, &leaf)?;
    Ok(page)
}
