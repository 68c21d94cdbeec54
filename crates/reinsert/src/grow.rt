//! A root over a root that was split.

ghost use Rattle.std.specs.Prelude.{◌≡◌, ◌⊎◌, ◌^◌, ◌+◌, ◌<◌, ◌≤◌, ◌∷◌, [], Some, None, ℕ, IfOk, IfErr, OnOk};
ghost use Rattle.std.specs.Prelude.{true};
ghost use Rattle.box_math.specs.Bounds.{IsDims};
ghost use Rattle.page_file.specs.declared.fault.Fault.TheVariants as fault;
ghost use Rattle.page_cache.specs.Cache.{Grows, IsPageMap, pages, touched_of};
ghost use Rattle.page_cache.specs.Calls.{Changes};
ghost use Rattle.tree_node.specs.Nodes.{item_of};
ghost use Rattle.node_bytes.specs.Layout.{IsOfLevel};
ghost use Rattle.node_page.specs.Faults.{IsChangeFault, IsNoDamage};
ghost use Rattle.reinsert.specs.Placed.{ComesIn};

use arrayvec::ArrayVec;
use block_device::BlockDevice;
use box_math::BBox;
use node_page::write_node;
use page_cache::PageCache;
use page_file::Fault;
use std::alloc::Allocator;
use tree_node::{Entry, Node, Root};

// Makes a root over the old one, which has these bounds now, and what was split off. A tree that would grow
// above level 40 is damaged at its root.
pub(crate) fn grow<const D: usize, B: BlockDevice, A: Allocator + Copy>(
    cache: &mut PageCache<B, A>,
    root: Root,
    bounds: BBox<D>,
    beside: Entry<D>,
) -> Result<Root, Fault>
    requires dims { IsDims D }
    requires page { (3 ≤ root.page) × (root.page < 2 ^ 31) }
    requires refers { IsOfLevel 1 beside.reference beside.tag }
    ensures changes { Changes cache.old cache.new result }
    ensures grows { Grows 1 cache.old cache.new }
    ensures level { IfOk result (λ new. (new.level ≡ root.level + 1) × (new.level ≤ 40)) }
    ensures page { IfOk result (λ new. (3 ≤ new.page) × (new.page < 2 ^ 31)) }
    ensures grown { IsPageMap cache.old → IfOk result (λ new. IsPageMap cache.new
        × ComesIn D (pages cache.old) (pages cache.new) new.page
        (record {
          level = root.level + 1;
          entries = record { bounds = bounds.entry; reference = root.page; tag = 0 } ∷
              item_of beside.entry ∷ [];
        })) }
    ensures faults { IsPageMap cache.old → root.level < 40 → IfErr result (IsNoDamage cache.new) }
    ensures touched { OnOk result (touched_of cache.new ≡ true) }
    ensures damaged { IsPageMap cache.old
        → IfErr result (λ f. IsNoDamage cache.new f ⊎ (f ≡ fault.Damaged root.page)) }
    ensures other_faults { IfErr result (IsChangeFault cache.new) }
{
    if root.level >= 40 {
        return Err(Fault::Damaged(root.page));
    }
    let mut entries = ArrayVec::new();
    entries.push(Entry {
        bounds,
        reference: u64::from(root.page),
        tag: 0,
    });
    entries.push(beside);
    let node = Node {
        level: root.level + 1,
        entries,
    };
    let page = cache.allocate()?;
    write_node(cache, page, &node)?;
    Ok(Root {
        page,
        level: node.level,
    })
}
