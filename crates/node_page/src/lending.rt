//! Nodes read in the pages that a cache lends.

ghost use Rattle.std.specs.Prelude.{◌≡◌, ◌⊎◌, ◌≤◌, ◌<◌, Some, All, IfOk, IfErr, IsErrOf};
ghost use Rattle.std.specs.Borrow.{sem};
ghost use Rattle.box_math.specs.Bounds.{IsBox};
ghost use Rattle.page_file.specs.Fault.{IsDamage, IsOfDevice};
ghost use Rattle.page_file.specs.declared.fault.Fault.TheVariants as fault;
ghost use Rattle.page_cache.specs.Cache.{IsHeld, IsHonest, IsLive, given, next_of, pages};
ghost use Rattle.tree_node.specs.Nodes.{NodeContent};
ghost use Rattle.node_bytes.specs.Layout.{IsSpellable};
ghost use Rattle.page_cache.specs.Loan.{EndsReadAt};
ghost use Rattle.node_page.specs.Standing.{node_in};
ghost use Rattle.node_bytes.specs.Views.{content_in};

use block_device::BlockDevice;
use node_bytes::NodeView;
use page_cache::PageCache;
use page_file::Fault;
use std::alloc::Allocator;

/// Reads the node of that level in the page that the cache lends, as `read_node` does, without copying it.
#[tactic(auto, using(crate::proofs::ReadLemmas::no_node))]
pub fn view_node<'a, const D: usize, B: BlockDevice, A: Allocator + Copy>(
    cache: &'a mut PageCache<B, A>,
    page: u32,
    level: u8,
) -> Result<NodeView<'a, D>, Fault>
    ensures* read_at { sem 𝓛 (EndsReadAt B.row A.row B.BlockDevice A.Allocator cache.entry page result) }
    ensures node { IsHonest cache.old → IsLive cache.old page
        → IfOk result (λ view. node_in D (pages cache.old page) ≡ Some (content_in view)) }
    ensures given_node { IsHonest cache.old
        → IfOk result (λ view. node_in D (given cache.old page) ≡ Some (content_in view)) }
    ensures level { IfOk result (λ view. (content_in view).level ≡ level) }
    ensures spellable { IfOk result (λ view. IsSpellable (content_in view)) }
    ensures boxes { IfOk result (λ view. All (λ item. IsBox D item.bounds) (content_in view).entries) }
    ensures outside { (page < 2) ⊎ (next_of cache.old ≤ page) → IsErrOf result (fault.Damaged page) }
    ensures there { IsHonest cache.old → (c : NodeContent) → node_in D (pages cache.old page) ≡ Some c
        → c.level ≡ level → IfErr result IsOfDevice }
    ensures given_there { IsHonest cache.old → (c : NodeContent) → node_in D (given cache.old page) ≡ Some c
        → c.level ≡ level → IfErr result IsOfDevice }
    ensures faults { IsHonest cache.old → IfErr result (λ f. IsOfDevice f ⊎ (f ≡ fault.Damaged page)) }
    ensures held { IsHeld cache.old page → IfErr result (λ f. f ≡ fault.Damaged page) }
    ensures other_faults { IfErr result (λ f. IsOfDevice f ⊎ IsDamage f) }
{
    let bytes = cache.node_page::<D>(page)?;
    match NodeView::of_known(bytes, level) {
        Some(view) => Ok(view),
        None => Err(Fault::Damaged(page)),
    }
}
