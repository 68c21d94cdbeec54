//! Nodes at the pages of a cache.

ghost use Rattle.std.specs.Prelude.{◌≡◌, ◌⊎◌, ◌≤◌, ◌<◌, Some, Err, All, IfOk, IfErr, IsErrOf, OnErr, OnOk};
ghost use Rattle.block_device.specs.Device.{one_more};
ghost use Rattle.box_math.specs.Bounds.{IsBox};
ghost use Rattle.page_file.specs.Fault.{IsDamage, IsOfDevice};
ghost use Rattle.page_file.specs.Pages.{SameBut};
ghost use Rattle.page_file.specs.declared.fault.Fault.TheVariants as fault;
ghost use Rattle.page_cache.specs.Cache.{Grows, IsHeld, IsHonest, IsLive, IsPageMap, IsUnchanged};
ghost use Rattle.page_cache.specs.Cache.{device_of, given, looks_of, next_of, pages};
ghost use Rattle.page_cache.specs.Calls.{Asks, Changes};
ghost use Rattle.tree_node.specs.Nodes.{NodeContent, content_of};
ghost use Rattle.node_bytes.specs.Layout.{IsPageOfNode, IsSpellable, node_at};
ghost use Rattle.node_page.specs.Standing.{HasPageOf, node_in};

use crate::lending::view_node;
use arrayvec::ArrayVec;
use block_device::BlockDevice;
use node_bytes::encode;
use page_cache::PageCache;
use page_file::Fault;
use std::alloc::Allocator;
use tree_node::Node;

/// Reads the node of that level at a page that was given out, in one look, or at most one where it is
/// refused. A page that spells none of that dimension and level is `Damaged` with its number, and so is a
/// number outside 2 to the last one given out, without a call of the device.
///
/// On an honest device a refusal where there is such a node is `Memory` or `Device`, and none where the page
/// is held. Map and gate stay, also after a refusal.
#[tactic(auto, using(page_cache::specs::Calls::ends_so))]
pub fn read_node<const D: usize, B: BlockDevice, A: Allocator + Copy>(
    cache: &mut PageCache<B, A>,
    page: u32,
    level: u8,
) -> Result<Node<D>, Fault>
    ensures asks { Asks cache.old cache.new result }
    ensures node { IsHonest cache.old → IsLive cache.old page
        → IfOk result (λ node. node_in D (pages cache.old page) ≡ Some (content_of node)) }
    ensures given_node { IsHonest cache.old
        → IfOk result (λ node. node_in D (given cache.old page) ≡ Some (content_of node)) }
    ensures level { IfOk result (λ node. node.level ≡ level) }
    ensures spellable { IfOk result (λ node. IsSpellable (content_of node)) }
    ensures boxes { IfOk result (λ node. All (λ item. IsBox D item.bounds) (content_of node).entries) }
    ensures looks { OnOk result (looks_of cache.new ≡ one_more (looks_of cache.old)) }
    ensures refused_looks { OnErr result
        ((looks_of cache.new ≡ looks_of cache.old) ⊎ (looks_of cache.new ≡ one_more (looks_of cache.old))) }
    ensures outside { (page < 2) ⊎ (next_of cache.old ≤ page) → IsErrOf result (fault.Damaged page) }
    ensures quiet { (page < 2) ⊎ (next_of cache.old ≤ page) → device_of cache.new ≡ device_of cache.old }
    ensures there { IsHonest cache.old → (c : NodeContent) → node_in D (pages cache.old page) ≡ Some c
        → c.level ≡ level → IfErr result IsOfDevice }
    ensures given_there { IsHonest cache.old → (c : NodeContent) → node_in D (given cache.old page) ≡ Some c
        → c.level ≡ level → IfErr result IsOfDevice }
    ensures faults { IsHonest cache.old → IfErr result (λ f. IsOfDevice f ⊎ (f ≡ fault.Damaged page)) }
    ensures held { IsHeld cache.old page → IfErr result (λ f. f ≡ fault.Damaged page) }
    ensures other_faults { IfErr result (λ f. IsOfDevice f ⊎ IsDamage f) }
{
    let view = view_node::<D, B, A>(cache, page, level)?;
    let mut node = Node {
        level,
        entries: ArrayVec::new(),
    };
    view.decode_into(&mut node);
    Ok(node)
}

/// Reads the node of that level at a page as `read_node` does, into a node that may be any after a refusal.
#[tactic(auto, using(page_cache::specs::Calls::ends_so))]
pub fn read_into<const D: usize, B: BlockDevice, A: Allocator + Copy>(
    cache: &mut PageCache<B, A>,
    page: u32,
    level: u8,
    node: &mut Node<D>,
) -> Result<(), Fault>
    ensures asks { Asks cache.old cache.new result }
    ensures node { IsHonest cache.old → IsLive cache.old page
        → OnOk result (node_in D (pages cache.old page) ≡ Some (content_of node.new)) }
    ensures given_node { IsHonest cache.old
        → OnOk result (node_in D (given cache.old page) ≡ Some (content_of node.new)) }
    ensures level { OnOk result (node.new.level ≡ level) }
    ensures spellable { OnOk result (IsSpellable (content_of node.new)) }
    ensures boxes { OnOk result (All (λ item. IsBox D item.bounds) (content_of node.new).entries) }
    ensures looks { OnOk result (looks_of cache.new ≡ one_more (looks_of cache.old)) }
    ensures refused_looks { OnErr result
        ((looks_of cache.new ≡ looks_of cache.old) ⊎ (looks_of cache.new ≡ one_more (looks_of cache.old))) }
    ensures outside { (page < 2) ⊎ (next_of cache.old ≤ page) → IsErrOf result (fault.Damaged page) }
    ensures there { IsHonest cache.old → (c : NodeContent) → node_in D (pages cache.old page) ≡ Some c
        → c.level ≡ level → IfErr result IsOfDevice }
    ensures faults { IsHonest cache.old → IfErr result (λ f. IsOfDevice f ⊎ (f ≡ fault.Damaged page)) }
    ensures held { IsHeld cache.old page → IfErr result (λ f. f ≡ fault.Damaged page) }
    ensures other_faults { IfErr result (λ f. IsOfDevice f ⊎ IsDamage f) }
{
    let view = view_node::<D, B, A>(cache, page, level)?;
    view.decode_into(node);
    Ok(())
}

/// Writes a node into a live page, which becomes the one that `encode` makes of it, whatever was there
/// before. The node has at most 100 entries, and one that is no leaf has at least one, all of which refer to
/// pages from 3 to 2^31 - 1 and have no tag.
///
/// A number outside 2 to the last one given out is `Damaged` with that number, and changes nothing. After
/// another refusal, which on an honest device is `Memory` or `Device`, the page is still live and may hold
/// any bytes; all others are as before.
pub fn write_node<const D: usize, B: BlockDevice, A: Allocator + Copy>(
    cache: &mut PageCache<B, A>,
    page: u32,
    node: &Node<D>,
) -> Result<(), Fault>
    requires spellable { IsSpellable (content_of node.now) }
    ensures changes { Changes cache.old cache.new result }
    ensures written { IsHonest cache.old → IsLive cache.old page
        → OnOk result (node_in D (pages cache.new page) ≡ Some (content_of node.now)) }
    ensures is_page { IsHonest cache.old → IsLive cache.old page
        → OnOk result (HasPageOf D (pages cache.new) page (content_of node.now)) }
    ensures live { IsHonest cache.old → IsLive cache.old page → IsLive cache.new page }
    ensures others { IsHonest cache.old → IsLive cache.old page →
        SameBut page (pages cache.old) (pages cache.new) }
    ensures sound { IsPageMap cache.old → IsLive cache.old page → IsPageMap cache.new }
    ensures next { next_of cache.new ≡ next_of cache.old }
    ensures grows { Grows 0 cache.old cache.new }
    ensures looks { looks_of cache.new ≡ looks_of cache.old }
    ensures outside { (page < 2) ⊎ (next_of cache.old ≤ page)
        → (result ≡ Err (fault.Damaged page)) × IsUnchanged cache.old cache.new }
    ensures faults { IsHonest cache.old → IsLive cache.old page → IfErr result IsOfDevice }
    ensures other_faults { IfErr result (λ f. IsOfDevice f ⊎ IsDamage f) }
{
    cache.refill(
        page,
        |bytes: &mut [u8; 4096]|
            requires { IsSpellable (content_of node.now) }
            ensures spelled { node_at D bytes.new ≡ Some (content_of node.entry.now) }
            ensures is_page { IsPageOfNode D bytes.new (content_of node.entry.now) }
        { encode(node, bytes) },
    )
}
