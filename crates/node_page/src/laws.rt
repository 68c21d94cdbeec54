//! Which trees stand in pages: each law is the contract of a function that does nothing, but for
//! `a_node_is_viewed_and_comes_back`, which looks at a page.

ghost use Rattle.std.specs.Prelude.{◌≡◌, ◌⊎◌, ◌<◌, ◌≤◌, ◌^◌, ℕ, Some, IfErr, IfOk, IsErrOf};
ghost use Rattle.std.specs.Prelude.{OnErr, OnOk, length, option_map};
ghost use Rattle.block_device.specs.Device.{one_more};
ghost use Rattle.tree_node.specs.Nodes.{NodeContent};
ghost use Rattle.node_page.specs.Changes.{TreesBelowStand, TreesBesideStand, WaitersBesideStand};
ghost use Rattle.node_page.specs.Parts.{AllPagesMove, MovesBeside, MovesInTurn};
ghost use Rattle.node_page.specs.Parts.{OnePageMoves, StayingMoves, TheRestStays};
ghost use Rattle.node_page.specs.Standing.{Stands, node_in};
ghost use Rattle.page_file.specs.Fault.{IsDamage, IsOfDevice};
ghost use Rattle.page_file.specs.declared.fault.Fault.TheVariants as fault;
ghost use Rattle.node_page.specs.StandingLaws.{BoxesAreBoxes, ChildPagesAreReferences, EqualPagesStand};
ghost use Rattle.node_page.specs.StandingLaws.{LevelsAreKept};
ghost use Rattle.node_page.specs.StandingLaws.{OneTreeStands, PagesAreThere, ReplacedNodeStands};
ghost use Rattle.page_cache.specs.Cache.{IsHonest, IsLive, device_of, looks_of, next_of, pages};
ghost use Rattle.page_cache.specs.Calls.{Asks};
ghost use Rattle.tree_node.specs.Trees.{Tree, occurs_in};

use crate::lending::view_node;
use block_device::BlockDevice;
use page_cache::PageCache;
use page_file::Fault;
use std::alloc::Allocator;

/// At most one tree stands at a page, whose node has the level of its root.
#[tactic(auto, using(crate::proofs::StandingLemmas::tree_laws))]
pub fn at_most_one_tree_stands()
    ensures { OneTreeStands }
{}

/// Each page of a tree that stands is there, so one that was not live is in no such tree.
#[tactic(auto, using(crate::proofs::StandingLemmas::tree_laws))]
pub fn pages_of_a_tree_are_there()
    ensures { PagesAreThere }
{}

/// In a tree that stands all leaves are on level 0.
#[tactic(auto, using(crate::proofs::StandingLemmas::tree_laws))]
pub fn leaves_of_a_tree_are_on_level_0()
    ensures { LevelsAreKept }
{}

/// Pages that are equal where a tree's are stand for it too.
#[tactic(auto, using(crate::proofs::StandingLemmas::tree_laws))]
pub fn equal_pages_stand_for_a_tree()
    ensures { EqualPagesStand }
{}

/// Where one page of a tree is written with a node of its level whose trees stand, the pages stand for the
/// tree with that node replaced, unless a page would be in it twice.
pub fn a_replaced_node_stands()
    ensures { ReplacedNodeStands }
{}

/// Each page of a tree below its root is one that a node can refer to.
#[tactic(auto, using(crate::proofs::StandingBoxes::box_laws))]
pub fn child_pages_are_references()
    ensures { ChildPagesAreReferences }
{}

/// The boxes of a tree that stands in pages of bytes are boxes.
#[tactic(auto, using(crate::proofs::StandingBoxes::box_laws))]
pub fn boxes_of_a_tree_are_boxes()
    ensures { BoxesAreBoxes }
{}

/// A tree that stands in the pages of a cache is made of live pages, which were given out.
pub fn pages_of_a_tree_were_given_out<B: BlockDevice, A: Allocator + Copy>(cache: &PageCache<B, A>)
    ensures { (dims n : ℕ) (t : Tree) → Stands dims (pages cache.now) t → 0 < occurs_in n t
        → IsLive cache.now n × (2 ≤ n) × (n < next_of cache.now) × (next_of cache.now ≤ 2 ^ 31) }
{
    let _ = cache;
}

/// What a change of some pages makes of a part of the live pages: one page given out, written or freed is
/// such a change, and so are two in turn. Other live pages stay, and may be counted with either part.
#[tactic(auto, using(crate::proofs::PartLemmas::part_laws))]
pub fn parts_of_the_pages_move()
    ensures one { OnePageMoves }
    ensures staying { StayingMoves }
    ensures turn { MovesInTurn }
    ensures beside { MovesBeside }
    ensures rest { TheRestStays }
    ensures all { AllPagesMove }
{}

/// What stands beside a change of some pages stands after it.
#[tactic(auto, using(crate::proofs::ChangeLemmas::change_laws))]
pub fn changes_keep_what_stands_beside()
    ensures trees { TreesBesideStand }
    ensures waiting { WaitersBesideStand }
    ensures below { TreesBelowStand }
{}

/// How many entries the node of that level at a page has: a view of it leaves the map, the gate and its
/// moment, and counts one look.
pub fn a_node_is_viewed_and_comes_back<const D: usize, B: BlockDevice, A: Allocator + Copy>(
    cache: &mut PageCache<B, A>,
    page: u32,
    level: u8,
) -> Result<usize, Fault>
    ensures count { IsHonest cache.old → IsLive cache.old page → IfOk result (λ count.
        option_map (λ c. length c.entries) (node_in D (pages cache.old page)) ≡ Some count) }
    ensures asks { Asks cache.old cache.new result }
    ensures looks { OnOk result (looks_of cache.new ≡ one_more (looks_of cache.old)) }
    ensures refused_looks { OnErr result
        ((looks_of cache.new ≡ looks_of cache.old) ⊎ (looks_of cache.new ≡ one_more (looks_of cache.old))) }
    ensures outside { (page < 2) ⊎ (next_of cache.old ≤ page)
        → IsErrOf result (fault.Damaged page) × (device_of cache.new ≡ device_of cache.old) }
    ensures there { IsHonest cache.old → (c : NodeContent) → node_in D (pages cache.old page) ≡ Some c
        → c.level ≡ level → IfErr result IsOfDevice }
    ensures other_faults { IfErr result (λ f. IsOfDevice f ⊎ IsDamage f) }
{
    let view = view_node::<D, B, A>(cache, page, level)?;
    Ok(view.len())
}
