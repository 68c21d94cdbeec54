//! The root of a table: its first object, and one level more.

ghost use Rattle.std.specs.Prelude.{◌≡◌, ◌<◌, ◌⊎◌, Some, [], ◌∷◌, IfErr, OnOk, ℕ, true, false};
ghost use Rattle.box_math.specs.Bounds.{IsDims};
ghost use Rattle.page_file.specs.Fault.{IsDamage};
ghost use Rattle.page_cache.specs.Cache.{Grows, IsLive, IsPageMap, pages, IsHonest, touched_of};
ghost use Rattle.page_cache.specs.Calls.{Changes};
ghost use Rattle.node_page.specs.Faults.{IsNoDamage};
ghost use Rattle.id_page.specs.Fork.{fork_at, ForkContent, IsTidyFork};
ghost use Rattle.id_page.specs.Leaf.{leaf_at, IsTidyLeaf};
ghost use Rattle.id_tree.specs.Writes.{Deepens, NamesNew, Starts};
ghost use Rattle.id_tree.specs.Tidy.{IsAsTidy};
ghost use Rattle.id_tree.specs.Tree.{fork_in};
ghost use Rattle.id_words.specs.Damage.{MayBreakAt};
ghost use Rattle.id_tree.specs.Works.{Works};
ghost use Rattle.page_file.specs.declared.fault.Fault.TheVariants as fault;

use crate::giving::give_page;
use crate::looks::copy_page;
use block_bytes::zero_block;
use block_device::BlockDevice;
use box_math::BBox;
use id_page::{push_link, push_object, start_fork, start_leaf};
use page_cache::PageCache;
use page_file::Fault;
use std::alloc::Allocator;

// Gives out a page with these bytes, and makes the live page of a root a fork of that level with that page as
// its only child.
#[tactic(auto, using(page_cache::specs::Calls::turns))]
pub(crate) fn name_new<const D: usize, B: BlockDevice, A: Allocator + Copy>(
    cache: &mut PageCache<B, A>,
    root: u32,
    level: u8,
    bytes: &[u8; 4096],
) -> Result<u32, Fault>
    requires dims { IsDims D }
    requires high { 0 < level }
    ensures changes { Changes cache.old cache.new result }
    ensures names { IsPageMap cache.old → IsLive cache.old root → IsAsTidy D (pages cache.old) bytes.now
        → Works D cache.old cache.new result
        (λ number. NamesNew D (pages cache.old) (pages cache.new) root level number bytes.now)
        (IsNoDamage cache.new) }
    ensures grows { Grows 1 cache.old cache.new }
    ensures touched { OnOk result (touched_of cache.new ≡ true) }
    ensures damage { IsHonest cache.old → touched_of cache.new ≡ false
        → IfErr result (λ f. (n : ℕ) → f ≡ fault.Damaged n → MayBreakAt cache.old n) }
    ensures other_faults { IfErr result (λ f. IsNoDamage cache.new f ⊎ IsDamage f) }
{
    let number = give_page(cache, bytes)?;
    let fork = only_child::<D>(level, number);
    cache.put(root, &fork)?;
    Ok(number)
}

// The fork of that level with a page as its only child.
fn only_child<const D: usize>(level: u8, number: u32) -> [u8; 4096]
    requires dims { IsDims D }
    requires high { 0 < level }
    ensures spelled { fork_at D result ≡ Some (record { level = level; links = (0, number) ∷ [] }) }
    ensures tidy { IsTidyFork result }
{
    let mut fork = zero_block();
    start_fork(&mut fork, D as u8, level);
    push_link(&mut fork, 0, number);
    fork
}

// The fork of level 1 without children.
pub(crate) fn no_child<const D: usize>() -> [u8; 4096]
    requires dims { IsDims D }
    ensures spelled { fork_at D result ≡ Some (record { level = 1; links = [] }) }
    ensures tidy { IsTidyFork result }
{
    let mut fork = zero_block();
    start_fork(&mut fork, D as u8, 1);
    fork
}

// Makes the live page of a root, which has no children, one with a leaf of this object.
#[tactic(auto, using(page_cache::specs::Calls::turns))]
pub(crate) fn start<const D: usize, B: BlockDevice, A: Allocator + Copy>(
    cache: &mut PageCache<B, A>,
    root: u32,
    object: &(u64, (BBox<D>, u32)),
) -> Result<(), Fault>
    requires dims { IsDims D }
    ensures changes { Changes cache.old cache.new result }
    ensures starts { IsPageMap cache.old → IsLive cache.old root → Works D cache.old cache.new result
        (λ u. Starts D (pages cache.old) (pages cache.new) root object.now) (IsNoDamage cache.new) }
    ensures grows { Grows 1 cache.old cache.new }
    ensures damage { IsHonest cache.old → touched_of cache.new ≡ false
        → IfErr result (λ f. (n : ℕ) → f ≡ fault.Damaged n → MayBreakAt cache.old n) }
    ensures other_faults { IfErr result (λ f. IsNoDamage cache.new f ⊎ IsDamage f) }
{
    let leaf = leaf_of::<D>(object);
    name_new::<D, B, A>(cache, root, 1, &leaf)?;
    Ok(())
}

// The leaf of one object.
fn leaf_of<const D: usize>(object: &(u64, (BBox<D>, u32))) -> [u8; 4096]
    requires dims { IsDims D }
    ensures spelled { leaf_at D result ≡ Some (object.now ∷ []) }
    ensures tidy { IsTidyLeaf D result }
{
    let mut leaf = zero_block();
    start_leaf(&mut leaf, D as u8);
    push_object::<D>(&mut leaf, object);
    leaf
}

// Makes the live page of a root, a fork of that level, one on the next level, with what it had in a new page
// as its only child. Answers that page.
pub(crate) fn deepen<const D: usize, B: BlockDevice, A: Allocator + Copy>(
    cache: &mut PageCache<B, A>,
    root: u32,
    level: u8,
) -> Result<u32, Fault>
    requires dims { IsDims D }
    requires low { level < 255 }
    ensures changes { Changes cache.old cache.new result }
    ensures deepens { IsPageMap cache.old → (c : ForkContent) → fork_in D (pages cache.old root) ≡ Some c
        → Works D cache.old cache.new result
        (λ number. Deepens D (pages cache.old) (pages cache.new) root level number) (IsNoDamage cache.new) }
    ensures grows { Grows 1 cache.old cache.new }
    ensures touched { OnOk result (touched_of cache.new ≡ true) }
    ensures damage { IsHonest cache.old → touched_of cache.new ≡ false
        → IfErr result (λ f. (n : ℕ) → f ≡ fault.Damaged n → (n ≡ root) ⊎ MayBreakAt cache.old n) }
    ensures other_faults { IfErr result (λ f. IsNoDamage cache.new f ⊎ IsDamage f) }
{
    let bytes = copy_page(cache, root)?;
    name_new::<D, B, A>(cache, root, level + 1, &bytes)
}
