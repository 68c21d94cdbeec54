//! A removal in a tree whose root rises twice while what it kept comes back, with its growths refused in turn:
//! what is kept and what waits has its room before the first write, so no refusal touches a page. The cache has
//! a heap of its own, which refuses nothing: it may want memory for a page behind a write.

ghost use Rattle.std.specs.Prelude.{IfOk};
ghost use Rattle.node_bytes.specs.Layout.{IsOfLevel};

use crate::boxes::object;
use crate::calls::{FOUR, checked};
use crate::scenes::open_cache;
use arrayvec::ArrayVec;
use block_device::MemoryDevice;
use condense::remove;
use node_page::{Entry, Node, Root, add_entry, write_node};
use page_cache::PageCache;
use page_file::Fault;
use refusing::Refusing;
use std::alloc::Global;
use test_caches::{Cache, bare};

// The root, and the square that its tree is in, each side of which is divided by 7 nine times.
const ROOT: Root = Root { page: 3, level: 16 };

const ALL: [i32; 4] = [0, 0, 1_291_315_424, 1_291_315_424];

// More nodes than the tree has.
const NODES: u32 = 4_000;

// The object that is removed. Each node on the way to it, but for two, is in its box, and has two entries.
const TAKEN: [i32; 4] = [1_106_841_792, 0, 1_291_315_424, 184_473_632];

// What the removal keeps: the point of an entry of each level.
const KEPT: [[i32; 2]; 15] = [
    [1_092_232_000, 708_012_000],
    [1_092_233_000, 708_013_000],
    [1_092_232_000, 708_012_000],
    [1_026_992_000, 737_352_000],
    [941_610_000, 576_067_000],
    [1_242_139_000, 575_531_000],
    [1_287_589_000, 722_890_000],
    [1_119_769_000, 708_230_000],
    [1_204_757_000, 1_016_130_000],
    [1_291_018_000, 1_286_571_000],
    [1_083_951_000, 1_101_306_000],
    [1_076_897_000, 1_110_304_000],
    [925_165_000, 148_339_000],
    [646_617_000, 1_011_224_000],
    [102_502_000, 641_036_000],
];

// A node that is to be written.
#[derive(Clone, Copy)]
struct Job {
    page: u32,
    level: u8,
    bounds: [i32; 4],
}

// A seventh of a side, from so many sevenths on.
fn part(low: i32, high: i32, from: i32) -> (i32, i32) {
    let side = high.saturating_sub(low) / 7;
    let begin = low.saturating_add(side.saturating_mul(from));
    (begin, begin.saturating_add(side))
}

// A seventh of a box along the axis of a level, from so many sevenths on.
fn seventh(level: u8, [x, y, u, v]: [i32; 4], from: i32) -> [i32; 4] {
    if level % 2 == 0 {
        let (low, high) = part(x, u, from);
        return [low, y, high, v];
    }
    let (low, high) = part(y, v, from);
    [x, low, u, high]
}

// Whether something that is kept comes to a node of the level in this box.
fn is_sought(level: u8, [x, y, u, v]: [i32; 4]) -> bool {
    for &[a, b] in KEPT.iter().take(usize::from(level) + 1) {
        if x <= a && a <= u && y <= b && b <= v {
            return true;
        }
    }
    false
}

// The boxes of the entries of a full node.
fn sevenths(level: u8, bounds: [i32; 4]) -> [[i32; 4]; 4] {
    [
        seventh(level, bounds, 0),
        seventh(level, bounds, 3),
        seventh(level, bounds, 5),
        seventh(level, bounds, 6),
    ]
}

// The boxes of a node's entries, and how many they are. A node to which something comes that is kept is full;
// others have one entry, but for those on the way to the object, which have what is kept beside it.
fn parts(level: u8, bounds: [i32; 4]) -> ([[i32; 4]; 4], usize) {
    if bounds == TAKEN {
        let [x, y] = kept_of(level);
        return ([bounds, [x, y, x, y], bounds, bounds], 2);
    }
    if is_sought(level, bounds) {
        return (sevenths(level, bounds), 4);
    }
    ([bounds; 4], 1)
}

// What is kept of a level.
fn kept_of(level: u8) -> [i32; 2] {
    match KEPT.get(usize::from(level)) {
        Some(&kept) => kept,
        None => [0, 0],
    }
}

// An entry for a node of the level, with that box: above the leaves of a node that is still to be written.
fn entry_for(
    cache: &mut Cache,
    jobs: &mut Vec<Job>,
    level: u8,
    bounds: [i32; 4],
) -> Result<Entry<2>, Fault>
    ensures { IfOk result (λ e. IsOfLevel level e.reference e.tag) }
{
    if level == 0 {
        return Ok(object(0, bounds));
    }
    let page = cache.allocate()?;
    jobs.push(Job {
        page,
        level: level - 1,
        bounds,
    })?;
    Ok(Entry {
        bounds: object(0, bounds).bounds,
        reference: u64::from(page),
        tag: 0,
    })
}

// Writes a node of one entry.
fn write_one(cache: &mut Cache, page: u32, level: u8, entry: &Entry<2>) -> Result<(), Fault>
    requires { IsOfLevel level entry.now.reference entry.now.tag }
{
    let mut entries = ArrayVec::new();
    entries.push(*entry);
    write_node(cache, page, &Node { level, entries })
}

// Writes a node.
fn write(cache: &mut Cache, jobs: &mut Vec<Job>, job: Job) -> Result<(), Fault> {
    let (boxes, count) = parts(job.level, job.bounds);
    for (at, &bounds) in boxes.iter().take(count).enumerate() {
        let entry = entry_for(cache, jobs, job.level, bounds)?;
        if at == 0 {
            write_one(cache, job.page, job.level, &entry)?;
        } else {
            add_entry(cache, job.page, job.level, &entry, 4)?;
        }
    }
    Ok(())
}

// Writes the tree into a cache without pages.
fn build(cache: &mut Cache, alloc: Global) -> Result<(), Fault> {
    let mut jobs = Vec::new(alloc);
    let page = cache.allocate()?;
    jobs.push(Job {
        page,
        level: ROOT.level,
        bounds: ALL,
    })?;
    for _ in 0..NODES {
        let Some(job) = jobs.pop() else {
            break;
        };
        write(cache, &mut jobs, job)?;
    }
    Ok(())
}

// The device of a file that has the tree.
fn file(alloc: Global) -> Result<MemoryDevice, Fault> {
    let mut cache = bare(alloc)?;
    let built = build(&mut cache, alloc);
    match cache.close() {
        Ok(device) => match built {
            Ok(()) => Ok(device),
            Err(fault) => Err(fault),
        },
        Err((fault, _)) => Err(fault),
    }
}

// Removes the object in a cache of eight pages, with all growths of the removal from a number on refused.
// Answers the level of the root, or 0 where that was refused and no page was touched.
fn removed(alloc: Global, growths: u32) -> Result<u8, Fault> {
    let heap = Refusing::new(alloc);
    let pages = Refusing::new(alloc);
    let mut cache: PageCache<MemoryDevice, &Refusing<Global>> = open_cache(&pages, file(alloc)?)?;
    let root = checked(ROOT)?;
    cache.begin_change()?;
    heap.refuse_from(growths);
    let answer = remove(&heap, &mut cache, root, &object(0, TAKEN), FOUR);
    let is_refused = heap.relent();
    match answer {
        Ok(root) => Ok(root.level),
        Err(Fault::Memory) if is_refused && !cache.is_touched() => Ok(0),
        Err(fault) => Err(fault),
    }
}

// The level of the root once no growth is refused any more, and whether some were.
fn risen(alloc: Global) -> Result<(u8, bool), Fault> {
    for growths in 0..100 {
        let level = removed(alloc, growths)?;
        if level > 0 {
            return Ok((level, growths > 0));
        }
    }
    Ok((0, true))
}

#[test]
fn the_root_rises_twice_and_no_growth_is_refused_behind_a_write(rt: HostRuntime) {
    let answer = risen(rt.alloc());
    assert!(rt; answer == Ok((ROOT.level + 2, true)), "{answer:?}");
}
