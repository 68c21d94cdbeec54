//! Trees with damage, and calls that survive it.

use crate::changes::{Call, add_together, change_at, give_up, look};
use Change::{Head, Nothing};
use Page::{Fork, FullOf, Leaf, Second, Zeros};
use block_bytes::{write_head, write_u8, write_u32, write_u64};
use block_device::MemoryDevice;
use box_math::BBox;
use id_tree::LeafPlace;
use node_page::Entry;
use page_file::Fault;
use std::alloc::Global;
use std::test::Fail;
use test_caches::{Cache, cache_of};

// A page as it is written.
#[derive(Clone, Copy)]
enum Page {
    // A fork of that level with children of these keys and these pages.
    Fork(u8, [u64; 3], [u32; 3]),
    // The root with another second child: its key and its page.
    Second(u64, u32),
    // A leaf with the identifier of its first object, and so many objects: their identifiers follow one
    // another, their boxes are the point 0, 0, and their tags 5 and so on.
    Leaf(u64, u16),
    // A full leaf in which each object has the same identifier.
    FullOf(u64),
    Zeros,
}

// What is written over a page.
#[derive(Clone, Copy)]
enum Change {
    Nothing,
    // Another kind, dimension and count.
    Head(u8, u8, u16),
}

fn fork(level: u8, keys: [u64; 3], children: [u32; 3]) -> [u8; 4096] {
    let mut page = [0; 4096];
    write_head(&mut page, 8, 2, 3);
    write_u8(&mut page, 4, level);
    for k in 0..3 {
        write_u64(&mut page, 16 + 12 * k, keys[k]);
        write_u32(&mut page, 24 + 12 * k, children[k]);
    }
    page
}

// The identifier of each next object is so much more.
fn leaf(first: u64, count: u16, apart: u64) -> [u8; 4096] {
    let mut page = [0; 4096];
    write_head(&mut page, 9, 2, count);
    for place in 0..count.min(145) {
        let at = 16 + 28 * usize::from(place);
        let id = first.wrapping_add(apart.wrapping_mul(u64::from(place)));
        write_u64(&mut page, at, id);
        write_u32(&mut page, at + 24, 5 + u32::from(place));
    }
    page
}

fn bytes_of(page: Page) -> [u8; 4096] {
    match page {
        Page::Fork(level, keys, children) => fork(level, keys, children),
        Page::Second(key, child) => fork(1, [0, key, 200], [4, child, 6]),
        Page::Leaf(first, count) => leaf(first, count, 1),
        Page::FullOf(id) => leaf(id, 145, 0),
        Page::Zeros => [0; 4096],
    }
}

fn write_over(page: &mut [u8; 4096], change: Change) {
    match change {
        Change::Nothing => {}
        Change::Head(kind, dims, count) => write_head(page, kind, dims, count),
    }
}

// Pages 3 to 7: the root, its three leaves, and a page of zeros.
const ROOT: Page = Page::Fork(1, [0, 100, 200], [4, 5, 6]);

const SCENE: [Page; 5] = [
    ROOT,
    Page::Leaf(10, 40),
    Page::Leaf(100, 40),
    Page::Leaf(200, 2),
    Page::Zeros,
];

// A damage: what it is, the page that is another one, and what is written over it.
type Damage = (&'static str, usize, Page, Change);

// No page is another one.
const NONE: Damage = ("nothing", 0, Page::Zeros, Change::Nothing);

// The scene with a damage.
fn scene(alloc: Global, damage: &Damage) -> Result<Cache, Fault> {
    let mut pages = [[0; 4096]; 5];
    for (place, bytes) in pages.iter_mut().enumerate() {
        *bytes = bytes_of(SCENE[place]);
        if place + 3 == damage.1 {
            *bytes = bytes_of(damage.2);
            write_over(bytes, damage.3);
        }
    }
    cache_of(alloc, MemoryDevice::new(alloc), pages.as_slice())
}

// A call of the table, by an identifier.
#[derive(Clone, Copy)]
enum Attempt {
    // A change in the place that a search found before the page was damaged.
    InPlace(Call),
    // A change in no place, from where it walks down from the root.
    Nowhere(Call),
    Find,
    Fill,
    FreeAll,
}

const ATTEMPTS: [Attempt; 9] = [
    Attempt::InPlace(Call::Update),
    Attempt::InPlace(Call::Add),
    Attempt::InPlace(Call::Remove),
    Attempt::Nowhere(Call::Update),
    Attempt::Nowhere(Call::Add),
    Attempt::Nowhere(Call::Remove),
    Attempt::Find,
    Attempt::Fill,
    Attempt::FreeAll,
];

// An identifier of the middle leaf, and its tag.
const ID: u64 = 120;

const TAG: u32 = 25;

const NOWHERE: LeafPlace = LeafPlace { leaf: 0, place: 0 };

// The point at 1, 1.
fn one() -> Result<BBox<2>, Fault> {
    BBox::try_new([1, 1], [1, 1]).ok_or(Fault::Memory)
}

fn change_one(cache: &mut Cache, call: Call, at: LeafPlace) -> Result<LeafPlace, Fault> {
    change_at(cache, call, at, ID, &one()?, TAG)?;
    Ok(at)
}

fn place_of(cache: &mut Cache) -> Result<LeafPlace, Fault> {
    let (at, _) = look::<2, _, _>(cache, ID)?;
    Ok(at)
}

fn add_two(cache: &mut Cache) -> Result<LeafPlace, Fault> {
    let one = one()?;
    let entries = [
        Entry {
            bounds: one,
            reference: ID,
            tag: 1,
        },
        Entry {
            bounds: one,
            reference: 7,
            tag: 2,
        },
    ];
    add_together(cache, &entries)?;
    Ok(NOWHERE)
}

fn free(cache: &mut Cache) -> Result<LeafPlace, Fault> {
    give_up(cache)?;
    Ok(NOWHERE)
}

// Makes the call on the scene with a damage, where a search found a place before. A search answers its place.
fn make_attempt(
    alloc: Global,
    damage: &Damage,
    attempt: Attempt,
    found: LeafPlace,
) -> Result<Result<LeafPlace, Fault>, Fault> {
    let mut cache = scene(alloc, damage)?;
    Ok(match attempt {
        Attempt::InPlace(call) => change_one(&mut cache, call, found),
        Attempt::Nowhere(call) => change_one(&mut cache, call, NOWHERE),
        Attempt::Find => place_of(&mut cache),
        Attempt::Fill => add_two(&mut cache),
        Attempt::FreeAll => free(&mut cache),
    })
}

// Whether a call succeeded or named a page that is damaged.
fn is_survived(answer: Result<LeafPlace, Fault>) -> bool {
    match answer {
        Ok(_) => true,
        Err(Fault::Damaged(page)) => 2 <= page && page < 20,
        Err(_) => false,
    }
}

// The first call that does not end so: the damage, and the place of the call.
fn first_unsurvived(
    alloc: Global,
    damages: &[Damage],
) -> Result<Option<(&'static str, usize)>, Fault> {
    let found = make_attempt(alloc, &NONE, Attempt::Find, NOWHERE)??;
    for damage in damages {
        for (place, &attempt) in ATTEMPTS.iter().enumerate() {
            if !is_survived(make_attempt(alloc, damage, attempt, found)?) {
                return Ok(Some((damage.0, place)));
            }
        }
    }
    Ok(None)
}

const SURVIVED_FORKS: &[Damage] = &[
    ("another dimension", 3, ROOT, Head(8, 3, 3)),
    ("too many children", 3, ROOT, Head(8, 2, 341)),
    ("as many as fit", 3, ROOT, Head(8, 2, 340)),
    ("no children", 3, ROOT, Head(8, 2, 0)),
    ("itself as a child", 3, Second(100, 3), Nothing),
    (
        "itself below a high level",
        3,
        Fork(255, [0, 100, 200], [4, 3, 6]),
        Nothing,
    ),
    ("a page past the last", 3, Second(100, 8), Nothing),
    (
        "keys that descend",
        3,
        Fork(1, [0, 200, 100], [4, 5, 6]),
        Nothing,
    ),
];

const SURVIVED_LEAVES: &[Damage] = &[
    ("no objects", 5, Leaf(100, 0), Nothing),
    ("one object", 5, Leaf(120, 1), Nothing),
    ("too many objects", 5, Leaf(100, 146), Nothing),
    ("a full leaf of one identifier", 5, FullOf(120), Nothing),
    ("zeros", 5, Zeros, Nothing),
];

#[test]
fn calls_survive_damages(rt: HostRuntime) -> Result<(), Fail> {
    for (subject, damages) in [("a fork", SURVIVED_FORKS), ("a leaf", SURVIVED_LEAVES)] {
        assert_eq!(rt; first_unsurvived(rt.alloc(), damages)?, None, "{subject}");
    }
    Ok(())
}
