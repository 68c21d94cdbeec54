//! Worked rows: small trees made by insertion or loaded, by their leaves, their answers and their looks, and
//! what removals leave of a tree in a file.

use crate::boxes::{is_whole, point};
use crate::calls::{FOUR, insert_tree, load_tree};
use crate::scenes::{LINE, Points, file_with, objects_of, open_cache};
use crate::steps::Step::{
    Child, FreePages, FreeTree, IsTouched, Leaves, Level, Nearest, Remove, RemoveAll, StandsAt,
    Window,
};
use crate::steps::{Answer, Steps, play};
use bulk_load::load;
use node_page::{Entry, Root, read_node};
use page_file::Fault;
use std::alloc::Global;
use test_caches::{Cache, bare};

// How a tree is made: by insertions of points one after the other, or of points that are loaded, or of so
// many objects in one point that are loaded.
#[derive(Clone, Copy)]
enum Made {
    Inserted(Points),
    Loaded(Points),
    Stacked(u64),
}

// A test: what it is of, how the tree is made, and the steps on it.
type Row = (&'static str, Made, Steps);

const ROWS: [Row; 9] = [
    (
        "ties are split on the first axis",
        Made::Inserted(LINE),
        &[
            (Leaves(&[&[1, 2], &[3, 4, 5]]), Ok(2)),
            (Window([10, 0, 10, 0], &[5]), Ok(2)),
            (Window([0, 0, 10, 0], &[1, 2, 3, 4, 5]), Ok(3)),
        ],
    ),
    (
        "a first overflow takes out the farthest",
        Made::Inserted(&[
            (1, 0, 0),
            (2, 2, 2),
            (3, 100, 100),
            (4, 102, 102),
            (5, 104, 100),
            (6, 60, 60),
            (7, 42, 42),
            (8, 103, 101),
        ]),
        &[
            (Leaves(&[&[1, 2, 7, 6], &[3, 4, 5, 8]]), Ok(2)),
            (Window([60, 60, 60, 60], &[6]), Ok(2)),
            (Window([0, 0, 104, 102], &[1, 2, 3, 4, 5, 6, 7, 8]), Ok(3)),
        ],
    ),
    (
        "a second overflow splits",
        Made::Inserted(&[
            (1, 0, 0),
            (2, 1, 0),
            (3, 2, 0),
            (4, 3, 0),
            (5, 10, 0),
            (6, 11, 0),
            (7, 4, 0),
            (8, 5, 0),
        ]),
        &[
            (Leaves(&[&[1, 2], &[3, 4, 5], &[7, 8, 6]]), Ok(3)),
            (Window([6, 0, 12, 0], &[5, 6]), Ok(3)),
        ],
    ),
    (
        "equal distances go by identifier",
        Made::Inserted(&[(9, 5, 0), (4, 0, 5), (7, -5, 0), (2, 0, -5), (5, 3, 4)]),
        &[
            (Leaves(&[&[2, 7], &[9, 5, 4]]), Ok(2)),
            (Nearest([0, 0], 3, &[(2, 25), (4, 25), (5, 25)]), Ok(3)),
        ],
    ),
    (
        "leaves at one distance are both looked at",
        Made::Inserted(&[(8, -5, 0), (9, -6, 0), (1, 5, 0), (2, 6, 0), (3, 7, 0)]),
        &[
            (Leaves(&[&[9, 8], &[1, 2, 3]]), Ok(2)),
            (Nearest([0, 0], 1, &[(1, 25)]), Ok(3)),
        ],
    ),
    (
        "a packed line has leaves of three and two",
        Made::Loaded(LINE),
        &[
            (Leaves(&[&[1, 2, 3], &[4, 5]]), Ok(2)),
            (Window([10, 0, 10, 0], &[5]), Ok(2)),
        ],
    ),
    (
        // Nine points (x, y), x and y from 0 to 2, by x and then y.
        "nine points make a root over three leaves",
        Made::Loaded(NINE),
        &[
            (StandsAt(Root { page: 6, level: 1 }), Ok(1)),
            (Leaves(&[&[1, 4, 2], &[5, 3], &[6, 7, 8, 9]]), Ok(3)),
            (Child(0, [0, 0, 1, 1]), Ok(3)),
            (Child(2, [1, 0, 2, 2]), Ok(3)),
        ],
    ),
    (
        "no objects make an empty leaf",
        Made::Loaded(&[]),
        &[
            (StandsAt(Root { page: 3, level: 0 }), Ok(1)),
            (Leaves(&[&[]]), Ok(1)),
        ],
    ),
    (
        "a hundred objects in one point make four levels",
        Made::Stacked(100),
        &[(Level, Ok(3)), (Leaves(&[]), Ok(25))],
    ),
];

const NINE: Points = &[
    (1, 0, 0),
    (2, 0, 1),
    (3, 0, 2),
    (4, 1, 0),
    (5, 1, 1),
    (6, 1, 2),
    (7, 2, 0),
    (8, 2, 1),
    (9, 2, 2),
];

// The objects of a tree.
fn objects_for(alloc: Global, made: Made) -> Result<Vec<Entry<2>>, Fault> {
    match made {
        Made::Inserted(points) | Made::Loaded(points) => objects_of(alloc, points),
        Made::Stacked(count) => stack(alloc, count),
    }
}

// So many objects in one point.
fn stack(alloc: Global, count: u64) -> Result<Vec<Entry<2>>, Fault> {
    let mut objects = Vec::new(alloc);
    for reference in 0..count {
        objects.push(point(reference, 0, 0))?;
    }
    Ok(objects)
}

// Makes a tree of the objects, which may be in another order then.
fn make(
    cache: &mut Cache,
    alloc: Global,
    made: Made,
    objects: &mut [Entry<2>],
) -> Result<Root, Fault> {
    match made {
        Made::Inserted(_) => insert_tree(cache, alloc, objects, FOUR),
        Made::Loaded(_) | Made::Stacked(_) => load_tree(cache, alloc, objects, FOUR),
    }
}

// What came of a row: whether the tree has its shape and its objects, and the first other answer of a step.
type Played = (bool, Option<(usize, Answer)>);

// Makes a tree in a cache, and takes the steps on it.
fn make_and_play(
    cache: &mut Cache,
    alloc: Global,
    made: Made,
    steps: Steps,
) -> Result<Played, Fault> {
    let mut objects = objects_for(alloc, made)?;
    let root = make(cache, alloc, made, objects.as_mut_slice())?;
    objects.sort_unstable_by_key(|object| object.reference);
    let whole = is_whole(cache, alloc, root, objects.as_slice(), FOUR)?;
    Ok((whole, play(cache, alloc, root, steps)))
}

// The same of a new cache.
fn played(alloc: Global, made: Made, steps: Steps) -> Result<Played, Fault> {
    let mut cache = bare(alloc)?;
    make_and_play(&mut cache, alloc, made, steps)
}

#[test]
fn trees_have_their_leaves_and_their_answers(rt: HostRuntime) {
    for (about, made, steps) in ROWS {
        assert_eq!(rt;
            played(rt.alloc(), made, steps),
            Ok((true, None)),
            "{about}"
        );
    }
}

// The root of the tree of five points on a line, which was made by insertions.
const FIVE: Root = Root { page: 5, level: 1 };

// Steps on that tree, in a cache over its file.
const REMOVALS: [(&'static str, Steps); 5] = [
    (
        "pages of a tree are free, the root first",
        &[(FreeTree, Ok(1)), (FreePages(&[5, 4, 3]), Ok(3))],
    ),
    (
        "a leaf of one entry leaves, and the root gives way",
        &[
            (Remove(1, 0, 0), Ok(0)),
            (Leaves(&[&[3, 4, 5, 2]]), Ok(1)),
            (FreePages(&[]), Ok(2)),
        ],
    ),
    (
        "the box above a leaf that stays is made least",
        &[
            (Remove(5, 10, 0), Ok(1)),
            (StandsAt(FIVE), Ok(1)),
            (Leaves(&[&[1, 2], &[3, 4]]), Ok(2)),
            (Child(1, [2, 0, 3, 0]), Ok(2)),
        ],
    ),
    (
        "an object that is not there changes nothing",
        &[
            (Remove(9, 0, 0), Err(Fault::Damaged(5))),
            (IsTouched, Ok(0)),
            (Remove(1, 1, 0), Err(Fault::Damaged(5))),
            (IsTouched, Ok(0)),
            (Remove(1, 0, 1), Err(Fault::Damaged(5))),
            (IsTouched, Ok(0)),
            (Leaves(&[&[1, 2], &[3, 4, 5]]), Ok(2)),
        ],
    ),
    (
        "the room serves one removal after the other",
        &[
            (RemoveAll(&[(1, 0, 0), (4, 3, 0)]), Ok(0)),
            (Leaves(&[&[3, 5, 2]]), Ok(1)),
        ],
    ),
];

// The first other answer of steps on the tree of five points.
fn played_again(alloc: Global, steps: Steps) -> Result<Option<(usize, Answer)>, Fault> {
    let mut cache = open_cache(alloc, file_with(alloc, LINE)?)?;
    Ok(play(&mut cache, alloc, FIVE, steps))
}

#[test]
fn removals_leave_what_they_must(rt: HostRuntime) {
    for (about, steps) in REMOVALS {
        assert_eq!(rt; played_again(rt.alloc(), steps), Ok(None), "{about}");
    }
}

// Whether no objects of three axes make an empty leaf.
fn loads_nothing(cache: &mut Cache, alloc: Global) -> Result<bool, Fault> {
    let mut entries: [Entry<3>; 0] = [];
    cache.begin_change()?;
    let root = load(alloc, cache, &mut entries, FOUR)?;
    let leaf = read_node::<3, _, _>(cache, 3, 0)?;
    Ok(root == Root { page: 3, level: 0 } && leaf.entries.is_empty())
}

// The same of a new cache.
fn nothing_is_loaded(alloc: Global) -> Result<bool, Fault> {
    let mut cache = bare(alloc)?;
    loads_nothing(&mut cache, alloc)
}

#[test]
fn no_objects_of_three_axes_make_an_empty_leaf(rt: HostRuntime) {
    assert_eq!(rt; nothing_is_loaded(rt.alloc()), Ok(true));
}
