//! Tests of a few calls each, as tables of steps with their answers, over files whose pages 3 and so on are
//! written by hand.

use crate::found::Asked::{Around, Inside, Point, Window};
use crate::pages::Page::{self, Node, Old};
use crate::pages::{Row, scene};
use crate::steps::Step::{
    Add, Ask, Begins, Check, Join, Leaves, Looks, Nearest, NodeInSpace, Outline, Put, View, Write,
};
use crate::steps::{Answer, DONE, Step, Steps, play};
use node_page::Root;
use page_file::Fault::{self, Damaged};
use refusing::Refusing;
use std::alloc::Global;

// A test: what it is of, the pages of the file, and the steps.
type Script = (&'static str, &'static [Page], Steps);

// The first other answer of a script.
fn played(alloc: Global, pages: &[Page], steps: Steps) -> Result<Option<(usize, Answer)>, Fault> {
    let mut cache = scene(alloc, pages)?;
    let heap = Refusing::new(alloc);
    Ok(play(&mut cache, &heap, steps))
}

#[test]
fn trees_in_pages_are_as_they_are_written(rt: HostRuntime) {
    for scripts in [NODES, CHECKS, RANGES, SEARCHES] {
        for &(about, pages, steps) in scripts {
            assert_eq!(rt; played(rt.alloc(), pages, steps), Ok(None), "{about}");
        }
    }
}

// The root of a tree of two leaves in pages 3 and 4.
const FIVE: Root = Root { page: 5, level: 1 };

// The same page, as a root one level too high.
const HIGH: Root = Root { page: 5, level: 2 };

// A leaf as a root.
const LEAF: Root = Root { page: 3, level: 0 };

// Objects at one point.
const SEVEN: Row = (7, [-1, 2, -1, 2], 6);

const OTHER: Row = (5, [-1, 2, -1, 2], 6);

// One that is added to them, and the box round all.
const NINE: Row = (9, [4, 4, 5, 6], 8);

const ROUND: Option<[i32; 4]> = Some([-1, 2, 5, 6]);

// A leaf of three such objects.
const THREE: &[Row] = &[
    (u64::MAX, [-1, 2, -1, 2], 6),
    (0, [-1, 2, -1, 2], 6),
    (6, [-1, 2, -1, 2], 6),
];

// A root that refers to pages 3 and 4.
const OVER: &[Row] = &[(3, [0, 0, 0, 1], 0), (4, [2, 2, 3, 2], 0)];

// Pages of which 3, 4 and 6 become leaves of two objects, of three and of none by steps.
const BARE: &[Page] = &[Node(1, OVER); 4];

const NODES: &[Script] = &[
    (
        "a node is written and read",
        BARE,
        &[
            (Write(3, &[SEVEN, OTHER]), DONE),
            (Write(4, THREE), DONE),
            (Write(6, &[]), DONE),
            (Step::Node(3, 0, &[SEVEN, OTHER]), Ok(1)),
            (Step::Node(6, 0, &[]), Ok(1)),
            (Step::Node(5, 1, OVER), Ok(1)),
            (Looks, Ok(3)),
        ],
    ),
    (
        "an entry is added where there is room and an entry",
        BARE,
        &[
            (Write(3, &[SEVEN, OTHER]), DONE),
            (Write(4, THREE), DONE),
            (Write(6, &[]), DONE),
            (Add(3, NINE, ROUND), DONE),
            (Step::Node(3, 0, &[SEVEN, OTHER, NINE]), Ok(1)),
            (Add(4, NINE, None), DONE),
            (Add(6, NINE, None), DONE),
            (Add(5, NINE, None), Err(Damaged(5))),
        ],
    ),
    (
        "an old leaf that gets an entry becomes one with tags",
        &[Old(&[SEVEN, OTHER])],
        &[
            (
                Step::Node(3, 0, &[(7, [-1, 2, -1, 2], 0), (5, [-1, 2, -1, 2], 0)]),
                Ok(1),
            ),
            (Add(3, NINE, ROUND), DONE),
            (
                Step::Node(
                    3,
                    0,
                    &[(7, [-1, 2, -1, 2], 0), (5, [-1, 2, -1, 2], 0), NINE],
                ),
                Ok(1),
            ),
            (Begins(3, 6), Ok(1)),
        ],
    ),
    (
        "a page that is no such node is damaged",
        BARE,
        &[
            (Write(3, &[SEVEN, OTHER]), DONE),
            (Write(7, &[(1, [-1, 2, -1, 2], 6)]), Err(Damaged(7))),
            (Step::Node(3, 1, &[]), Err(Damaged(3))),
            (Step::Node(5, 0, &[]), Err(Damaged(5))),
            (Step::Node(5, 2, &[]), Err(Damaged(5))),
            (Step::Node(2, 0, &[]), Err(Damaged(2))),
            (Step::Node(7, 0, &[]), Err(Damaged(7))),
            (Step::Node(1, 0, &[]), Err(Damaged(1))),
            (NodeInSpace(3), Err(Damaged(3))),
        ],
    ),
    (
        "leaves are listed from left to right",
        BARE,
        &[
            (Write(3, &[SEVEN, OTHER]), DONE),
            (Write(4, THREE), DONE),
            (Write(6, &[]), DONE),
            (Leaves(FIVE, &[&[7, 5], &[u64::MAX, 0, 6]]), Ok(3)),
            (
                Leaves(Root { page: 4, level: 0 }, &[&[u64::MAX, 0, 6]]),
                Ok(1),
            ),
            (Leaves(Root { page: 6, level: 0 }, &[&[]]), Ok(1)),
        ],
    ),
    (
        "leaves of no tree are damaged",
        &[Node(0, &[SEVEN, OTHER]), Node(0, THREE), Node(2, OVER)],
        &[(Leaves(HIGH, &[]), Err(Damaged(3)))],
    ),
];

// Two leaves of two objects, and their root, whose tags stand for nothing.
const FIRST: &[Row] = &[(7, [0, 0, 1, 1], 5), (5, [2, 2, 3, 3], 6)];

const SECOND: &[Row] = &[(1, [10, 0, 10, 0], 5), (2, [12, 5, 13, 5], 6)];

const LEFT: Row = (3, [0, 0, 3, 3], 5);

const RIGHT: Row = (4, [10, 0, 13, 5], 6);

const BOTH: Page = Node(1, &[LEFT, RIGHT]);

const CHECKED: &[Page] = &[Node(0, FIRST), Node(0, SECOND), BOTH];

// What a check of a damaged tree is told to find.
const NO_PAGES: &[u32] = &[];

const CHECKS: &[Script] = &[
    (
        "a tree that stands has its objects and pages",
        CHECKED,
        &[(
            Check(
                FIVE,
                &[5, 3, 4],
                &[
                    (7, [0, 0, 1, 1], 5),
                    (5, [2, 2, 3, 3], 6),
                    (1, [10, 0, 10, 0], 5),
                    (2, [12, 5, 13, 5], 6),
                ],
            ),
            Ok(3),
        )],
    ),
    (
        "objects of an old leaf have the tag 0",
        &[Old(FIRST), Node(0, SECOND), BOTH],
        &[(
            Check(
                FIVE,
                &[5, 3, 4],
                &[
                    (7, [0, 0, 1, 1], 0),
                    (5, [2, 2, 3, 3], 0),
                    (1, [10, 0, 10, 0], 5),
                    (2, [12, 5, 13, 5], 6),
                ],
            ),
            Ok(3),
        )],
    ),
    (
        "each damage is found",
        CHECKED,
        &[
            // A child that is its parent.
            (Put(5, Node(1, &[LEFT, (5, [10, 0, 13, 5], 6)])), DONE),
            (Check(FIVE, NO_PAGES, &[]), Err(Damaged(5))),
            // A page twice.
            (Put(5, Node(1, &[LEFT, LEFT])), DONE),
            (Check(FIVE, NO_PAGES, &[]), Err(Damaged(3))),
            // A box that is too large, and one that is too small.
            (Put(5, Node(1, &[(3, [0, 0, 4, 3], 5), RIGHT])), DONE),
            (Check(FIVE, NO_PAGES, &[]), Err(Damaged(3))),
            (Put(5, Node(1, &[(3, [0, 0, 2, 3], 5), RIGHT])), DONE),
            (Check(FIVE, NO_PAGES, &[]), Err(Damaged(3))),
            // A root with one child.
            (Put(5, Node(1, &[LEFT])), DONE),
            (Check(FIVE, NO_PAGES, &[]), Err(Damaged(5))),
            // A page past the last.
            (Put(5, Node(1, &[LEFT, (6, [10, 0, 13, 5], 6)])), DONE),
            (Check(FIVE, NO_PAGES, &[]), Err(Damaged(6))),
            (Put(5, BOTH), DONE),
            // A leaf of one object, and one of five.
            (Put(3, Node(0, &[(7, [0, 0, 3, 3], 5)])), DONE),
            (Check(FIVE, NO_PAGES, &[]), Err(Damaged(3))),
            (Put(3, Node(0, &[(7, [0, 0, 3, 3], 5); 5])), DONE),
            (Check(FIVE, NO_PAGES, &[]), Err(Damaged(3))),
            // A node in the place of a leaf.
            (Put(3, BOTH), DONE),
            (Check(FIVE, NO_PAGES, &[]), Err(Damaged(3))),
        ],
    ),
    (
        "a root of another level is damaged",
        CHECKED,
        &[
            (
                Check(Root { page: 5, level: 0 }, NO_PAGES, &[]),
                Err(Damaged(5)),
            ),
            (Check(HIGH, NO_PAGES, &[]), Err(Damaged(5))),
            (
                Check(Root { page: 5, level: 41 }, NO_PAGES, &[]),
                Err(Damaged(5)),
            ),
            (
                Check(Root { page: 3, level: 1 }, NO_PAGES, &[]),
                Err(Damaged(3)),
            ),
            (
                Check(Root { page: 2, level: 0 }, NO_PAGES, &[]),
                Err(Damaged(2)),
            ),
            (
                Check(Root { page: 6, level: 0 }, NO_PAGES, &[]),
                Err(Damaged(6)),
            ),
            (
                Check(Root { page: 1, level: 1 }, NO_PAGES, &[]),
                Err(Damaged(1)),
            ),
            // A root that is higher, over the same leaves.
            (Put(5, Node(2, &[LEFT, RIGHT])), DONE),
            (Check(HIGH, NO_PAGES, &[]), Err(Damaged(3))),
        ],
    ),
    (
        "a view is lent in one look",
        CHECKED,
        &[
            (View(4, 0, 2), Ok(1)),
            (View(4, 1, 0), Err(Damaged(4))),
            (Looks, Ok(2)),
        ],
    ),
];

// Points on a line, with the tags 4, 7, 4, 2^32 - 1 and 7.
const P1: Row = (1, [0, 0, 0, 0], 4);

const P2: Row = (2, [1, 0, 1, 0], 7);

const P3: Row = (3, [2, 0, 2, 0], 4);

const P4: Row = (4, [3, 0, 3, 0], u32::MAX);

const P5: Row = (5, [10, 0, 10, 0], 7);

// Leaves of two and three of them, and their root.
const LINE: &[Page] = &[Node(0, &[P2, P1]), Node(0, &[P5, P4, P3]), ABOVE];

const ABOVE: Page = Node(1, &[(3, [0, 0, 1, 0], 0), (4, [2, 0, 10, 0], 0)]);

// The same, where the left leaf is a page of format 1.
const OLD_LINE: &[Page] = &[Old(&[P2, P1]), Node(0, &[P5, P4, P3]), ABOVE];

const OLD1: Row = (1, [0, 0, 0, 0], 0);

const OLD2: Row = (2, [1, 0, 1, 0], 0);

const ALL: [i32; 4] = [0, 0, 10, 0];

const LAST: [i32; 4] = [10, 0, 10, 0];

const RANGES: &[Script] = &[
    (
        "only admitted nodes are looked at",
        LINE,
        &[
            (Ask(FIVE, Window(LAST), None, &[P5]), Ok(2)),
            (Ask(FIVE, Window(ALL), None, &[P1, P2, P3, P4, P5]), Ok(3)),
            (Ask(FIVE, Inside([1, 0, 2, 0]), None, &[P2, P3]), Ok(3)),
            (Ask(FIVE, Around(LAST), None, &[P5]), Ok(2)),
            (Ask(FIVE, Point([0, 1]), None, &[]), Ok(1)),
        ],
    ),
    (
        "only objects that have the tag are answered",
        LINE,
        &[
            (Ask(FIVE, Window(ALL), Some(7), &[P2, P5]), Ok(3)),
            (Ask(FIVE, Window(ALL), Some(4), &[P1, P3]), Ok(3)),
            (Ask(FIVE, Window(ALL), Some(u32::MAX), &[P4]), Ok(3)),
            (Ask(FIVE, Window(ALL), Some(0), &[]), Ok(3)),
            (Ask(FIVE, Inside([1, 0, 3, 0]), Some(4), &[P3]), Ok(3)),
            (Ask(FIVE, Inside([1, 0, 3, 0]), Some(7), &[P2]), Ok(3)),
            (Ask(FIVE, Around(LAST), Some(7), &[P5]), Ok(2)),
            (Ask(FIVE, Around(LAST), Some(4), &[]), Ok(2)),
            (Ask(FIVE, Point([2, 0]), Some(4), &[P3]), Ok(2)),
            (Ask(FIVE, Point([2, 0]), Some(7), &[]), Ok(2)),
        ],
    ),
    (
        "objects of an old leaf have the tag 0",
        OLD_LINE,
        &[
            (
                Ask(FIVE, Window(ALL), None, &[OLD1, OLD2, P3, P4, P5]),
                Ok(3),
            ),
            (Ask(FIVE, Window(ALL), Some(0), &[OLD1, OLD2]), Ok(3)),
            (Ask(FIVE, Window(ALL), Some(7), &[P5]), Ok(3)),
            (Ask(FIVE, Window(ALL), Some(4), &[P3]), Ok(3)),
        ],
    ),
    (
        "pages of no tree are damaged where they are come to",
        &[
            Node(0, &[]),
            Node(0, &[]),
            Node(1, &[(5, [0, 0, 1, 1], 0), (4, [7, 7, 8, 8], 0)]),
        ],
        &[
            (Ask(FIVE, Window([0, 0, 1, 1]), None, &[]), Err(Damaged(5))),
            (
                Ask(FIVE, Window([0, 0, 1, 1]), Some(3), &[]),
                Err(Damaged(5)),
            ),
            (Ask(FIVE, Window([2, 2, 3, 3]), None, &[]), Ok(1)),
        ],
    ),
];

const MIN: i32 = i32::MIN;

const MAX: i32 = i32::MAX;

const LOWEST: Row = (3, [MIN, MIN, MIN, MIN], 9);

const HIGHEST: Row = (1, [MAX, MAX, MAX, MAX], 9);

// The objects (0,0) to (1,1) and (1,1) to (2,2), as 1 and 2.
const TOUCHING: Root = Root { page: 3, level: 0 };

// The points (0,0), (1,0), (2,0), (3,0), (10,0), as 1 to 5, in two leaves.
const TALL: Root = Root { page: 6, level: 1 };

const EMPTY: Root = Root { page: 7, level: 0 };

// A root that refers to itself.
const HOSTILE: Root = Root { page: 8, level: 1 };

// The pages of these trees. The tags of their objects make no difference.
const JOINED: &[Page] = &[
    Node(0, &[(2, [1, 1, 2, 2], 8), (1, [0, 0, 1, 1], 9)]),
    Node(0, &[(1, [0, 0, 0, 0], 8), (2, [1, 0, 1, 0], 9)]),
    Node(
        0,
        &[
            (3, [2, 0, 2, 0], 8),
            (4, [3, 0, 3, 0], 9),
            (5, [10, 0, 10, 0], 8),
        ],
    ),
    Node(1, &[(4, [0, 0, 1, 0], 0), (5, [2, 0, 10, 0], 0)]),
    Node(0, &[]),
    Node(1, &[(8, [0, 0, 1, 1], 0)]),
];

// How many pages are looked at by a join of the tall tree with the touching boxes: the roots, and each leaf
// beside the other root, whose box meets both of theirs.
const SIX_AT_MOST: [u64; 2] = [0, 6];

// A tree of two leaves with boxes of some height, and what an outline of it has.
const HIGH_LEFT: Page = Node(0, &[(2, [1, -4, 1, 0], 7), (1, [0, 0, 0, 0], 4)]);

const HIGH_RIGHT: Page = Node(0, &[(5, [10, 0, 10, 3], 7), P4, P3]);

/// The pages of a tree of two leaves, the root last.
pub const OUTLINED: &[Page] = &[
    HIGH_LEFT,
    HIGH_RIGHT,
    Node(1, &[(4, [2, 0, 10, 3], 0), (3, [0, -4, 1, 0], 0)]),
];

/// What an outline of that tree finds.
pub const FOUND: Step = Outline(
    FIVE,
    &[
        (5, 1, 2, Some([0, -4, 10, 3])),
        (4, 0, 3, Some([2, 0, 10, 3])),
        (3, 0, 2, Some([0, -4, 1, 0])),
    ],
);

/// What the leaves of that tree are.
pub const LISTED: Step = Leaves(FIVE, &[&[5, 4, 3], &[2, 1]]);

const SEARCHES: &[Script] = &[
    (
        "fewer objects are all answered",
        &[
            Node(0, &[LOWEST]),
            Node(0, &[HIGHEST]),
            Node(
                1,
                &[(3, [MIN, MIN, MIN, MIN], 0), (4, [MAX, MAX, MAX, MAX], 0)],
            ),
        ],
        &[
            (
                Nearest(FIVE, [MIN, MIN], 10, &[(3, 0), (1, 36893488130239234050)]),
                Ok(3),
            ),
            (Nearest(LEAF, [0, 0], 1, &[(3, 9223372036854775808)]), Ok(1)),
        ],
    ),
    (
        "the nearest in pages of no tree are damaged",
        &[
            Node(0, &[]),
            Node(0, &[]),
            Node(1, &[(3, [0, 0, 1, 1], 0), (4, [0, 0, 1, 1], 0)]),
        ],
        &[
            (Nearest(HIGH, [0, 0], 1, &[]), Err(Damaged(5))),
            (Put(5, Node(1, &[(5, [0, 0, 1, 1], 0)])), DONE),
            (Nearest(FIVE, [0, 0], 1, &[]), Err(Damaged(5))),
        ],
    ),
    (
        "touching boxes are joined",
        JOINED,
        &[(
            Join(
                [TOUCHING, TOUCHING],
                0,
                [2, 2],
                &[(1, 1), (1, 2), (2, 1), (2, 2)],
            ),
            Ok(4),
        )],
    ),
    (
        "trees of different heights are joined",
        JOINED,
        &[
            (
                Join([TALL, TOUCHING], 0, SIX_AT_MOST, &[(1, 1), (2, 1)]),
                Ok(2),
            ),
            (
                Join([TOUCHING, TALL], 0, SIX_AT_MOST, &[(1, 1), (1, 2)]),
                Ok(2),
            ),
        ],
    ),
    (
        // A squared distance of 1 and of 2 of the squares, one of which touches the first two points.
        "boxes that are near are joined",
        JOINED,
        &[
            (
                Join(
                    [TALL, TOUCHING],
                    1,
                    SIX_AT_MOST,
                    &[(1, 1), (2, 1), (2, 2), (3, 1), (3, 2)],
                ),
                Ok(5),
            ),
            (
                Join(
                    [TALL, TOUCHING],
                    2,
                    SIX_AT_MOST,
                    &[(1, 1), (1, 2), (2, 1), (2, 2), (3, 1), (3, 2), (4, 2)],
                ),
                Ok(7),
            ),
            (Join([TALL, TOUCHING], u64::MAX, SIX_AT_MOST, &[]), Ok(10)),
        ],
    ),
    (
        "a tree is joined with itself by its roots, and each leaf with itself",
        JOINED,
        &[(
            Join(
                [TALL, TALL],
                0,
                [6, 6],
                &[(1, 1), (2, 2), (3, 3), (4, 4), (5, 5)],
            ),
            Ok(5),
        )],
    ),
    (
        "an empty root meets nothing",
        JOINED,
        &[
            (Join([TALL, EMPTY], u64::MAX, [0, 2], &[]), Ok(0)),
            (Join([EMPTY, TALL], u64::MAX, [0, 2], &[]), Ok(0)),
            (Join([EMPTY, EMPTY], u64::MAX, [0, 2], &[]), Ok(0)),
        ],
    ),
    (
        "pages of no tree are not joined",
        JOINED,
        &[
            (Join([HOSTILE, TALL], 0, [0, 0], &[]), Err(Damaged(8))),
            (Join([TOUCHING, HOSTILE], 0, [0, 0], &[]), Err(Damaged(8))),
            (Join([HOSTILE, HOSTILE], 0, [0, 0], &[]), Err(Damaged(8))),
        ],
    ),
    (
        "nodes are listed from the root down",
        OUTLINED,
        &[(FOUND, Ok(3)), (LISTED, Ok(3))],
    ),
    (
        "a root without entries has no box",
        &[Node(0, &[])],
        &[(Outline(LEAF, &[(3, 0, 0, None)]), Ok(1))],
    ),
    (
        "pages of no tree have no outline",
        &[
            HIGH_LEFT,
            HIGH_RIGHT,
            Node(1, &[(4, [2, 0, 10, 3], 0), (9, [0, 0, 1, 0], 0)]),
        ],
        &[
            (Outline(FIVE, &[]), Err(Damaged(9))),
            (Outline(HIGH, &[]), Err(Damaged(5))),
        ],
    ),
];
