//! Worked scenes: changes that are made, and what is asked then. What is answered there is shown by
//! tests/worked_rows.py.

use crate::commands::Command;
use layer_store::{RawBox, RawPoint};

/// A command, and how many nodes it looks at, a join at most, where that is told.
pub type Row = (Command<'static>, Option<u64>);

/// Changes that are made, and what is asked then.
#[derive(Clone, Copy)]
pub struct Scene {
    /// The changes.
    pub made: &'static [Command<'static>],
    /// The questions, and commands that are refused.
    pub asked: &'static [Row],
}

/// Two boxes that touch in a point, and commands that are refused.
pub const TOUCHING: Scene = Scene {
    made: &[
        Command::Create(b"a", 2, 4),
        Command::Insert(b"a", 1, RawBox::Two([0, 0], [1, 1])),
        Command::Insert(b"a", 2, RawBox::Two([1, 1], [2, 2])),
    ],
    asked: &[
        (Command::Window(b"a", RawBox::Two([1, 1], [1, 1])), Some(1)),
        (Command::Window(b"a", RawBox::Two([0, 0], [0, 1])), Some(1)),
        (Command::Window(b"a", RawBox::Two([2, 2], [9, 9])), Some(1)),
        (Command::Point(b"a", RawPoint::Two([1, 1])), Some(1)),
        (Command::Inside(b"a", RawBox::Two([0, 0], [1, 1])), Some(1)),
        (Command::Around(b"a", RawBox::Two([1, 1], [2, 2])), Some(1)),
        (Command::Insert(b"a", 1, RawBox::Two([5, 5], [6, 6])), None),
        (Command::Get(b"a", 1), None),
        (Command::Layers, None),
        (Command::Dump, None),
        (Command::Insert(b"a", 3, RawBox::Two([1, 0], [0, 0])), None),
        (
            Command::Insert(b"a", 1, RawBox::Three([1, 1, 1], [0, 0, 0])),
            None,
        ),
        (Command::Count(b"a"), None),
        (Command::Create(b"A", 2, 4), None),
        (Command::Create(b"abcdefghijklmnopqrstuvwxy", 2, 4), None),
        (Command::Create(b"a", 4, 4), None),
        (Command::Create(b"b", 2, 3), None),
        (Command::Create(b"b", 2, 101), None),
        (Command::Create(b"a", 2, 4), None),
        (Command::Window(b"q", RawBox::Two([0, 0], [1, 1])), None),
    ],
};

/// Points on a line: all ties of the split are equal, and the leaves are {1,2} and {3,4,5}.
pub const LINE: Scene = Scene {
    made: &[
        Command::Create(b"l", 2, 4),
        Command::Insert(b"l", 1, RawBox::Two([0, 0], [0, 0])),
        Command::Insert(b"l", 2, RawBox::Two([1, 0], [1, 0])),
        Command::Insert(b"l", 3, RawBox::Two([2, 0], [2, 0])),
        Command::Insert(b"l", 4, RawBox::Two([3, 0], [3, 0])),
        Command::Insert(b"l", 5, RawBox::Two([10, 0], [10, 0])),
    ],
    asked: &[
        (
            Command::Window(b"l", RawBox::Two([10, 0], [10, 0])),
            Some(2),
        ),
        (Command::Window(b"l", RawBox::Two([0, 0], [10, 0])), Some(3)),
    ],
};

/// The first overflow below a root, which inserts object 6 again: the leaves are {1,2,7,6} and {3,4,5,8}.
pub const FIRST_OVERFLOW: Scene = Scene {
    made: &[
        Command::Create(b"r", 2, 4),
        Command::Insert(b"r", 1, RawBox::Two([0, 0], [0, 0])),
        Command::Insert(b"r", 2, RawBox::Two([2, 2], [2, 2])),
        Command::Insert(b"r", 3, RawBox::Two([100, 100], [100, 100])),
        Command::Insert(b"r", 4, RawBox::Two([102, 102], [102, 102])),
        Command::Insert(b"r", 5, RawBox::Two([104, 100], [104, 100])),
        Command::Insert(b"r", 6, RawBox::Two([60, 60], [60, 60])),
        Command::Insert(b"r", 7, RawBox::Two([42, 42], [42, 42])),
        Command::Insert(b"r", 8, RawBox::Two([103, 101], [103, 101])),
    ],
    asked: &[
        (
            Command::Window(b"r", RawBox::Two([60, 60], [60, 60])),
            Some(2),
        ),
        (
            Command::Window(b"r", RawBox::Two([0, 0], [104, 102])),
            Some(3),
        ),
    ],
};

/// Two boxes that touch in a point.
pub const TWO: [Command; 3] = [
    Command::Create(b"a", 2, 4),
    Command::Insert(b"a", 1, RawBox::Two([0, 0], [1, 1])),
    Command::Insert(b"a", 2, RawBox::Two([1, 1], [2, 2])),
];

/// Points on a line, whose leaves are {1,2} and {3,4,5}.
pub const FIVE: [Command; 6] = [
    Command::Create(b"l", 2, 4),
    Command::Insert(b"l", 1, RawBox::Two([0, 0], [0, 0])),
    Command::Insert(b"l", 2, RawBox::Two([1, 0], [1, 0])),
    Command::Insert(b"l", 3, RawBox::Two([2, 0], [2, 0])),
    Command::Insert(b"l", 4, RawBox::Two([3, 0], [3, 0])),
    Command::Insert(b"l", 5, RawBox::Two([10, 0], [10, 0])),
];

/// The leaf of object 2 alone is given up, and the root with it: the leaf is {3,4,5,2}.
pub const DELETED: Scene = Scene {
    made: &[Command::Delete(b"l", 1)],
    asked: &[
        (Command::Window(b"l", RawBox::Two([1, 0], [1, 0])), Some(1)),
        (Command::Get(b"l", 1), None),
        (Command::Delete(b"l", 1), None),
        (Command::Check, None),
    ],
};

/// Packed: the leaves are {1,2,3} and {4,5}. And loads that are refused, or of nothing.
pub const LOADED: Scene = Scene {
    made: &[
        Command::Create(b"t", 2, 4),
        Command::Load(
            b"t",
            &[
                (1, RawBox::Two([0, 0], [0, 0]), 0),
                (2, RawBox::Two([1, 0], [1, 0]), 0),
                (3, RawBox::Two([2, 0], [2, 0]), 0),
                (4, RawBox::Two([3, 0], [3, 0]), 0),
                (5, RawBox::Two([10, 0], [10, 0]), 0),
            ],
        ),
        Command::Create(b"u", 2, 4),
        Command::Load(b"u", &[]),
    ],
    asked: &[
        (
            Command::Window(b"t", RawBox::Two([10, 0], [10, 0])),
            Some(2),
        ),
        (Command::Window(b"t", RawBox::Two([3, 0], [3, 0])), Some(2)),
        (Command::Window(b"t", RawBox::Two([0, 0], [2, 0])), Some(2)),
        (Command::Get(b"t", 4), None),
        (Command::Count(b"t"), None),
        (Command::Load(b"t", &[]), None),
        (
            Command::Load(
                b"u",
                &[
                    (1, RawBox::Two([0, 0], [0, 0]), 0),
                    (2, RawBox::Two([0, 0], [0, 0]), 0),
                    (1, RawBox::Two([0, 0], [0, 0]), 0),
                ],
            ),
            None,
        ),
        (
            Command::Load(
                b"u",
                &[
                    (1, RawBox::Two([1, 0], [0, 0]), 0),
                    (1, RawBox::Three([0; 3], [0; 3]), 0),
                ],
            ),
            None,
        ),
        (
            Command::Load(
                b"t",
                &[
                    (1, RawBox::Two([0, 0], [0, 0]), 0),
                    (1, RawBox::Two([1, 0], [0, 0]), 0),
                ],
            ),
            None,
        ),
        (Command::Count(b"u"), None),
        (Command::Check, None),
    ],
};

/// Joins of layers, also with themselves, and what there is.
pub const JOINED: Scene = Scene {
    made: &[
        Command::Create(b"c", 3, 4),
        Command::Insert(b"c", 2, RawBox::Three([i32::MAX; 3], [i32::MAX; 3])),
    ],
    asked: &[
        (Command::Join(b"a", b"a", 0), None),
        (Command::Join(b"l", b"a", 0), Some(6)),
        (Command::Join(b"a", b"l", 0), None),
        (Command::Join(b"l", b"a", 1), Some(6)),
        (Command::Join(b"l", b"a", 2), None),
        (Command::Join(b"c", b"c", u64::MAX), None),
        (Command::Join(b"a", b"c", 5), None),
        (Command::Join(b"q", b"C", 0), None),
        (Command::Join(b"a", b"q", 0), None),
        (Command::Layers, None),
        (Command::Dump, None),
        (Command::Check, None),
    ],
};
