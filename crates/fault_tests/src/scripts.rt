//! Scripts, and worked rows as scripts.

use layer_store::{RawBox, RawPoint};
use std::alloc::{AllocError, Global};
use store_commands::{
    Command, DELETED, FIRST_OVERFLOW, FIVE, JOINED, LINE, LOADED, PLANE, Row, SPACE, Scene,
    TOUCHING, TWO,
};

// Insertions and queries, on the trees of worked rows, with pages held, changed and read anew.
const SCRIPT: [Command; 42] = [
    Command::Create(b"c", 3, 4),
    Command::Insert(b"c", 1, SPACE),
    Command::Create(b"a", 2, 4),
    Command::Insert(b"a", 1, RawBox::Two([0, 0], [1, 1])),
    Command::Insert(b"a", 2, RawBox::Two([1, 1], [2, 2])),
    Command::Window(b"a", RawBox::Two([1, 1], [1, 1])),
    Command::Point(b"a", RawPoint::Two([1, 1])),
    Command::Reopen,
    Command::Inside(b"a", RawBox::Two([0, 0], [1, 1])),
    Command::Reopen,
    Command::Around(b"a", RawBox::Two([1, 1], [2, 2])),
    Command::Insert(b"a", 1, RawBox::Two([5, 5], [6, 6])),
    Command::Get(b"a", 1),
    Command::Count(b"a"),
    Command::Create(b"l", 2, 4),
    Command::Insert(b"l", 1, RawBox::Two([0, 0], [0, 0])),
    Command::Insert(b"l", 2, RawBox::Two([1, 0], [1, 0])),
    Command::Insert(b"l", 3, RawBox::Two([2, 0], [2, 0])),
    Command::Reopen,
    Command::Insert(b"l", 4, RawBox::Two([3, 0], [3, 0])),
    Command::Insert(b"l", 5, RawBox::Two([10, 0], [10, 0])),
    Command::Reopen,
    Command::Insert(b"l", 6, RawBox::Two([11, 0], [11, 0])),
    Command::Window(b"l", PLANE),
    Command::Reopen,
    Command::Window(b"l", RawBox::Two([0, 0], [10, 0])),
    Command::Reopen,
    Command::Nearest(b"l", 2, RawPoint::Two([4, 0])),
    Command::Reopen,
    Command::Get(b"l", 5),
    Command::Create(b"r", 2, 4),
    Command::Insert(b"r", 1, RawBox::Two([0, 0], [0, 0])),
    Command::Insert(b"r", 2, RawBox::Two([2, 2], [2, 2])),
    Command::Insert(b"r", 3, RawBox::Two([100, 100], [100, 100])),
    Command::Insert(b"r", 4, RawBox::Two([102, 102], [102, 102])),
    Command::Insert(b"r", 5, RawBox::Two([104, 100], [104, 100])),
    Command::Insert(b"r", 6, RawBox::Two([60, 60], [60, 60])),
    Command::Reopen,
    Command::Insert(b"r", 7, RawBox::Two([42, 42], [42, 42])),
    Command::Point(b"r", RawPoint::Two([42, 42])),
    Command::Insert(b"r", 8, RawBox::Two([103, 101], [103, 101])),
    Command::Inside(b"r", PLANE),
];

// Loads, moves, removals, joins and listings, in the same way.
const REMOVALS: [Command; 38] = [
    Command::Create(b"a", 2, 4),
    Command::Insert(b"a", 1, RawBox::Two([0, 0], [1, 1])),
    Command::Insert(b"a", 2, RawBox::Two([1, 1], [2, 2])),
    Command::Create(b"l", 2, 4),
    Command::Load(
        b"l",
        &[
            (1, RawBox::Two([0, 0], [0, 0]), 0),
            (2, RawBox::Two([1, 0], [1, 0]), 0),
            (3, RawBox::Two([2, 0], [2, 0]), 0),
            (4, RawBox::Two([3, 0], [3, 0]), 0),
            (5, RawBox::Two([10, 0], [10, 0]), 0),
        ],
    ),
    Command::Reopen,
    Command::Join(b"l", b"a", 0),
    Command::Join(b"a", b"l", 0),
    Command::Layers,
    Command::Reopen,
    Command::Dump,
    Command::Reopen,
    Command::Check,
    Command::Move(b"a", 1, RawBox::Two([0, 0], [1, 1])),
    Command::Move(b"a", 1, RawBox::Two([5, 5], [6, 6])),
    Command::Reopen,
    Command::Move(b"l", 5, RawBox::Two([1, 1], [1, 1])),
    Command::Move(b"l", 9, RawBox::Two([1, 1], [1, 1])),
    Command::Reopen,
    Command::Delete(b"l", 1),
    Command::Delete(b"l", 1),
    Command::Delete(b"l", 2),
    Command::Window(b"l", PLANE),
    Command::Reopen,
    Command::Insert(b"l", 2, RawBox::Two([7, 7], [8, 8])),
    Command::Load(b"l", &[]),
    Command::Create(b"u", 2, 4),
    Command::Load(
        b"u",
        &[
            (1, RawBox::Two([0, 0], [0, 0]), 0),
            (2, RawBox::Two([0, 0], [0, 0]), 0),
            (1, RawBox::Two([0, 0], [0, 0]), 0),
        ],
    ),
    Command::Load(b"u", &[]),
    Command::Load(b"u", &[(8, RawBox::Two([0, 0], [0, 0]), 0)]),
    Command::Drop(b"l"),
    Command::Drop(b"l"),
    Command::Check,
    Command::Reopen,
    Command::Drop(b"a"),
    Command::Create(b"a", 3, 4),
    Command::Check,
    Command::Dump,
];

/// The scripts.
pub const SCRIPTS: [&[Command]; 2] = [&SCRIPT, &REMOVALS];

/// Worked rows, and what is made before them.
pub const ROWS: [(&[&[Command]], Scene); 6] = [
    (&[], TOUCHING),
    (&[], LINE),
    (&[], FIRST_OVERFLOW),
    (&[&FIVE], DELETED),
    (&[&TWO, &FIVE], JOINED),
    (&[], LOADED),
];

/// All commands of a row, each question after a reopening, so that it reads its pages anew.
pub fn row_script(
    alloc: Global,
    before: &[&[Command<'static>]],
    row: Scene,
) -> Result<Vec<Command<'static>>, AllocError> {
    let mut script = Vec::new(alloc);
    for made in before {
        script.extend_from_slice(made)?;
    }
    script.extend_from_slice(row.made)?;
    ask_anew(&mut script, row.asked)?;
    Ok(script)
}

// Adds the questions, each after a reopening.
fn ask_anew(script: &mut Vec<Command<'static>>, asked: &[Row]) -> Result<(), AllocError> {
    for (command, _) in asked {
        script.extend_from_slice(&[Command::Reopen, *command])?;
    }
    Ok(())
}
