//! How many nodes queries look at in worked scenes, which no run of the program shows: at once, after a
//! reopening, and after a closing and an opening. What they answer is shown by tests/worked_rows.py.

use block_device::MemoryDevice;
use layer_store::{RawBox, RawPoint, RawQuery, Refusal, Store};
use std::alloc::Global;
use std::test::Fail;
use store_commands::{
    Command, DELETED, FIRST_OVERFLOW, FIVE, JOINED, LINE, LOADED, PLANE, Row, SPACE, Scene,
    TOUCHING, TWO, answer, device_of, new_store, opened,
};

// Layers without objects, and with the greatest boxes and the farthest points.
const EMPTY: Scene = Scene {
    made: &[
        Command::Create(b"a", 2, 4),
        Command::Create(b"c", 3, 4),
        Command::Insert(b"c", 1, SPACE),
        Command::Insert(b"c", 2, RawBox::Three([i32::MAX; 3], [i32::MAX; 3])),
    ],
    asked: &[
        (Command::Window(b"a", PLANE), Some(1)),
        (Command::Nearest(b"a", 3, RawPoint::Two([0, 0])), Some(1)),
        (
            Command::Point(b"c", RawPoint::Three([i32::MIN; 3])),
            Some(1),
        ),
        (
            Command::Nearest(b"c", 2, RawPoint::Three([i32::MIN; 3])),
            Some(1),
        ),
    ],
};

// The second overflow, which splits the leaf to which object 1 comes back: the leaves are {1,2}, {3,4,5} and
// {7,8,6}.
const SECOND_OVERFLOW: Scene = Scene {
    made: &[
        Command::Insert(b"l", 6, RawBox::Two([11, 0], [11, 0])),
        Command::Insert(b"l", 7, RawBox::Two([4, 0], [4, 0])),
        Command::Insert(b"l", 8, RawBox::Two([5, 0], [5, 0])),
    ],
    asked: &[(Command::Window(b"l", RawBox::Two([6, 0], [12, 0])), Some(3))],
};

// Objects, and nodes, at equal distances: the leaves are {2,7} and {9,5,4}, and {9,8} and {1,2,3}.
const EQUAL_DISTANCES: Scene = Scene {
    made: &[
        Command::Create(b"n", 2, 4),
        Command::Insert(b"n", 9, RawBox::Two([5, 0], [5, 0])),
        Command::Insert(b"n", 4, RawBox::Two([0, 5], [0, 5])),
        Command::Insert(b"n", 7, RawBox::Two([-5, 0], [-5, 0])),
        Command::Insert(b"n", 2, RawBox::Two([0, -5], [0, -5])),
        Command::Insert(b"n", 5, RawBox::Two([3, 4], [3, 4])),
        Command::Create(b"t", 2, 4),
        Command::Insert(b"t", 8, RawBox::Two([-5, 0], [-5, 0])),
        Command::Insert(b"t", 9, RawBox::Two([-6, 0], [-6, 0])),
        Command::Insert(b"t", 1, RawBox::Two([5, 0], [5, 0])),
        Command::Insert(b"t", 2, RawBox::Two([6, 0], [6, 0])),
        Command::Insert(b"t", 3, RawBox::Two([7, 0], [7, 0])),
    ],
    asked: &[
        (Command::Nearest(b"n", 3, RawPoint::Two([0, 0])), Some(3)),
        (Command::Nearest(b"t", 1, RawPoint::Two([0, 0])), Some(3)),
    ],
};

// Queries for a tag, which look at no fewer nodes, also where no object has it.
const TAGS: Scene = Scene {
    made: &[],
    asked: &[
        (
            Command::Tagged(b"l", RawQuery::Window(RawBox::Two([0, 0], [10, 0])), 9),
            Some(3),
        ),
        (
            Command::Tagged(b"l", RawQuery::Inside(RawBox::Two([9, 0], [11, 0])), 0),
            Some(2),
        ),
        (
            Command::Tagged(b"l", RawQuery::Around(RawBox::Two([1, 0], [1, 0])), 7),
            Some(2),
        ),
        (
            Command::Tagged(b"l", RawQuery::Point(RawPoint::Two([4, 0])), 0),
            Some(2),
        ),
    ],
};

// A move to the box that the object has, and one to another.
const MOVED: Scene = Scene {
    made: &[
        Command::Move(b"a", 1, RawBox::Two([0, 0], [1, 1])),
        Command::Move(b"a", 1, RawBox::Two([5, 5], [6, 6])),
    ],
    asked: &[(Command::Point(b"a", RawPoint::Two([6, 6])), Some(1))],
};

// An identifier that comes back with another box.
const INSERTED_ANEW: Scene = Scene {
    made: &[
        Command::Delete(b"l", 1),
        Command::Delete(b"l", 2),
        Command::Insert(b"l", 2, RawBox::Two([7, 7], [8, 8])),
    ],
    asked: &[(Command::Window(b"l", RawBox::Two([1, 0], [1, 0])), Some(1))],
};

// Scenes, and what is made before them.
const SCENES: [(&str, &[&[Command]], Scene); 12] = [
    ("layers of one node", &[], EMPTY),
    ("boxes that touch", &[], TOUCHING),
    ("points on a line", &[], LINE),
    ("a first overflow", &[], FIRST_OVERFLOW),
    ("a second overflow", &[&FIVE], SECOND_OVERFLOW),
    ("equal distances", &[], EQUAL_DISTANCES),
    ("tags", &[&FIVE], TAGS),
    ("moves", &[&TWO], MOVED),
    ("removals", &[&FIVE], DELETED),
    ("an identifier that comes back", &[&FIVE], INSERTED_ANEW),
    ("loads", &[], LOADED),
    ("joins", &[&TWO, &FIVE], JOINED),
];

fn make(
    alloc: Global,
    store: &mut Store<MemoryDevice>,
    changes: &[Command<'_>],
) -> Result<(), Refusal> {
    for &change in changes {
        answer(alloc, store, change)?;
    }
    Ok(())
}

// Whether a query is answered, and looks at so many nodes, a join at most.
fn looks_at(
    alloc: Global,
    store: &mut Store<MemoryDevice>,
    query: Command<'_>,
    nodes: u64,
) -> bool {
    let before = store.looks();
    let is_answered = answer(alloc, store, query).is_ok();
    let looks = store.looks().wrapping_sub(before);
    match query {
        Command::Join(..) => is_answered && 0 < looks && looks <= nodes,
        _ => is_answered && looks == nodes,
    }
}

// Whether all queries do of which that is told.
fn look_at(alloc: Global, store: &mut Store<MemoryDevice>, asked: &[Row]) -> bool {
    for &(query, looks) in asked {
        if let Some(nodes) = looks {
            if !looks_at(alloc, store, query, nodes) {
                return false;
            }
        }
    }
    true
}

// Whether the queries of a scene do, in each state of the store.
fn play(alloc: Global, before: &[&[Command<'static>]], scene: Scene) -> Result<bool, Refusal> {
    let mut store = new_store(alloc, 64)?;
    for changes in before {
        make(alloc, &mut store, changes)?;
    }
    make(alloc, &mut store, scene.made)?;
    let at_once = look_at(alloc, &mut store, scene.asked);
    answer(alloc, &mut store, Command::Reopen)?;
    let reopened = look_at(alloc, &mut store, scene.asked);
    let mut store = opened(alloc, device_of(store)?, 64)?;
    Ok(at_once && reopened && look_at(alloc, &mut store, scene.asked))
}

// The first scene of which one does not.
fn first_other(alloc: Global) -> Option<&'static str> {
    for (what, before, scene) in SCENES {
        if play(alloc, before, scene) != Ok(true) {
            return Some(what);
        }
    }
    None
}

#[test]
fn queries_look_at_as_many_nodes_as_worked_out(rt: HostRuntime) -> Result<(), Fail> {
    assert_eq!(rt; first_other(rt.alloc()), None);
    Ok(())
}
