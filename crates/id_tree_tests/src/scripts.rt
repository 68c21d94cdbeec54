//! Tests as lists of steps: a place that a search found serves a change of the same table later, whatever
//! became of other pages, and a change in it looks at few pages.

use crate::changes::Call::{Add, Remove, Update};
use crate::steps::Step::{At, Counts, Differ, Each, Fill, Find, Keep, Looks, Make, Miss};
use crate::steps::{Answer, Run, Step, play};
use page_file::Fault;
use std::alloc::Global;
use std::test::Fail;
use test_caches::bare;

// What a test is of, and its steps.
type Script = (&'static str, &'static [Step]);

// The first step that did not end as it should: of which script, its place there, and its answer.
type Wrong = Option<(&'static str, usize, Answer)>;

fn first_wrong(alloc: Global, scripts: &[Script]) -> Result<Wrong, Fault> {
    for &(what, steps) in scripts {
        let mut cache = bare(alloc)?;
        if let Some((place, answer)) = play(alloc, &mut cache, steps) {
            return Ok(Some((what, place, answer)));
        }
    }
    Ok(None)
}

// Objects with the even identifiers from 0 on: their boxes are the point 0, 0, and their tags half their
// identifiers. The 400 are in leaves of 144, 144 and 112.
const MANY: Run = Run {
    first: 0,
    low: [0, 0],
    high: [0, 0],
    tag: 0,
    count: 400,
};

const FEW: Run = Run { count: 145, ..MANY };

const FIRST: Run = Run { count: 15, ..MANY };

// An object at the point 0, 0, and one at the point 1, 1.
const ZERO: Run = Run {
    first: 1,
    low: [0, 0],
    high: [0, 0],
    tag: 7,
    count: 1,
};

const ONE: Run = Run {
    first: 701,
    low: [1, 1],
    high: [1, 1],
    tag: 9,
    count: 1,
};

const MOVED: Run = Run {
    first: 400,
    tag: 200,
    ..ONE
};

const MOVED_EARLY: Run = Run {
    first: 200,
    tag: 100,
    ..ONE
};

// The first leaf of the 400 is cut, since the second one is nearly full, so that the root changes too, and
// loses and moves objects.
const CUT: Step = Each(Add, Run { count: 2, ..ZERO });

const LOSE: Step = Each(Remove, Run { first: 40, ..ZERO });

const MOVE: Step = Each(Update, MOVED_EARLY);

// The number of looks is not of interest.
const ANY: u64 = u64::MAX;

const PLACES: [Script; 5] = [
    (
        "a place found before other pages changed serves",
        &[
            Make,
            Fill(MANY),
            Find(0, 400),
            Find(1, 701),
            Differ,
            CUT,
            LOSE,
            MOVE,
            At(0, Update, MOVED, ANY),
            Keep(MOVED),
            At(1, Add, ONE, ANY),
            Keep(ONE),
            At(0, Remove, MOVED, ANY),
            Miss(MOVED),
            Keep(MOVED_EARLY),
            Counts(401, 5),
        ],
    ),
    (
        // the second half of the leaf before, of 73, shares with it
        "a full leaf shares where its place was found before",
        &[
            Make,
            Fill(MANY),
            Each(Add, Run { first: 303, ..ZERO }),
            Find(1, 301),
            CUT,
            LOSE,
            MOVE,
            At(1, Add, Run { first: 301, ..ONE }, ANY),
            Keep(Run { first: 301, ..ONE }),
            Keep(MOVED_EARLY),
            Counts(403, 5),
        ],
    ),
    (
        // cut into 73 and 73, of which the first keeps 58 and then 57
        "a leaf with little is joined where it loses an object",
        &[
            Make,
            Fill(FEW),
            Each(Add, ZERO),
            Each(Remove, FIRST),
            Counts(131, 3),
            Each(Remove, Run { first: 100, ..ZERO }),
            Counts(130, 3),
            Find(0, 102),
            At(0, Remove, Run { first: 102, ..ZERO }, ANY),
            Miss(Run { first: 102, ..ZERO }),
            Counts(129, 2),
        ],
    ),
    (
        // one look of the update, and two of each other change: at the count, and at the page that changes
        "a change in a place looks at no page above",
        &[
            Make,
            Fill(MANY),
            Find(0, 400),
            Find(1, 701),
            At(0, Update, MOVED, 1),
            At(0, Remove, MOVED, 2),
            At(1, Add, ONE, 2),
        ],
    ),
    (
        // one look for each object, and some for each leaf
        "objects that come into one leaf are added with one walk",
        &[
            Make,
            Fill(Run {
                count: 6000,
                ..MANY
            }),
            Looks(6600),
            Counts(6000, 43),
        ],
    ),
];

#[test]
fn places_serve_later_changes(rt: HostRuntime) -> Result<(), Fail> {
    assert_eq!(rt; first_wrong(rt.alloc(), &PLACES)?, None);
    Ok(())
}
