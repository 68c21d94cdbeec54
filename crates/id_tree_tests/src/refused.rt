//! Growths and calls of the device refused in turn: a change that cuts, joins, fills or frees pages says why
//! it broke off, and leaves the table as it was where the cache says that no page was touched.

use crate::changes::{Call, TABLE, add_together, change as change_object, give_up};
use crate::steps::Step::{Each, Fill, Make};
use crate::steps::{Run, Step, entries_of, play};
use block_device::{BlockDevice, FuseDevice, FuseMode, MemoryDevice};
use box_math::BBox;
use id_tree::check_table;
use page_cache::PageCache;
use page_file::{Fault, Version, open_pages};
use refusing::Refusing;
use std::alloc::{Allocator, Global};
use std::test::Fail;
use test_caches::bare;

// Many times as many growths, and calls of the device, as a change makes.
const MOST: u32 = 1000;

// More calls of the device than there are.
const NEVER: u32 = u32::MAX;

// A cache whose growths and whose device's calls may be refused.
type Frail<'a> = PageCache<FuseDevice<MemoryDevice>, &'a Refusing<Global>>;

// What is changed.
#[derive(Clone, Copy)]
enum Change {
    // An object with this identifier comes or goes.
    Object(Call, u64),
    // Objects are added together.
    Fill,
    FreeAll,
}

// Objects with every second identifier from 0 on.
const MANY: Run = Run {
    first: 0,
    low: [0, 0],
    high: [0, 0],
    tag: 5,
    count: 300,
};

const FULL_LEAF: Run = Run { count: 145, ..MANY };

const ONE: Run = Run {
    first: 1,
    count: 1,
    ..MANY
};

const FIRST: Run = Run { count: 15, ..MANY };

// The objects that are added together.
const FURTHER: Run = Run {
    first: 1,
    count: 1000,
    ..MANY
};

const ONE_LEAF: &[Step] = &[Make, Fill(FULL_LEAF)];

const THREE_LEAVES: &[Step] = &[Make, Fill(MANY)];

// Cut in the middle into 73 and 73 once, of which the first lost all but 57.
const TWO_LEAVES: &[Step] = &[
    Make,
    Fill(FULL_LEAF),
    Each(Call::Add, ONE),
    Each(Call::Remove, ONE),
    Each(Call::Remove, FIRST),
];

// Leaves of 144, 145 and 12.
const FULL_BETWEEN: &[Step] = &[Make, Fill(MANY), Each(Call::Add, Run { first: 303, ..ONE })];

// A change of a table.
#[derive(Clone, Copy)]
struct Case {
    what: &'static str,
    change: Change,
    // The steps before it, and how many objects the table has then.
    steps: &'static [Step],
    objects: usize,
    // Whether some growths that are refused leave a page touched, and whether some calls of the device do.
    growths_touch: bool,
    calls_touch: bool,
}

const CASES: [Case; 5] = [
    // A full leaf is cut, below a root that is one above leaves.
    Case {
        what: "a cut",
        change: Change::Object(Call::Add, 7),
        steps: ONE_LEAF,
        objects: 145,
        growths_touch: true,
        calls_touch: false,
    },
    // A full leaf shares with the one behind it.
    Case {
        what: "a sharing",
        change: Change::Object(Call::Add, 301),
        steps: FULL_BETWEEN,
        objects: 301,
        growths_touch: false,
        calls_touch: false,
    },
    // A leaf falls below two fifths, and is joined with its neighbour.
    Case {
        what: "a joining",
        change: Change::Object(Call::Remove, 100),
        steps: TWO_LEAVES,
        objects: 130,
        growths_touch: false,
        calls_touch: false,
    },
    Case {
        what: "a fill",
        change: Change::Fill,
        steps: THREE_LEAVES,
        objects: 300,
        growths_touch: true,
        calls_touch: true,
    },
    Case {
        what: "a freeing",
        change: Change::FreeAll,
        steps: THREE_LEAVES,
        objects: 300,
        growths_touch: false,
        calls_touch: false,
    },
];

// The device of a file with the table before the change.
fn device_for(alloc: Global, steps: &[Step]) -> Result<MemoryDevice, Fault> {
    let mut cache = bare(alloc)?;
    if play(alloc, &mut cache, steps).is_some() {
        return Err(Fault::Damaged(TABLE));
    }
    cache.close().map_err(|(fault, _)| fault)
}

// A cache of eight pages with an open gate over the file on a device, if it can be opened.
fn open_cache<'a>(
    alloc: &'a Refusing<Global>,
    device: FuseDevice<MemoryDevice>,
) -> Option<Frail<'a>> {
    let Ok(file) = open_pages(device, Version::Three) else {
        return None;
    };
    let Ok(mut cache) = PageCache::over(alloc, file, 8) else {
        return None;
    };
    match cache.begin_change() {
        Ok(()) => Some(cache),
        Err(_) => None,
    }
}

fn add_further<B: BlockDevice, A: Allocator + Copy>(
    alloc: Global,
    cache: &mut PageCache<B, A>,
) -> Result<(), Fault> {
    let entries = entries_of(alloc, FURTHER)?;
    add_together(cache, entries.as_slice())
}

// Makes the change. The gate is open.
fn make_change<B: BlockDevice, A: Allocator + Copy>(
    alloc: Global,
    cache: &mut PageCache<B, A>,
    change: Change,
) -> Result<(), Fault> {
    match change {
        Change::Object(call, id) => change_object(cache, call, id, &BBox::<2>::default(), 5),
        Change::Fill => add_further(alloc, cache),
        Change::FreeAll => give_up(cache),
    }
}

// What is refused.
#[derive(Clone, Copy)]
enum Refused {
    // All growths from one on.
    Growths,
    // One call of the device.
    Device,
}

// How many refusals of a change touched no page, and how many some.
#[derive(Drop)]
struct Refusals {
    untouched: u32,
    touched: u32,
}

// Counts a refusal by whether a page was touched. Where none was, the table has to have as many objects as
// before.
fn count<B: BlockDevice, A: Allocator + Copy>(
    alloc: Global,
    refusals: &mut Refusals,
    cache: &mut PageCache<B, A>,
    before: usize,
) -> Result<bool, Fault> {
    if cache.is_touched() {
        refusals.touched = refusals.touched.wrapping_add(1);
        return Ok(true);
    }
    refusals.untouched = refusals.untouched.wrapping_add(1);
    let facts = check_table::<2, _, _, _>(alloc, cache, TABLE)?;
    Ok(facts.pairs.len() == before)
}

// What a change came to.
enum End {
    // The file could not be opened.
    Unopened,
    Made,
    // It was refused as it must be.
    Refused,
    Wrong,
}

// Makes the change where what is refused is the growth or the call of that number.
fn attempt(
    alloc: Global,
    refusals: &mut Refusals,
    case: Case,
    refused: Refused,
    number: u32,
) -> Result<End, Fault> {
    let passes = match refused {
        Refused::Growths => NEVER,
        Refused::Device => number,
    };
    let device = device_for(alloc, case.steps)?;
    let fuse = FuseDevice::new(device, u64::from(passes), FuseMode::Once);
    let heap = Refusing::new(alloc);
    let Some(mut cache) = open_cache(&heap, fuse) else {
        return Ok(End::Unopened);
    };
    if matches!(refused, Refused::Growths) {
        heap.refuse_from(number);
    }
    let answer = make_change(alloc, &mut cache, case.change);
    let was_refused = heap.relent();
    end_of(
        alloc,
        refusals,
        &mut cache,
        case.objects,
        (refused, was_refused),
        answer,
    )
}

// What that change came to, of a table of so many objects before, by what was to be refused and whether a
// growth was.
fn end_of<B: BlockDevice, A: Allocator + Copy>(
    alloc: Global,
    refusals: &mut Refusals,
    cache: &mut PageCache<B, A>,
    before: usize,
    (refused, was_refused): (Refused, bool),
    answer: Result<(), Fault>,
) -> Result<End, Fault> {
    let Err(fault) = answer else {
        return Ok(End::Made);
    };
    let is_told = match refused {
        Refused::Growths => was_refused && fault == Fault::Memory,
        Refused::Device => fault == Fault::Device,
    };
    if is_told && count(alloc, refusals, cache, before)? {
        return Ok(End::Refused);
    }
    Ok(End::Wrong)
}

// The refusals until the change is made, where the first growth or call is refused, then the second, and so
// on; or `None` if one is not as it must be.
fn refusals_of(alloc: Global, case: Case, refused: Refused) -> Result<Option<Refusals>, Fault> {
    let mut refusals = Refusals {
        untouched: 0,
        touched: 0,
    };
    for number in 0..MOST {
        match attempt(alloc, &mut refusals, case, refused, number)? {
            End::Unopened | End::Refused => {}
            End::Made => return Ok(Some(refusals)),
            End::Wrong => return Ok(None),
        }
    }
    Ok(None)
}

#[test]
fn refusals_are_told(rt: HostRuntime) -> Result<(), Fail> {
    for case in CASES {
        for (refused, touch) in [
            (Refused::Growths, case.growths_touch),
            (Refused::Device, case.calls_touch),
        ] {
            let Some(refusals) = refusals_of(rt.alloc(), case, refused)? else {
                return Err(Fail::new(case.what));
            };
            let Refusals { untouched, touched } = refusals;
            let enough = untouched > 0 && (touched > 0 || !touch);
            assert!(rt; enough, "{}: {untouched} {touched}", case.what);
        }
    }
    Ok(())
}
