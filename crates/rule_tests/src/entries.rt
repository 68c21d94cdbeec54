//! The tests of entries, of how many there may be, and of likely orders.

use box_math::BBox;
use std::test::Fail;
use tree_node::{Entry, Fanout, box_of, least, likely_first, picked, reference_of, see_boxes};

#[test]
fn the_default_entry_is_the_origin(rt: HostRuntime) {
    let bounds = BBox::try_new([0, 0, 0], [0, 0, 0]).expect(&rt, "a point");
    assert_eq!(rt;
        Entry::<3>::default(),
        Entry {
            bounds,
            reference: 0,
            tag: 0,
        }
    );
}

// An entry of the box (low,-low) to (high,high).
fn entry(reference: u64, low: i32, high: i32) -> Option<Entry<2>> {
    let bounds = BBox::try_new([low, low.checked_neg()?], [high, high])?;
    Some(Entry {
        bounds,
        reference,
        tag: 0,
    })
}

#[test]
fn entries_are_picked_and_enclosed(rt: HostRuntime) -> Result<(), Fail> {
    let first = entry(7, 1, 2).expect(&rt, "a box");
    let second = entry(8, 3, 5).expect(&rt, "a box");
    let entries = [first, second];
    see_boxes(&entries);
    assert!(rt; box_of(&entries, 1) == second.bounds);
    assert_eq!(rt; reference_of(&entries, 0), 7);
    assert!(rt; Some(least(&entries)) == BBox::try_new([1, -3], [5, 5]));
    let turned = picked(&entries, &[1, 0, 1]);
    assert_eq!(rt; turned.len(), 3);
    assert!(rt; turned.get(0) == Some(&second));
    assert!(rt; turned.get(1) == Some(&first));
    Ok(())
}

#[test]
fn a_node_has_from_four_to_a_hundred_entries(rt: HostRuntime) {
    for (most, least_count) in [(4u8, 2usize), (10, 4), (16, 6), (100, 40)] {
        let fanout = Fanout::from_byte(most).expect(&rt, "a number of entries");
        assert_eq!(rt; fanout.entries(), usize::from(most));
        assert_eq!(rt; fanout.least_entries(), least_count, "of {most}");
    }
    assert!(rt; Fanout::from_byte(3).is_none() && Fanout::from_byte(101).is_none());
}

#[test]
fn the_first_positions_are_those_of_the_least_numbers(rt: HostRuntime) {
    let mut hints = [5000, 1000, 4000, 2000, 3000];
    let mut places = [0; 5];
    likely_first(&mut hints, 2, &mut places);
    assert_eq!(rt; places[0], 1);
    assert_eq!(rt; places[1], 3);
    places.sort_unstable();
    assert!(rt; places == [0, 1, 2, 3, 4]);
}
