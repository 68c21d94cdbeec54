//! Worked examples of the runs that entries are put in order for.

use crate::boxes::point;
use crate::calls::FOUR;
use box_math::BBox;
use bulk_load::tile;
use node_page::Entry;
use std::test::Fail;

// Nine points (x, y), x and y from 0 to 2, by x and then y.
fn nine_points() -> [Entry<2>; 9] {
    let mut entries = [Entry::default(); 9];
    for k in 0..9u8 {
        entries[usize::from(k)] = point(u64::from(k) + 1, i32::from(k / 3), i32::from(k % 3));
    }
    entries
}

// Whether the entries have these references.
fn are_in_order(entries: &[Entry<2>], order: &[u64]) -> bool {
    for (entry, reference) in entries.iter().zip(order) {
        if entry.reference != *reference {
            return false;
        }
    }
    entries.len() == order.len()
}

#[test]
fn nine_points_make_three_runs(rt: HostRuntime) -> Result<(), Fail> {
    let mut entries = nine_points();
    let sizes = tile(rt.alloc(), &mut entries, FOUR)?;
    let ordered = are_in_order(&entries, &[1, 4, 2, 5, 3, 6, 7, 8, 9]);
    assert!(rt; ordered && sizes.as_slice() == [3, 2, 4].as_slice());
    Ok(())
}

#[test]
fn no_entries_have_no_run(rt: HostRuntime) -> Result<(), Fail> {
    let mut entries: [Entry<3>; 0] = [];
    let sizes = tile(rt.alloc(), &mut entries, FOUR)?;
    assert!(rt; sizes.is_empty());
    Ok(())
}

// Thirty entries of one centre and reference, of which each third one is wide.
fn thirty(wide: BBox<2>) -> [Entry<2>; 30] {
    let mut entries = [Entry::default(); 30];
    for k in 0..10 {
        entries[k * 3].bounds = wide;
    }
    entries
}

// Whether each third entry and no other one is wide.
fn are_as_before(entries: &[Entry<2>], wide: BBox<2>) -> bool {
    for (k, entry) in entries.iter().enumerate() {
        if (entry.bounds == wide) != (k % 3 == 0) {
            return false;
        }
    }
    true
}

#[test]
fn entries_of_one_centre_and_reference_go_by_position(rt: HostRuntime) -> Result<(), Fail> {
    let wide = BBox::try_new([-2, 0], [2, 0]).unwrap_or_default();
    let mut entries = thirty(wide);
    let sizes = tile(rt.alloc(), &mut entries, FOUR)?;
    assert!(rt; sizes.len() == 9 && are_as_before(&entries, wide));
    Ok(())
}
