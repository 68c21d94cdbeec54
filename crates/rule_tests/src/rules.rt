ghost use Rattle.std.specs.Prelude.{◌≡◌, ◌≤◌, ◌<◌, length};
ghost use Rattle.arrayvec.specs.ArrayVec.{array_vec_len};

use arrayvec::ArrayVec;
use box_math::BBox;
use choose_subtree::choose;
use node_page::{NodeView, encode};
use reinsert::farthest;
use rstar_split::split;
use tree_node::{Entry, Fanout, Node};

/// A box of two axes.
fn plane(low: [i32; 2], high: [i32; 2]) -> BBox<2> {
    BBox::try_new(low, high).unwrap_or_default()
}

/// Points with their references.
fn points(all: &[(u64, i32, i32)]) -> ArrayVec<Entry<2>, 101>
    requires { length all.now ≤ 101 }
    ensures { array_vec_len result ≡ length all.now }
{
    let mut entries = ArrayVec::new();
    for i in 0..all.len() {
        let (reference, x, y) = all[i];
        entries.push(Entry {
            bounds: plane([x, y], [x, y]),
            reference,
            tag: 0,
        });
    }
    entries
}

/// Whether the references are these.
fn are<const D: usize>(entries: &ArrayVec<Entry<D>, 101>, references: &[u64]) -> bool {
    if entries.len() != references.len() {
        return false;
    }
    for (i, entry) in entries.iter().enumerate() {
        if i < references.len() && entry.reference != references[i] {
            return false;
        }
    }
    true
}

/// The child that the box goes to, of a node that has these two.
fn chosen(level: u8, first: BBox<2>, second: BBox<2>, bounds: &BBox<2>) -> Option<usize> {
    let mut entries = ArrayVec::new();
    entries.push(Entry {
        bounds: first,
        reference: 10,
        tag: 0,
    });
    entries.push(Entry {
        bounds: second,
        reference: 11,
        tag: 0,
    });
    let mut page = [0; 4096];
    encode(&Node { level: 0, entries }, &mut page);
    page[4] = level; // the same page is that of a node of any level
    let view = NodeView::<2>::of(&page, level)?;
    if view.level() == 0 || view.len() == 0 {
        return None;
    }
    Some(choose(&view, bounds))
}

#[test]
fn chooses_by_overlap_on_the_first_level_alone(rt: HostRuntime) {
    let tall = plane([0, 0], [2, 100]);
    let wide = plane([2, 0], [30, 4]);
    let point = plane([3, 100], [3, 100]);
    for (level, want) in [(1u8, 1usize), (2, 0)] {
        assert_eq!(rt;
            chosen(level, tall, wide, &point),
            Some(want),
            "on level {level}"
        );
    }
}

#[test]
fn chooses_the_first_of_equal_children(rt: HostRuntime) {
    let child = plane([0, 0], [5, 5]);
    for level in [1u8, 2, 40] {
        for at in [[9, 9], [5, 5]] {
            assert_eq!(rt;
                chosen(level, child, child, &plane(at, at)),
                Some(0),
                "at {at:?} on level {level}"
            );
        }
    }
}

#[test]
fn a_flat_child_takes_in_a_box_and_stays_flat(rt: HostRuntime) {
    let wide = plane([0, 0], [10, 10]);
    let flat = plane([5, 0], [5, 3]);
    for (at, want) in [([5, 5], 1usize), ([6, 5], 0)] {
        assert_eq!(rt;
            chosen(2, wide, flat, &plane(at, at)),
            Some(want),
            "at {at:?}"
        );
    }
}

#[test]
fn a_box_with_a_volume_goes_to_the_least_child_that_holds_it(rt: HostRuntime) {
    let wide = plane([0, 0], [10, 10]);
    let less = plane([0, 0], [9, 10]);
    let flat = plane([5, 0], [5, 3]);
    let new = plane([4, 1], [6, 2]);
    for level in [1u8, 2] {
        assert_eq!(rt;
            chosen(level, wide, less, &new),
            Some(1),
            "on level {level}"
        );
        assert_eq!(rt;
            chosen(level, flat, wide, &new),
            Some(1),
            "on level {level}"
        );
    }
}

#[test]
fn chooses_between_two_leaves(rt: HostRuntime) {
    let near = plane([0, 0], [2, 2]);
    let grown = plane([0, 0], [42, 42]);
    let far = plane([100, 100], [104, 102]);
    let wide = plane([60, 60], [104, 102]);
    for (first, second, at, want) in [
        (near, far, [60, 60], 1usize),
        (near, wide, [42, 42], 0),
        (grown, wide, [103, 101], 1),
        (grown, far, [60, 60], 0),
    ] {
        assert_eq!(rt;
            chosen(1, first, second, &plane(at, at)),
            Some(want),
            "at {at:?}"
        );
    }
}

#[test]
fn splits_worked_points(rt: HostRuntime) {
    let (first, second) = split(
        &points(&[(1, 0, 0), (2, 1, 0), (3, 2, 0), (4, 3, 0), (5, 10, 0)]),
        Fanout { most: 4 },
    );
    assert!(rt; are(&first, &[1, 2]) && are(&second, &[3, 4, 5]));
    let (first, second) = split(
        &points(&[
            (1, 0, 0),
            (2, 2, 2),
            (3, 100, 100),
            (4, 102, 102),
            (5, 104, 100),
        ]),
        Fanout { most: 4 },
    );
    assert!(rt; are(&first, &[1, 2]) && are(&second, &[3, 4, 5]));
    let (first, second) = split(
        &points(&[(9, 5, 0), (4, 0, 5), (7, -5, 0), (2, 0, -5), (5, 3, 4)]),
        Fanout { most: 4 },
    );
    assert!(rt; are(&first, &[2, 7]) && are(&second, &[9, 5, 4]));
    let (first, second) = split(
        &points(&[(8, -5, 0), (9, -6, 0), (1, 5, 0), (2, 6, 0), (3, 7, 0)]),
        Fanout { most: 4 },
    );
    assert!(rt; are(&first, &[9, 8]) && are(&second, &[1, 2, 3]));
    let (first, second) = split(
        &points(&[(2, 1, 0), (6, 11, 0), (7, 4, 0), (8, 5, 0), (1, 0, 0)]),
        Fanout { most: 4 },
    );
    assert!(rt; are(&first, &[1, 2]) && are(&second, &[7, 8, 6]));
}

/// As many of the greatest boxes of three axes as a node has room for, the last reference first.
fn greatest() -> ArrayVec<Entry<3>, 101> {
    let whole: BBox<3> = BBox::try_new([-2147483648; 3], [2147483647; 3]).unwrap_or_default();
    let mut entries: ArrayVec<Entry<3>, 101> = ArrayVec::new();
    for i in 0..101u64 {
        if !entries.is_full() {
            entries.push(Entry {
                bounds: whole,
                reference: 100 - i,
                tag: 0,
            });
        }
    }
    entries
}

#[test]
fn splits_the_greatest_boxes(rt: HostRuntime) {
    let entries = greatest();
    assert!(rt; entries.len() == 101);
    let (first, second) = split(&entries, Fanout { most: 100 });
    assert_eq!(rt; first.len(), 40);
    assert_eq!(rt; second.len(), 61);
    assert!(rt;
        first
            .iter()
            .enumerate()
            .all(|(i, entry)| entry.reference == i as u64)
    );
}

#[test]
fn takes_out_the_greatest_boxes_by_reference(rt: HostRuntime) {
    let entries = greatest();
    assert!(rt; entries.len() == 101);
    let (kept, far) = farthest(&entries, 30);
    assert_eq!(rt; kept.len(), 71);
    assert!(rt;
        far.iter().enumerate().all(|(i, entry)| entry.reference == 29u64.saturating_sub(i as u64))
    );
}

#[test]
fn takes_out_the_farthest(rt: HostRuntime) {
    let leaf = points(&[(1, 0, 0), (2, 1, 0), (6, 11, 0), (7, 4, 0), (8, 5, 0)]);
    let (kept, far) = farthest(&leaf, 3);
    assert!(rt; are(&kept, &[7, 8]) && are(&far, &[2, 6, 1]));
    let (kept, far) = farthest(&leaf, 1);
    assert!(rt; are(&kept, &[2, 6, 7, 8]) && are(&far, &[1]));
    let leaf = points(&[
        (3, 100, 100),
        (4, 102, 102),
        (5, 104, 100),
        (6, 60, 60),
        (8, 103, 101),
    ]);
    let (kept, far) = farthest(&leaf, 1);
    assert!(rt; are(&kept, &[3, 4, 5, 8]) && are(&far, &[6]));
}
