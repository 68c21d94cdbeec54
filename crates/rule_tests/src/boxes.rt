//! Values from outside: quoted from worked examples of the tree, or worked by hand.

ghost use Rattle.std.specs.Prelude.{◌^◌, ◌<◌, ◌≤◌, IfOk};

use box_math::BBox;
use std::test::Fail;

/// What a test answers where it was given no box.
#[derive(Debug, Drop)]
struct NoBox;

/// The least box that encloses the points.
fn hull<const D: usize>(points: &[[i32; D]]) -> Result<BBox<D>, NoBox> {
    let Some(first) = points.first() else {
        return Err(NoBox);
    };
    let mut hull = BBox::try_new(*first, *first).ok_or(NoBox)?;
    for point in points {
        let one = BBox::try_new(*point, *point).ok_or(NoBox)?;
        hull = hull.join(&one);
    }
    Ok(hull)
}

/// The least boxes of the first points and of the rest.
fn cut(points: &[[i32; 2]; 5], at: usize) -> Result<(BBox<2>, BBox<2>), NoBox>
    requires { at ≤ 5 }
{
    let all = points.as_slice();
    let (first, rest) = all.split_at(at);
    Ok((hull(first)?, hull(rest)?))
}

/// The margins of the two boxes, added up.
fn margins(points: &[[i32; 2]; 5], at: usize) -> Result<u64, NoBox>
    requires { at ≤ 5 }
    ensures { IfOk result (λ sum. sum < 2 ^ 35) }
{
    let (first, rest) = cut(points, at)?;
    Ok(first.margin() + rest.margin())
}

/// The volumes of the two boxes, added up.
fn volumes(points: &[[i32; 2]; 5], at: usize) -> Result<u128, NoBox>
    requires { at ≤ 5 }
{
    let (first, rest) = cut(points, at)?;
    Ok(first.volume() + rest.volume())
}

#[test]
fn measures_reach_the_ends_of_i32(rt: HostRuntime) -> Result<(), Fail> {
    let whole = BBox::try_new([i32::MIN; 3], [i32::MAX; 3]).ok_or(NoBox)?;
    let lowest = hull(&[[i32::MIN; 3]])?;
    let highest = hull(&[[i32::MAX; 3]])?;
    assert_eq!(rt; whole.volume(), 79228162458924105385300197375);
    assert_eq!(rt; whole.overlap(&whole), 79228162458924105385300197375);
    assert_eq!(rt; whole.margin(), 12884901885);
    assert_eq!(rt; whole.centre2(), [-1; 3]);
    assert_eq!(rt; lowest.point_dist2(&[i32::MAX; 3]), 55340232195358851075);
    assert_eq!(rt; lowest.centre_dist2(&highest), 221360928781435404300);
    assert_eq!(rt; lowest.box_dist2(&highest), 55340232195358851075);
    assert!(rt; !lowest.is_near(&highest, u64::MAX) && lowest.is_near(&lowest, 0));
    assert_eq!(rt; highest.widened(u32::MAX), whole);
    assert_eq!(rt; lowest.widened(3).high(), [i32::MIN + 3; 3]);
    assert_eq!(rt; lowest.join(&highest), whole);
    let plane = BBox::try_new([i32::MIN; 2], [i32::MAX; 2]).ok_or(NoBox)?;
    assert_eq!(rt; plane.volume(), 18446744065119617025);
    Ok(())
}

#[test]
fn squares_that_touch_in_a_corner_meet(rt: HostRuntime) -> Result<(), Fail> {
    let a = BBox::try_new([0, 0], [1, 1]).ok_or(NoBox)?;
    let b = BBox::try_new([1, 1], [2, 2]).ok_or(NoBox)?;
    assert!(rt; a.meets(&b) && b.meets(&a) && !a.within(&b));
    assert_eq!(rt; a.overlap(&b), 0);
    assert_eq!(rt; a.meet(&b), Some(hull(&[[1, 1]])?));
    assert_eq!(rt; a.meet(&hull(&[[2, 1]])?), None);
    assert!(rt; a.holds_point(&[1, 1]) && b.holds_point(&[1, 1]) && !b.holds_point(&[1, 0]));
    assert!(rt; a.join(&b).encloses(&b));
    assert_eq!(rt; (b.low(), b.high(), b.centre2()), ([1, 1], [2, 2], [3, 3]));
    assert_eq!(rt; BBox::try_new([0, 1], [0, 0]), None);
    Ok(())
}

#[test]
fn cubes_that_touch_in_a_corner_meet(rt: HostRuntime) -> Result<(), Fail> {
    let a = BBox::try_new([0, 0, 0], [1, 1, 1]).ok_or(NoBox)?;
    let b = BBox::try_new([1, 1, 1], [2, 2, 2]).ok_or(NoBox)?;
    assert!(rt; a.meets(&b) && a.within(&a.join(&b)) && !a.encloses(&b));
    assert_eq!(rt; a.overlap(&b), 0);
    assert_eq!(rt; a.meet(&b), Some(hull(&[[1, 1, 1]])?));
    assert!(rt; a.holds_point(&[1, 1, 1]) && !a.holds_point(&[1, 1, 2]));
    assert_eq!(rt; (b.low(), b.high()), ([1, 1, 1], [2, 2, 2]));
    assert_eq!(rt; BBox::default(), hull(&[[0, 0, 0]])?);
    assert_eq!(rt; BBox::try_new([0, 0, 1], [0, 0, 0]), None);
    Ok(())
}

#[test]
fn margins_and_volumes_of_splits(rt: HostRuntime) -> Result<(), Fail> {
    // five points in the order of an axis: the margins of both cuts, over two sorts that agree
    let rows = [
        ([[0, 0], [1, 0], [2, 0], [3, 0], [10, 0]], 36),
        ([[0, 0], [2, 2], [100, 100], [102, 102], [104, 100]], 428),
        ([[0, 0], [2, 2], [100, 100], [104, 100], [102, 102]], 428),
        ([[0, 0], [1, 0], [4, 0], [5, 0], [11, 0]], 36),
        ([[0, 0], [1, 0], [11, 0], [4, 0], [5, 0]], 40),
        ([[-5, 0], [0, -5], [0, 5], [3, 4], [5, 0]], 82),
        ([[0, -5], [-5, 0], [5, 0], [3, 4], [0, 5]], 78),
    ];
    for (points, sum) in rows {
        let both = margins(&points, 2)? + margins(&points, 3)?;
        assert_eq!(rt; 2 * both, sum, "at {points:?}");
    }
    let apart = [[0, 0], [2, 2], [100, 100], [102, 102], [104, 100]];
    assert_eq!(rt; (volumes(&apart, 2)?, volumes(&apart, 3)?), (12, 10004));
    let round = [[0, -5], [-5, 0], [5, 0], [3, 4], [0, 5]];
    assert_eq!(rt; (volumes(&round, 2)?, volumes(&round, 3)?), (50, 53));
    Ok(())
}

#[test]
fn enlargements_of_a_choice(rt: HostRuntime) -> Result<(), Fail> {
    let rows = [
        ([[0, 0], [2, 2]], [60, 60], 3596),
        ([[100, 100], [104, 102]], [60, 60], 1840),
        ([[0, 0], [2, 2]], [42, 42], 1760),
        ([[60, 60], [104, 102]], [42, 42], 1872),
        ([[0, 0], [42, 42]], [60, 60], 1836),
    ];
    for (corners, point, enlargement) in rows {
        let before = hull(&corners)?;
        let after = before.join(&hull(&[point])?);
        assert_eq!(rt;
            after.volume().abs_diff(before.volume()),
            enlargement,
            "at {point:?}"
        );
    }
    let near = hull(&[[0, 0], [42, 42]])?;
    let far = hull(&[[60, 60], [104, 102]])?;
    let one = hull(&[[103, 101]])?;
    assert_eq!(rt; near.overlap(&far), 0);
    assert_eq!(rt; near.join(&one).overlap(&far), 1763);
    assert_eq!(rt; far.join(&one), far);
    Ok(())
}

#[test]
fn distances_of_reinsertion_and_of_nearest(rt: HostRuntime) -> Result<(), Fail> {
    let leaf = [[100, 100], [102, 102], [104, 100], [60, 60], [103, 101]];
    for (i, distance) in [2740, 3364, 3380, 3700, 3364].iter().enumerate() {
        assert_eq!(rt;
            hull(&leaf)?.centre_dist2(&hull(&[leaf[i]])?),
            *distance,
            "at {i}"
        );
    }
    let line = [[0, 0], [1, 0], [11, 0], [4, 0], [5, 0]];
    for (i, distance) in [121, 81, 121, 9, 1].iter().enumerate() {
        assert_eq!(rt;
            hull(&line)?.centre_dist2(&hull(&[line[i]])?),
            *distance,
            "at {i}"
        );
    }
    for point in [[5, 0], [0, 5], [-5, 0], [0, -5], [3, 4]] {
        assert_eq!(rt; hull(&[point])?.point_dist2(&[0, 0]), 25, "at {point:?}");
    }
    for points in [[[-5, 0], [-6, 0]], [[5, 0], [7, 0]]] {
        assert_eq!(rt; hull(&points)?.point_dist2(&[0, 0]), 25, "at {points:?}");
    }
    Ok(())
}
