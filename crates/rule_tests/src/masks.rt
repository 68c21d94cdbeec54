//! Masks of boxes that touch a window.

use box_math::{BBox, meet_mask};
use std::test::Fail;

/// What a test answers where it was given no box.
#[derive(Debug, Drop)]
struct NoBox;

#[test]
fn touching_boxes_are_in_the_mask(rt: HostRuntime) -> Result<(), Fail> {
    let window = BBox::try_new([0, 0], [1, 1]).ok_or(NoBox)?;
    let mut low = [[0; 100]; 2];
    let mut high = [[0; 100]; 2];
    // One that touches at a corner, one past it, and one that touches on the low side.
    low[0][0] = 1;
    high[0][0] = 5;
    low[1][0] = 1;
    high[1][0] = 5;
    low[0][1] = 2;
    high[0][1] = 2;
    low[0][2] = -3;
    assert_eq!(rt; meet_mask(&low, &high, 3, &window), 0b101);
    assert_eq!(rt; meet_mask(&low, &high, 1, &window), 1);
    Ok(())
}
