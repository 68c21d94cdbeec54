//! Which growths are refused: no contract can say what a cell holds.

use refusing::Refusing;
use std::test::Fail;

// Which of five growths are refused.
const NONE: [bool; 5] = [false; 5];

#[test]
fn refuses_as_it_is_told(rt: HostRuntime) -> Result<(), Fail> {
    let heap = Refusing::new(rt.alloc());
    assert_eq!(rt; growths(&heap), NONE);
    assert!(rt; !heap.relent());
    heap.refuse_from(2);
    assert_eq!(rt; growths(&heap), [false, false, true, true, true]);
    assert!(rt; heap.relent());
    assert_eq!(rt; growths(&heap), NONE);
    heap.refuse_once(2);
    assert_eq!(rt; growths(&heap), [false, false, true, false, false]);
    assert!(rt; heap.relent());
    heap.refuse_from(5);
    assert_eq!(rt; growths(&heap), NONE);
    assert!(rt; !heap.relent());
    heap.refuse_once(0);
    assert_eq!(rt; growths(&heap), [true, false, false, false, false]);
    Ok(())
}

fn growths<B: std::alloc::Allocator>(heap: &Refusing<B>) -> [bool; 5] {
    let mut refused = NONE;
    for growth in refused.iter_mut() {
        *growth = Vec::<u8, &Refusing<B>>::with_capacity(heap, 1).is_err();
    }
    refused
}
