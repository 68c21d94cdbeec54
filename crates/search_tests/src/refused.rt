//! Growths refused in turn: a list of leaves and an outline answer that there is no memory.

use crate::pages::scene;
use crate::scripts::{FOUND, LISTED, OUTLINED};
use crate::steps::{Step, take};
use page_file::Fault;
use refusing::Refusing;
use std::alloc::Global;
use test_caches::Cache;

// The first growth that a question does not make, where all from the first on are refused, then all from the
// second on, and so on; or 0 if an answer is not as it must be.
fn growths(cache: &mut Cache, heap: &Refusing<Global>, question: Step) -> u32 {
    for k in 0..100 {
        heap.refuse_from(k);
        let answer = take(cache, heap, question);
        let refused = heap.relent();
        if !refused && answer == Ok(3) {
            return k;
        }
        if !refused || answer != Err(Fault::Memory) {
            break;
        }
    }
    0
}

// Whether refusals are told of both questions about a tree of two leaves: leaves take memory for each list
// and for the list of them, and an outline takes some.
fn are_told(alloc: Global) -> Result<bool, Fault> {
    let mut cache = scene(alloc, OUTLINED)?;
    let heap = Refusing::new(alloc);
    let listed = growths(&mut cache, &heap, LISTED);
    Ok(growths(&mut cache, &heap, FOUND) >= 1 && listed >= 3)
}

#[test]
fn questions_refused_memory_answer_that(rt: HostRuntime) {
    assert_eq!(rt; are_told(rt.alloc()), Ok(true));
}
