//! An allocator for tests: it hands each call on to another allocator, and refuses the growths that the test
//! picks.
//!
//! A growth is a call of `allocate`: `grow` and `shrink` make one each, so each growth of a collection counts
//! once.
#![tactic(auto)]

use std::alloc::{AllocError, Allocator};
use std::cell::Cell;

// The count of an allocator that refuses nothing.
const NEVER: u64 = u64::MAX;

// What is added to the count where one growth alone is refused.
const ONCE: u64 = 1 << 62;

/// Hands calls on to `inner`, and refuses the growths that the test picks. A new one refuses none.
///
/// Tests lend it, as `&Refusing<Global>`, to what they test, and then tell it what to refuse.
pub struct Refusing<B: Allocator> {
    inner: B,
    // 0 where each growth is refused, else one more than the growths that pass before the refusal,
    // with `ONCE` added where only one is refused.
    left: Cell<u64>,
}

impl<B: Allocator> Refusing<B> {
    /// An allocator that takes its memory from `inner`, and so far refuses nothing.
    pub fn new(inner: B) -> Refusing<B> {
        Refusing {
            inner,
            left: Cell::new(NEVER),
        }
    }

    /// Refuses growth number `k`, counted from 0 and from now on, and each later one.
    pub fn refuse_from(&self, k: u32) {
        self.left.set(u64::from(k) + 1);
    }

    /// Refuses growth number `k`, counted from 0 and from now on, and no other one.
    pub fn refuse_once(&self, k: u32) {
        self.left.set(u64::from(k) + 1 + ONCE);
    }

    /// Refuses nothing from now on, and answers whether a growth was refused since the last call of
    /// `refuse_from` or `refuse_once`.
    pub fn relent(&self) -> bool {
        let refused = self.left.get() == 0 || self.left.get() == ONCE;
        self.left.set(NEVER);
        refused
    }
}

impl<B: Allocator> Drop for Refusing<B> {
    fn drop(self) {
        let Self { inner: _, left: _ } = self;
    }
}

// Counts a growth, and says whether it is refused. `ONCE` alone says that the one refusal is over.
fn is_due(left: &Cell<u64>) -> bool {
    let now = left.get();
    match now {
        0 => true,
        NEVER | ONCE => false,
        _ => {
            left.set(now - 1);
            now == 1 || now == ONCE + 1
        }
    }
}

unsafe impl<B: Allocator> Allocator for Refusing<B> {
    ghost dealloc_token = { λ heap ty ptr. B.dealloc_token heap.inner ty ptr };

    fn allocate(&self, size: usize, align: usize) -> Result<*mut u8, AllocError> {
        if is_due(&self.left) {
            return Err(AllocError);
        }
        self.inner.allocate(size, align)
    }

    unsafe fn deallocate(&self, ptr: *mut u8, size: usize, align: usize) {
        self.inner.deallocate(ptr, size, align);
    }
}
