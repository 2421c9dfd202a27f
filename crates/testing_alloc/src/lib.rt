//! An allocator for tests, which refuses one chosen request.
#![tactic(auto)]

use std::alloc::{AllocError, Allocator};
use std::cell::Cell;

/// An allocator that passes requests on to another and refuses one of them, so that a test can show
/// what a refusal leaves. A block that grows or shrinks is one request, and freeing a block is not
/// one. Pass it on as `&heap`.
#[derive(Drop)]
pub struct Refusing<B: Allocator> {
    inner: B,
    // How many requests are let through before the refused one. `None` once it was refused.
    left: Cell<Option<u64>>,
}

impl<B: Allocator> Refusing<B> {
    /// Refuses the request after the first `admitted` ones, and no other.
    pub fn new(inner: B, admitted: u64) -> Refusing<B> {
        Refusing {
            inner,
            left: Cell::new(Some(admitted)),
        }
    }

    /// Whether the request was refused already.
    pub fn has_refused(&self) -> bool {
        self.left.get().is_none()
    }
}

// Whether this request is let through. It counts the request.
fn admits(left: &Cell<Option<u64>>) -> bool {
    match left.get() {
        None => true,
        Some(0) => {
            left.set(None);
            false
        }
        Some(count) => {
            left.set(Some(count - 1));
            true
        }
    }
}

unsafe impl<B: Allocator> Allocator for Refusing<B> {
    ghost dealloc_token = { λ heap ty ptr. B.dealloc_token heap.inner ty ptr };

    fn allocate(&self, size: usize, align: usize) -> Result<*mut u8, AllocError> {
        if admits(&self.left) {
            return self.inner.allocate(size, align);
        }
        Err(AllocError)
    }

    unsafe fn deallocate(&self, ptr: *mut u8, size: usize, align: usize) {
        self.inner.deallocate(ptr, size, align);
    }
}
