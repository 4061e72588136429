//! An allocator that refuses one allocation.

use std::alloc::{AllocError, Allocator};
use std::sync::atomic::{AtomicU64, Ordering};

/// Passes each call on to `inner`, except one allocation: the one that comes after a given number of others.
pub struct Refusing<B: Allocator> {
    inner: B,
    left: AtomicU64,
}

impl<B: Allocator> Refusing<B> {
    /// Refuses the allocation that comes after `before` others, and none after it.
    pub fn after(inner: B, before: u64) -> Refusing<B> {
        Refusing {
            inner,
            left: AtomicU64::new(before),
        }
    }

    /// How many allocations there are before the one to refuse; less than 0, modulo 2^64, after that one.
    pub fn left(&self) -> u64 {
        self.left.load(Ordering::SeqCst)
    }
}

impl<B: Allocator> Drop for Refusing<B> {
    fn drop(self) {
        let Self { inner: _, left: _ } = self;
    }
}

/// Whether this is the allocation to refuse. Counts down at each call, past 0 too.
fn is_refused(left: &AtomicU64) -> bool {
    left.fetch_sub(1, Ordering::SeqCst) == 0
}

unsafe impl<B: Allocator> Allocator for Refusing<B> {
    ghost dealloc_token = { λ heap ty ptr. B.dealloc_token heap.inner ty ptr };

    fn allocate(&self, size: usize, align: usize) -> Result<*mut u8, AllocError> {
        if is_refused(&self.left) {
            return Err(AllocError);
        }
        self.inner.allocate(size, align)
    }

    unsafe fn deallocate(&self, ptr: *mut u8, size: usize, align: usize) {
        self.inner.deallocate(ptr, size, align);
    }
}
