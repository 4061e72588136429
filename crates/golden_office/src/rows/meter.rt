//! An allocator that refuses one allocation, and can be told which.

use std::alloc::{AllocError, Allocator};
use std::sync::atomic::{AtomicU64, Ordering};

/// More allocations before the refused one than any test case makes.
const FAR: u64 = 1 << 62;

/// Passes each call on to `inner`, except the one allocation that comes after this many others.
pub(crate) struct Meter<B: Allocator> {
    inner: B,
    left: AtomicU64,
}

impl<B: Allocator> Meter<B> {
    /// Refuses nothing yet.
    pub(crate) fn new(inner: B) -> Meter<B> {
        Meter {
            inner,
            left: AtomicU64::new(FAR),
        }
    }

    /// Refuses the allocation that comes after this many others from now on, where none was refused yet.
    pub(crate) fn refuse(&self, before: u64) {
        if !self.has_refused() {
            self.left.store(before, Ordering::SeqCst);
        }
    }

    /// Refuses nothing from now on.
    pub(crate) fn rest(&self) {
        if !self.has_refused() {
            self.left.store(FAR, Ordering::SeqCst);
        }
    }

    /// Forgets what was refused.
    pub(crate) fn forget(&self) {
        self.left.store(FAR, Ordering::SeqCst);
    }

    /// Whether an allocation was refused.
    pub(crate) fn has_refused(&self) -> bool {
        self.left.load(Ordering::SeqCst) > FAR
    }
}

impl<B: Allocator> Drop for Meter<B> {
    fn drop(self) {
        let Self { inner: _, left: _ } = self;
    }
}

/// Whether this is the allocation to refuse. Counts down at each call, past 0 too.
fn is_refused(left: &AtomicU64) -> bool {
    left.fetch_sub(1, Ordering::SeqCst) == 0
}

unsafe impl<B: Allocator> Allocator for Meter<B> {
    ghost dealloc_token = { λ heap ty ptr. B.dealloc_token heap.inner ty ptr };

    fn allocate(&self, size: usize, align: usize) -> Result<*mut u8, AllocError> {
        if is_refused(&self.left) {
            return Err(AllocError);
        }
        self.inner.allocate(size, align)
    }

    unsafe fn deallocate(&self, ptr: *mut u8, size: usize, align: usize) {
        self.inner.deallocate(ptr, size, align);
    }
}
