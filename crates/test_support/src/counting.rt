//! An allocator that counts its live blocks, and refuses requests when asked to.
use std::alloc::{AllocError, Allocator};
use std::sync::atomic::{AtomicU64, Ordering};

struct Blocks {
    live: AtomicU64,
    requests: AtomicU64,
    refusals: AtomicU64,
    first: AtomicU64,
    last: AtomicU64,
    one_in: AtomicU64,
}

impl Drop for Blocks {
    fn drop(self) {
        let Self {
            live: _,
            requests: _,
            refusals: _,
            first: _,
            last: _,
            one_in: _,
        } = self;
    }
}

/// Counts the blocks of another allocator, and refuses requests.
pub struct Counting<B: Allocator> {
    inner: B,
    blocks: Blocks,
}

impl<B: Allocator> Counting<B> {
    /// An allocator that refuses nothing.
    pub const fn new(inner: B) -> Counting<B> {
        Counting {
            inner,
            blocks: Blocks {
                live: AtomicU64::new(0),
                requests: AtomicU64::new(0),
                refusals: AtomicU64::new(0),
                first: AtomicU64::new(1),
                last: AtomicU64::new(0),
                one_in: AtomicU64::new(0),
            },
        }
    }

    /// How many blocks were allocated and not given back.
    pub fn live(&self) -> u64 {
        self.blocks.live.load(Ordering::SeqCst)
    }

    /// Refuses each request from now on, or none.
    pub fn refuse(&self, refuses: bool) {
        self.blocks.first.store(0, Ordering::SeqCst);
        let last = if refuses { u64::MAX } else { 0 };
        self.blocks.last.store(last, Ordering::SeqCst);
    }

    /// Refuses the requests from the first to the last of these, counted from 1 from now on.
    pub fn refuse_between(&self, first: u64, last: u64) {
        self.blocks.requests.store(0, Ordering::SeqCst);
        self.blocks.refusals.store(0, Ordering::SeqCst);
        self.blocks.first.store(first, Ordering::SeqCst);
        self.blocks.last.store(last, Ordering::SeqCst);
    }

    /// Refuses one request in this many, picked at random by its number.
    pub fn refuse_one_in(&self, requests: u64) {
        self.blocks.one_in.store(requests, Ordering::SeqCst);
    }

    /// How many requests there were since the last `refuse_between`, or from the first on.
    pub fn requests(&self) -> u64 {
        self.blocks.requests.load(Ordering::SeqCst)
    }

    /// How many of these were refused.
    pub fn refusals(&self) -> u64 {
        self.blocks.refusals.load(Ordering::SeqCst)
    }
}

impl<B: Allocator> Drop for Counting<B> {
    fn drop(self) {
        let Self {
            inner: _,
            blocks: _,
        } = self;
    }
}

fn is_random_refusal(blocks: &Blocks, number: u64) -> bool {
    let random = number
        .wrapping_mul(6_364_136_223_846_793_005)
        .wrapping_add(1_442_695_040_888_963_407)
        >> 33;
    random.checked_rem(blocks.one_in.load(Ordering::SeqCst)) == Some(0)
}

// Whether a request is refused. If not, it counts as a live block.
fn refused(blocks: &Blocks) -> bool {
    let number = blocks
        .requests
        .fetch_add(1, Ordering::SeqCst)
        .wrapping_add(1);
    let (first, last) = (
        blocks.first.load(Ordering::SeqCst),
        blocks.last.load(Ordering::SeqCst),
    );
    if first <= number && number <= last || is_random_refusal(blocks, number) {
        blocks.refusals.fetch_add(1, Ordering::SeqCst);
        return true;
    }
    blocks.live.fetch_add(1, Ordering::SeqCst);
    false
}

fn count_down(blocks: &Blocks) {
    blocks.live.fetch_sub(1, Ordering::SeqCst);
}

unsafe impl<B: Allocator> Allocator for Counting<B> {
    ghost dealloc_token = { λ heap ty ptr. B.dealloc_token heap.inner ty ptr };

    fn allocate(&self, size: usize, align: usize) -> Result<*mut u8, AllocError> {
        if refused(&self.blocks) {
            return Err(AllocError);
        }
        self.inner.allocate(size, align)
    }

    unsafe fn deallocate(&self, ptr: *mut u8, size: usize, align: usize) {
        count_down(&self.blocks);
        self.inner.deallocate(ptr, size, align);
    }
}
