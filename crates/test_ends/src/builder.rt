//! Channels that a builder opens: their capacities, and where their memory comes from.
use crate::fixtures::{is, unwrap};
use flume::error::NoMemory;
use flume::{Builder, Waits};
use std::alloc::Allocator;
use std::process::Abort;
use test_support::counting::Counting;

const CAPACITIES: &[Option<usize>] = &[None, Some(0), Some(2)];

#[test]
fn a_builder_opens_channels_of_each_capacity(rt: HostRuntime) {
    for &capacity in CAPACITIES {
        let opened = match capacity {
            Some(capacity) => flume::on(rt).bounded::<u64>(capacity),
            None => flume::on(rt).unbounded(),
        };
        let (tx, rx) = unwrap(&rt, opened);
        is(&rt, tx.capacity(), capacity);
        is(&rt, rx.capacity(), capacity);
    }
}

// A channel of this builder takes its memory from the allocator, and gives it back. If the
// allocator refuses, no channel is opened, and no block is left.
fn allocates_from<R: Waits, A: Allocator + Copy, B: Allocator>(
    rt: &impl Abort,
    builder: Builder<R, A>,
    heap: &Counting<B>,
) {
    let ends = unwrap(rt, builder.unbounded::<u64>());
    is(rt, 0 < heap.live(), true);
    drop(ends);
    is(rt, heap.live(), 0);
    heap.refuse(true);
    is(rt, builder.unbounded::<u64>().err(), Some(NoMemory));
    is(rt, builder.bounded::<u64>(1).err(), Some(NoMemory));
    heap.refuse(false);
    is(rt, heap.live(), 0);
}

#[test]
fn a_channel_allocates_from_the_allocator_of_its_builder(rt: HostRuntime) {
    let heap = Counting::new(rt.alloc());
    allocates_from(&rt, flume::on(rt).allocator(&heap), &heap);
}

#[test]
fn a_runtime_without_an_allocator_is_handed_in_with_one(rt: HostRuntime) {
    let heap = Counting::new(rt.alloc());
    allocates_from(&rt, flume::on((rt, &heap)), &heap);
}

#[test]
fn a_builder_shows_its_number(rt: HostRuntime) {
    let builder = flume::on(rt).number(7);
    let shown = unwrap(&rt, format!(in rt.alloc(); "{builder:?}"));
    is(&rt, shown.as_str(), "Builder { number: 7, .. }");
}
