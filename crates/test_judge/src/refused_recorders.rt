//! Recorders that are refused memory, that are missing, or that are another recording's.
use crate::fixtures::unwrap;
use flume::error::TryRecvError;
use judge_recorder::{Recorder, Recording, RecordingError};
use std::alloc::Global;
use std::process::Abort;
use test_support::counting::Counting;

type Heap<'h> = &'h Counting<Global>;

fn new_recording<'h>(
    rt: &impl Abort,
    heap: Heap<'h>,
) -> (Recording<Heap<'h>>, Recorder<u64, Heap<'h>>) {
    let recording = unwrap(rt, Recording::new(heap));
    let recorder = unwrap(rt, recording.recorder());
    (recording, recorder)
}

// The error of the recording, if this is its only recorder.
fn fault_of<'h>(
    rt: &impl Abort,
    heap: Heap<'h>,
    (recording, recorder): (Recording<Heap<'h>>, Recorder<u64, Heap<'h>>),
) -> Option<RecordingError> {
    heap.refuse(false);
    let recorders = unwrap(rt, vec![in heap; recorder]);
    recording.events(recorders).err()
}

#[test]
fn a_call_is_made_without_memory_to_record_it(rt: HostRuntime) {
    let heap = Counting::new(rt.alloc());
    let (recording, mut own) = new_recording(&rt, &heap);
    let (tx, rx) = unwrap(&rt, flume::on(rt).bounded(1));
    heap.refuse(true);
    assert_eq!(rt; own.send(&tx, 7), Ok(()));
    assert!(rt; !own.is_complete());
    assert_eq!(rt; rx.try_recv(), Ok(7));
    let fault = fault_of(&rt, &heap, (recording, own));
    assert_eq!(rt; fault, Some(RecordingError::Incomplete));
}

#[test]
fn a_drain_hands_its_messages_on_without_memory_to_record_it(rt: HostRuntime) {
    let heap = Counting::new(rt.alloc());
    let (recording, mut own) = new_recording(&rt, &heap);
    let (tx, rx) = unwrap(&rt, flume::on(rt).unbounded());
    let _ = (tx.try_send(1), tx.try_send(2));
    heap.refuse(true);
    let mut messages = unwrap(&rt, own.drain(&rx));
    let messages = (messages.next(), messages.next(), messages.next());
    assert_eq!(rt; messages, (Some(1), Some(2), None));
    assert_eq!(rt; rx.try_recv(), Err(TryRecvError::Empty));
    let fault = fault_of(&rt, &heap, (recording, own));
    assert_eq!(rt; fault, Some(RecordingError::Incomplete));
}

#[test]
fn a_future_is_made_without_memory_to_record_it(rt: HostRuntime) {
    let heap = Counting::new(rt.alloc());
    let (recording, mut own) = new_recording(&rt, &heap);
    let (tx, _rx) = unwrap(&rt, flume::on(rt).unbounded::<u64>());
    heap.refuse(true);
    drop(own.send_async(&tx, 7));
    let fault = fault_of(&rt, &heap, (recording, own));
    assert_eq!(rt; fault, Some(RecordingError::Incomplete));
}

#[test]
fn a_missing_recorder_is_noticed(rt: HostRuntime) {
    let heap = Counting::new(rt.alloc());
    let (recording, own) = new_recording(&rt, &heap);
    let other: Recorder<u64, Heap<'_>> = unwrap(&rt, recording.recorder());
    drop(other);
    let fault = fault_of(&rt, &heap, (recording, own));
    assert_eq!(rt; fault, Some(RecordingError::Missing));
}

#[test]
fn recorders_of_two_recordings_that_were_swapped_are_noticed(rt: HostRuntime) {
    let heap = Counting::new(rt.alloc());
    let (recording, own) = new_recording(&rt, &heap);
    let (other_recording, other) = new_recording(&rt, &heap);
    let fault = fault_of(&rt, &heap, (recording, other));
    assert_eq!(rt; fault, Some(RecordingError::Stranger));
    let fault = fault_of(&rt, &heap, (other_recording, own));
    assert_eq!(rt; fault, Some(RecordingError::Stranger));
}
