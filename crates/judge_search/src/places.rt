//! The calls that began at places, and their threads.
ghost use Rattle.std.specs.Prelude.{◌≡◌, Option};
ghost use Rattle.std.specs.Option.{option_copied};
ghost use Rattle.judge_search.specs.Configurations.{call_at, call_by, is_thread, thread_at};

use crate::configuration::OpenCall;
use judge_calls::call::Call;
use judge_calls::event::Event;
use std::alloc::Allocator;

/// The one of these open calls that is this thread's.
pub fn call_of<T: Copy + Eq + Drop, A: Allocator + Copy>(
    calls: &[OpenCall],
    events: &[Event<T, A>],
    thread: usize,
) -> Option<OpenCall>
    ensures own { result ≡ call_by events.now thread calls.now }
{
    for call in calls {
        if is_of(*call, events, thread) {
            return Some(*call);
        }
    }
    None
}

fn is_of<T: Copy + Eq + Drop, A: Allocator + Copy>(
    call: OpenCall,
    events: &[Event<T, A>],
    thread: usize,
) -> bool
    ensures is_thread { result ≡ is_thread thread (thread_at events.now call.place) }
{
    match thread_at(events, call.place) {
        Some(own) => own == thread,
        None => false,
    }
}

/// The thread of the event at a place.
pub fn thread_at<T: Copy + Eq + Drop, A: Allocator + Copy>(
    events: &[Event<T, A>],
    place: usize,
) -> Option<usize>
    ensures thread { result ≡ thread_at events.now place }
{
    match events.get(place) {
        Some(Event::Begins { thread, .. } | Event::Returns { thread, .. }) => Some(*thread),
        None => None,
    }
}

/// The call that began at a place.
pub fn call_at<T: Copy + Eq + Drop, A: Allocator + Copy>(
    events: &[Event<T, A>],
    place: usize,
) -> Option<&Call<T>>
    ensures call { option_copied result ≡ call_at events.now place }
{
    match events.get(place) {
        Some(Event::Begins { call, .. }) => Some(call),
        Some(Event::Returns { .. }) => None,
        None => None,
    }
}
