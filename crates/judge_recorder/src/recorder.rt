//! The recorder of a thread.
ghost use Rattle.std.specs.Prelude.{◌≡◌, IsTrue, List, [], ◌∷◌};
ghost use Rattle.judge_recorder.specs.Records.{Adds, BeginsFuture, Records, events_of, is_complete};

use crate::counters::Counters;
use crate::slot::{FutureSlot, Slot, SlotWriter};
use judge_calls::call::{Answer, Call};
use judge_calls::event::Event;
use std::alloc::{Allocator, Global};
use std::sync::{Arc, OnceLock};

/// An event, and when it happened.
#[derive(Drop)]
pub(crate) struct Entry<T: Drop, A: Allocator> {
    pub(crate) stamp: u64,
    pub(crate) event: Event<T, A>,
}

/// What a thread records of its calls. Each method makes a call of an end, and returns its result.
/// ```
/// let mut recorder = recording.recorder()?;
/// recorder.try_send(&tx, 7)?;
/// assert_eq!(rt; recorder.recv(&rx), Ok(7));
/// recorder.drop_sender(tx);
/// ```
#[derive(Drop)]
pub struct Recorder<T: Drop, A: Allocator + Copy = Global> {
    pub(crate) counters: Arc<Counters, A>,
    pub(crate) alloc: A,
    pub(crate) thread: usize,
    pub(crate) entries: Vec<Entry<T, A>, A>,
    pub(crate) futures: Vec<FutureSlot<T, A>, A>,
    pub(crate) is_complete: bool,
}

impl<T: Copy + Drop, A: Allocator + Copy> Recorder<T, A> {
    pub(crate) fn new(alloc: A, counters: Arc<Counters, A>) -> Self
        ensures none { events_of result ≡ [] }
        ensures complete { IsTrue (is_complete result) }
    {
        counters.count_recorder();
        let thread = counters.next_thread();
        Recorder {
            counters,
            alloc,
            thread,
            entries: Vec::new(alloc),
            futures: Vec::new(alloc),
            is_complete: true,
        }
    }

    /// Whether each call was recorded.
    /// ```
    /// recorder.try_send(&tx, 7)?;
    /// assert!(rt; recorder.is_complete());
    /// ```
    pub fn is_complete(&self) -> bool
        ensures complete { result ≡ is_complete self.now }
    {
        self.is_complete
    }

    pub(crate) fn mark_incomplete(&mut self)
        ensures added { (events : List (Event T A)) → Adds self.old self.new events }
        ensures incomplete { IsTrue (is_complete self.new) → ⊥ }
    {
        self.is_complete = false;
    }

    pub(crate) fn begin(&self) -> u64 {
        self.counters.next_stamp()
    }

    fn push_event(&mut self, stamp: u64, event: Event<T, A>)
        ensures added { Adds self.old self.new (event ∷ []) }
    {
        if self.entries.push(Entry { stamp, event }).is_err() {
            self.mark_incomplete();
        }
    }

    pub(crate) fn record(&mut self, began: u64, call: Call<T>, answer: Answer<T, A>)
        ensures recorded { Records self.old self.new call answer }
    {
        let returned = self.counters.next_stamp();
        let thread = self.thread;
        self.push_event(began, Event::Begins { thread, call });
        self.push_event(returned, Event::Returns { thread, answer });
    }

    pub(crate) fn begin_future(&mut self, call: Call<T>) -> Option<SlotWriter<T, A>>
        ensures begun { BeginsFuture self.old self.new call }
    {
        let thread = self.counters.next_thread();
        let slot = self.place_future(thread);
        if slot.is_none() {
            self.mark_incomplete();
        }
        let stamp = self.counters.next_stamp();
        self.push_event(stamp, Event::Begins { thread, call });
        slot
    }

    fn place_future(&mut self, thread: usize) -> Option<SlotWriter<T, A>>
        ensures added { Adds self.old self.new [] }
    {
        let slot: Arc<Slot<T>, A> = Arc::new(self.alloc, OnceLock::new()).ok()?;
        let counters = Arc::try_clone(&self.counters).ok()?;
        let own = Arc::try_clone(&slot).ok()?;
        self.futures.push(FutureSlot { thread, slot: own }).ok()?;
        Some(SlotWriter { counters, slot })
    }
}
