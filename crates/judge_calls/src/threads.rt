//! The threads that have appeared in a recording so far.
ghost use Rattle.std.specs.Prelude.{IfErr, IfNone, IfOk, IfSome, OnOk, ◌≡◌, ◌<◌, ◌≤◌, ℕ, []};
ghost use Rattle.std.specs.Prelude.{length};
ghost use Rattle.judge_calls.specs.EventLines.{IsFault, IsName, begins_line, name_of};
ghost use Rattle.judge_calls.specs.EventLines.{returns_line};
ghost use Rattle.judge_calls.specs.NextEvents.{IsNextEvent, IsThreadOf, asking_in};
ghost use Rattle.judge_calls.specs.Recordings.{names_of, asks_capacity as asks};

use crate::answer_texts::answer_of;
use crate::call::Call;
use crate::call_texts::call_of;
use crate::event::Event;
use crate::fault::Fault;
use crate::parts::{Parts, parts_of};
use flume_error::error::NoMemory;
use std::alloc::{AllocError, Allocator};

#[derive(Drop)]
pub(crate) struct Threads<'s, A: Allocator> {
    pub(crate) names: Vec<&'s [u8], A>,
    pub(crate) asking: Vec<bool, A>,
    ghost as_many: { length names.items ≤ length asking.items },
}

fn place_of(names: &[&[u8]], name: &[u8]) -> Option<usize>
    ensures within { IfSome result (λ place. place < length names.now) }
    ensures found { IfSome result (λ place. name_of (names_of names.now) place ≡ name.now) }
    ensures none { IfNone result ((place : ℕ) → place < length names.now
        → ¬ (name_of (names_of names.now) place ≡ name.now)) }
{
    for (place, other) in names.iter().enumerate() {
        if *other == name {
            return Some(place);
        }
    }
    None
}

fn asks_capacity(call: &Call<u64>) -> bool
    ensures value { result ≡ asks call.now }
{
    matches!(call, Call::Capacity)
}

impl<'s, A: Allocator + Copy> Threads<'s, A> {
    pub(crate) fn new(alloc: A) -> Self
        ensures names { result.names.items ≡ [] }
        ensures asking { result.asking.items ≡ [] }
    {
        Threads {
            names: Vec::new(alloc),
            asking: Vec::new(alloc),
        }
    }

    fn number_of(&mut self, name: &'s [u8]) -> Result<usize, NoMemory>
        ensures within { IfOk result (λ thread. thread < length self.new.asking.items) }
        ensures thread { IfOk result (λ thread. IsThreadOf (names_of self.old.names.items) name.now
            thread (names_of self.new.names.items)) }
        ensures asking { OnOk result ((thread : ℕ)
            → asking_in self.new.asking.items thread ≡ asking_in self.old.asking.items thread) }
    {
        if let Some(place) = place_of(&self.names, name) {
            return Ok(place);
        }
        let place = self.names.len();
        self.asking.push(false).map_err(AllocError::from)?;
        self.names.push(name).map_err(AllocError::from)?;
        Ok(place)
    }

    pub(crate) fn read(
        &mut self,
        alloc: A,
        line: &'s [u8],
    ) -> Result<Result<Event<u64, A>, Fault>, NoMemory>
        ensures right { IfOk result (λ r. IfOk r (λ event.
            IsNextEvent (names_of self.old.names.items) (asking_in self.old.asking.items)
            line.now event
            (names_of self.new.names.items) (asking_in self.new.asking.items))) }
        ensures wrong { IfOk result (λ r. IfErr r (IsFault A line.now)) }
    {
        match parts_of(line) {
            None => Ok(Err(Fault::NoEvent)),
            Some(Parts::Begins { name, call }) => self.begins(name, call),
            Some(Parts::Returns { name, answer }) => self.returns(alloc, name, answer),
        }
    }

    fn begins(
        &mut self,
        name: &'s [u8],
        text: &[u8],
    ) -> Result<Result<Event<u64, A>, Fault>, NoMemory>
        requires named { IsName name.now }
        ensures right { IfOk result (λ r. IfOk r (λ event.
            IsNextEvent (names_of self.old.names.items) (asking_in self.old.asking.items)
            (begins_line name.now text.now) event
            (names_of self.new.names.items) (asking_in self.new.asking.items))) }
        ensures wrong { IfOk result (λ r. IfErr r
            (IsFault A (begins_line name.now text.now))) }
    {
        let Some(call) = call_of(text) else {
            return Ok(Err(Fault::NoCall));
        };
        let thread = self.number_of(name)?;
        self.asking[thread] = asks_capacity(&call);
        Ok(Ok(Event::Begins { thread, call }))
    }

    fn returns(
        &mut self,
        alloc: A,
        name: &'s [u8],
        text: &[u8],
    ) -> Result<Result<Event<u64, A>, Fault>, NoMemory>
        requires named { IsName name.now }
        ensures right { IfOk result (λ r. IfOk r (λ event.
            IsNextEvent (names_of self.old.names.items) (asking_in self.old.asking.items)
            (returns_line name.now text.now) event
            (names_of self.new.names.items) (asking_in self.new.asking.items))) }
        ensures wrong { IfOk result (λ r. IfErr r
            (IsFault A (returns_line name.now text.now))) }
    {
        let thread = self.number_of(name)?;
        match answer_of(alloc, text, self.asking[thread])? {
            None => Ok(Err(Fault::NoAnswer)),
            Some(answer) => Ok(Ok(Event::Returns { thread, answer })),
        }
    }
}
