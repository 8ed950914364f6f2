//! The queue of a configuration, and the blocked sends that join it.
ghost use Rattle.std.specs.Prelude.{◌≡◌, ◌∷◌, [], IfNone, IfSome, IfOk};
ghost use Rattle.std.specs.Result.{OnOk};
ghost use Rattle.judge_search.specs.ByPlaces.{closed_now, full_now, admit, admit_if_room};
ghost use Rattle.judge_search.specs.ByPlaces.{with_front};
ghost use Rattle.judge_search.specs.ByPlaces.{admit_all};
ghost use Rattle.judge_search.specs.Taken.{taken_front};

use crate::configuration::Configuration;
use std::alloc::{AllocError, Allocator};

impl<A: Allocator + Copy> Configuration<A> {
    pub(crate) fn is_closed(&self) -> bool
        ensures closed { result ≡ closed_now self.now }
    {
        self.senders.min(self.receivers) == 0
    }

    pub(crate) fn is_full(&self) -> bool
        ensures full { result ≡ full_now self.now }
    {
        match self.capacity {
            None => false,
            Some(capacity) => capacity <= self.queue.len(),
        }
    }

    fn admit(&mut self) -> Result<(), AllocError>
        ensures admitted { OnOk result (self.new ≡ admit self.old) }
    {
        match take_first(&mut self.blocked) {
            None => Ok(()),
            Some(place) => Ok(self.queue.push(place)?),
        }
    }

    fn admit_if_room(&mut self) -> Result<(), AllocError>
        ensures admitted { OnOk result (self.new ≡ admit_if_room self.old) }
    {
        if self.is_full() { Ok(()) } else { self.admit() }
    }

    fn bring_front(&mut self) -> Result<(), AllocError>
        ensures front { OnOk result (self.new ≡ with_front self.old) }
    {
        if self.queue.is_empty() {
            self.admit()
        } else {
            Ok(())
        }
    }

    pub(crate) fn take(&mut self) -> Result<Option<usize>, AllocError>
        ensures taken { IfOk result (λ front. (front, self.new) ≡ taken_front self.old) }
    {
        self.bring_front()?;
        match take_first(&mut self.queue) {
            None => Ok(None),
            Some(place) => {
                self.admit_if_room()?;
                Ok(Some(place))
            }
        }
    }

    pub(crate) fn admit_all(&mut self) -> Result<(), AllocError>
        ensures admitted { OnOk result (self.new ≡ admit_all self.old) }
    {
        for _ in 0..self.blocked.len() {
            if self.is_full() {
                return Ok(());
            }
            self.admit()?;
        }
        Ok(())
    }
}

fn take_first<A: Allocator + Copy>(places: &mut Vec<usize, A>) -> Option<usize>
    ensures none { IfNone result (places.old.items ≡ []) }
    ensures nothing { IfNone result (places.new.items ≡ []) }
    ensures first { IfSome result (λ place. places.old.items ≡ place ∷ places.new.items) }
{
    if places.is_empty() {
        None
    } else {
        Some(places.remove(0))
    }
}
