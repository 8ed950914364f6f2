//! Wake rounds, and which parked receivers are due.
ghost use Rattle.std.specs.Prelude.{◌≡◌, ◌≢◌, length, false, IfSome, IfNone};
ghost use Rattle.std.specs.Option.{option_map};
ghost use Rattle.flume_model.specs.Entries.{is_waiting, all_woken};
ghost use Rattle.flume_model.specs.Entries.{round_for, round_for_fills};
ghost use Rattle.flume_state.specs.Notices.{due_now};
ghost use Rattle.flume_state.specs.layout.EntryLayout.{first_waiting, with_first_marked};
ghost use Rattle.flume_state.specs.Receivers.{after_fill, NoDueReceiver, NamesReceiver};

use super::Entries;
use crate::line::Line;
use flume_model::entry::Mark;
use flume_model::step::Kind;
use std::alloc::Allocator;

impl<T: Drop, S: Drop, A: Allocator + Copy> Entries<T, S, A> {
    /// Wakes the waiting receivers in order, up to the first that isn't a stream, and makes them
    /// due. If that one blocks, it gets the front of the queue, and its ticket is the answer.
    #[inline(always)]
    pub fn wake(&mut self, line: &mut Line<T, S, A>) -> Option<u64>
        ensures fills { result ≡ round_for_fills line.old.queued self.old }
        ensures woken { self.new ≡ round_for due_now line.old.queued self.old }
        ensures queue { line.new ≡ record line.old {
          queued = after_fill
              (round_for_fills line.old.queued self.old) line.old.queued;
        } }
    {
        if self.waiting == 0 || line.queued_len() == 0 {
            return None;
        }
        self.wake_round(line)
    }

    #[cold]
    #[inline(never)]
    fn wake_round(&mut self, line: &mut Line<T, S, A>) -> Option<u64>
        requires queued { length line.old.queued ≢ 0 }
        ensures fills { result ≡ round_for_fills line.old.queued self.old }
        ensures woken { self.new ≡ round_for due_now line.old.queued self.old }
        ensures queue { line.new ≡ record line.old {
          queued = after_fill
              (round_for_fills line.old.queued self.old) line.old.queued;
        } }
    {
        while let Some((ticket, kind)) = self.next_waiting() {
            match kind {
                Kind::Stream => self.wake_next(Mark::Woken),
                Kind::Block => {
                    let front = line.take_queued()?;
                    self.wake_next(Mark::Filled(front));
                    return Some(ticket);
                }
                Kind::Plain | Kind::Arm => {
                    self.wake_next(Mark::Woken);
                    return None;
                }
            }
        }
        None
    }

    #[inline(always)]
    fn next_waiting(&self) -> Option<(u64, Kind)>
        ensures first { result ≡ option_map (λ e. (e.ticket, e.kind)) (first_waiting self.now) }
    {
        let place = self.waits?;
        let ticket = self.chain.ticket(place)?;
        let parked = self.chain.get(place)?;
        Some((ticket, parked.kind))
    }

    #[inline(always)]
    fn wake_next(&mut self, mark: Mark<T>)
        requires awake { is_waiting mark ≡ false }
        ensures woken { self.new ≡ with_first_marked due_now mark self.old }
    {
        let Some(place) = self.waits else {
            return;
        };
        let next = self.chain.next(place);
        let Some(parked) = self.chain.get_mut(place) else {
            return;
        };
        parked.mark = mark;
        parked.notice.due = true;
        self.waits = next;
        self.waiting -= 1;
    }

    /// Wakes all that wait, and makes them due. Filled ones keep their message.
    pub fn wake_all(&mut self)
        ensures woken { self.new ≡ all_woken due_now self.old }
    {
        while self.waiting > 0 {
            self.wake_next(Mark::Woken);
        }
    }

    /// A receiver's ticket that was due, and isn't afterwards. `None` if none is. Searches nothing.
    #[inline(always)]
    pub fn next_due(&mut self) -> Option<u64>
        ensures named { IfSome result (λ ticket. NamesReceiver self.old self.new ticket) }
        ensures none_due { IfNone result (NoDueReceiver self.old) }
        ensures unchanged { IfNone result (self.new ≡ self.old) }
    {
        if self.due == self.waits {
            return None;
        }
        self.take_first_due()
    }

    // It compares the two places again, so that its contract needs no premise.
    #[cold]
    #[inline(never)]
    fn take_first_due(&mut self) -> Option<u64>
        ensures named { IfSome result (λ ticket. NamesReceiver self.old self.new ticket) }
        ensures none_due { IfNone result (NoDueReceiver self.old) }
        ensures unchanged { IfNone result (self.new ≡ self.old) }
    {
        if self.due == self.waits {
            return None;
        }
        let place = self.due?;
        let next = self.chain.next(place);
        let ticket = self.chain.ticket(place)?;
        let parked = self.chain.get_mut(place)?;
        parked.notice.due = false;
        self.due = next;
        Some(ticket)
    }
}
