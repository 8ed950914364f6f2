//! The parked receivers of a channel, the waiting ones in the order in which they began to wait.
ghost use Rattle.std.specs.Prelude.{◌≡◌, ◌∷◌, [], ◌++◌, ◌==◌, true, false};
ghost use Rattle.std.specs.Prelude.{Some, None, OnOk, OnErr, OnSome};
ghost use Rattle.std.specs.Option.{option_map, option_copied};
ghost use Rattle.flume_model.specs.Entries.{is_woken, some_wait, waiting_count};
ghost use Rattle.flume_model.specs.Entries.{entry_of, held_by, held_in};
ghost use Rattle.flume_model.specs.Entries.{without_ticket, again};
ghost use Rattle.flume_state.specs.Receivers.{new_receiver, waits_on, with_receiver_notice};
ghost use Rattle.flume_state.specs.Receivers.{status_by, status_of};
ghost use Rattle.flume_state.specs.layout.EntryLayout.{after_asking, start_without};

mod wakes;

use crate::notice::Notice;
use crate::ticket_chain::TicketChain;
use flume_model::entry::Mark;
use flume_model::step::Kind;
use std::alloc::{AllocError, Allocator};
use std::marker::Model;
use std::mem;

/// The state of a parked receiver, as far as it decides how the receiver is answered.
#[derive(Clone, Copy, Drop)]
pub enum ReceiverStatus {
    Filled,
    BlockWaiting,
    BlockWoken,
    /// This and `Woken` are of another kind.
    Waiting,
    Woken,
}

#[derive(Drop)]
struct ParkedReceiver<T, S> {
    kind: Kind,
    mark: Mark<T>,
    notice: Notice<S>,
}

/// The parked receivers, in order. Only `park` can be refused memory.
#[derive(Drop)]
pub struct Entries<T, S, A: Allocator> {
    // First those that neither wait nor are due, then the due ones, then those that wait.
    chain: TicketChain<ParkedReceiver<T, S>, A>,
    // The place of the first that is due or waits.
    due: Option<u32>,
    waits: Option<u32>,
    // How many wait.
    waiting: usize,
}

impl ReceiverStatus {
    fn of<T>(kind: Kind, mark: &Mark<T>) -> ReceiverStatus
        ensures status { result ≡ status_by kind mark.now }
    {
        match mark {
            Mark::Filled(_) => ReceiverStatus::Filled,
            Mark::Waiting => match kind {
                Kind::Block => ReceiverStatus::BlockWaiting,
                _ => ReceiverStatus::Waiting,
            },
            Mark::Woken => match kind {
                Kind::Block => ReceiverStatus::BlockWoken,
                _ => ReceiverStatus::Woken,
            },
        }
    }
}

fn message_in<T: Drop>(mark: Mark<T>) -> Option<T>
    ensures held { result ≡ held_in mark }
{
    match mark {
        Mark::Filled(message) => Some(message),
        Mark::Waiting | Mark::Woken => None,
    }
}

impl<T: Drop, S: Drop> ParkedReceiver<T, S> {
    // Answers whether it was woken.
    fn ask_again(&mut self, signal: Option<S>) -> bool
        ensures asked { self.new ≡ after_asking self.old.mark signal self.old }
        ensures woken { result ≡ is_woken self.old.mark }
    {
        let woken = match self.mark {
            Mark::Filled(_) => return false,
            Mark::Waiting => false,
            Mark::Woken => true,
        };
        self.mark = Mark::Waiting;
        self.notice.due = false;
        if let Some(signal) = signal {
            self.notice.signal = signal;
        }
        woken
    }
}

#[inline(always)]
fn start_without(start: Option<u32>, place: u32, next: Option<u32>) -> Option<u32>
    ensures start { result ≡ start_without start place next }
{
    if start == Some(place) { next } else { start }
}

impl<T, S, A: Allocator> Model for Entries<T, S, A> {
    ghost use Rattle.flume_state.specs.Receivers.{EntryList};
    ghost use Rattle.flume_state.specs.layout.EntryLayout.{entries_in, EntryLayout};

    ghost Value = { EntryList T S };

    ghost view = { λ s. entries_in s.chain };

    ghost invariant = { λ s. EntryLayout s.chain s.due s.waits s.waiting };
}

impl<T: Drop, S: Drop, A: Allocator + Copy> Entries<T, S, A> {
    /// Nobody is parked.
    /// ```
    /// let mut entries: Entries<u64, (), Global> = Entries::new(alloc);
    /// let _ = entries.park(1, Kind::Plain, ()); // Ok(())
    /// entries.wake_all();
    /// entries.next_due();                       // Some(1)
    /// entries.next_due();                       // None
    /// ```
    #[inline(always)]
    pub fn new(alloc: A) -> Self
        ensures empty { result ≡ [] }
    {
        Entries {
            chain: TicketChain::new(alloc),
            due: None,
            waits: None,
            waiting: 0,
        }
    }

    /// Whether some receiver waits. Reads a count.
    #[inline(always)]
    pub fn some_wait(&self) -> bool
        ensures some { result ≡ some_wait self.now }
    {
        self.waiting > 0
    }

    /// How many receivers wait, not counting woken and filled ones. Reads a count.
    #[inline(always)]
    pub fn waiting(&self) -> usize
        ensures count { result ≡ waiting_count self.now }
    {
        self.waiting
    }

    /// Parks a receiver under this ticket, behind all others. If memory runs out, or a receiver is
    /// parked under the ticket already, nothing changes.
    pub fn park(&mut self, ticket: u64, kind: Kind, signal: S) -> Result<(), AllocError>
        ensures parked { OnOk result (self.new ≡ self.old ++ new_receiver ticket kind signal ∷ []) }
        ensures unchanged { OnErr result (self.new ≡ self.old) }
    {
        let notice = Notice { signal, due: false };
        let mark = Mark::Waiting;
        let parked = ParkedReceiver { kind, mark, notice };
        match self.chain.insert(None, ticket, parked) {
            Ok(place) => {
                self.due = self.due.or(Some(place));
                self.waits = self.waits.or(Some(place));
                self.waiting += 1;
                Ok(())
            }
            Err(_) => Err(AllocError),
        }
    }

    /// The state of the receiver with this ticket. `None` if nobody is parked under it.
    pub fn status(&self, ticket: u64) -> Option<ReceiverStatus>
        ensures status { result ≡ option_map status_of (entry_of ticket self.now) }
    {
        let place = self.chain.find(ticket)?;
        let parked = self.chain.get(place)?;
        Some(ReceiverStatus::of(parked.kind, &parked.mark))
    }

    /// The signal that this receiver left last. `None` if nobody is parked under the ticket.
    pub fn signal(&self, ticket: u64) -> Option<&S>
        ensures signal { option_copied result
            ≡ option_map (λ e. e.notice.signal) (entry_of ticket self.now) }
    {
        let place = self.chain.find(ticket)?;
        let parked = self.chain.get(place)?;
        Some(&parked.notice.signal)
    }

    /// Removes the receiver with this ticket, if there is one, and gives the message that it holds.
    pub fn remove(&mut self, ticket: u64) -> Option<T>
        ensures held { result ≡ held_by (entry_of ticket self.old) }
        ensures removed { self.new ≡ without_ticket ticket self.old }
    {
        let place = self.chain.find(ticket)?;
        let next = self.chain.next(place);
        let parked = self.chain.get_mut(place)?;
        let mark = mem::replace(&mut parked.mark, Mark::Waiting);
        self.chain.discard(place);
        self.due = start_without(self.due, place, next);
        self.waits = start_without(self.waits, place, next);
        if let Mark::Waiting = mark {
            self.waiting -= 1;
        }
        message_in(mark)
    }

    /// It waits on, behind all others if it was woken, and isn't due; a signal given here replaces
    /// its own. A filled one stays as it is.
    pub fn wait_on(&mut self, ticket: u64, signal: Option<S>)
        ensures waits { held_by (entry_of ticket self.old) ≡ None → self.new
            ≡ again ticket (with_receiver_notice (waits_on signal) ticket self.old) }
        ensures filled { OnSome (held_by (entry_of ticket self.old)) (self.new ≡ self.old) }
    {
        let Some(place) = self.chain.find(ticket) else {
            return;
        };
        let next = self.chain.next(place);
        let Some(parked) = self.chain.get_mut(place) else {
            return;
        };
        if !parked.ask_again(signal) {
            return;
        }
        self.chain.move_back(place);
        self.due = start_without(self.due, place, next).or(Some(place));
        self.waits = start_without(self.waits, place, next).or(Some(place));
        self.waiting += 1;
    }

    /// Removes every receiver, with what it holds.
    pub fn clear(&mut self)
        ensures empty { self.new ≡ [] }
    {
        self.chain.clear();
        self.due = None;
        self.waits = None;
        self.waiting = 0;
    }
}
