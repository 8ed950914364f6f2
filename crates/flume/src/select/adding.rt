//! Arms added in a loop: one for each end of a list.
ghost use Rattle.std.specs.Prelude.{◌≡◌, ◌↔◌, IfOk, Err, map, length};
ghost use Rattle.std.specs.NonZero.{non_zero_usize_get};
ghost use Rattle.flume.specs.declared.select.error.EachError.{EachError};
ghost use Rattle.flume.specs.declared.select.send.SendState.{SendState};
ghost use Rattle.flume.specs.declared.select.receive.ReceiveState.{ReceiveState};
ghost use Rattle.flume.specs.ArmLists.{count_with};

use crate::receiver::Receiver;
use crate::select::Selector;
use crate::select::arms::{Arms, ArmsOn};
use crate::select::each::Each;
use crate::select::error::EachError;
use crate::select::receive_list::ReceiveList;
use crate::select::send_list::SendList;
use crate::sender::Sender;
use crate::shared::Waits;
use flume_core::error::{RecvError, SendError};
use std::alloc::Allocator;
use std::marker::PhantomData;
use std::num::NonZeroUsize;

/// A selector with the arms of a list of receivers.
pub type WithReceives<'a, V, L, T, F, R: Waits, A: Allocator + Copy> = Selector<
    'a,
    V,
    Each<L, ReceiveList<'a, T, R, A>, F, R, A>,
    A,
>;

/// A selector with the arms of a list of senders.
pub type WithSends<'a, V, L, T, F, R: Waits, A: Allocator + Copy> = Selector<
    'a,
    V,
    Each<L, SendList<'a, T, R, A>, F, R, A>,
    A,
>;

impl<'a, V, L: Arms<V, A> + Drop, A: Allocator + Copy> Selector<'a, V, L, A> {
    /// Adds an arm as of `recv` for each receiver of the list, in order. They share the mapper,
    /// which also gets the receiver's place in the list, from 0 on. An error drops the selector.
    /// ```
    /// let (_one, first) = flume::on(rt).unbounded::<u64>()?;
    /// let (two, second) = flume::on(rt).unbounded::<u64>()?;
    /// let receivers = vec![in rt.alloc(); first, second]?;
    /// two.send(7)?;
    /// let arms = Selector::new().recv_each(&receivers, |place, message| (place, message.ok()))?;
    /// assert_eq!(rt; arms.wait()?, (1, Some(7)));
    /// ```
    pub fn recv_each<T: Drop, F, R: Waits>(
        self,
        receivers: &'a [Receiver<T, R, A>],
        mapper: F,
    ) -> Result<WithReceives<'a, V, L, T, F, R, A>, EachError>
    where
        L: ArmsOn<R, V, A>,
        F: FnOnce(usize, Result<T, RecvError>) -> V + Drop,
        ensures before { IfOk result (λ more. more.arms.before ≡ self.entry.arms) }
        ensures channels { IfOk result (λ more. more.arms.arms.receivers.now ≡ receivers.now) }
        ensures unstarted { IfOk result (λ more. more.arms.arms.states.items
            ≡ map (λ _. ReceiveState.Unstarted) receivers.now) }
        ensures mapper { IfOk result (λ more. more.arms.mapper ≡ mapper) }
        ensures count { IfOk result (λ more. non_zero_usize_get more.arms.count
            ≡ count_with (L.count (L.mappers self.entry.arms)) (length receivers.now)) }
        ensures start { IfOk result (λ more. more.start ≡ self.entry.start) }
        ensures no_arm { (result ≡ Err EachError.NoArm)
            ↔ ((length receivers.now ≡ 0) × (L.count (L.mappers self.entry.arms) ≡ 0)) }
    {
        let arms = self.arms.count().saturating_add(receivers.len());
        let count = NonZeroUsize::new(arms).ok_or(EachError::NoArm)?;
        let first = receivers.first().map(|r| (r.shared().rt, r.shared().alloc));
        let (rt, alloc) = first.or_else(|| self.arms.last()).ok_or(EachError::NoArm)?;
        let arms = ReceiveList::new(receivers, alloc)?;
        Ok(Selector {
            arms: Each {
                before: self.arms,
                arms,
                mapper,
                count,
                rt,
                alloc,
            },
            start: self.start,
            deadline: self.deadline,
            value: PhantomData,
            alloc: PhantomData,
        })
    }

    /// As `recv_each`, with an arm as of `send` for each pair. An error drops the messages too.
    /// ```
    /// let (one, _first) = flume::on(rt).bounded::<u64>(0)?;
    /// let (two, second) = flume::on(rt).bounded::<u64>(1)?;
    /// let sends = vec![in rt.alloc(); (&one, 7), (&two, 7)]?;
    /// let arms = Selector::new().send_each(sends, |place, sent| (place, sent.is_ok()))?;
    /// assert_eq!(rt; arms.wait()?, (1, true));
    /// assert_eq!(rt; second.recv(), Ok(7));
    /// ```
    pub fn send_each<T: Drop, F, R: Waits>(
        self,
        sends: Vec<(&'a Sender<T, R, A>, T), A>,
        mapper: F,
    ) -> Result<WithSends<'a, V, L, T, F, R, A>, EachError>
    where
        L: ArmsOn<R, V, A>,
        F: FnOnce(usize, Result<(), SendError<T>>) -> V + Drop,
        ensures before { IfOk result (λ more. more.arms.before ≡ self.entry.arms) }
        ensures channels { IfOk result (λ more.
            map (λ arm. arm.sender.now) more.arms.arms.arms.items
            ≡ map (λ pair. pair.0.now) sends.entry.items) }
        ensures unstarted { IfOk result (λ more. map (λ arm. arm.state) more.arms.arms.arms.items
            ≡ map (λ pair. SendState.Unstarted pair.1) sends.entry.items) }
        ensures mapper { IfOk result (λ more. more.arms.mapper ≡ mapper) }
        ensures count { IfOk result (λ more. non_zero_usize_get more.arms.count
            ≡ count_with (L.count (L.mappers self.entry.arms)) (length sends.entry.items)) }
        ensures start { IfOk result (λ more. more.start ≡ self.entry.start) }
        ensures no_arm { (result ≡ Err EachError.NoArm)
            ↔ ((length sends.entry.items ≡ 0) × (L.count (L.mappers self.entry.arms) ≡ 0)) }
    {
        let arms = self.arms.count().saturating_add(sends.len());
        let count = NonZeroUsize::new(arms).ok_or(EachError::NoArm)?;
        let first = sends
            .first()
            .map(|pair| (pair.0.shared().rt, pair.0.shared().alloc));
        let (rt, alloc) = first.or_else(|| self.arms.last()).ok_or(EachError::NoArm)?;
        let arms = SendList::new(sends, alloc)?;
        Ok(Selector {
            arms: Each {
                before: self.arms,
                arms,
                mapper,
                count,
                rt,
                alloc,
            },
            start: self.start,
            deadline: self.deadline,
            value: PhantomData,
            alloc: PhantomData,
        })
    }
}
