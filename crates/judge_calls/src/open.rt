//! The calls that are open, by their threads.
ghost use Rattle.std.specs.Prelude.{◌≡◌, ◌↔◌, List, ◌∷◌, IsTrue, IfSome, IfNone, Some};
ghost use Rattle.std.specs.BTreeMap.{get};
ghost use Rattle.std.specs.Ordering.{nat_cmp};
ghost use Rattle.flume_model.specs.EqualSteps.{equal_steps};
ghost use Rattle.flume_model.specs.declared.step.Step.{Step};
ghost use Rattle.judge_calls.specs.Answers.{is_dropped, may_be_dropped, may_return};
ghost use Rattle.judge_calls.specs.Explanations.{Fits, IsNextStep};
ghost use Rattle.judge_calls.specs.Following.{HasOpen};
ghost use Rattle.judge_calls.specs.declared.event.Item.{Item};

use crate::call::{Answer, Call};
use crate::event::Event;
use crate::laws::answers_are_equal_by_case;
use crate::stage::{Stage, stage_after};
use flume_model::laws::steps_are_equal_by_case;
use flume_model::step::{Reply, Step};
use std::alloc::Allocator;
use std::collections::BTreeMap;

pub(crate) type OpenCalls<T, A> = BTreeMap<usize, (Call<T>, Stage<T, A>), A>;

pub(crate) fn may_happen<T: Copy + Eq + Drop, A: Allocator + Copy>(
    calls: &OpenCalls<T, A>,
    event: &Event<T, A>,
) -> bool
    ensures fits { (past : List (Item T A)) → HasOpen past calls.now
        → IsTrue result ↔ Fits T.eq past (Item.Happens event.now) }
{
    match event {
        Event::Begins { thread, .. } => calls.get(thread).is_none(),
        Event::Returns { thread, answer } => match calls.get(thread) {
            Some((call, stage)) => call.may_return(stage, answer),
            None => false,
        },
    }
}

impl<T: Copy + Eq> Call<T> {
    /// Whether a call at this stage may return this.
    pub fn may_return<A: Allocator>(&self, stage: &Stage<T, A>, recorded: &Answer<T, A>) -> bool
        ensures may { result ≡ may_return T.eq self.now stage.now recorded.now }
    {
        answers_are_equal_by_case::<T, A>();
        let dropped = self.is_dropped(recorded);
        match stage {
            Stage::Begun => dropped,
            Stage::Tried => *recorded == Answer::NoMemory || dropped,
            Stage::Answered(own) => *recorded == *own || (own.may_be_dropped() && dropped),
            Stage::Parked(_) | Stage::Refused(_) => false,
        }
    }

    fn is_dropped<A: Allocator>(&self, recorded: &Answer<T, A>) -> bool
        ensures dropped { result ≡ is_dropped self.now recorded.now }
    {
        matches!(
            (self, recorded),
            (Call::SendAsync(_) | Call::RecvAsync, Answer::Dropped)
        )
    }
}

impl<T, A: Allocator> Answer<T, A> {
    fn may_be_dropped(&self) -> bool
        ensures dropped { result ≡ may_be_dropped self.now }
    {
        !matches!(self, Answer::Got(_))
    }
}

pub(crate) fn own_step<T: Copy + Eq + Drop, A: Allocator + Copy>(
    calls: &OpenCalls<T, A>,
    thread: usize,
    step: &Step<T>,
) -> Option<Step<T>>
    ensures own { IfSome result (λ own. IsNextStep (get nat_cmp calls.now thread) own
        × IsTrue (equal_steps T.eq step.now own)) }
    ensures none { IfNone result ((own : Step T) → IsNextStep (get nat_cmp calls.now thread) own
        → IsTrue (equal_steps T.eq step.now own) → ⊥) }
{
    match calls.get(&thread) {
        Some((call, stage)) => match equal_step(step, call.next_step(stage)) {
            Some(own) => Some(own),
            None => equal_step(step, call.alternative_step(stage)),
        },
        None => None,
    }
}

fn equal_step<T: Copy + Eq>(step: &Step<T>, own: Option<Step<T>>) -> Option<Step<T>>
    ensures some { IfSome result (λ same. (own ≡ Some same)
        × IsTrue (equal_steps T.eq step.now same)) }
    ensures none { IfNone result ((same : Step T) → own ≡ Some same
        → IsTrue (equal_steps T.eq step.now same) → ⊥) }
{
    steps_are_equal_by_case::<T>();
    match own {
        Some(same) => { if *step == same { Some(same) } else { None } }
        None => None,
    }
}

pub(crate) fn take_event<T: Copy + Drop, A: Allocator + Copy>(
    calls: &mut OpenCalls<T, A>,
    event: &Event<T, A>,
) -> bool
    ensures open_after { IsTrue result → (past : List (Item T A)) → HasOpen past calls.old
        → HasOpen (Item.Happens event.now ∷ past) calls.new }
{
    match event {
        Event::Begins { thread, call } => calls.insert(*thread, (*call, Stage::Begun)).is_ok(),
        Event::Returns { thread, .. } => {
            let _ = calls.remove(thread);
            true
        }
    }
}

pub(crate) fn take_step<T: Copy + Drop, A: Allocator + Copy>(
    calls: &mut OpenCalls<T, A>,
    thread: usize,
    reply: Reply<T, A>,
) -> bool
    ensures open_after { IsTrue result → (past : List (Item T A)) (step : Step T)
        → HasOpen past calls.old → HasOpen (Item.Makes thread step reply ∷ past) calls.new }
{
    match calls.remove(&thread) {
        Some((call, stage)) => {
            let after = stage_after(&call, stage, reply);
            calls.insert(thread, (call, after)).is_ok()
        }
        None => true,
    }
}
