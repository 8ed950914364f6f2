//! The queue of the tasks to run: a channel of one owner, without a lock.
ghost use Rattle.std.specs.Prelude.{◌≡◌, List, [], ◌∷◌, ◌++◌, IfOk, IfNone, IfSome};
ghost use Rattle.std.specs.Prelude.{Err, None};
ghost use Rattle.example_scheduler.specs.Turns.{IsPlain, TakesTurn};

use flume_core::chan::Chan;
use flume_core::facts::facts;
use flume_model::step::Reply;
use std::alloc::Global;
use std::marker::Model;

/// A task with this many steps to go. One of no step is done as one of one step is.
#[derive(Clone, Copy)]
pub struct Task {
    pub number: u64,
    pub steps: u64,
}

/// What a turn did.
#[derive(Drop)]
pub enum Turn {
    Idle,
    /// It did the last step of the task with this number.
    Done(u64),
    /// It did a step of this task, which is at the back now.
    Again(Task),
}

/// Tasks, the next one at the front.
#[derive(Drop)]
pub struct RunQueue {
    tasks: Chan<Task, ()>,
}

impl Model for RunQueue {
    ghost use Rattle.std.specs.Prelude.{List};
    ghost use Rattle.example_scheduler.specs.declared.run_queue.Task.{Task};
    ghost use Rattle.example_scheduler.specs.Turns.{IsPlain};

    ghost Value = { List Task };

    ghost view = { λ queue. queue.tasks.queue };

    ghost invariant = { λ queue. IsPlain queue.tasks };
}

impl RunQueue {
    /// A queue of no task.
    /// ```
    /// let mut queue = RunQueue::new(alloc);
    /// queue.turn();                      // Idle
    /// ```
    pub fn new(alloc: Global) -> Self
        ensures empty { result ≡ [] }
    {
        RunQueue {
            tasks: Chan::new(alloc, None),
        }
    }

    /// Puts a task at the back. `Err`: no memory; the task comes back, and the queue is as it was.
    /// ```
    /// queue.add(Task { number: 1, steps: 2 })?;
    /// ```
    pub fn add(&mut self, task: Task) -> Result<(), Task>
        ensures added { IfOk result (λ _. self.new ≡ self.old ++ task ∷ []) }
        ensures refused { (back : Task) → result ≡ Err back
            → (back ≡ task) × (self.new ≡ self.old) }
    {
        match self.tasks.try_send(task) {
            Reply::Sent { .. } => Ok(()),
            Reply::NoMemory(Some(back)) => Err(back),
            _ => unreachable!(),
        }
    }

    /// The task at the front does one step, and goes to the back if it isn't done. Needs no memory.
    /// ```
    /// queue.add(Task { number: 1, steps: 2 })?;
    /// queue.turn();                      // Again(Task { number: 1, steps: 1 })
    /// queue.turn();                      // Done(1)
    /// queue.turn();                      // Idle
    /// ```
    pub fn turn(&mut self) -> Turn
        ensures idle { self.old ≡ [] → (result ≡ Turn.Idle) × (self.new ≡ []) }
        ensures turned { (task : Task) (others : List Task) → self.old ≡ task ∷ others
            → TakesTurn task others result self.new }
    {
        facts(&self.tasks);
        let Some(task) = take(&mut self.tasks) else {
            return Turn::Idle;
        };
        if task.steps <= 1 {
            return Turn::Done(task.number);
        }
        let steps = task.steps - 1;
        let task = Task { steps, ..task };
        match self.tasks.try_send(task) {
            Reply::Sent { .. } => Turn::Again(task),
            _ => unreachable!(),
        }
    }
}

fn take(tasks: &mut Chan<Task, ()>) -> Option<Task>
    requires plain { IsPlain tasks.old }
    ensures none { IfNone result ((tasks.old.queue ≡ []) × (tasks.new ≡ tasks.old)) }
    ensures some { IfSome result (λ task. (others : List Task)
        × (tasks.old.queue ≡ task ∷ others) × (tasks.new ≡ record tasks.old { queue = others })) }
{
    match tasks.try_recv() {
        Reply::Got(task) => Some(task),
        Reply::Empty => None,
        _ => unreachable!(),
    }
}
