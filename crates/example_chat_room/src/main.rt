//! A chat room: one thread waits for the first of its members to speak, and passes on what is said.
//! The main thread speaks for all members, one after another, so each run prints the same.
#![tactic(auto)]

use flume::error::NoMemory;
use flume::{Receiver, Runtime, Selector, Sender, TrySendError, Waits};
use std::{io, thread};

/// How many lines a member may be behind. It misses those that come then, and delays nobody.
const BEHIND: usize = 2;

/// What a member hears. The numbers are those of other members.
#[derive(Clone, Drop)]
enum Line {
    Said { who: u64, text: String },
    Left(u64),
}

/// What the room waits for. A place is that of a member in its list.
#[derive(Drop)]
enum Event {
    Stopped,
    Said(usize, String),
    Left(usize),
}

/// What the room knows of a member.
#[derive(Drop)]
struct Member<R: Waits> {
    number: u64,
    lines: Sender<Line, R>,
    missed: u64,
}

impl<R: Waits> Member<R> {
    /// A member that no longer listens is removed once it can no longer speak.
    fn tell(&mut self, line: Line) -> Result<(), NoMemory> {
        match self.lines.try_send(line) {
            Ok(()) | Err(TrySendError::Disconnected(_)) => {}
            Err(TrySendError::Full(_)) => self.missed = self.missed.saturating_add(1),
            Err(TrySendError::NoMemory(_)) => return Err(NoMemory),
        }
        Ok(())
    }
}

/// The receiver at a place of `spoken` is that of the member at the same place of `members`.
#[derive(Drop)]
struct Room<R: Waits> {
    rt: R,
    stop: Receiver<(), R>,
    spoken: Vec<Receiver<String, R>>,
    members: Vec<Member<R>>,
    // By members who have left.
    missed: u64,
}

impl<R: Runtime> Room<R> {
    fn new(rt: R, stop: Receiver<(), R>) -> Self {
        Self {
            rt,
            stop,
            spoken: Vec::new(rt.alloc()),
            members: Vec::new(rt.alloc()),
            missed: 0,
        }
    }

    /// Lets one more member in, who leaves as its seat is dropped.
    fn enter(&mut self, number: u64) -> io::Result<Seat<R>> {
        let rt = self.rt;
        let (voice, spoken) = flume::on(rt).unbounded()?;
        let (lines, heard) = flume::on(rt).bounded(BEHIND)?;
        self.spoken.push(spoken)?;
        self.members.push(Member {
            number,
            lines,
            missed: 0,
        })?;
        Ok(Seat {
            rt,
            number,
            voice,
            heard,
        })
    }

    /// Passes on what is said until it is told to stop, or nobody is left. Returns how many lines
    /// were missed.
    fn run(mut self) -> io::Result<u64> {
        let rt = self.rt;
        for _ in rt.forever() {
            if self.members.is_empty() {
                break;
            }
            match self.next_event()? {
                Event::Stopped => break,
                Event::Said(place, text) => self.pass_on(place, text)?,
                Event::Left(place) => self.remove(place)?,
            }
        }
        let mut missed = self.missed;
        for member in &self.members {
            missed = missed.saturating_add(member.missed);
        }
        Ok(missed)
    }
}

impl<R: Waits> Room<R> {
    /// The stop is tried first, and then the members in the order in which they came in.
    fn next_event(&self) -> io::Result<Event> {
        let arms = Selector::new().recv(&self.stop, |_| Event::Stopped);
        let arms = arms.recv_each(&self.spoken, |place, answer| match answer {
            Ok(text) => Event::Said(place, text),
            Err(_) => Event::Left(place),
        })?;
        Ok(arms.wait()?)
    }

    fn pass_on(&mut self, place: usize, text: String) -> io::Result<()> {
        let Some(speaker) = self.members.get(place) else {
            return Ok(());
        };
        let who = speaker.number;
        self.tell_others(who, &Line::Said { who, text })
    }

    fn remove(&mut self, place: usize) -> io::Result<()> {
        if place >= self.spoken.len() || place >= self.members.len() {
            return Ok(());
        }
        drop(self.spoken.remove(place));
        let gone = self.members.remove(place);
        self.missed = self.missed.saturating_add(gone.missed);
        self.tell_others(gone.number, &Line::Left(gone.number))
    }

    fn tell_others(&mut self, who: u64, line: &Line) -> io::Result<()> {
        for member in &mut self.members {
            if member.number != who {
                member.tell(line.clone()?)?;
            }
        }
        Ok(())
    }
}

/// A member's own ends.
#[derive(Drop)]
struct Seat<R: Waits> {
    rt: R,
    number: u64,
    voice: Sender<String, R>,
    heard: Receiver<Line, R>,
}

impl<R: Runtime + Print> Seat<R> {
    fn say(&self, text: &str) -> io::Result<()> {
        Ok(self.voice.send(String::from_str(self.rt.alloc(), text)?)?)
    }

    /// Waits for a line, and prints it.
    fn hear(&self) -> io::Result<()> {
        let (rt, number) = (self.rt, self.number);
        match self.heard.recv()? {
            Line::Said { who, text } => println!(rt; "{number} heard {who} say: {text}"),
            Line::Left(who) => println!(rt; "{number} heard that {who} left"),
        }
    }
}

fn main(rt: HostRuntime) -> io::Result<()> {
    let (tell, stop) = flume::on(rt).bounded(1)?;
    let mut room = Room::new(rt, stop);
    let (ann, bob, cyd) = (room.enter(0)?, room.enter(1)?, room.enter(2)?);
    let running = thread::spawn(&rt, move || room.run())?;
    let talked = talk(ann, bob, &cyd);
    // If the room failed, its error says why. The other errors only say that it is gone.
    let stopped = tell.send(());
    let missed = running.join(&rt)?;
    talked?;
    stopped?;
    println!(rt; "the room was stopped: {missed} lines were missed")
}

/// The last member is slow: it hears no more lines than it has room for.
fn talk<R: Runtime + Print>(ann: Seat<R>, bob: Seat<R>, cyd: &Seat<R>) -> io::Result<()> {
    ann.say("hello")?;
    bob.hear()?;
    cyd.hear()?;
    bob.say("hello 0")?;
    ann.hear()?;
    cyd.hear()?;
    for text in ["one", "two", "three"] {
        ann.say(text)?;
        bob.hear()?;
    }
    drop(bob);
    ann.hear()?;
    // The room takes this in once it is done with all that came before.
    cyd.say("a moment")?;
    ann.hear()?;
    cyd.hear()?;
    cyd.hear()
}
