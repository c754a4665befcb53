//! What a host makes of one edge node, told a second time by lists of positions alone: no bytes, no sequence numbers, no slots. It is
//! slow, and follows the words of the rules.
use spk_sequence::{Phase, Step};
use std::alloc::Global;

/// What a message is about. A node's births give the aliases up to 2, a device's birth the alias 4.
#[derive(Clone, Copy, Debug, PartialEq, Eq)]
pub(crate) enum About {
    NodeBirth,
    NodeData(u64),
    DeviceBirth(u8),
    DeviceData(u8, u64),
    DeviceDeath(u8),
}

/// A message that a node published.
#[derive(Clone, Copy, Debug, PartialEq, Eq)]
pub(crate) struct Sent {
    pub(crate) about: About,
    /// The position of its NBIRTH.
    pub(crate) start: u64,
    pub(crate) session: u64,
    pub(crate) stamp: Option<u64>,
}

/// All that a node published, by position.
#[derive(Drop)]
pub(crate) struct Source {
    pub(crate) restarts: bool,
    pub(crate) sent: Vec<Sent>,
    /// The greatest timestamp.
    pub(crate) clock: u64,
}

/// What limits the requests.
#[derive(Clone, Copy, Debug, PartialEq, Eq)]
enum Note {
    Asked(u64),
    Born,
}

/// What a host answers of one message.
#[derive(Clone, Copy, Debug, PartialEq, Eq)]
pub(crate) struct Answer {
    pub(crate) step: Step,
    pub(crate) requests: usize,
}

/// What a host was handed of a node.
#[derive(Drop)]
pub(crate) struct Hearer {
    wait: u64,
    width: u64,
    /// All positions of the present session.
    handed: Vec<u64>,
    /// Those since the host began to follow the node, without the ones that a birth dropped.
    since: Vec<u64>,
    pub(crate) consumed: Vec<u64>,
    /// The position of the birth taken last.
    pub(crate) taken: Option<u64>,
    pub(crate) follows: bool,
    /// The death of the session of that birth came.
    dead: bool,
    /// When the wait began.
    began: u64,
    /// Requests and births, in all sessions.
    notes: Vec<Note>,
}

/// Where memory was refused, the growth is asked for again.
fn keep(list: &mut Vec<u64>, item: u64) {
    if list.push(item).is_err() {
        let _ = list.push(item);
    }
}

impl Source {
    pub(crate) fn new(alloc: Global, restarts: bool) -> Source {
        Source {
            restarts,
            sent: Vec::new(alloc),
            clock: 0,
        }
    }

    pub(crate) fn message(&self, position: u64) -> Option<Sent> {
        self.sent.get(position as usize).copied()
    }

    pub(crate) fn length(&self) -> u64 {
        self.sent.len() as u64
    }

    pub(crate) fn add(&mut self, sent: Sent) {
        if self.sent.push(sent).is_err() {
            let _ = self.sent.push(sent);
        }
    }

    pub(crate) fn is_birth(&self, position: u64) -> bool {
        self.message(position)
            .is_some_and(|sent| sent.about == About::NodeBirth)
    }

    fn is_stamped(&self, position: u64) -> bool {
        self.message(position)
            .is_some_and(|sent| sent.stamp.is_some())
    }

    /// The position of the last NBIRTH, if it isn't before a position.
    pub(crate) fn last_birth(&self, first: u64) -> Option<u64> {
        let start = self.sent.last()?.start;
        if start < first { None } else { Some(start) }
    }
}

impl Hearer {
    pub(crate) fn new(alloc: Global, wait: u64, width: u64) -> Hearer {
        Hearer {
            wait,
            width,
            handed: Vec::new(alloc),
            since: Vec::new(alloc),
            consumed: Vec::new(alloc),
            taken: None,
            follows: false,
            dead: false,
            began: 0,
            notes: Vec::new(alloc),
        }
    }

    /// The session of the host ends, and its next begins.
    pub(crate) fn renew(&mut self) {
        self.handed.clear();
        self.since.clear();
        self.consumed.clear();
        self.taken = None;
        self.follows = false;
        self.dead = false;
        self.began = 0;
    }

    pub(crate) fn phase(&self) -> Phase {
        if self.follows {
            Phase::Live
        } else if self.dead {
            Phase::Dead
        } else if self.taken.is_some() {
            Phase::Gap
        } else {
            Phase::Unknown
        }
    }

    /// One past the last position consumed.
    pub(crate) fn next(&self) -> u64 {
        match self.consumed.last() {
            Some(last) => last.saturating_add(1),
            None => 0,
        }
    }

    /// The greatest position handed.
    pub(crate) fn greatest(&self) -> Option<u64> {
        let mut greatest = None;
        for position in self.handed.iter() {
            if greatest.is_none_or(|other| *position > other) {
                greatest = Some(*position);
            }
        }
        greatest
    }

    /// A position waits: it is above the one that comes next, and was handed since the host began to follow.
    fn waits(&self, position: u64) -> bool {
        position > self.next() && self.since.contains(&position)
    }

    /// Some position waits.
    fn is_waiting(&self) -> bool {
        let next = self.next();
        self.since.iter().any(|position| *position > next)
    }

    /// The session of the birth taken last.
    pub(crate) fn session(&self, node: &Source) -> Option<u64> {
        node.message(self.taken?).map(|sent| sent.session)
    }

    /// `width` or more behind the greatest position handed or, while the host follows, more than 256 less twice the width ahead of it.
    /// The first is free.
    fn is_outside(&self, position: u64) -> bool {
        let Some(greatest) = self.greatest() else {
            return false;
        };
        let ahead = 256u64.saturating_sub(self.width.saturating_mul(2));
        position.saturating_add(self.width) <= greatest
            || (self.follows && position > greatest.saturating_add(ahead))
    }

    /// The network doesn't displace a message further than this. Where numbers restart, none overtakes its own birth.
    pub(crate) fn is_lawful(&self, node: &Source, position: u64) -> bool {
        let Some(sent) = node.message(position) else {
            return false;
        };
        let is_early = sent.start != position && !self.handed.contains(&sent.start);
        !self.is_outside(position) && !(node.restarts && is_early)
    }

    /// A position is consumed, and those after it that wait, up to the first that doesn't.
    fn consumes(&self, position: u64) -> Step {
        let mut count = 1u8;
        for ahead in 0..self.width {
            if !self.waits(position.saturating_add(ahead).saturating_add(1)) {
                return Step::Consumed(count);
            }
            count = count.saturating_add(1);
        }
        Step::Consumed(count)
    }

    fn birth_step(&self, node: &Source, position: u64, sent: Sent) -> Step {
        if self.taken.is_some_and(|taken| position <= taken) {
            return Step::OldBirth;
        }
        if self.dead && self.session(node) == Some(sent.session) {
            return Step::DeadSession;
        }
        self.consumes(position)
    }

    fn other_step(&self, position: u64) -> Step {
        let next = self.next();
        if !self.follows {
            Step::NotLive
        } else if position < next {
            Step::Old
        } else if position == next {
            self.consumes(position)
        } else if position >= next.saturating_add(self.width) {
            Step::Gap
        } else if self.waits(position) {
            Step::Old
        } else {
            Step::Held
        }
    }

    /// The host follows the node no more.
    fn stop(&mut self) {
        self.follows = false;
        self.since.clear();
    }

    /// A device was born since the last NBIRTH that was consumed.
    fn is_born(&self, node: &Source, device: u8) -> bool {
        for position in self.consumed.iter().rev() {
            match node.message(*position).map(|sent| sent.about) {
                Some(About::NodeBirth) => return false,
                Some(About::DeviceBirth(other)) if other == device => return true,
                _ => {}
            }
        }
        false
    }

    /// The message names an alias or a device that the births didn't give.
    fn is_foreign(&self, node: &Source, about: About) -> bool {
        match about {
            About::NodeBirth | About::DeviceBirth(_) => false,
            About::NodeData(alias) => alias > 2,
            About::DeviceData(device, alias) => alias != 4 || !self.is_born(node, device),
            About::DeviceDeath(device) => !self.is_born(node, device),
        }
    }

    fn note(&mut self, note: Note) {
        if self.notes.push(note).is_err() {
            let _ = self.notes.push(note);
        }
    }

    /// There is a cause to ask for a rebirth. One if none was asked for less than the wait before, or a birth was taken since.
    fn ask(&mut self, now: u64) -> usize {
        let is_due = match self.notes.last() {
            Some(Note::Asked(before)) => now.saturating_sub(*before) >= self.wait,
            _ => true,
        };
        if !is_due {
            return 0;
        }
        self.note(Note::Asked(now));
        1
    }

    /// A position is consumed. How many requests are due.
    fn consume(&mut self, node: &Source, position: u64, now: u64) -> usize {
        let Some(sent) = node.message(position) else {
            return 0;
        };
        let is_cause = self.is_foreign(node, sent.about);
        if sent.about == About::NodeBirth {
            self.taken = Some(position);
            self.follows = true;
            self.dead = false;
            self.note(Note::Born);
        }
        keep(&mut self.consumed, position);
        if is_cause { self.ask(now) } else { 0 }
    }

    /// Positions are consumed: so many, from the one handed on. How many requests are due.
    fn consume_all(&mut self, node: &Source, position: u64, count: u8, now: u64) -> usize {
        let mut requests = 0usize;
        for ahead in 0..u64::from(count) {
            let asked = self.consume(node, position.saturating_add(ahead), now);
            requests = requests.saturating_add(asked);
        }
        requests
    }

    /// A birth drops what is held without a timestamp.
    fn drop_unstamped(&mut self, alloc: Global, node: &Source) {
        let mut stamped = Vec::new(alloc);
        for position in self.since.iter() {
            if node.is_stamped(*position) {
                keep(&mut stamped, *position);
            }
        }
        self.since = stamped;
    }

    fn step(&mut self, alloc: Global, node: &Source, position: u64, sent: Sent) -> Step {
        if sent.about != About::NodeBirth {
            return self.other_step(position);
        }
        match self.birth_step(node, position, sent) {
            Step::Consumed(_count) => {
                self.drop_unstamped(alloc, node);
                self.consumes(position)
            }
            step => step,
        }
    }

    /// The message of a position is handed.
    pub(crate) fn hand(
        &mut self,
        alloc: Global,
        node: &Source,
        position: u64,
        sent: Sent,
        now: u64,
    ) -> Answer {
        let step = self.step(alloc, node, position, sent);
        let waited = self.is_waiting();
        keep(&mut self.handed, position);
        let requests = match step {
            Step::Consumed(count) => self.consume_all(node, position, count, now),
            Step::Gap => {
                self.stop();
                self.ask(now)
            }
            Step::NotLive => self.ask(now),
            _ => 0,
        };
        if self.follows {
            keep(&mut self.since, position);
        }
        let is_anew = matches!(step, Step::Consumed(_)) || !waited;
        if is_anew && self.is_waiting() {
            self.began = now;
        }
        Answer { step, requests }
    }

    /// The NDEATH of a session near that of the birth taken last is handed: whether it is that one's.
    pub(crate) fn tell(&mut self, node: &Source, session: u64) -> bool {
        let is_last = self.session(node) == Some(session);
        if is_last {
            self.dead = true;
            self.stop();
        }
        is_last
    }

    /// A moment comes: None without a gap, or else how many requests are due.
    pub(crate) fn tick(&mut self, now: u64) -> Option<usize> {
        let is_late = now.saturating_sub(self.began) >= self.wait;
        if !(self.follows && self.is_waiting() && is_late) {
            return None;
        }
        self.stop();
        Some(self.ask(now))
    }
}
