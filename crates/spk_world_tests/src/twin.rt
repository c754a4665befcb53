//! What a world answers of its hosts, told a second time by lists of positions alone: no bytes, no sequence numbers, no
//! slots. It is slow, and follows the words of the rules.
use spk_sequence::{Match, Step};
use spk_world::{Done, Event, Published, WorldFault};
use std::alloc::Global;

/// What the twin reads of a message in what its node published.
#[derive(Clone, Copy, Debug, PartialEq, Eq)]
pub(crate) struct Sent {
    pub(crate) birth: u64,
    pub(crate) session: u64,
    /// It is an NBIRTH.
    pub(crate) opens: bool,
}

/// A node.
#[derive(Drop)]
pub(crate) struct Source {
    restarts: bool,
    pub(crate) sent: Vec<Sent>,
    /// How many sessions were opened.
    pub(crate) sessions: u64,
}

/// What a host was handed of a node in its present session.
#[derive(Drop)]
pub(crate) struct Pair {
    /// All positions.
    handed: Vec<u64>,
    /// Those since the host began to follow the node.
    since: Vec<u64>,
    pub(crate) consumed: Vec<u64>,
    /// The position of the birth taken last.
    pub(crate) taken: Option<u64>,
    pub(crate) follows: bool,
    /// The death of the session of that birth came.
    dead: bool,
    /// When the wait began.
    began: u64,
}

/// A host.
#[derive(Drop)]
pub(crate) struct Hearer {
    wait: u64,
    pub(crate) pairs: Vec<Pair>,
}

/// A world.
#[derive(Drop)]
pub(crate) struct Twin {
    pub(crate) width: u64,
    pub(crate) nodes: Vec<Source>,
    pub(crate) hosts: Vec<Hearer>,
}

/// Where memory was refused, the growth is asked for again.
fn keep(list: &mut Vec<u64>, item: u64) {
    if list.push(item).is_err() {
        let _ = list.push(item);
    }
}

impl Source {
    pub(crate) fn new(alloc: Global, restarts: bool) -> Source {
        Source {
            restarts,
            sent: Vec::new(alloc),
            sessions: 0,
        }
    }

    pub(crate) fn message(&self, position: u64) -> Option<Sent> {
        self.sent.get(position as usize).copied()
    }

    pub(crate) fn length(&self) -> u64 {
        self.sent.len() as u64
    }

    /// The position of the NBIRTH of a birth.
    fn start_of(&self, birth: u64) -> u64 {
        let mut position = 0u64;
        for sent in self.sent.iter() {
            if sent.birth == birth {
                return position;
            }
            position = position.saturating_add(1);
        }
        position
    }

    /// The position of the first NBIRTH at a position or past it.
    pub(crate) fn birth_from(&self, first: u64) -> Option<u64> {
        let mut position = first;
        for sent in self.sent.iter().skip(first as usize) {
            if sent.opens {
                return Some(position);
            }
            position = position.saturating_add(1);
        }
        None
    }

    /// A message was published. Its birth is a new one where it isn't that of the message before it.
    fn add(&mut self, message: &Published) {
        let opens = self.sent.last().map(|last| last.birth) != Some(message.birth);
        let sent = Sent {
            birth: message.birth,
            session: message.session,
            opens,
        };
        if self.sent.push(sent).is_err() {
            let _ = self.sent.push(sent);
        }
    }
}

impl Pair {
    fn new(alloc: Global) -> Pair {
        Pair {
            handed: Vec::new(alloc),
            since: Vec::new(alloc),
            consumed: Vec::new(alloc),
            taken: None,
            follows: false,
            dead: false,
            began: 0,
        }
    }

    /// The session of the host ends, and its next begins.
    fn renew(&mut self) {
        self.handed.clear();
        self.since.clear();
        self.consumed.clear();
        self.taken = None;
        self.follows = false;
        self.dead = false;
        self.began = 0;
    }

    /// One past the last position consumed.
    pub(crate) fn next(&self) -> u64 {
        match self.consumed.last() {
            Some(last) => last.saturating_add(1),
            None => 0,
        }
    }

    /// The greatest position handed.
    pub(crate) fn greatest(&self) -> Option<u64> {
        let mut greatest = None;
        for position in self.handed.iter() {
            if greatest.is_none_or(|other| *position > other) {
                greatest = Some(*position);
            }
        }
        greatest
    }

    /// A position waits: it is above the one that comes next, and was handed since the host began to follow.
    fn waits(&self, position: u64) -> bool {
        position > self.next() && self.since.contains(&position)
    }

    /// Some position waits.
    pub(crate) fn is_waiting(&self) -> bool {
        let next = self.next();
        self.since.iter().any(|position| *position > next)
    }

    /// The session of the birth taken last.
    fn session(&self, node: &Source) -> Option<u64> {
        node.message(self.taken?).map(|sent| sent.session)
    }

    /// A session is 256 or more away from that of the birth taken last, where there is one.
    fn is_far(&self, node: &Source, session: u64) -> bool {
        match self.session(node) {
            Some(taken) => taken.saturating_add(256) <= session
                || session.saturating_add(256) <= taken,
            None => false,
        }
    }

    /// The position is outside the window: `width` or more behind the greatest one handed or, while the host follows, more
    /// than 256 less twice the width ahead of it. The first is free.
    fn is_outside(&self, width: u64, position: u64) -> bool {
        let Some(greatest) = self.greatest() else {
            return false;
        };
        let ahead = 256u64.saturating_sub(width.saturating_mul(2));
        position.saturating_add(width) <= greatest
            || (self.follows && position > greatest.saturating_add(ahead))
    }

    /// Why a message isn't handed.
    fn refusal(
        &self,
        node: &Source,
        width: u64,
        position: u64,
        message: Sent,
    ) -> Option<WorldFault> {
        if self.is_outside(width, position) {
            return Some(WorldFault::OutsideWindow);
        }
        if message.opens && self.is_far(node, message.session) {
            return Some(WorldFault::TooFar);
        }
        let is_early = !message.opens && !self.handed.contains(&node.start_of(message.birth));
        if node.restarts && is_early {
            return Some(WorldFault::OvertakesBirth);
        }
        None
    }

    /// A position is consumed, and those after it that wait, up to the first that doesn't.
    fn consumes(&self, width: u64, position: u64) -> Step {
        let mut count = 1u8;
        for ahead in 0..width {
            if !self.waits(position.saturating_add(ahead).saturating_add(1)) {
                return Step::Consumed(count);
            }
            count = count.saturating_add(1);
        }
        Step::Consumed(count)
    }

    fn birth_step(&self, node: &Source, width: u64, position: u64, message: Sent) -> Step {
        if self.taken.is_some_and(|taken| position <= taken) {
            return Step::OldBirth;
        }
        if self.dead && self.session(node) == Some(message.session) {
            return Step::DeadSession;
        }
        self.consumes(width, position)
    }

    fn message_step(&self, width: u64, position: u64) -> Step {
        let next = self.next();
        if !self.follows {
            Step::NotLive
        } else if position < next {
            Step::Old
        } else if position == next {
            self.consumes(width, position)
        } else if position >= next.saturating_add(width) {
            Step::Gap
        } else if self.waits(position) {
            Step::Old
        } else {
            Step::Held
        }
    }

    /// The host follows the node no more.
    fn stop(&mut self) {
        self.follows = false;
        self.since.clear();
    }

    /// Positions are consumed: so many, from the one handed on.
    fn consume(&mut self, position: u64, message: Sent, count: u8) {
        if message.opens {
            self.taken = Some(position);
            self.follows = true;
            self.dead = false;
        }
        for ahead in 0..u64::from(count) {
            keep(&mut self.consumed, position.saturating_add(ahead));
        }
    }

    /// The message of a position is handed.
    fn hand(
        &mut self,
        node: &Source,
        width: u64,
        position: u64,
        now: u64,
    ) -> Result<Done, WorldFault> {
        let Some(message) = node.message(position) else {
            return Err(WorldFault::NotPublished);
        };
        if let Some(refusal) = self.refusal(node, width, position, message) {
            return Err(refusal);
        }
        let step = if message.opens {
            self.birth_step(node, width, position, message)
        } else {
            self.message_step(width, position)
        };
        let waited = self.is_waiting();
        keep(&mut self.handed, position);
        match step {
            Step::Consumed(count) => self.consume(position, message, count),
            Step::Gap => self.stop(),
            _ => {}
        }
        if self.follows {
            keep(&mut self.since, position);
        }
        let anew = match step {
            Step::Consumed(_count) => true,
            _ => !waited,
        };
        if anew && self.is_waiting() {
            self.began = now;
        }
        Ok(Done::Hand(step))
    }

    /// The NDEATH of a session is handed.
    fn tell(&mut self, node: &Source, session: u64) -> Result<Done, WorldFault> {
        if session >= node.sessions {
            return Err(WorldFault::NotPublished);
        }
        if self.is_far(node, session) {
            return Err(WorldFault::TooFar);
        }
        if self.session(node) != Some(session) {
            return Ok(Done::Death(Match::Ignored));
        }
        self.dead = true;
        self.stop();
        Ok(Done::Death(Match::Matched))
    }

    /// A moment comes. Whether there is a gap.
    fn tick(&mut self, wait: u64, now: u64) -> bool {
        let is_gap = self.follows && self.is_waiting() && now.saturating_sub(self.began) >= wait;
        if is_gap {
            self.stop();
        }
        is_gap
    }

    /// What was consumed is, birth by birth in increasing order, a prefix of each birth.
    pub(crate) fn are_prefixes(&self, node: &Source) -> bool {
        let mut before: Option<u64> = None;
        for position in self.consumed.iter() {
            let Some(message) = node.message(*position) else {
                return false;
            };
            let is_next = match before {
                Some(last) => message.opens && *position > last
                    || last.checked_add(1) == Some(*position),
                None => message.opens,
            };
            if !is_next {
                return false;
            }
            before = Some(*position);
        }
        true
    }
}

impl Hearer {
    /// A host that waits so long, with nothing handed of so many nodes.
    pub(crate) fn new(alloc: Global, wait: u64, nodes: usize) -> Hearer {
        let mut pairs = Vec::new(alloc);
        for _place in 0..nodes {
            if pairs.push(Pair::new(alloc)).is_err() {
                let _ = pairs.push(Pair::new(alloc));
            }
        }
        Hearer { wait, pairs }
    }
}

impl Twin {
    pub(crate) fn pair(&self, host: usize, node: usize) -> Option<&Pair> {
        self.hosts.get(host)?.pairs.get(node)
    }

    fn hand(
        &mut self,
        host: usize,
        node: usize,
        position: u64,
        now: u64,
    ) -> Result<Done, WorldFault> {
        let source = self.nodes.get(node).ok_or(WorldFault::NoSuch)?;
        let hearer = self.hosts.get_mut(host).ok_or(WorldFault::NoSuch)?;
        let pair = hearer.pairs.get_mut(node).ok_or(WorldFault::NoSuch)?;
        pair.hand(source, self.width, position, now)
    }

    fn tell(&mut self, host: usize, node: usize, session: u64) -> Result<Done, WorldFault> {
        let source = self.nodes.get(node).ok_or(WorldFault::NoSuch)?;
        let hearer = self.hosts.get_mut(host).ok_or(WorldFault::NoSuch)?;
        let pair = hearer.pairs.get_mut(node).ok_or(WorldFault::NoSuch)?;
        pair.tell(source, session)
    }

    fn tick(&mut self, host: usize, now: u64) -> Result<Done, WorldFault> {
        let hearer = self.hosts.get_mut(host).ok_or(WorldFault::NoSuch)?;
        let mut gaps = 0usize;
        for pair in hearer.pairs.iter_mut() {
            if pair.tick(hearer.wait, now) {
                gaps = gaps.saturating_add(1);
            }
        }
        Ok(Done::Tick { gaps })
    }

    fn renew(&mut self, host: usize) -> Result<Done, WorldFault> {
        let hearer = self.hosts.get_mut(host).ok_or(WorldFault::NoSuch)?;
        for pair in hearer.pairs.iter_mut() {
            pair.renew();
        }
        Ok(Done::Session)
    }

    /// What a host's event answers, which is done; none for an event of a node.
    pub(crate) fn answer(&mut self, event: &Event) -> Option<Result<Done, WorldFault>> {
        match event {
            Event::Hand {
                host,
                node,
                position,
                now,
            } => Some(self.hand(*host, *node, *position, *now)),
            Event::Death {
                host,
                node,
                session,
                now: _,
            } => Some(self.tell(*host, *node, *session)),
            Event::Tick { host, now } => Some(self.tick(*host, *now)),
            Event::Session { host, now: _ } => Some(self.renew(*host)),
            _ => None,
        }
    }

    /// An event of a node was done: whether it opened a session, and all that the node has published.
    pub(crate) fn hear(&mut self, node: usize, opened: bool, published: &[Published]) {
        if let Some(source) = self.nodes.get_mut(node) {
            if opened {
                source.sessions = source.sessions.saturating_add(1);
            }
            for message in published.iter().skip(source.sent.len()) {
                source.add(message);
            }
        }
    }
}
