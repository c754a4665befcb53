//! A second, slow telling of MQTT's rules: a list of all that happened, and queries over it. Sessions here stay far below the
//! limit of unacknowledged messages, so routing closes nobody.
use std::alloc::{AllocError, Global};

/// Topic names as they stand in a packet. The last may not be published on.
pub(crate) static TOPICS: [&[u8]; 4] = [b"\x00\x01a", b"\x00\x03a/b", b"\x00\x02$c", b"\x00\x01+"];

pub(crate) const BAD_TOPIC: u8 = 3;

/// Topic filters as they stand in a packet. The last isn't one.
pub(crate) static FILTERS: [&[u8]; 7] = [
    b"\x00\x01a",
    b"\x00\x03a/b",
    b"\x00\x01#",
    b"\x00\x01+",
    b"\x00\x03a/#",
    b"\x00\x02$c",
    b"\x00\x02a#",
];

pub(crate) const BAD_FILTER: u8 = 6;

/// Which filters fit which topics (chapter 4.7).
fn fits(filter: u8, topic: u8) -> bool {
    match topic {
        0 => matches!(filter, 0 | 2 | 3 | 4),
        1 => matches!(filter, 1 | 2 | 4),
        _ => filter == 5,
    }
}

/// A message: the place of its topic, and a byte of payload, 0 for none.
#[derive(Clone, Copy, Debug)]
pub(crate) struct Post {
    pub topic: u8,
    pub payload: u8,
    pub qos: u8,
    pub retain: bool,
}

/// What a CONNECT says. Client 0 has an empty client id.
#[derive(Clone, Copy, Debug)]
pub(crate) struct Hello {
    pub client: u8,
    pub clean: bool,
    pub keep: u8,
    pub will: Option<Post>,
}

#[derive(Clone, Copy, Debug)]
pub(crate) enum Event {
    Opens,
    Connect(Hello),
    Publish(Post, u16),
    Ack(u16),
    /// Two filters, each with a QoS.
    Subscribe([(u8, u8); 2]),
    Unsubscribe(u8),
    Ping,
    Pong,
    Disconnect,
    /// Bytes that are no packet; of another protocol level, or not.
    Faults(bool),
    Ends,
    Ticks,
    /// A send was refused; of QoS 0, or not.
    Refused(bool),
}

/// What happened. A session's number is the count of facts when it was made.
#[derive(Clone, Copy, Debug)]
enum Fact {
    Moment(u64),
    Opened(u64),
    /// The connection, and the clock.
    Heard(u64, u64),
    Dropped(u64),
    /// The session, its client, and whether it is kept.
    Made(usize, u8, bool),
    /// The connection and the session.
    Joined(u64, usize, Hello),
    Ended(u64),
    Over(usize),
    /// The session, the filter, the QoS.
    Granted(usize, u8, u8),
    Back(usize, u8),
    /// The session, the identifier, the message, and whether it was handed out.
    Numbered(usize, u16, Post, bool),
    Acked(usize, u16),
    Routed(Post),
}

/// Where a connection stands.
#[derive(Clone, Copy, Debug, PartialEq, Eq)]
pub(crate) enum Stand {
    Gone,
    Waits,
    Sits(usize),
}

/// A packet: its first byte, and the parts of its body.
pub(crate) fn packet(alloc: Global, first: u8, parts: &[&[u8]]) -> Result<Vec<u8>, AllocError> {
    let mut body = Vec::new(alloc);
    for part in parts {
        body.extend_from_slice(part)?;
    }
    let mut bytes = Vec::new(alloc);
    bytes.push(first)?;
    bytes.push(u8::try_from(body.len()).unwrap_or(0))?;
    bytes.extend_from_slice(body.as_slice())?;
    Ok(bytes)
}

/// A PUBLISH.
pub(crate) fn publish(
    alloc: Global,
    post: Post,
    id: u16,
    dup: bool,
) -> Result<Vec<u8>, AllocError> {
    let first = 0x30 | (if dup { 8 } else { 0 }) | (if post.retain { 1 } else { 0 });
    let topic = TOPICS.get(usize::from(post.topic)).copied().unwrap_or(b"");
    let payload = [post.payload];
    let said: &[u8] = if post.payload == 0 { b"" } else { &payload };
    if post.qos == 0 {
        return packet(alloc, first, &[topic, said]);
    }
    packet(alloc, first | 2, &[topic, &id.to_be_bytes(), said])
}

/// All that happened, and what the call at hand sends and closes.
#[derive(Drop)]
pub(crate) struct Twin {
    alloc: Global,
    facts: Vec<Fact>,
    pub sends: Vec<(u64, Vec<u8>)>,
    pub closes: Vec<u64>,
    waiting: Vec<Post>,
}

impl Twin {
    pub(crate) fn new(alloc: Global) -> Twin {
        Twin {
            alloc,
            facts: Vec::new(alloc),
            sends: Vec::new(alloc),
            closes: Vec::new(alloc),
            waiting: Vec::new(alloc),
        }
    }

    fn note(&mut self, fact: Fact) -> Result<(), AllocError> {
        self.facts.push(fact)?;
        Ok(())
    }

    // ---- queries

    fn clock(&self) -> u64 {
        let mut clock = 0;
        for fact in &self.facts {
            if let Fact::Moment(now) = *fact {
                clock = now.max(clock);
            }
        }
        clock
    }

    pub(crate) fn stand(&self, conn: u64) -> Stand {
        for fact in self.facts.iter().rev() {
            match *fact {
                Fact::Opened(c) if c == conn => return Stand::Waits,
                Fact::Joined(c, session, _hello) if c == conn => return Stand::Sits(session),
                Fact::Ended(c) if c == conn => return Stand::Gone,
                _ => {}
            }
        }
        Stand::Gone
    }

    /// The clock at a connection's last packet.
    fn heard(&self, conn: u64) -> u64 {
        for fact in self.facts.iter().rev() {
            match *fact {
                Fact::Heard(c, clock) if c == conn => return clock,
                _ => {}
            }
        }
        0
    }

    fn drops(&self, conn: u64) -> usize {
        let mut drops = 0usize;
        for fact in &self.facts {
            match *fact {
                Fact::Dropped(c) if c == conn => drops = drops.saturating_add(1),
                _ => {}
            }
        }
        drops
    }

    /// The connection of a session, and what its CONNECT said.
    fn line(&self, session: usize) -> Option<(u64, Hello)> {
        for fact in self.facts.iter().rev() {
            match *fact {
                Fact::Joined(conn, s, hello) if s == session => {
                    let sits = self.stand(conn) == Stand::Sits(session);
                    return if sits { Some((conn, hello)) } else { None };
                }
                _ => {}
            }
        }
        None
    }

    fn is_over(&self, session: usize) -> bool {
        for fact in self.facts.iter().skip(session) {
            match *fact {
                Fact::Over(s) if s == session => return true,
                _ => {}
            }
        }
        false
    }

    /// The sessions that stand, with their clients, and whether they are kept.
    fn sessions(&self) -> Result<Vec<(usize, u8, bool)>, AllocError> {
        let mut sessions = Vec::new(self.alloc);
        for fact in &self.facts {
            match *fact {
                Fact::Made(session, client, kept) if !self.is_over(session) => {
                    sessions.push((session, client, kept))?;
                }
                _ => {}
            }
        }
        Ok(sessions)
    }

    fn grant(&self, session: usize, filter: u8) -> Option<u8> {
        for fact in self.facts.iter().rev() {
            match *fact {
                Fact::Granted(s, f, qos) if s == session && f == filter => return Some(qos),
                Fact::Back(s, f) if s == session && f == filter => return None,
                Fact::Made(s, _client, _kept) if s == session => return None,
                _ => {}
            }
        }
        None
    }

    /// The greatest grant that fits.
    fn best(&self, session: usize, topic: u8) -> Option<u8> {
        let mut best = None;
        for filter in 0..BAD_FILTER {
            if fits(filter, topic)
                && let Some(qos) = self.grant(session, filter)
            {
                best = Some(qos.max(best.unwrap_or(0)));
            }
        }
        best
    }

    fn last_id(&self, session: usize) -> u16 {
        for fact in self.facts.iter().rev() {
            match *fact {
                Fact::Numbered(s, id, _post, _handed) if s == session => return id,
                Fact::Made(s, _client, _kept) if s == session => return 0,
                _ => {}
            }
        }
        0
    }

    /// Whether an identifier was acknowledged since, and whether the session was joined since.
    fn since(&self, place: usize, session: usize, id: u16) -> (bool, bool) {
        let mut since = (false, false);
        for fact in self.facts.iter().skip(place) {
            match *fact {
                Fact::Acked(s, i) if s == session && i == id => since.0 = true,
                Fact::Joined(_conn, s, _hello) if s == session => since.1 = true,
                _ => {}
            }
        }
        since
    }

    /// What isn't acknowledged, and whether it was handed out before.
    fn unacked(&self, session: usize) -> Result<Vec<(u16, Post, bool)>, AllocError> {
        let mut unacked = Vec::new(self.alloc);
        for (place, fact) in self.facts.iter().enumerate() {
            if let Fact::Numbered(s, id, post, handed) = *fact
                && s == session
            {
                let (is_acked, is_joined) = self.since(place, s, id);
                if !is_acked {
                    unacked.push((id, post, handed || is_joined))?;
                }
            }
        }
        Ok(unacked)
    }

    /// The retained message of a topic.
    fn kept_on(&self, topic: u8) -> Option<Post> {
        for fact in self.facts.iter().rev() {
            match *fact {
                Fact::Routed(post) if post.retain && post.topic == topic => {
                    return if post.payload == 0 { None } else { Some(post) };
                }
                _ => {}
            }
        }
        None
    }

    /// Where the present stay of a topic's retained message began.
    fn began(&self, topic: u8) -> usize {
        let mut began = 0;
        for (place, fact) in self.facts.iter().enumerate().rev() {
            match *fact {
                Fact::Routed(post) if post.retain && post.topic == topic => {
                    if post.payload == 0 {
                        return began;
                    }
                    began = place;
                }
                _ => {}
            }
        }
        began
    }

    /// The retained messages, in the order in which their present stays began.
    fn retained(&self) -> Result<Vec<Post>, AllocError> {
        let mut retained = Vec::new(self.alloc);
        for (place, fact) in self.facts.iter().enumerate() {
            if let Fact::Routed(begins) = *fact
                && begins.retain
                && self.began(begins.topic) == place
            {
                if let Some(post) = self.kept_on(begins.topic) {
                    retained.push(post)?;
                }
            }
        }
        Ok(retained)
    }

    // ---- rules

    fn say(&mut self, conn: u64, first: u8, parts: &[&[u8]]) -> Result<(), AllocError> {
        let bytes = packet(self.alloc, first, parts)?;
        self.sends.push((conn, bytes))?;
        Ok(())
    }

    fn send(&mut self, conn: u64, post: Post, id: u16, dup: bool) -> Result<(), AllocError> {
        let bytes = publish(self.alloc, post, id, dup)?;
        self.sends.push((conn, bytes))?;
        Ok(())
    }

    /// A message for a session, with its QoS and RETAIN as they are sent.
    fn deliver(&mut self, session: usize, post: Post) -> Result<(), AllocError> {
        let line = self.line(session);
        let id = self.last_id(session).saturating_add(1);
        if post.qos == 1 {
            self.note(Fact::Numbered(session, id, post, line.is_some()))?;
        }
        if let Some((conn, _hello)) = line {
            self.send(conn, post, id, false)?;
        }
        Ok(())
    }

    fn route_one(&mut self, post: Post) -> Result<(), AllocError> {
        for (session, _client, _kept) in &self.sessions()? {
            if let Some(qos) = self.best(*session, post.topic) {
                let sent = Post {
                    topic: post.topic,
                    payload: post.payload,
                    qos: qos.min(post.qos),
                    retain: false,
                };
                self.deliver(*session, sent)?;
            }
        }
        self.note(Fact::Routed(post))
    }

    /// All that wait are routed.
    fn route(&mut self) -> Result<(), AllocError> {
        let waiting = std::mem::replace(&mut self.waiting, Vec::new(self.alloc));
        for post in &waiting {
            self.route_one(*post)?;
        }
        Ok(())
    }

    /// The connection ends, and a clean session with it; its will waits to be routed, or is discarded.
    fn leave(&mut self, conn: u64, wills: bool) -> Result<(), AllocError> {
        if let Stand::Sits(session) = self.stand(conn) {
            if let Some((_conn, hello)) = self.line(session) {
                if let Some(will) = hello.will
                    && wills
                {
                    self.waiting.push(will)?;
                }
                if hello.clean {
                    self.note(Fact::Over(session))?;
                }
            }
        }
        self.note(Fact::Ended(conn))
    }

    fn shut(&mut self, conn: u64) -> Result<(), AllocError> {
        self.leave(conn, true)?;
        self.closes.push(conn)?;
        self.route()
    }

    fn turn_away(&mut self, conn: u64, code: u8) -> Result<(), AllocError> {
        self.say(conn, 0x20, &[&[0, code]])?;
        self.shut(conn)
    }

    /// The connection that sits for a client, if any does.
    fn older(&self, client: u8) -> Result<Option<u64>, AllocError> {
        for (session, c, _kept) in &self.sessions()? {
            if let Some((conn, _hello)) = self.line(*session)
                && *c == client
                && client != 0
            {
                return Ok(Some(conn));
            }
        }
        Ok(None)
    }

    /// The kept session of a client without a connection, if there is one.
    fn away(&self, client: u8) -> Result<Option<usize>, AllocError> {
        for (session, c, kept) in &self.sessions()? {
            if *kept && *c == client && self.line(*session).is_none() {
                return Ok(Some(*session));
            }
        }
        Ok(None)
    }

    /// A kept session is taken up, and what it keeps is sent again; or a session is made.
    fn join(&mut self, conn: u64, hello: Hello, away: Option<usize>) -> Result<(), AllocError> {
        let Some(session) = away else {
            let session = self.facts.len();
            self.note(Fact::Made(session, hello.client, !hello.clean))?;
            self.note(Fact::Joined(conn, session, hello))?;
            return self.say(conn, 0x20, &[&[0, 0]]);
        };
        let unacked = self.unacked(session)?;
        self.note(Fact::Joined(conn, session, hello))?;
        self.say(conn, 0x20, &[&[1, 0]])?;
        for (id, post, dup) in &unacked {
            self.send(conn, *post, *id, *dup)?;
        }
        Ok(())
    }

    /// The older one's will, then CONNACK for the newer; the older is closed.
    fn accept(&mut self, conn: u64, hello: Hello) -> Result<(), AllocError> {
        let older = self.older(hello.client)?;
        if let Some(older) = older {
            self.leave(older, true)?;
            self.route()?;
        }
        let mut away = self.away(hello.client)?;
        if let Some(session) = away
            && hello.clean
        {
            self.note(Fact::Over(session))?;
            away = None;
        }
        self.join(conn, hello, away)?;
        if let Some(older) = older {
            self.closes.push(older)?;
        }
        Ok(())
    }

    fn connect(&mut self, conn: u64, hello: Hello) -> Result<(), AllocError> {
        if hello.client == 0 && !hello.clean {
            return self.turn_away(conn, 2);
        }
        match hello.will {
            Some(will) if will.topic == BAD_TOPIC => self.shut(conn),
            _ => self.accept(conn, hello),
        }
    }

    fn published(&mut self, conn: u64, post: Post, id: u16) -> Result<(), AllocError> {
        if post.topic == BAD_TOPIC {
            return self.shut(conn);
        }
        if post.qos == 1 {
            self.say(conn, 0x40, &[&id.to_be_bytes()])?;
        }
        self.waiting.push(post)?;
        self.route()
    }

    /// Each retained message that fits, for a new grant.
    fn offer(&mut self, session: usize, filter: u8, qos: u8) -> Result<(), AllocError> {
        for post in &self.retained()? {
            if fits(filter, post.topic) {
                let sent = Post {
                    topic: post.topic,
                    payload: post.payload,
                    qos: qos.min(post.qos),
                    retain: true,
                };
                self.deliver(session, sent)?;
            }
        }
        Ok(())
    }

    fn subscribe(
        &mut self,
        conn: u64,
        session: usize,
        asked: [(u8, u8); 2],
    ) -> Result<(), AllocError> {
        let [(f, p), (g, q)] = asked;
        if f == BAD_FILTER || g == BAD_FILTER {
            return self.shut(conn);
        }
        self.note(Fact::Granted(session, f, p.min(1)))?;
        self.note(Fact::Granted(session, g, q.min(1)))?;
        self.say(conn, 0x90, &[&[0, 9, p.min(1), q.min(1)]])?;
        self.offer(session, f, p.min(1))?;
        self.offer(session, g, q.min(1))
    }

    fn unsubscribe(&mut self, conn: u64, session: usize, filter: u8) -> Result<(), AllocError> {
        if filter == BAD_FILTER {
            return self.shut(conn);
        }
        self.note(Fact::Back(session, filter))?;
        self.say(conn, 0xb0, &[&[0, 9]])
    }

    /// A packet of a connection whose CONNECT was accepted. There is no identifier 0.
    fn packet(&mut self, conn: u64, session: usize, event: Event) -> Result<(), AllocError> {
        match event {
            Event::Publish(post, id) => self.published(conn, post, id),
            Event::Ack(id) if id > 0 => self.note(Fact::Acked(session, id)),
            Event::Subscribe(asked) => self.subscribe(conn, session, asked),
            Event::Unsubscribe(filter) => self.unsubscribe(conn, session, filter),
            Event::Ping => self.say(conn, 0xd0, &[]),
            Event::Disconnect => self.leave(conn, false),
            _ => self.shut(conn),
        }
    }

    fn refused(&mut self, conn: u64, is_plain: bool, limit: usize) -> Result<(), AllocError> {
        if is_plain {
            self.note(Fact::Dropped(conn))?;
            if self.drops(conn) < limit {
                return Ok(());
            }
        }
        self.shut(conn)
    }

    /// All silent ones end, then their wills are routed.
    fn tick(&mut self) -> Result<(), AllocError> {
        let clock = self.clock();
        for (session, _client, _kept) in &self.sessions()? {
            if let Some((conn, hello)) = self.line(*session) {
                let silence = clock.saturating_sub(self.heard(conn));
                if hello.keep > 0 && silence > u64::from(hello.keep).saturating_mul(1_500) {
                    self.leave(conn, true)?;
                    self.closes.push(conn)?;
                }
            }
        }
        self.route()
    }

    fn heard_packet(&mut self, conn: u64, event: Event) -> Result<(), AllocError> {
        self.note(Fact::Heard(conn, self.clock()))?;
        match (self.stand(conn), event) {
            (Stand::Sits(session), _) => self.packet(conn, session, event),
            (_, Event::Connect(hello)) => self.connect(conn, hello),
            _ => self.shut(conn),
        }
    }

    fn told(&mut self, conn: u64, event: Event, limit: usize) -> Result<(), AllocError> {
        match event {
            Event::Opens => self.note(Fact::Opened(conn)),
            Event::Faults(true) if self.stand(conn) == Stand::Waits => self.turn_away(conn, 1),
            Event::Faults(_is_level) => self.shut(conn),
            Event::Ends => {
                self.leave(conn, true)?;
                self.route()
            }
            Event::Ticks => self.tick(),
            Event::Refused(is_plain) => self.refused(conn, is_plain, limit),
            _ => self.heard_packet(conn, event),
        }
    }

    /// What an event sends and closes. False where its connection isn't open, and nothing is done.
    pub(crate) fn tells(
        &mut self,
        conn: u64,
        event: Event,
        now: u64,
        limit: usize,
    ) -> Result<bool, AllocError> {
        self.sends.clear();
        self.closes.clear();
        let needs = !matches!(event, Event::Opens | Event::Ticks);
        if needs && self.stand(conn) == Stand::Gone {
            return Ok(false);
        }
        self.note(Fact::Moment(now))?;
        self.told(conn, event, limit)?;
        Ok(true)
    }
}
