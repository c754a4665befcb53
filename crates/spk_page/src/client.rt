//! One client's connection, without IO: bytes in, bytes out (RFC 9112). It is told the moment, in milliseconds.
ghost use Rattle.std.specs.Prelude.{◌≡◌, ◌-◌, [], drop, not, true, codes, length, IfOk, OnOk, OnErr};
ghost use Rattle.http1.specs.Conn.{data_text};
ghost use Rattle.http1.specs.Server.{after_response, planned_response, writing};
ghost use Rattle.spk_page.specs.Answers.{ReadsBack};
ghost use Rattle.spk_page.specs.Clients.{HasHeard, HasHeardBy, deadline_of, event_text, has_come, is_answered, is_empty, is_over, next_event, ping_text, stage_by, stream_fields, told_by};

use crate::answer::written;
use crate::asked::Asked;
use crate::fault::PageFault;
use crate::hearing::hear;
use crate::stage::Stage;
use http1::{BodySize, Header, Server};
use std::alloc::{AllocError, Global};
use std::marker::Model;

/// How long a request may take to come whole (own rule).
const REQUEST: u64 = 10_000;

/// How long bytes may wait while none of them is taken (own rule).
const WRITE: u64 = 30_000;

/// How long after an event the next comes at the soonest (own rule), and at the latest.
const PAUSE: u64 = 250;

const PING: u64 = 15_000;

/// What a stream of events says of itself.
const STREAM: [Header<'static>; 4] = [
    Header {
        name: b"content-type",
        value: b"text/event-stream",
    },
    Header {
        name: b"cache-control",
        value: b"no-store",
    },
    Header {
        name: b"x-content-type-options",
        value: b"nosniff",
    },
    Header {
        name: b"connection",
        value: b"close",
    },
];

/// Whether a moment has come.
fn has_come(until: Option<u64>, now: u64) -> bool
    ensures { result ≡ has_come until now }
{
    match until {
        Some(until) => now >= until,
        None => false,
    }
}

/// How far a connection is of which this is asked.
fn stage_by(asked: Asked) -> Stage
    ensures { result ≡ stage_by asked }
{
    match asked {
        Asked::Nothing => Stage::Hearing,
        _ => Stage::Asked,
    }
}

/// One client's connection. Contracts see the `Client` of `specs/Clients.antt`.
#[derive(Drop)]
pub struct Client {
    alloc: Global,
    server: Server,
    input: Vec<u8>,
    output: Vec<u8>,
    /// How many bytes of the output were written.
    written: usize,
    stage: Stage,
    /// When it began, or bytes were taken last.
    since: u64,
}

impl Model for Client {
    ghost use Rattle.std.specs.Prelude.{◌≤◌, drop, length};
    ghost use Rattle.spk_page.specs.Clients as plain;

    ghost Value = { plain.Client };

    ghost view = { λ c. record {
      server = c.server;
      input = c.input.items;
      unwritten = drop c.written c.output.items;
      stage = c.stage;
      since = c.since;
    } };

    ghost invariant = { λ c. c.written ≤ length c.output.items };
}

impl Client {
    /// A connection that began at this moment.
    pub fn new(alloc: Global, now: u64) -> Client
        ensures input { result.input ≡ [] }
        ensures unwritten { result.unwritten ≡ [] }
        ensures stage { result.stage ≡ Stage.Hearing }
        ensures since { result.since ≡ now }
    {
        let (_asked, server) = hear(b"");
        Client {
            alloc,
            server,
            input: Vec::new(alloc),
            output: Vec::new(alloc),
            written: 0,
            stage: Stage::Hearing,
            since: now,
        }
    }

    /// How far it is.
    pub fn stage(&self) -> Stage
        ensures { result ≡ self.now.stage }
    {
        self.stage
    }

    /// Bytes came. What all that came asks for: once it is something, the connection waits for the answer, and takes no more bytes. Refused only where
    /// memory is; then nothing has changed.
    pub fn hear(&mut self, piece: &[u8]) -> Result<Asked, AllocError>
        ensures asked { IfOk result (HasHeard self.old piece.now self.new) }
        ensures unwritten { self.new.unwritten ≡ self.old.unwritten }
        ensures since { self.new.since ≡ self.old.since }
        ensures unchanged { OnErr result (self.new ≡ self.old) }
    {
        match self.stage {
            Stage::Hearing => self.take(piece),
            _ => Ok(Asked::Nothing),
        }
    }

    /// Bytes came while a request is awaited.
    fn take(&mut self, piece: &[u8]) -> Result<Asked, AllocError>
        ensures asked { IfOk result (HasHeardBy true self.old piece.now self.new) }
        ensures unwritten { self.new.unwritten ≡ self.old.unwritten }
        ensures since { self.new.since ≡ self.old.since }
        ensures unchanged { OnErr result (self.new ≡ self.old) }
    {
        self.input.extend_from_slice(piece)?;
        let (asked, server) = hear(&self.input);
        self.server = server;
        self.stage = stage_by(asked);
        Ok(asked)
    }

    /// Answers what is asked for with this status and a body of this type: what waits to be written is the answer, whole, and behind it the connection is
    /// closed. Refused where nothing is asked for (NotSent, 122), and where memory is; then nothing has changed but that it can't be answered again.
    pub fn answer(
        &mut self,
        status: u16,
        kind: &[u8],
        body: &[u8],
        now: u64,
    ) -> Result<(), PageFault>
        ensures text { OnOk result
            (ReadsBack self.old.server status kind.now body.now self.new.unwritten) }
        ensures asked { OnOk result (self.old.stage ≡ Stage.Asked) }
        ensures stage { OnOk result (self.new.stage ≡ Stage.Ending) }
        ensures since { OnOk result (self.new.since ≡ now) }
    {
        if self.stage != Stage::Asked {
            return Err(PageFault::NotSent);
        }
        self.output = written(self.alloc, &mut self.server, status, kind, body)?;
        self.written = 0;
        self.stage = Stage::Ending;
        self.since = now;
        Ok(())
    }

    /// What waits to be written.
    pub fn unwritten(&self) -> &[u8]
        ensures { result.now ≡ self.now.unwritten }
    {
        &self.output[self.written..]
    }

    /// So many of the bytes that wait were written.
    pub fn wrote(&mut self, count: usize, now: u64)
        ensures { self.new
            ≡ record self.old { unwritten = drop count self.old.unwritten; since = now } }
    {
        let left = self.output.len() - self.written;
        self.written += count.min(left);
        self.since = now;
    }

    /// Whether bytes wait to be written.
    fn is_waiting(&self) -> bool
        ensures { result ≡ not (is_empty self.now.unwritten) }
    {
        match self.unwritten() {
            [] => false,
            _ => true,
        }
    }

    /// Until when it may go on as it is: until its request is whole, or the bytes that wait are taken. None where nothing is waited for.
    pub fn deadline(&self) -> Option<u64>
        ensures { result ≡ deadline_of self.now }
    {
        if self.is_waiting() {
            return Some(self.since.saturating_add(WRITE));
        }
        match self.stage {
            Stage::Hearing => Some(self.since.saturating_add(REQUEST)),
            _ => None,
        }
    }

    /// Whether it was answered and all is written.
    fn is_answered(&self) -> bool
        ensures { result ≡ is_answered self.now }
    {
        match self.stage {
            Stage::Ending => !self.is_waiting(),
            _ => false,
        }
    }

    /// Whether it is to be closed: it was answered and all is written, or it is past its time.
    pub fn is_over(&self, now: u64) -> bool
        ensures { result ≡ is_over self.now now }
    {
        self.is_answered() || has_come(self.deadline(), now)
    }

    /// When the next event is due: a quarter of a second after the last where there is news, and else a sign of life after 15 seconds. None where no events
    /// go out, or bytes of the last still wait.
    pub fn next_event(&self, has_news: bool) -> Option<u64>
        ensures { result ≡ next_event self.now has_news }
    {
        if self.is_waiting() {
            return None;
        }
        match self.stage {
            Stage::Streaming(told) => Some(told.saturating_add(if has_news {
                PAUSE
            } else {
                PING
            })),
            _ => None,
        }
    }

    /// Begins a stream of events (HTML, section 9.2), the first of which is due at once. Refused where nothing is asked for (NotSent, 122), and where memory
    /// is.
    pub fn stream(&mut self, now: u64) -> Result<(), PageFault>
        ensures text { OnOk result (self.new.unwritten
            ≡ planned_response self.old.server 200 (codes "OK") BodySize.Unknown stream_fields) }
        ensures server { OnOk result (self.new.server
            ≡ after_response self.old.server 200 BodySize.Unknown stream_fields) }
        ensures asked { OnOk result (self.old.stage ≡ Stage.Asked) }
        ensures stage { OnOk result (self.new.stage ≡ Stage.Streaming (now - 250)) }
        ensures since { OnOk result (self.new.since ≡ now) }
    {
        if self.stage != Stage::Asked {
            return Err(PageFault::NotSent);
        }
        let mut text = Vec::new(self.alloc);
        let size = BodySize::Unknown;
        self.server
            .write_response(&mut text, 200, b"OK", &STREAM, size)?;
        self.output = text;
        self.written = 0;
        self.stage = Stage::Streaming(now.saturating_sub(PAUSE));
        self.since = now;
        Ok(())
    }

    /// An event goes out with these bytes.
    fn send(&mut self, event: &[u8], now: u64) -> Result<(), PageFault>
        ensures text { OnOk result
            (self.new.unwritten ≡ data_text (writing self.old.server) event.now) }
        ensures server { OnOk result (self.new.server
            ≡ told_by self.old.server (length event.now)) }
        ensures due { OnOk result (has_come (next_event self.old true) now ≡ true) }
        ensures stage { OnOk result (self.new.stage ≡ Stage.Streaming now) }
        ensures since { OnOk result (self.new.since ≡ now) }
    {
        if !has_come(self.next_event(true), now) {
            return Err(PageFault::NotSent);
        }
        let mut text = Vec::new(self.alloc);
        self.server.write_data(&mut text, event)?;
        self.output = text;
        self.written = 0;
        self.stage = Stage::Streaming(now);
        self.since = now;
        Ok(())
    }

    /// Tells a text without line ends as an event. Refused where none is due (NotSent, 122), and where memory is.
    pub fn tell(&mut self, text: &str, now: u64) -> Result<(), PageFault>
        ensures text { OnOk result
            (self.new.unwritten ≡ data_text (writing self.old.server) (event_text text.now)) }
        ensures server { OnOk result (self.new.server
            ≡ told_by self.old.server (length (event_text text.now))) }
        ensures due { OnOk result (has_come (next_event self.old true) now ≡ true) }
        ensures stage { OnOk result (self.new.stage ≡ Stage.Streaming now) }
        ensures since { OnOk result (self.new.since ≡ now) }
    {
        let event = format!(in self.alloc; "data: {text}\n\n")?;
        self.send(event.as_bytes(), now)
    }

    /// Tells that it is alive. Refused as `tell` is.
    pub fn ping(&mut self, now: u64) -> Result<(), PageFault>
        ensures text { OnOk result
            (self.new.unwritten ≡ data_text (writing self.old.server) ping_text) }
        ensures server { OnOk result (self.new.server
            ≡ told_by self.old.server (length ping_text)) }
        ensures due { OnOk result (has_come (next_event self.old true) now ≡ true) }
        ensures stage { OnOk result (self.new.stage ≡ Stage.Streaming now) }
        ensures since { OnOk result (self.new.since ≡ now) }
    {
        self.send(b"event: ping\ndata: {}\n\n", now)
    }
}
