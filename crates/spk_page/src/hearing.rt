//! The request at the front of the bytes that came.
ghost use Rattle.std.specs.Prelude.{◌≡◌};
ghost use Rattle.spk_page.specs.Hearing.{AsksFor, limits};

use crate::asked::{Asked, asked_for};
use http1::{Event, Limits, Server};
use httparse::spans::EMPTY_HEADER_SPAN;

/// How many bytes the head of a request may have (own rule).
pub(crate) const MOST: usize = 8_192;

/// How many fields a request may have (own rule).
const FIELDS: usize = 64;

/// What a request may have.
fn limits() -> Limits
    ensures { result ≡ limits }
{
    Limits {
        max_head_len: MOST,
        max_extensions_len: MOST,
        max_trailers_len: MOST,
    }
}

/// What these bytes ask for, and the connection behind them.
pub(crate) fn hear(bytes: &[u8]) -> (Asked, Server)
    ensures { AsksFor bytes.now result.0 result.1 }
{
    let mut server = Server::new(limits());
    let mut spans = [EMPTY_HEADER_SPAN; FIELDS];
    let asked = match server.read(bytes, &mut spans) {
        Ok(progress) => match progress.event {
            Event::Head(head) => asked_for(bytes, &spans, &head),
            _ => Asked::Nothing,
        },
        Err(e) => Asked::NoRequest(e.status()),
    };
    (asked, server)
}
