//! What is asked of the page.
ghost use Rattle.std.specs.Prelude.{◌≡◌};
ghost use Rattle.spk_status.specs.Asked.{AsksFor, asked_for, status_of};

use httparse::Status;
use httparse::spans::{EMPTY_HEADER_SPAN, parse_request};

/// How many bytes are looked at (own rule).
const MOST: usize = 4_096;

/// How many fields a request may have (own rule).
const FIELDS: usize = 64;

/// What is asked of the page.
#[derive(Clone, Copy, Debug, PartialEq, Eq)]
pub enum Asked {
    /// No whole request has come yet.
    Nothing,
    /// GET of the page: of `/metrics` or `/`.
    Page,
    /// GET of something else.
    Elsewhere,
    /// Another method.
    Otherwise,
    /// What is no request, or has more than 4,096 bytes or 64 fields (own rule).
    NoRequest,
}

impl Asked {
    /// What these bytes ask for: the request at their front, by the grammar of RFC 9112.
    pub fn of(bytes: &[u8]) -> Asked
        ensures { AsksFor bytes.now result }
    {
        if bytes.len() > MOST {
            return Asked::NoRequest;
        }
        let mut fields = [EMPTY_HEADER_SPAN; FIELDS];
        match parse_request(bytes, &mut fields) {
            Ok(Status::Complete(head)) => asked_for(head.method.of(bytes), head.path.of(bytes)),
            Ok(Status::Partial) => Asked::Nothing,
            Err(_) => Asked::NoRequest,
        }
    }

    /// The status of the answer (RFC 9110, section 15). None where there is no answer yet.
    pub fn status(self) -> Option<u16>
        ensures { result ≡ status_of self }
    {
        match self {
            Asked::Nothing => None,
            Asked::Page => Some(200),
            Asked::Elsewhere => Some(404),
            Asked::Otherwise => Some(405),
            Asked::NoRequest => Some(400),
        }
    }
}

/// What a request of this method and target asks for.
fn asked_for(method: &[u8], target: &[u8]) -> Asked
    ensures { result ≡ asked_for method.now target.now }
{
    if method != b"GET".as_slice() {
        return Asked::Otherwise;
    }
    if target == b"/metrics".as_slice() || target == b"/".as_slice() {
        Asked::Page
    } else {
        Asked::Elsewhere
    }
}
