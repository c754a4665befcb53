//! What is answered, as HTTP/1.1.
ghost use Rattle.std.specs.Prelude.{◌≡◌, IfOk};
ghost use Rattle.spk_page.specs.Answers.{ReadsBack, reason_of};

use crate::html::POLICY;
use http1::{BodySize, Header, Server, WriteError};
use std::alloc::Global;

/// The words behind a status.
fn reason(status: u16) -> &'static [u8]
    ensures { result.now ≡ reason_of status }
{
    match status {
        200 => b"OK",
        403 => b"Forbidden",
        404 => b"Not Found",
        405 => b"Method Not Allowed",
        414 => b"URI Too Long",
        431 => b"Request Header Fields Too Large",
        503 => b"Service Unavailable",
        _ => b"Bad Request",
    }
}

/// A whole answer with this status and a body of this type, behind which the connection is closed (RFC 9112, section 9.6). Refused where it can't be
/// sent, or memory is.
pub(crate) fn written(
    alloc: Global,
    server: &mut Server,
    status: u16,
    kind: &[u8],
    body: &[u8],
) -> Result<Vec<u8>, WriteError>
    // it is read again as one response with this status, these fields and others of its frame, and this body
    ensures { IfOk result (λ t. ReadsBack server.old status kind.now body.now t.items) }
{
    let headers = [
        Header {
            name: b"content-type",
            value: kind,
        },
        Header {
            name: b"cache-control",
            value: b"no-store",
        },
        Header {
            name: b"content-security-policy",
            value: POLICY,
        },
        Header {
            name: b"x-content-type-options",
            value: b"nosniff",
        },
        Header {
            name: b"referrer-policy",
            value: b"no-referrer",
        },
        Header {
            name: b"connection",
            value: b"close",
        },
        Header {
            name: b"allow",
            value: b"GET",
        },
    ];
    let mut text = Vec::new(alloc);
    let size = BodySize::Known(body.len() as u64);
    server.write_response(&mut text, status, reason(status), &headers, size)?;
    server.write_data(&mut text, body)?;
    server.write_end(&mut text, &[])?;
    Ok(text)
}
