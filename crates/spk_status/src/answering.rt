//! What is answered, as HTTP/1.1.
ghost use Rattle.std.specs.Prelude.{◌≡◌, is_some, IfOk};
ghost use Rattle.spk_status.specs.Asked.{status_of};

use crate::asked::Asked;
use crate::figures::Figures;
use std::alloc::{AllocError, Global};

/// What stands behind a status.
fn reason(status: u16) -> &'static str {
    match status {
        200 => "OK",
        404 => "Not Found",
        405 => "Method Not Allowed",
        _ => "Bad Request",
    }
}

/// The text of an answer: of 200 the figures, else its reason; none of 405, since the method may be HEAD (RFC 9110, section 9.3.2).
fn body(alloc: Global, status: u16, figures: &Figures) -> Result<String, AllocError> {
    if status == 200 {
        return format!(in alloc; "{figures}");
    }
    if status == 405 {
        return Ok(String::new(alloc));
    }
    let reason = reason(status);
    format!(in alloc; "{reason}\n")
}

/// What is said of the methods that are answered, where another one came (RFC 9110, section 15.5.6).
fn allow(status: u16) -> &'static str {
    if status == 405 { "Allow: GET\r\n" } else { "" }
}

/// A whole answer of this status, behind which the connection is closed (RFC 9112, sections 4 and 9.6).
fn whole(alloc: Global, status: u16, figures: &Figures) -> Result<String, AllocError> {
    let body = body(alloc, status, figures)?;
    let count = body.len();
    let reason = reason(status);
    let allow = allow(status);
    format!(in alloc;
        "HTTP/1.1 {status} {reason}\r\n{allow}Content-Type: text/plain; version=0.0.4; charset=utf-8\r\nContent-Length: {count}\r\nConnection: close\r\n\r\n{body}"
    )
}

/// The bytes that answer what is asked, behind which the connection is closed; none where there is no answer yet. Refused only where
/// memory is.
pub fn answer(alloc: Global, asked: Asked, figures: &Figures) -> Result<Option<String>, AllocError>
    ensures { IfOk result (λ r. is_some r ≡ is_some (status_of asked)) }
{
    let Some(status) = asked.status() else {
        return Ok(None);
    };
    let text = whole(alloc, status, figures)?;
    Ok(Some(text))
}
