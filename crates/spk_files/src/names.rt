//! Names in a file.
ghost use Rattle.std.specs.Prelude.{◌≡◌, ◌≤◌, true, length, IfOk};
ghost use Rattle.std.specs.String.{string_bytes};
ghost use Rattle.spk_host_session.specs.Data.{is_short_name};
ghost use Rattle.spk_topics.specs.Spark.{is_name};
ghost use Rattle.spk_topics.specs.Text.{holds};

use crate::misfit::{Cause, Misfit};
use crate::part::Part;
use std::alloc::Global;

/// The most bytes of the names of a host and of its group.
const MOST_BYTES: usize = 60_000;

/// Whether a byte stands in a text.
fn has(text: &str, byte: u8) -> bool
    ensures { result ≡ holds byte text.now }
{
    text.bytes().any(|b| b == byte)
}

/// Whether a text may be a name in a topic.
pub(crate) fn is_name(text: &str) -> bool
    ensures { result ≡ is_name text.now }
{
    !text.is_empty() && !has(text, b'/') && !has(text, b'+') && !has(text, b'#') && !has(text, 0)
}

/// A name that can stand in a topic.
pub(crate) fn name_of(alloc: Global, part: Part<'_>) -> Result<String, Misfit>
    ensures { IfOk result (λ name. is_name (string_bytes name) ≡ true) }
{
    let text = part.text()?;
    if !is_name(text) {
        return Err(part.wrong(Cause::Not(
            "a name: not empty, and without `+`, `/`, `#` and U+0000",
        )));
    }
    Ok(String::from_str(alloc, text)?)
}

/// The name of a host, or of the group that it follows: one of at most 60,000 bytes.
#[tactic(auto, using(crate::proofs::Limits::is_short))]
pub(crate) fn short_name_of(alloc: Global, part: Part<'_>) -> Result<String, Misfit>
    ensures { IfOk result (λ name. is_short_name (string_bytes name) ≡ true) }
{
    let name = name_of(alloc, part)?;
    if name.len() > MOST_BYTES {
        return Err(part.wrong(Cause::Longer(MOST_BYTES)));
    }
    Ok(name)
}
