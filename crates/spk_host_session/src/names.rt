//! Names that can stand in topics.
ghost use Rattle.std.specs.Prelude.{◌≡◌, ◌&&◌, ◌+◌, nat_le, length};
ghost use Rattle.spk_topics.specs.Spark.{is_name};
ghost use Rattle.spk_topics.specs.Text.{holds};
ghost use Rattle.spk_host_session.specs.Data as plain;

/// Whether a byte stands in a text.
fn has(text: &str, byte: u8) -> bool
    ensures { result ≡ holds byte text.now }
{
    text.bytes().any(|b| b == byte)
}

/// Whether a text may be a name in a topic.
pub(crate) fn is_name(text: &str) -> bool
    ensures { result ≡ is_name text.now }
{
    !text.is_empty() && !has(text, b'/') && !has(text, b'+') && !has(text, b'#') && !has(text, 0)
}

/// Whether it is one of at most 60,000 bytes.
pub(crate) fn is_short_name(text: &str) -> bool
    ensures { result ≡ plain.is_short_name text.now }
{
    is_name(text) && text.len() <= 60_000
}

/// Whether a request's topic can be written: names, and at most 65,535 bytes in all.
pub(crate) fn is_address(group: &str, node: &str) -> bool
    ensures { result ≡ plain.is_address group.now node.now }
{
    is_name(group) && is_name(node) && group.len() <= 65_521 && node.len() <= 65_521 - group.len()
}
