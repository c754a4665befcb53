//! What is printed.

use std::io::Write;
use std::str;

/// Writes lines on a page, each behind a name. None where they aren't text.
pub(crate) fn write_lines(page: &mut Vec<u8>, name: &str, mark: &str, bytes: &[u8]) -> Option<()> {
    for line in str::from_utf8(bytes).ok()?.lines() {
        writeln!(page, "{name}{mark} {line}").ok()?;
    }
    Some(())
}
