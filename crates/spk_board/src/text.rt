//! Names, times and moments in columns.

use std::io::{self, Write};
use unicode_width::UnicodeWidthChar;

/// A character as it is shown, and its columns: `?` in place of one that has none, as controls and marks.
fn shown(c: char) -> (char, usize) {
    match c.width() {
        Some(width) if width > 0 => (c, width),
        _ => ('?', 1),
    }
}

/// How many columns a name takes.
fn columns_of(name: &str) -> usize {
    let mut columns: usize = 0;
    for c in name.chars() {
        let (_shown, width) = shown(c);
        columns = columns.saturating_add(width);
    }
    columns
}

/// A name from the network, in so many columns. One that is wider is cut, and ends with `~`.
pub(crate) fn write_name<W: Write>(out: &mut W, name: &str, columns: usize) -> io::Result<()> {
    let fits = columns_of(name) <= columns;
    let room = if fits {
        columns
    } else {
        columns.saturating_sub(1)
    };
    let mut used: usize = 0;
    for c in name.chars() {
        let (c, width) = shown(c);
        if used.saturating_add(width) > room {
            break;
        }
        used = used.saturating_add(width);
        write!(out, "{c}")?;
    }
    if !fits {
        used = used.saturating_add(1);
        write!(out, "~")?;
    }
    for _ in used..columns {
        write!(out, " ")?;
    }
    Ok(())
}

/// A name in as many columns as it takes, and in 30 at most.
pub(crate) fn write_short<W: Write>(out: &mut W, name: &str) -> io::Result<()> {
    write_name(out, name, columns_of(name).min(30))
}

/// A time in milliseconds as a number and a unit, each of three columns.
fn span_of(time: u64) -> (u64, &'static str) {
    let seconds = time / 1_000;
    if seconds < 100 {
        (seconds, "s  ")
    } else if seconds < 6_000 {
        (seconds / 60, "min")
    } else if seconds < 360_000 {
        (seconds / 3_600, "h  ")
    } else {
        ((seconds / 86_400).min(999), "d  ")
    }
}

/// How long ago a moment is, in seven columns.
pub(crate) fn write_ago<W: Write>(out: &mut W, moment: u64, now: u64) -> io::Result<()> {
    let (count, unit) = span_of(now.saturating_sub(moment));
    write!(out, "{count:>3} {unit}")
}

/// The time of day of a moment in milliseconds since 1970, in eight columns (UTC).
pub(crate) fn write_time<W: Write>(out: &mut W, moment: u64) -> io::Result<()> {
    let seconds = moment / 1_000 % 86_400;
    let hour = seconds / 3_600;
    let minute = seconds / 60 % 60;
    let second = seconds % 60;
    write!(out, "{hour:02}:{minute:02}:{second:02}")
}
