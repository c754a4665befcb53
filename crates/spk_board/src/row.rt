//! A node's row.

use crate::screen::Screen;
use crate::text::{write_ago, write_name};
use spk_story::{Counts, Stand, Story};
use std::io::{self, Write};

/// How a node is shown.
#[derive(Clone, Copy, Debug, PartialEq, Eq)]
pub enum Look {
    /// No birth of it was consumed.
    Unborn,
    /// Its values are current.
    Current,
    /// They were, and nothing of it was consumed for too long (own rule).
    Silent,
    /// Messages were lost.
    Lost,
    /// Its session is over.
    Offline,
    /// The host's own session is over, and it wasn't born since.
    OutOfReach,
}

/// How many values are shown of a node and its devices, and how many of these are current; and how many devices are offline.
#[derive(Clone, Copy, Debug, PartialEq, Eq)]
pub struct Values {
    pub current: usize,
    pub all: usize,
    pub down: usize,
}

/// A node's row.
#[derive(Clone, Copy, Debug)]
pub struct Row<'a> {
    pub(crate) name: &'a str,
    pub(crate) look: Look,
    pub(crate) since: u64,
    pub(crate) used_at: Option<u64>,
    pub(crate) counts: Counts,
    pub(crate) values: Values,
}

/// The head of the table.
pub(crate) const HEAD: &str =
    "NODE                STATE         FOR     VALUES    LAST    GAPS MISSING UNUSED";

/// How many columns a name has.
pub(crate) const NAME: usize = 19;

/// Since when nothing was consumed for so long, if that is too long.
fn silent_since(story: &Story, patience: Option<u64>, now: u64) -> Option<u64> {
    let until = story.used_at()?.saturating_add(patience?);
    if story.stand() == Stand::Current && now >= until {
        Some(until)
    } else {
        None
    }
}

impl Look {
    /// How a node is shown that stands so.
    fn of(stand: Stand) -> Look {
        match stand {
            Stand::Unborn => Look::Unborn,
            Stand::Current => Look::Current,
            Stand::Lost => Look::Lost,
            Stand::Dead => Look::Offline,
            Stand::OutOfReach => Look::OutOfReach,
        }
    }

    /// In words of 13 columns.
    fn word(self) -> &'static str {
        match self {
            Look::Unborn => "no birth yet ",
            Look::Current => "current      ",
            Look::Silent => "SILENT       ",
            Look::Lost => "READINGS LOST",
            Look::Offline => "OFFLINE      ",
            Look::OutOfReach => "HOST WAS AWAY",
        }
    }

    /// The number of its colour on a terminal: green, yellow or red.
    fn colour(self) -> u8 {
        match self {
            Look::Current => 32,
            Look::Unborn => 33,
            Look::Silent | Look::Lost | Look::Offline | Look::OutOfReach => 31,
        }
    }
}

impl<'a> Row<'a> {
    /// The row of a node with this name, story and values. Where its values are current and nothing of it was consumed for so many milliseconds, it
    /// is silent, and no value is current.
    pub fn new(
        name: &'a str,
        story: &Story,
        values: Values,
        patience: Option<u64>,
        now: u64,
    ) -> Row<'a> {
        let mut row = Row {
            name,
            look: Look::of(story.stand()),
            since: story.since(),
            used_at: story.used_at(),
            counts: story.counts(),
            values,
        };
        if let Some(since) = silent_since(story, patience, now) {
            row.look = Look::Silent;
            row.since = since;
            row.values.current = 0;
        }
        row
    }

    /// Whether its values are current.
    pub(crate) fn is_current(&self) -> bool {
        self.look == Look::Current
    }

    /// How it stands, with its colour where there are some.
    fn write_look<W: Write>(&self, out: &mut W, screen: Screen) -> io::Result<()> {
        let word = self.look.word();
        match screen {
            Screen::Colours => {
                let colour = self.look.colour();
                write!(out, "\x1b[{colour}m{word}\x1b[0m")
            }
            Screen::Plain | Screen::Terminal => write!(out, "{word}"),
        }
    }

    /// When something of it was consumed last.
    fn write_last<W: Write>(&self, out: &mut W, now: u64) -> io::Result<()> {
        match self.used_at {
            Some(moment) => write_ago(out, moment, now),
            None => write!(out, "never  "),
        }
    }

    /// Writes it in 79 columns. Numbers that have no room stand at the greatest that has.
    pub(crate) fn write<W: Write>(&self, out: &mut W, screen: Screen, now: u64) -> io::Result<()> {
        write_name(out, self.name, NAME)?;
        write!(out, " ")?;
        self.write_look(out, screen)?;
        write!(out, " ")?;
        write_ago(out, self.since, now)?;
        let current = self.values.current.min(9_999);
        let all = self.values.all.min(9_999);
        write!(out, " {current:>4}/{all:<4} ")?;
        self.write_last(out, now)?;
        let gaps = self.counts.gaps.min(9_999);
        let missing = self.counts.missing.min(9_999_999);
        let unused = self.counts.unused.min(999_999);
        writeln!(out, "{gaps:>5}{missing:>8}{unused:>7}")
    }
}
