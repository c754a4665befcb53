//! When and how a board is drawn.
ghost use Rattle.std.specs.Prelude.{◌≡◌, false, Some};
ghost use Rattle.spk_board.specs.Happening.{due};

use crate::board::Board;
use crate::row::{HEAD, Row};
use crate::screen::Screen;
use crate::text::{write_short, write_time};
use std::io::{self, Write};

/// How often a board is drawn, and how soon after a change on a terminal, in milliseconds (own rules).
const SECOND: u64 = 1_000;

const QUARTER: u64 = 250;

/// How many nodes have a row (own rule).
const ROWS: u64 = 24;

/// What the rows come to.
#[derive(Clone, Copy, Debug, PartialEq, Eq)]
struct Totals {
    nodes: u64,
    current: u64,
    values: usize,
    shown: usize,
    down: usize,
    gaps: u64,
    missing: u64,
    unused: u64,
}

/// What the rows come to.
fn totals_of(rows: &[Row<'_>]) -> Totals {
    let mut t = Totals {
        nodes: 0,
        current: 0,
        values: 0,
        shown: 0,
        down: 0,
        gaps: 0,
        missing: 0,
        unused: 0,
    };
    for row in rows {
        t.nodes = t.nodes.saturating_add(1);
        if row.is_current() {
            t.current = t.current.saturating_add(1);
        }
        t.values = t.values.saturating_add(row.values.current);
        t.shown = t.shown.saturating_add(row.values.all);
        t.down = t.down.saturating_add(row.values.down);
        t.gaps = t.gaps.saturating_add(row.counts.gaps);
        t.missing = t.missing.saturating_add(row.counts.missing);
        t.unused = t.unused.saturating_add(row.counts.unused);
    }
    t
}

/// How many nodes are current, and how many need a look.
fn write_verdict<W: Write>(out: &mut W, totals: Totals) -> io::Result<()> {
    let Totals { nodes, current, .. } = totals;
    let other = nodes.saturating_sub(current);
    if nodes == 0 {
        writeln!(out, "no node was heard yet")
    } else if other == 0 {
        writeln!(out, "{current} of {nodes} nodes are current")
    } else if other == 1 {
        writeln!(
            out,
            "{current} of {nodes} nodes are current, 1 needs a look"
        )
    } else {
        writeln!(
            out,
            "{current} of {nodes} nodes are current, {other} need a look"
        )
    }
}

/// Values, devices and gaps of all nodes.
fn write_totals<W: Write>(out: &mut W, totals: Totals) -> io::Result<()> {
    let Totals {
        values,
        shown,
        down,
        gaps,
        missing,
        unused,
        ..
    } = totals;
    writeln!(
        out,
        "values: {values} of {shown} current. devices offline: {down}"
    )?;
    writeln!(
        out,
        "gaps: {gaps}. messages missing: at least {missing}. came and not used: {unused}"
    )
}

/// Rows of the nodes that are current, or of the others: at most so many. How many more there are.
fn write_rows<W: Write>(
    out: &mut W,
    rows: &[Row<'_>],
    is_current: bool,
    most: u64,
    screen: Screen,
    now: u64,
) -> io::Result<u64> {
    let mut written: u64 = 0;
    let mut more: u64 = 0;
    for row in rows {
        if row.is_current() == is_current {
            if written < most {
                row.write(out, screen, now)?;
                written = written.saturating_add(1);
            } else {
                more = more.saturating_add(1);
            }
        }
    }
    Ok(more)
}

/// The table: what needs a look first.
fn write_table<W: Write>(
    out: &mut W,
    rows: &[Row<'_>],
    totals: Totals,
    screen: Screen,
    now: u64,
) -> io::Result<()> {
    writeln!(out, "{HEAD}")?;
    let other = totals.nodes.saturating_sub(totals.current);
    let hidden = write_rows(out, rows, false, ROWS, screen, now)?;
    let room = ROWS.saturating_sub(other);
    let more = write_rows(out, rows, true, room, screen, now)?;
    if hidden > 0 {
        writeln!(out, "and {hidden} more that need a look")?;
    }
    if more > 0 {
        writeln!(out, "and {more} more that are current")?;
    }
    Ok(())
}

impl Board {
    /// When it is to be drawn: a second after it was drawn last, or on a terminal a quarter after that where something changed since.
    pub fn due(&self) -> u64
        ensures { result ≡ due self.now self.now.drawn }
    {
        let pause = match self.screen {
            Screen::Terminal | Screen::Colours if self.is_changed => QUARTER,
            _ => SECOND,
        };
        match self.drawn {
            Some(drawn) => drawn.saturating_add(pause),
            None => 0,
        }
    }

    /// What stands above the table.
    fn write_top<W: Write>(&self, out: &mut W, totals: Totals, now: u64) -> io::Result<()> {
        match self.screen {
            Screen::Plain => writeln!(out, "at {now}")?,
            Screen::Terminal | Screen::Colours => write!(out, "\x1b[H\x1b[J")?,
        }
        write_verdict(out, totals)?;
        write_time(out, now)?;
        write!(out, " UTC, group ")?;
        write_short(out, self.group.as_str())?;
        if self.is_connected {
            writeln!(out)?;
        } else {
            writeln!(out, ", no connection with a broker")?;
        }
        write_totals(out, totals)?;
        writeln!(out)
    }

    /// What happened last, the newest at the end.
    fn write_events<W: Write>(&self, out: &mut W, rows: &[Row<'_>]) -> io::Result<()> {
        for event in self.events.iter() {
            let name = match event.place {
                Some(place) => rows.get(place).map_or("", |row| row.name),
                None => "-",
            };
            event.write(out, name)?;
        }
        Ok(())
    }

    /// Writes the board with these rows, which stand by the places of their nodes.
    pub fn draw<W: Write>(&mut self, out: &mut W, rows: &[Row<'_>], now: u64) -> io::Result<()>
        ensures { self.new ≡ record self.old { drawn = Some now; is_changed = false } }
    {
        self.drawn = Some(now);
        self.is_changed = false;
        let totals = totals_of(rows);
        self.write_top(out, totals, now)?;
        write_table(out, rows, totals, self.screen, now)?;
        writeln!(out)?;
        self.write_events(out, rows)?;
        writeln!(out)
    }
}
