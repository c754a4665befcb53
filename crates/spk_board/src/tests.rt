//! Boards that were written out by hand.
use crate::text::write_name;
use crate::{Board, Row, Screen, Values};
use spk_story::Loss;
use std::alloc::{AllocError, Global};
use std::io;
use std::process::Abort;
use std::test::Fail;

/// Twelve and a half hours behind the beginning of 1970.
const NOON: u64 = 45_000_000;

const LOST: [&str; 16] = [
    "at 45271000",
    "1 of 3 nodes are current, 2 need a look",
    "12:34:31 UTC, group G",
    "values: 5 of 13 current. devices offline: 1",
    "gaps: 1. messages missing: at least 2. came and not used: 3",
    "",
    "NODE                STATE         FOR     VALUES    LAST    GAPS MISSING UNUSED",
    "valve               READINGS LOST  61 s      0/8     71 s      1       2      3",
    "furnace             no birth yet    4 min    0/0    never      0       0      0",
    "pump                current         4 min    5/5      1 s      0       0      0",
    "",
    "12:30:01 pump                born",
    "12:30:02 valve               born",
    "12:33:30 valve               messages were lost",
    "12:33:30 valve               a rebirth was asked for",
    "",
];

const MENDED: [&str; 16] = [
    "\x1b[H\x1b[J2 of 3 nodes are current, 1 needs a look",
    "12:34:32 UTC, group G, no connection with a broker",
    "values: 13 of 13 current. devices offline: 0",
    "gaps: 1. messages missing: at least 2. came and not used: 3",
    "",
    "NODE                STATE         FOR     VALUES    LAST    GAPS MISSING UNUSED",
    "furnace             \x1b[33mno birth yet \x1b[0m   4 min    0/0    never      0       0      0",
    "pump                \x1b[32mcurrent      \x1b[0m   4 min    5/5      2 s      0       0      0",
    "valve               \x1b[32mcurrent      \x1b[0m   0 s      8/8      0 s      1       2      3",
    "",
    "12:30:01 pump                born",
    "12:30:02 valve               born",
    "12:33:30 valve               messages were lost",
    "12:33:30 valve               a rebirth was asked for",
    "12:34:32 valve               born; since 12:33:20 2 missing, 3 unused",
    "",
];

/// A pump that is current, a valve that lost readings, and a furnace that isn't born.
fn plant(alloc: Global, screen: Screen) -> Result<Board, AllocError> {
    let mut board = Board::new(alloc, String::from_str(alloc, "G")?, screen);
    board.follow(3, NOON)?;
    board.born(0, NOON + 1_000)?;
    board.born(1, NOON + 2_000)?;
    board.used(1, NOON + 200_000);
    let loss = Loss {
        unused: 3,
        missing: 2,
    };
    board.dropped(1, loss, NOON + 210_000);
    board.gap(1, NOON + 210_000)?;
    board.asked(1, NOON + 210_000)?;
    board.asked(1, NOON + 212_000)?;
    board.used(0, NOON + 270_000);
    Ok(board)
}

/// So many values, all of them current or none.
fn values(all: usize, is_current: bool, down: usize) -> Values {
    let current = if is_current { all } else { 0 };
    Values { current, all, down }
}

/// The rows of its nodes, where the valve has its values, or hasn't.
fn rows_of<'a>(
    alloc: Global,
    names: &'a [&'a str],
    board: &Board,
    has_valve: bool,
    patience: Option<u64>,
    now: u64,
) -> Result<Vec<Row<'a>>, AllocError> {
    let mut rows = Vec::new(alloc);
    for (place, name) in names.iter().enumerate() {
        let values = match place {
            0 => values(5, true, 0),
            1 if has_valve => values(8, true, 0),
            1 => values(8, false, 1),
            _ => values(0, true, 0),
        };
        if let Some(story) = board.stories().get(place) {
            rows.push(Row::new(name, story, values, patience, now))?;
        }
    }
    Ok(rows)
}

/// The text of a board.
fn drawn(
    alloc: Global,
    board: &mut Board,
    has_valve: bool,
    patience: Option<u64>,
    now: u64,
) -> io::Result<Vec<u8>> {
    let names = ["pump", "valve", "furnace"];
    let mut text = Vec::new(alloc);
    let rows = rows_of(alloc, &names, board, has_valve, patience, now)?;
    board.draw(&mut text, rows.as_slice(), now)?;
    Ok(text)
}

/// Lines, one after the other.
fn joined(alloc: Global, lines: &[&str]) -> Result<String, AllocError> {
    let mut text = String::new(alloc);
    for line in lines {
        text.push_str(line)?;
        text.push_str("\n")?;
    }
    Ok(text)
}

#[test]
fn what_needs_a_look_stands_first(rt: HostRuntime) -> Result<(), Fail> {
    let alloc = rt.alloc();
    let mut board = plant(alloc, Screen::Plain)?;
    board.connect(true);
    let text = drawn(alloc, &mut board, false, None, NOON + 271_000)?;
    assert_eq!(rt; text.as_slice(), joined(alloc, &LOST)?.as_bytes());
    Ok(())
}

#[test]
fn a_birth_mends_a_hole(rt: HostRuntime) -> Result<(), Fail> {
    let alloc = rt.alloc();
    let mut board = plant(alloc, Screen::Colours)?;
    board.born(1, NOON + 272_000)?;
    let text = drawn(alloc, &mut board, true, None, NOON + 272_000)?;
    assert_eq!(rt; text.as_slice(), joined(alloc, &MENDED)?.as_bytes());
    Ok(())
}

#[test]
fn it_is_drawn_each_second_and_soon_after_a_change(rt: HostRuntime) -> Result<(), Fail> {
    let alloc = rt.alloc();
    let mut plain = plant(alloc, Screen::Plain)?;
    let mut terminal = plant(alloc, Screen::Terminal)?;
    assert_eq!(rt; plain.due(), 0);
    let _first = drawn(alloc, &mut plain, false, None, NOON)?;
    let _second = drawn(alloc, &mut terminal, false, None, NOON)?;
    assert_eq!(rt; (plain.due(), terminal.due()), (NOON + 1_000, NOON + 1_000));
    plain.connect(true);
    terminal.connect(true);
    assert_eq!(rt; (plain.due(), terminal.due()), (NOON + 1_000, NOON + 250));
    Ok(())
}

#[test]
fn a_node_that_says_nothing_is_silent(rt: HostRuntime) -> Result<(), Fail> {
    let alloc = rt.alloc();
    let mut board = plant(alloc, Screen::Plain)?;
    let text = drawn(alloc, &mut board, false, Some(5_000), NOON + 276_000)?;
    let verdict = b"at 45276000\n0 of 3 nodes are current, 3 need a look\n";
    assert!(rt; text.as_slice().starts_with(verdict));
    let row = "pump                SILENT          1 s      0/5      6 s      0       0      0";
    let text = String::from_utf8(text).unwrap_or(String::new(alloc));
    assert!(rt; text.as_str().contains(row));
    Ok(())
}

#[test]
fn names_are_cut_and_their_controls_replaced(rt: HostRuntime) -> Result<(), Fail> {
    let rows: [(&str, usize, &str); 5] = [
        ("abc", 5, "abc  "),
        ("abcdef", 4, "abc~"),
        ("a\x1b[31mb", 8, "a?[31mb "),
        ("文字文字", 6, "文字~ "),
        ("e\u{301}", 3, "e? "),
    ];
    for (name, columns, shown) in rows {
        let mut text = Vec::new(rt.alloc());
        write_name(&mut text, name, columns)?;
        assert_eq!(rt; text.as_slice(), shown.as_bytes());
    }
    Ok(())
}
