//! The events of a scene.
//!
//! | Event | What happens |
//! |---|---|
//! | `at MOMENT` | the clock goes there, in steps of 100 ms |
//! | `late MOMENT` | the clock goes there at once, as where a machine stood still |
//! | `file NAME TEXT` | there is a file of this name |
//! | `stuck NAME COUNT` | a file can't be kept so many times |
//! | `read NAME` | what the file says, which no program has |
//! | `history NAME` | the entries of a part of a history, NAME.1 the first one of a host's `--history NAME`, once that is killed or has ended |
//! | `run NAME WORD..` | `sparkplug WORD..` begins, and has this name here |
//! | `client NAME HEX` | another client, if it isn't there yet, sends these bytes |
//! | `line NAME TEXT` | a line of standard input of an edge node |
//! | `over NAME` | its standard input is over |
//! | `cut NAME` | the connection breaks, and both ends see it |
//! | `deny NAME` | its next connection is turned away, as by a broker that asks for another password |
//! | `kill NAME` | the program is killed; what it kept of its record stays |
//! | `down` | the broker ends |
//! | `broker` | the broker ends, if there is one, and another one begins |

use crate::hall::{Hall, leave};
use crate::plays::Plays;
use crate::serves::Serves;
use crate::words::{number, split};
use std::io::Write;

/// How far the clock goes at once, in milliseconds.
const STEP: u64 = 100;

/// The most steps of one event.
const MOST_STEPS: u32 = 100_000;

/// `stuck NAME COUNT`.
fn stick<S: Serves + Drop, P: Plays + Drop>(
    hall: &mut Hall<S, P>,
    name: &str,
    count: &str,
) -> Option<()> {
    let count = u32::try_from(number(count)?).ok()?;
    hall.shelf.stick(name, count)
}

/// `run NAME WORD..`.
fn run<R: AllocGlobal, S: Serves + Drop, P: Plays + Drop>(
    rt: &R,
    hall: &mut Hall<S, P>,
    name: &str,
    words: &str,
) -> Option<()> {
    match P::begun(rt, name, words, &mut hall.shelf, &mut hall.page)? {
        Some(program) => hall.enter(name, program),
        None => Some(()),
    }
}

/// `client NAME HEX`.
fn send<S: Serves + Drop, P: Plays + Drop>(
    hall: &mut Hall<S, P>,
    name: &str,
    digits: &str,
) -> Option<()> {
    let bytes = hex::decode(hall.alloc, digits).ok()?;
    if hall.place_of(name).is_none() {
        hall.enter(name, P::client(hall.alloc))?;
    }
    hall.part(name)?.program.send(bytes.as_slice())
}

/// `line NAME TEXT`, or `over NAME`.
fn input<S: Serves + Drop, P: Plays + Drop>(
    hall: &mut Hall<S, P>,
    name: &str,
    line: Option<&str>,
) -> Option<()> {
    let now = hall.now;
    hall.part(name)?.program.input(line, now)
}

/// `cut NAME`: of several connections the first that stands.
fn cut<S: Serves + Drop, P: Plays + Drop>(hall: &mut Hall<S, P>, name: &str) -> Option<()> {
    let now = hall.now;
    let place = hall.place_of(name)?;
    let part = hall.parts.get_mut(place)?;
    let on = part.seats.iter().position(|seat| seat.conn.is_some())?;
    let seat = part.seats.get_mut(on)?;
    hall.server.gone(seat.conn?, now)?;
    seat.leave();
    part.program.over(on, now);
    Some(())
}

/// `deny NAME`.
fn deny<S: Serves + Drop, P: Plays + Drop>(hall: &mut Hall<S, P>, name: &str) -> Option<()> {
    hall.part(name)?.seats.first_mut()?.is_denied = true;
    Some(())
}

/// `kill NAME`.
fn kill<S: Serves + Drop, P: Plays + Drop>(hall: &mut Hall<S, P>, name: &str) -> Option<()> {
    let now = hall.now;
    let place = hall.place_of(name)?;
    let part = hall.parts.get_mut(place)?;
    for seat in part.seats.iter_mut() {
        if let Some(conn) = seat.conn {
            hall.server.gone(conn, now)?;
        }
        seat.leave();
    }
    leave(part, &mut hall.shelf)
}

/// `down`.
fn end_broker<S: Serves + Drop, P: Plays + Drop>(hall: &mut Hall<S, P>) {
    let now = hall.now;
    hall.is_down = true;
    for part in &mut hall.parts {
        for seat in part.seats.iter_mut() {
            if seat.conn.is_some() {
                seat.leave();
                part.program.over(seat.at, now);
            }
        }
    }
}

/// `broker`.
fn begin_broker<S: Serves + Drop, P: Plays + Drop>(hall: &mut Hall<S, P>) {
    end_broker(hall);
    hall.is_down = false;
    hall.server = S::fresh(hall.alloc);
}

/// `at MOMENT`, or `late MOMENT`.
fn at<S: Serves + Drop, P: Plays + Drop>(
    hall: &mut Hall<S, P>,
    moment: &str,
    is_late: bool,
) -> Option<()> {
    let last = number(moment)?;
    for _ in 0..MOST_STEPS {
        if hall.now >= last {
            break;
        }
        let step = if is_late {
            last
        } else {
            hall.now.saturating_add(STEP)
        };
        hall.pass(step.min(last))?;
    }
    Some(())
}

/// What an event does.
fn happen<R: AllocGlobal, S: Serves + Drop, P: Plays + Drop>(
    rt: &R,
    hall: &mut Hall<S, P>,
    line: &str,
) -> Option<()> {
    let (event, rest) = split(line);
    let (name, more) = split(rest);
    match event {
        "at" => at(hall, name, false),
        "late" => at(hall, name, true),
        "file" => hall.shelf.put(name, more.as_bytes()),
        "stuck" => stick(hall, name, more),
        "read" => hall.read(name),
        "history" => hall.history(name),
        "run" => run(rt, hall, name, more),
        "client" => send(hall, name, more),
        "line" => input(hall, name, Some(more)),
        "over" => input(hall, name, None),
        "cut" => cut(hall, name),
        "deny" => deny(hall, name),
        "kill" => kill(hall, name),
        "down" => {
            end_broker(hall);
            Some(())
        }
        "broker" => {
            begin_broker(hall);
            Some(())
        }
        _ => None,
    }
}

/// An event happens, and the programs run until nothing moves. A line that is empty or begins with `#` is no event.
pub(crate) fn play<R: AllocGlobal, S: Serves + Drop, P: Plays + Drop>(
    rt: &R,
    hall: &mut Hall<S, P>,
    line: &str,
) -> Option<()> {
    if line.is_empty() || line.starts_with('#') {
        return writeln!(hall.page, "{line}").ok();
    }
    writeln!(hall.page, "-- {line}").ok()?;
    happen(rt, hall, line)?;
    hall.settle()
}
