//! A run of the program: words in, lines and a status out.

use crate::clients::{edge_plan, host_plan};
use crate::fault::{Fault, Stop};
use crate::files::{Files, text_of};
use crate::histories::{HistoryPlan, history_plan};
use crate::packets::packets;
use crate::passwords::{PasswdPlan, passwd_plan};
use crate::plants::plan_from;
use crate::serving::{LimitsPlan, StorePlan, serving};
use crate::show::show;
use crate::world::world;
use clap::ArgMatches;
use clap::error::ErrorKind;
use spk_command_line::command_line;
use spk_door::Door;
use spk_payload::Values;
use spk_plan::Plan;
use spk_program_plans::{EdgePlan, HostPlan};
use std::alloc::Global;
use std::io::{self, BufWriter, Write};
use std::net::IpAddr;

/// The text of a file without the white space at its end.
fn trimmed_text<F: Files>(alloc: Global, files: &mut F, name: &str) -> Result<String, Stop> {
    let text = text_of(alloc, files, name)?;
    Ok(String::from_str(alloc, text.as_str().trim_end())?)
}

/// The hexadecimal digits that a command is given: its word, or a file's text without the white space at its end.
fn digits_of<F: Files>(
    alloc: Global,
    matches: &ArgMatches<'_>,
    files: &mut F,
) -> Result<String, Stop> {
    if let Some(name) = matches.get_str("file") {
        return trimmed_text(alloc, files, name);
    }
    let digits = matches.get_str("hex").unwrap_or("");
    Ok(String::from_str(alloc, digits)?)
}

/// The hexadecimal digits of a birth, where one is given.
fn birth_of<F: Files>(
    alloc: Global,
    matches: &ArgMatches<'_>,
    files: &mut F,
) -> Result<Option<String>, Stop> {
    if let Some(name) = matches.get_str("birth-file") {
        return Ok(Some(trimmed_text(alloc, files, name)?));
    }
    match matches.get_str("birth") {
        Some(digits) => Ok(Some(String::from_str(alloc, digits)?)),
        None => Ok(None),
    }
}

/// The text of a file that is to be understood. Of one that isn't a text, or is too long, a note says so.
pub(crate) fn noted_text_of<F: Files, N: Write>(
    alloc: Global,
    name: &str,
    files: &mut F,
    notes: &mut N,
) -> Result<String, Stop> {
    let answer = text_of(alloc, files, name);
    if let Err(Stop::Fault(Fault::BadPlan)) = &answer {
        let what = "the file isn't UTF-8, or has more than 1,048,576 bytes";
        let _ = writeln!(notes, "sparkplug: BadPlan: {what}");
    }
    answer
}

/// The name of a command's file.
fn file_of<'a>(given: &ArgMatches<'a>) -> &'a str {
    given.get_str("file").unwrap_or("")
}

/// What clap says of the words: its text and status, or want of memory.
fn refusal(alloc: Global, error: &clap::Error) -> Result<Stop, Stop> {
    if matches!(error.kind(), ErrorKind::OutOfMemory) {
        return Ok(Stop::no_memory());
    }
    let text = format!(in alloc; "{error}")?;
    let status = if error.use_stderr() { 2 } else { 0 };
    Ok(Stop::Words(text, status))
}

/// What is said of words that aren't UTF-8, like what clap says of others that it refuses.
pub const NOT_TEXT: &str = "error: a word isn't UTF-8\n\nFor more information, try '--help'.\n";

/// A writer that keeps nothing.
#[derive(Drop)]
struct Silence;

impl Write for Silence {
    fn write(&mut self, buf: &[u8]) -> io::Result<usize> {
        Ok(buf.len())
    }

    fn flush(&mut self) -> io::Result<()> {
        Ok(())
    }
}

/// What a run comes to.
#[derive(Debug, Drop)]
pub enum Outcome {
    /// It is over, with this status.
    Over(u8),
    /// Clients are to be served at this address and port: so many, or for ever.
    Serve {
        bind: IpAddr,
        port: u16,
        clients: Option<u16>,
        /// The port of the status page, where there is to be one.
        status: Option<u16>,
        /// Who comes in, and whose topics are whose; None where everybody may do everything.
        door: Option<Door>,
        /// What users may hold, where there are some.
        limits: Option<LimitsPlan>,
        /// Where what the broker holds is kept; None where it is lost at the end.
        store: Option<StorePlan>,
    },
    /// A line of a users' file is to be made.
    Passwd(PasswdPlan),
    /// This plan is to be run.
    Plant(Plan),
    /// This edge node is to be run.
    Edge(EdgePlan),
    /// This host application is to be run.
    Host(HostPlan),
    /// This history is to be read.
    History(HistoryPlan),
}

/// `show`: the payload that digits say.
fn shown<F: Files, W: Write, N: Write>(
    alloc: Global,
    given: &ArgMatches<'_>,
    files: &mut F,
    out: &mut W,
    notes: &mut N,
) -> Result<u8, Stop> {
    let digits = digits_of(alloc, given, files)?;
    let birth = birth_of(alloc, given, files)?;
    let birth = birth.as_ref().map(|digits| digits.as_str());
    let values = match given.get_str("values") {
        Some("all") => Values::All,
        _ => Values::Whole,
    };
    show(alloc, out, notes, digits.as_str(), birth, values)?;
    Ok(0)
}

/// `packets`: the packets that digits say.
fn listed<F: Files, W: Write, N: Write>(
    alloc: Global,
    given: &ArgMatches<'_>,
    files: &mut F,
    out: &mut W,
    notes: &mut N,
) -> Result<u8, Stop> {
    let digits = digits_of(alloc, given, files)?;
    packets(alloc, out, notes, digits.as_str())?;
    Ok(0)
}

/// `world`: a world's file, played.
fn played<F: Files, W: Write, N: Write>(
    alloc: Global,
    given: &ArgMatches<'_>,
    files: &mut F,
    out: &mut W,
    notes: &mut N,
) -> Result<u8, Stop> {
    let text = noted_text_of(alloc, file_of(given), files, notes)?;
    world(alloc, out, notes, text.as_str())
}

/// A command that is over, with its status.
fn over(answer: Result<u8, Stop>) -> Result<Outcome, Stop> {
    match answer {
        Ok(status) => Ok(Outcome::Over(status)),
        Err(stop) => Err(stop),
    }
}

/// `plant`: the plan of a file, which is to be run.
fn planned<F: Files, N: Write>(
    alloc: Global,
    given: &ArgMatches<'_>,
    files: &mut F,
    notes: &mut N,
) -> Result<Outcome, Stop> {
    let text = noted_text_of(alloc, file_of(given), files, notes)?;
    match plan_from(alloc, notes, text.as_str()) {
        Ok(plan) => Ok(Outcome::Plant(plan)),
        Err(stop) => Err(stop),
    }
}

/// Whether these words ask for a line of a users' file.
fn makes_line(words: &[&str]) -> bool {
    words.get(1).copied() == Some("passwd")
}

/// The end of a command whose lines are all for a file: why there is none is noted.
fn noted<N: Write>(notes: &mut N, stop: Stop) -> Outcome {
    let status = match &stop {
        Stop::Words(_, status) => *status,
        Stop::Fault(_) | Stop::Writer => 1,
    };
    let _ = ending(notes, stop);
    Outcome::Over(status)
}

/// `passwd`: the user of whom a line is to be made.
fn lined<N: Write>(alloc: Global, given: &ArgMatches<'_>, notes: &mut N) -> Outcome {
    match passwd_plan(alloc, given) {
        Ok(plan) => Outcome::Passwd(plan),
        Err(stop) => noted(notes, stop),
    }
}

/// `edge`: the edge node of a file, which is to be run.
fn edge<F: Files, N: Write>(
    alloc: Global,
    given: &ArgMatches<'_>,
    files: &mut F,
    notes: &mut N,
) -> Result<Outcome, Stop> {
    let text = noted_text_of(alloc, file_of(given), files, notes)?;
    match edge_plan(alloc, given, text.as_str(), files, notes) {
        Ok(plan) => Ok(Outcome::Edge(plan)),
        Err(stop) => Err(stop),
    }
}

/// `host`: the host application that is to be run.
fn host<F: Files>(alloc: Global, given: &ArgMatches<'_>, files: &mut F) -> Result<Outcome, Stop> {
    match host_plan(alloc, given, files) {
        Ok(plan) => Ok(Outcome::Host(plan)),
        Err(stop) => Err(stop),
    }
}

/// `history`: the history that is to be read.
fn history(alloc: Global, given: &ArgMatches<'_>) -> Result<Outcome, Stop> {
    match history_plan(alloc, given) {
        Ok(plan) => Ok(Outcome::History(plan)),
        Err(_) => Err(Stop::no_memory()),
    }
}

/// The command that was given. Each has a function of its own, since whoever holds all that was given is dear to prove.
fn chosen<F: Files, W: Write, N: Write>(
    alloc: Global,
    matches: &ArgMatches<'_>,
    files: &mut F,
    out: &mut W,
    notes: &mut N,
) -> Result<Outcome, Stop> {
    if let Some(given) = matches.subcommand_matches("show") {
        return over(shown(alloc, given, files, out, notes));
    }
    if let Some(given) = matches.subcommand_matches("packets") {
        return over(listed(alloc, given, files, out, notes));
    }
    if let Some(given) = matches.subcommand_matches("world") {
        return over(played(alloc, given, files, out, notes));
    }
    if let Some(given) = matches.subcommand_matches("plant") {
        return planned(alloc, given, files, notes);
    }
    if let Some(given) = matches.subcommand_matches("serve") {
        return serving(alloc, given, files, notes);
    }
    if let Some(given) = matches.subcommand_matches("passwd") {
        return Ok(lined(alloc, given, notes));
    }
    if let Some(given) = matches.subcommand_matches("edge") {
        return edge(alloc, given, files, notes);
    }
    if let Some(given) = matches.subcommand_matches("host") {
        return host(alloc, given, files);
    }
    if let Some(given) = matches.subcommand_matches("history") {
        return history(alloc, given);
    }
    Ok(Outcome::Over(0))
}

fn command<F: Files, W: Write, N: Write>(
    alloc: Global,
    words: &[&str],
    files: &mut F,
    out: &mut W,
    notes: &mut N,
) -> Result<Outcome, Stop> {
    match command_line(alloc)?.try_get_matches_from(words) {
        Ok(matches) => chosen(alloc, &matches, files, out, notes),
        Err(error) => match refusal(alloc, &error)? {
            Stop::Words(text, 2) if makes_line(words) => Ok(noted(notes, Stop::Words(text, 2))),
            stop => Err(stop),
        },
    }
}

/// The last lines of a command, and its status.
pub(crate) fn ending<W: Write>(out: &mut W, stop: Stop) -> io::Result<u8> {
    match stop {
        Stop::Words(text, status) => {
            write!(out, "{text}")?;
            Ok(status)
        }
        Stop::Fault(fault) => {
            let number = fault.number();
            writeln!(out, "fault {fault} ({number})")?;
            Ok(1)
        }
        Stop::Writer => Ok(1),
    }
}

fn buffered<F: Files, W: Write + Drop, N: Write>(
    alloc: Global,
    words: &[&str],
    files: &mut F,
    writer: W,
    notes: &mut N,
) -> io::Result<Outcome> {
    let mut out = BufWriter::new(alloc, writer)?;
    let outcome = match command(alloc, words, files, &mut out, notes) {
        Ok(outcome) => outcome,
        Err(stop) => Outcome::Over(ending(&mut out, stop)?),
    };
    out.flush()?;
    Ok(outcome)
}

/// Runs the program on its words, the first of which is its own name, and answers its status: 0 where the work was
/// done or help was asked for, 1 at a fault, which is printed as `fault NAME (number)`, or where the writer failed,
/// 2 where the words aren't a command. All texts go to the writer, but for what refuses words of `passwd`, whose lines are for a file: that is noted. Words that ask to serve clients are answered with
/// the port and the number of clients: `spk_serving` does that, and for words that ask to make a line of a users' file
/// `passwd`. Words that ask to run a plant, an edge node or a host application
/// are answered with its plan: `plant` and `spk_programs` do that. So are words that ask to read a history.
pub fn run<R: AllocGlobal, F: Files, W: Write>(
    rt: &R,
    words: &[&str],
    files: &mut F,
    writer: &mut W,
) -> Outcome {
    run_with_notes(rt, words, files, writer, &mut Silence)
}

/// The same. The notes get a line for people where a fault has a place: at which byte it stands. What becomes of the
/// notes changes nothing else.
pub fn run_with_notes<R: AllocGlobal, F: Files, W: Write, N: Write>(
    rt: &R,
    words: &[&str],
    files: &mut F,
    writer: &mut W,
    notes: &mut N,
) -> Outcome {
    match buffered(rt.alloc(), words, files, &mut *writer, notes) {
        Ok(outcome) => outcome,
        Err(error) => {
            if error.kind() == io::ErrorKind::OutOfMemory {
                let _ = writeln!(writer, "fault NoMemory (1)");
            }
            Outcome::Over(1)
        }
    }
}
