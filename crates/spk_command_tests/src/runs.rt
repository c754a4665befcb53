//! Runs of the program's commands: what they print, note and come to, beside what a case wants.

use crate::case::{Around, has, number_of, text_of, words_of};
use crate::files::{Narrow, Texts};
use crate::flaw::Flaw;
use crate::outcomes;
use serde_json::Value as Json;
use spk_commands::{Files, Outcome, passwd, run_with_notes};
use std::alloc::{AllocError, Global};

/// The last line of a run that was refused memory.
pub(crate) const REFUSED: &[u8; 19] = b"fault NoMemory (1)\n";

/// Room for more than any run here prints, so that no write wants memory.
pub(crate) const ROOM: usize = 65_536;

/// What a run printed, what it noted, and what it came to.
#[derive(Drop)]
struct Ran {
    held: Vec<u8>,
    notes: Vec<u8>,
    end: String,
}

/// What is run.
#[derive(Clone, Copy)]
struct Asked<'a> {
    words: &'a [&'a str],
    /// The text of FILE.
    file: Option<&'a str>,
    /// How many bytes the writer takes.
    room: usize,
    /// The files in which the standard input of `passwd` and its random bytes stand, where it is done.
    password: Option<&'a str>,
    salts: &'a str,
}

/// What becomes of a run: where a line is to be made of a password that stands in a file, it is.
fn done(
    alloc: Global,
    asked: &Asked<'_>,
    outcome: Outcome,
    narrow: &mut Narrow,
    notes: &mut Vec<u8>,
) -> Outcome {
    let mut files = Texts { file: asked.file };
    let Some(input) = asked.password.and_then(|name| files.open(name)) else {
        return outcome;
    };
    match (outcome, files.open(asked.salts)) {
        (Outcome::Passwd(plan), Some(salts)) => {
            let (mut input, mut salts) = (input, salts);
            Outcome::Over(passwd(alloc, plan, &mut input, &mut salts, narrow, notes))
        }
        (outcome, _) => outcome,
    }
}

/// Runs the words of a case once, with a writer that has so much room.
fn once<R: AllocGlobal>(rt: &R, asked: &Asked<'_>) -> Result<Ran, AllocError> {
    let mut narrow = Narrow {
        held: Vec::with_capacity(rt.alloc(), ROOM)?,
        room: asked.room,
    };
    let mut notes = Vec::with_capacity(rt.alloc(), ROOM)?;
    let mut files = Texts { file: asked.file };
    let outcome = run_with_notes(rt, asked.words, &mut files, &mut narrow, &mut notes);
    let outcome = done(rt.alloc(), asked, outcome, &mut narrow, &mut notes);
    let Narrow { held, room: _ } = narrow;
    let end = outcomes::text_of(rt.alloc(), &outcome)?;
    Ok(Ran { held, notes, end })
}

/// Whether a run was refused memory: that fault stands last, or as much of it as a writer took that had no room for it.
fn is_refused(held: &[u8]) -> bool {
    held.ends_with(REFUSED) || (!held.is_empty() && REFUSED.starts_with(held))
}

/// Whether a run that was refused memory printed whole lines of what it prints else, but not all of them, before that fault; or as much of
/// the fault as there was room for.
fn is_front(held: &[u8], whole: &[u8], room: usize) -> bool {
    match held.strip_suffix(REFUSED.as_slice()) {
        Some(front) => front.is_empty()
            || (front.ends_with(b"\n") && whole.starts_with(front) && front.len() < whole.len()),
        None => held.len() == room.min(REFUSED.len()),
    }
}

/// What a run comes to that isn't refused memory. Where one is, it is made again, and None where what it printed before isn't right.
fn run<R: AllocGlobal>(rt: &R, asked: &Asked<'_>) -> Result<Option<Ran>, AllocError> {
    let first = once(rt, asked)?;
    // that of `passwd` is noted
    let is_noted = first.held.is_empty() && first.notes.ends_with(REFUSED);
    if !is_noted && !is_refused(first.held.as_slice()) {
        return Ok(Some(first));
    }
    let again = once(rt, asked)?;
    let is_right = first.end.as_str() == "over 1"
        && (is_noted || is_front(first.held.as_slice(), again.held.as_slice(), asked.room));
    Ok(if is_right { Some(again) } else { None })
}

/// Whether these bytes are what a case says they are: the whole text, if it says one, else a text that has another one in it.
fn is_printed(case: &Json, held: &[u8]) -> bool {
    let Ok(text) = str::from_utf8(held) else {
        return false;
    };
    match text_of(case, "out") {
        Some(out) => text == out,
        None => !text.is_empty() && text.contains(text_of(case, "has").unwrap_or("")),
    }
}

/// Whether these are the notes of a case: the whole text; or a bad plan of which it says how the cause begins; or any, where it says so; else none.
fn is_noted(case: &Json, notes: &[u8]) -> bool {
    let Ok(text) = str::from_utf8(notes) else {
        return false;
    };
    if let Some(whole) = text_of(case, "notes") {
        return text == whole;
    }
    if let Some(cause) = text_of(case, "bad plan") {
        let rest = text.strip_prefix("sparkplug: BadPlan: ").unwrap_or("");
        return rest.starts_with(cause) && rest.ends_with("\n");
    }
    has(case, "any notes") || text.is_empty()
}

/// What isn't as wanted of a run, if something isn't.
fn complaint(case: &Json, ran: &Ran) -> Option<Flaw> {
    if !is_printed(case, ran.held.as_slice()) {
        return Some(Flaw::Printed);
    }
    if !is_noted(case, ran.notes.as_slice()) {
        return Some(Flaw::Noted);
    }
    if ran.end.as_str() != text_of(case, "end").unwrap_or("over 0") {
        return Some(Flaw::End);
    }
    None
}

/// What isn't as wanted of the run of a case, if something isn't.
pub(crate) fn judge<R: AllocGlobal>(
    rt: &R,
    around: &Around,
    case: &Json,
) -> Result<Option<Flaw>, AllocError> {
    let alloc: Global = rt.alloc();
    let words = words_of(alloc, case)?;
    let file = around.file_of(alloc, case)?;
    let file = file.as_ref().map(|text| text.as_str());
    let room = usize::try_from(number_of(case, "room").unwrap_or(ROOM as u64)).unwrap_or(ROOM);
    let asked = Asked {
        words: words.as_slice(),
        file,
        room,
        password: text_of(case, "password"),
        salts: text_of(case, "salts").unwrap_or("longest"),
    };
    match run(rt, &asked)? {
        Some(ran) => Ok(complaint(case, &ran)),
        None => Ok(Some(Flaw::Memory)),
    }
}
