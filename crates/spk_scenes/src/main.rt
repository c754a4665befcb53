//! A plant in one process: the broker of `serve`, edge nodes as `edge` runs them and hosts as `host` runs them, joined by bytes in place of sockets.
//!
//! Standard input is a scene, an event a line (`scene.rt`). What each program prints is printed behind the event of which it comes. The scene is played
//! three times, with all bytes in pieces of 65,536, then of 7, and then of 1: the same is to be printed.
#![tactic(auto)]

mod binder;
mod client;
mod hall;
mod history;
mod page;
mod part;
mod plays;
mod runs;
mod scene;
mod seat;
mod serves;
mod shelf;
mod words;

use crate::hall::Hall;
use crate::part::Program;
use crate::plays::Plays;
use crate::scene::play;
use crate::serves::Serves;
use spk_server::Server;
use std::process::ExitCode;
use std::{io, str};

/// What is printed of a scene, up to the event that can't be played, if there is one: None where there is none.
fn play_all<R: AllocGlobal, S: Serves + Drop, P: Plays + Drop>(
    rt: &R,
    hall: &mut Hall<S, P>,
    text: &str,
) -> Option<()> {
    for line in text.lines() {
        play(rt, hall, line)?;
    }
    Some(())
}

/// The page of a scene whose bytes go in pieces of so many at the most, and whether all of it could be played.
fn page_of<R: AllocGlobal>(rt: &R, text: &str, piece: usize) -> Option<(Vec<u8>, bool)> {
    let mut hall = Hall::<Server, Program>::new(rt.alloc(), piece)?;
    let is_whole = play_all(rt, &mut hall, text).is_some();
    Some((hall.page, is_whole))
}

fn main(rt: HostRuntime) -> io::Result<ExitCode> {
    let text = io::read_to_string(rt.alloc(), rt.stdin())?;
    let Some((first, is_whole)) = page_of(&rt, text.as_str(), 65_536) else {
        return Ok(ExitCode::from(1));
    };
    print!(rt; "{}", str::from_utf8(first.as_slice()).unwrap_or("no text"))?;
    if !is_whole {
        println!(rt; "this event can't be played")?;
        return Ok(ExitCode::from(1));
    }
    let mut status = 0u8;
    for piece in [7usize, 1] {
        let is_same = page_of(&rt, text.as_str(), piece).is_some_and(|(page, _)| page.as_slice()
            == first.as_slice());
        let word = if is_same { "the same" } else { "NOT THE SAME" };
        println!(rt; "== in pieces of {piece}: {word}")?;
        status = status.max(u8::from(!is_same));
    }
    Ok(ExitCode::from(status))
}
