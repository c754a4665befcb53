//! The program `sparkplug`: Sparkplug B payloads, MQTT packets, a broker and its users, worlds and plants of edge nodes and hosts, and an edge
//! node and a host application over any broker, on the command line.
#![tactic(auto)]

mod histories;
mod limits;
mod parts;
mod records;
mod store;

use histories::read_history;
use limits::holdings_of;
use records::MachineDisks;
use spk_board::Screen;
use spk_commands::{Files, NOT_TEXT, Outcome, PasswdPlan, passwd, plant, run_with_notes};
use spk_programs::{run_edge, run_host};
use spk_serving::serve_clients;
use std::alloc::{AllocError, Global};
use std::env::VarError;
use std::fs::File;
use std::io::{IsTerminal, Write};
use std::process::ExitCode;
use std::{env, io};
use store::store_of;

/// The machine's files.
#[derive(Drop)]
struct MachineFiles<'a> {
    rt: &'a HostRuntime,
}

impl Files for MachineFiles<'_> {
    type Reader = File;

    fn open(&mut self, name: &str) -> Option<File> {
        File::open(self.rt, name).ok()
    }
}

/// The words that the program was called with, or None where one isn't text.
fn given_words(rt: &HostRuntime) -> io::Result<Option<Vec<String>>> {
    match env::args(rt) {
        Ok(given) => Ok(Some(given.collect(rt.alloc())?)),
        Err(error) if error.kind() == io::ErrorKind::InvalidData => Ok(None),
        Err(error) => Err(error),
    }
}

/// The same words, lent.
fn lent(alloc: Global, given: &[String]) -> Result<Vec<&str>, AllocError> {
    let mut words = Vec::new(alloc);
    for word in given {
        words.push(word.as_str())?;
    }
    Ok(words)
}

/// Where a board is shown: with colours on a terminal, but where NO_COLOR is set and not empty.
fn screen_of(rt: &HostRuntime) -> Screen {
    if !rt.stdout().is_terminal() {
        return Screen::Plain;
    }
    match env::var(rt, "NO_COLOR") {
        Ok(text) if text.is_empty() => Screen::Colours,
        Err(VarError::NotPresent) => Screen::Colours,
        _ => Screen::Terminal,
    }
}

/// Says that there was no memory even for the words.
fn no_memory(rt: &HostRuntime) -> io::Result<u8> {
    println!(rt; "fault NoMemory (1)")?;
    Ok(1)
}

/// What the machine's random bytes are read from.
const RANDOM: &str = "/dev/urandom";

/// Makes a line of a users' file, of a password in standard input and of random bytes.
fn make_line(rt: &HostRuntime, plan: PasswdPlan) -> io::Result<u8> {
    let mut notes = rt.stderr();
    let Ok(mut random) = File::open(rt, RANDOM) else {
        let _ = writeln!(notes, "fault BadFile (98)");
        return Ok(1);
    };
    let mut input = rt.stdin();
    let mut writer = io::writer(rt);
    let status = passwd(
        rt.alloc(),
        plan,
        &mut input,
        &mut random,
        &mut writer,
        &mut notes,
    );
    Ok(status)
}

fn main(rt: HostRuntime) -> io::Result<ExitCode> {
    let given = match given_words(&rt) {
        Ok(Some(given)) => given,
        Ok(None) => {
            print!(rt; "{}", NOT_TEXT)?;
            return Ok(ExitCode::from(2));
        }
        Err(error) if error.kind() == io::ErrorKind::OutOfMemory => {
            return Ok(ExitCode::from(no_memory(&rt)?));
        }
        Err(error) => return Err(error),
    };
    let Ok(words) = lent(rt.alloc(), given.as_slice()) else {
        return Ok(ExitCode::from(no_memory(&rt)?));
    };
    let mut files = MachineFiles { rt: &rt };
    let mut writer = io::writer(&rt);
    let mut notes = rt.stderr();
    let words = words.as_slice();
    let status = match run_with_notes(&rt, words, &mut files, &mut writer, &mut notes) {
        Outcome::Over(status) => status,
        Outcome::Serve {
            bind,
            port,
            clients,
            status,
            door,
            limits,
            store,
        } => {
            let door = door.as_ref();
            let Ok(holdings) = holdings_of(rt.alloc(), limits) else {
                return Ok(ExitCode::from(no_memory(&rt)?));
            };
            match store_of(&rt, &store, &mut writer, &mut notes) {
                Ok(kept) => serve_clients(
                    &rt,
                    bind,
                    port,
                    clients,
                    status,
                    door,
                    holdings,
                    kept,
                    &mut writer,
                    &mut notes,
                ),
                Err(status) => status,
            }
        }
        Outcome::Passwd(plan) => make_line(&rt, plan)?,
        Outcome::Plant(plan) => plant(&rt, plan, &mut writer),
        Outcome::Edge(plan) => {
            let mut disks = MachineDisks { rt: &rt };
            run_edge(&rt, plan, rt.stdin(), &mut disks, writer, notes)
        }
        Outcome::Host(plan) => {
            let mut disks = MachineDisks { rt: &rt };
            run_host(&rt, plan, screen_of(&rt), &mut disks, writer, notes)
        }
        Outcome::History(plan) => read_history(&rt, &plan, &mut writer, &mut notes),
    };
    Ok(ExitCode::from(status))
}
