//! The command `serve`: what its words ask for.

use crate::fault::{Fault, Stop};
use crate::files::Files;
use crate::running::{Outcome, noted_text_of};
use clap::ArgMatches;
use spk_door::{Door, User};
use spk_files::{Listed, Misfit, users_of};
use spk_quota::Limits;
use std::alloc::{AllocError, Global};
use std::io::Write;
use std::net::IpAddr;

/// What is said of an address that is none, like what clap says of other words that it refuses.
const NO_ADDRESS: &str =
    "error: --bind takes an IP address\n\nFor more information, try '--help'.\n";

/// What is said of a status port that is the broker's, like what clap says of other words that it refuses.
const NO_STATUS: &str =
    "error: --status takes another port than --port\n\nFor more information, try '--help'.\n";

/// How many days a kept session of a user stands without its client, where nothing is said (own rule).
const USUAL_DAYS: u16 = 30;

/// The users that a file's text says, and what they may hold. What is wrong with one, and where, is noted.
fn users_from<N: Write>(alloc: Global, text: &str, notes: &mut N) -> Result<Listed, Stop> {
    match users_of(alloc, text) {
        Ok(listed) => Ok(listed),
        Err(Misfit::NoMemory) => Err(Stop::no_memory()),
        Err(Misfit::Wrong(place, cause)) => {
            let _ = writeln!(notes, "sparkplug: BadPlan: {place} {cause}");
            Err(Stop::Fault(Fault::BadPlan))
        }
    }
}

/// The users of a users' file and what they may hold, where one is named.
fn users_in<F: Files, N: Write>(
    alloc: Global,
    given: &ArgMatches<'_>,
    files: &mut F,
    notes: &mut N,
) -> Result<Option<Listed>, Stop> {
    let Some(name) = given.get_str("users") else {
        return Ok(None);
    };
    let text = noted_text_of(alloc, name, files, notes)?;
    match users_from(alloc, text.as_str(), notes) {
        Ok(listed) => Ok(Some(listed)),
        Err(stop) => Err(stop),
    }
}

/// What the users of a broker may hold, in the order of its users' file.
#[derive(Debug, Drop)]
pub struct LimitsPlan {
    pub limits: Vec<Limits>,
    /// How many days a kept session stands without its client.
    pub days: u16,
}

/// What users may hold, and apart from it who they are, where there are some.
fn apart(
    listed: Option<Listed>,
    given: &ArgMatches<'_>,
) -> (Option<Vec<User>>, Option<LimitsPlan>) {
    let Some(Listed { users, limits }) = listed else {
        return (None, None);
    };
    let days = given.get_one::<u16>("session-days").unwrap_or(USUAL_DAYS);
    (Some(users), Some(LimitsPlan { limits, days }))
}

/// The door of these users, where there are some, and of a guard. None where there is neither.
fn door_of(users: Option<Vec<User>>, guard: bool) -> Option<Door> {
    if users.is_none() && !guard {
        return None;
    }
    Some(Door { users, guard })
}

/// Says what it means to listen beyond the machine: with users these alone come in.
fn warn<N: Write>(bind: IpAddr, has_users: bool, notes: &mut N) {
    if bind.is_loopback() {
        return;
    }
    let what = if has_users {
        "messages and passwords go there without TLS"
    } else {
        "whoever reaches it is served, without TLS and without passwords"
    };
    let _ = writeln!(
        notes,
        "sparkplug: {bind} is reached from other machines: {what}"
    );
}

/// Where what a broker holds is kept.
#[derive(Debug, Drop)]
pub struct StorePlan {
    /// The folder of its files.
    pub folder: String,
    /// All that is answered is on the disk before the answer goes out.
    pub each: bool,
}

/// Where is to be served.
#[derive(Clone, Copy)]
struct Address {
    bind: IpAddr,
    port: u16,
    status: Option<u16>,
}

/// Where clients are to be served, and where figures are told.
fn address_of(alloc: Global, given: &ArgMatches<'_>) -> Result<Address, Stop> {
    let Ok(bind) = given
        .get_str("bind")
        .unwrap_or("127.0.0.1")
        .parse::<IpAddr>()
    else {
        return Err(Stop::Words(String::from_str(alloc, NO_ADDRESS)?, 2));
    };
    let port = given.get_one::<u16>("port").unwrap_or(0);
    let status = given.get_one::<u16>("status");
    if status == Some(port) {
        return Err(Stop::Words(String::from_str(alloc, NO_STATUS)?, 2));
    }
    Ok(Address { bind, port, status })
}

/// How many clients are to be served; None where it stays.
fn clients_of(given: &ArgMatches<'_>) -> Option<u16> {
    if given.get_flag("stay") {
        None
    } else {
        Some(given.get_one::<u16>("clients").unwrap_or(0))
    }
}

/// Where what the broker holds is to be kept, if it is.
fn store_of(alloc: Global, given: &ArgMatches<'_>) -> Result<Option<StorePlan>, AllocError> {
    let Some(folder) = given.get_str("store") else {
        return Ok(None);
    };
    let folder = String::from_str(alloc, folder)?;
    let each = given.get_str("sync").is_some();
    Ok(Some(StorePlan { folder, each }))
}

/// `serve`: where clients are to be served, how many and who, where figures are told, and where what it holds is kept. What is wrong with the users' file, and where, is noted.
pub(crate) fn serving<F: Files, N: Write>(
    alloc: Global,
    given: &ArgMatches<'_>,
    files: &mut F,
    notes: &mut N,
) -> Result<Outcome, Stop> {
    let Address { bind, port, status } = address_of(alloc, given)?;
    let store = store_of(alloc, given)?;
    match users_in(alloc, given, files, notes) {
        Ok(listed) => {
            let (users, limits) = apart(listed, given);
            warn(bind, users.is_some(), notes);
            Ok(Outcome::Serve {
                bind,
                port,
                clients: clients_of(given),
                status,
                door: door_of(users, given.get_flag("guard")),
                limits,
                store,
            })
        }
        Err(stop) => Err(stop),
    }
}
