//! The command `passwd`: a line of a users' file, of a password.

use crate::clients::{all_of, owned};
use crate::fault::{Fault, Stop};
use crate::running::ending;
use clap::ArgMatches;
use spk_access::{NodeName, Rights};
use spk_door::User;
use spk_files::{Misfit, user_line, user_of};
use spk_password::derive;
use std::alloc::{AllocError, Global};
use std::io::{self, Read, Write};

/// The most bytes of a password: those of MQTT (3.1.1, section 3.1.3.5).
const LONGEST: usize = 65_535;

/// How many bytes of salt are put to a password.
const SALT: usize = 16;

/// The user of whom `passwd` makes a line.
#[derive(Debug, Drop)]
pub struct PasswdPlan {
    pub name: String,
    /// In how many rounds the key is derived, 1 to 1,000,000.
    pub rounds: u32,
    pub rights: Rights,
}

/// The node that is given, if one is: what stands before the first `/`, and what behind it.
fn node_in(alloc: Global, given: &ArgMatches<'_>) -> Result<Option<NodeName>, AllocError> {
    let Some(word) = given.get_str("node") else {
        return Ok(None);
    };
    let (group, node) = word.split_once('/').unwrap_or((word, ""));
    Ok(Some(NodeName {
        group: String::from_str(alloc, group)?,
        node: String::from_str(alloc, node)?,
    }))
}

/// The host that is given, if one is.
fn host_in(alloc: Global, given: &ArgMatches<'_>) -> Result<Option<String>, AllocError> {
    match given.get_str("host") {
        Some(host) => Ok(Some(String::from_str(alloc, host)?)),
        None => Ok(None),
    }
}

/// The filters that a word was given, if it was.
fn filters_in(
    alloc: Global,
    given: &ArgMatches<'_>,
    word: &str,
) -> Result<Option<Vec<String>>, AllocError> {
    let filters = all_of(alloc, given, word)?;
    Ok(if filters.is_empty() {
        None
    } else {
        Some(filters)
    })
}

/// The user of these words, whose password isn't known yet: nothing is judged.
fn user_in(alloc: Global, given: &ArgMatches<'_>) -> Result<User, AllocError> {
    Ok(User {
        name: owned(alloc, given, "name")?,
        salt: Vec::from_array(alloc, [0u8; 1])?,
        rounds: given.get_one::<u32>("rounds").unwrap_or(0),
        key: [0; 32],
        rights: Rights {
            node: node_in(alloc, given)?,
            host: host_in(alloc, given)?,
            publish: filters_in(alloc, given, "publish")?,
            subscribe: filters_in(alloc, given, "subscribe")?,
        },
    })
}

/// What is said of words of which no user is made, like what clap says of other words that it refuses.
fn words_misfit(alloc: Global, misfit: &Misfit) -> Stop {
    match misfit {
        Misfit::NoMemory => Stop::no_memory(),
        Misfit::Wrong(place, cause) => {
            match format!(in alloc;
                "error: {place} {cause}\n\nFor more information, try '--help'.\n"
            ) {
                Ok(text) => Stop::Words(text, 2),
                Err(_) => Stop::no_memory(),
            }
        }
    }
}

/// What `passwd` is to make a line of. Its words are judged as a line of a users' file is.
pub(crate) fn passwd_plan(alloc: Global, given: &ArgMatches<'_>) -> Result<PasswdPlan, Stop> {
    let line = user_line(alloc, &user_in(alloc, given)?)?;
    match user_of(alloc, line.as_str()) {
        Ok(user) => {
            let User {
                name,
                rounds,
                rights,
                ..
            } = user;
            Ok(PasswdPlan {
                name,
                rounds,
                rights,
            })
        }
        Err(misfit) => Err(words_misfit(alloc, &misfit)),
    }
}

/// Adds what stands before a line feed, if one is there, without a carriage return before it; else all. Whether one was there.
fn add_piece(bytes: &mut Vec<u8>, piece: &[u8]) -> Result<bool, AllocError> {
    let Some(end) = piece.iter().position(|byte| *byte == b'\n') else {
        bytes.extend_from_slice(piece)?;
        return Ok(false);
    };
    bytes.extend_from_slice(&piece[..end])?;
    if bytes.last() == Some(&b'\r') {
        let _carriage_return = bytes.pop();
    }
    Ok(true)
}

/// The first line that a reader gives, or what it gives of one that is too long for a password. A reader that fails is BadFile, and so is one that is
/// interrupted so often that its line doesn't end.
fn line_of<I: Read>(alloc: Global, input: &mut I) -> Result<Vec<u8>, Stop> {
    let mut bytes = Vec::new(alloc);
    let mut piece = [0u8; 4096];
    for _ in 0..2 * LONGEST {
        match input.read(&mut piece) {
            Ok(0) => return Ok(bytes),
            Ok(count) => {
                // a carriage return may stand behind the longest
                if add_piece(&mut bytes, &piece[..count])? || bytes.len() > LONGEST + 1 {
                    return Ok(bytes);
                }
            }
            Err(error) if error.kind() == io::ErrorKind::Interrupted => {}
            Err(_) => return Err(Stop::Fault(Fault::BadFile)),
        }
    }
    Err(Stop::Fault(Fault::BadFile))
}

/// Why these bytes are no password, if they are none.
fn password_misfit(bytes: &[u8]) -> Option<&'static str> {
    if bytes.is_empty() {
        Some("the password is empty")
    } else if bytes.len() > LONGEST {
        Some("the password has more than 65,535 bytes")
    } else {
        None
    }
}

/// The password: the first line of what a reader gives. One that is empty, or too long, is BadPlan, and noted.
fn password_of<I: Read, N: Write>(
    alloc: Global,
    input: &mut I,
    notes: &mut N,
) -> Result<Vec<u8>, Stop> {
    let bytes = line_of(alloc, input)?;
    match password_misfit(&bytes) {
        None => Ok(bytes),
        Some(what) => {
            let _ = writeln!(notes, "sparkplug: BadPlan: {what}");
            Err(Stop::Fault(Fault::BadPlan))
        }
    }
}

/// What is put to a password: the next bytes of a reader. One that hasn't so many, or fails, is BadFile.
fn salt_of<S: Read>(alloc: Global, salts: &mut S) -> Result<Vec<u8>, Stop> {
    let mut salt = [0u8; SALT];
    match salts.read_exact(&mut salt) {
        Ok(()) => Ok(Vec::from_array(alloc, salt)?),
        Err(_) => Err(Stop::Fault(Fault::BadFile)),
    }
}

/// The line of a user with this password and this salt.
fn line_with(
    alloc: Global,
    plan: PasswdPlan,
    password: &[u8],
    salt: Vec<u8>,
) -> Result<String, AllocError> {
    let PasswdPlan {
        name,
        rounds,
        rights,
    } = plan;
    let key = derive(password, &salt, rounds);
    let user = User {
        name,
        salt,
        rounds,
        key,
        rights,
    };
    user_line(alloc, &user)
}

/// The line of a user, whose password and salt are read.
fn made<I: Read, S: Read, N: Write>(
    alloc: Global,
    plan: PasswdPlan,
    input: &mut I,
    salts: &mut S,
    notes: &mut N,
) -> Result<String, Stop> {
    let password = password_of(alloc, input, notes)?;
    let salt = salt_of(alloc, salts)?;
    Ok(line_with(alloc, plan, &password, salt)?)
}

/// Prints a line.
fn print<W: Write>(out: &mut W, line: &str) -> io::Result<u8> {
    writeln!(out, "{line}")?;
    out.flush()?;
    Ok(0)
}

/// Makes the line of a users' file of this user, of a password, which is the first line of the input, without its line feed and a carriage return before
/// that (1 to 65,535 bytes), and of a salt, which is 16 bytes that `salts` gives, and prints it; answers the status. A password that is empty or
/// too long is BadPlan, a reader that fails is BadFile. A fault is noted, so that nothing of it stands among the lines.
pub fn passwd<I: Read, S: Read, W: Write, N: Write>(
    alloc: Global,
    plan: PasswdPlan,
    input: &mut I,
    salts: &mut S,
    out: &mut W,
    notes: &mut N,
) -> u8 {
    match made(alloc, plan, input, salts, notes) {
        Ok(line) => print(out, line.as_str()).unwrap_or(1),
        Err(stop) => {
            let _ = ending(notes, stop);
            1
        }
    }
}
