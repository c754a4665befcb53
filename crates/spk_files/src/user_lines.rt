//! Lines of a users' file, as they are written.

use hex::encode;
use serde_json::Value as Json;
use spk_access::Rights;
use spk_door::User;
use std::alloc::{AllocError, Global};

/// A text as a compact JSON string.
fn quoted(alloc: Global, text: &str) -> Result<String, AllocError> {
    Json::String(String::from_str(alloc, text)?).to_string(alloc)
}

/// Adds a member that is a text.
fn add_text(alloc: Global, line: &mut String, name: &str, text: &str) -> Result<(), AllocError> {
    let text = quoted(alloc, text)?;
    write!(line, ",\"{name}\":{text}")
}

/// Adds a member that is a list of texts.
fn add_texts(
    alloc: Global,
    line: &mut String,
    name: &str,
    texts: &[String],
) -> Result<(), AllocError> {
    write!(line, ",\"{name}\":[")?;
    let mut comma = "";
    for text in texts {
        let text = quoted(alloc, text.as_str())?;
        write!(line, "{comma}{text}")?;
        comma = ",";
    }
    write!(line, "]")
}

/// Adds the node and the host that a user is.
fn add_names(alloc: Global, line: &mut String, rights: &Rights) -> Result<(), AllocError> {
    if let Some(own) = &rights.node {
        let name = format!(in alloc; "{}/{}", own.group, own.node)?;
        add_text(alloc, line, "node", name.as_str())?;
    }
    match &rights.host {
        Some(host) => add_text(alloc, line, "host", host.as_str()),
        None => Ok(()),
    }
}

/// Adds the filters of a user.
fn add_filters(alloc: Global, line: &mut String, rights: &Rights) -> Result<(), AllocError> {
    if let Some(filters) = &rights.publish {
        add_texts(alloc, line, "publish", filters)?;
    }
    match &rights.subscribe {
        Some(filters) => add_texts(alloc, line, "subscribe", filters),
        None => Ok(()),
    }
}

/// The line of a users' file that says this user, without a line feed: `user_of` reads it as the same one, if it is one that `user_of` gives. Refused where
/// memory was.
pub fn user_line(alloc: Global, user: &User) -> Result<String, AllocError> {
    let name = quoted(alloc, user.name.as_str())?;
    let rounds = user.rounds;
    let salt = encode(alloc, user.salt.as_slice())?;
    let key = encode(alloc, user.key.as_slice())?;
    let mut line = format!(in alloc;
        "{{\"user\":{name},\"password\":{{\"rounds\":{rounds},\"salt\":\"{salt}\",\"key\":\"{key}\"}}"
    )?;
    add_names(alloc, &mut line, &user.rights)?;
    add_filters(alloc, &mut line, &user.rights)?;
    line.push('}')?;
    Ok(line)
}
