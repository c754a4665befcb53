//! A users' file: who comes in, a line for each.
ghost use Rattle.std.specs.Prelude.{◌≡◌, ◌≤◌, ◌==◌, true, false, IfOk, OnOk, length};
ghost use Rattle.std.specs.List.{list_any};
ghost use Rattle.std.specs.Str.{bytes_eq};
ghost use Rattle.std.specs.String.{string_bytes};
ghost use Rattle.spk_door.specs.declared.door.User.{User};
ghost use Rattle.spk_files.specs.Users.{AreBounded, IsBounded, IsListed, are_apart, are_filters, are_plain, is_filter, is_node, is_plain, some_are_filters, some_is_host, some_is_node};

use crate::misfit::{Cause, Misfit, Place};
use crate::names::{is_name, short_name_of};
use crate::part::Part;
use crate::text::json_of;
use crate::user_limits::limits_of;
use hex::{FromHexError, decode, decode_to_slice};
use spk_access::{NodeName, Rights};
use spk_door::User;
use spk_quota::Limits;
use spk_topics::Filter;
use std::alloc::Global;

/// The most bytes of a user's name.
const MOST_BYTES: usize = 256;

/// The most rounds in which a key is derived.
const MOST_ROUNDS: u64 = 1_000_000;

/// The most bytes of a salt.
const MOST_SALT: usize = 64;

/// The most filters of a list.
const MOST_FILTERS: usize = 1_000;

const USER: [&str; 7] = [
    "user",
    "password",
    "node",
    "host",
    "publish",
    "subscribe",
    "limits",
];

const PASSWORD: [&str; 3] = ["rounds", "salt", "key"];

/// Whether a colon is among these bytes.
fn has_colon(bytes: &[u8]) -> bool
    ensures { result ≡ list_any (λ c. c == 58) bytes.now }
{
    bytes.iter().any(|byte| *byte == b':')
}

/// Whether a text has no colon.
fn is_plain(text: &str) -> bool
    ensures { result ≡ is_plain text.now }
{
    !has_colon(text.as_bytes())
}

/// Whether a text has a control character.
fn has_control(text: &str) -> bool {
    text.chars().any(|c| c.is_control())
}

/// A user's name.
fn user_name_of(alloc: Global, part: Part<'_>) -> Result<String, Misfit>
    ensures some { IfOk result (λ name. 1 ≤ length (string_bytes name)) }
    ensures most { IfOk result (λ name. length (string_bytes name) ≤ 256) }
    ensures plain { IfOk result (λ name. is_plain (string_bytes name) ≡ true) }
{
    let text = part.text()?;
    if text.is_empty() || text.len() > MOST_BYTES || !is_plain(text) || has_control(text) {
        return Err(part.wrong(Cause::Not(
            "a user's name: 1 to 256 bytes, without `:` and control characters",
        )));
    }
    Ok(String::from_str(alloc, text)?)
}

/// What is put to a password before its key is derived.
fn salt_of(alloc: Global, part: Part<'_>) -> Result<Vec<u8>, Misfit>
    ensures some { IfOk result (λ salt. 1 ≤ length salt.items) }
    ensures most { IfOk result (λ salt. length salt.items ≤ 64) }
{
    let wrong = Cause::Not("hexadecimal digits of 1 to 64 bytes");
    let salt = match decode(alloc, part.text()?) {
        Ok(salt) => salt,
        Err(FromHexError::OutOfMemory) => return Err(Misfit::NoMemory),
        Err(_) => return Err(part.wrong(wrong)),
    };
    if salt.is_empty() || salt.len() > MOST_SALT {
        return Err(part.wrong(wrong));
    }
    Ok(salt)
}

/// What was derived of a password.
fn key_of(part: Part<'_>) -> Result<[u8; 32], Misfit> {
    let mut key = [0; 32];
    match decode_to_slice(part.text()?, &mut key) {
        Ok(()) => Ok(key),
        Err(_) => Err(part.wrong(Cause::Not("hexadecimal digits of 32 bytes"))),
    }
}

/// The node that a user is, by its group and its name.
fn node_of(alloc: Global, part: Part<'_>) -> Result<NodeName, Misfit>
    ensures { IfOk result (λ node. is_node node ≡ true) }
{
    if let Some((group, node)) = part.text()?.split_once('/') {
        if is_name(group) && is_name(node) {
            return Ok(NodeName {
                group: String::from_str(alloc, group)?,
                node: String::from_str(alloc, node)?,
            });
        }
    }
    Err(part.wrong(Cause::Not(
        "GROUP/NODE, two names: not empty, and without `+`, `/`, `#` and U+0000",
    )))
}

/// The node that a user is, if it is one.
fn some_node_of(alloc: Global, part: Option<Part<'_>>) -> Result<Option<NodeName>, Misfit>
    ensures { IfOk result (λ node. some_is_node node ≡ true) }
{
    match part {
        Some(part) => Ok(Some(node_of(alloc, part)?)),
        None => Ok(None),
    }
}

/// The host that a user is, if it is one.
fn some_host_of(alloc: Global, part: Option<Part<'_>>) -> Result<Option<String>, Misfit>
    ensures { IfOk result (λ host. some_is_host host ≡ true) }
{
    match part {
        Some(part) => Ok(Some(short_name_of(alloc, part)?)),
        None => Ok(None),
    }
}

/// A topic filter.
fn filter_of(alloc: Global, part: Part<'_>) -> Result<String, Misfit>
    ensures { IfOk result (λ filter. is_filter filter ≡ true) }
{
    let text = part.text()?;
    match Filter::read(text) {
        Ok(filter) => Ok(String::from_str(alloc, filter.text())?),
        Err(_) => Err(part.wrong(Cause::Not("a topic filter"))),
    }
}

/// The topic filters of a list.
fn filters_of(alloc: Global, part: Part<'_>) -> Result<Vec<String>, Misfit>
    ensures most { IfOk result (λ filters. length filters.items ≤ 1000) }
    ensures filters { IfOk result (λ filters. are_filters filters ≡ true) }
{
    let mut filters = Vec::new(alloc);
    for index in 0..part.items(MOST_FILTERS)?.len() {
        filters.push(filter_of(alloc, part.item(index)?)?)?;
    }
    Ok(filters)
}

/// The topic filters of a list, where there is one.
fn some_filters_of(alloc: Global, part: Option<Part<'_>>) -> Result<Option<Vec<String>>, Misfit>
    ensures { IfOk result (λ filters. some_are_filters filters ≡ true) }
{
    match part {
        Some(part) => Ok(Some(filters_of(alloc, part)?)),
        None => Ok(None),
    }
}

/// What a user may do.
fn rights_of(alloc: Global, part: Part<'_>) -> Result<Rights, Misfit>
    ensures node { IfOk result (λ r. some_is_node r.node ≡ true) }
    ensures host { IfOk result (λ r. some_is_host r.host ≡ true) }
    ensures publish { IfOk result (λ r. some_are_filters r.publish ≡ true) }
    ensures subscribe { IfOk result (λ r. some_are_filters r.subscribe ≡ true) }
{
    Ok(Rights {
        node: some_node_of(alloc, part.find("node"))?,
        host: some_host_of(alloc, part.find("host"))?,
        publish: some_filters_of(alloc, part.find("publish"))?,
        subscribe: some_filters_of(alloc, part.find("subscribe"))?,
    })
}

/// The user that a line of a users' file says: a name of 1 to 256 bytes, without `:` and control characters; a password by the salt, of 1 to 64 bytes, the
/// rounds, 1 to 1,000,000, and the key of 32 bytes that PBKDF2 with HMAC-SHA-256 derives of it; the node and the host that it is, if it is one;
/// and filters, at most 1,000, of the topics on which it may publish and to which it may subscribe, each where nothing is said (own rules).
pub fn user_of(alloc: Global, line: &str) -> Result<User, Misfit>
    ensures some { IfOk result (λ u. 1 ≤ length (string_bytes u.name)) }
    ensures most { IfOk result (λ u. length (string_bytes u.name) ≤ 256) }
    ensures plain { IfOk result (λ u. is_plain (string_bytes u.name) ≡ true) }
    ensures salted { IfOk result (λ u. 1 ≤ length u.salt.items) }
    ensures salt { IfOk result (λ u. length u.salt.items ≤ 64) }
    ensures least_rounds { IfOk result (λ u. 1 ≤ u.rounds) }
    ensures most_rounds { IfOk result (λ u. u.rounds ≤ 1000000) }
    ensures node { IfOk result (λ u. some_is_node u.rights.node ≡ true) }
    ensures host { IfOk result (λ u. some_is_host u.rights.host ≡ true) }
    ensures publish { IfOk result (λ u. some_are_filters u.rights.publish ≡ true) }
    ensures subscribe { IfOk result (λ u. some_are_filters u.rights.subscribe ≡ true) }
{
    let json = json_of(alloc, line)?;
    let user = Part::file(&json);
    user.only(alloc, &USER)?;
    let name = user_name_of(alloc, user.member("user")?)?;
    let password = user.member("password")?;
    password.only(alloc, &PASSWORD)?;
    let rounds = password.member("rounds")?.number(1, MOST_ROUNDS)? as u32;
    let salt = salt_of(alloc, password.member("salt")?)?;
    let key = key_of(password.member("key")?)?;
    let rights = rights_of(alloc, user)?;
    Ok(User {
        name,
        salt,
        rounds,
        key,
        rights,
    })
}

/// What the user of a line may hold.
fn line_limits_of(alloc: Global, line: &str) -> Result<Limits, Misfit>
    ensures { IfOk result (λ l. IsBounded l) }
{
    let json = json_of(alloc, line)?;
    limits_of(alloc, Part::file(&json).find("limits"))
}

/// Whether a user of that name is there.
fn is_there(users: &[User], name: &str) -> bool
    ensures { result ≡ list_any
        (λ (u : User). bytes_eq name.now (string_bytes u.name)) users.now }
{
    users.iter().any(|user| name == user.name.as_str())
}

/// The user of a line behind others, whose name none of these has.
fn another_of(alloc: Global, users: &[User], line: &str) -> Result<User, Misfit>
    ensures apart { IfOk result (λ another. list_any
        (λ (u : User). bytes_eq (string_bytes another.name) (string_bytes u.name)) users.now ≡ false) }
    ensures plain { IfOk result (λ another. is_plain (string_bytes another.name) ≡ true) }
{
    let user = user_of(alloc, line)?;
    if is_there(users, user.name.as_str()) {
        let place = Place::FILE.member("user");
        return Err(Misfit::Wrong(place, Cause::SameUser));
    }
    Ok(user)
}

/// The users of a users' file, and what each of them may hold, in the same order.
#[derive(Debug, Drop)]
pub struct Listed {
    pub users: Vec<User>,
    pub limits: Vec<Limits>,
}

impl Listed {
    /// The user of one line more, and what it may hold.
    #[tactic(auto, using(crate::proofs::Apart::apart_push, crate::proofs::Apart::plain_push, crate::proofs::Apart::bounded_push))]
    fn push(&mut self, alloc: Global, line: &str) -> Result<(), Misfit>
        ensures { OnOk result (IsListed self.old → IsListed self.new) }
    {
        let user = another_of(alloc, &self.users, line)?;
        let limits = line_limits_of(alloc, line)?;
        self.users.push(user)?;
        self.limits.push(limits)?;
        Ok(())
    }
}

/// The users that a file says, a line for each, no two of one name, and what each may hold: none where it has no lines. Empty lines, and those that begin with
/// `#`, are passed over (own rules).
pub fn users_of(alloc: Global, text: &str) -> Result<Listed, Misfit>
    ensures apart { IfOk result (λ listed. are_apart listed.users.items ≡ true) }
    ensures plain { IfOk result (λ listed. are_plain listed.users.items ≡ true) }
    ensures each { IfOk result (λ listed. length listed.limits.items ≡ length listed.users.items) }
    ensures bounded { IfOk result (λ listed. AreBounded listed.limits.items) }
{
    let mut listed = Listed {
        users: Vec::new(alloc),
        limits: Vec::new(alloc),
    };
    for (place, line) in text.lines().enumerate() {
        if line.is_empty() || line.starts_with('#') {
            continue;
        }
        if let Err(misfit) = listed.push(alloc, line) {
            return Err(misfit.in_line(place.saturating_add(1)));
        }
    }
    Ok(listed)
}
