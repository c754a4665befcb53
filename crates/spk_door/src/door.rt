//! Who comes in, and what becomes of their packets.
ghost use Rattle.std.specs.Prelude.{◌≡◌, ◌≢◌, IfErr, IfOk, IfSome, IfNone, Some, None, map, slice_get, true};
ghost use Rattle.std.specs.List.{list_all, position};
ghost use Rattle.std.specs.Option.{option_copied, option_map};
ghost use Rattle.std.specs.Str.{bytes_eq};
ghost use Rattle.std.specs.String.{string_bytes};
ghost use Rattle.spk_packets.specs.View.{request_view, view, will_view};
ghost use Rattle.spk_access.specs.Rights.{rights_view};
ghost use Rattle.spk_door.specs.Data.{UserData, Comes, Refused};
ghost use Rattle.spk_door.specs.Rules.{allowed, cut, entry, entry_by, is_weighed, judged, knows, lets_will};
ghost use Rattle.spk_door.specs.View.{Answers, door_view, login_view, rights_of, user_of, user_view, verdict_view};

use crate::verdict::Verdict;
use spk_access::Rights;
use spk_packets::{Packet, Request, Will};
use spk_password::{derive, is_same};
use std::alloc::{AllocError, Global};

/// CONNACK: the user name isn't known, or the password is wrong (section 3.2.2.3).
const BAD_LOGIN: u8 = 4;

/// CONNACK: the client isn't allowed to connect.
const NOT_ALLOWED: u8 = 5;

/// Somebody whom the door knows.
#[derive(Debug, PartialEq, Eq, Drop)]
pub struct User {
    pub name: String,
    /// What was put to the password before it was derived.
    pub salt: Vec<u8>,
    /// In how many rounds.
    pub rounds: u32,
    /// PBKDF2 with HMAC-SHA-256 of the password (RFC 8018, section 5.2).
    pub key: [u8; 32],
    pub rights: Rights,
}

/// Who may come in, and whose topics are whose.
#[derive(Debug, PartialEq, Eq, Drop)]
pub struct Door {
    /// Who is known; None where everybody may come in.
    pub users: Option<Vec<User>>,
    /// Whether topics of Sparkplug belong to their nodes and hosts.
    pub guard: bool,
}

/// The user name and the password of a CONNECT; a password that isn't there is empty.
#[derive(Clone, Copy, Debug, PartialEq, Eq)]
pub struct Login<'a> {
    /// A text in UTF-8.
    pub user: &'a [u8],
    pub password: &'a [u8],
}

/// Who came in.
#[derive(Debug, PartialEq, Eq, Drop)]
pub enum Who {
    /// The user of this number, counted from 0.
    User(usize),
    /// A client without a user, who may do this.
    Client(Rights),
}

/// What a CONNECT is answered.
#[derive(Debug, PartialEq, Eq, Drop)]
pub enum Entry {
    In(Who),
    /// CONNACK with this code, and its connection is closed.
    Refused(u8),
}

impl User {
    /// Whether this is its password. It takes as long as its rounds do.
    fn knows(&self, password: &[u8]) -> bool
        ensures { result ≡ knows (user_view self.now) password.now }
    {
        is_same(&derive(password, &self.salt, self.rounds), &self.key)
    }
}

/// The place of the first user of a name.
fn place_of(users: &[User], name: &[u8]) -> Option<usize>
    ensures { result ≡ position (λ u. bytes_eq (string_bytes u.name) name.now) users.now }
{
    users.iter().position(|user| user.name.as_bytes() == name)
}

/// The place of the user who has this name and this password.
fn known(users: &[User], login: &Login<'_>) -> Option<usize>
    ensures some { IfSome result (λ k. (u : UserData)
        × (slice_get (map user_view users.now) k ≡ Some u)
        × (entry_by (map user_view users.now) (Some (login_view login.now)) ≡ Comes (Some u.name) u.rights)) }
    ensures none { IfNone result
        (entry_by (map user_view users.now) (Some (login_view login.now)) ≡ Refused 4) }
{
    let place = place_of(users, login.user)?;
    let user = users.get(place)?;
    if user.knows(login.password) {
        return Some(place);
    }
    None
}

/// Whether each of these is true.
fn are_all(each: &[bool]) -> bool
    ensures { result ≡ list_all (λ a. a) each.now }
{
    each.iter().all(|one| *one)
}

/// Which entries of a SUBSCRIBE are allowed. Refused where memory was.
fn allowed(alloc: Global, rights: &Rights, entries: &[Request]) -> Result<Vec<bool>, AllocError>
    ensures { IfOk result (λ v. v.items ≡ allowed (rights_view rights.now) (map request_view entries.now)) }
{
    let mut each = Vec::with_capacity(alloc, entries.len())?;
    for entry in entries {
        each.push(rights.may_subscribe(entry.filter.as_str()))?;
    }
    Ok(each)
}

/// What becomes of a SUBSCRIBE. Refused where memory was.
fn cut(alloc: Global, rights: &Rights, entries: &[Request]) -> Result<Verdict, AllocError>
    ensures { IfOk result (λ v. verdict_view v
        ≡ cut (allowed (rights_view rights.now) (map request_view entries.now))) }
{
    let each = allowed(alloc, rights, entries)?;
    if are_all(&each) {
        return Ok(Verdict::Pass);
    }
    Ok(Verdict::Cut(each))
}

impl Door {
    /// What a CONNECT is answered, by its client identifier and its login, if it has one: whoever is known by name and password comes in as that user, and where
    /// nobody need be known everybody, as the node or the host that the client identifier names. An unknown name or a wrong password is refused with
    /// code 4, no name with 5. Refused where memory was, which only a client without a user takes.
    pub fn entry(
        &self,
        alloc: Global,
        client: &str,
        login: &Option<Login<'_>>,
    ) -> Result<Entry, AllocError>
        ensures ok { IfOk result (λ e. Answers self.now e
            (entry (door_view self.now) client.now (option_map login_view login.now))) }
        ensures err { IfErr result (λ e. (door_view self.now).users ≡ None) }
    {
        let Some(users) = &self.users else {
            let rights = Rights::of_client(alloc, client)?;
            return Ok(Entry::In(Who::Client(rights)));
        };
        let Some(login) = login else {
            return Ok(Entry::Refused(NOT_ALLOWED));
        };
        match known(users, login) {
            Some(place) => Ok(Entry::In(Who::User(place))),
            None => Ok(Entry::Refused(BAD_LOGIN)),
        }
    }

    /// What somebody who came in may do. None where no user of this number is there.
    pub fn rights<'a>(&'a self, who: &'a Who) -> Option<&'a Rights>
        ensures { option_map rights_view (option_copied result) ≡ rights_of self.now who.now }
    {
        match who {
            Who::User(place) => match &self.users {
                Some(users) => users.get(*place).map(|user| &user.rights),
                None => None,
            },
            Who::Client(rights) => Some(rights),
        }
    }

    /// The name of the user as which somebody came in. None of a client without a user, and where no user of this number is there.
    pub fn user<'a>(&'a self, who: &Who) -> Option<&'a str>
        ensures { option_map (λ name. name.now) result ≡ user_of self.now who.now }
    {
        match who {
            Who::User(place) => match &self.users {
                Some(users) => users.get(*place).map(|user| user.name.as_str()),
                None => None,
            },
            Who::Client(_) => None,
        }
    }

    /// Whether the will of a CONNECT is allowed: whether its message is. Refused where memory was, which only a guard takes.
    pub fn lets_will(
        &self,
        alloc: Global,
        rights: &Rights,
        will: &Option<Will>,
    ) -> Result<bool, AllocError>
        ensures ok { IfOk result (λ lets. lets
            ≡ lets_will (rights_view rights.now) self.now.guard (option_map will_view will.now)) }
        ensures err { IfErr result (λ e. (self.now.guard ≡ true) × (will.now ≢ None)) }
    {
        match will {
            Some(will) => rights.may_publish(alloc, self.guard, will.topic.as_str()),
            None => Ok(true),
        }
    }

    /// What becomes of a packet behind the CONNECT of somebody who may do this. Refused where memory was, which only a SUBSCRIBE and, under a guard, a PUBLISH
    /// take.
    pub fn judge(
        &self,
        alloc: Global,
        rights: &Rights,
        packet: &Packet,
    ) -> Result<Verdict, AllocError>
        ensures ok { IfOk result (λ v. verdict_view v
            ≡ judged (rights_view rights.now) self.now.guard (view packet.now)) }
        ensures err { IfErr result (λ e. is_weighed self.now.guard (view packet.now) ≡ true) }
    {
        match packet {
            Packet::Connect { .. } => Ok(Verdict::Close),
            Packet::Publish { topic, .. } => {
                if rights.may_publish(alloc, self.guard, topic.as_str())? {
                    Ok(Verdict::Pass)
                } else {
                    Ok(Verdict::Close)
                }
            }
            Packet::Subscribe { filters, .. } => cut(alloc, rights, filters),
            _ => Ok(Verdict::Pass),
        }
    }
}
