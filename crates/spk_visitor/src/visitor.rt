//! One client.
ghost use Rattle.std.specs.Prelude.{◌≡◌, ◌≢◌, ◌⊎◌, ◌++◌, [], List, ℕ, IfErr, IfOk, OnOk, OnErr, map, Some};
ghost use Rattle.std.specs.String.{string_bytes};
ghost use Rattle.std.specs.List.{filter};
ghost use Rattle.std.specs.Option.{option_map};
ghost use Rattle.spk_packets.specs.Spelling.{spelling};
ghost use Rattle.spk_packets.specs.declared.fault.PacketFault.TheVariants as PacketFault;
ghost use Rattle.spk_packets.specs.View.{request_view, view, will_view};
ghost use Rattle.spk_access.specs.Rights.{RightsData, may_subscribe, rights_view};
ghost use Rattle.spk_door.specs.Data.{Comes as EntryComes};
ghost use Rattle.spk_door.specs.Rules.{judged};
ghost use Rattle.spk_door.specs.View.{door_view, login_view, rights_of, user_of, verdict_view};
ghost use Rattle.spk_visitor.specs.Data.{Outside};
ghost use Rattle.spk_visitor.specs.Next.{Comes, IsBehind, IsFed, IsNext, IsTooMuch, Keeps, Stays, passed};
ghost use Rattle.spk_visitor.specs.Rules.{client_of, cut_off, entered, first, further, is_bounded, login_of, subscribe_of};
ghost use Rattle.spk_visitor.specs.declared.answer.Answer.TheVariants as Answer;
ghost use Rattle.spk_visitor.specs.declared.visitor.Stage.TheVariants as Stage;
ghost use Rattle.spk_visitor.specs.View.{answer_view, stage_view, unread_of, user_place};

use crate::answer::Answer;
use spk_access::Rights;
use spk_credentials::read;
use spk_door::{Door, Entry, Login, Verdict, Who};
use spk_packets::{Feed, Packet, PacketFault, Request, Will, decode, encode};
use std::alloc::{AllocError, Global};
use std::mem::replace;

/// CONNACK: another level of the protocol (section 3.2.2.3).
const BAD_LEVEL: u8 = 1;

/// CONNACK: the client identifier isn't allowed.
const BAD_CLIENT: u8 = 2;

/// The longest text, in bytes (section 1.5.3).
const LONGEST: usize = 65_535;

/// How many bytes may wait until somebody came in (own rule). The longest CONNECT has 327,702.
const MOST_OUTSIDE: usize = 524_288;

/// How a client stands.
#[derive(Drop)]
pub(crate) enum Stage {
    /// What it sent so far isn't a whole packet.
    Outside(Vec<u8>),
    /// It came in, and this waits.
    Inside(Who, Feed),
    /// Nothing more of it is taken.
    Over,
}

/// One client of a broker behind a door: it is told what the client sent, and says what of it goes on.
#[derive(Drop)]
pub struct Visitor {
    alloc: Global,
    pub(crate) stage: Stage,
}

/// The login of a CONNECT, by its bytes.
fn login_of(packet: &[u8]) -> Option<Login<'_>>
    ensures { option_map login_view result ≡ login_of packet.now }
{
    let credentials = read(packet);
    match credentials.user {
        Some(user) => Some(Login {
            user,
            password: credentials.password.unwrap_or(&[]),
        }),
        None => None,
    }
}

/// Appends a packet.
pub(crate) fn put(alloc: Global, packet: &Packet, out: &mut Vec<u8>) -> Result<(), AllocError>
    ensures ok { OnOk result (out.new.items ≡ out.old.items ++ spelling (view packet.now)) }
    ensures err { OnErr result (out.new.items ≡ out.old.items) }
{
    let Ok(bytes) = encode(alloc, packet) else {
        return Err(AllocError);
    };
    out.extend_from_slice(&bytes)?;
    Ok(())
}

/// Appends a SUBSCRIBE of these entries, if there are some.
fn put_subscribe(
    alloc: Global,
    id: u16,
    filters: Vec<Request>,
    out: &mut Vec<u8>,
) -> Result<(), AllocError>
    ensures { OnOk result (out.new.items
        ≡ out.old.items ++ passed (subscribe_of id (map request_view filters.items))) }
{
    if filters.is_empty() {
        return Ok(());
    }
    put(alloc, &Packet::Subscribe { id, filters }, out)
}

/// The entries that somebody may subscribe to. Refused where memory was.
fn allowed(alloc: Global, rights: &Rights, entries: &[Request]) -> Result<Vec<Request>, AllocError>
    ensures { IfOk result (λ v. map request_view v.items
        ≡ filter (λ e. may_subscribe (rights_view rights.now) e.0) (map request_view entries.now)) }
{
    let mut kept = Vec::new(alloc);
    for entry in entries {
        if rights.may_subscribe(entry.filter.as_str()) {
            kept.push(Request {
                filter: String::from_str(alloc, entry.filter.as_str())?,
                qos: entry.qos,
            })?;
        }
    }
    Ok(kept)
}

/// Appends what goes on of a SUBSCRIBE of which not every entry is allowed.
fn put_allowed(
    alloc: Global,
    rights: &Rights,
    packet: &Packet,
    each: Vec<bool>,
    out: &mut Vec<u8>,
) -> Result<Answer, AllocError>
    ensures answer { IfOk result (λ a. answer_view a
        ≡ (cut_off (rights_view rights.now) each.items (view packet.now)).answer) }
    ensures passes { OnOk result (out.new.items
        ≡ out.old.items ++ passed (cut_off (rights_view rights.now) each.items (view packet.now)).passes) }
{
    match packet {
        Packet::Subscribe { id, filters } => {
            let kept = allowed(alloc, rights, filters)?;
            put_subscribe(alloc, *id, kept, out)?;
            Ok(Answer::Cuts(*id, each))
        }
        _ => Ok(Answer::Closes),
    }
}

/// The client identifier under which the broker knows a client of this user, if it is one. Refused where memory was.
fn client_of(alloc: Global, user: Option<&str>, client: &str) -> Result<String, AllocError>
    ensures { IfOk result (λ own. string_bytes own
        ≡ client_of (option_map (λ name. name.now) user.entry) client.now) }
{
    let mut own = String::new(alloc);
    let Some(user) = user else {
        own.push_str(client)?;
        return Ok(own);
    };
    if !client.is_empty() {
        own.push_str(user)?;
        own.push_str(":")?;
        own.push_str(client)?;
    }
    Ok(own)
}

/// Somebody who came in: the CONNECT goes on under the client identifier by which the broker knows its client, where its will is allowed. `rest` waits behind it.
fn admit(
    alloc: Global,
    door: &Door,
    who: Who,
    client: &str,
    clean: bool,
    keep: u16,
    will: Option<Will>,
    rest: &[u8],
    out: &mut Vec<u8>,
) -> Result<(Stage, Answer), AllocError>
    ensures comes { IfOk result (λ x. (r : RightsData) → rights_of door.now who ≡ Some r
        → Comes door.now (entered (door_view door.now) client.now clean keep
        (option_map will_view will) (EntryComes (user_of door.now who) r)) x.1 x.0
        out.old.items out.new.items) }
    ensures keeps { IfOk result (λ x. Keeps x.0 rest.now) }
{
    let Some(rights) = door.rights(&who) else {
        return Ok((Stage::Over, Answer::Closes));
    };
    let own = client_of(alloc, door.user(&who), client)?;
    if own.as_str().len() > LONGEST {
        return Ok((Stage::Over, Answer::Refuses(BAD_CLIENT)));
    }
    if !door.lets_will(alloc, rights, &will)? {
        return Ok((Stage::Over, Answer::Closes));
    }
    let packet = Packet::Connect {
        client: own,
        clean,
        keep,
        will,
    };
    put(alloc, &packet, out)?;
    let mut feed = Feed::new(alloc);
    if feed.feed(rest).is_err() {
        return Err(AllocError);
    }
    Ok((Stage::Inside(who, feed), Answer::Goes))
}

/// What becomes of the first packet, whose bytes are `front`, and behind which `rest` waits.
fn let_in(
    alloc: Global,
    door: &Door,
    packet: Packet,
    front: &[u8],
    rest: &[u8],
    out: &mut Vec<u8>,
) -> Result<(Stage, Answer), AllocError>
    ensures comes { IfOk result (λ x. Comes door.now
        (first (door_view door.now) front.now (view packet)) x.1 x.0 out.old.items out.new.items) }
    ensures keeps { IfOk result (λ x. Keeps x.0 rest.now) }
{
    let Packet::Connect {
        client,
        clean,
        keep,
        will,
    } = packet
    else {
        return Ok((Stage::Over, Answer::Closes));
    };
    match door.entry(alloc, client.as_str(), &login_of(front))? {
        Entry::In(who) => admit(
            alloc,
            door,
            who,
            client.as_str(),
            clean,
            keep,
            will,
            rest,
            out,
        ),
        Entry::Refused(code) => Ok((Stage::Over, Answer::Refuses(code))),
    }
}

/// What becomes of a further packet of somebody who may do this: the answer, and whether more of its client is taken.
fn pass(
    alloc: Global,
    door: &Door,
    rights: &Rights,
    packet: &Packet,
    out: &mut Vec<u8>,
) -> Result<Answer, AllocError>
    ensures answer { IfOk result (λ a. answer_view a ≡ (further (rights_view rights.now)
        (view packet.now) (judged (rights_view rights.now) door.now.guard (view packet.now))).answer) }
    ensures passes { OnOk result (out.new.items ≡ out.old.items
        ++ passed (further (rights_view rights.now) (view packet.now)
        (judged (rights_view rights.now) door.now.guard (view packet.now))).passes) }
{
    match door.judge(alloc, rights, packet)? {
        Verdict::Pass => {
            put(alloc, packet, out)?;
            Ok(Answer::Goes)
        }
        Verdict::Cut(each) => put_allowed(alloc, rights, packet, each, out),
        Verdict::Close => Ok(Answer::Closes),
    }
}

/// Takes the first packet, if it is whole.
fn enter(
    alloc: Global,
    door: &Door,
    unread: Vec<u8>,
    out: &mut Vec<u8>,
) -> Result<(Stage, Answer), AllocError>
    ensures { IfOk result (λ x. IsNext door.now (Stage.Outside unread) x.1 x.0
        out.old.items out.new.items) }
{
    match decode(alloc, &unread) {
        Ok((packet, size)) => let_in(alloc, door, packet, &unread[..size], &unread[size..], out),
        Err(PacketFault::NoMemory) => Err(AllocError),
        Err(PacketFault::More) => Ok((Stage::Outside(unread), Answer::More)),
        Err(PacketFault::BadLevel) => Ok((Stage::Over, Answer::Refuses(BAD_LEVEL))),
        Err(_) => Ok((Stage::Over, Answer::Closes)),
    }
}

/// How somebody stands behind an answer, for whom this waits: over, where the connection is to be closed.
fn behind(who: Who, feed: Feed, answer: &Answer) -> Stage
    ensures { IsBehind who feed (answer_view answer.now) result }
{
    match answer {
        Answer::Closes => Stage::Over,
        _ => Stage::Inside(who, feed),
    }
}

/// Bytes that are no packet close their connection, unless memory was refused.
fn closed_by(fault: PacketFault) -> Result<(Stage, Answer), AllocError>
    ensures over { IfOk result (λ x. (x.0 ≡ Stage.Over) × (x.1 ≡ Answer.Closes)) }
    ensures named { OnOk result (fault ≢ PacketFault.NoMemory) }
{
    match fault {
        PacketFault::NoMemory => Err(AllocError),
        _ => Ok((Stage::Over, Answer::Closes)),
    }
}

/// Takes the next packet of somebody who came in, if it is whole.
fn go_on(
    alloc: Global,
    door: &Door,
    who: Who,
    mut feed: Feed,
    out: &mut Vec<u8>,
) -> Result<(Stage, Answer), AllocError>
    ensures { IfOk result (λ x. IsNext door.now (Stage.Inside who feed) x.1 x.0
        out.old.items out.new.items) }
{
    match feed.next() {
        Ok(Some(packet)) => {
            let Some(rights) = door.rights(&who) else {
                return Ok((Stage::Over, Answer::Closes));
            };
            let answer = pass(alloc, door, rights, &packet, out)?;
            let stage = behind(who, feed, &answer);
            Ok((stage, answer))
        }
        Ok(None) => Ok((Stage::Inside(who, feed), Answer::More)),
        Err(fault) => closed_by(fault),
    }
}

impl Visitor {
    /// Nothing was sent yet.
    pub fn new(alloc: Global) -> Visitor
        ensures stage { (d : Door) → stage_view d result.stage ≡ Outside }
        ensures unread { unread_of result.stage ≡ [] }
    {
        Visitor {
            alloc,
            stage: Stage::Outside(Vec::new(alloc)),
        }
    }

    /// Whether a SUBSCRIBE of it may be cut: whether it came in, and there are filters of its own.
    pub fn may_be_cut(&self, door: &Door) -> bool
        ensures { result ≡ is_bounded (stage_view door.now self.now.stage) }
    {
        match &self.stage {
            Stage::Inside(who, _) => match door.rights(who) {
                Some(rights) => rights.subscribe.is_some(),
                None => false,
            },
            Stage::Outside(_) | Stage::Over => false,
        }
    }

    /// The user as which it came in, by its number in the door's list; none of a client without a user, or of one that isn't in.
    pub fn user(&self) -> Option<usize>
        ensures { result ≡ user_place self.now.stage }
    {
        match &self.stage {
            Stage::Inside(Who::User(place), _) => Some(*place),
            Stage::Inside(Who::Client(_), _) | Stage::Outside(_) | Stage::Over => None,
        }
    }

    /// Takes in bytes that the client sent, where something more of it is taken. Refused with NoMemory, and with TooLarge where more bytes would wait than may:
    /// 524,288 until it came in (own rule), and 2,097,152 behind that. Then nothing is taken in.
    pub fn feed(&mut self, piece: &[u8]) -> Result<(), PacketFault>
        ensures ok { OnOk result (IsFed self.old.stage piece.now self.new.stage) }
        ensures room { OnOk result (¬ (IsTooMuch self.old.stage piece.now)) }
        ensures refused { IfErr result (λ e. (e ≡ PacketFault.NoMemory)
            ⊎ ((e ≡ PacketFault.TooLarge) × IsTooMuch self.old.stage piece.now)) }
        ensures err { OnErr result (Stays self.old.stage self.new.stage) }
    {
        match &mut self.stage {
            Stage::Outside(unread) => {
                if unread.len().saturating_add(piece.len()) > MOST_OUTSIDE {
                    return Err(PacketFault::TooLarge);
                }
                unread.extend_from_slice(piece)?;
            }
            Stage::Inside(_, feed) => feed.feed(piece)?,
            Stage::Over => {}
        }
        Ok(())
    }

    /// Takes the next packet of what the client sent, if it is whole: what goes on to the broker is put behind `out`, as `specs/Rules.antt` says. Refused where memory
    /// was: then nothing more of this client is taken.
    pub fn next(&mut self, door: &Door, out: &mut Vec<u8>) -> Result<Answer, AllocError>
        ensures ok { IfOk result (λ a. IsNext door.now self.old.stage a self.new.stage
            out.old.items out.new.items) }
        ensures err { OnErr result ((self.old.stage ≢ Stage.Over)
            × (self.new.stage ≡ Stage.Over)) }
    {
        match replace(&mut self.stage, Stage::Over) {
            Stage::Outside(unread) => {
                let (stage, answer) = enter(self.alloc, door, unread, out)?;
                self.stage = stage;
                Ok(answer)
            }
            Stage::Inside(who, feed) => {
                let (stage, answer) = go_on(self.alloc, door, who, feed, out)?;
                self.stage = stage;
                Ok(answer)
            }
            Stage::Over => Ok(Answer::Closes),
        }
    }
}
