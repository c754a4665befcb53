//! What must hold of every report, judged on its lists alone.
use crate::plans::{NAMES, taken_in};
use spk_edge::Published;
use spk_host::Taken;
use spk_ingress::{Frame, Message};
use spk_packets::Packet;
use spk_payload::{Payload, decode};
use spk_plant::{NodeReport, Report};
use spk_plant_broker::Refusal;
use spk_plant_host::Given;
use spk_reading::{Content, Heard, Subject};
use std::alloc::Global;

/// What is wrong with a report, or None. Where memory was refused nothing is said.
type Complaint = Option<&'static str>;

fn is_same(published: &Published, taken: &Taken) -> bool {
    published.topic == taken.topic && published.payload == taken.payload
}

/// The place of the birth that was consumed, from a place on.
fn birth_from(published: &[Published], from: usize, taken: &Taken) -> Option<usize> {
    for (place, message) in published.iter().enumerate() {
        if place >= from && message.opens && is_same(message, taken) {
            return Some(place);
        }
    }
    None
}

/// The place of a message that isn't a birth: just behind the one consumed before it, and not a birth.
fn next_at(published: &[Published], from: usize, taken: &Taken) -> Option<usize> {
    let message = published.get(from)?;
    if from > 0 && !message.opens && is_same(message, taken) {
        Some(from)
    } else {
        None
    }
}

/// One past the place of what was consumed, from a place on.
fn behind(published: &[Published], from: usize, taken: &Taken) -> Option<usize> {
    let place = match taken.subject {
        Subject::NodeBirth => birth_from(published, from, taken)?,
        _ => next_at(published, from, taken)?,
    };
    Some(place.saturating_add(1))
}

/// The same of all of a node that one item had consumed.
fn behind_all(
    consumed: &[Taken],
    name: &str,
    published: &[Published],
    from: usize,
) -> Option<usize> {
    let mut place = from;
    for taken in consumed {
        if taken.node.as_str() == name {
            place = behind(published, place, taken)?;
        }
    }
    Some(place)
}

/// Whether what the host consumed of a node is, birth by birth in increasing order, a front of what the node published under that birth.
fn are_fronts(given: &[Given], name: &str, published: &[Published]) -> bool {
    let mut from = Some(0usize);
    for item in given {
        from = match from {
            Some(from) => behind_all(&item.consumed, name, published, from),
            None => None,
        };
    }
    from.is_some()
}

/// A numbered message that was taken.
#[derive(Drop)]
struct Sent {
    sender: usize,
    topic: String,
    payload: Payload,
}

/// What a frame brings.
#[derive(Drop)]
enum Brought {
    Nothing,
    Subscribe,
    Numbered(Sent),
}

fn numbered(alloc: Global, sender: usize, topic: String, payload: &[u8]) -> Option<Brought> {
    let payload = decode(alloc, payload).ok()?;
    Some(Brought::Numbered(Sent {
        sender,
        topic,
        payload,
    }))
}

/// What a packet brings: a numbered message has QoS 0, and comes from a node.
fn read_packet(alloc: Global, nodes: usize, sender: usize, packet: Packet) -> Option<Brought> {
    match packet {
        Packet::Subscribe { .. } if sender == nodes => Some(Brought::Subscribe),
        Packet::Publish {
            qos: 0,
            topic,
            payload,
            ..
        } if sender < nodes => numbered(alloc, sender, topic, payload.as_slice()),
        _ => Some(Brought::Nothing),
    }
}

/// What a frame brings.
fn read_frame(alloc: Global, nodes: usize, message: &Message) -> Option<Brought> {
    let Frame::Packet(whole) = &message.frame else {
        return Some(Brought::Nothing);
    };
    read_packet(alloc, nodes, message.sender, whole.read(alloc).ok()?)
}

/// The numbered messages that were taken, in order.
#[derive(Drop)]
struct Traffic {
    sent: Vec<Sent>,
    /// How many of them were taken before the host's SUBSCRIBE.
    before: usize,
}

/// One thing more was taken. None where memory was refused.
fn keep(traffic: &mut Traffic, brought: Brought) -> Option<()> {
    match brought {
        Brought::Nothing => Some(()),
        Brought::Subscribe => {
            traffic.before = traffic.before.min(traffic.sent.len());
            Some(())
        }
        Brought::Numbered(one) => traffic.sent.push(one).ok(),
    }
}

/// The numbered messages that were taken. None where memory was refused.
fn traffic_of(alloc: Global, nodes: usize, taken: &[Message]) -> Option<Traffic> {
    let mut traffic = Traffic {
        sent: Vec::new(alloc),
        before: usize::MAX,
    };
    for message in taken {
        keep(&mut traffic, read_frame(alloc, nodes, message)?)?;
    }
    Some(traffic)
}

/// A message is the one that was sent.
fn is_sent(topic: &String, payload: &Payload, sent: Option<&Sent>) -> bool {
    match sent {
        Some(sent) => *topic == sent.topic && *payload == sent.payload,
        None => false,
    }
}

/// Whether the messages taken of a node are those that it published, in order, each once.
fn are_taken(sent: &[Sent], sender: usize, published: &[Published]) -> bool {
    let mut place = 0usize;
    for one in sent {
        if one.sender == sender {
            let Some(message) = published.get(place) else {
                return false;
            };
            if !is_sent(&message.topic, &message.payload, Some(one)) {
                return false;
            }
            place = place.saturating_add(1);
        }
    }
    place == published.len()
}

/// The message that an item gave the host.
fn message_of(given: &Given) -> Option<&Taken> {
    match &given.heard {
        Some(
            Heard::Published {
                content: Content::Message(heard),
                ..
            },
        ) => Some(heard),
        _ => None,
    }
}

/// Whether the messages given to the host are these, in order.
fn are_given(given: &[Given], sent: &[Sent]) -> bool {
    let mut place = 0usize;
    for item in given {
        if let Some(heard) = message_of(item) {
            if !is_sent(&heard.topic, &heard.payload, sent.get(place)) {
                return false;
            }
            place = place.saturating_add(1);
        }
    }
    place == sent.len()
}

/// What an item says of a node.
#[derive(Clone, Copy)]
enum Word<'a> {
    Nothing,
    Message(&'a Taken),
    Death,
}

/// What an item says of a node.
fn word_of<'a>(given: &'a Given, name: &str) -> Word<'a> {
    let Some(Heard::Published { content, .. }) = &given.heard else {
        return Word::Nothing;
    };
    match content {
        Content::Message(heard) if heard.node.as_str() == name => Word::Message(heard),
        Content::Death { node, .. } if node.as_str() == name => Word::Death,
        _ => Word::Nothing,
    }
}

/// Where the host stands in what a node published.
#[derive(Clone, Copy)]
struct Stand {
    /// One past the place of the message that was given last.
    given: usize,
    /// The place of the message that is consumed where it comes; None where only a birth is.
    next: Option<usize>,
}

/// The place of a message, from a place on.
fn place_from(published: &[Published], from: usize, given: &Taken) -> Option<usize> {
    let rest = published.get(from..)?;
    for (more, message) in rest.iter().enumerate() {
        if is_same(message, given) {
            return Some(from.saturating_add(more));
        }
    }
    None
}

/// Where the host stands behind a message that is due: it was consumed, and it alone.
fn behind_due(consumed: &[Taken], name: &str, message: &Published, behind: usize) -> Option<Stand> {
    if taken_in(consumed, name) != 1 || !consumed.iter().any(|taken| is_same(message, taken)) {
        return None;
    }
    Some(Stand {
        given: behind,
        next: Some(behind),
    })
}

/// Where the host stands behind a message. Messages come in order, so one is consumed as it comes or never: a birth is, and another where
/// the one before it was, and no death came since.
fn behind_message(
    consumed: &[Taken],
    name: &str,
    published: &[Published],
    stand: Stand,
    heard: &Taken,
) -> Option<Stand> {
    let place = place_from(published, stand.given, heard)?;
    let message = published.get(place)?;
    let behind = place.saturating_add(1);
    if message.opens || stand.next == Some(place) {
        return behind_due(consumed, name, message, behind);
    }
    behind_nothing(consumed, name, behind)
}

/// Where the host stands behind what makes it consume nothing of the node until a birth comes.
fn behind_nothing(consumed: &[Taken], name: &str, given: usize) -> Option<Stand> {
    if taken_in(consumed, name) > 0 {
        return None;
    }
    Some(Stand { given, next: None })
}

/// Where the host stands behind an item.
fn behind_item(given: &Given, name: &str, published: &[Published], stand: Stand) -> Option<Stand> {
    match word_of(given, name) {
        Word::Message(heard) => behind_message(&given.consumed, name, published, stand, heard),
        Word::Death => behind_nothing(&given.consumed, name, stand.given),
        Word::Nothing if taken_in(&given.consumed, name) > 0 => None,
        Word::Nothing => Some(stand),
    }
}

/// Whether the messages given of a node are in the order of their publishing, each once, and consumption goes on and stands for a cause:
/// it stands where a message is missing or a death came, until a birth comes, and nowhere else.
fn has_causes(given: &[Given], name: &str, published: &[Published]) -> bool {
    let mut stand = Some(Stand {
        given: 0,
        next: None,
    });
    for item in given {
        stand = match stand {
            Some(stand) => behind_item(item, name, published, stand),
            None => None,
        };
    }
    stand.is_some()
}

/// How many of the refused offers were the host's.
fn refused_to(host: usize, refusals: &[Refusal]) -> usize {
    let mut count = 0usize;
    for refusal in refusals {
        if refusal.client == host {
            count = count.saturating_add(1);
        }
    }
    count
}

/// What is wrong with what was consumed and taken of a node.
fn complaint_of(
    given: &[Given],
    sent: &[Sent],
    place: usize,
    published: &[Published],
) -> Complaint {
    let name = NAMES.get(place).copied().unwrap_or("");
    if !are_fronts(given, name, published) {
        Some("what was consumed is no front of what was published, birth by birth")
    } else if !are_taken(sent, place, published) {
        Some("what was taken isn't what was published")
    } else if !has_causes(given, name, published) {
        Some("what was given isn't in order, or consumption stands or goes on without a cause")
    } else {
        None
    }
}

/// The same of all nodes.
fn complaint_of_all(given: &[Given], sent: &[Sent], nodes: &[NodeReport]) -> Complaint {
    for (place, node) in nodes.iter().enumerate() {
        let complaint = complaint_of(given, sent, place, &node.published);
        if complaint.is_some() {
            return complaint;
        }
    }
    None
}

/// What is wrong with the counts of a report.
fn complaint_of_counts(report: &Report) -> Complaint {
    if report.refused != refused_to(report.nodes.len(), &report.refusals) {
        Some("another number of refusals")
    } else if report.accepted.len() != report.given.len() {
        Some("an item that was given and not accepted, or accepted and not given")
    } else {
        None
    }
}

/// What is wrong with the lists of a report.
fn complaint_of_lists(report: &Report, traffic: &Traffic) -> Complaint {
    let complaint = complaint_of_all(&report.given, &traffic.sent, &report.nodes);
    if complaint.is_some() {
        return complaint;
    }
    let due = traffic.sent.get(traffic.before..).unwrap_or(&[]);
    if report.refused == 0 && !report.is_cut && !are_given(&report.given, due) {
        return Some("nothing was refused, and what was due wasn't given");
    }
    None
}

/// What is wrong with a report; None where nothing is, or memory was refused.
pub(crate) fn complaint(alloc: Global, report: &Report) -> Complaint {
    let complaint = complaint_of_counts(report);
    if complaint.is_some() {
        return complaint;
    }
    let traffic = traffic_of(alloc, report.nodes.len(), &report.taken)?;
    complaint_of_lists(report, &traffic)
}
