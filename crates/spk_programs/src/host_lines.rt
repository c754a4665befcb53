//! The words of a host's core, as lines.

use crate::known::{Known, Nodes, Stand, stand_of};
use crate::printing::{
    Cause, write_asked, write_death, write_lost, write_message, write_refused, write_session_over,
    write_stand, write_subscription, write_turned_away,
};
use spk_host::{DeviceView, Entry, Taken};
use spk_host_app::Said;
use spk_reading::Subject;
use spk_sequence::Step;
use spk_topics::Spark;
use std::alloc::Global;
use std::io::{self, Write};

/// Whether a message may change how a node or a device stands, and of what that comes.
fn cause_of(subject: &Subject) -> Option<Cause> {
    match subject {
        Subject::NodeBirth | Subject::DeviceBirth(_) => Some(Cause::Birth),
        Subject::DeviceDeath(_) => Some(Cause::Death),
        Subject::NodeData | Subject::DeviceData(_) => None,
    }
}

/// How the device at an index was told to stand, and stands from now on; None where it is told so already.
fn turned(known: &mut Known, index: usize, stand: Stand) -> io::Result<bool> {
    if known.devices.len() <= index {
        known.devices.push(Stand::Unborn)?;
    }
    match known.devices.get_mut(index) {
        Some(before) if stand != *before => {
            *before = stand;
            Ok(true)
        }
        _ => Ok(false),
    }
}

/// Tells how a device stands, if otherwise than it was told to.
fn tell_device<W: Write>(
    alloc: Global,
    out: &mut W,
    entry: &Entry,
    device: &DeviceView,
    known: &mut Known,
    index: usize,
    cause: Cause,
    now: u64,
) -> io::Result<()> {
    let stand = known.told(stand_of(device.is_online(), device.is_stale()));
    if !turned(known, index, stand)? {
        return Ok(());
    }
    let (group, node, name) = (entry.group(), entry.node(), Some(device.name()));
    write_stand(alloc, out, group, node, name, stand, cause, now)
}

/// Tells how a node, and its devices, stand otherwise than they were told to.
fn tell_node<W: Write>(
    alloc: Global,
    out: &mut W,
    entry: &Entry,
    known: &mut Known,
    cause: Cause,
    now: u64,
) -> io::Result<()> {
    let Some(view) = entry.kept().view() else {
        return Ok(());
    };
    let stand = known.told(stand_of(view.is_online(), view.is_stale()));
    if stand != known.stand {
        known.stand = stand;
        let (group, node) = (entry.group(), entry.node());
        write_stand(alloc, out, group, node, None, stand, cause, now)?;
    }
    for (index, device) in view.devices().iter().enumerate() {
        tell_device(alloc, out, entry, device, known, index, cause, now)?;
    }
    Ok(())
}

/// The same of the node at a place.
fn tell_changes<W: Write>(
    alloc: Global,
    out: &mut W,
    nodes: &mut Nodes,
    entries: &[Entry],
    place: usize,
    cause: Cause,
    now: u64,
) -> io::Result<()> {
    match (entries.get(place), nodes.at_mut(place)) {
        (Some(entry), Some(known)) => tell_node(alloc, out, entry, known, cause, now),
        _ => Ok(()),
    }
}

/// The same of each node.
fn tell_all<W: Write>(
    alloc: Global,
    out: &mut W,
    nodes: &mut Nodes,
    entries: &[Entry],
    cause: Cause,
    now: u64,
) -> io::Result<()> {
    for place in 0..entries.len() {
        tell_changes(alloc, out, nodes, entries, place, cause, now)?;
    }
    Ok(())
}

/// Prints which nodes are silent from now on: nothing of them was consumed for so many milliseconds.
pub(crate) fn print_silence<W: Write>(
    alloc: Global,
    out: &mut W,
    nodes: &mut Nodes,
    entries: &[Entry],
    patience: u64,
    now: u64,
) -> io::Result<()> {
    for place in 0..nodes.count() {
        let falls = nodes
            .at_mut(place)
            .is_some_and(|known| known.falls_silent(patience, now));
        if falls {
            tell_changes(alloc, out, nodes, entries, place, Cause::Silence, now)?;
        }
    }
    Ok(())
}

/// A message was consumed, of the node at a place.
fn print_message<W: Write>(
    alloc: Global,
    out: &mut W,
    nodes: &Nodes,
    place: usize,
    message: &Taken,
) -> io::Result<()> {
    let births = match nodes.at(place) {
        Some(known) => known.names(),
        None => None,
    };
    write_message(alloc, out, message, births)
}

/// A message was consumed.
fn consumed<W: Write>(
    alloc: Global,
    out: &mut W,
    nodes: &mut Nodes,
    entries: &[Entry],
    message: &Taken,
    now: u64,
) -> io::Result<()> {
    nodes.follow(entries)?;
    let found = nodes.place_of(message.group.as_str(), message.node.as_str())?;
    let place = found.unwrap_or(usize::MAX);
    print_message(alloc, out, nodes, place, message)?;
    let was_silent = nodes.at_mut(place).is_some_and(|known| known.hear(now));
    match cause_of(&message.subject) {
        Some(cause) => {
            nodes.learn(place, message)?;
            tell_changes(alloc, out, nodes, entries, place, cause, now)
        }
        None if was_silent => {
            tell_changes(alloc, out, nodes, entries, place, Cause::Message, now)
        }
        None => Ok(()),
    }
}

/// A gap was said.
fn gap<W: Write>(
    alloc: Global,
    out: &mut W,
    nodes: &mut Nodes,
    entries: &[Entry],
    now: u64,
) -> io::Result<()> {
    nodes.follow(entries)?;
    tell_all(alloc, out, nodes, entries, Cause::Gap, now)
}

/// An NDEATH came.
fn died<W: Write>(
    alloc: Global,
    out: &mut W,
    nodes: &mut Nodes,
    entries: &[Entry],
    group: &str,
    node: &str,
    now: u64,
) -> io::Result<()> {
    write_death(alloc, out, group, node, now)?;
    match nodes.place_of(group, node)? {
        Some(place) => tell_changes(alloc, out, nodes, entries, place, Cause::Death, now),
        None => Ok(()),
    }
}

/// A rebirth was asked for.
fn asked<W: Write>(alloc: Global, out: &mut W, topic: &Spark, now: u64) -> io::Result<()> {
    match topic {
        Spark::Node { group, node, .. } => {
            write_asked(alloc, out, group.as_str(), node.as_str(), now)
        }
        _ => Ok(()),
    }
}

/// Prints a word. These are the nodes behind it. A line that is of none of them says the host's group, where there are several.
pub(crate) fn print<W: Write>(
    alloc: Global,
    out: &mut W,
    label: Option<&str>,
    nodes: &mut Nodes,
    entries: &[Entry],
    said: &Said,
    now: u64,
) -> io::Result<()> {
    match said {
        Said::Consumed(message) => consumed(alloc, out, nodes, entries, message, now),
        Said::Step(Step::Gap) => gap(alloc, out, nodes, entries, now),
        Said::Step(_) => Ok(()),
        Said::Death { group, node } => {
            died(
                alloc,
                out,
                nodes,
                entries,
                group.as_str(),
                node.as_str(),
                now,
            )
        }
        Said::Lost { group, node, loss } => {
            write_lost(alloc, out, group.as_str(), node.as_str(), *loss, now)
        }
        Said::Asked(topic) => asked(alloc, out, topic, now),
        Said::Refused { fault, topic } => {
            write_refused(alloc, out, label, *fault, topic.as_str(), now)
        }
        Said::TurnedAway(code) => {
            write_turned_away(alloc, out, label, *code, now)?;
            tell_all(alloc, out, nodes, entries, Cause::Session, now)
        }
        Said::Granted => write_subscription(alloc, out, label, "granted", now),
        Said::SubscriptionRefused => write_subscription(alloc, out, label, "refused", now),
        Said::Ended => {
            write_session_over(alloc, out, label, now)?;
            tell_all(alloc, out, nodes, entries, Cause::Session, now)
        }
    }
}
