//! What the program of a host with a board does with the words of its core.

use crate::hosts::{Roster, Seating};
use crate::known::Nodes;
use spk_board::{Board, Row, Values};
use spk_host::{Entry, Taken};
use spk_host_app::Said;
use spk_reading::Subject;
use spk_sequence::{Loss, Phase, Step};
use spk_story::{self as story, Stand};
use spk_topics::Spark;
use std::alloc::{AllocError, Global};
use std::io::{self, Write};

/// The place of a node with its host, or one at which none stands.
fn own_place(places: &mut Nodes, group: &str, node: &str) -> Result<usize, AllocError> {
    Ok(places.place_of(group, node)?.unwrap_or(usize::MAX))
}

/// The place of a node on the board, or one at which none stands.
fn place_in(
    seating: Seating<'_>,
    places: &mut Nodes,
    group: &str,
    node: &str,
) -> Result<usize, AllocError> {
    Ok(seating.of(own_place(places, group, node)?))
}

/// A message was consumed.
fn consumed(
    board: &mut Board,
    seating: Seating<'_>,
    places: &mut Nodes,
    message: &Taken,
    now: u64,
) -> Result<(), AllocError> {
    let place = place_in(
        seating,
        places,
        message.group.as_str(),
        message.node.as_str(),
    )?;
    match &message.subject {
        Subject::NodeBirth => board.born(place, now),
        _ => {
            board.used(place, now);
            Ok(())
        }
    }
}

/// Whether the node at a place stands so on the board.
fn stands(board: &Board, place: usize, stand: Stand) -> bool {
    match board.stories().get(place) {
        Some(story) => story.stand() == stand,
        None => false,
    }
}

/// A gap was said: it is of the nodes that the host doesn't follow since, and that aren't shown as lost yet.
fn gaps(
    board: &mut Board,
    seating: Seating<'_>,
    entries: &[Entry],
    now: u64,
) -> Result<(), AllocError> {
    for (own, entry) in entries.iter().enumerate() {
        let place = seating.of(own);
        let is_lost = stands(board, place, Stand::Lost);
        if entry.kept().phase() == Phase::Gap && !is_lost {
            board.gap(place, now)?;
        }
    }
    Ok(())
}

/// An NDEATH of the node at a place came: it is that of the session that was followed where the host counts the node as dead only since.
fn died(
    board: &mut Board,
    seating: Seating<'_>,
    entries: &[Entry],
    own: usize,
    now: u64,
) -> Result<(), AllocError> {
    let phase = match entries.get(own) {
        Some(entry) => entry.kept().phase(),
        None => Phase::Unknown,
    };
    let place = seating.of(own);
    let is_dead = stands(board, place, Stand::Dead);
    if phase == Phase::Dead && !is_dead {
        board.died(place, now)
    } else {
        board.ignored(place);
        Ok(())
    }
}

/// Messages of a node that were held are dropped.
fn lost(board: &mut Board, place: usize, loss: Loss, now: u64) {
    let loss = story::Loss {
        unused: u64::from(loss.held),
        missing: u64::from(loss.missing),
    };
    board.dropped(place, loss, now);
}

/// A rebirth was asked for.
fn asked(
    board: &mut Board,
    seating: Seating<'_>,
    places: &mut Nodes,
    topic: &Spark,
    now: u64,
) -> Result<(), AllocError> {
    match topic {
        Spark::Node { group, node, .. } => {
            let place = place_in(seating, places, group.as_str(), node.as_str())?;
            board.asked(place, now)
        }
        _ => Ok(()),
    }
}

/// The host's own session is over.
fn ended(
    board: &mut Board,
    seating: Seating<'_>,
    count: usize,
    now: u64,
) -> Result<(), AllocError> {
    for own in 0..count {
        board.away(seating.of(own), now);
    }
    board.ended(now)
}

/// A word of a host's core comes to the board. These are the host's nodes behind it.
pub(crate) fn hear(
    board: &mut Board,
    seating: Seating<'_>,
    places: &mut Nodes,
    entries: &[Entry],
    said: &Said,
    now: u64,
) -> Result<(), AllocError> {
    places.follow(entries)?;
    board.follow(seating.count(), now)?;
    match said {
        Said::Consumed(message) => consumed(board, seating, places, message, now),
        Said::Step(Step::Gap) => gaps(board, seating, entries, now),
        Said::Step(_) => Ok(()),
        Said::Death { group, node } => {
            let own = own_place(places, group.as_str(), node.as_str())?;
            died(board, seating, entries, own, now)
        }
        Said::Lost { group, node, loss } => {
            let place = place_in(seating, places, group.as_str(), node.as_str())?;
            lost(board, place, *loss, now);
            Ok(())
        }
        Said::Asked(topic) => asked(board, seating, places, topic, now),
        Said::Refused { fault, topic: _ } => board.refused(fault.number(), now),
        Said::Granted => Ok(()),
        Said::TurnedAway(code) => board.turned_away(*code, now),
        Said::SubscriptionRefused => board.not_subscribed(now),
        Said::Ended => ended(board, seating, entries.len(), now),
    }
}

/// The values of a node and its devices.
pub(crate) fn values_of(entry: &Entry) -> Values {
    let mut values = Values {
        current: 0,
        all: 0,
        down: 0,
    };
    let Some(view) = entry.kept().view() else {
        return values;
    };
    values.all = view.metrics().len();
    if view.is_online() && !view.is_stale() {
        values.current = view.metrics().len();
    }
    for device in view.devices() {
        let count = device.metrics().len();
        values.all = values.all.saturating_add(count);
        if !device.is_online() {
            values.down = values.down.saturating_add(1);
        } else if !device.is_stale() {
            values.current = values.current.saturating_add(count);
        }
    }
    values
}

/// The nodes' rows.
fn rows_of<'a, R: Roster>(
    alloc: Global,
    roster: &'a R,
    board: &Board,
    patience: Option<u64>,
    now: u64,
) -> Result<Vec<Row<'a>>, AllocError> {
    let mut rows = Vec::new(alloc);
    for place in 0..roster.count() {
        if let (Some(entry), Some(story)) = (roster.entry(place), board.stories().get(place)) {
            let title = roster.title(place);
            let row = Row::new(title, story, values_of(entry), patience, now);
            rows.push(row)?;
        }
    }
    Ok(rows)
}

/// Draws the board of these nodes.
pub(crate) fn draw<R: Roster, W: Write>(
    alloc: Global,
    board: &mut Board,
    out: &mut W,
    roster: &R,
    patience: Option<u64>,
    now: u64,
) -> io::Result<()> {
    board.follow(roster.count(), now)?;
    let rows = rows_of(alloc, roster, board, patience, now)?;
    board.draw(out, rows.as_slice(), now)
}
