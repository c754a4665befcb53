//! What simulated nodes publish, and what of it a network gives, and when: messages are lost, repeated and displaced inside the window.
use crate::twin::{About, Hearer, Sent, Source};

/// A number that the run's next choice is made by.
#[derive(Drop)]
pub(crate) struct Dice {
    pub(crate) seed: u64,
}

impl Dice {
    /// One of so many sides, from 0.
    pub(crate) fn roll(&mut self, sides: u64) -> u64 {
        self.seed = self
            .seed
            .wrapping_mul(6_364_136_223_846_793_005)
            .wrapping_add(1_442_695_040_888_963_407);
        let pick = self.seed >> 33;
        pick.checked_rem(sides).unwrap_or(0)
    }

    fn is_one_in(&mut self, sides: u64) -> bool {
        self.roll(sides) == 0
    }

    /// What a message other than an NBIRTH is about.
    fn about(&mut self) -> About {
        let device = (self.roll(2) % 2) as u8;
        let is_foreign = self.is_one_in(12);
        match self.roll(10) {
            0 => About::DeviceBirth(device),
            1 => About::DeviceDeath(device),
            2..=4 => About::DeviceData(device, if is_foreign { 1 } else { 4 }),
            _ => About::NodeData(if is_foreign {
                4
            } else {
                self.roll(2).saturating_add(1)
            }),
        }
    }
}

/// An NBIRTH, of the last one's session or of the next. It is stamped later than all before it.
fn birth(dice: &mut Dice, node: &mut Source) {
    let more = dice.roll(2);
    let session = node
        .sent
        .last()
        .map_or(240, |last| last.session.saturating_add(more));
    node.clock = node.clock.saturating_add(1);
    node.add(Sent {
        about: About::NodeBirth,
        start: node.length(),
        session,
        stamp: Some(node.clock),
    });
}

/// Another message, of the last one's birth. Where numbers run on, some have no timestamp.
fn other(dice: &mut Dice, node: &mut Source, last: Sent) {
    let is_stamped = node.restarts || !dice.is_one_in(10);
    node.clock = node.clock.saturating_add(dice.roll(3));
    node.add(Sent {
        about: dice.about(),
        start: last.start,
        session: last.session,
        stamp: if is_stamped { Some(node.clock) } else { None },
    });
}

/// Another message is published.
fn publish_one(dice: &mut Dice, node: &mut Source) {
    match node.sent.last().copied() {
        Some(last) if !dice.is_one_in(40) => other(dice, node, last),
        _ => birth(dice, node),
    }
}

/// Messages are published, until there is one of a position.
fn publish_to(dice: &mut Dice, node: &mut Source, position: u64) {
    for _message in 0..400 {
        if node.length() > position {
            return;
        }
        publish_one(dice, node);
    }
}

/// The position of an NBIRTH that is newer than the one taken.
fn newer_birth(dice: &mut Dice, node: &mut Source, twin: &Hearer) -> u64 {
    let first = twin.taken.map_or(0, |taken| taken.saturating_add(1));
    if let Some(position) = node.last_birth(first) {
        return position;
    }
    birth(dice, node);
    node.length().saturating_sub(1)
}

/// A position: in order, lost ones left out, displaced, or again.
fn position_of(dice: &mut Dice, node: &mut Source, twin: &Hearer, width: u64) -> u64 {
    let next = twin.next();
    let reach = twin
        .greatest()
        .map_or(0, |greatest| greatest.saturating_add(1));
    match dice.roll(24) {
        0..=10 if twin.follows => next,
        0..=11 => newer_birth(dice, node, twin),
        12..=14 => next.saturating_add(dice.roll(4)),
        15 => next.saturating_add(dice.roll(width.saturating_add(1))),
        16 => next
            .saturating_add(width)
            .saturating_add(dice.roll(3))
            .saturating_sub(1),
        17 => next.saturating_sub(dice.roll(width).saturating_add(1)),
        18 => twin.taken.unwrap_or(0),
        19 => reach
            .saturating_add(254)
            .saturating_sub(width.saturating_mul(2))
            .saturating_add(dice.roll(3)),
        20 => reach
            .saturating_add(dice.roll(4))
            .saturating_sub(width.saturating_add(2)),
        _ => reach.saturating_add(dice.roll(3)),
    }
}

/// A node, and what the twin keeps of it.
#[derive(Drop)]
pub(crate) struct Pair {
    pub(crate) source: Source,
    pub(crate) twin: Hearer,
}

/// The message that the network gives next, by its position. None where it would be displaced too far.
pub(crate) fn given(dice: &mut Dice, pair: &mut Pair, width: u64) -> Option<(u64, Sent)> {
    let position = position_of(dice, &mut pair.source, &pair.twin, width);
    publish_to(dice, &mut pair.source, position);
    let sent = pair.source.message(position)?;
    if pair.twin.is_lawful(&pair.source, position) {
        Some((position, sent))
    } else {
        None
    }
}

/// A session near that of the birth taken.
pub(crate) fn session_of(dice: &mut Dice, node: &Source, twin: &Hearer) -> u64 {
    let session = twin.session(node).unwrap_or(1);
    match dice.roll(4) {
        0 => session.saturating_add(1),
        1 => session.saturating_sub(1),
        _ => session,
    }
}
