//! The entry that a content is (`specs/Record.antt`).
ghost use Rattle.std.specs.Prelude.{◌≡◌, ◌<◌, ◌≤◌};
ghost use Rattle.spk_history.specs.Entry.{kind_of, said};
ghost use Rattle.spk_frames.specs.Reading.{Gives};
ghost use Rattle.spk_history.specs.Reading.{birth_at, death_at, entry_at, entry_of, gap_at, head_at, hole_at, kind_at, message_at, node_at, pair_at, session_at};

use crate::entry::{Ending, Entry, Kind, SessionEvent};
use spk_frames::{eight, four, name, one};

#[tactic(auto, unfolding(crate::specs::Reading::session_at, spk_frames::specs::Reading::ended))]
fn session(what: SessionEvent, bytes: &[u8]) -> Option<Entry<'_>>
    ensures { Gives said result (session_at what bytes.now) }
{
    let (at, rest) = eight(bytes)?;
    rest.is_empty().then_some(Entry::Session { at, what })
}

#[tactic(auto, unfolding(crate::specs::Reading::node_at, spk_frames::specs::Reading::ended))]
fn node(bytes: &[u8]) -> Option<Entry<'_>>
    ensures { Gives said result (node_at bytes.now) }
{
    let (node, rest) = four(bytes)?;
    let (group, rest) = name(rest)?;
    let (name, rest) = name(rest)?;
    rest.is_empty().then_some(Entry::Node { node, group, name })
}

/// The moment and the node's number.
#[tactic(auto, unfolding(crate::specs::Reading::head_at))]
fn head(bytes: &[u8]) -> Option<((u64, u32), &[u8])>
    ensures { Gives (λ x. (x.0, x.1.now)) result (head_at bytes.now) }
{
    let (at, rest) = eight(bytes)?;
    let (node, rest) = four(rest)?;
    Some(((at, node), rest))
}

#[tactic(auto, unfolding(crate::specs::Reading::birth_at))]
fn birth(bytes: &[u8]) -> Option<Entry<'_>>
    ensures { Gives said result (birth_at bytes.now) }
{
    let ((at, node), rest) = head(bytes)?;
    let (stamp, rest) = eight(rest)?;
    let (bd, payload) = one(rest)?;
    Some(Entry::Birth {
        at,
        node,
        stamp,
        bd,
        payload,
    })
}

#[tactic(auto, unfolding(crate::specs::Reading::death_at, spk_frames::specs::Reading::ended))]
fn death(bytes: &[u8]) -> Option<Entry<'_>>
    ensures { Gives said result (death_at bytes.now) }
{
    let ((at, node), rest) = head(bytes)?;
    let (bd, rest) = one(rest)?;
    rest.is_empty().then_some(Entry::Death { at, node, bd })
}

/// Two numbers in eight bytes each.
#[tactic(auto, unfolding(crate::specs::Reading::pair_at))]
fn pair(bytes: &[u8]) -> Option<((u64, u64), &[u8])>
    ensures { Gives (λ x. (x.0, x.1.now)) result (pair_at bytes.now) }
{
    let (first, rest) = eight(bytes)?;
    let (second, rest) = eight(rest)?;
    Some(((first, second), rest))
}

#[tactic(auto, unfolding(crate::specs::Reading::gap_at, spk_frames::specs::Reading::ended))]
fn gap(bytes: &[u8]) -> Option<Entry<'_>>
    ensures { Gives said result (gap_at bytes.now) }
{
    let ((at, node), rest) = head(bytes)?;
    let ((awaited, missing), rest) = pair(rest)?;
    rest.is_empty().then_some(Entry::Gap {
        at,
        node,
        awaited,
        missing,
    })
}

#[tactic(auto, unfolding(crate::specs::Reading::hole_at, spk_frames::specs::Reading::ended))]
fn hole(ended_by: Ending, bytes: &[u8]) -> Option<Entry<'_>>
    ensures { Gives said result (hole_at ended_by bytes.now) }
{
    let (node, rest) = four(bytes)?;
    let ((from, to), rest) = pair(rest)?;
    let ((missing, unused), rest) = pair(rest)?;
    rest.is_empty().then_some(Entry::Hole {
        node,
        from,
        to,
        missing,
        unused,
        ended_by,
    })
}

/// The kind that a code stands for, with the device's name, and what follows.
#[tactic(auto, unfolding(crate::specs::Reading::kind_at))]
fn kind(code: u8, bytes: &[u8]) -> Option<(Kind<'_>, &[u8])>
    ensures { Gives (λ x. (kind_of x.0, x.1.now)) result (kind_at code bytes.now) }
{
    if code == 10 {
        return Some((Kind::NodeData, bytes));
    }
    let (device, rest) = name(bytes)?;
    let kind = match code {
        11 => Kind::DeviceBirth(device),
        12 => Kind::DeviceData(device),
        _ => Kind::DeviceDeath(device),
    };
    Some((kind, rest))
}

#[tactic(auto, unfolding(crate::specs::Reading::message_at))]
fn message(code: u8, bytes: &[u8]) -> Option<Entry<'_>>
    ensures { Gives said result (message_at code bytes.now) }
{
    let ((at, node), rest) = head(bytes)?;
    let (seq, rest) = one(rest)?;
    let (kind, payload) = kind(code, rest)?;
    Some(Entry::Message {
        at,
        node,
        kind,
        seq,
        payload,
    })
}

/// What stands behind a code.
#[tactic(auto, unfolding(crate::specs::Reading::entry_of))]
fn entry_of(code: u8, rest: &[u8]) -> Option<Entry<'_>>
    ensures { Gives said result (entry_of code rest.now) }
{
    match code {
        1 => session(SessionEvent::Began, rest),
        2 => session(SessionEvent::Ended, rest),
        3 => node(rest),
        4 => birth(rest),
        5 => death(rest),
        6 => gap(rest),
        7 => hole(Ending::Birth, rest),
        8 => hole(Ending::NewSession, rest),
        9 => hole(Ending::HostSession, rest),
        10..=13 => message(code, rest),
        _ => None,
    }
}

/// The entry that a content is, if it is one.
#[tactic(auto, unfolding(crate::specs::Reading::entry_at))]
pub(crate) fn entry(content: &[u8]) -> Option<Entry<'_>>
    ensures { Gives said result (entry_at content.now) }
{
    match content {
        [code, rest @ ..] => entry_of(*code, rest),
        [] => None,
    }
}
