//! The events that tell how a node stands.
ghost use Rattle.std.specs.Prelude.{◌≡◌, IfSome, None};
ghost use Rattle.spk_historian.specs.Event.{event_view};
ghost use Rattle.spk_historian.specs.Told.{consumed};

use crate::pasts::Past;
use spk_historian::{Event, Node};
use spk_history::Ending;
use spk_story::{End, Hole, Stand, Story};

/// What ended a hole.
fn ending_of(hole: &Hole) -> Ending {
    match hole.end {
        Some(End::Death) => Ending::NewSession,
        Some(End::Session) => Ending::HostSession,
        Some(End::Birth) | None => Ending::Birth,
    }
}

/// The hole of a node that is over since so many were.
pub(crate) fn hole_of<'a>(node: &Node<'a>, story: &Story, holes: u64) -> Option<Event<'a>>
    ensures { IfSome result (λ e. consumed (event_view e) ≡ None) }
{
    if story.counts().holes == holes {
        return None;
    }
    let hole = story.kept().first()?;
    Some(Event::Hole {
        node: *node,
        from: hole.from,
        to: hole.until.unwrap_or(hole.from),
        missing: hole.missing,
        unused: hole.unused,
        ended_by: ending_of(hole),
    })
}

/// How many messages the hole that is open is known to miss.
fn missing_of(story: &Story) -> u64 {
    match story.hole() {
        Some(hole) => hole.missing,
        None => 0,
    }
}

/// A gap or the death of a node that was told to stand otherwise.
pub(crate) fn stand_of<'a>(
    node: &Node<'a>,
    story: &Story,
    past: Past,
    now: u64,
) -> Option<Event<'a>>
    ensures { IfSome result (λ e. consumed (event_view e) ≡ None) }
{
    if story.stand() == past.stand {
        return None;
    }
    match story.stand() {
        Stand::Lost => Some(Event::Gap {
            at: now,
            node: *node,
            missing: missing_of(story),
        }),
        Stand::Dead => Some(Event::Died {
            at: now,
            node: *node,
            bd: past.bd,
        }),
        _ => None,
    }
}
