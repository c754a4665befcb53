//! The events of a world's file.
ghost use Rattle.std.specs.Prelude.{◌≡◌, ◌≤◌, IfOk, length, slice_get};
ghost use Rattle.std.specs.Option.{option_and_then};
ghost use Rattle.serde_json.specs.Find.{as_bool, as_number, as_u64};
ghost use Rattle.serde_json.specs.View.{view};

use crate::metrics::datatype_of;
use crate::misfit::{Cause, Misfit};
use crate::nodes::Setup;
use crate::part::Part;
use crate::values::{plain_value, value_of};
use serde_json::Value as Json;
use spk_world::Event;
use std::alloc::Global;

/// The most events of a file.
const MOST_EVENTS: usize = 100_000;

/// How many parts an event of this kind has, the kind with them.
fn parts_of(kind: &str) -> Option<usize> {
    match kind {
        "cut" => Some(2),
        "open" | "accepted" | "drain" | "stop" | "rebirth" | "tick" | "session" => Some(3),
        "set" | "device" | "state" | "hand" | "death" => Some(5),
        _ => None,
    }
}

/// The number of a node or of a host: any one.
fn index_at(part: Part<'_>, place: usize) -> Result<usize, Misfit> {
    Ok(part.item(place)?.any_number()? as usize)
}

/// A number: a moment, an alias, a position, a session or a timestamp.
fn number_at(part: Part<'_>, place: usize) -> Result<u64, Misfit> {
    part.item(place)?.any_number()
}

/// The datatype of a metric, by its node and alias; 0 where there is none.
fn datatype_at(nodes: &[Setup], node: usize, alias: u64) -> u32 {
    let Some((_config, registry)) = nodes.get(node) else {
        return 0;
    };
    datatype_of(registry, alias)
}

/// A metric has a value, of the kind that its datatype asks for.
fn set_of(alloc: Global, nodes: &[Setup], part: Part<'_>) -> Result<Event, Misfit> {
    let node = index_at(part, 1)?;
    let now = number_at(part, 2)?;
    let alias = number_at(part, 3)?;
    let datatype = datatype_at(nodes, node, alias);
    let value = value_of(alloc, part.item(4)?, datatype)?;
    Ok(Event::Set {
        node,
        now,
        alias,
        value,
    })
}

/// What comes to a node, or None where the kind is another.
fn node_event_of(
    alloc: Global,
    nodes: &[Setup],
    kind: &str,
    part: Part<'_>,
) -> Result<Option<Event>, Misfit> {
    let node = index_at(part, 1)?;
    if kind == "cut" {
        return Ok(Some(Event::Cut { node }));
    }
    let now = number_at(part, 2)?;
    Ok(Some(match kind {
        "open" => Event::Open { node, now },
        "accepted" => Event::Accepted { node, now },
        "drain" => Event::Drain { node, now },
        "stop" => Event::Stop { node, now },
        "rebirth" => Event::Rebirth { node, now },
        "set" => set_of(alloc, nodes, part)?,
        "device" => Event::Device {
            node,
            now,
            name: part.item(3)?.owned_text(alloc)?,
            up: part.item(4)?.flag()?,
        },
        "state" => Event::State {
            node,
            now,
            online: part.item(3)?.flag()?,
            timestamp: number_at(part, 4)?,
        },
        _ => return Ok(None),
    }))
}

/// What comes to a host, or None where the kind is another.
fn host_event_of(kind: &str, part: Part<'_>) -> Result<Option<Event>, Misfit> {
    let host = index_at(part, 1)?;
    Ok(Some(match kind {
        "hand" => Event::Hand {
            host,
            node: index_at(part, 2)?,
            position: number_at(part, 3)?,
            now: number_at(part, 4)?,
        },
        "death" => Event::Death {
            host,
            node: index_at(part, 2)?,
            session: number_at(part, 3)?,
            now: number_at(part, 4)?,
        },
        "tick" => Event::Tick {
            host,
            now: number_at(part, 2)?,
        },
        "session" => Event::Session {
            host,
            now: number_at(part, 2)?,
        },
        _ => return Ok(None),
    }))
}

/// An event.
fn event_of(alloc: Global, nodes: &[Setup], part: Part<'_>) -> Result<Event, Misfit> {
    let count = part.items(usize::MAX)?.len();
    let first = part.item(0)?;
    let kind = first.text()?;
    let Some(wanted) = parts_of(kind) else {
        return Err(first.wrong(Cause::Not("a kind of event")));
    };
    if count != wanted {
        return Err(part.wrong(Cause::Parts(wanted)));
    }
    if let Some(event) = host_event_of(kind, part)? {
        return Ok(event);
    }
    match node_event_of(alloc, nodes, kind, part)? {
        Some(event) => Ok(event),
        None => Err(first.wrong(Cause::Not("a kind of event"))),
    }
}

/// A number of an event, where there is one.
fn plain_number(items: &[Json], place: usize) -> Option<u64>
    ensures { result ≡ option_and_then (λ v. option_and_then as_u64 (as_number (view v)))
        (slice_get items.now place) }
{
    items.get(place)?.as_u64()
}

/// True or false in an event, where it is there.
fn plain_flag(items: &[Json], place: usize) -> Option<bool>
    ensures { result ≡ option_and_then (λ v. as_bool (view v)) (slice_get items.now place) }
{
    items.get(place)?.as_bool()
}

/// A metric has a value, as `set_of` says, where that takes no memory and nothing is wrong.
fn plain_set(nodes: &[Setup], items: &[Json]) -> Option<Event> {
    let node = plain_number(items, 1)? as usize;
    let now = plain_number(items, 2)?;
    let alias = plain_number(items, 3)?;
    let value = plain_value(items.get(4)?, datatype_at(nodes, node, alias))?;
    Some(Event::Set {
        node,
        now,
        alias,
        value,
    })
}

/// What comes to a node at a moment, by its kind alone, where nothing is wrong.
fn plain_moment(kind: &str, items: &[Json]) -> Option<Event> {
    let node = plain_number(items, 1)? as usize;
    let now = plain_number(items, 2)?;
    match kind {
        "open" => Some(Event::Open { node, now }),
        "accepted" => Some(Event::Accepted { node, now }),
        "drain" => Some(Event::Drain { node, now }),
        "stop" => Some(Event::Stop { node, now }),
        "rebirth" => Some(Event::Rebirth { node, now }),
        "tick" => Some(Event::Tick { host: node, now }),
        "session" => Some(Event::Session { host: node, now }),
        _ => None,
    }
}

/// What is handed to a host, or a STATE that comes to a node, where nothing is wrong.
fn plain_handed(kind: &str, items: &[Json]) -> Option<Event> {
    let first = plain_number(items, 1)? as usize;
    let second = plain_number(items, 2)?;
    let last = plain_number(items, 4)?;
    match kind {
        "hand" => Some(Event::Hand {
            host: first,
            node: second as usize,
            position: plain_number(items, 3)?,
            now: last,
        }),
        "death" => Some(Event::Death {
            host: first,
            node: second as usize,
            session: plain_number(items, 3)?,
            now: last,
        }),
        "state" => Some(Event::State {
            node: first,
            now: second,
            online: plain_flag(items, 3)?,
            timestamp: last,
        }),
        _ => None,
    }
}

/// An event, as `event_of` says, where that takes no memory and nothing is wrong. No place is made.
fn plain_event_of(nodes: &[Setup], json: &Json) -> Option<Event> {
    let items = json.as_array()?.as_slice();
    let kind = items.first()?.as_str()?;
    match items.len() {
        3 => plain_moment(kind, items),
        5 if kind == "set" => plain_set(nodes, items),
        5 => plain_handed(kind, items),
        _ => None,
    }
}

/// The events of a file, 0 to 100,000, in order. The nodes say of which datatype the values that are set are.
pub(crate) fn events_of(
    alloc: Global,
    nodes: &[Setup],
    part: Part<'_>,
) -> Result<Vec<Event>, Misfit>
    ensures { IfOk result (λ es. length es.items ≤ 100000) }
{
    let mut events = Vec::new(alloc);
    let items = part.items(MOST_EVENTS)?;
    for index in 0..items.len() {
        let event = match plain_event_of(nodes, &items[index]) {
            Some(event) => event,
            None => event_of(alloc, nodes, part.item(index)?)?,
        };
        events.push(event)?;
    }
    Ok(events)
}
