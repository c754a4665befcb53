//! The entry of an event.
ghost use Rattle.std.specs.Prelude.{◌≡◌, IfOk, IfErr, OnErr, OnOk};
ghost use Rattle.std.specs.Option.{option_map, option_map_or};
ghost use Rattle.spk_payload.specs.Spelling.{spelling};
ghost use Rattle.spk_history.specs.Parts.{IsNotPut};
ghost use Rattle.spk_history.specs.declared.fault.HistoryFault.TheVariants.{NoMemory};
ghost use Rattle.spk_historian.specs.Event.{event_view, name_view, node_of, what_view};
ghost use Rattle.spk_historian.specs.Told.{AddsTo, Fits, entry_with, kept_at, message_of, spelling_of};

use crate::event::{Event, Node, What};
use crate::nodes::{Kept, kept_of};
use crate::spelled::spelled;
use spk_history::{Entry, HistoryFault, Kind, Parts, SessionEvent};
use std::alloc::Global;

/// The node whose an event is, if it is one's.
pub(crate) fn node_of<'a>(event: &Event<'a>) -> Option<Node<'a>>
    ensures { option_map name_view result ≡ node_of (event_view event.now) }
{
    match event {
        Event::Began { .. } | Event::Ended { .. } => None,
        Event::Consumed { node, .. }
        | Event::Died { node, .. }
        | Event::Gap { node, .. }
        | Event::Hole { node, .. } => Some(*node),
    }
}

/// The position that is awaited of the node whose an event is; 0 where it is none's.
pub(crate) fn position_of(nodes: &Vec<Kept>, event: &Event<'_>) -> u64
    ensures { result ≡ option_map_or (λ n. (kept_at nodes.now.items n.number).used)
        (node_of (event_view event.now)) 0 }
{
    match node_of(event) {
        Some(node) => kept_of(nodes, node.number).used,
        None => 0,
    }
}

/// The bytes that are kept of the payload of an event; none where it has none.
pub(crate) fn payload_of(alloc: Global, event: &Event<'_>) -> Result<Vec<u8>, HistoryFault>
    ensures spelled { IfOk result (λ v. v.items ≡ spelling_of (event_view event.now)) }
    ensures fits { OnOk result (Fits (event_view event.now)) }
    ensures refused { IfErr result (λ e. e ≡ NoMemory) }
{
    match event {
        Event::Consumed { payload, .. } => spelled(alloc, payload),
        _ => Ok(Vec::new(alloc)),
    }
}

/// Puts the entry of a message.
fn put_message(
    parts: &mut Parts,
    at: u64,
    node: u32,
    seq: u8,
    payload: &[u8],
    what: What<'_>,
) -> Result<(), HistoryFault>
    ensures stands { OnOk result (AddsTo parts.old (message_of at node seq payload.now (what_view what.entry)) parts.new) }
    ensures most { OnOk result (parts.new.most ≡ parts.old.most) }
    ensures refused { IfErr result (λ e. IsNotPut parts.old (message_of at node seq payload.now (what_view what.entry)) e) }
    ensures err { OnErr result (parts.new ≡ parts.old) }
{
    let kind = match what {
        What::NodeBirth { stamp, bd } => {
            return parts.put(&Entry::Birth {
                at,
                node,
                stamp,
                bd,
                payload,
            });
        }
        What::NodeData => Kind::NodeData,
        What::DeviceBirth(device) => Kind::DeviceBirth(device),
        What::DeviceData(device) => Kind::DeviceData(device),
        What::DeviceDeath(device) => Kind::DeviceDeath(device),
    };
    parts.put(&Entry::Message {
        at,
        node,
        kind,
        seq,
        payload,
    })
}

/// Puts the entry of an event before which this position of its node is awaited, and of whose payload these bytes are kept.
pub(crate) fn put(
    parts: &mut Parts,
    event: &Event<'_>,
    position: u64,
    bytes: &[u8],
) -> Result<(), HistoryFault>
    requires { bytes.now ≡ spelling_of (event_view event.now) }
    ensures stands { OnOk result (AddsTo parts.old (entry_with position (event_view event.now)) parts.new) }
    ensures most { OnOk result (parts.new.most ≡ parts.old.most) }
    ensures refused { IfErr result (λ e. IsNotPut parts.old (entry_with position (event_view event.now)) e) }
    ensures err { OnErr result (parts.new ≡ parts.old) }
{
    match event {
        Event::Began { at } => parts.put(&Entry::Session {
            at: *at,
            what: SessionEvent::Began,
        }),
        Event::Ended { at } => parts.put(&Entry::Session {
            at: *at,
            what: SessionEvent::Ended,
        }),
        Event::Consumed {
            at,
            node,
            what,
            seq,
            payload: _,
        } => put_message(parts, *at, node.number, *seq, bytes, *what),
        Event::Died { at, node, bd } => parts.put(&Entry::Death {
            at: *at,
            node: node.number,
            bd: *bd,
        }),
        Event::Gap { at, node, missing } => parts.put(&Entry::Gap {
            at: *at,
            node: node.number,
            awaited: position,
            missing: *missing,
        }),
        Event::Hole {
            node,
            from,
            to,
            missing,
            unused,
            ended_by,
        } => parts.put(&Entry::Hole {
            node: node.number,
            from: *from,
            to: *to,
            missing: *missing,
            unused: *unused,
            ended_by: *ended_by,
        }),
    }
}
