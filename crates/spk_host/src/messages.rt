//! A message of a node.
ghost use Rattle.std.specs.Prelude.{◌≡◌, All, map, IfOk, OnOk, OnErr};
ghost use Rattle.spk_reading.specs.View.{numbered_view};
ghost use Rattle.spk_host_session.specs.Packets.{IsPacket};
ghost use Rattle.spk_host_node.specs.Step as node;
ghost use Rattle.spk_host.specs.Index.{names_of};
ghost use Rattle.spk_host.specs.Step.{IsIdentified, acks, message_out, spelled};
ghost use Rattle.spk_host.specs.View.{AreWhole, out_view};

use crate::asking::ask_all;
use crate::entry::Entry;
use crate::out::Out;
use spk_host_session::acknowledgement;
use spk_reading::Numbered;
use std::alloc::{AllocError, Global};

/// The acknowledgement of a PUBLISH, if it asks for one.
pub(crate) fn acknowledged(alloc: Global, ack: Option<u16>) -> Result<Vec<Vec<u8>>, AllocError>
    ensures said { IfOk result (λ v. map (λ b. b.items) v.items ≡ spelled (acks ack)) }
    ensures whole { IsIdentified ack → IfOk result (λ v. All (λ b. IsPacket b.items) v.items) }
{
    let mut packets = Vec::new(alloc);
    if let Some(id) = ack {
        packets.push(acknowledgement(alloc, id)?)?;
    }
    Ok(packets)
}

/// A message is handed to its node. All memory is asked for before anything changes.
pub(crate) fn hear_message(
    alloc: Global,
    entry: &mut Entry,
    ack: Option<u16>,
    message: Numbered,
    now: u64,
) -> Result<Out, AllocError>
    ensures out { IfOk result
        (λ o. out_view o ≡ message_out entry.old.kept ack (numbered_view message) now) }
    ensures whole { IsIdentified ack → IfOk result (λ o. AreWhole o) }
    ensures entry { OnOk result
        (entry.new ≡ record entry.old
        { kept = node.hand entry.old.kept (numbered_view message) now }) }
    ensures unchanged { OnErr result (entry.new ≡ entry.old) }
    ensures names { names_of entry.new ≡ names_of entry.old }
{
    let (group, name) = (message.group.as_str(), message.node.as_str());
    let most = entry.kept().requests_at(&message, now);
    let mut rebirths = Vec::new(alloc);
    let mut packets = acknowledged(alloc, ack)?;
    let first = packets.len();
    ask_all(alloc, group, name, now, most, &mut rebirths, &mut packets)?;
    let mut steps = Vec::with_capacity(alloc, 1)?;
    let handed = entry.hand(message, now)?;
    steps.push_reserved(handed.step);
    rebirths.truncate(handed.requests);
    packets.truncate(first + handed.requests);
    Ok(Out {
        consumed: handed.consumed,
        steps,
        gaps: Vec::new(alloc),
        death: None,
        rebirths,
        packets,
    })
}
