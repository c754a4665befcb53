//! What the packet of a line says.
ghost use Rattle.std.specs.Prelude.{◌≡◌, map, string_bytes};
ghost use Rattle.std.specs.Option.{option_map};
ghost use Rattle.spk_packets.specs.View.{request_view, view};
ghost use Rattle.spk_broker_snapshot.specs.Together.{client_in, entries_in, sent_in};
ghost use Rattle.spk_broker_journal.specs.Fitting.{only_entry};
ghost use Rattle.spk_broker_journal.specs.Saying.{sent_view};

use spk_broker::Message;
use spk_packets::{Packet, Request};

/// A message as its PUBLISH says it.
#[derive(Drop)]
pub(crate) struct Sent {
    pub(crate) dup: bool,
    pub(crate) id: Option<u16>,
    pub(crate) message: Message,
}

/// The message of a PUBLISH.
pub(crate) fn message_in(packet: Packet) -> Option<Sent>
    ensures { option_map sent_view result ≡ sent_in (view packet) }
{
    match packet {
        Packet::Publish {
            dup,
            qos,
            retain,
            topic,
            id,
            payload,
        } => Some(Sent {
            dup,
            id,
            message: Message {
                topic,
                payload,
                qos,
                retain,
            },
        }),
        _other => None,
    }
}

/// The client of a CONNECT, and whether its session is kept.
pub(crate) fn client(packet: Packet) -> Option<(String, bool)>
    ensures { option_map (λ c. (string_bytes c.0, c.1)) result ≡ client_in (view packet) }
{
    match packet {
        Packet::Connect {
            client,
            clean,
            keep: _keep,
            will: _will,
        } => Some((client, !clean)),
        _other => None,
    }
}

/// The one entry, where there is no other.
fn only(mut entries: Vec<Request>) -> Option<Request>
    ensures { option_map request_view result ≡ only_entry (map request_view entries.items) }
{
    if entries.len() != 1 {
        return None;
    }
    entries.pop()
}

/// The entry of a SUBSCRIBE of one.
pub(crate) fn entry(packet: Packet) -> Option<Request>
    ensures { option_map request_view result ≡ only_entry (entries_in (view packet)) }
{
    match packet {
        Packet::Subscribe { id: _id, filters } => only(filters),
        _other => None,
    }
}
