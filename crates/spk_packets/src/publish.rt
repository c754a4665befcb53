//! PUBLISH (section 3.3).

ghost use Rattle.std.specs.Prelude.{IfErr, IsTrue};
ghost use Rattle.spk_packets.specs.Fault.{Gives, is_of_bytes};
ghost use Rattle.spk_packets.specs.Reading.{publish_at, identified_at};
ghost use Rattle.spk_packets.specs.View.{publish_view, view};

use crate::borrowed::PublishRef;
use crate::fault::PacketFault;
use crate::packet::Packet;
use crate::parts::{id, text};
use std::alloc::Global;

/// The topic name, the packet identifier at QoS 1, and the payload, lent.
#[tactic(auto, unfolding(crate::specs::Reading::publish_at))]
pub(crate) fn lent_publish(
    dup: bool,
    qos: u8,
    retain: bool,
    body: &[u8],
) -> Result<PublishRef<'_>, PacketFault>
    ensures given { Gives publish_view result (publish_at dup qos retain body.now) }
    ensures bytes { IfErr result (λ e. IsTrue (is_of_bytes e)) }
{
    let (topic, rest) = text(body)?;
    let (id, payload) = identified(qos, rest)?;
    Ok(PublishRef {
        dup,
        qos,
        retain,
        topic,
        id,
        payload,
    })
}

/// The same, copied.
pub(crate) fn publish(
    alloc: Global,
    dup: bool,
    qos: u8,
    retain: bool,
    body: &[u8],
) -> Result<Packet, PacketFault>
    ensures { Gives view result (publish_at dup qos retain body.now) }
{
    let lent = lent_publish(dup, qos, retain, body)?;
    Ok(Packet::Publish {
        dup: lent.dup,
        qos: lent.qos,
        retain: lent.retain,
        topic: String::from_str(alloc, lent.topic)?,
        id: lent.id,
        payload: Vec::from_slice(alloc, lent.payload)?,
    })
}

/// The packet identifier, which is there at QoS 1.
#[tactic(auto, unfolding(crate::specs::Reading::identified_at))]
fn identified(qos: u8, bytes: &[u8]) -> Result<(Option<u16>, &[u8]), PacketFault>
    ensures given { Gives (λ x. (x.0, x.1.now)) result (identified_at qos bytes.now) }
    ensures bytes { IfErr result (λ e. IsTrue (is_of_bytes e)) }
{
    if qos != 1 {
        return Ok((None, bytes));
    }
    let (id, rest) = id(bytes)?;
    Ok((Some(id), rest))
}
