//! CONNACK, the packets that are an identifier alone, and those without a body.

ghost use Rattle.std.specs.Prelude.{IfErr, IsTrue};
ghost use Rattle.spk_packets.specs.Fault.{Gives, is_of_bytes};
ghost use Rattle.spk_packets.specs.Reading.{connack_at, id_alone_at};
ghost use Rattle.spk_packets.specs.View.{view};

use crate::fault::PacketFault;
use crate::packet::Packet;
use crate::parts::{end, id};

/// CONNACK (section 3.2): session present, and a code of 0 to 5.
#[tactic(auto, unfolding(crate::specs::Reading::connack_at, crate::specs::Reading::ended))]
pub(crate) fn connack(body: &[u8]) -> Result<Packet, PacketFault>
    ensures given { Gives view result (connack_at body.now) }
    ensures bytes { IfErr result (λ e. IsTrue (is_of_bytes e)) }
{
    match body {
        [present, code] if *present <= 1 && *code <= 5 => Ok(Packet::ConnAck {
            present: *present == 1,
            code: *code,
        }),
        _ => Err(PacketFault::BadBody),
    }
}

/// A packet identifier and no more (sections 3.4 and 3.11).
#[tactic(auto, unfolding(crate::specs::Reading::id_alone_at, crate::specs::Reading::ended))]
pub(crate) fn id_alone(body: &[u8]) -> Result<u16, PacketFault>
    ensures given { Gives (λ x. x) result (id_alone_at body.now) }
    ensures bytes { IfErr result (λ e. IsTrue (is_of_bytes e)) }
{
    let (id, rest) = id(body)?;
    end(rest)?;
    Ok(id)
}
