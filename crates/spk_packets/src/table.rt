//! The first byte of each packet: its type and its flags (sections 2.2.1 and 2.2.2).

ghost use Rattle.std.specs.Prelude.{◌≡◌, ◌/◌, ◌==◌, Ok, IfOk, IfErr, IsTrue};
ghost use Rattle.spk_packets.specs.declared.table.Kind.TheVariants.{Publish};
ghost use Rattle.spk_packets.specs.Fault.{Gives, is_of_bytes};
ghost use Rattle.spk_packets.specs.Grammar.{is_keeping};
ghost use Rattle.spk_packets.specs.Reading.{is_publish_kind, keeps_kind, kind_of};

use crate::fault::PacketFault;

/// A packet's type, with what the flags of a PUBLISH say.
#[derive(Clone, Copy)]
pub(crate) enum Kind {
    Connect,
    ConnAck,
    Publish { dup: bool, qos: u8, retain: bool },
    PubAck,
    Subscribe,
    SubAck,
    Unsubscribe,
    UnsubAck,
    PingReq,
    PingResp,
    Disconnect,
}

fn publish(dup: bool, qos: u8, retain: bool) -> Result<Kind, PacketFault>
    ensures { result ≡ Ok (Publish dup qos retain) }
{
    Ok(Kind::Publish { dup, qos, retain })
}

/// What the first byte says, or why no packet of QoS 0 or 1 begins with it.
#[tactic(auto, unfolding(crate::specs::Reading::kind_of))]
pub(crate) fn judged(first: u8) -> Result<Kind, PacketFault>
    ensures given { Gives (λ x. x) result (kind_of first) }
    ensures kept { IfOk result (λ k. keeps_kind k ≡ is_keeping (first / 16)) }
    ensures publish { IfOk result (λ k. is_publish_kind k ≡ (first / 16 == 3)) }
    ensures bytes { IfErr result (λ e. IsTrue (is_of_bytes e)) }
{
    match first {
        0x00..=0x0f | 0xf0..=0xff => Err(PacketFault::BadType),
        0x10 => Ok(Kind::Connect),
        0x20 => Ok(Kind::ConnAck),
        0x30 => publish(false, 0, false),
        0x31 => publish(false, 0, true),
        0x32 => publish(false, 1, false),
        0x33 => publish(false, 1, true),
        0x3a => publish(true, 1, false),
        0x3b => publish(true, 1, true),
        0x40 => Ok(Kind::PubAck),
        0x82 => Ok(Kind::Subscribe),
        0x90 => Ok(Kind::SubAck),
        0xa2 => Ok(Kind::Unsubscribe),
        0xb0 => Ok(Kind::UnsubAck),
        0xc0 => Ok(Kind::PingReq),
        0xd0 => Ok(Kind::PingResp),
        0xe0 => Ok(Kind::Disconnect),
        0x34 | 0x35 | 0x3c | 0x3d | 0x50 | 0x62 | 0x70 => Err(PacketFault::QosTwo),
        _ => Err(PacketFault::BadFlags),
    }
}
