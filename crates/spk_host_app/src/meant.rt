//! What the packet at the front of what was read is to the program.
ghost use Rattle.std.specs.Prelude.{◌≡◌, ◌==◌, IfOk, IfErr, Err, get_or, false};
ghost use Rattle.spk_packets.specs.Grammar.{Spells};
ghost use Rattle.spk_packets.specs.Message.{Message};
ghost use Rattle.spk_reading.specs.Meaning.{heard};
ghost use Rattle.spk_host.specs.View.{fault_of};
ghost use Rattle.spk_host_app.specs.Meant.{IsMeant, IsReadOf, is_refusal, refuses};

use spk_host::HostFault;
use spk_packets::{Packet, begins_publish, decode, decode_publish};
use spk_reading::{Heard, ReadFault, read};
use std::alloc::{AllocError, Global};

/// What a packet is to the program.
#[derive(Debug, Drop)]
pub(crate) enum Meant {
    /// It says this to the host.
    Heard(Heard),
    /// A message on this topic that is refused, with its identifier at QoS 1.
    Refused {
        fault: HostFault,
        topic: String,
        id: Option<u16>,
    },
    /// A SUBACK that refuses the subscription.
    SubscriptionRefused,
}

/// The host's fault of the same name.
fn fault_of(fault: ReadFault) -> HostFault
    ensures { result ≡ fault_of fault }
{
    match fault {
        ReadFault::NoMemory => HostFault::NoMemory,
        ReadFault::NotSparkplug => HostFault::NotSparkplug,
        ReadFault::BadPayload => HostFault::BadPayload,
        ReadFault::NoSeq => HostFault::NoSeq,
        ReadFault::NoStamp => HostFault::NoStamp,
        ReadFault::NoBdSeq => HostFault::NoBdSeq,
    }
}

/// What the bytes of a packet say to a host, or why they are refused.
fn read_of(alloc: Global, bytes: &[u8]) -> Result<Heard, ReadFault>
    ensures { (p : Message) → Spells bytes.now p → IsReadOf p result }
{
    read(alloc, bytes)
}

/// Whether one of the return codes is 128.
fn is_refusal(codes: &[u8]) -> bool
    ensures { result ≡ is_refusal codes.now }
{
    codes.iter().any(|code| *code == 128)
}

/// Whether the bytes of a packet are a SUBACK that refuses the subscription.
fn refuses(alloc: Global, bytes: &[u8]) -> Result<bool, AllocError>
    ensures { (p : Message) → Spells bytes.now p → IfOk result (λ b. b ≡ refuses p) }
{
    if bytes.first().copied().unwrap_or(0) != 0x90 {
        return Ok(false);
    }
    match decode(alloc, bytes) {
        Ok((Packet::SubAck { codes, .. }, _)) => Ok(is_refusal(&codes)),
        Ok(_) => Ok(false),
        Err(_) => Err(AllocError),
    }
}

/// A message that is refused for this.
fn refused(alloc: Global, bytes: &[u8], fault: ReadFault) -> Result<Meant, AllocError>
    ensures { (p : Message) → Spells bytes.now p → heard p ≡ Err fault
        → IfOk result (λ m. IsMeant p m) }
{
    if !begins_publish(bytes) {
        return Err(AllocError);
    }
    match decode_publish(bytes) {
        Ok((publish, _)) => Ok(Meant::Refused {
            fault: fault_of(fault),
            topic: String::from_str(alloc, publish.topic)?,
            id: publish.id,
        }),
        Err(_) => Err(AllocError),
    }
}

/// What the bytes of a packet are to the program.
pub(crate) fn meaning_of(alloc: Global, bytes: &[u8]) -> Result<Meant, AllocError>
    ensures { (p : Message) → Spells bytes.now p → IfOk result (λ m. IsMeant p m) }
{
    if refuses(alloc, bytes)? {
        return Ok(Meant::SubscriptionRefused);
    }
    match read_of(alloc, bytes) {
        Ok(heard) => Ok(Meant::Heard(heard)),
        Err(ReadFault::NoMemory) => Err(AllocError),
        Err(fault) => refused(alloc, bytes, fault),
    }
}
