//! The line that a content says.
ghost use Rattle.std.specs.Prelude.{◌≡◌, ◌≢◌, ◌∷◌, IfOk, None, OnOk};
ghost use Rattle.spk_packets.specs.declared.fault.PacketFault.TheVariants as PacketFault;
ghost use Rattle.spk_broker_events.specs.Line.{IsLine, IsPacket};

use crate::line::{Line, kind_of};
use crate::reading::front_in;
use spk_packets::{Packet, PacketFault, decode};
use std::alloc::{AllocError, Global};

/// Bytes that are no packet are none, unless memory was refused.
fn none_by(fault: PacketFault) -> Result<Option<Option<Packet>>, AllocError>
    ensures none { IfOk result (λ o. o ≡ None) }
    ensures named { OnOk result (fault ≢ PacketFault.NoMemory) }
{
    match fault {
        PacketFault::NoMemory => Err(AllocError),
        _ => Ok(None),
    }
}

/// The packet that these bytes are, no packet where there are none; none where they are anything else.
fn packet_in(alloc: Global, bytes: &[u8]) -> Result<Option<Option<Packet>>, AllocError>
    ensures { IfOk result (λ o. IsPacket bytes.now o) }
{
    if bytes.is_empty() {
        return Ok(Some(None));
    }
    match decode(alloc, bytes) {
        Ok((packet, len)) => {
            if len == bytes.len() {
                Ok(Some(Some(packet)))
            } else {
                Ok(None)
            }
        }
        Err(fault) => none_by(fault),
    }
}

/// The line of a code and what stands behind it.
fn line_of(alloc: Global, code: u8, behind: &[u8]) -> Result<Option<Line>, AllocError>
    ensures { IfOk result (λ o. IsLine (code ∷ behind.now) o) }
{
    let Some(kind) = kind_of(code) else {
        return Ok(None);
    };
    let Some((first, second, rest)) = front_in(behind) else {
        return Ok(None);
    };
    match packet_in(alloc, rest)? {
        Some(packet) => Ok(Some(Line {
            kind,
            first,
            second,
            packet,
        })),
        None => Ok(None),
    }
}

/// The line that a content says; none where it says none. Refused only where memory is. Linear in the content.
pub fn read_line(alloc: Global, content: &[u8]) -> Result<Option<Line>, AllocError>
    ensures { IfOk result (λ o. IsLine content.now o) }
{
    let [code, behind @ ..] = content else {
        return Ok(None);
    };
    line_of(alloc, *code, behind)
}
