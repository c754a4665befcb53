//! The record of a packet that came, with no moment of its own.
ghost use Rattle.std.specs.Prelude.{◌≡◌, ◌++◌, false, true, IfErr, IfOk, None, OnErr, OnOk, is_some};
ghost use Rattle.std.specs.Option.{option_map};
ghost use Rattle.spk_packets.specs.Fault.{IsNamed, first_of};
ghost use Rattle.spk_packets.specs.Spelling.{unwritable};
ghost use Rattle.spk_packets.specs.View.{view, will_view};
ghost use Rattle.spk_broker_events.specs.Record.{record_of};
ghost use Rattle.spk_broker_replay.specs.Replay.{is_idle, timeless};
ghost use Rattle.spk_broker_rules.specs.Plan as plan;
ghost use Rattle.spk_broker_notes.specs.Logs.{log_view, with_record};
ghost use Rattle.spk_broker_notes.specs.Noted.{is_unwritten};

use crate::notes::Log;
use spk_broker::Conn;
use spk_broker_events::append_packet;
use spk_packets::{Packet, PacketFault, Will};
use std::alloc::{AllocError, Global};

fn bytes(alloc: Global, from: &[u8]) -> Result<Vec<u8>, AllocError>
    ensures { IfOk result (λ v. v.items ≡ from.now) }
{
    let mut out = Vec::with_capacity(alloc, from.len())?;
    out.extend_from_slice(from)?;
    Ok(out)
}

fn will_again(alloc: Global, will: &Option<Will>) -> Result<Option<Will>, AllocError>
    ensures { IfOk result (λ o. option_map will_view o ≡ option_map will_view will.now) }
{
    match will {
        Some(will) => Ok(Some(Will {
            topic: String::from_str(alloc, will.topic.as_str())?,
            message: bytes(alloc, will.message.as_slice())?,
            qos: will.qos,
            retain: will.retain,
        })),
        None => Ok(None),
    }
}

/// The record of a packet, a CONNECT's with a keep alive of one second, behind what stands in `out`.
fn append_timeless(
    alloc: Global,
    conn: Conn,
    packet: &Packet,
    out: &mut Vec<u8>,
) -> Result<(), PacketFault>
    ensures put { OnOk result (out.new.items ≡ out.old.items ++ record_of (plan.Packet conn (timeless (view packet.now)) 0)) }
    ensures writable { OnOk result (first_of (unwritable (timeless (view packet.now))) ≡ None) }
    ensures refused { IfErr result (λ e. IsNamed e (first_of (unwritable (timeless (view packet.now))))) }
    ensures err { OnErr result (out.new.items ≡ out.old.items) }
{
    match packet {
        Packet::Connect {
            client,
            clean,
            keep: _keep,
            will,
        } => {
            let again = Packet::Connect {
                client: String::from_str(alloc, client.as_str())?,
                clean: *clean,
                keep: 1,
                will: will_again(alloc, will)?,
            };
            append_packet(alloc, conn, &again, 0, out)
        }
        _other => append_packet(alloc, conn, packet, 0, out),
    }
}

/// Notes a packet, where events are noted.
pub(crate) fn add_packet(
    alloc: Global,
    log: &mut Option<Log>,
    conn: Conn,
    packet: &Packet,
) -> Result<(), PacketFault>
    ensures done { OnOk result (option_map log_view log.new
        ≡ option_map (with_record (plan.Packet conn (timeless (view packet.now)) 0)) (option_map log_view log.old)) }
    ensures writable { OnOk result (is_unwritten (option_map log_view log.old) (view packet.now) ≡ false) }
    ensures refused { IfErr result (λ e. IsNamed e (first_of (unwritable (timeless (view packet.now))))) }
    ensures some { OnErr result (is_some (option_map log_view log.old) ≡ true) }
    ensures err { OnErr result (option_map log_view log.new ≡ option_map log_view log.old) }
{
    match log {
        Some(log) => append_timeless(alloc, conn, packet, &mut log.bytes),
        None => Ok(()),
    }
}

/// Whether a packet may change nothing but when its connection was heard.
pub(crate) fn is_idle(packet: &Packet) -> bool
    ensures { result ≡ is_idle (view packet.now) }
{
    match packet {
        Packet::PingReq => true,
        Packet::Publish {
            dup: _dup,
            qos,
            retain,
            topic: _topic,
            id: _id,
            payload: _payload,
        } => *qos == 0 && !*retain,
        _other => false,
    }
}
