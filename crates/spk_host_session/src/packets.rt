//! The packets of a host, as bytes.
ghost use Rattle.std.specs.Prelude.{◌≡◌, ◌<◌, ◌≤◌, IfOk, IfErr, None, length, string_bytes, false};
ghost use Rattle.spk_packets.specs.Fault.{first_of};
ghost use Rattle.spk_packets.specs.Grammar.{Spells};
ghost use Rattle.spk_packets.specs.Message.{PubAck};
ghost use Rattle.spk_packets.specs.Spelling.{spelling, unwritable};
ghost use Rattle.spk_packets.specs.View.{view};
ghost use Rattle.spk_state.specs.Text.{state_text};
ghost use Rattle.spk_topics.specs.Spark.{topic_of};
ghost use Rattle.spk_topics.specs.Spark.Named.{of_state};
ghost use Rattle.spk_host_session.specs.Packets as spec;
ghost use Rattle.spk_host_session.specs.View.{config_view};

use crate::config::HostConfig;
use spk_packets::{Packet, PacketFault, Request, Will, encode};
use spk_state::State;
use std::alloc::{AllocError, Global};

/// A packet's bytes.
#[tactic(auto, unfolding(crate::specs::Packets::IsWritable))]
pub(crate) fn written(alloc: Global, packet: &Packet) -> Result<Vec<u8>, AllocError>
    requires { spec.IsWritable (view packet.now) }
    ensures said { IfOk result (λ v. v.items ≡ spelling (view packet.now)) }
    ensures whole { IfOk result (λ v. spec.IsPacket v.items) }
{
    match encode(alloc, packet) {
        Ok(bytes) => Ok(bytes),
        Err(PacketFault::NoMemory) => Err(AllocError),
        Err(_) => unreachable!(),
    }
}

/// The topic of the host's STATE (Sparkplug 3.0.0, chapter 4).
fn state_topic(alloc: Global, config: &HostConfig) -> Result<String, AllocError>
    ensures { IfOk result
        (λ t. string_bytes t ≡ topic_of (of_state (config_view config.now).name)) }
{
    let host = config.name.as_str();
    format!(in alloc; "spBv1.0/STATE/{host}")
}

/// The text of a STATE.
fn state_text(alloc: Global, state: State) -> Result<Vec<u8>, AllocError>
    ensures { IfOk result (λ v. v.items ≡ state_text state) }
{
    match state.encode(alloc) {
        Ok(text) => Ok(text.into_bytes()),
        Err(_) => Err(AllocError),
    }
}

/// CONNECT.
pub(crate) fn connect(alloc: Global, config: &HostConfig, now: u64) -> Result<Packet, AllocError>
    ensures { IfOk result (λ p. view p ≡ spec.connect_of (config_view config.now) now) }
{
    let will = Will {
        topic: state_topic(alloc, config)?,
        message: state_text(
            alloc,
            State {
                online: false,
                timestamp: now,
            },
        )?,
        qos: 1,
        retain: true,
    };
    Ok(Packet::Connect {
        client: String::from_str(alloc, config.name.as_str())?,
        clean: true,
        keep: config.keep,
        will: Some(will),
    })
}

/// SUBSCRIBE.
pub(crate) fn subscribe(alloc: Global, config: &HostConfig) -> Result<Packet, AllocError>
    ensures { IfOk result (λ p. view p ≡ spec.subscribe_of (config_view config.now)) }
{
    let group = config.group.as_str();
    let filter = format!(in alloc; "spBv1.0/{group}/#")?;
    let mut filters = Vec::with_capacity(alloc, 1)?;
    filters.push(Request { filter, qos: 1 })?;
    Ok(Packet::Subscribe { id: 1, filters })
}

/// A STATE.
pub(crate) fn state_packet(
    alloc: Global,
    config: &HostConfig,
    id: u16,
    state: State,
) -> Result<Packet, AllocError>
    ensures { IfOk result
        (λ p. view p ≡ spec.state_of (config_view config.now) id (state_text state)) }
{
    Ok(Packet::Publish {
        dup: false,
        qos: 1,
        retain: true,
        topic: state_topic(alloc, config)?,
        id: Some(id),
        payload: state_text(alloc, state)?,
    })
}

/// The bytes of the PUBACK of an identifier (MQTT 3.1.1, section 3.4). Of identifier 0, which no packet has, they are none (section
/// 2.3.1). Refused only where memory is.
#[tactic(auto, using(crate::proofs::Writable::puback_spelling))]
pub fn acknowledgement(alloc: Global, id: u16) -> Result<Vec<u8>, AllocError>
    ensures said { IfOk result (λ v. v.items ≡ spelling (PubAck id)) }
    ensures whole { 0 < id → IfOk result (λ v. spec.IsPacket v.items) }
{
    let mut bytes = Vec::with_capacity(alloc, 4)?;
    bytes.extend_from_slice(&[0x40, 2, (id / 256 % 256) as u8, (id % 256) as u8])?;
    Ok(bytes)
}
