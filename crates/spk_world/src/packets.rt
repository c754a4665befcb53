//! Packets as bytes, and how a host hears them.
ghost use Rattle.std.specs.Prelude.{◌≡◌, ◌⊎◌, false, None, IfOk, IfErr, OnErr, OnOk};
ghost use Rattle.spk_packets.specs.Message.{Publish};
ghost use Rattle.spk_packets.specs.Spelling.{spelling};
ghost use Rattle.spk_edge_rules.specs.Writable.{is_writable};
ghost use Rattle.spk_edge.specs.View.{config_view};
ghost use Rattle.spk_reading.specs.Data.{HeardData};
ghost use Rattle.spk_reading.specs.Meaning.{Says};
ghost use Rattle.spk_reading.specs.View.{heard_view};
ghost use Rattle.spk_host.specs.Step.{after_packet, packet_out};
ghost use Rattle.spk_host.specs.View.{fault_of, out_view};
ghost use Rattle.spk_world.specs.Fault.{host_fault};
ghost use Rattle.spk_host.specs.Data.{HostData};
ghost use Rattle.spk_world.specs.Outcome.{IsHeard, IsUnheard, IsUnsendable};
ghost use Rattle.spk_world_run.specs.Data.{PublishedData};
ghost use Rattle.spk_world_run.specs.Step.{death_of, packet_of};

use crate::fault::WorldFault;
use crate::records::Published;
use spk_edge::{EdgeConfig, EdgeFault, death_bytes, node_topic};
use spk_host::{Host, HostFault, Out};
use spk_packets::{PacketFault, PublishRef};
use spk_payload::laws::{canonical, reading};
use spk_reading::{Heard, ReadFault};
use spk_topics::Verb;
use std::alloc::Global;

/// A PUBLISH at QoS 0.
fn publish(alloc: Global, topic: &str, payload: &[u8]) -> Result<Vec<u8>, WorldFault>
    ensures bytes { IfOk result
        (λ v. v.items ≡ spelling (Publish false 0 false topic.now None payload.now)) }
    ensures fault { IfErr result
        (λ e. (e ≡ WorldFault.NoMemory) ⊎ ((e ≡ WorldFault.Edge EdgeFault.TooLarge)
        × (is_writable (Publish false 0 false topic.now None payload.now) ≡ false))) }
{
    let packet = PublishRef {
        dup: false,
        qos: 0,
        retain: false,
        topic,
        id: None,
        payload,
    };
    match packet.encode(alloc) {
        Ok(bytes) => Ok(bytes),
        Err(PacketFault::NoMemory) => Err(WorldFault::NoMemory),
        Err(_) => Err(WorldFault::Edge(EdgeFault::TooLarge)),
    }
}

/// What a host refuses to read, as the world's refusal.
fn unread(fault: ReadFault) -> WorldFault
    ensures { result ≡ host_fault (fault_of fault) }
{
    match fault {
        ReadFault::NoMemory => WorldFault::NoMemory,
        ReadFault::NotSparkplug => WorldFault::Host(HostFault::NotSparkplug),
        ReadFault::BadPayload => WorldFault::Host(HostFault::BadPayload),
        ReadFault::NoSeq => WorldFault::Host(HostFault::NoSeq),
        ReadFault::NoStamp => WorldFault::Host(HostFault::NoStamp),
        ReadFault::NoBdSeq => WorldFault::Host(HostFault::NoBdSeq),
    }
}

impl Published {
    ghost use Rattle.spk_world.specs.Parts.{IsReadable};
    ghost use Rattle.spk_world.specs.View.{published_view};

    /// What the bytes of its packet, as the node sent it, say to a host. They aren't written for it: who reads them reads this message.
    pub(crate) fn heard(&self, alloc: Global) -> Result<Heard, WorldFault>
        requires { IsReadable (published_view self.now) }
        ensures says { IfOk result
            (λ h. Says (spelling (packet_of (published_view self.now))) (heard_view h)) }
        ensures fault { IfErr result (λ e. (e ≡ WorldFault.NoMemory)
            ⊎ ((h : HostData) → IsUnsendable h (published_view self.now) e)) }
    {
        canonical();
        reading();
        let payload = self.payload.copy(alloc)?;
        match Heard::of(alloc, self.topic.as_str(), payload) {
            Ok(heard) => Ok(heard),
            Err(fault) => Err(unread(fault)),
        }
    }
}

/// The NDEATH of a session, counted from 0, that was opened at a moment.
pub(crate) fn death_packet(
    alloc: Global,
    config: &EdgeConfig,
    session: u64,
    time: u64,
) -> Result<Vec<u8>, WorldFault>
    ensures bytes { IfOk result
        (λ v. v.items ≡ spelling (death_of (config_view config.now) session time)) }
    ensures fault { IfErr result
        (λ e. (e ≡ WorldFault.NoMemory) ⊎ ((e ≡ WorldFault.Edge EdgeFault.TooLarge)
        × (is_writable (death_of (config_view config.now) session time) ≡ false))) }
{
    let topic = node_topic(alloc, config, Verb::Death)?;
    let payload = death_bytes(alloc, (session % 256) as u8, time)?;
    publish(alloc, topic.as_str(), &payload)
}

/// The bytes of a packet come to a host.
pub(crate) fn come(host: &mut Host, bytes: &[u8], now: u64) -> Result<Out, WorldFault>
    ensures heard { IfOk result
        (λ o. (h : HeardData) × IsHeard host.old bytes.now now h o host.new) }
    ensures fault { IfErr result (λ e. (e ≡ WorldFault.NoMemory) ⊎ IsUnheard host.old bytes.now e) }
    ensures unchanged { OnErr result (host.new ≡ host.old) }
{
    match host.packet(bytes, now) {
        Ok(out) => Ok(out),
        Err(fault) => Err(WorldFault::from(fault)),
    }
}

/// What a packet's bytes say comes to a host.
pub(crate) fn tell(host: &mut Host, heard: Heard, now: u64) -> Result<Out, WorldFault>
    ensures out { IfOk result
        (λ o. out_view o ≡ packet_out host.old (heard_view heard) now) }
    ensures after { OnOk result (host.new ≡ after_packet host.old (heard_view heard) now) }
    ensures fault { IfErr result (λ e. (e ≡ WorldFault.NoMemory)
        ⊎ ((m : PublishedData) → IsUnsendable host.old m e)) }
    ensures unchanged { OnErr result (host.new ≡ host.old) }
{
    match host.heard(heard, now) {
        Ok(out) => Ok(out),
        Err(fault) => Err(WorldFault::from(fault)),
    }
}
