//! Which input a packet of the server is (MQTT 3.1.1, chapter 3).
ghost use Rattle.std.specs.Prelude.{◌≡◌, ◌==◌, if◌then◌else◌};
ghost use Rattle.std.specs.Str.{bytes_eq};
ghost use Rattle.spk_packets.specs.View.{view};
ghost use Rattle.spk_topics.specs.Spark.{topic_of};
ghost use Rattle.spk_topics.specs.Spark.Named.{of_state};
ghost use Rattle.spk_edge_rules.specs.Arriving as arriving;
ghost use Rattle.spk_edge_rules.specs.Inputs as inputs;
ghost use Rattle.spk_edge.specs.View.{act_view, config_view, input_view};

use crate::config::EdgeConfig;
use crate::input::{Act, Input};
use crate::node::EdgeNode;
use spk_packets::Packet;

/// Whether a topic is that of a host application's STATE (Sparkplug 3.0.0, chapter 4).
fn is_state_of(host: &str, topic: &str) -> bool
    ensures { result ≡ bytes_eq topic.now (topic_of (of_state host.now)) }
{
    match topic.as_bytes().strip_prefix(b"spBv1.0/STATE/") {
        Some(rest) => rest == host.as_bytes(),
        None => false,
    }
}

/// Whether a topic is that of the primary host's STATE.
fn is_primary(config: &EdgeConfig, topic: &str) -> bool
    ensures { result ≡ arriving.is_primary (config_view config.now) topic.now }
{
    match &config.primary {
        Some(host) => is_state_of(host.as_str(), topic),
        None => false,
    }
}

/// What CONNACK's code says.
fn answered(code: u8) -> Act<'static>
    ensures { act_view result ≡ (if code == 0 then inputs.Accepted else inputs.TurnedAway) }
{
    if code == 0 {
        Act::Accepted
    } else {
        Act::TurnedAway
    }
}

impl EdgeNode {
    /// The input that a packet of the server is, at a moment in milliseconds since 1970. CONNACK is the server's answer; a
    /// PUBLISH is a STATE of the primary host or a command, and is to be acknowledged at QoS 1; any other packet asks for
    /// nothing. Takes no memory.
    pub fn input_of<'a>(&self, now: u64, packet: &'a Packet) -> Input<'a>
        ensures { input_view result ≡ arriving.input_of self.now.config now (view packet.now) }
    {
        match packet {
            Packet::ConnAck { code, .. } => Input {
                now,
                ack: None,
                act: answered(*code),
            },
            Packet::Publish {
                qos,
                topic,
                id,
                payload,
                ..
            } => {
                let act = if is_primary(&self.config, topic.as_str()) {
                    Act::State(payload.as_slice())
                } else {
                    Act::Command(topic.as_str(), payload.as_slice())
                };
                let ack = if *qos == 1 { *id } else { None };
                Input { now, ack, act }
            }
            _ => Input {
                now,
                ack: None,
                act: Act::Pass,
            },
        }
    }
}
