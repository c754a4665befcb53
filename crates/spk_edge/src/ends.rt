//! The beginning and the ends of a session.
ghost use Rattle.std.specs.Prelude.{◌≡◌, IfOk, IfErr, IsErr, map, [], ◌∷◌, string_bytes, Some};
ghost use Rattle.std.specs.Option.{option_map};
ghost use Rattle.spk_packets.specs.View.{view, will_view, request_view};
ghost use Rattle.spk_edge_rules.specs.Packets as packets;
ghost use Rattle.spk_edge_rules.specs.Rules as rule;
ghost use Rattle.spk_edge.specs.View.{config_view, given_of, given_view};

use crate::config::EdgeConfig;
use crate::message::{Given, Keeping};
use crate::node::EdgeNode;
use crate::texts::{client_id, death_bytes, device_topic, node_topic, state_topic};
use spk_edge_rules::Phase;
use spk_packets::{Packet, Request, Will};
use spk_topics::Verb;
use std::alloc::{AllocError, Global};

/// The will of a session.
fn will(alloc: Global, config: &EdgeConfig, bd: u8, time: u64) -> Result<Will, AllocError>
    ensures { IfOk result (λ w. will_view w ≡ packets.will_of (config_view config.now) bd time) }
{
    Ok(Will {
        topic: node_topic(alloc, config, Verb::Death)?,
        message: death_bytes(alloc, bd, time)?,
        qos: 1,
        retain: false,
    })
}

/// CONNECT.
fn connect(alloc: Global, config: &EdgeConfig, bd: u8, time: u64) -> Result<Packet, AllocError>
    ensures { IfOk result (λ p. view p ≡ packets.connect_of (config_view config.now) bd time) }
{
    Ok(Packet::Connect {
        client: client_id(alloc, config)?,
        clean: true,
        keep: config.keep,
        will: Some(will(alloc, config, bd, time)?),
    })
}

/// The NDEATH that ends a session in order.
fn last_words(alloc: Global, config: &EdgeConfig, bd: u8, time: u64) -> Result<Packet, AllocError>
    ensures { IfOk result (λ p. view p ∷ view Packet.Disconnect ∷ []
        ≡ packets.farewell (config_view config.now) bd time) }
{
    Ok(Packet::Publish {
        dup: false,
        qos: 1,
        retain: false,
        topic: node_topic(alloc, config, Verb::Death)?,
        id: Some(2),
        payload: death_bytes(alloc, bd, time)?,
    })
}

/// A filter at QoS 1.
fn request(filter: String) -> Request
    ensures { request_view result ≡ (string_bytes filter, 1) }
{
    Request { filter, qos: 1 }
}

/// The filters of its commands, and of its primary host.
fn filters(alloc: Global, config: &EdgeConfig) -> Result<Vec<Request>, AllocError>
    ensures { IfOk result (λ rs. packets.subscribe_of (config_view config.now)
        ≡ view (Packet.Subscribe 1 rs)) }
{
    let mut filters = Vec::with_capacity(alloc, 3)?;
    filters.push(request(node_topic(alloc, config, Verb::Command)?))?;
    filters.push(request(device_topic(alloc, config, Verb::Command, "+")?))?;
    if let Some(host) = &config.primary {
        filters.push(request(state_topic(alloc, host.as_str())?))?;
    }
    Ok(filters)
}

/// SUBSCRIBE.
fn subscribe(alloc: Global, config: &EdgeConfig) -> Result<Packet, AllocError>
    ensures { IfOk result (λ p. view p ≡ packets.subscribe_of (config_view config.now)) }
{
    Ok(Packet::Subscribe {
        id: 1,
        filters: filters(alloc, config)?,
    })
}

impl EdgeNode {
    /// Nothing: the phase stays.
    pub(crate) fn nothing(&self) -> Given
        ensures { given_view result ≡ given_of self.now.config self.now.standing.asked.heard
            (rule.nothing self.now.standing.asked) }
    {
        Given {
            plain: Vec::new(self.alloc),
            messages: Vec::new(self.alloc),
            writes: Vec::new(self.alloc),
            close: false,
            phase: self.tally.phase,
            heard: self.tally.heard,
            kept: Keeping::Nothing,
        }
    }

    /// CONNECT, and the phase Connecting.
    pub(crate) fn opening(&self, now: u64) -> Result<Given, AllocError>
        ensures { IfOk result (λ g. given_view g
            ≡ given_of self.now.config self.now.standing.asked.heard
            (rule.opening self.now.config self.now.standing.asked now)) }
    {
        let mut given = self.nothing();
        given
            .plain
            .push(connect(self.alloc, &self.config, self.tally.bd, now)?)?;
        given.phase = Phase::Connecting;
        Ok(given)
    }

    /// SUBSCRIBE, and the phase Waiting.
    pub(crate) fn joining(&self) -> Result<Given, AllocError>
        ensures { IfOk result (λ g. given_view g
            ≡ given_of self.now.config self.now.standing.asked.heard
            (rule.joining self.now.config self.now.standing.asked)) }
    {
        let mut given = self.nothing();
        given.plain.push(subscribe(self.alloc, &self.config)?)?;
        given.phase = Phase::Waiting;
        Ok(given)
    }

    /// NDEATH, DISCONNECT, and the connection is closed.
    pub(crate) fn leaving(&self) -> Result<Given, AllocError>
        ensures { IfOk result (λ g. given_view g
            ≡ given_of self.now.config self.now.standing.asked.heard
            (rule.leaving self.now.config self.now.standing.asked)) }
    {
        let mut given = self.nothing();
        let tally = &self.tally;
        given.plain.push(last_words(self.alloc, &self.config, tally.will_bd, tally.will_time)?)?;
        given.plain.push(Packet::Disconnect)?;
        given.close = true;
        given.phase = Phase::Idle;
        Ok(given)
    }

    /// The connection is gone.
    pub(crate) fn cutting(&self) -> Given
        ensures { given_view result
            ≡ given_of self.now.config self.now.standing.asked.heard (record
            (rule.nothing self.now.standing.asked) { phase = Phase.Idle }) }
    {
        let mut given = self.nothing();
        given.phase = Phase::Idle;
        given
    }

    /// A node whose connection wasn't accepted closes it.
    pub(crate) fn turned_away(&self) -> Given
        ensures { given_view result ≡ given_of self.now.config self.now.standing.asked.heard
            (rule.turned_away self.now.standing.asked) }
    {
        let mut given = self.nothing();
        if let Phase::Connecting = self.tally.phase {
            given.close = true;
            given.phase = Phase::Idle;
        }
        given
    }
}
