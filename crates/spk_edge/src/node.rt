//! The edge node.
ghost use Rattle.std.specs.Prelude.{◌≡◌, ◌⊎◌, IfOk, IfErr, OnOk, true, false, length};
ghost use Rattle.spk_topics.specs.Spark.{is_name};
ghost use Rattle.spk_topics.specs.Text.{holds};
ghost use Rattle.spk_device.specs.Lawful.{IsLawful};
ghost use Rattle.spk_edge_rules.specs.Claims.{HasNames, IsUnreserved};
ghost use Rattle.spk_edge.specs.Patch as patch;
ghost use Rattle.spk_edge.specs.View.{config_view, record_view};
ghost use Rattle.spk_edge_rules.specs.Rules.{nothing};
ghost use Rattle.spk_edge_rules.specs.Step as step;

use crate::config::{EdgeConfig, Numbering, Record};
use spk_device::Registry;
use spk_edge_rules::{EdgeFault, Phase};
use spk_state::Primary;
use spk_store::Store;
use std::alloc::Global;
use std::fmt;
use std::marker::Model;

/// What a node counts.
#[derive(Clone, Copy, Debug, PartialEq, Eq)]
pub(crate) struct Tally {
    pub(crate) phase: Phase,
    /// The greatest timestamp heard of the primary host.
    pub(crate) heard: Primary,
    /// The last stamp.
    pub(crate) stamp: Option<u64>,
    /// The sequence number and the bdSeq that come next.
    pub(crate) seq: u8,
    pub(crate) bd: u8,
    /// The bdSeq and the moment of the session opened last.
    pub(crate) will_bd: u8,
    pub(crate) will_time: u64,
}

/// An edge node. Contracts see what it is and how it stands (`NodeData`).
#[derive(Drop)]
pub struct EdgeNode {
    pub(crate) alloc: Global,
    pub(crate) config: EdgeConfig,
    pub(crate) registry: Registry,
    pub(crate) store: Store,
    pub(crate) tally: Tally,
}

impl fmt::Debug for EdgeNode {
    fn fmt<W: fmt::Write>(&self, f: &mut fmt::Formatter<W>) -> fmt::Result {
        f.write_str("EdgeNode { .. }")
    }
}

impl Model for EdgeNode {
    ghost use Rattle.spk_edge.specs.View.{NodeData, node_view};

    ghost Value = { NodeData };

    ghost view = { node_view };
}

/// Whether a text may be a name in a topic.
fn is_name(text: &str) -> bool
    ensures { result ≡ is_name text.now }
{
    !text.is_empty() && !has(text, b'/') && !has(text, b'+') && !has(text, b'#') && !has(text, 0)
}

/// Whether a byte stands in a text.
fn has(text: &str, byte: u8) -> bool
    ensures { result ≡ holds byte text.now }
{
    text.bytes().any(|b| b == byte)
}

/// Whether names can stand in topics, and the capacity is one.
fn is_good(config: &EdgeConfig) -> bool
    ensures { result ≡ patch.is_good (config_view config.now) config.now.capacity }
{
    let primary = match &config.primary {
        Some(host) => is_name(host.as_str()),
        None => true,
    };
    is_name(config.group.as_str())
        && is_name(config.node.as_str())
        && primary
        && config.capacity >= 1
        && config.capacity <= 4096
}

/// Every registry is lawful.
fn is_lawful(registry: &Registry)
    ensures { IsLawful registry.now }
{
    let _count = registry.device_count();
}

impl EdgeNode {
    /// A node that goes on with a record, with room for all changes that it may keep. It is Idle.
    ///
    /// Refuses with BadConfig (63) a group, node or primary host that can't stand in a topic, and a capacity outside 1 to
    /// 4,096. So the topics of its messages have names, and its NBIRTHs name bdSeq once (`laws::published`).
    pub fn new(
        alloc: Global,
        config: EdgeConfig,
        start: Record,
        registry: Registry,
    ) -> Result<EdgeNode, EdgeFault>
        ensures made { IfOk result (λ n. n ≡ patch.made (config_view config) config.capacity
            (record_view start) registry) }
        ensures good { OnOk result (patch.is_good (config_view config) config.capacity ≡ true) }
        ensures names { OnOk result (HasNames (patch.setup_of (config_view config) config.capacity
            (record_view start) registry)) }
        ensures unreserved { OnOk result (IsUnreserved (patch.setup_of (config_view config)
            config.capacity (record_view start) registry)) }
        ensures fault { IfErr result (λ e. (e ≡ EdgeFault.NoMemory)
            ⊎ ((e ≡ EdgeFault.BadConfig) × (patch.is_good (config_view config) config.capacity
            ≡ false))) }
    {
        is_lawful(&registry);
        if !is_good(&config) {
            return Err(EdgeFault::BadConfig);
        }
        let Ok(store) = Store::new(alloc, config.capacity) else {
            return Err(EdgeFault::NoMemory);
        };
        let tally = Tally {
            phase: Phase::Idle,
            heard: Primary::new(),
            stamp: start.stamp,
            seq: start.seq,
            bd: start.bd,
            will_bd: start.bd,
            will_time: 0,
        };
        Ok(EdgeNode {
            alloc,
            config,
            registry,
            store,
            tally,
        })
    }

    /// What it is.
    pub fn config(&self) -> &EdgeConfig
        ensures { config_view result.now ≡ self.now.config }
    {
        &self.config
    }

    /// How far its session is.
    pub fn phase(&self) -> Phase
        ensures { result ≡ self.now.standing.asked.phase }
    {
        self.tally.phase
    }

    /// How many changes were overwritten, or dropped because their device is down. It stays at the greatest u64.
    pub fn lost(&self) -> u64
        ensures { result ≡ self.now.standing.asked.store.lost }
    {
        self.store.lost()
    }

    /// How many changes are kept.
    pub fn kept(&self) -> usize
        ensures { result ≡ length self.now.standing.asked.store.items }
    {
        self.store.len()
    }

    /// What a node that runs after this one goes on with.
    pub fn record(&self) -> Record
        ensures { record_view result ≡ step.record_at self.now.config self.now.standing }
    {
        let seq = match self.config.numbering {
            Numbering::RunsOn => self.tally.seq,
            Numbering::Restarts => 0,
        };
        Record {
            seq,
            bd: self.tally.bd,
            stamp: self.tally.stamp,
        }
    }
}
