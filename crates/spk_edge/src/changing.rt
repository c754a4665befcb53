//! Changes of metrics, and devices that come and go.
ghost use Rattle.std.specs.Prelude.{◌≡◌, ◌⊎◌, ◌∷◌, [], IfOk, IfErr, OnOk, map, string_bytes, option_copied, Some, None, false};
ghost use Rattle.std.specs.Option.{option_and_then, option_map, option_map_or};
ghost use Rattle.spk_topics.specs.Spark.{topic_of};
ghost use Rattle.spk_edge_rules.specs.Messages.{spark_of};
ghost use Rattle.spk_device.specs.declared.fault.Refusal.{Refusal};
ghost use Rattle.spk_payload.specs.Typing.{typed_view, written_of};
ghost use Rattle.spk_payload.specs.View.{content_of, metric_view};
ghost use Rattle.spk_device.specs.Book as book;
ghost use Rattle.spk_device.specs.Step.{set_refusal, turn_refusal};
ghost use Rattle.spk_edge_rules.specs.Births as births;
ghost use Rattle.spk_edge_rules.specs.Rules as rule;
ghost use Rattle.spk_edge.specs.View.{change_view, given_of, given_view, message_view, unnumbered};

use crate::message::{Given, Keeping, Published};
use crate::node::EdgeNode;
use crate::texts::{device_topic, node_topic};
use crate::values::{copied, written_value};
use spk_device::{Alias, Outcome, Owner};
use spk_edge_rules::{EdgeFault, Phase};
use spk_payload::{Metric, Payload, Raw, Value};
use spk_store::Change;
use spk_topics::Verb;
use std::alloc::{AllocError, Global};

/// The later of a moment and the last stamp.
fn later(last: Option<u64>, now: u64) -> u64
    ensures { result ≡ births.later_stamp last now }
{
    match last {
        Some(last) => now.max(last),
        None => now,
    }
}

impl EdgeNode {
    /// The stamp of a message that isn't an NBIRTH.
    pub(crate) fn later_stamp(&self, now: u64) -> u64
        ensures { result ≡ births.later_stamp self.now.standing.asked.stamp now }
    {
        later(self.tally.stamp, now)
    }

    /// The datatype of an alias, 0 where there is none.
    fn datatype(&self, alias: Alias) -> u32
        ensures { result ≡ option_map_or (λ g. g.datatype)
            (book.gauge_at self.now.standing.asked.book alias) 0 }
    {
        match self.registry.metric(alias) {
            Some(gauge) => gauge.datatype,
            None => 0,
        }
    }

    /// The owner of an alias, the node where there is none.
    pub(crate) fn owner(&self, alias: Alias) -> Owner
        ensures { result ≡ births.owner_at self.now.standing.asked.book alias }
    {
        match self.registry.metric(alias) {
            Some(gauge) => gauge.owner,
            None => Owner::Node,
        }
    }

    /// Whether an owner is up.
    pub(crate) fn is_owner_up(&self, owner: Owner) -> bool
        ensures { result ≡ births.owner_is_up self.now.standing.asked.book owner }
    {
        match owner {
            Owner::Node => true,
            Owner::Device(number) => self.registry.is_up(number) == Some(true),
        }
    }

    /// A value as the datatype of an alias writes it.
    pub(crate) fn value_written(
        &self,
        alias: Alias,
        value: &Option<Value>,
    ) -> Result<Option<Raw>, AllocError>
        ensures { IfOk result (λ raw. option_map content_of raw
            ≡ option_and_then (written_of (option_map_or (λ g. g.datatype)
            (book.gauge_at self.now.standing.asked.book alias) 0))
            (option_map typed_view value.now)) }
    {
        match value {
            Some(value) => written_value(self.alloc, self.datatype(alias), value),
            None => Ok(None),
        }
    }

    /// A metric of a data message.
    pub(crate) fn data_metric(
        &self,
        alias: Alias,
        time: u64,
        historical: Option<bool>,
        value: &Option<Value>,
    ) -> Result<Metric, AllocError>
        ensures { IfOk result (λ m. metric_view m
            ≡ births.data_metric self.now.standing.asked.book alias time historical
            (option_map typed_view value.now)) }
    {
        let null = if value.is_none() { Some(true) } else { None };
        let value = self.value_written(alias, value)?;
        Ok(Metric {
            name: None,
            alias: Some(alias),
            timestamp: Some(time),
            datatype: None,
            historical,
            transient: None,
            null,
            value,
        })
    }

    /// The name of an owner that is a device.
    pub(crate) fn device_of(&self, owner: Owner) -> Option<&str>
        ensures { option_copied result ≡ births.device_of self.now.standing.asked.book owner }
    {
        match owner {
            Owner::Node => None,
            Owner::Device(number) => self.registry.device_name(number),
        }
    }

    /// The topic of an owner's data.
    pub(crate) fn data_topic(&self, owner: Owner) -> Result<String, AllocError>
        ensures { IfOk result (λ t. string_bytes t
            ≡ topic_of (spark_of self.now.config Verb.Data
            (births.device_of self.now.standing.asked.book owner))) }
    {
        match owner {
            Owner::Node => node_topic(self.alloc, &self.config, Verb::Data),
            Owner::Device(number) => match self.registry.device_name(number) {
                Some(name) => device_topic(self.alloc, &self.config, Verb::Data, name),
                None => node_topic(self.alloc, &self.config, Verb::Data),
            },
        }
    }

    /// A data message of an owner.
    pub(crate) fn data_message(
        &self,
        owner: Owner,
        stamp: u64,
        metrics: Vec<Metric>,
    ) -> Result<Published, AllocError>
        ensures { IfOk result (λ m. message_view m ≡ unnumbered self.now.config
            (births.data_draft self.now.standing.asked.book owner stamp
            (map metric_view metrics.items))) }
    {
        let topic = self.data_topic(owner)?;
        Ok(Published {
            topic,
            payload: Payload {
                timestamp: Some(stamp),
                metrics,
                seq: None,
            },
            stamp,
            opens: false,
        })
    }

    /// The data message of one change.
    fn change_message(
        &self,
        now: u64,
        alias: Alias,
        value: &Option<Value>,
    ) -> Result<Published, AllocError>
        ensures { IfOk result (λ m. message_view m ≡ unnumbered self.now.config
            (births.data_draft self.now.standing.asked.book
            (births.owner_at self.now.standing.asked.book alias)
            (births.later_stamp self.now.standing.asked.stamp now)
            (births.data_metric self.now.standing.asked.book alias
            (births.later_stamp self.now.standing.asked.stamp now) None
            (option_map typed_view value.now) ∷ []))) }
    {
        let stamp = self.later_stamp(now);
        let mut metrics = Vec::with_capacity(self.alloc, 1)?;
        metrics.push(self.data_metric(alias, stamp, None, value)?)?;
        self.data_message(self.owner(alias), stamp, metrics)
    }

    /// A change that is kept.
    pub(crate) fn kept_change(
        &self,
        now: u64,
        alias: Alias,
        value: &Option<Value>,
    ) -> Result<Change, AllocError>
        ensures { IfOk result (λ c. change_view c ≡ record {
          owner = births.owner_at self.now.standing.asked.book alias;
          alias = alias;
          value = option_map typed_view value.now;
          time = now;
        }) }
    {
        Ok(Change {
            owner: self.owner(alias),
            alias,
            value: copied(self.alloc, value)?,
            time: now,
        })
    }

    /// One data message when Born, else the change is kept.
    fn telling(&self, now: u64, alias: Alias, value: &Option<Value>) -> Result<Given, AllocError>
        ensures { IfOk result (λ g. given_view g
            ≡ given_of self.now.config self.now.standing.asked.heard
            (rule.telling self.now.standing.asked now alias (option_map typed_view value.now))) }
    {
        let mut given = self.nothing();
        if let Phase::Born = self.tally.phase {
            given
                .messages
                .push(self.change_message(now, alias, value)?)?;
        } else {
            given.kept = Keeping::Push(self.kept_change(now, alias, value)?);
        }
        Ok(given)
    }

    /// A change of a metric.
    pub(crate) fn changing(
        &self,
        now: u64,
        alias: Alias,
        value: &Option<Value>,
    ) -> Result<Given, EdgeFault>
        ensures given { IfOk result (λ g. given_view g
            ≡ given_of self.now.config self.now.standing.asked.heard
            (rule.changing self.now.standing.asked now alias (option_map typed_view value.now))) }
        ensures accepted { OnOk result (
            set_refusal self.now.standing.asked.book alias (option_map typed_view value.now)
            ≡ None) }
        ensures fault { IfErr result (λ e. (e ≡ EdgeFault.NoMemory) ⊎ ((r : Refusal)
            × (e ≡ EdgeFault.Device r)
            × (set_refusal self.now.standing.asked.book alias (option_map typed_view value.now)
            ≡ Some r))) }
        ensures memory { IfErr result (λ e. e ≡ EdgeFault.NoMemory
            → rule.is_same_value self.now.standing.asked.book alias
            (option_map typed_view value.now) ≡ false) }
    {
        match self.registry.would_set(alias, value) {
            Err(refusal) => Err(EdgeFault::Device(refusal)),
            Ok(Outcome::Same) => Ok(self.nothing()),
            Ok(Outcome::Changed) => {
                if self.is_owner_up(self.owner(alias)) {
                    Ok(self.telling(now, alias, value)?)
                } else {
                    Ok(self.nothing())
                }
            }
        }
    }

    /// The message of a device that comes up or goes down.
    fn turn_message(
        &self,
        now: u64,
        number: usize,
        name: &str,
        up: bool,
    ) -> Result<Published, AllocError>
        requires { book.number_of self.now.standing.asked.book name.now ≡ Some number }
        ensures { IfOk result (λ m. message_view m ≡ unnumbered self.now.config
            (births.turn_draft self.now.standing.asked.book
            (births.later_stamp self.now.standing.asked.stamp now) name.now up)) }
    {
        let stamp = self.later_stamp(now);
        if up {
            return self.device_birth(number, name, stamp);
        }
        Ok(Published {
            topic: device_topic(self.alloc, &self.config, Verb::Death, name)?,
            payload: Payload {
                timestamp: Some(stamp),
                metrics: Vec::new(self.alloc),
                seq: None,
            },
            stamp,
            opens: false,
        })
    }

    /// A device that comes up or goes down.
    pub(crate) fn turning(&self, now: u64, name: &str, up: bool) -> Result<Given, EdgeFault>
        ensures given { IfOk result (λ g. given_view g
            ≡ given_of self.now.config self.now.standing.asked.heard
            (rule.turning self.now.standing.asked now name.now up)) }
        ensures accepted { OnOk result (turn_refusal self.now.standing.asked.book name.now ≡ None) }
        ensures fault { IfErr result (λ e. (e ≡ EdgeFault.NoMemory) ⊎ ((r : Refusal)
            × (e ≡ EdgeFault.Device r)
            × (turn_refusal self.now.standing.asked.book name.now ≡ Some r))) }
    {
        let Some(number) = self.registry.device_number(name) else {
            return Err(EdgeFault::Device(spk_device::Refusal::NoSuch));
        };
        let mut given = self.nothing();
        if self.registry.is_device_up(name) == Some(up) {
            return Ok(given);
        }
        if let Phase::Born = self.tally.phase {
            given
                .messages
                .push(self.turn_message(now, number, name, up)?)?;
        }
        Ok(given)
    }
}
