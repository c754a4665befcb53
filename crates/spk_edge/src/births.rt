//! Births (Sparkplug 3.0.0, chapter 6, NBIRTH and DBIRTH).
ghost use Rattle.std.specs.Prelude.{◌≡◌, ◌∷◌, ◌++◌, [], IfOk, IfErr, OnOk, map, true, false, ◌⊎◌, ◌≤◌, ◌^◌, Some, string_bytes};
ghost use Rattle.std.specs.Option.{option_map};
ghost use Rattle.spk_payload.specs.View.{metric_view};
ghost use Rattle.spk_device.specs.Book.{births_of, device_at, has_owner};
ghost use Rattle.spk_edge_rules.specs.Births as births;
ghost use Rattle.spk_edge.specs.Listed.{birth_if_up, device_message};
ghost use Rattle.spk_edge_rules.specs.Rules as rule;
ghost use Rattle.spk_edge.specs.Ordered.{order_view};
ghost use Rattle.spk_edge.specs.View.{config_view, given_of, given_view, message_view, unnumbered};

use crate::command::{Order, wants_rebirth, writes_in};
use crate::message::{Given, Published};
use crate::node::EdgeNode;
use crate::texts::{device_topic, node_topic, session_metric};
use spk_device::{DeviceFault, Owner};
use spk_edge_rules::{EdgeFault, Phase};
use spk_payload::{Metric, Payload, Raw};
use spk_topics::Verb;
use std::alloc::{AllocError, Global};

/// The metrics get the stamp of their birth.
fn stamp_metrics(metrics: &mut [Metric], stamp: u64)
    ensures { map metric_view metrics.new ≡ map (births.stamped stamp)
        (map metric_view metrics.old) }
{
    for metric in metrics.iter_mut() {
        metric.timestamp = Some(stamp);
    }
}

/// The metric `Node Control/Rebirth`.
fn rebirth_metric(alloc: Global, stamp: u64) -> Result<Metric, AllocError>
    ensures { IfOk result (λ m. metric_view m ≡ births.rebirth_metric stamp) }
{
    Ok(Metric {
        name: Some(String::from_str(alloc, "Node Control/Rebirth")?),
        alias: None,
        timestamp: Some(stamp),
        datatype: Some(11),
        historical: None,
        transient: None,
        null: None,
        value: Some(Raw::Flag(false)),
    })
}

impl EdgeNode {
    /// The metrics of an owner that is there, as its birth lists them.
    fn own_metrics(&self, stamp: u64, owner: Owner) -> Result<Vec<Metric>, AllocError>
        requires { has_owner self.now.standing.asked.book owner ≡ true }
        ensures { IfOk result (λ ms. map metric_view ms.items
            ≡ births.own_metrics self.now.standing.asked.book stamp owner) }
    {
        match self.registry.births(owner) {
            Ok(mut metrics) => {
                stamp_metrics(&mut metrics, stamp);
                Ok(metrics)
            }
            Err(DeviceFault::NoMemory) => Err(AllocError),
            Err(DeviceFault::Refused(_)) => unreachable!(),
        }
    }

    /// The metrics of an NBIRTH.
    fn node_metrics(&self, stamp: u64) -> Result<Vec<Metric>, AllocError>
        ensures { IfOk result (λ ms. map metric_view ms.items
            ≡ (births.node_birth self.now.standing.asked.book self.now.standing.asked.will_bd
            stamp).metrics) }
    {
        let mut own = self.own_metrics(stamp, Owner::Node)?;
        let mut metrics = Vec::with_capacity(self.alloc, own.len() + 2)?;
        metrics.push(session_metric(self.alloc, self.tally.will_bd, Some(stamp))?)?;
        metrics.push(rebirth_metric(self.alloc, stamp)?)?;
        metrics.append(&mut own)?;
        Ok(metrics)
    }

    /// NBIRTH.
    fn node_birth(&self, stamp: u64) -> Result<Published, AllocError>
        ensures { IfOk result (λ m. message_view m ≡ unnumbered self.now.config
            (births.node_birth self.now.standing.asked.book self.now.standing.asked.will_bd
            stamp)) }
    {
        let topic = node_topic(self.alloc, &self.config, Verb::Birth)?;
        let metrics = self.node_metrics(stamp)?;
        Ok(Published {
            topic,
            payload: Payload {
                timestamp: Some(stamp),
                metrics,
                seq: None,
            },
            stamp,
            opens: true,
        })
    }

    /// DBIRTH of the device of a number and a name.
    pub(crate) fn device_birth(
        &self,
        number: usize,
        name: &str,
        stamp: u64,
    ) -> Result<Published, AllocError>
        requires { has_owner self.now.standing.asked.book (Owner.Device number) ≡ true }
        ensures { IfOk result (λ m. message_view m
            ≡ device_message self.now.config self.now.standing.asked.book stamp
            (number, record { name = name.now; up = true })) }
    {
        let topic = device_topic(self.alloc, &self.config, Verb::Birth, name)?;
        let metrics = self.own_metrics(stamp, Owner::Device(number))?;
        Ok(Published {
            topic,
            payload: Payload {
                timestamp: Some(stamp),
                metrics,
                seq: None,
            },
            stamp,
            opens: false,
        })
    }

    /// The DBIRTH of a device, if it is up, behind other births.
    fn push_birth(
        &self,
        messages: &mut Vec<Published>,
        number: usize,
        stamp: u64,
    ) -> Result<(), AllocError>
        ensures { OnOk result (map message_view messages.new.items
            ≡ map message_view messages.old.items
            ++ birth_if_up self.now.config self.now.standing.asked.book stamp number
            (device_at self.now.standing.asked.book number)) }
    {
        if let Some(name) = self.registry.device_name(number) {
            if self.registry.is_up(number) == Some(true) {
                messages.push(self.device_birth(number, name, stamp)?)?;
            }
        }
        Ok(())
    }

    /// One NBIRTH, and a DBIRTH for each device that is up, in order of adding.
    pub(crate) fn births(&self, stamp: u64) -> Result<Vec<Published>, AllocError>
        ensures { IfOk result (λ ms. map message_view ms.items ≡ map (unnumbered self.now.config)
            (births.births_at self.now.standing.asked.book self.now.standing.asked.will_bd stamp)) }
    {
        let count = self.registry.device_count();
        let mut messages = Vec::with_capacity(self.alloc, count + 1)?;
        messages.push(self.node_birth(stamp)?)?;
        for number in 0..count {
            self.push_birth(&mut messages, number, stamp)?;
        }
        Ok(messages)
    }

    /// The stamp of an NBIRTH; ClockEnd where there is none below 2^63.
    pub(crate) fn birth_stamp(&self, now: u64) -> Result<u64, EdgeFault>
        ensures stamp { IfOk result (λ s. s
            ≡ births.birth_stamp self.now.standing.asked.stamp now) }
        ensures fault { IfErr result (λ e. (e ≡ EdgeFault.ClockEnd)
            × (2 ^ 63 ≤ births.birth_stamp self.now.standing.asked.stamp now)) }
    {
        match self.tally.stamp {
            None => Ok(now),
            Some(last) => {
                if last >= 1 << 63 {
                    return Err(EdgeFault::ClockEnd);
                }
                Ok(now.max(last + 1))
            }
        }
    }

    /// The births, beside what was given, and the phase Born; ClockEnd where the NBIRTH has no stamp below 2^63.
    pub(crate) fn bearing(&self, now: u64, given: Given) -> Result<Given, EdgeFault>
        ensures given { IfOk result (λ g. given_view g ≡ record (given_view given) {
          messages = map (unnumbered self.now.config) (births.births_at self.now.standing.asked.book
              self.now.standing.asked.will_bd
              (births.birth_stamp self.now.standing.asked.stamp now));
          phase = Phase.Born;
        }) }
        ensures fault { IfErr result (λ e. (e ≡ EdgeFault.NoMemory) ⊎ ((e ≡ EdgeFault.ClockEnd)
            × (2 ^ 63 ≤ births.birth_stamp self.now.standing.asked.stamp now))) }
    {
        let stamp = self.birth_stamp(now)?;
        let mut given = given;
        given.messages = self.births(stamp)?;
        given.phase = Phase::Born;
        Ok(given)
    }

    /// The writes, and the births where a rebirth is asked for of a node that is Born.
    pub(crate) fn obeying(&self, now: u64, orders: Vec<Order>) -> Result<Given, EdgeFault>
        ensures given { IfOk result (λ g. given_view g
            ≡ given_of self.now.config self.now.standing.asked.heard
            (rule.obeying self.now.standing.asked now (map order_view orders.items))) }
        ensures fault { IfErr result (λ e. (e ≡ EdgeFault.NoMemory) ⊎ ((e ≡ EdgeFault.ClockEnd)
            × (rule.is_timely (rule.obeying self.now.standing.asked now
            (map order_view orders.items)) ≡ false))) }
    {
        let asked = wants_rebirth(&orders) && self.tally.phase == Phase::Born;
        let mut given = self.nothing();
        given.writes = writes_in(self.alloc, orders)?;
        if asked {
            return self.bearing(now, given);
        }
        Ok(given)
    }

    /// SUBSCRIBE, and the births where there is no primary host.
    pub(crate) fn accepting(&self, now: u64) -> Result<Given, EdgeFault>
        ensures given { IfOk result (λ g. given_view g
            ≡ given_of self.now.config self.now.standing.asked.heard
            (rule.accepting self.now.config self.now.standing.asked now)) }
        ensures fault { IfErr result (λ e. (e ≡ EdgeFault.NoMemory) ⊎ ((e ≡ EdgeFault.ClockEnd)
            × (rule.is_timely (rule.accepting self.now.config self.now.standing.asked now)
            ≡ false))) }
    {
        let mut given = self.joining()?;
        if self.config.primary.is_none() {
            let stamp = self.birth_stamp(now)?;
            given.messages = self.births(stamp)?;
            given.phase = Phase::Born;
        }
        Ok(given)
    }
}
