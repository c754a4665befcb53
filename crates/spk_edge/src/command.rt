//! What a command asks (Sparkplug 3.0.0, chapter 6, NCMD and DCMD).
ghost use Rattle.std.specs.Prelude.{◌≡◌, ◌⊎◌, ◌&&◌, IfOk, IfErr, map, Some, None};
ghost use Rattle.std.specs.Option.{option_map, option_and_then};
ghost use Rattle.std.specs.Str.{bytes_eq};
ghost use Rattle.spk_payload.specs.Typing.{typed_of, typed_view};
ghost use Rattle.spk_payload.specs.View.{content_of, metric_view};
ghost use Rattle.spk_topics.specs.Spark as spark;
ghost use Rattle.spk_edge_rules.specs.Commands as rule;
ghost use Rattle.spk_edge.specs.Ordered.{order_view, target_view};
ghost use Rattle.spk_edge.specs.View.{config_view, write_view};

use crate::config::EdgeConfig;
use crate::message::Write;
use spk_device::{Alias, Owner, Registry};
use spk_edge_rules::EdgeFault;
use spk_payload::{Metric, PayloadFault, Raw, Value, Values, decode_as, typed};
use spk_topics::{Spark, TopicFault, Verb};
use std::alloc::{AllocError, Global};

/// To whom a command is: the node, or a device by its name.
#[derive(Drop)]
enum Target {
    Node,
    Device(String),
}

/// What a metric of a command asks: a rebirth or none, or a write.
#[derive(Drop)]
pub(crate) enum Order {
    Rebirth(bool),
    Writing(Write),
}

/// Whether names are those of a command to this node.
fn is_mine(config: &EdgeConfig, group: &str, kind: Verb, node: &str) -> bool
    ensures { result ≡ (rule.is_command kind && bytes_eq group.now (config_view config.now).group
        && bytes_eq node.now (config_view config.now).node) }
{
    match kind {
        Verb::Command => group == config.group.as_str() && node == config.node.as_str(),
        _ => false,
    }
}

/// To whom the command of a topic is, if it is a command to this node.
fn target_in(config: &EdgeConfig, topic: Spark) -> Option<Target>
    ensures { option_map target_view result ≡ rule.target_in (config_view config.now)
        (spark.named topic) }
{
    match topic {
        Spark::Node { group, kind, node } => {
            if is_mine(config, group.as_str(), kind, node.as_str()) {
                Some(Target::Node)
            } else {
                None
            }
        }
        Spark::Device {
            group,
            kind,
            node,
            device,
        } => {
            if is_mine(config, group.as_str(), kind, node.as_str()) {
                Some(Target::Device(device))
            } else {
                None
            }
        }
        Spark::State { .. } => None,
    }
}

/// To whom the command of a topic's text is, if it is a command to this node.
fn target_of(alloc: Global, config: &EdgeConfig, topic: &str) -> Result<Option<Target>, AllocError>
    ensures { IfOk result (λ target. option_map target_view target
        ≡ rule.target_of (config_view config.now) topic.now) }
{
    match Spark::read(alloc, topic) {
        Ok(topic) => Ok(target_in(config, topic)),
        Err(TopicFault::NoMemory) => Err(AllocError),
        Err(_) => Ok(None),
    }
}

/// Whose metrics a command may write.
fn target_owner(registry: &Registry, target: &Target) -> Option<Owner>
    ensures { result ≡ rule.target_owner registry.now (target_view target.now) }
{
    match target {
        Target::Node => Some(Owner::Node),
        Target::Device(name) => match registry.device_number(name.as_str()) {
            Some(number) => Some(Owner::Device(number)),
            None => None,
        },
    }
}

/// Whether a metric is the rebirth control.
fn is_control(target: &Target, metric: &Metric) -> bool
    ensures { result ≡ rule.is_control (target_view target.now) (metric_view metric.now) }
{
    match target {
        Target::Node => match &metric.name {
            Some(name) => name.as_str() == "Node Control/Rebirth",
            None => false,
        },
        Target::Device(_) => false,
    }
}

/// The value of a metric that isn't null.
fn content(metric: Metric) -> Option<Raw>
    ensures { option_map content_of result ≡ rule.content_in (metric_view metric) }
{
    let Metric { null, value, .. } = metric;
    match null {
        Some(true) => None,
        _ => value,
    }
}

/// A value that is a flag.
fn flag(value: Option<Raw>) -> Option<bool>
    ensures { result ≡ option_and_then rule.flag_in (option_map content_of value) }
{
    match value {
        Some(Raw::Flag(flag)) => Some(flag),
        _ => None,
    }
}

/// A value of a datatype.
fn value_of(datatype: u32, value: Option<Raw>) -> Option<Value>
    ensures { option_map typed_view result ≡ option_and_then (typed_of datatype)
        (option_map content_of value) }
{
    match typed(datatype, value?) {
        Ok(value) => Some(value),
        Err(_) => None,
    }
}

/// The alias that a metric names.
fn alias_in(registry: &Registry, owner: Owner, metric: &Metric) -> Option<Alias>
    ensures { result ≡ rule.alias_in registry.now owner (metric_view metric.now) }
{
    match metric.alias {
        Some(alias) => Some(alias),
        None => match &metric.name {
            Some(name) => registry.alias_of(owner, name.as_str()),
            None => None,
        },
    }
}

/// The datatype of an owner's metric.
fn datatype_of(registry: &Registry, owner: Owner, alias: Alias) -> Option<u32>
    ensures { result ≡ option_map (λ g. g.datatype) (rule.owned_gauge registry.now owner alias) }
{
    match registry.metric(alias) {
        Some(gauge) if owner.is_same(gauge.owner) => Some(gauge.datatype),
        _ => None,
    }
}

/// The write of a metric's value.
fn writing(registry: &Registry, owner: Owner, metric: Metric) -> Option<Order>
    ensures { option_map order_view result ≡ rule.writing_of registry.now
        (metric_view metric) owner }
{
    let alias = alias_in(registry, owner, &metric)?;
    let datatype = datatype_of(registry, owner, alias)?;
    let value = value_of(datatype, content(metric))?;
    Some(Order::Writing(Write { alias, value }))
}

/// What a metric asks, if it is something that can be done.
fn order_of(registry: &Registry, target: &Target, metric: Metric) -> Option<Order>
    ensures { option_map order_view result ≡ rule.order_of registry.now (target_view target.now)
        (metric_view metric) }
{
    if is_control(target, &metric) {
        match flag(content(metric)) {
            Some(asked) => Some(Order::Rebirth(asked)),
            None => None,
        }
    } else {
        match target_owner(registry, target) {
            Some(owner) => writing(registry, owner, metric),
            None => None,
        }
    }
}

/// What each metric asks, in order.
fn orders_in(
    alloc: Global,
    registry: &Registry,
    target: &Target,
    metrics: Vec<Metric>,
) -> Result<Vec<Order>, EdgeFault>
    ensures some { IfOk result (λ orders. rule.orders_of registry.now (target_view target.now)
        (map metric_view metrics.items)
        ≡ Some (map order_view orders.items)) }
    ensures fault { IfErr result (λ e. (e ≡ EdgeFault.NoMemory) ⊎ ((e ≡ EdgeFault.BadCommand)
        × (rule.orders_of registry.now (target_view target.now) (map metric_view metrics.items)
        ≡ None))) }
{
    let mut orders = Vec::with_capacity(alloc, metrics.len())?;
    for metric in metrics {
        match order_of(registry, target, metric) {
            Some(order) => orders.push(order)?,
            None => return Err(EdgeFault::BadCommand),
        }
    }
    Ok(orders)
}

/// The orders of a command: what each of its metrics asks, in order. BadCommand where it isn't a command to this node, or
/// can't be read or done whole.
pub(crate) fn orders_of(
    alloc: Global,
    config: &EdgeConfig,
    registry: &Registry,
    topic: &str,
    payload: &[u8],
) -> Result<Vec<Order>, EdgeFault>
    ensures some { IfOk result (λ orders. rule.command_of
        (config_view config.now) registry.now topic.now payload.now
        ≡ Some (map order_view orders.items)) }
    ensures fault { IfErr result (λ e. (e ≡ EdgeFault.NoMemory) ⊎ ((e ≡ EdgeFault.BadCommand)
        × (rule.command_of (config_view config.now) registry.now topic.now payload.now ≡ None))) }
{
    let Some(target) = target_of(alloc, config, topic)? else {
        return Err(EdgeFault::BadCommand);
    };
    match decode_as(alloc, Values::All, payload) {
        Ok(payload) => orders_in(alloc, registry, &target, payload.metrics),
        Err(PayloadFault::NoMemory) => Err(EdgeFault::NoMemory),
        Err(_) => Err(EdgeFault::BadCommand),
    }
}

/// Whether one of the orders is a rebirth.
pub(crate) fn wants_rebirth(orders: &[Order]) -> bool
    ensures { result ≡ rule.wants_rebirth (map order_view orders.now) }
{
    let mut asked = false;
    for order in orders {
        if let Order::Rebirth(true) = order {
            asked = true;
        }
    }
    asked
}

/// The writes among the orders, in order.
pub(crate) fn writes_in(alloc: Global, orders: Vec<Order>) -> Result<Vec<Write>, AllocError>
    ensures { IfOk result (λ writes. map write_view writes.items
        ≡ rule.writes_in (map order_view orders.items)) }
{
    let mut writes = Vec::with_capacity(alloc, orders.len())?;
    for order in orders {
        if let Order::Writing(write) = order {
            writes.push(write)?;
        }
    }
    Ok(writes)
}
