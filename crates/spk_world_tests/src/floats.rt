//! A Float and a Double on their way: from an edge node whose metrics may have all values, by the bytes of its packets, to what a host
//! shows. By whole values alone they are shown as another kind of value. Where memory was refused the call is made again.
use crate::acts::{Plays, config, host};
use spk_device::{Owner, Registry};
use spk_edge::{EdgeConfig, Numbering};
use spk_host::HostConfig;
use spk_host_rules::Shown;
use spk_payload::{Value, Values};
use spk_sequence::Width;
use spk_world::{Event, World, WorldFault};
use std::alloc::Global;
use std::process::Abort;

/// What is shown of a metric.
#[derive(Clone, Copy, Debug, PartialEq)]
enum Real {
    Float(u32),
    Double(u64),
    Nothing,
    Other,
}

trait ShowsReals: Plays {
    /// What the host 0 shows of a metric of the node N of the group G, by a choice of values.
    fn real(&self, metric: &str, values: Values) -> Option<Real>;
}

impl ShowsReals for World {
    fn real(&self, metric: &str, values: Values) -> Option<Real> {
        let view = self.host(0)?.view("G", "N")?;
        Some(match view.metric(metric)?.shown_by(values) {
            Shown::Nothing => Real::Nothing,
            Shown::Typed(Value::Float(bits)) => Real::Float(*bits),
            Shown::Typed(Value::Double(bits)) => Real::Double(*bits),
            _ => Real::Other,
        })
    }
}

/// 1.5, and 5.1.
const HALVES: u32 = 0x3fc0_0000;

const TENTHS: u64 = 0x4014_6666_6666_6666;
/// -0, and what isn't a number.
const NOTHING: u32 = 0x8000_0000;

const NO_NUMBER: u64 = 0x7ff8_0000_0000_0000;

/// The metric `f`, a Float, 1.5, of the alias 1, and `d`, a Double, 5.1, of the alias 2.
fn registry(alloc: Global) -> Option<Registry> {
    let mut registry = Registry::with_values(alloc, Values::All);
    let float = Some(Value::Float(HALVES));
    let double = Some(Value::Double(TENTHS));
    registry.add_metric(Owner::Node, "f", 9, float).ok()?;
    registry.add_metric(Owner::Node, "d", 10, double).ok()?;
    Some(registry)
}

fn nodes(alloc: Global) -> Option<Vec<(EdgeConfig, Registry)>> {
    match (
        config(alloc, "N", None, Numbering::Restarts),
        registry(alloc),
    ) {
        (Some(config), Some(registry)) => Vec::from_array(alloc, [(config, registry)]).ok(),
        _ => None,
    }
}

fn hosts(alloc: Global) -> Option<Vec<HostConfig>> {
    match host(alloc, "H", 2_000, Width::new(64)?) {
        Some(host) => Vec::from_array(alloc, [host]).ok(),
        None => None,
    }
}

fn once(alloc: Global) -> Option<World> {
    match (nodes(alloc), hosts(alloc)) {
        (Some(nodes), Some(hosts)) => World::new(alloc, nodes, hosts).ok(),
        _ => None,
    }
}

fn made(rt: &(impl Abort + AllocGlobal)) -> World {
    match once(rt.alloc()) {
        Some(world) => world,
        None => once(rt.alloc()).expect(rt, "memory is there again"),
    }
}

/// Whether it is done.
fn does(world: &mut impl ShowsReals, event: &Event) -> bool {
    match world.tell(event) {
        Err(WorldFault::NoMemory) => world.tell(event).is_ok(),
        answer => answer.is_ok(),
    }
}

fn set(alias: u64, value: Value) -> Event {
    Event::Set {
        node: 0,
        now: 8,
        alias,
        value: Some(value),
    }
}

fn hand(position: u64) -> Event {
    Event::Hand {
        host: 0,
        node: 0,
        position,
        now: 9,
    }
}

/// Whether the host shows these of the two, and by whole values alone another kind of value.
fn shows(world: &impl ShowsReals, float: u32, double: u64) -> bool {
    world.real("f", Values::All) == Some(Real::Float(float))
        && world.real("d", Values::All) == Some(Real::Double(double))
        && world.real("f", Values::Whole) == Some(Real::Other)
        && world.real("d", Values::Whole) == Some(Real::Other)
}

/// Births carry them, and changes do.
fn goes_on(world: &mut impl ShowsReals) -> bool {
    does(world, &Event::Open { node: 0, now: 5 })
        && does(world, &Event::Accepted { node: 0, now: 6 })
        && does(world, &hand(0))
        && shows(world, HALVES, TENTHS)
        && does(world, &set(1, Value::Float(NOTHING)))
        && does(world, &set(2, Value::Double(NO_NUMBER)))
        && does(world, &hand(1))
        && shows(world, NOTHING, TENTHS)
        && does(world, &hand(2))
        && shows(world, NOTHING, NO_NUMBER)
}

#[test]
fn a_host_shows_what_a_node_said(rt: HostRuntime) {
    assert!(rt; goes_on(&mut made(&rt)));
}

/// What isn't a number is the same as itself, and 0 isn't -0: the first is no change, the second is one.
fn tells_zeros_apart(world: &mut impl ShowsReals) -> bool {
    does(world, &Event::Open { node: 0, now: 5 })
        && does(world, &Event::Accepted { node: 0, now: 6 })
        && does(world, &set(1, Value::Float(0)))
        && does(world, &set(1, Value::Float(NOTHING)))
        && does(world, &set(2, Value::Double(NO_NUMBER)))
        && does(world, &set(2, Value::Double(NO_NUMBER)))
        && world.sent_by(0).len() == 4
}

#[test]
fn a_change_is_one_of_bits(rt: HostRuntime) {
    assert!(rt; tells_zeros_apart(&mut made(&rt)));
}
