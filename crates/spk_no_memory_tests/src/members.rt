//! An edge node, a host application, and a world.
use spk_device::{Owner, Registry};
use spk_edge::{EdgeConfig, EdgeNode, Numbering, Phase, Record};
use spk_host::{Host, HostConfig, HostFault};
use spk_payload::Value;
use spk_sequence::Width;
use spk_world::{Event, World};
use std::alloc::Global;
use std::process::Abort;

/// The node N of the group G, with the metrics `t` 7 (alias 1) and `s` "on" (alias 2).
fn setup(alloc: Global) -> Option<(EdgeConfig, Registry)> {
    let mut registry = Registry::new(alloc);
    let _alias = registry
        .add_metric(Owner::Node, "t", 3, Some(Value::Signed(7)))
        .ok()?;
    let on = Value::Words(String::from_str(alloc, "on").ok()?);
    let _alias = registry.add_metric(Owner::Node, "s", 12, Some(on)).ok()?;
    let config = EdgeConfig {
        group: String::from_str(alloc, "G").ok()?,
        node: String::from_str(alloc, "N").ok()?,
        primary: None,
        keep: 0,
        capacity: 1,
        numbering: Numbering::RunsOn,
    };
    Some((config, registry))
}

const FIRST: Record = Record {
    seq: 0,
    bd: 0,
    stamp: None,
};

/// What the tests ask of an edge node. What is written over any that answers it is proved without the parts of a node.
trait Joins {
    fn is_born(&mut self) -> bool;

    fn stands(&self) -> (Phase, Record, u64, usize);

    fn lose_connection(&mut self);

    fn sends_nothing_for(&mut self, value: &Option<Value>) -> bool;

    fn drains_nothing(&mut self) -> bool;
}

impl Joins for EdgeNode {
    /// It is born at 6, and has changed at 7.
    fn is_born(&mut self) -> bool {
        self.open(5).is_ok()
            && self.accepted(6).is_ok()
            && self.change(7, 1, &Some(Value::Signed(8))).is_ok()
    }

    fn stands(&self) -> (Phase, Record, u64, usize) {
        (self.phase(), self.record(), self.lost(), self.kept())
    }

    fn lose_connection(&mut self) {
        self.cut();
    }

    fn sends_nothing_for(&mut self, value: &Option<Value>) -> bool {
        match self.change(8, 2, value) {
            Ok(out) => out.packets.is_empty(),
            Err(_) => false,
        }
    }

    fn drains_nothing(&mut self) -> bool {
        match self.drain(9) {
            Ok(out) => out.packets.is_empty(),
            Err(_) => false,
        }
    }
}

fn node(alloc: Global) -> Option<EdgeNode> {
    let (config, registry) = setup(alloc)?;
    EdgeNode::new(alloc, config, FIRST, registry).ok()
}

/// What a test does on a node.
#[derive(Clone, Copy)]
enum Test {
    Cut,
    Same,
}

impl Test {
    fn play(self, rt: &(impl Abort + AllocGlobal), node: &mut impl Joins) {
        match self {
            Test::Cut => is_cut(rt, node),
            Test::Same => is_the_same(rt, node),
        }
    }
}

/// Makes a node, and has a test play on it. What holds a node itself stands here alone.
fn play_on(rt: &(impl Abort + AllocGlobal), test: Test) {
    if let Some(mut node) = node(rt.alloc()) {
        test.play(rt, &mut node);
    }
}

fn is_cut(rt: &impl Abort, node: &mut impl Joins) {
    if !node.is_born() {
        return;
    }
    let (phase, record, _, _) = node.stands();
    assert_eq!(rt; phase, Phase::Born);
    assert!(rt; record.seq == 2 && record.bd == 1 && record.stamp == Some(7));
    node.lose_connection();
    let (phase, _, lost, kept) = node.stands();
    assert_eq!(rt; phase, Phase::Idle);
    assert!(rt; lost == 0 && kept == 0);
}

#[test]
fn an_edge_node_is_cut(rt: HostRuntime) {
    play_on(&rt, Test::Cut);
}

/// The text that a node's second metric has.
fn text(alloc: Global) -> Option<Value> {
    Some(Value::Words(String::from_str(alloc, "on").ok()?))
}

fn is_the_same(rt: &(impl Abort + AllocGlobal), node: &mut impl Joins) {
    let Some(text) = text(rt.alloc()) else {
        return;
    };
    if node.is_born() {
        assert!(rt; node.sends_nothing_for(&Some(text)));
        assert!(rt; node.drains_nothing());
    }
}

#[test]
fn a_text_that_is_there_already_isnt_copied(rt: HostRuntime) {
    play_on(&rt, Test::Same);
}

fn host_config(alloc: Global) -> Option<HostConfig> {
    Some(HostConfig {
        name: String::from_str(alloc, "H0").ok()?,
        group: String::from_str(alloc, "G").ok()?,
        wait: 2_000,
        keep: 0,
        width: Width::new(64)?,
    })
}

/// What the tests ask of a host.
trait Hosts {
    fn begins(&mut self) -> bool;

    fn ends(&mut self);

    fn knows_nothing(&self) -> bool;

    fn ticks_in_vain(&mut self) -> bool;
}

impl Hosts for Host {
    fn begins(&mut self) -> bool {
        self.connected(0).is_ok()
    }

    fn ends(&mut self) {
        self.ended();
    }

    fn knows_nothing(&self) -> bool {
        self.nodes().is_empty()
            && self.view("G", "N").is_none()
            && self.phase("G", "N") == spk_sequence::Phase::Unknown
    }

    fn ticks_in_vain(&mut self) -> bool {
        matches!(self.tick(5), Err(HostFault::WrongPhase))
    }
}

fn host(alloc: Global) -> Option<Host> {
    Host::new(alloc, host_config(alloc)?).ok()
}

fn ends_its_session(rt: &impl Abort, host: &mut impl Hosts) {
    if host.begins() {
        host.ends();
        assert!(rt; host.knows_nothing());
        assert!(rt; host.ticks_in_vain());
    }
}

#[test]
fn a_host_session_ends(rt: HostRuntime) {
    if let Some(mut host) = host(rt.alloc()) {
        ends_its_session(&rt, &mut host);
    }
}

/// The host H0, which begins its session at 0.
fn world(alloc: Global) -> Option<World> {
    let mut nodes = Vec::new(alloc);
    nodes.push(setup(alloc)?).ok()?;
    let mut hosts = Vec::new(alloc);
    hosts.push(host_config(alloc)?).ok()?;
    World::new(alloc, nodes, hosts).ok()
}

/// What the tests ask of a world.
trait Worlds {
    fn is_done(&mut self, event: &Event) -> bool;

    fn published(&self, node: usize) -> Option<usize>;

    fn consumed(&self, host: usize, node: usize) -> Option<usize>;

    fn has_host(&self, host: usize) -> bool;

    fn shows(&self, host: usize, node: &str) -> Option<bool>;
}

impl Worlds for World {
    fn is_done(&mut self, event: &Event) -> bool {
        self.step(event).is_ok()
    }

    fn published(&self, node: usize) -> Option<usize> {
        World::published(self, node).map(|list| list.len())
    }

    fn consumed(&self, host: usize, node: usize) -> Option<usize> {
        World::consumed(self, host, node).map(|list| list.len())
    }

    fn has_host(&self, host: usize) -> bool {
        self.host(host).is_some()
    }

    /// Whether a host shows a node's `t`; none where there is no such host, or it knows no such node.
    fn shows(&self, host: usize, node: &str) -> Option<bool> {
        let view = self.host(host)?.view("G", node)?;
        Some(view.metric("t").is_some())
    }
}

/// The birth was handed to the host, and the change behind it wasn't.
fn runs(world: &mut impl Worlds) -> bool {
    let (host, node) = (0, 0);
    let change = Event::Set {
        node,
        now: 7,
        alias: 1,
        value: Some(Value::Signed(8)),
    };
    let hand = Event::Hand {
        host,
        node,
        position: 0,
        now: 8,
    };
    world.is_done(&Event::Open { node, now: 5 })
        && world.is_done(&Event::Accepted { node, now: 6 })
        && world.is_done(&change)
        && world.is_done(&hand)
}

fn looks_at(rt: &impl Abort, world: &mut impl Worlds) {
    if runs(world) {
        assert!(rt; world.published(0) == Some(2) && world.published(1).is_none());
        assert!(rt; world.consumed(0, 0) == Some(1) && world.consumed(1, 0).is_none());
        assert!(rt; world.has_host(0) && !world.has_host(1));
        assert!(rt; world.shows(0, "N") == Some(true));
        assert!(rt; world.shows(0, "M").is_none());
    }
}

#[test]
fn a_world_is_looked_at(rt: HostRuntime) {
    if let Some(mut world) = world(rt.alloc()) {
        looks_at(&rt, &mut world);
    }
}
