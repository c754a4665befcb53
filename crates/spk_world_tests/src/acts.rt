//! What the tests ask of a world, worlds of one node and one host, and what happens to them. The tests are written over any
//! type that answers what they ask, since a function over a type parameter is proved without the parts of a world.
use spk_device::{Owner, Registry};
use spk_edge::{EdgeConfig, Numbering};
use spk_host::HostConfig;
use spk_payload::Value;
use spk_sequence::Width;
use spk_world::{Consumed, Done, Event, Published, World, WorldFault};
use std::alloc::Global;
use std::process::Abort;

/// What the tests ask of a world.
pub(crate) trait Plays {
    fn tell(&mut self, event: &Event) -> Result<Done, WorldFault>;

    /// What a node published; nothing where there is no such node.
    fn sent_by(&self, node: usize) -> &[Published];

    /// What a host consumed of a node; nothing where one of them isn't there.
    fn heard_by(&self, host: usize, node: usize) -> &[Consumed];

    fn has_host(&self, host: usize) -> bool;
}

impl Plays for World {
    fn tell(&mut self, event: &Event) -> Result<Done, WorldFault> {
        self.step(event)
    }

    fn sent_by(&self, node: usize) -> &[Published] {
        self.published(node).unwrap_or(&[])
    }

    fn heard_by(&self, host: usize, node: usize) -> &[Consumed] {
        self.consumed(host, node).unwrap_or(&[])
    }

    fn has_host(&self, host: usize) -> bool {
        self.host(host).is_some()
    }
}

/// What the tests ask of a registry.
pub(crate) trait Registers {
    fn put_metric(
        &mut self,
        owner: Owner,
        name: &str,
        datatype: u32,
        value: Option<i64>,
    ) -> Option<()>;

    fn put_device(&mut self, name: &str) -> Option<()>;
}

impl Registers for Registry {
    fn put_metric(
        &mut self,
        owner: Owner,
        name: &str,
        datatype: u32,
        value: Option<i64>,
    ) -> Option<()> {
        let value = match value {
            Some(value) => Some(Value::Signed(value)),
            None => None,
        };
        match self.add_metric(owner, name, datatype, value) {
            Ok(_) => Some(()),
            Err(_) => None,
        }
    }

    fn put_device(&mut self, name: &str) -> Option<()> {
        self.add_device(name).ok()
    }
}

/// A text. Where memory was refused it is made again.
pub(crate) fn text(alloc: Global, words: &str) -> Option<String> {
    match String::from_str(alloc, words) {
        Ok(text) => Some(text),
        Err(_) => String::from_str(alloc, words).ok(),
    }
}

/// A node of the group G that keeps three changes.
pub(crate) fn config(
    alloc: Global,
    node: &str,
    primary: Option<&str>,
    numbering: Numbering,
) -> Option<EdgeConfig> {
    match (
        primary_of(alloc, primary),
        text(alloc, "G"),
        text(alloc, node),
    ) {
        (Some(primary), Some(group), Some(node)) => Some(EdgeConfig {
            group,
            node,
            primary,
            keep: 0,
            capacity: 3,
            numbering,
        }),
        _ => None,
    }
}

fn primary_of(alloc: Global, primary: Option<&str>) -> Option<Option<String>> {
    match primary {
        Some(host) => Some(Some(text(alloc, host)?)),
        None => Some(None),
    }
}

/// A host of the group G.
pub(crate) fn host(alloc: Global, name: &str, wait: u64, width: Width) -> Option<HostConfig> {
    match (text(alloc, name), text(alloc, "G")) {
        (Some(name), Some(group)) => Some(HostConfig {
            name,
            group,
            wait,
            keep: 0,
            width,
        }),
        _ => None,
    }
}

/// The metric `t`, an Int32, 7, of the alias 1, and perhaps the device D.
fn fill(registry: &mut impl Registers, has_device: bool) -> Option<()> {
    registry.put_metric(Owner::Node, "t", 3, Some(7))?;
    if has_device {
        registry.put_device("D")?;
    }
    Some(())
}

fn registry(alloc: Global, has_device: bool) -> Option<Registry> {
    let mut registry = Registry::new(alloc);
    match fill(&mut registry, has_device) {
        Some(()) => Some(registry),
        None => None,
    }
}

fn nodes(
    alloc: Global,
    numbering: Numbering,
    has_device: bool,
) -> Option<Vec<(EdgeConfig, Registry)>> {
    match (
        config(alloc, "N", None, numbering),
        registry(alloc, has_device),
    ) {
        (Some(config), Some(registry)) => Vec::from_array(alloc, [(config, registry)]).ok(),
        _ => None,
    }
}

fn hosts(alloc: Global) -> Option<Vec<HostConfig>> {
    match host(alloc, "H", 2_000, Width::new(64)?) {
        Some(host) => Vec::from_array(alloc, [host]).ok(),
        None => None,
    }
}

fn once(alloc: Global, numbering: Numbering, has_device: bool) -> Option<World> {
    match (nodes(alloc, numbering, has_device), hosts(alloc)) {
        (Some(nodes), Some(hosts)) => World::new(alloc, nodes, hosts).ok(),
        _ => None,
    }
}

/// Node N of group G, and host H of that group, which waits 2,000 milliseconds and has 64 places. Where memory was refused
/// the world is made again.
pub(crate) fn world(
    rt: &(impl Abort + AllocGlobal),
    numbering: Numbering,
    has_device: bool,
) -> World {
    match once(rt.alloc(), numbering, has_device) {
        Some(world) => world,
        None => once(rt.alloc(), numbering, has_device).expect(rt, "memory is there again"),
    }
}

/// What happens in the tables.
#[derive(Clone, Copy)]
pub(crate) enum Act {
    Open(u64),
    Accepted(u64),
    Set(i64, u64),
    DeviceUp(u64),
    Rebirth(u64),
    Cut,
    Hand(u64, u64),
    Death(u64, u64),
    Tick(u64),
    Drain(u64),
    /// What is no node's, and no host's.
    OpenOfNone(u64),
    TickOfNone(u64),
    Session(u64),
}

/// An event of the node 0 or the host 0.
pub(crate) fn event(alloc: Global, act: Act) -> Option<Event> {
    let (host, node) = (0, 0);
    Some(match act {
        Act::Open(now) => Event::Open { node, now },
        Act::Accepted(now) => Event::Accepted { node, now },
        Act::Set(value, now) => Event::Set {
            node,
            now,
            alias: 1,
            value: Some(Value::Signed(value)),
        },
        Act::DeviceUp(now) => Event::Device {
            node,
            now,
            name: text(alloc, "D")?,
            up: true,
        },
        Act::Rebirth(now) => Event::Rebirth { node, now },
        Act::Cut => Event::Cut { node },
        Act::Hand(position, now) => Event::Hand {
            host,
            node,
            position,
            now,
        },
        Act::Death(session, now) => Event::Death {
            host,
            node,
            session,
            now,
        },
        Act::Tick(now) => Event::Tick { host, now },
        Act::Drain(now) => Event::Drain { node, now },
        Act::OpenOfNone(now) => Event::Open { node: 1, now },
        Act::TickOfNone(now) => Event::Tick { host: 1, now },
        Act::Session(now) => Event::Session { host, now },
    })
}

/// An act, and its answer.
pub(crate) type Row = (Act, Result<Done, WorldFault>);

/// How many messages were published, and how many consumed.
pub(crate) fn sizes(world: &impl Plays) -> (usize, usize) {
    (world.sent_by(0).len(), world.heard_by(0, 0).len())
}

/// The answer to an event. Where memory is refused nothing has changed, and it comes again; none where something has.
fn told(world: &mut impl Plays, event: &Event) -> Option<Result<Done, WorldFault>> {
    let before = sizes(world);
    match world.tell(event) {
        Err(WorldFault::NoMemory) if sizes(world) != before => None,
        Err(WorldFault::NoMemory) => Some(world.tell(event)),
        answer => Some(answer),
    }
}

/// Whether an act has this answer.
pub(crate) fn is_answered(alloc: Global, world: &mut impl Plays, row: &Row) -> bool {
    match event(alloc, row.0) {
        Some(event) => told(world, &event) == Some(row.1),
        None => false,
    }
}

/// Each act has its answer.
pub(crate) fn all_answer(rt: &(impl Abort + AllocGlobal), world: &mut impl Plays, rows: &[Row]) {
    for (place, row) in rows.iter().enumerate() {
        assert!(rt; is_answered(rt.alloc(), world, row), "at {place}");
    }
}

/// Whether what the host consumed is at these positions.
pub(crate) fn are_at(consumed: &[Consumed], positions: &[u64]) -> bool {
    for (message, position) in consumed.iter().zip(positions) {
        if message.position != *position {
            return false;
        }
    }
    consumed.len() == positions.len()
}
