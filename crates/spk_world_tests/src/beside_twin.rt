//! Long runs of three nodes and two hosts beside a second, plain telling of the rules. Node 0 runs on, node 1 runs on and
//! has a primary host, node 2's numbers restart. Each has the metrics `t`, `s` and `f` (aliases 1 to 3), and the device D
//! with its own `t` (alias 4).
use crate::acts::{Plays, Registers, config, host, text};
use crate::twin::{Hearer, Pair, Source, Twin};
use spk_device::{Owner, Registry};
use spk_edge::{EdgeConfig, EdgeFault, Numbering};
use spk_host::HostConfig;
use spk_payload::Value;
use spk_sequence::{Match, Step, Width};
use spk_world::{Consumed, Done, Event, Published, World, WorldFault};
use std::alloc::Global;
use std::process::Abort;

/// How many nodes and hosts there are.
const NODES: usize = 3;

const HOSTS: usize = 2;

/// How many events a run has, and the milliseconds from one to the next.
const EVENTS: u64 = 20_000;

const PACE: u64 = 10;

/// A number that the run's next choice is made by.
#[derive(Drop)]
struct Dice {
    seed: u64,
}

impl Dice {
    /// One of so many sides, from 0.
    fn roll(&mut self, sides: u64) -> u64 {
        self.seed = self
            .seed
            .wrapping_mul(6_364_136_223_846_793_005)
            .wrapping_add(1_442_695_040_888_963_407);
        let pick = self.seed >> 33;
        pick.checked_rem(sides).unwrap_or(0)
    }
}

/// The metrics and the device.
fn fill(registry: &mut impl Registers) -> Option<()> {
    registry.put_metric(Owner::Node, "t", 3, None)?;
    registry.put_metric(Owner::Node, "s", 12, None)?;
    registry.put_metric(Owner::Node, "f", 11, None)?;
    registry.put_device("D")?;
    registry.put_metric(Owner::Device(0), "t", 3, None)
}

fn registry(alloc: Global) -> Option<Registry> {
    let mut registry = Registry::new(alloc);
    match fill(&mut registry) {
        Some(()) => Some(registry),
        None => None,
    }
}

/// A node's name, its primary host and its numbering.
type Node = (&'static str, Option<&'static str>, Numbering);

fn made(alloc: Global, node: Node) -> Option<(EdgeConfig, Registry)> {
    match (config(alloc, node.0, node.1, node.2), registry(alloc)) {
        (Some(config), Some(registry)) => Some((config, registry)),
        _ => None,
    }
}

const WAITS: [u64; HOSTS] = [150, 1_500];

static EDGES: [Node; NODES] = [
    ("A", None, Numbering::RunsOn),
    ("B", Some("H0"), Numbering::RunsOn),
    ("C", None, Numbering::Restarts),
];

fn nodes(alloc: Global) -> Option<Vec<(EdgeConfig, Registry)>> {
    let mut nodes = Vec::new(alloc);
    match put_nodes(alloc, &mut nodes) {
        Some(()) => Some(nodes),
        None => None,
    }
}

fn put_nodes(alloc: Global, nodes: &mut Vec<(EdgeConfig, Registry)>) -> Option<()> {
    for node in &EDGES {
        nodes.push(made(alloc, *node)?).ok()?;
    }
    Some(())
}

fn hosts(alloc: Global, width: Width) -> Option<Vec<HostConfig>> {
    let mut hosts = Vec::new(alloc);
    match put_hosts(alloc, &mut hosts, width) {
        Some(()) => Some(hosts),
        None => None,
    }
}

fn put_hosts(alloc: Global, hosts: &mut Vec<HostConfig>, width: Width) -> Option<()> {
    hosts.push(host(alloc, "H0", WAITS[0], width)?).ok()?;
    hosts.push(host(alloc, "H1", WAITS[1], width)?).ok()
}

fn world(alloc: Global, width: Width) -> Option<World> {
    match (nodes(alloc), hosts(alloc, width)) {
        (Some(nodes), Some(hosts)) => World::new(alloc, nodes, hosts).ok(),
        _ => None,
    }
}

fn twin(alloc: Global, width: u64) -> Option<Twin> {
    let mut nodes = Vec::with_capacity(alloc, NODES).ok()?;
    for restarts in [false, false, true] {
        nodes.push(Source::new(alloc, restarts)).ok()?;
    }
    let mut hosts = Vec::with_capacity(alloc, HOSTS).ok()?;
    for wait in WAITS {
        hosts.push(Hearer::new(alloc, wait, NODES)).ok()?;
    }
    Some(Twin {
        width,
        nodes,
        hosts,
    })
}

/// A value: mostly one of the metric's type.
fn value_of(alloc: Global, dice: &mut Dice, alias: u64) -> Option<Option<Value>> {
    let pick = dice.roll(10);
    if pick == 0 {
        return Some(None);
    }
    if pick == 1 || alias == 3 {
        return Some(Some(Value::Flag(dice.roll(2) == 0)));
    }
    if alias == 2 {
        let words = if pick < 5 { "up and down" } else { "down" };
        return Some(Some(Value::Words(text(alloc, words)?)));
    }
    Some(Some(Value::Signed(i64::from((dice.roll(200) % 256) as u8))))
}

/// An event of a node.
fn edge_event(alloc: Global, dice: &mut Dice, node: usize, now: u64) -> Option<Event> {
    Some(match dice.roll(32) {
        0..=3 => Event::Open { node, now },
        4..=7 => Event::Accepted { node, now },
        8 => Event::Cut { node },
        9 => Event::Stop { node, now },
        10..=11 => Event::Rebirth { node, now },
        12..=15 => Event::State {
            node,
            now,
            online: dice.roll(6) != 0,
            timestamp: now,
        },
        16..=17 => Event::Drain { node, now },
        18..=19 => Event::Device {
            node,
            now,
            name: text(alloc, if dice.roll(9) == 0 { "E" } else { "D" })?,
            up: dice.roll(2) == 0,
        },
        _ => {
            let alias = dice
                .roll(5)
                .saturating_add(if dice.roll(20) == 0 { 0 } else { 1 });
            Event::Set {
                node,
                now,
                alias,
                value: value_of(alloc, dice, alias)?,
            }
        }
    })
}

/// A position near what a host awaits of a node, or far from it.
fn position_of(dice: &mut Dice, node: &Source, pair: &Pair, width: u64) -> u64 {
    let next = pair.next();
    let reach = pair
        .greatest()
        .map_or(0, |greatest| greatest.saturating_add(1));
    let newer = pair.taken.map_or(0, |taken| taken.saturating_add(1));
    match dice.roll(20) {
        // in order, or the next birth
        0..=6 if pair.follows => next,
        0..=6 => node
            .birth_from(newer.max(reach.saturating_sub(width)))
            .unwrap_or(next),
        7 => node.birth_from(newer).unwrap_or(next),
        // displaced within the window, and at its ends
        8..=9 => next.saturating_add(dice.roll(4)),
        10 => next.saturating_add(dice.roll(width.saturating_add(1))),
        11 => next
            .saturating_add(width)
            .saturating_add(dice.roll(3))
            .saturating_sub(1),
        12 => reach
            .saturating_add(254)
            .saturating_sub(width.saturating_mul(2))
            .saturating_add(dice.roll(4)),
        13 => reach
            .saturating_add(dice.roll(4))
            .saturating_sub(width.saturating_add(2)),
        // repeats
        14 => next.saturating_sub(dice.roll(width.saturating_add(2)).saturating_add(1)),
        15 => pair.taken.unwrap_or(0),
        // anywhere
        16 => dice.roll(node.length().saturating_add(2)),
        17 => node.birth_from(dice.roll(node.length())).unwrap_or(0),
        18 => node.birth_from(newer).unwrap_or(0),
        _ => reach.saturating_add(dice.roll(3)),
    }
}

/// A session near that of the birth taken last, or far from it.
fn session_of(dice: &mut Dice, node: &Source, pair: &Pair) -> u64 {
    let taken = pair.taken.and_then(|taken| node.message(taken));
    let session = taken.map_or(0, |sent| sent.session);
    match dice.roll(8) {
        0..=2 => session,
        3 => session.saturating_add(1),
        4 => session.saturating_sub(1),
        5 => session.saturating_add(255).saturating_add(dice.roll(2)),
        6 => dice.roll(node.sessions.saturating_add(2)),
        _ => session.saturating_sub(dice.roll(2).saturating_add(255)),
    }
}

/// An event of a host.
fn host_event(dice: &mut Dice, twin: &Twin, host: usize, node: usize, now: u64) -> Event {
    let kind = dice.roll(1_000);
    if kind < 2 {
        return Event::Session { host, now };
    }
    if kind < 60 {
        let later = dice.roll(4).saturating_mul(100);
        return Event::Tick {
            host,
            now: now.saturating_add(later),
        };
    }
    let (Some(source), Some(pair)) = (twin.nodes.get(node), twin.pair(host, node)) else {
        return Event::Hand {
            host,
            node,
            position: 0,
            now,
        };
    };
    if kind < 100 {
        return Event::Death {
            host,
            node,
            session: session_of(dice, source, pair),
            now,
        };
    }
    Event::Hand {
        host,
        node,
        position: position_of(dice, source, pair, twin.width),
        now,
    }
}

/// The event of a turn. At three times one node opens and cuts connections only, so that its sessions are many; and the
/// hosts are behind at some times, and catch up at others.
fn event_of(alloc: Global, dice: &mut Dice, twin: &Twin, turn: u64) -> Option<Event> {
    let now = turn.saturating_mul(PACE).saturating_sub(dice.roll(25));
    if turn % 6_000 >= 5_400 {
        let node = (turn / 6_000) as usize;
        return Some(if turn % 2 == 0 {
            Event::Open { node, now }
        } else {
            Event::Cut { node }
        });
    }
    let (mut host, mut node) = (dice.roll(2) as usize, dice.roll(3) as usize);
    if dice.roll(200) == 0 {
        host = HOSTS;
    }
    if dice.roll(200) == 0 {
        node = NODES;
    }
    let is_behind = turn % 1_000 < 300;
    if dice.roll(10) < (if is_behind { 8 } else { 3 }) {
        let is_last = dice.roll(100) == 0;
        return edge_event(alloc, dice, node, if is_last { 1 << 63 } else { now });
    }
    Some(host_event(dice, twin, host, node, now))
}

/// The node of an event of nodes, and whether it opens a session.
fn told_node(event: &Event) -> Option<(usize, bool)> {
    match event {
        Event::Open { node, now: _ } => Some((*node, true)),
        Event::Accepted { node, now: _ }
        | Event::Drain { node, now: _ }
        | Event::Stop { node, now: _ }
        | Event::Rebirth { node, now: _ } => Some((*node, false)),
        Event::Cut { node } => Some((*node, false)),
        Event::Set {
            node,
            now: _,
            alias: _,
            value: _,
        } => Some((*node, false)),
        Event::Device {
            node,
            now: _,
            name: _,
            up: _,
        } => Some((*node, false)),
        Event::State {
            node,
            now: _,
            online: _,
            timestamp: _,
        } => Some((*node, false)),
        _ => None,
    }
}

/// Whether an answer says how many messages of a node were published since, or that there is no such node.
fn is_count(answer: Result<Done, WorldFault>, node: usize, added: usize) -> bool {
    match answer {
        Ok(done) => node < NODES && done == Done::Edge { added },
        Err(WorldFault::Edge(_fault)) => node < NODES && added == 0,
        Err(fault) => node >= NODES && fault == WorldFault::NoSuch,
    }
}

/// An event of a node: whether its answer is the count of what was published since. The twin hears it.
fn is_heard(
    world: &impl Plays,
    twin: &mut Twin,
    answer: Result<Done, WorldFault>,
    node: usize,
    opens: bool,
) -> bool {
    let published = world.sent_by(node);
    let before = twin.nodes.get(node).map_or(0, |source| source.sent.len());
    let added = published.len().saturating_sub(before);
    if answer.is_ok() {
        twin.hear(node, opens, published);
    }
    is_count(answer, node, added)
}

/// A message that was consumed is at a position, and is what was published there.
fn is_at(message: &Consumed, published: &[Published], position: u64) -> bool {
    match published.get(position as usize) {
        Some(sent) => message.position == position
            && sent.topic == message.topic
            && sent.payload == message.payload,
        None => false,
    }
}

/// What a host consumed is at the positions that the twin says, and is what was published there.
fn are_at(consumed: &[Consumed], published: &[Published], positions: &[u64]) -> bool {
    for (message, position) in consumed.iter().zip(positions) {
        if !is_at(message, published, *position) {
            return false;
        }
    }
    consumed.len() == positions.len()
}

/// What a host consumed of a node is what the twin says, and is a prefix of each birth.
fn is_consumed(world: &impl Plays, twin: &Twin, host: usize, node: usize) -> bool {
    match (twin.pair(host, node), twin.nodes.get(node)) {
        (Some(pair), Some(source)) => {
            let (consumed, published) = (world.heard_by(host, node), world.sent_by(node));
            are_at(consumed, published, pair.consumed.as_slice()) && pair.are_prefixes(source)
        }
        _ => false,
    }
}

fn assert_all_consumed(rt: &impl Abort, world: &impl Plays, twin: &Twin) {
    for host in 0..HOSTS {
        for node in 0..NODES {
            assert!(rt;
                is_consumed(world, twin, host, node),
                "of {host} and {node}"
            );
        }
    }
}

/// The sorts of answers, each with a place of its own.
const SORTS: usize = 27;

fn place_of_step(step: Step) -> usize {
    match step {
        Step::Consumed(1) => 3,
        Step::Consumed(_count) => 4,
        Step::Held => 5,
        Step::Old => 6,
        Step::Gap => 7,
        Step::OldBirth => 8,
        Step::DeadSession => 9,
        Step::NotLive => 10,
    }
}

fn place_of_done(done: Done) -> usize {
    match done {
        Done::Edge { added } => added.min(2),
        Done::Hand(step) => place_of_step(step),
        Done::Death(Match::Matched) => 11,
        Done::Death(Match::Ignored) => 12,
        Done::Tick { gaps } => if gaps == 0 { 13 } else { 14 },
        Done::Session => 15,
    }
}

fn place_of_fault(fault: WorldFault, is_death: bool) -> usize {
    match fault {
        WorldFault::NoSuch => 16,
        WorldFault::NotPublished => if is_death { 17 } else { 18 },
        WorldFault::OutsideWindow => 19,
        WorldFault::TooFar => if is_death { 20 } else { 21 },
        WorldFault::OvertakesBirth => 22,
        WorldFault::Edge(EdgeFault::WrongPhase) => 23,
        WorldFault::Edge(EdgeFault::ClockEnd) => 24,
        WorldFault::Edge(EdgeFault::Device(_refusal)) => 25,
        _ => 26,
    }
}

fn count(counts: &mut [u64; SORTS], event: &Event, answer: Result<Done, WorldFault>) {
    let is_death = match event {
        Event::Death {
            host: _,
            node: _,
            session: _,
            now: _,
        } => true,
        _ => false,
    };
    let place = match answer {
        Ok(done) => place_of_done(done),
        Err(fault) => place_of_fault(fault, is_death),
    };
    if let Some(count) = counts.get_mut(place) {
        *count = count.saturating_add(1);
    }
}

/// What the world answers. Where memory was refused the event comes again.
fn told(world: &mut impl Plays, event: &Event) -> Result<Done, WorldFault> {
    match world.tell(event) {
        Err(WorldFault::NoMemory) => world.tell(event),
        answer => answer,
    }
}

/// Whether the twin has the same answer to an event, which it does too.
fn is_alike(
    world: &impl Plays,
    twin: &mut Twin,
    event: &Event,
    answer: Result<Done, WorldFault>,
) -> bool {
    let is_same = match twin.answer(event) {
        Some(wanted) => answer == wanted,
        None => true,
    };
    match told_node(event) {
        Some((node, opens)) => is_heard(world, twin, answer, node, opens) && is_same,
        None => is_same,
    }
}

/// Whether a sort of answer came up, or didn't. With one place nothing is ever held.
fn is_counted(place: usize, count: u64, width: u64) -> bool {
    if place == 26 || (width == 1 && (place == 4 || place == 5 || place == 14)) {
        count == 0
    } else {
        count >= 5
    }
}

/// Every sort of answer came up.
fn assert_counted(rt: &impl Abort, counts: &[u64; SORTS], width: u64) {
    for (place, count) in counts.iter().enumerate() {
        assert!(rt; is_counted(place, *count, width), "{count} at {place}");
    }
}

/// A turn of both.
fn turn(
    rt: &(impl Abort + AllocGlobal),
    world: &mut impl Plays,
    twin: &mut Twin,
    dice: &mut Dice,
    counts: &mut [u64; SORTS],
    turn: u64,
) {
    let event = event_of(rt.alloc(), dice, twin, turn).expect(rt, "an event");
    let answer = told(world, &event);
    assert!(rt; is_alike(world, twin, &event, answer), "of {event:?}");
    count(counts, &event, answer);
    if turn % 100 == 99 {
        assert_all_consumed(rt, world, twin);
    }
}

/// All turns.
fn play(rt: &(impl Abort + AllocGlobal), world: &mut impl Plays, twin: &mut Twin, seed: u64) {
    let mut dice = Dice { seed };
    let mut counts = [0u64; SORTS];
    for place in 0..EVENTS {
        turn(rt, world, twin, &mut dice, &mut counts, place);
    }
    assert_counted(rt, &counts, twin.width);
}

/// A world. Where memory was refused it is made again.
fn new_world(rt: &(impl Abort + AllocGlobal), width: Width) -> World {
    match world(rt.alloc(), width) {
        Some(world) => world,
        None => world(rt.alloc(), width).expect(rt, "memory is there again"),
    }
}

/// A twin. Where memory was refused it is made again.
fn new_twin(rt: &(impl Abort + AllocGlobal), width: u64) -> Twin {
    match twin(rt.alloc(), width) {
        Some(twin) => twin,
        None => twin(rt.alloc(), width).expect(rt, "memory is there again"),
    }
}

/// A run at a width.
fn run(rt: &(impl Abort + AllocGlobal), places: u8, seed: u64) {
    let width = Width::new(places).expect(rt, "a width");
    let mut twin = new_twin(rt, u64::from(places));
    play(rt, &mut new_world(rt, width), &mut twin, seed);
}

#[test]
fn a_long_run_at_width_1_is_as_it_is_told_a_second_time(rt: HostRuntime) {
    run(&rt, 1, 2);
}

#[test]
fn a_long_run_at_width_64_is_as_it_is_told_a_second_time(rt: HostRuntime) {
    run(&rt, 64, 1);
}

#[test]
fn a_long_run_at_width_96_is_as_it_is_told_a_second_time(rt: HostRuntime) {
    run(&rt, 96, 3);
}
