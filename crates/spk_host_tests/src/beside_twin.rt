//! Random runs of three nodes beside a second, plain telling of the rules: messages are lost, repeated and displaced inside the window,
//! sessions die and the host's own session ends. Each packet is handed as bytes, and what comes of it is compared.
use crate::asks::{Asks, Case, begin, play, renewed, ticked, told};
use crate::messages::{NODES, Node, death_of, packet_of, request_to};
use crate::network::{Dice, Pair, given, session_of};
use crate::twin::{Answer, Hearer, Sent, Source};
use spk_host::{Out, Taken};
use spk_payload::Raw;
use spk_sequence::{Match, Phase, Step};
use std::alloc::{AllocError, Global};
use std::process::Abort;

/// How many packets of nodes are handed in a run.
const PACKETS: usize = 10_000;

/// How long a held message waits, and how long no second rebirth is asked for.
const WAIT: u64 = 300;

/// The message that was consumed is that of a position.
fn is_of(taken: &Taken, node: Node, position: u64) -> bool {
    let (group, name, _restarts, _first) = node;
    let at = match taken.payload.metrics.last() {
        Some(metric) => match metric.value {
            Some(Raw::Int(number)) => Some(u64::from(number)),
            _ => None,
        },
        None => None,
    };
    at == Some(position) && taken.group.as_str() == group && taken.node.as_str() == name
}

/// What was consumed are the last so many positions of these.
fn are_of(taken: &[Taken], node: Node, consumed: &[u64], count: usize) -> bool {
    let first = consumed.len().saturating_sub(count);
    let positions = consumed.iter().skip(first);
    taken.len() == count
        && taken
            .iter()
            .zip(positions)
            .all(|(taken, position)| is_of(taken, node, *position))
}

/// A packet is a request to a node.
fn is_request(rt: &(impl Abort + AllocGlobal), packet: &[u8], node: Node, now: u64) -> bool {
    let request = match request_to(rt.alloc(), node, now) {
        Ok(made) => made,
        Err(_) => request_to(rt.alloc(), node, now).expect(rt, "memory is there again")
    };
    packet == request.as_slice()
}

/// Packets are so many requests to a node.
fn are_requests(
    rt: &(impl Abort + AllocGlobal),
    packets: &[Vec<u8>],
    node: Node,
    now: u64,
    count: usize,
) -> bool {
    let mut are = packets.len() == count;
    for packet in packets {
        are = are && is_request(rt, packet.as_slice(), node, now);
    }
    are
}

/// The acknowledgement of an NDEATH, and nothing else.
fn are_acknowledgements(packets: &[Vec<u8>]) -> bool {
    match packets.first() {
        Some(packet) => packets.len() == 1 && packet.as_slice() == b"\x40\x02\x00\x09".as_slice(),
        None => false,
    }
}

/// Of an NDEATH: its acknowledgement, and that it matched, or not.
fn is_ended_alike(out: &Out, is_last: bool) -> bool {
    let matched = if is_last {
        Match::Matched
    } else {
        Match::Ignored
    };
    are_acknowledgements(out.packets.as_slice()) && out.death == Some(matched)
}

/// How many messages a step consumes.
fn count_of(step: Step) -> usize {
    match step {
        Step::Consumed(count) => usize::from(count),
        _ => 0,
    }
}

/// Of a message of a node: its step, what was consumed and the requests are what the twin says.
fn is_alike(
    rt: &(impl Abort + AllocGlobal),
    out: &Out,
    node: Node,
    consumed: &[u64],
    answer: Answer,
    now: u64,
) -> bool {
    out.steps.as_slice() == [answer.step].as_slice()
        && are_of(
            out.consumed.as_slice(),
            node,
            consumed,
            count_of(answer.step),
        )
        && are_requests(rt, out.packets.as_slice(), node, now, answer.requests)
        && out.rebirths.len() == answer.requests
        && out.death.is_none()
        && out.gaps.is_empty()
}

/// How often each sort of answer came: what became of a message, a gap at a moment, a request, an NDEATH that ended a session.
const SORTS: usize = 11;

fn sort_of(step: Step) -> usize {
    match step {
        Step::Consumed(1) => 0,
        Step::Consumed(_count) => 1,
        Step::Held => 2,
        Step::Old => 3,
        Step::Gap => 4,
        Step::OldBirth => 5,
        Step::DeadSession => 6,
        Step::NotLive => 7,
    }
}

/// A run: of each node what it published, and what the twin keeps of it.
#[derive(Drop)]
struct Run {
    dice: Dice,
    width: u64,
    nodes: Vec<Pair>,
    /// The nodes' places, in the order in which they were first heard.
    heard: Vec<usize>,
    counts: [usize; SORTS],
}

fn nodes(alloc: Global, width: u64) -> Result<Vec<Pair>, AllocError> {
    let mut nodes = Vec::with_capacity(alloc, NODES.len())?;
    for (_group, _name, restarts, _first) in NODES {
        nodes.push(Pair {
            source: Source::new(alloc, restarts),
            twin: Hearer::new(alloc, WAIT, width),
        })?;
    }
    Ok(nodes)
}

/// The packet of a position. Where memory was refused it is made again.
fn packet(
    rt: &(impl Abort + AllocGlobal),
    node: Node,
    source: &Source,
    position: u64,
    sent: Sent,
) -> Vec<u8> {
    match packet_of(rt.alloc(), node, source, position, sent) {
        Ok(made) => made,
        Err(_) => packet_of(rt.alloc(), node, source, position, sent).expect(
            rt,
            "memory is there again",
        )
    }
}

/// The NDEATH of a session. Where memory was refused it is made again.
fn death(rt: &(impl Abort + AllocGlobal), node: Node, session: u64) -> Vec<u8> {
    match death_of(rt.alloc(), node, session) {
        Ok(made) => made,
        Err(_) => death_of(rt.alloc(), node, session).expect(rt, "memory is there again")
    }
}

/// A message that a network gives: its packet, and what the twin says of it.
#[derive(Drop)]
struct Given {
    packet: Vec<u8>,
    answer: Answer,
}

/// What the network gives next of a node. None where it gives nothing.
fn next(
    rt: &(impl Abort + AllocGlobal),
    dice: &mut Dice,
    node: Node,
    pair: &mut Pair,
    width: u64,
    now: u64,
) -> Option<Given> {
    let (position, sent) = given(dice, pair, width)?;
    let packet = packet(rt, node, &pair.source, position, sent);
    let answer = pair
        .twin
        .hand(rt.alloc(), &pair.source, position, sent, now);
    Some(Given { packet, answer })
}

/// A message is handed: whether what is answered is what the twin says.
fn is_told_alike(
    rt: &(impl Abort + AllocGlobal),
    host: &mut impl Asks,
    node: Node,
    twin: &Hearer,
    given: &Given,
    now: u64,
) -> bool {
    match told(host, given.packet.as_slice(), now) {
        Ok(out) => {
            is_alike(rt, &out, node, twin.consumed.as_slice(), given.answer, now)
                && host.phase_of(node.0, node.1) == twin.phase()
        }
        Err(_) => false,
    }
}

impl Run {
    fn new(rt: &(impl Abort + AllocGlobal), seed: u64, places: u8) -> Run {
        let width = u64::from(places);
        Run {
            dice: Dice { seed },
            width,
            nodes: match nodes(rt.alloc(), width) {
                Ok(made) => made,
                Err(_) => nodes(rt.alloc(), width).expect(rt, "memory is there again")
            },
            heard: Vec::new(rt.alloc()),
            counts: [0; SORTS],
        }
    }

    fn count(&mut self, sort: usize, more: usize) {
        if let Some(count) = self.counts.get_mut(sort) {
            *count = count.saturating_add(more);
        }
    }

    /// A message of a node is handed. None where the network doesn't give it.
    fn message(
        &mut self,
        rt: &(impl Abort + AllocGlobal),
        host: &mut impl Asks,
        place: usize,
        now: u64,
    ) -> Option<bool> {
        let node = NODES.get(place).copied()?;
        let pair = self.nodes.get_mut(place)?;
        let given = next(rt, &mut self.dice, node, pair, self.width, now)?;
        let alike = is_told_alike(rt, host, node, &pair.twin, &given, now);
        self.hear(place);
        self.count(sort_of(given.answer.step), 1);
        self.count(8, given.answer.requests);
        Some(alike)
    }

    /// The NDEATH of a session of a node is handed.
    fn death(
        &mut self,
        rt: &(impl Abort + AllocGlobal),
        host: &mut impl Asks,
        place: usize,
        now: u64,
    ) -> Option<bool> {
        let node = NODES.get(place).copied()?;
        let pair = self.nodes.get_mut(place)?;
        let session = session_of(&mut self.dice, &pair.source, &pair.twin);
        let packet = death(rt, node, session);
        let is_last = pair.twin.tell(&pair.source, session);
        let phase = pair.twin.phase();
        self.count(9, usize::from(phase == Phase::Dead));
        let is_alike = match told(host, packet.as_slice(), now) {
            Ok(out) => is_ended_alike(&out, is_last),
            Err(_) => false,
        };
        Some(is_alike && host.phase_of(node.0, node.1) == phase)
    }

    fn hear(&mut self, place: usize) {
        if !self.heard.contains(&place) && self.heard.push(place).is_err() {
            let _ = self.heard.push(place);
        }
    }

    /// What a moment asks, by the twin: which nodes have a gap, by their places among those that were heard, and the nodes asked.
    fn due(
        &mut self,
        rt: &impl Abort,
        mut gaps: Vec<usize>,
        mut asked: Vec<Node>,
        now: u64,
    ) -> (Vec<usize>, Vec<Node>) {
        for (at, place) in self.heard.iter().enumerate() {
            let (Some(node), Some(pair)) = (NODES.get(*place).copied(), self.nodes.get_mut(*place))
            else {
                continue;
            };
            let Some(requests) = pair.twin.tick(now) else {
                continue;
            };
            assert!(rt; gaps.push(at).is_ok());
            if requests > 0 {
                assert!(rt; asked.push(node).is_ok());
            }
        }
        (gaps, asked)
    }

    /// A moment comes.
    fn tick(&mut self, rt: &(impl Abort + AllocGlobal), host: &mut impl Asks, now: u64) -> bool {
        let places = match Vec::with_capacity(rt.alloc(), NODES.len()) {
            Ok(made) => made,
            Err(_) => Vec::with_capacity(rt.alloc(), NODES.len()).expect(
                rt,
                "memory is there again",
            )
        };
        let room = match Vec::with_capacity(rt.alloc(), NODES.len()) {
            Ok(made) => made,
            Err(_) => Vec::with_capacity(rt.alloc(), NODES.len()).expect(
                rt,
                "memory is there again",
            )
        };
        let (gaps, asked) = self.due(rt, places, room, now);
        self.count(10, gaps.len());
        is_ticked_alike(rt, host, gaps.as_slice(), asked.as_slice(), now)
    }

    /// The session of the host ends, and the next begins.
    fn renew(&mut self, rt: &impl Abort, host: &mut impl Asks, now: u64) {
        assert!(rt; renewed(host, now).is_ok());
        for pair in self.nodes.iter_mut() {
            pair.twin.renew();
        }
    }

    /// One thing is heard. None where no packet of a node came.
    fn turn(
        &mut self,
        rt: &(impl Abort + AllocGlobal),
        host: &mut impl Asks,
        now: u64,
    ) -> Option<bool> {
        let kind = self.dice.roll(1000);
        let place = self.dice.roll(3) as usize;
        match kind {
            0..=1 => {
                self.renew(rt, host, now);
                None
            }
            2..=49 => Some(self.tick(rt, host, now)),
            50..=79 => self.death(rt, host, place, now),
            _ => self.message(rt, host, place, now),
        }
    }
}

/// A moment comes: whether a gap of each of these nodes and these requests are answered, in order.
fn is_ticked_alike(
    rt: &(impl Abort + AllocGlobal),
    host: &mut impl Asks,
    gaps: &[usize],
    asked: &[Node],
    now: u64,
) -> bool {
    let Ok(out) = ticked(host, now) else {
        return false;
    };
    let mut alike = out.steps.len() == gaps.len()
        && out.gaps.as_slice() == gaps
        && out.packets.len() == asked.len();
    for (packet, node) in out.packets.iter().zip(asked) {
        alike = alike && is_request(rt, packet.as_slice(), *node, now);
    }
    alike
}

/// How many of so many packets were told alike. It ends at the first that wasn't.
fn played(
    rt: &(impl Abort + AllocGlobal),
    host: &mut impl Asks,
    run: &mut Run,
    packets: usize,
) -> usize {
    let mut now = 1_000u64;
    let mut alike = 0usize;
    for _turn in 0..packets.saturating_mul(3) {
        if alike == packets {
            break;
        }
        now = now.saturating_add(run.dice.roll(40));
        let moment = now.saturating_sub(run.dice.roll(60));
        match run.turn(rt, host, moment) {
            Some(true) => alike = alike.saturating_add(1),
            Some(false) => break,
            None => {}
        }
    }
    alike
}

/// A run, by its seed and its width.
#[derive(Clone, Copy)]
struct Seeded {
    seed: u64,
    places: u8,
}

impl Case for Seeded {
    /// All packets are told alike, and every sort of answer comes. With one place nothing is ever held.
    fn play(&self, rt: &(impl Abort + AllocGlobal), host: &mut impl Asks) {
        begin(rt, host, 0);
        let mut run = Run::new(rt, self.seed, self.places);
        assert_eq!(rt; played(rt, host, &mut run, PACKETS), PACKETS);
        for (sort, count) in run.counts.iter().enumerate() {
            let is_none = self.places == 1 && (sort == 1 || sort == 2 || sort == 10);
            assert!(rt; is_none || *count >= 5, "{sort}: {count}");
        }
    }
}

fn runs(rt: &(impl Abort + AllocGlobal), seed: u64, places: u8) {
    play(rt, WAIT, places, &Seeded { seed, places });
}

#[test]
fn packets_of_three_nodes_are_as_they_are_told_a_second_time(rt: HostRuntime) {
    runs(&rt, 1, 64);
}

#[test]
fn at_width_1_too(rt: HostRuntime) {
    runs(&rt, 2, 1);
}

#[test]
fn at_width_96_too(rt: HostRuntime) {
    runs(&rt, 3, 96);
}
