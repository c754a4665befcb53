use spk_host_node::{Handed, HostNode};
use spk_payload::{Metric, Payload, Raw};
use spk_reading::{Numbered, Subject};
use spk_sequence::{Kind, Match, Phase, Step, Width};
use std::alloc::{AllocError, Global};
use std::process::Abort;

/// An Int32 under an alias; of a birth with its name.
fn metric(alloc: Global, is_birth: bool, alias: u64, value: u32) -> Result<Metric, AllocError> {
    let name = if is_birth {
        Some(String::from_str(alloc, "m")?)
    } else {
        None
    };
    Ok(Metric {
        name,
        alias: Some(alias),
        timestamp: None,
        datatype: if is_birth { Some(3) } else { None },
        historical: None,
        transient: None,
        null: None,
        value: Some(Raw::Int(value)),
    })
}

/// Puts such a metric into a list.
fn put(
    alloc: Global,
    metrics: &mut Vec<Metric>,
    is_birth: bool,
    alias: u64,
    value: u32,
) -> Result<(), AllocError> {
    metrics.push(metric(alloc, is_birth, alias, value)?)?;
    Ok(())
}

/// A list of one such metric.
fn metrics(
    alloc: Global,
    is_birth: bool,
    alias: u64,
    value: u32,
) -> Result<Vec<Metric>, AllocError> {
    let mut metrics = Vec::with_capacity(alloc, 1)?;
    put(alloc, &mut metrics, is_birth, alias, value)?;
    Ok(metrics)
}

/// What a message is about, and what the order asks of it: NBIRTH with bdSeq 4 and a timestamp, or NDATA.
fn about(birth: Option<u64>) -> (Subject, Kind) {
    match birth {
        Some(stamp) => (Subject::NodeBirth, Kind::Birth { stamp, bd: 4 }),
        None => (Subject::NodeData, Kind::Other { stamp: None }),
    }
}

/// NBIRTH under a number, with bdSeq 4 and a timestamp; or NDATA. None where memory is refused.
fn message(alloc: Global, told: Told) -> Option<Numbered> {
    let (number, birth, alias, value) = told;
    let (subject, kind) = about(birth);
    match (
        String::from_str(alloc, "G"),
        String::from_str(alloc, "N"),
        metrics(alloc, birth.is_some(), alias, value),
    ) {
        (Ok(group), Ok(node), Ok(metrics)) => Some(Numbered {
            group,
            node,
            subject,
            number,
            kind,
            topic: String::new(alloc),
            payload: Payload {
                timestamp: birth,
                metrics,
                seq: Some(u64::from(number)),
            },
        }),
        _ => None,
    }
}

/// What the tests ask of a node. They are written over any that answers it, since a function over a type parameter is proved
/// without the parts of a node.
trait Follows {
    fn hand_in(&mut self, message: Numbered, now: u64) -> Result<Handed, AllocError>;

    fn die(&mut self, session: u8) -> Match;

    fn end(&mut self);

    fn stands(&self) -> Phase;
}

impl Follows for HostNode {
    fn hand_in(&mut self, message: Numbered, now: u64) -> Result<Handed, AllocError> {
        self.hand(message, now)
    }

    fn die(&mut self, session: u8) -> Match {
        self.death(session)
    }

    fn end(&mut self) {
        self.over();
    }

    fn stands(&self) -> Phase {
        self.phase()
    }
}

/// A node without messages.
fn fresh(rt: &(impl Abort + AllocGlobal)) -> HostNode {
    let width = Width::new(64).expect(rt, "a width");
    match HostNode::new(rt.alloc(), 2000, width) {
        Ok(made) => made,
        Err(_) => HostNode::new(rt.alloc(), 2000, width).expect(rt, "memory is there again")
    }
}

/// A number, an NBIRTH's timestamp, an alias and a value.
type Told = (u8, Option<u64>, u64, u32);

/// What comes of a message: its step, how many are consumed, how many rebirths are asked for.
type Came = (Step, usize, usize);

fn hand_over(node: &mut impl Follows, message: Numbered, now: u64) -> Option<Came> {
    match node.hand_in(message, now) {
        Ok(handed) => Some((handed.step, handed.consumed.len(), handed.requests)),
        Err(_) => None,
    }
}

/// A message is made and handed in. None where memory is refused.
fn hand_one(alloc: Global, node: &mut impl Follows, told: Told, now: u64) -> Option<Came> {
    match message(alloc, told) {
        Some(message) => hand_over(node, message, now),
        None => None,
    }
}

/// The same. Where memory was refused it is handed in again.
fn hand(rt: &(impl Abort + AllocGlobal), node: &mut impl Follows, told: Told, now: u64) -> Came {
    match hand_one(rt.alloc(), node, told, now) {
        Some(came) => came,
        None => hand_one(rt.alloc(), node, told, now).expect(rt, "memory is there again"),
    }
}

/// A number, an NBIRTH's timestamp, an alias, a moment; the step, how many are consumed, how many rebirths are asked for.
type Row = (u8, Option<u64>, u64, u64, Step, usize, usize);

static ROWS: [Row; 8] = [
    // before a birth, and again within the wait
    (3, None, 1, 9, Step::NotLive, 0, 1),
    (4, None, 1, 10, Step::NotLive, 0, 0),
    // a birth, one message is held, and comes out behind the one before it
    (255, Some(100), 1, 11, Step::Consumed(1), 1, 0),
    (1, None, 1, 12, Step::Held, 0, 0),
    (0, None, 1, 13, Step::Consumed(2), 2, 0),
    // an alias that the birth didn't give
    (2, None, 7, 14, Step::Consumed(1), 1, 1),
    (3, None, 7, 15, Step::Consumed(1), 1, 0),
    // 64 numbers are missing
    (68, None, 1, 2014, Step::Gap, 0, 1),
];

fn is_followed(rt: &(impl Abort + AllocGlobal), node: &mut impl Follows) {
    for (number, birth, alias, now, step, consumed, requests) in &ROWS {
        let told = (*number, *birth, *alias, u32::from(*number));
        let came = hand(rt, node, told, *now);
        assert!(rt; came == (*step, *consumed, *requests), "{now}");
    }
    assert!(rt; node.stands() == Phase::Gap);
}

#[test]
fn a_node_is_followed_from_its_birth_on(rt: HostRuntime) {
    plays(&rt, false);
}

fn dies(rt: &(impl Abort + AllocGlobal), node: &mut impl Follows) {
    let _handed = hand(rt, node, (9, Some(101), 1, 5), 0);
    assert!(rt; node.die(3) == Match::Ignored && node.die(4) == Match::Matched);
    node.end();
    assert!(rt; node.stands() == Phase::Unknown);
}

#[test]
fn a_matching_death_and_the_end_of_a_session(rt: HostRuntime) {
    plays(&rt, true);
}

fn play(rt: &(impl Abort + AllocGlobal), node: &mut impl Follows, is_death: bool) {
    if is_death {
        dies(rt, node);
    } else {
        is_followed(rt, node);
    }
}

/// A node is followed, or dies.
fn plays(rt: &(impl Abort + AllocGlobal), is_death: bool) {
    play(rt, &mut fresh(rt), is_death);
}
