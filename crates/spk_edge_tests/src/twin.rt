//! A long run of calls beside a second, plain telling of the rules: a node with the primary host H, the metric `t` 7
//! (alias 1), and the device D with its own `t` 9 (alias 2), which keeps at most three changes.
use crate::host::HOSTED;
use crate::node::{Call, Plays, play_on, told};
use crate::which::Test;
use spk_edge::{EdgeFault, Out, Phase, Record};
use std::process::Abort;

/// What came of all calls so far.
#[derive(Drop)]
struct Story {
    phase: Phase,
    heard: Option<u64>,
    node_value: i64,
    device_value: i64,
    is_up: bool,
    /// The stamp of the last message.
    stamp: Option<u64>,
    published: u64,
    sessions: u64,
    /// Whether each change that was ever kept is the device's.
    pushed: Vec<bool>,
    /// How many of these are gone.
    gone: usize,
    lost: u64,
}

/// How many packets a call gives, and whether it closes; none where its phase is wrong.
type Answer = Option<(usize, bool)>;

impl Story {
    /// So many messages go out at a stamp.
    fn publish(&mut self, stamp: u64, count: usize) -> Answer {
        self.stamp = Some(stamp);
        self.published = self.published.saturating_add(count as u64);
        Some((count, false))
    }

    /// A message that isn't a birth.
    fn tell(&mut self, now: u64) -> Answer {
        self.publish(self.stamp.map_or(now, |last| last.max(now)), 1)
    }

    /// The births.
    fn bear(&mut self, now: u64) -> Answer {
        self.phase = Phase::Born;
        let stamp = self
            .stamp
            .map_or(now, |last| last.saturating_add(1).max(now));
        self.publish(stamp, if self.is_up { 2 } else { 1 })
    }

    /// The end in order.
    fn leave(&mut self) -> Answer {
        self.phase = Phase::Idle;
        Some((2, true))
    }

    /// A change of a metric whose owner is up.
    fn change(&mut self, now: u64, is_device: bool) -> Answer {
        if self.phase == Phase::Born {
            return self.tell(now);
        }
        if self.pushed.push(is_device).is_err() {
            let _ = self.pushed.push(is_device);
        }
        if self.pushed.len().saturating_sub(self.gone) > 3 {
            self.gone = self.gone.saturating_add(1);
            self.lost = self.lost.saturating_add(1);
        }
        Some((0, false))
    }

    /// The changes at the front that are of one owner, and whether that is the device.
    fn front(&self) -> (usize, bool) {
        let mut count = 0usize;
        let mut first = false;
        for is_device in self.pushed.iter().skip(self.gone) {
            if count == 0 {
                first = *is_device;
            }
            if *is_device != first {
                return (count, first);
            }
            count = count.saturating_add(1);
        }
        (count, first)
    }

    fn drain(&mut self, now: u64) -> Answer {
        let (count, is_device) = self.front();
        self.gone = self.gone.saturating_add(count);
        if count > 0 && is_device && !self.is_up {
            self.lost = self.lost.saturating_add(count as u64);
            return Some((0, false));
        }
        if count > 0 {
            self.tell(now)
        } else {
            Some((0, false))
        }
    }

    fn state(&mut self, now: u64, is_online: bool, timestamp: u64) -> Answer {
        if self.heard.is_some_and(|heard| timestamp < heard) {
            return Some((0, false));
        }
        self.heard = Some(timestamp);
        match (is_online, self.phase) {
            (true, Phase::Waiting) => self.bear(now),
            (false, Phase::Born) => self.leave(),
            _ => Some((0, false)),
        }
    }
}

/// What a STATE of the tables says.
fn said(payload: &[u8]) -> (bool, u64) {
    let last = payload.len().saturating_sub(2);
    let timestamp = match payload.get(last) {
        Some(b'0') => 0,
        Some(b'1') => 1,
        Some(b'2') => 2,
        _ => 3,
    };
    (payload.get(10) == Some(&b't'), timestamp)
}

/// What a metric's value was before it became this one.
fn swapped(story: &mut Story, alias: u64, value: i64) -> i64 {
    let place = if alias == 1 {
        &mut story.node_value
    } else {
        &mut story.device_value
    };
    let before = *place;
    *place = value;
    before
}

/// What the story says of a call, and goes on.
fn expected(story: &mut Story, now: u64, call: Call) -> Answer {
    let quiet = Some((0, false));
    let is_joined = story.phase == Phase::Waiting || story.phase == Phase::Born;
    match call {
        Call::Open if story.phase == Phase::Idle => {
            story.phase = Phase::Connecting;
            story.sessions = story.sessions.saturating_add(1);
            Some((1, false))
        }
        Call::Accepted if story.phase == Phase::Connecting => {
            story.phase = Phase::Waiting;
            Some((1, false))
        }
        Call::Change(alias, value) => {
            let is_same = swapped(story, alias, value) == value;
            if is_same || (alias == 2 && !story.is_up) {
                return quiet;
            }
            story.change(now, alias == 2)
        }
        Call::Device(up) => {
            let is_same = story.is_up == up;
            story.is_up = up;
            if is_same || story.phase != Phase::Born {
                return quiet;
            }
            story.tell(now)
        }
        Call::Rebirth if story.phase == Phase::Born => story.bear(now),
        Call::Rebirth if is_joined => quiet,
        Call::State(payload) if is_joined => {
            let (is_online, timestamp) = said(payload);
            story.state(now, is_online, timestamp)
        }
        Call::Drain if story.phase == Phase::Born => story.drain(now),
        Call::Stop if is_joined => story.leave(),
        _ => None,
    }
}

static ONLINE: [&[u8]; 4] = [
    b"{\"online\":true,\"timestamp\":0}",
    b"{\"online\":true,\"timestamp\":1}",
    b"{\"online\":true,\"timestamp\":2}",
    b"{\"online\":true,\"timestamp\":3}",
];

static OFFLINE: [&[u8]; 4] = [
    b"{\"online\":false,\"timestamp\":0}",
    b"{\"online\":false,\"timestamp\":1}",
    b"{\"online\":false,\"timestamp\":2}",
    b"{\"online\":false,\"timestamp\":3}",
];

/// The call that a number picks.
fn call_of(pick: u64) -> Call {
    let value = i64::from((pick / 16 % 3) as u8);
    let place = (pick / 16 % 4) as usize;
    match pick % 16 {
        0 | 3 => Call::Open,
        1 | 4 => Call::Accepted,
        2 => Call::Change(1, value),
        5 | 6 => Call::Change(2, value),
        7 => Call::Device(true),
        8 => Call::Device(false),
        9 => Call::Rebirth,
        10 | 11 => Call::State(ONLINE[place]),
        12 if place != 0 => Call::State(OFFLINE[place]),
        15 if place == 0 => Call::Stop,
        _ => Call::Drain,
    }
}

/// Whether a node's answer is the story's.
fn is_told(told: &Result<Out, EdgeFault>, wanted: Answer) -> bool {
    match (told, wanted) {
        (Ok(out), Some((count, close))) => out.packets.len() == count && out.close == close,
        (Err(fault), None) => *fault == EdgeFault::WrongPhase,
        _ => false,
    }
}

/// Whether a record is the story's.
fn is_record(record: Record, story: &Story) -> bool {
    record.seq == (story.published % 256) as u8
        && record.bd == (story.sessions % 256) as u8
        && record.stamp == story.stamp
}

/// A node stands as the story says.
fn assert_stands(rt: &impl Abort, node: &impl Plays, story: &Story) {
    let (phase, lost, record) = node.stands();
    assert!(rt; phase == story.phase && lost == story.lost && is_record(record, story));
}

/// One call, of which the node's answer and what it is then are the story's.
fn play(rt: &impl Abort, node: &mut impl Plays, story: &mut Story, turn: u64, pick: u64) {
    let now = turn.saturating_sub(pick % 7);
    let call = call_of(pick);
    let wanted = expected(story, now, call);
    assert!(rt; is_told(&told(node, now, call), wanted), "of {call:?}");
    if pick % 41 == 0 {
        node.lose_connection();
        story.phase = Phase::Idle;
    }
    assert_stands(rt, node, story);
}

pub(crate) fn plays_long(rt: &(impl Abort + AllocGlobal), node: &mut impl Plays) {
    let mut story = Story {
        phase: Phase::Idle,
        heard: None,
        node_value: 7,
        device_value: 9,
        is_up: false,
        stamp: None,
        published: 0,
        sessions: 0,
        pushed: Vec::new(rt.alloc()),
        gone: 0,
        lost: 0,
    };
    let mut seed = 1u64;
    for turn in 0u64..10_000 {
        seed = seed
            .wrapping_mul(6_364_136_223_846_793_005)
            .wrapping_add(1_442_695_040_888_963_407);
        play(rt, node, &mut story, turn, seed >> 33);
    }
    // the run went through what it is for
    assert!(rt; story.published > 512 && story.sessions > 256);
    assert!(rt; story.lost > 9 && story.gone > 99);
}

#[test]
fn a_long_run_is_as_it_is_told_a_second_time(rt: HostRuntime) {
    play_on(&rt, HOSTED, Test::LongRun);
}
