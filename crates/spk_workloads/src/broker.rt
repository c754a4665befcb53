//! Jobs of the broker, fed with bytes.

use crate::lines::{Follower, Line, followers, lines};
use crate::serving::{Room, Serves};
use spk_server::Server;
use std::alloc::Global;

/// How large a job is.
#[derive(Drop)]
struct Size {
    nodes: usize,
    /// How many of them hear alarms.
    watchers: usize,
    steps: u64,
    rounds: u64,
}

/// What happens to a plant at work: mostly a node publishes data.
fn step<S: Serves>(
    server: &mut S,
    room: &mut Room,
    lines: &mut [Line],
    hosts: &mut [Follower],
) -> Option<()> {
    let number = room.random.place(lines.len());
    let which = room.random.place(3);
    let line = lines.get_mut(number)?;
    let host = hosts.get_mut(which)?;
    match room.random.below(2_000) {
        0 => host.state(server, room),
        1..=4 => host.alarm(server, room),
        5..=99 => host.command(server, room, number),
        100..=199 => line.ping(server, room),
        200..=399 => line.record(server, room),
        400..=599 => line.burst(server, room),
        _ => line.say(server, room),
    }
}

/// Such steps, four of them in a millisecond.
fn steps<S: Serves>(
    server: &mut S,
    room: &mut Room,
    lines: &mut [Line],
    hosts: &mut [Follower],
    count: u64,
) -> Option<()> {
    for number in 0..count {
        if number % 4 == 0 {
            room.now = room.now.saturating_add(1);
            server.wait(room.now)?;
        }
        step(server, room, lines, hosts)?;
    }
    Some(())
}

/// Hosts come.
fn follow<S: Serves>(server: &mut S, room: &mut Room, hosts: &mut [Follower]) -> Option<()> {
    for host in hosts.iter_mut() {
        host.come(server, room)?;
    }
    Some(())
}

/// Nodes come, and only then they publish.
fn gather<S: Serves>(
    server: &mut S,
    room: &mut Room,
    lines: &mut [Line],
    watchers: usize,
) -> Option<()> {
    for (number, line) in lines.iter_mut().enumerate() {
        line.come(server, room)?;
        line.subscribe(server, room)?;
        if number < watchers {
            line.watch(server, room)?;
        }
    }
    for line in lines.iter_mut() {
        line.bear(server, room)?;
    }
    Some(())
}

fn data_on<S: Serves>(
    server: &mut S,
    room: &mut Room,
    lines: &mut [Line],
    hosts: &mut [Follower],
    size: &Size,
) -> Option<()> {
    follow(server, room, hosts)?;
    gather(server, room, lines, size.watchers)?;
    steps(server, room, lines, hosts, size.steps)
}

/// Nodes and hosts are connected, and nodes publish data, alone and in bursts; there are commands, pings, messages of QoS 1, alarms to
/// many, and a STATE to all. The sum of what went out.
pub(crate) fn data(alloc: Global, seed: u64, is_small: bool) -> Option<u64> {
    let size = if is_small {
        Size {
            nodes: 20,
            watchers: 5,
            steps: 300,
            rounds: 0,
        }
    } else {
        Size {
            nodes: 900,
            watchers: 150,
            steps: 240_000,
            rounds: 0,
        }
    };
    let mut room = Room::new(alloc, seed)?;
    let mut lines = lines(alloc, size.nodes)?;
    let mut hosts = followers(alloc)?;
    let mut server = Server::new(alloc);
    let lines = lines.as_mut_slice();
    data_on(&mut server, &mut room, lines, hosts.as_mut_slice(), &size)?;
    Some(room.digest.sum())
}

/// A node comes: it connects, subscribes, and publishes its birth and data.
fn return_one<S: Serves>(server: &mut S, room: &mut Room, line: &mut Line) -> Option<()> {
    line.come(server, room)?;
    line.subscribe(server, room)?;
    line.bear(server, room)?;
    line.say(server, room)?;
    line.say(server, room)
}

/// All nodes come, one behind the other, from a random one on.
fn return_all<S: Serves>(server: &mut S, room: &mut Room, lines: &mut [Line]) -> Option<()> {
    let first = room.random.place(lines.len());
    for number in 0..lines.len() {
        let place = first.saturating_add(number) % lines.len().max(1);
        room.now = room.now.saturating_add(1);
        server.wait(room.now)?;
        return_one(server, room, lines.get_mut(place)?)?;
    }
    Some(())
}

/// A node comes back alone; of two, one comes before its old connection is known to be gone.
fn renew_one<S: Serves>(server: &mut S, room: &mut Room, lines: &mut [Line]) -> Option<()> {
    let number = room.random.place(lines.len());
    let line = lines.get_mut(number)?;
    if room.random.is_one_of(2) {
        line.lose(server, room)?;
    }
    return_one(server, room, line)
}

/// Nodes come back alone, and others publish in between.
fn renew_some<S: Serves>(
    server: &mut S,
    room: &mut Room,
    lines: &mut [Line],
    hosts: &mut [Follower],
) -> Option<()> {
    for _ in 0..lines.len() / 10 {
        renew_one(server, room, lines)?;
        steps(server, room, lines, hosts, 8)?;
    }
    Some(())
}

/// A host and the historian leave, nodes go on, and both come back.
fn leave_and_return<S: Serves>(
    server: &mut S,
    room: &mut Room,
    lines: &mut [Line],
    hosts: &mut [Follower],
    count: u64,
) -> Option<()> {
    for place in 2..4usize {
        hosts.get(place)?.leave(server, room)?;
    }
    for _ in 0..count {
        let number = room.random.place(lines.len());
        let line = lines.get_mut(number)?;
        if room.random.is_one_of(10) {
            line.record(server, room)?;
        } else {
            line.say(server, room)?;
        }
    }
    for place in 2..4usize {
        hosts.get_mut(place)?.come(server, room)?;
    }
    Some(())
}

/// The sockets of all nodes are gone, one behind the other.
fn lose_all<S: Serves>(server: &mut S, room: &mut Room, lines: &[Line]) -> Option<()> {
    for line in lines {
        line.lose(server, room)?;
    }
    room.now = room.now.saturating_add(5_000);
    server.wait(room.now)?;
    room.pass(server)
}

/// Settings are published, retained.
fn settle_all<S: Serves>(
    server: &mut S,
    room: &mut Room,
    host: &Follower,
    count: usize,
) -> Option<()> {
    for number in 0..count {
        host.settle(server, room, number)?;
    }
    Some(())
}

fn restart_on<S: Serves>(
    server: &mut S,
    room: &mut Room,
    lines: &mut [Line],
    hosts: &mut [Follower],
    size: &Size,
) -> Option<()> {
    follow(server, room, hosts)?;
    settle_all(server, room, hosts.first()?, size.watchers)?;
    for _ in 0..size.rounds {
        return_all(server, room, lines)?;
        renew_some(server, room, lines, hosts)?;
        leave_and_return(server, room, lines, hosts, size.steps)?;
        lose_all(server, room, lines)?;
    }
    Some(())
}

/// Nodes come back after the switch before them failed, all at once and alone; a host leaves and comes back; the switch fails and all
/// nodes are gone. The sum of what went out.
pub(crate) fn restart(alloc: Global, seed: u64, is_small: bool) -> Option<u64> {
    let size = if is_small {
        Size {
            nodes: 20,
            watchers: 10,
            steps: 50,
            rounds: 2,
        }
    } else {
        Size {
            nodes: 900,
            watchers: 200,
            steps: 2_000,
            rounds: 14,
        }
    };
    let mut room = Room::new(alloc, seed)?;
    let mut lines = lines(alloc, size.nodes)?;
    let mut hosts = followers(alloc)?;
    let mut server = Server::new(alloc);
    let lines = lines.as_mut_slice();
    restart_on(&mut server, &mut room, lines, hosts.as_mut_slice(), &size)?;
    Some(room.digest.sum())
}
