//! The command `world`: the events of a world of edge nodes and hosts, line by line.

use crate::fault::{Fault, Stop};
use spk_files::{MOST_HOSTS, MOST_NODES, Misfit, world_of};
use spk_sequence::{Match, Step};
use spk_world::{Consumed, Done, Event, Published, World, WorldFault};
use std::alloc::Global;
use std::fmt;
use std::io::{self, Write};

/// What a line calls an event.
#[derive(Clone, Copy)]
struct Named<'a>(&'a Event);

impl fmt::Display for Named<'_> {
    fn fmt<W: fmt::Write>(&self, f: &mut fmt::Formatter<W>) -> fmt::Result {
        match self.0 {
            Event::Open { node, .. } => write!(f, "open {node}"),
            Event::Accepted { node, .. } => write!(f, "accepted {node}"),
            Event::Drain { node, .. } => write!(f, "drain {node}"),
            Event::Stop { node, .. } => write!(f, "stop {node}"),
            Event::Cut { node } => write!(f, "cut {node}"),
            Event::Set { node, .. } => write!(f, "set {node}"),
            Event::Device { node, .. } => write!(f, "device {node}"),
            Event::Rebirth { node, .. } => write!(f, "rebirth {node}"),
            Event::State { node, .. } => write!(f, "state {node}"),
            Event::Hand {
                host,
                node,
                position,
                ..
            } => write!(f, "hand {host} {node} {position}"),
            Event::Death {
                host,
                node,
                session,
                ..
            } => write!(f, "death {host} {node} {session}"),
            Event::Tick { host, .. } => write!(f, "tick {host}"),
            Event::Session { host, .. } => write!(f, "session {host}"),
        }
    }
}

/// What became of a message.
fn write_step<W: Write>(out: &mut W, name: Named<'_>, step: Step) -> io::Result<()> {
    match step {
        Step::Consumed(count) => writeln!(out, "{name}: consumed {count}"),
        Step::Held => writeln!(out, "{name}: held"),
        Step::Old => writeln!(out, "{name}: old"),
        Step::Gap => writeln!(out, "{name}: gap"),
        Step::OldBirth => writeln!(out, "{name}: old birth"),
        Step::DeadSession => writeln!(out, "{name}: dead session"),
        Step::NotLive => writeln!(out, "{name}: not live"),
    }
}

/// The line of an event.
fn write_done<W: Write>(out: &mut W, event: &Event, done: Done) -> io::Result<()> {
    let name = Named(event);
    match done {
        Done::Edge { added } => writeln!(out, "{name}: +{added}"),
        Done::Hand(step) => write_step(out, name, step),
        Done::Death(Match::Matched) => writeln!(out, "{name}: matched"),
        Done::Death(Match::Ignored) => writeln!(out, "{name}: ignored"),
        Done::Tick { gaps } => writeln!(out, "{name}: {gaps}"),
        Done::Session => writeln!(out, "{name}"),
    }
}

/// Does the events in order, with a line for each, up to the first that is refused. Answers whether all were done.
fn write_events<W: Write>(out: &mut W, world: &mut World, events: &[Event]) -> Result<bool, Stop> {
    for (index, event) in events.iter().enumerate() {
        match world.step(event) {
            Ok(done) => write_done(out, event, done)?,
            Err(WorldFault::NoMemory) => return Err(Stop::no_memory()),
            Err(fault) => {
                let number = fault.number();
                writeln!(out, "refused at {index}: {fault} ({number})")?;
                return Ok(false);
            }
        }
    }
    Ok(true)
}

/// Positions of one birth, one after the other.
#[derive(Clone, Copy)]
struct Front {
    birth: Option<u64>,
    start: u64,
    count: u64,
}

impl Front {
    /// Whether this position goes on with it.
    fn goes_on(&self, birth: Option<u64>, position: u64) -> bool {
        self.birth == birth && self.start.checked_add(self.count) == Some(position)
    }
}

fn write_front<W: Write>(out: &mut W, front: Option<Front>) -> io::Result<()> {
    match front {
        Some(
            Front {
                birth: _,
                start,
                count,
            },
        ) => write!(out, " {start}+{count}"),
        None => Ok(()),
    }
}

/// What a host consumed of a node, birth by birth.
fn write_fronts<W: Write>(
    out: &mut W,
    published: &[Published],
    consumed: &[Consumed],
) -> io::Result<()> {
    let mut front: Option<Front> = None;
    for message in consumed {
        let position = message.position;
        let birth = published.get(position as usize).map(|other| other.birth);
        match &mut front {
            Some(last) if last.goes_on(birth, position) => {
                last.count = last.count.saturating_add(1);
            }
            _ => {
                write_front(out, front)?;
                front = Some(Front {
                    birth,
                    start: position,
                    count: 1,
                });
            }
        }
    }
    write_front(out, front)
}

/// The last lines: what each host consumed of each node.
fn write_hosts<W: Write>(out: &mut W, world: &World) -> io::Result<()> {
    for host in 0..MOST_HOSTS {
        for node in 0..MOST_NODES {
            let published = world.published(node).unwrap_or(&[]);
            if let Some(consumed) = world.consumed(host, node) {
                write!(out, "host {host} node {node}:")?;
                write_fronts(out, published, consumed)?;
                writeln!(out)?;
            }
        }
    }
    Ok(())
}

/// Does the events of the world that a file's text says, and prints what each did; last, for each host and node, what
/// the host consumed. Answers the status: 1 where an event was refused. What is wrong with a file, and where, is noted.
pub(crate) fn world<W: Write, N: Write>(
    alloc: Global,
    out: &mut W,
    notes: &mut N,
    text: &str,
) -> Result<u8, Stop> {
    let (mut world, events) = match world_of(alloc, text) {
        Ok(read) => read,
        Err(Misfit::NoMemory) => return Err(Stop::no_memory()),
        Err(Misfit::Wrong(place, cause)) => {
            let _ = writeln!(notes, "sparkplug: BadPlan: {place} {cause}");
            return Err(Stop::Fault(Fault::BadPlan));
        }
    };
    let all = write_events(out, &mut world, &events)?;
    write_hosts(out, &world)?;
    Ok(if all { 0 } else { 1 })
}
