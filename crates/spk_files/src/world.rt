//! A world's file: edge nodes, hosts and events, as JSON.
ghost use Rattle.std.specs.Prelude.{◌≤◌, IfOk, length};
ghost use Rattle.spk_files.specs.Begun.{IsBegun};

use crate::events::events_of;
use crate::fault::FileFault;
use crate::metrics::values_of;
use crate::misfit::{Cause, Misfit, Place};
use crate::nodes::{Setup, nodes_of};
use crate::part::Part;
use crate::text::json_of;
use spk_host::HostConfig;
use spk_payload::Values;
use spk_sequence::Width;
use spk_world::{Event, World, WorldFault};
use std::alloc::{AllocError, Global};

/// The most hosts of a file.
pub const MOST_HOSTS: usize = 4;
/// The width of a host's window where the file says nothing.
const WIDTH: u64 = 64;
/// The widest window.
const WIDEST: u64 = 96;

const WORLD: [&str; 6] = ["nodes", "hosts", "wait", "events", "width", "values"];

/// The host of a number: `H0` and so on. Each follows the group `G`.
fn host_of(alloc: Global, number: u64, wait: u64, width: Width) -> Result<HostConfig, AllocError> {
    Ok(HostConfig {
        name: format!(in alloc; "H{number}")?,
        group: String::from_str(alloc, "G")?,
        wait,
        keep: 0,
        width,
    })
}

/// The width of each host's window: 1 to 96.
pub(crate) fn width_of(part: Part<'_>) -> Result<Width, Misfit> {
    let places = match part.find("width") {
        Some(width) => width.number(1, WIDEST)?,
        None => WIDTH,
    };
    let width = u8::try_from(places).ok().and_then(Width::new);
    width.ok_or(part.wrong(Cause::Outside(1, WIDEST)))
}

/// The hosts, 0 to 4.
fn hosts_of(alloc: Global, part: Part<'_>) -> Result<Vec<HostConfig>, Misfit>
    ensures { IfOk result (λ hs. length hs.items ≤ 4) }
{
    let count = part.member("hosts")?.number(0, MOST_HOSTS as u64)?;
    let wait = part.member("wait")?.any_number()?;
    let width = width_of(part)?;
    let mut hosts = Vec::new(alloc);
    for number in 0..count {
        hosts.push(host_of(alloc, number, wait, width)?)?;
    }
    Ok(hosts)
}

/// The world.
fn made(alloc: Global, nodes: Vec<Setup>, hosts: Vec<HostConfig>) -> Result<World, Misfit>
    requires nodes { length nodes.items ≤ 16 }
    requires hosts { length hosts.items ≤ 4 }
    ensures { IfOk result IsBegun }
{
    match World::new(alloc, nodes, hosts) {
        Ok(world) => Ok(world),
        Err(WorldFault::NoMemory) => Err(Misfit::NoMemory),
        Err(fault) => Err(Misfit::Wrong(Place::FILE, Cause::World(fault))),
    }
}

/// The world and the events that a text says, or what is wrong with it, and where. Nothing was done in the world; a file has at most
/// 16 nodes, 4 hosts and 100,000 events (own limits).
pub fn world_of(alloc: Global, text: &str) -> Result<(World, Vec<Event>), Misfit>
    ensures begins { IfOk result (λ r. IsBegun r.0) }
    ensures events { IfOk result (λ r. length r.1.items ≤ 100000) }
{
    let json = json_of(alloc, text)?;
    let file = Part::file(&json);
    file.only(alloc, &WORLD)?;
    let values = values_of(file, Values::Whole)?;
    let nodes = nodes_of(alloc, file.member("nodes")?, values)?;
    let hosts = hosts_of(alloc, file)?;
    let events = events_of(alloc, &nodes, file.member("events")?)?;
    Ok((made(alloc, nodes, hosts)?, events))
}

/// The world and the events that a text says. A text that says none is BadPlan.
pub fn read_world(alloc: Global, text: &str) -> Result<(World, Vec<Event>), FileFault>
    ensures begins { IfOk result (λ r. IsBegun r.0) }
    ensures events { IfOk result (λ r. length r.1.items ≤ 100000) }
{
    match world_of(alloc, text) {
        Ok(read) => Ok(read),
        Err(misfit) => Err(FileFault::of(&misfit)),
    }
}
