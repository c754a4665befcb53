//! A message is handed to a host.
ghost use Rattle.std.specs.Prelude.{◌≡◌, ◌<◌, ◌≤◌, length, IfOk, IfErr, OnOk, OnErr, None};
ghost use Rattle.spk_world_rules.specs.Events as deed;
ghost use Rattle.spk_world_run.specs.Step as step;
ghost use Rattle.spk_world_run.specs.Tests as test;
ghost use Rattle.spk_world.specs.Handed.{IsHanded, IsHandedTo, IsJudged, IsUnhanded, message_refusal_at, most_of};
ghost use Rattle.spk_world.specs.Outcome.{IsDone, IsRefused};
ghost use Rattle.spk_world.specs.View.{published_view, track_view};

use crate::answer::Done;
use crate::fault::WorldFault;
use crate::member::{Member, follows};
use crate::node::Node;
use crate::packets::tell;
use crate::records::Published;
use crate::track::Track;
use crate::world::World;
use spk_edge::Numbering;
use spk_host::Host;
use spk_sequence::Step;
use std::alloc::Global;

/// Whether the numbers of a node restart, and the NBIRTH of a message's birth wasn't handed before it.
fn overtakes(node: &Node, track: &Track, position: u64) -> bool
    ensures { result ≡ test.overtakes_at node.now.node.config.numbering node.now
        (track_view track.now) position }
{
    match node.config().numbering {
        Numbering::RunsOn => false,
        Numbering::Restarts => !node.is_opening(position)
            && !track.births.contains(&node.start_at(position)),
    }
}

/// Why the message of a position isn't handed, in the order in which the causes are tried.
fn judge(
    host: &Host,
    node: &Node,
    track: &Track,
    position: u64,
    message: &Published,
) -> Result<(), WorldFault>
    ensures { IsJudged result
        (test.message_test host.now node.now (track_view track.now) position
        (published_view message.now)) }
{
    let width = host.config().width.get();
    if track.is_outside(width, follows(host, node), position) {
        return Err(WorldFault::OutsideWindow);
    }
    if node.is_opening(position) && track.is_far(message.session) {
        return Err(WorldFault::TooFar);
    }
    if overtakes(node, track, position) {
        return Err(WorldFault::OvertakesBirth);
    }
    Ok(())
}

/// What became of the one message that was handed.
fn only(steps: &[Step]) -> Step
    ensures { result ≡ step.step_in steps.now }
{
    steps.first().copied().unwrap_or(Step::NotLive)
}

/// A step consumes at most 256 messages, since it counts them in a byte.
fn is_few(step: Step)
    ensures { most_of step ≤ 256 }
{
    match step {
        Step::Consumed(_count) => {}
        _ => {}
    }
}

/// The message of a position of a node is handed to a host.
fn hand(
    alloc: Global,
    host: &mut Host,
    track: &mut Track,
    node: &Node,
    position: u64,
    now: u64,
) -> Result<Step, WorldFault>
    ensures done { IfOk result
        (IsHanded host.old (track_view track.old) node.now position now host.new
        (track_view track.new)) }
    ensures passed { OnOk result
        (message_refusal_at host.old (track_view track.old) node.now position ≡ None) }
    ensures refused { IfErr result (IsUnhanded host.old (track_view track.old) node.now position) }
    ensures host { OnErr result (host.new ≡ host.old) }
    ensures track { OnErr result (track_view track.new ≡ track_view track.old) }
{
    let Some(message) = node.message_at(position) else {
        return Err(WorldFault::NotPublished);
    };
    judge(host, node, track, position, message)?;
    let heard = message.heard(alloc)?;
    track.reserve()?;
    let out = match tell(host, heard, now) {
        Ok(out) => out,
        Err(fault) => return Err(fault),
    };
    let step = only(&out.steps);
    is_few(step);
    track.take(
        position,
        node.is_opening(position),
        message.session,
        out.consumed,
    );
    Ok(step)
}

impl Member {
    /// The message of a position of a node, which has this number, is handed to the host.
    pub(crate) fn hand(
        &mut self,
        alloc: Global,
        number: usize,
        node: &Node,
        position: u64,
        now: u64,
    ) -> Result<Step, WorldFault>
        requires { number < length self.old.tracks }
        ensures done { IfOk result (IsHandedTo self.old number node.now position now self.new) }
        ensures passed { OnOk result
            (message_refusal_at self.old.host (test.track_at self.old number) node.now position
            ≡ None) }
        ensures refused { IfErr result
            (IsUnhanded self.old.host (test.track_at self.old number) node.now position) }
        ensures unchanged { OnErr result (self.new ≡ self.old) }
    {
        hand(
            alloc,
            &mut self.host,
            &mut self.tracks[number],
            node,
            position,
            now,
        )
    }
}

impl World {
    /// The message of a position of a node is handed to a host.
    pub(crate) fn hand(
        &mut self,
        host: usize,
        node: usize,
        position: u64,
        now: u64,
    ) -> Result<Done, WorldFault>
        ensures done { IfOk result (IsDone self.old (deed.Hand host node position now) self.new) }
        ensures refused { IfErr result (IsRefused self.old (deed.Hand host node position now)) }
        ensures unchanged { OnErr result (self.new ≡ self.old) }
    {
        if host >= self.hosts.len() || node >= self.nodes.len() {
            return Err(WorldFault::NoSuch);
        }
        let step = self.hosts[host].hand(self.alloc, node, &self.nodes[node], position, now)?;
        Ok(Done::Hand(step))
    }
}
