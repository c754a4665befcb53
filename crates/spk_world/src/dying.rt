//! The NDEATH of a session is handed to a host.
ghost use Rattle.std.specs.Prelude.{◌≡◌, ◌<◌, length, IfOk, IfErr, OnOk, OnErr, None, if◌then◌else◌};
ghost use Rattle.spk_world_rules.specs.Events as deed;
ghost use Rattle.spk_world_run.specs.Step as step;
ghost use Rattle.spk_world_run.specs.Tests as test;
ghost use Rattle.spk_world.specs.Handed.{IsTold, IsUntold};
ghost use Rattle.spk_world.specs.Outcome.{IsDone, IsRefused};
ghost use Rattle.spk_world.specs.View.{track_view};

use crate::answer::Done;
use crate::fault::WorldFault;
use crate::member::Member;
use crate::node::Node;
use crate::packets::{come, death_packet};
use crate::track::Track;
use crate::world::World;
use spk_host::Host;
use spk_sequence::Match;
use std::alloc::Global;

/// Whether the NDEATH of a session is that of the session of the birth taken last.
fn matched(taken: Option<u64>, session: u64) -> Match
    ensures { result ≡ (if step.is_session_at taken session then Match.Matched else Match.Ignored) }
{
    if taken == Some(session) {
        Match::Matched
    } else {
        Match::Ignored
    }
}

/// The NDEATH of a session of a node is handed to a host.
fn tell(
    alloc: Global,
    host: &mut Host,
    track: &Track,
    node: &Node,
    session: u64,
    now: u64,
) -> Result<Match, WorldFault>
    ensures done { IfOk result
        (IsTold host.old (track_view track.now) node.now session now host.new) }
    ensures passed { OnOk result (test.death_test node.now (track_view track.now) session ≡ None) }
    ensures refused { IfErr result (IsUntold host.old (track_view track.now) node.now session) }
    ensures unchanged { OnErr result (host.new ≡ host.old) }
{
    let Some(time) = node.opened_at(session) else {
        return Err(WorldFault::NotPublished);
    };
    if track.is_far(session) {
        return Err(WorldFault::TooFar);
    }
    let bytes = death_packet(alloc, node.config(), session, time)?;
    come(host, &bytes, now)?;
    Ok(matched(track.session, session))
}

impl Member {
    /// The NDEATH of a session of a node, which has this number, is handed to the host.
    pub(crate) fn tell(
        &mut self,
        alloc: Global,
        number: usize,
        node: &Node,
        session: u64,
        now: u64,
    ) -> Result<Match, WorldFault>
        requires { number < length self.old.tracks }
        ensures done { IfOk result
            (IsTold self.old.host
            (test.track_at self.old number) node.now session now self.new.host) }
        ensures tracks { self.new.tracks ≡ self.old.tracks }
        ensures passed { OnOk result
            (test.death_test node.now (test.track_at self.old number) session ≡ None) }
        ensures refused { IfErr result
            (IsUntold self.old.host (test.track_at self.old number) node.now session) }
        ensures unchanged { OnErr result (self.new ≡ self.old) }
    {
        tell(
            alloc,
            &mut self.host,
            &self.tracks[number],
            node,
            session,
            now,
        )
    }
}

impl World {
    /// The NDEATH of a session of a node is handed to a host.
    pub(crate) fn tell_death(
        &mut self,
        host: usize,
        node: usize,
        session: u64,
        now: u64,
    ) -> Result<Done, WorldFault>
        ensures done { IfOk result (IsDone self.old (deed.Death host node session now) self.new) }
        ensures refused { IfErr result (IsRefused self.old (deed.Death host node session now)) }
        ensures unchanged { OnErr result (self.new ≡ self.old) }
    {
        if host >= self.hosts.len() || node >= self.nodes.len() {
            return Err(WorldFault::NoSuch);
        }
        let told = self.hosts[host].tell(self.alloc, node, &self.nodes[node], session, now)?;
        Ok(Done::Death(told))
    }
}
