//! A host's session ends, and its next begins.
ghost use Rattle.std.specs.Prelude.{◌≡◌, map, IfOk, IfErr, OnErr, OnOk};
ghost use Rattle.spk_world_rules.specs.Events as deed;
ghost use Rattle.spk_world_run.specs.Data.{no_track};
ghost use Rattle.spk_world_run.specs.Step as step;
ghost use Rattle.spk_world.specs.Outcome.{IsDone, IsRefused};
ghost use Rattle.spk_world.specs.View.{track_view};

use crate::answer::Done;
use crate::fault::WorldFault;
use crate::member::Member;
use crate::track::Track;
use crate::world::World;
use std::alloc::AllocError;

/// Each track is emptied.
fn clear_all(tracks: &mut [Track])
    ensures { map track_view tracks.new ≡ map (λ t. no_track) (map track_view tracks.old) }
{
    for track in tracks.iter_mut() {
        track.clear();
    }
}

impl Member {
    /// The next session begins.
    pub(crate) fn renew(&mut self, now: u64) -> Result<(), AllocError>
        ensures data { OnOk result (self.new ≡ record {
          host = step.renewed self.old.host now;
          tracks = map (λ t. no_track) self.old.tracks;
        }) }
        ensures unchanged { OnErr result (self.new ≡ self.old) }
    {
        self.host.renew(now)?;
        clear_all(&mut self.tracks);
        Ok(())
    }
}

impl World {
    /// A host's session ends, and its next begins.
    pub(crate) fn renew(&mut self, host: usize, now: u64) -> Result<Done, WorldFault>
        ensures done { IfOk result (IsDone self.old (deed.Renew host now) self.new) }
        ensures refused { IfErr result (IsRefused self.old (deed.Renew host now)) }
        ensures unchanged { OnErr result (self.new ≡ self.old) }
    {
        if host >= self.hosts.len() {
            return Err(WorldFault::NoSuch);
        }
        self.hosts[host].renew(now)?;
        Ok(Done::Session)
    }
}
