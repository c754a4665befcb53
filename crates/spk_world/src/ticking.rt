//! A moment comes to a host.
ghost use Rattle.std.specs.Prelude.{◌≡◌, ◌⊎◌, ◌-◌, IfOk, IfErr, OnErr, OnOk, None};
ghost use Rattle.spk_world_rules.specs.Events as deed;
ghost use Rattle.spk_world_run.specs.Step as step;
ghost use Rattle.spk_world.specs.Outcome.{IsDone, IsRefused};

use crate::answer::Done;
use crate::fault::WorldFault;
use crate::member::{Member, followed};
use crate::node::Node;
use crate::world::World;
use spk_host::HostFault;

impl Member {
    /// A moment. Answers how many nodes had a gap.
    pub(crate) fn tick(&mut self, nodes: &[Node], now: u64) -> Result<usize, WorldFault>
        ensures gaps { IfOk result (λ gaps. gaps
            ≡ step.followed self.old.host nodes.now - step.followed
            (step.ticked self.old.host now) nodes.now) }
        ensures data { OnOk result
            (self.new ≡ record self.old { host = step.ticked self.old.host now }) }
        ensures refused { IfErr result (λ e. (e ≡ WorldFault.NoMemory)
            ⊎ ((e ≡ WorldFault.Host HostFault.WrongPhase) × (self.old.host.session.began ≡ None))) }
        ensures unchanged { OnErr result (self.new ≡ self.old) }
    {
        let before = followed(&self.host, nodes);
        self.host.tick(now)?;
        Ok(before.saturating_sub(followed(&self.host, nodes)))
    }
}

impl World {
    /// A moment comes to a host.
    pub(crate) fn tick(&mut self, host: usize, now: u64) -> Result<Done, WorldFault>
        ensures done { IfOk result (IsDone self.old (deed.Tick host now) self.new) }
        ensures refused { IfErr result (IsRefused self.old (deed.Tick host now)) }
        ensures unchanged { OnErr result (self.new ≡ self.old) }
    {
        if host >= self.hosts.len() {
            return Err(WorldFault::NoSuch);
        }
        let gaps = self.hosts[host].tick(&self.nodes, now)?;
        Ok(Done::Tick { gaps })
    }
}
