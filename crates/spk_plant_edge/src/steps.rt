//! The steps of a script.
ghost use Rattle.std.specs.Prelude.{◌≡◌, ◌++◌, [], ◌∷◌, OnOk};
ghost use Rattle.spk_payload.specs.Typing.{typed_view};
ghost use Rattle.spk_edge.specs.View.{act_view};
ghost use Rattle.spk_edge_rules.specs.Inputs as inputs;
ghost use Rattle.spk_ingress.specs.Passes.{PutsInto};
ghost use Rattle.spk_plan.specs.declared.script.Step.TheVariants as step;
ghost use Rattle.spk_rings.specs.Ring.{ahead};
ghost use Rattle.spk_plant_edge.specs.At.{Goes, PutsOn};
ghost use Rattle.spk_plant_edge.specs.Script.{Asked, Drained, Leads, StepLeads, ramp, number_of};

use crate::desk::Desk;
use crate::fault::EdgeCause;
use spk_device::Alias;
use spk_edge::Act;
use spk_ingress::Ingress;
use spk_payload::Value;
use spk_plan::{Gate, Sort, Step};
use std::sync::Wait;
use std::thread::Parker;

/// A whole number as a value.
fn value_of(sort: Sort, number: u32) -> Value
    ensures { typed_view result ≡ number_of sort number }
{
    match sort {
        Sort::Signed => Value::Signed(i64::from(number)),
        Sort::Unsigned => Value::Unsigned(u64::from(number)),
    }
}

impl Desk {
    /// Reads the ring, and does one act.
    fn once<R: Wait, G: Gate>(
        &mut self,
        rt: &R,
        gate: &G,
        ingress: &Ingress,
        act: Act<'_>,
    ) -> Result<bool, EdgeCause>
        requires { PutsInto ingress.now self.old.sender.pass }
        ensures pass { PutsOn ingress.now self.old.sender.pass self.new.sender.pass }
        ensures asked { OnOk result (Goes (λ s before after.
            Asked (act_view act.entry ∷ []) before after) self.old self.new) }
        ensures emptied { OnOk result (ahead self.new.inlet ≡ []) }
    {
        self.read(rt, gate, ingress)?;
        let refused = self.ask(rt, gate, ingress, act)?;
        Ok(refused)
    }

    /// Opens a connection.
    fn open<R: Wait, G: Gate>(
        &mut self,
        rt: &R,
        gate: &G,
        ingress: &Ingress,
    ) -> Result<(), EdgeCause>
        requires { PutsInto ingress.now self.old.sender.pass }
        ensures pass { PutsOn ingress.now self.old.sender.pass self.new.sender.pass }
        ensures asked { OnOk result (Goes (λ s before after.
            Asked (inputs.Open ∷ []) before after) self.old self.new) }
    {
        self.once(rt, gate, ingress, Act::Open)?;
        Ok(())
    }

    /// Reads the ring until there is nothing to wait for, or the ring is gone; between, the thread is parked.
    fn await_births<R: Wait, G: Gate>(
        &mut self,
        rt: &R,
        gate: &G,
        ingress: &Ingress,
        bell: &Parker,
    ) -> Result<(), EdgeCause>
        requires { PutsInto ingress.now self.old.sender.pass }
        ensures pass { PutsOn ingress.now self.old.sender.pass self.new.sender.pass }
        ensures asked { OnOk result
            (Goes (λ s before after. Asked [] before after) self.old self.new) }
    {
        for _ in rt.forever() {
            let is_gone = self.is_ring_gone();
            self.read(rt, gate, ingress)?;
            if is_gone || self.is_settled() {
                return Ok(());
            }
            bell.park(rt);
        }
        unreachable!()
    }

    /// Changes a metric to 1, to 2 and so on.
    fn ramp<R: Wait, G: Gate>(
        &mut self,
        rt: &R,
        gate: &G,
        ingress: &Ingress,
        alias: Alias,
        sort: Sort,
        changes: u32,
    ) -> Result<(), EdgeCause>
        requires { PutsInto ingress.now self.old.sender.pass }
        ensures pass { PutsOn ingress.now self.old.sender.pass self.new.sender.pass }
        ensures asked { OnOk result (Goes (λ s before after.
            Asked (ramp alias sort changes) before after) self.old self.new) }
    {
        for before in 0..changes {
            let value = Some(value_of(sort, before + 1));
            self.once(rt, gate, ingress, Act::Change(alias, &value))?;
        }
        Ok(())
    }

    /// Sends kept changes until none is left, the node isn't born, or it refuses.
    fn drain<R: Wait, G: Gate>(
        &mut self,
        rt: &R,
        gate: &G,
        ingress: &Ingress,
    ) -> Result<(), EdgeCause>
        requires { PutsInto ingress.now self.old.sender.pass }
        ensures pass { PutsOn ingress.now self.old.sender.pass self.new.sender.pass }
        ensures drained { OnOk result
            (Goes (λ s before after. Drained s before after) self.old self.new) }
    {
        for _ in rt.forever() {
            if !self.may_drain() {
                return Ok(());
            }
            let refused = self.ask(rt, gate, ingress, Act::Drain)?;
            if refused {
                return Ok(());
            }
        }
        unreachable!()
    }

    /// Reads the ring, and then sends what is kept.
    fn read_and_drain<R: Wait, G: Gate>(
        &mut self,
        rt: &R,
        gate: &G,
        ingress: &Ingress,
    ) -> Result<(), EdgeCause>
        requires { PutsInto ingress.now self.old.sender.pass }
        ensures pass { PutsOn ingress.now self.old.sender.pass self.new.sender.pass }
        ensures drained { OnOk result (Goes (λ s before after. StepLeads s step.Drain before after)
            self.old self.new) }
    {
        self.read(rt, gate, ingress)?;
        self.drain(rt, gate, ingress)?;
        Ok(())
    }

    /// Does a step of the script.
    fn run_step<R: Wait, G: Gate>(
        &mut self,
        rt: &R,
        gate: &G,
        ingress: &Ingress,
        bell: &Parker,
        step: &Step,
    ) -> Result<(), EdgeCause>
        requires { PutsInto ingress.now self.old.sender.pass }
        ensures pass { PutsOn ingress.now self.old.sender.pass self.new.sender.pass }
        ensures led { OnOk result (Goes (λ s before after. StepLeads s step.now before after)
            self.old self.new) }
    {
        let act = match step {
            Step::Open => return self.open(rt, gate, ingress),
            Step::Born => return self.await_births(rt, gate, ingress, bell),
            Step::Ramp {
                alias,
                sort,
                changes,
            } => return self.ramp(rt, gate, ingress, *alias, *sort, *changes),
            Step::Drain => return self.read_and_drain(rt, gate, ingress),
            Step::Set { alias, value } => Act::Change(*alias, value),
            Step::Device { name, up } => Act::Device(name.as_str(), *up),
            Step::Cut => Act::Cut,
            Step::Stop => Act::Stop,
        };
        self.once(rt, gate, ingress, act)?;
        Ok(())
    }

    /// Does a script, step by step, and then a last stop.
    pub(crate) fn run<R: Wait, G: Gate>(
        &mut self,
        rt: &R,
        gate: &G,
        ingress: &Ingress,
        bell: &Parker,
        script: &[Step],
    ) -> Result<(), EdgeCause>
        requires { PutsInto ingress.now self.old.sender.pass }
        ensures pass { PutsOn ingress.now self.old.sender.pass self.new.sender.pass }
        ensures led { OnOk result (Goes (λ s before after.
            Leads s (script.now ++ step.Stop ∷ []) before after) self.old self.new) }
        ensures emptied { OnOk result (ahead self.new.inlet ≡ []) }
    {
        for step in script {
            self.run_step(rt, gate, ingress, bell, step)?;
        }
        self.once(rt, gate, ingress, Act::Stop)?;
        Ok(())
    }
}
