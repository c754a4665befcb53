//! What a node hears of its primary host (Sparkplug 3.0.0, chapters 5 and 6, STATE).
ghost use Rattle.std.specs.Prelude.{◌≡◌, ◌⊎◌, IfOk, IfErr, None, Some, false};
ghost use Rattle.spk_state.specs.Step.{after_heard, heard_as};
ghost use Rattle.spk_state.specs.Text.{state_at};
ghost use Rattle.spk_edge_rules.specs.Inputs as inputs;
ghost use Rattle.spk_edge_rules.specs.Rules as rule;
ghost use Rattle.spk_edge.specs.Patch as patch;
ghost use Rattle.spk_edge.specs.View.{given_of, given_view};

use crate::message::Given;
use crate::node::EdgeNode;
use spk_edge_rules::{EdgeFault, Phase};
use spk_state::{Heard, State, StateFault};
use std::alloc::Global;

/// What a STATE's payload says.
fn state_in(alloc: Global, payload: &[u8]) -> Result<State, EdgeFault>
    ensures state { IfOk result (λ s. state_at payload.now ≡ Some s) }
    ensures fault { IfErr result (λ e. (e ≡ EdgeFault.NoMemory)
        ⊎ ((e ≡ EdgeFault.State StateFault.BadState) × (state_at payload.now ≡ None))) }
{
    match State::decode(alloc, payload) {
        Ok(state) => Ok(state),
        Err(StateFault::NoMemory) => Err(EdgeFault::NoMemory),
        Err(StateFault::BadState) => Err(EdgeFault::State(StateFault::BadState)),
    }
}

impl EdgeNode {
    /// The births of a Waiting node whose primary host is online; a Born one leaves when it is offline.
    fn hearing(&self, now: u64, heard: Heard) -> Result<Given, EdgeFault>
        ensures given { IfOk result (λ g. given_view g
            ≡ given_of self.now.config self.now.standing.asked.heard
            (rule.hearing self.now.config self.now.standing.asked now heard)) }
        ensures fault { IfErr result (λ e. (e ≡ EdgeFault.NoMemory) ⊎ ((e ≡ EdgeFault.ClockEnd)
            × (rule.is_timely (rule.hearing self.now.config self.now.standing.asked now heard)
            ≡ false))) }
    {
        match heard {
            Heard::Online => {
                if self.tally.phase == Phase::Waiting {
                    return self.bearing(now, self.nothing());
                }
                Ok(self.nothing())
            }
            Heard::Offline => {
                if self.tally.phase == Phase::Born {
                    return Ok(self.leaving()?);
                }
                Ok(self.nothing())
            }
            Heard::Ignored => Ok(self.nothing()),
        }
    }

    /// A STATE of the primary host is heard.
    fn hearing_state(&self, now: u64, state: State) -> Result<Given, EdgeFault>
        ensures given { IfOk result (λ g. given_view g ≡ given_of self.now.config
            (after_heard self.now.standing.asked.heard state)
            (rule.hearing self.now.config self.now.standing.asked now
            (heard_as self.now.standing.asked.heard state))) }
        ensures fault { IfErr result (λ e. (e ≡ EdgeFault.NoMemory) ⊎ ((e ≡ EdgeFault.ClockEnd)
            × (rule.is_timely (rule.hearing self.now.config self.now.standing.asked now
            (heard_as self.now.standing.asked.heard state)) ≡ false))) }
    {
        let mut primary = self.tally.heard;
        let heard = primary.hear(state);
        let mut given = self.hearing(now, heard)?;
        given.heard = primary;
        Ok(given)
    }

    /// A STATE of the primary host, by its payload; nothing where there is no such host.
    pub(crate) fn stating(&self, now: u64, payload: &[u8]) -> Result<Given, EdgeFault>
        ensures given { IfOk result (patch.IsGivenBy self.now (patch.plain_input now
            (inputs.State payload.now))) }
        ensures fault { IfErr result (patch.IsRefusedBy self.now (patch.plain_input now
            (inputs.State payload.now))) }
    {
        if self.config.primary.is_none() {
            return Ok(self.nothing());
        }
        let state = state_in(self.alloc, payload)?;
        self.hearing_state(now, state)
    }
}
