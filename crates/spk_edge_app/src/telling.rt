//! What the program itself tells the node.
ghost use Rattle.std.specs.Prelude.{◌≡◌, ◌⊎◌, [], IfErr, OnErr, OnOk, true, false};
ghost use Rattle.std.specs.Option.{option_map};
ghost use Rattle.spk_payload.specs.Typing.{typed_view};
ghost use Rattle.spk_edge.specs.Patch.{plain_input};
ghost use Rattle.spk_edge_rules.specs.Inputs as inputs;
ghost use Rattle.spk_edge_rules.specs.Rules.{is_born};
ghost use Rattle.spk_edge.specs.Several.{pairs};
ghost use Rattle.spk_edge_app.specs.Calls.{IsEnded, IsStopped, IsTold, IsToldAll, IsUntold, IsUntoldAll};

use crate::app::EdgeApp;
use crate::fault::{ChangesRefused, EdgeAppFault};
use spk_edge::Phase;
use spk_payload::Value;

impl EdgeApp {
    /// A metric, by its alias, has a value: it is sent, or kept (`EdgeNode::change`). What the node refuses changes nothing.
    pub fn change(
        &mut self,
        now: u64,
        alias: u64,
        value: &Option<Value>,
    ) -> Result<(), EdgeAppFault>
        ensures told { OnOk result (IsTold self.old
            (plain_input now (inputs.Change alias (option_map typed_view value.now))) self.new) }
        ensures refused { IfErr result (IsUntold self.old
            (plain_input now (inputs.Change alias (option_map typed_view value.now)))) }
        ensures err { OnErr result (self.new ≡ self.old) }
    {
        let out = self.node.change(now, alias, value)?;
        self.answer(out, now);
        Ok(())
    }

    /// Whether the node is told something: by no change it is where it is Born alone.
    fn is_told_something(&self, changes: &[(u64, Option<Value>)]) -> bool
        ensures some { result ≡ false → pairs changes.now ≡ [] }
        ensures waits { result ≡ false → is_born self.now.node.standing.asked.phase ≡ false }
        ensures each { result ≡ true → is_born self.now.node.standing.asked.phase ≡ false
            → pairs changes.now ≡ [] → ⊥ }
    {
        match self.node.phase() {
            Phase::Born => true,
            Phase::Idle | Phase::Connecting | Phase::Waiting => !changes.is_empty(),
        }
    }

    /// Several metrics of one owner have values: one message says them, or they are kept one by one (`EdgeNode::changes`). What the
    /// node refuses changes nothing, and comes with the place of the first one that is refused, where one is.
    pub fn changes(
        &mut self,
        now: u64,
        changes: &[(u64, Option<Value>)],
    ) -> Result<(), ChangesRefused>
        ensures told { OnOk result (IsToldAll self.old now (pairs changes.now) self.new) }
        ensures refused { IfErr result (IsUntoldAll self.old now (pairs changes.now)) }
        ensures err { OnErr result (self.new ≡ self.old) }
    {
        match self.node.changes(now, changes) {
            Ok(out) => {
                if self.is_told_something(changes) {
                    self.answer(out, now);
                }
                Ok(())
            }
            Err(refused) => Err(ChangesRefused {
                fault: refused.fault.into(),
                place: refused.place,
            }),
        }
    }

    /// A device, by its name, is up or down (`EdgeNode::device`). What the node refuses changes nothing.
    pub fn device(&mut self, now: u64, name: &str, up: bool) -> Result<(), EdgeAppFault>
        ensures told { OnOk result (IsTold self.old (plain_input now (inputs.Turn name.now up)) self.new) }
        ensures refused { IfErr result (IsUntold self.old (plain_input now (inputs.Turn name.now up))) }
        ensures err { OnErr result (self.new ≡ self.old) }
    {
        let out = self.node.device(now, name, up)?;
        self.answer(out, now);
        Ok(())
    }

    /// Ends a session in order: NDEATH, DISCONNECT.
    fn leave(&mut self, now: u64) -> Result<(), EdgeAppFault>
        ensures told { OnOk result (IsTold self.old (plain_input now inputs.Stop) self.new) }
        ensures refused { IfErr result (IsUntold self.old (plain_input now inputs.Stop)) }
        ensures err { OnErr result (self.new ≡ self.old) }
    {
        match self.node.stop(now) {
            Ok(out) => {
                self.answer(out, now);
                return Ok(());
            }
            Err(fault) => return Err(fault.into()),
        }
    }

    /// Ends a session in order. Where there is none the connection is given up.
    fn end_session(&mut self, now: u64) -> Result<(), EdgeAppFault>
        ensures ended { OnOk result (IsEnded self.old now self.new) }
        ensures refused { IfErr result (IsUntold self.old (plain_input now inputs.Stop)) }
        ensures err { OnErr result (self.new ≡ self.old) }
    {
        match self.node.phase() {
            Phase::Waiting | Phase::Born => self.leave(now),
            Phase::Idle | Phase::Connecting => {
                self.give_up(now);
                Ok(())
            }
        }
    }

    /// An orderly end: where there is a session NDEATH and DISCONNECT wait to be written, and then the connection is to be closed; and no other is
    /// opened. What the node refuses changes nothing.
    pub fn stop(&mut self, now: u64) -> Result<(), EdgeAppFault>
        ensures stopped { OnOk result (IsStopped self.old now self.new) }
        ensures refused { IfErr result (IsUntold self.old (plain_input now inputs.Stop)) }
        ensures err { OnErr result (self.new ≡ self.old) }
    {
        self.end_session(now)?;
        self.stopped = true;
        Ok(())
    }
}
