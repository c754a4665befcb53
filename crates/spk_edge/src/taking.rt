//! A plan that holds its node, so that it is of the node as it is when it is taken up.
ghost use Rattle.std.specs.Prelude.{◌≡◌, ◌⊎◌, IfOk, IfErr};
ghost use Rattle.spk_edge_rules.specs.Inputs as inputs;
ghost use Rattle.spk_edge.specs.Patch as patch;
ghost use Rattle.spk_edge.specs.View.{input_view};

use crate::input::Input;
use crate::message::Published;
use crate::node::EdgeNode;
use crate::plan::{Plan, Taken};
use spk_edge_rules::EdgeFault;
use std::fmt;

/// A node with a plan of it: `Planned<'_, Plan>` is what `EdgeNode::plan` answers. It holds the node, so that nothing is
/// done with it until the plan is taken up or let go, and no other plan of it is there. Let go, it changes nothing.
pub struct Planned<'n, P: Drop> {
    pub(crate) node: &'n mut EdgeNode,
    pub(crate) plan: P,
}

impl<P: Drop> Drop for Planned<'_, P> {
    fn drop(self)
        ensures { self.exit.0.now ≡ self.entry.node.now }
    {
        let Planned { node: _, plan } = self;
        drop(plan);
    }
}

impl<P: Drop> fmt::Debug for Planned<'_, P> {
    fn fmt<W: fmt::Write>(&self, f: &mut fmt::Formatter<W>) -> fmt::Result {
        f.write_str("Planned { .. }")
    }
}

impl<'n> Planned<'n, Plan> {
    /// What will be published, in order.
    pub fn messages(&self) -> &[Published]
        ensures { result.now ≡ self.now.plan.messages.items }
    {
        &self.plan.messages
    }

    /// What the plan says is so from now on. Takes no memory.
    pub fn take_up(self) -> Taken
        ensures data { self.exit.0.now ≡ patch.patched self.entry.node.now self.entry.plan }
        ensures done { (i : inputs.Input) → patch.IsPlan self.entry.node.now i self.entry.plan
            → patch.IsDone self.entry.node.now i self.exit.0.now result.out }
        ensures out { result.out ≡ self.entry.plan.out }
        ensures messages { result.messages ≡ self.entry.plan.messages }
    {
        let Planned { node, plan } = self;
        node.take(plan)
    }
}

impl EdgeNode {
    ghost use Rattle.std.specs.Borrow.{sem};
    ghost use Rattle.spk_edge.specs.Holding.{Rests};

    /// The plan of an input. It makes all growths, and changes nothing.
    ///
    /// Refuses in this order: WrongPhase (60), ClockEnd (61) for a moment of 2^63 or more, what the act itself refuses,
    /// ClockEnd for a stamp that is needed, TooLarge (64). NoMemory (1) comes from no input that gives and sets nothing,
    /// as a value that is the metric's already.
    pub fn plan(&mut self, input: Input<'_>) -> Result<Planned<'_, Plan>, EdgeFault>
        ensures* rests { sem 𝓛 (Rests self.entry result) }
        ensures held { IfOk result (λ p. p.node.ghost_name ≡ self.entry.ghost_name) }
        ensures same { IfOk result (λ p. p.node.now ≡ self.old) }
        ensures planned { IfOk result (λ p. patch.IsPlan self.old (input_view input.entry) p.plan) }
        ensures refused { IfErr result (patch.IsRefusal self.old (input_view input.entry)) }
        ensures memory { IfErr result (patch.IsShort self.old (input_view input.entry)) }
    {
        let plan = self.planned(input)?;
        Ok(Planned { node: self, plan })
    }
}
