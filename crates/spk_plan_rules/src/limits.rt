//! The limits of a plan (own rules).
ghost use Rattle.std.specs.Prelude.{◌≡◌, ◌↔◌, count_by, nat_le, true};
ghost use Rattle.std.specs.List.{AllByRecursion, list_all, list_any};
ghost use Rattle.spk_plan_rules.specs.Plan.{HasLawful, IsMade, IsWithin, are_distinct, changes_at, changes_in, fits, has_name, is_open};

use spk_plan::{Plan, PlanNode, Step};

/// Whether a step opens a connection.
fn is_open(step: &Step) -> bool
    ensures { result ≡ is_open step.now }
{
    matches!(step, Step::Open)
}

/// How many changes a step asks for.
fn changes_at(step: &Step) -> u32
    ensures { result ≡ changes_at step.now }
{
    match step {
        Step::Open => 0,
        Step::Born => 0,
        Step::Set { .. } => 1,
        Step::Ramp { changes, .. } => *changes,
        Step::Device { .. } => 0,
        Step::Drain => 0,
        Step::Cut => 0,
        Step::Stop => 0,
    }
}

/// Whether a script asks for at most so many changes.
fn changes_fit(script: &[Step], most: u32) -> bool
    ensures { result ≡ nat_le (changes_in script.now) most }
{
    let mut left = most;
    for step in script {
        let changes = changes_at(step);
        if changes > left {
            return false;
        }
        left -= changes;
    }
    true
}

/// How many connections a script opens.
fn opens(script: &[Step]) -> usize
    ensures { result ≡ count_by is_open script.now }
{
    script.iter().filter(|step| is_open(step)).count()
}

/// Whether a node's script is within its limits: at most 200 connections, and 100,000 changes.
fn fits(node: &PlanNode) -> bool
    ensures { result ≡ fits node.now }
{
    let script = node.script.as_slice();
    opens(script) <= 200 && changes_fit(script, 100_000)
}

/// Whether each node's script is within its limits.
fn all_fit(nodes: &[PlanNode]) -> bool
    ensures { result ≡ list_all fits nodes.now }
{
    nodes.iter().all(|node| fits(node))
}

/// Whether one of these nodes has a name.
fn has_name(nodes: &[PlanNode], name: &str) -> bool
    ensures { result ≡ list_any (has_name name.now) nodes.now }
{
    nodes.iter().any(|node| node.node.as_str() == name)
}

/// Whether no two nodes have one name.
fn are_distinct(nodes: &[PlanNode]) -> bool
    ensures { result ≡ are_distinct nodes.now }
{
    let Some((first, rest)) = nodes.split_first() else {
        return true;
    };
    if has_name(rest, first.node.as_str()) {
        return false;
    }
    are_distinct(rest)
}

/// Whether a plan is within its limits: 1 to 16 nodes, no two of one name; a ring of 4 to 65,536 and an ingress of 1 to 65,536; of each
/// node at most 200 `Open` steps and 100,000 changes, `Set` steps and ramps summed.
pub fn is_within(plan: &Plan) -> bool
    ensures { (result ≡ true) ↔ IsWithin plan.now }
{
    let nodes = plan.nodes.as_slice();
    if !(1..=16).contains(&nodes.len()) {
        return false;
    }
    if !(4..=65_536).contains(&plan.ring) || !(1..=65_536).contains(&plan.ingress) {
        return false;
    }
    if !all_fit(nodes) {
        return false;
    }
    are_distinct(nodes)
}

/// Every registry is lawful.
fn are_lawful(nodes: &[PlanNode])
    ensures { AllByRecursion HasLawful nodes.now }
{
    for node in nodes {
        let _count = node.registry.device_count();
    }
}

/// Every plan has lawful registries, and the width of a window: a function that does little, whose contract says what the types of a
/// plan's parts do.
pub fn is_made(plan: &Plan)
    ensures { IsMade plan.now }
{
    let _places = plan.width.get();
    are_lawful(plan.nodes.as_slice());
}
