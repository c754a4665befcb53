//! A plan's file: edge nodes with their scripts, a broker and a host, as JSON.
ghost use Rattle.std.specs.Prelude.{◌≡◌, ◌≤◌, true, length, IfOk};
ghost use Rattle.std.specs.List.{list_all, list_any};
ghost use Rattle.std.specs.Str.{bytes_eq};
ghost use Rattle.std.specs.String.{string_bytes};
ghost use Rattle.spk_plan.specs.declared.plan.PlanNode.{PlanNode};
ghost use Rattle.spk_plan_rules.specs.Plan.{CanRun, are_distinct, fits};
ghost use Rattle.spk_files.specs.Plan.{is_well_made};

use crate::fault::FileFault;
use crate::metrics::{registry_of, values_of};
use crate::misfit::{Cause, Misfit};
use crate::names::{name_of, short_name_of};
use crate::nodes::{MOST_KEPT, MOST_NODES};
use crate::part::Part;
use crate::script::script_of;
use crate::text::json_of;
use crate::world::width_of;
use spk_payload::Values;
use spk_plan::{Plan, PlanNode};
use std::alloc::Global;

/// The least capacity of a ring.
const LEAST_RING: u64 = 4;
/// The greatest capacity of a ring, and of the channel to the broker.
const MOST_ROOM: u64 = 65_536;

const PLAN: [&str; 8] = [
    "group", "host", "ring", "ingress", "wait", "width", "nodes", "values",
];

const NODE: [&str; 5] = ["node", "capacity", "devices", "metrics", "script"];

/// A node.
#[tactic(auto, using(crate::proofs::Limits::fits_both, crate::proofs::Limits::made_well))]
fn node_of(alloc: Global, part: Part<'_>, values: Values) -> Result<PlanNode, Misfit>
    ensures fits { IfOk result (λ n. fits n ≡ true) }
    ensures made { IfOk result (λ n. is_well_made n ≡ true) }
{
    part.only(alloc, &NODE)?;
    let node = name_of(alloc, part.member("node")?)?;
    let capacity = part.member("capacity")?.number(1, MOST_KEPT)? as usize;
    let registry = registry_of(alloc, part, values)?;
    let script = script_of(alloc, &registry, part.member("script")?)?;
    Ok(PlanNode {
        node,
        capacity,
        registry,
        script,
    })
}

/// Whether a node of that name is there.
fn is_there(nodes: &[PlanNode], name: &str) -> bool
    ensures { result ≡ list_any
        (λ (n : PlanNode). bytes_eq name.now (string_bytes n.node)) nodes.now }
{
    nodes.iter().any(|node| name == node.node.as_str())
}

/// The nodes of a plan, 1 to 16, no two of one name.
fn nodes_of(alloc: Global, part: Part<'_>, values: Values) -> Result<Vec<PlanNode>, Misfit>
    ensures some { IfOk result (λ ns. 1 ≤ length ns.items) }
    ensures most { IfOk result (λ ns. length ns.items ≤ 16) }
    ensures fit { IfOk result (λ ns. list_all fits ns.items ≡ true) }
    ensures made { IfOk result (λ ns. list_all is_well_made ns.items ≡ true) }
    ensures distinct { IfOk result (λ ns. are_distinct ns.items ≡ true) }
{
    let mut nodes = Vec::new(alloc);
    for index in 0..part.items(MOST_NODES)?.len() {
        let place = part.item(index)?;
        let node = node_of(alloc, place, values)?;
        if is_there(&nodes, node.node.as_str()) {
            return Err(place.wrong(Cause::Namesake));
        }
        nodes.push(node)?;
    }
    if nodes.is_empty() {
        return Err(part.wrong(Cause::Empty));
    }
    Ok(nodes)
}

/// The plan that a text says, or what is wrong with it, and where. `run_plant` refuses no such plan: it is within the limits (own rules:
/// 1 to 16 nodes, no two of one name; rings of 4 to 65,536 and a channel of 1 to 65,536; of each node at most 200 open steps and
/// 100,000 changes), and of its names and capacities edge nodes and a host can be made.
pub fn plan_of(alloc: Global, text: &str) -> Result<Plan, Misfit>
    ensures { IfOk result CanRun }
{
    let json = json_of(alloc, text)?;
    let file = Part::file(&json);
    file.only(alloc, &PLAN)?;
    let group = short_name_of(alloc, file.member("group")?)?;
    let host = short_name_of(alloc, file.member("host")?)?;
    let ring = file.member("ring")?.number(LEAST_RING, MOST_ROOM)? as usize;
    let ingress = file.member("ingress")?.number(1, MOST_ROOM)? as usize;
    let wait = file.member("wait")?.any_number()?;
    let width = width_of(file)?;
    let values = values_of(file, Values::Whole)?;
    let nodes = nodes_of(alloc, file.member("nodes")?, values)?;
    Ok(Plan {
        group,
        host,
        ring,
        ingress,
        wait,
        width,
        nodes,
    })
}

/// The plan that a text says. A text that says none is BadPlan.
pub fn read_plan(alloc: Global, text: &str) -> Result<Plan, FileFault>
    ensures { IfOk result CanRun }
{
    match plan_of(alloc, text) {
        Ok(plan) => Ok(plan),
        Err(misfit) => Err(FileFault::of(&misfit)),
    }
}
