//! The script of a plan's node.
ghost use Rattle.std.specs.Prelude.{◌≡◌, ◌≤◌, [], ◌∷◌, IfOk, count_by};
ghost use Rattle.spk_plan_rules.specs.Plan.{changes_at, changes_in, is_open};

use crate::metrics::datatype_of;
use crate::misfit::{Cause, Misfit};
use crate::part::Part;
use crate::values::{is_signed, value_of};
use spk_device::Registry;
use spk_plan::{Sort, Step};
use std::alloc::Global;

/// The most connections that a script opens.
const MOST_OPENS: u64 = 200;
/// The most changes that a script asks for.
const MOST_CHANGES: u64 = 100_000;

/// How many parts a step of this kind has, the kind with them.
fn parts_of(kind: &str) -> Option<usize> {
    match kind {
        "open" | "born" | "drain" | "cut" | "stop" => Some(1),
        "set" | "ramp" | "device" => Some(3),
        _ => None,
    }
}

/// A metric has a value, of the kind that its datatype asks for.
fn set_of(alloc: Global, registry: &Registry, part: Part<'_>) -> Result<Step, Misfit> {
    let alias = part.item(1)?.any_number()?;
    let datatype = datatype_of(registry, alias);
    let value = value_of(alloc, part.item(2)?, datatype)?;
    Ok(Step::Set { alias, value })
}

/// Changes of a metric to 1, 2 and so on: to signed numbers where its datatype is a signed one.
fn ramp_of(registry: &Registry, part: Part<'_>) -> Result<Step, Misfit> {
    let alias = part.item(1)?.any_number()?;
    let sort = if is_signed(datatype_of(registry, alias)) {
        Sort::Signed
    } else {
        Sort::Unsigned
    };
    let changes = part.item(2)?.number(0, MOST_CHANGES)? as u32;
    Ok(Step::Ramp {
        alias,
        sort,
        changes,
    })
}

/// A device, by its name, is up or down.
fn device_of(alloc: Global, part: Part<'_>) -> Result<Step, Misfit> {
    Ok(Step::Device {
        name: part.item(1)?.owned_text(alloc)?,
        up: part.item(2)?.flag()?,
    })
}

/// A step.
fn step_of(alloc: Global, registry: &Registry, part: Part<'_>) -> Result<Step, Misfit> {
    let count = part.items(usize::MAX)?.len();
    let first = part.item(0)?;
    let kind = first.text()?;
    let Some(wanted) = parts_of(kind) else {
        return Err(first.wrong(Cause::Not("a kind of step")));
    };
    if count != wanted {
        return Err(part.wrong(Cause::Parts(wanted)));
    }
    match kind {
        "open" => Ok(Step::Open),
        "born" => Ok(Step::Born),
        "set" => set_of(alloc, registry, part),
        "ramp" => ramp_of(registry, part),
        "device" => device_of(alloc, part),
        "drain" => Ok(Step::Drain),
        "cut" => Ok(Step::Cut),
        "stop" => Ok(Step::Stop),
        _ => Err(first.wrong(Cause::Not("a kind of step"))),
    }
}

/// How many connections a step opens.
fn opens_at(step: &Step) -> u64
    ensures { result ≡ count_by is_open (step.now ∷ []) }
{
    match step {
        Step::Open => 1,
        Step::Born => 0,
        Step::Set { .. } => 0,
        Step::Ramp { .. } => 0,
        Step::Device { .. } => 0,
        Step::Drain => 0,
        Step::Cut => 0,
        Step::Stop => 0,
    }
}

/// How many changes a step asks for.
fn changes_at(step: &Step) -> u32
    ensures { result ≡ changes_at step.now }
{
    match step {
        Step::Open => 0,
        Step::Born => 0,
        Step::Set { .. } => 1,
        Step::Ramp { changes, .. } => *changes,
        Step::Device { .. } => 0,
        Step::Drain => 0,
        Step::Cut => 0,
        Step::Stop => 0,
    }
}

/// The steps of a script, in order. At most 200 open a connection, and they ask for at most 100,000 changes: the set steps and the
/// changes of the ramps, summed (own limits).
#[tactic(auto, using(crate::proofs::Limits::opens_push, crate::proofs::Limits::changes_push))]
pub(crate) fn script_of(
    alloc: Global,
    registry: &Registry,
    part: Part<'_>,
) -> Result<Vec<Step>, Misfit>
    ensures opens { IfOk result (λ steps. count_by is_open steps.items ≤ 200) }
    ensures changes { IfOk result (λ steps. changes_in steps.items ≤ 100000) }
{
    let mut steps = Vec::new(alloc);
    let mut opens = 0u64;
    let mut changes = 0u64;
    for index in 0..part.items(usize::MAX)?.len() {
        let place = part.item(index)?;
        let step = step_of(alloc, registry, place)?;
        opens += opens_at(&step);
        if opens > MOST_OPENS {
            return Err(place.wrong(Cause::Past(MOST_OPENS, "\"open\" steps")));
        }
        changes += u64::from(changes_at(&step));
        if changes > MOST_CHANGES {
            return Err(place.wrong(Cause::Past(MOST_CHANGES, "changes")));
        }
        steps.push(step)?;
    }
    Ok(steps)
}
