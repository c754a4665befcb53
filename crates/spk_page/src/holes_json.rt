//! Holes and counts as JSON.
ghost use Rattle.std.specs.Prelude.{◌≡◌, IfOk};
ghost use Rattle.serde_json.specs.View.{view};
ghost use Rattle.spk_page.specs.Rows.{counts_data, end_data, hole_data, holes_data, maybe, maybe_hole, values_data};

use crate::node::Values;
use serde_json::{Value, json};
use spk_story::{Counts, End, Hole};
use std::alloc::{AllocError, Global};

/// A number, or null.
pub(crate) fn maybe_value(number: Option<u64>) -> Value
    ensures { view result ≡ maybe number }
{
    match number {
        Some(number) => Value::from(number),
        None => Value::Null,
    }
}

/// What ended a hole.
fn end_value(alloc: Global, end: Option<End>) -> Result<Value, AllocError>
    ensures { IfOk result (λ v. view v ≡ end_data end) }
{
    match end {
        None => Ok(Value::Null),
        Some(End::Birth) => Value::try_from_str(alloc, "birth"),
        Some(End::Death) => Value::try_from_str(alloc, "death"),
        Some(End::Session) => Value::try_from_str(alloc, "session"),
    }
}

/// A hole.
pub(crate) fn hole_value(alloc: Global, hole: Hole) -> Result<Value, AllocError>
    ensures { IfOk result (λ v. view v ≡ hole_data hole) }
{
    let end = end_value(alloc, hole.end)?;
    let until = maybe_value(hole.until);
    json!(in alloc; {
        "end": end,
        "from": hole.from,
        "missing": hole.missing,
        "until": until,
        "unused": hole.unused
    })
}

/// A hole, or null.
pub(crate) fn maybe_hole(alloc: Global, hole: Option<Hole>) -> Result<Value, AllocError>
    ensures { IfOk result (λ v. view v ≡ maybe_hole hole) }
{
    match hole {
        Some(hole) => hole_value(alloc, hole),
        None => Ok(Value::Null),
    }
}

/// Holes, in their order.
pub(crate) fn holes_value(alloc: Global, holes: &[Hole]) -> Result<Value, AllocError>
    ensures { IfOk result (λ v. view v ≡ holes_data holes.now) }
{
    let mut items = Vec::new(alloc);
    for hole in holes {
        items.push(hole_value(alloc, *hole)?)?;
    }
    Ok(Value::Array(items))
}

/// What was counted of a node.
pub(crate) fn counts_value(alloc: Global, counts: Counts) -> Result<Value, AllocError>
    ensures { IfOk result (λ v. view v ≡ counts_data counts) }
{
    json!(in alloc; {
        "asked": counts.requests,
        "births": counts.births,
        "deaths": counts.deaths,
        "gaps": counts.gaps,
        "holes": counts.holes,
        "ignored": counts.ignored,
        "missing": counts.missing,
        "unused": counts.unused,
        "used": counts.used
    })
}

/// How many values there are.
pub(crate) fn values_value(alloc: Global, values: Values) -> Result<Value, AllocError>
    ensures { IfOk result (λ v. view v ≡ values_data values) }
{
    json!(in alloc; {"all": values.all, "current": values.current})
}
