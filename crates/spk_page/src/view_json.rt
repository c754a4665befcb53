//! A view as JSON.
ghost use Rattle.std.specs.Prelude.{◌≡◌, IfOk};
ghost use Rattle.serde_json.specs.View.{view};
ghost use Rattle.spk_page.specs.View.{detail, entries_since, entry_data, log_data, looks_data, rows_data, rows_since, totals_data, view_data, what_word};

use crate::entry::{Entry, What};
use crate::head::Head;
use crate::holes_json::{hole_value, maybe_value};
use crate::node::Node;
use crate::rows_json::row_value;
use crate::totals::{Looks, Totals};
use serde_json::{Value, json};
use std::alloc::{AllocError, Global};

/// How many nodes are shown in which way.
fn looks_value(alloc: Global, looks: Looks) -> Result<Value, AllocError>
    ensures { IfOk result (λ v. view v ≡ looks_data looks) }
{
    json!(in alloc; {
        "away": looks.away,
        "current": looks.current,
        "lost": looks.lost,
        "offline": looks.offline,
        "silent": looks.silent,
        "unborn": looks.unborn
    })
}

/// What all nodes come to.
fn totals_value(alloc: Global, totals: Totals) -> Result<Value, AllocError>
    ensures { IfOk result (λ v. view v ≡ totals_data totals) }
{
    let looks = looks_value(alloc, totals.looks)?;
    json!(in alloc; {
        "current": totals.current,
        "down": totals.down,
        "gaps": totals.gaps,
        "looks": looks,
        "missing": totals.missing,
        "nodes": totals.nodes,
        "unused": totals.unused,
        "used": totals.used,
        "values": totals.values
    })
}

/// What happened, in a word.
fn what_word(what: What<'_>) -> &'static str
    ensures { result.now ≡ what_word what.entry }
{
    match what {
        What::Connected => "connected",
        What::Disconnected => "disconnected",
        What::Born => "born",
        What::BornAgain => "born_again",
        What::Mended(_) => "mended",
        What::Lost => "lost",
        What::Died => "died",
        What::Asked => "asked",
        What::DeviceBorn(_) => "device_born",
        What::DeviceDied(_) => "device_died",
        What::Refused(_) => "refused",
        What::TurnedAway(_) => "turned_away",
        What::NotSubscribed => "not_subscribed",
        What::Ended => "ended",
    }
}

/// What belongs to the word.
fn detail_value(alloc: Global, what: What<'_>) -> Result<Value, AllocError>
    ensures { IfOk result (λ v. view v ≡ detail what.entry) }
{
    match what {
        What::Mended(hole) => hole_value(alloc, hole),
        What::DeviceBorn(name) | What::DeviceDied(name) => Value::try_from_str(alloc, name),
        What::Refused(number) => Ok(Value::from(number)),
        What::TurnedAway(code) => Ok(Value::from(code)),
        _ => Ok(Value::Null),
    }
}

/// One thing that happened.
fn entry_value(alloc: Global, entry: &Entry<'_>) -> Result<Value, AllocError>
    ensures { IfOk result (λ v. view v ≡ entry_data entry.now) }
{
    let detail = detail_value(alloc, entry.what)?;
    let place = maybe_value(entry.place.map(|place| place as u64));
    json!(in alloc; {
        "at": entry.at,
        "detail": detail,
        "i": place,
        "n": entry.number,
        "what": what_word(entry.what)
    })
}

/// What happened from a number on, in its order.
fn log_value(alloc: Global, entries: &[Entry<'_>], from: u64) -> Result<Value, AllocError>
    ensures { IfOk result (λ v. view v ≡ log_data (entries_since from entries.now)) }
{
    let mut items = Vec::new(alloc);
    for entry in entries {
        if entry.number >= from {
            items.push(entry_value(alloc, entry)?)?;
        }
    }
    Ok(Value::Array(items))
}

/// The rows that changed at a revision or later, in their order.
fn rows_value(alloc: Global, nodes: &[Node<'_>], from: u64) -> Result<Value, AllocError>
    ensures { IfOk result (λ v. view v ≡ rows_data (rows_since from nodes.now)) }
{
    let mut items = Vec::new(alloc);
    for node in nodes {
        if node.changed >= from {
            items.push(row_value(alloc, node)?)?;
        }
    }
    Ok(Value::Array(items))
}

/// A view of these nodes: what all come to, the rows that changed at a revision or later, and what happened from a number on.
pub(crate) fn view_value(
    alloc: Global,
    head: Head,
    nodes: &[Node<'_>],
    log: &[Entry<'_>],
    revision: u64,
    number: u64,
) -> Result<Value, AllocError>
    ensures { IfOk result (λ v. view v ≡ view_data head nodes.now log.now revision number) }
{
    let log = log_value(alloc, log, number)?;
    let rows = rows_value(alloc, nodes, revision)?;
    let totals = totals_value(alloc, Totals::of(nodes))?;
    json!(in alloc; {
        "began": head.began,
        "connected": head.is_connected,
        "log": log,
        "nodes": rows,
        "now": head.now,
        "rev": head.revision,
        "totals": totals
    })
}
