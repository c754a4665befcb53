//! The command `plant`: the edge nodes, the broker and the host of a plan, each on a thread of its own, and what became of them.

use crate::fault::{Fault, Stop};
use crate::texts::json_text;
use spk_files::{Misfit, plan_of};
use spk_plan::{Gate, Plan, PlantFault};
use spk_plant::{NodeReport, Report, run_plant};
use std::alloc::{AllocError, Global};
use std::io::{self, Eprint, Write};
use std::sync::Wait;
use std::sync::atomic::{AtomicU64, Ordering};
use std::thread::Threads;

/// After so many frames and messages there is a line of progress.
const MANY: u64 = 100_000;

/// Counts the frames put and the messages consumed, and tells of them on standard error.
#[derive(Drop)]
struct Progress<'a, R> {
    rt: &'a R,
    put: AtomicU64,
    consumed: AtomicU64,
    both: AtomicU64,
}

impl<'a, R: Eprint> Progress<'a, R> {
    fn new(rt: &'a R) -> Progress<'a, R> {
        Progress {
            rt,
            put: AtomicU64::new(0),
            consumed: AtomicU64::new(0),
            both: AtomicU64::new(0),
        }
    }

    /// One more of both. What becomes of the line changes nothing else.
    fn tell(&self) {
        let before = self.both.fetch_add(1, Ordering::SeqCst);
        if before % MANY == MANY - 1 {
            let put = self.put.load(Ordering::SeqCst);
            let consumed = self.consumed.load(Ordering::SeqCst);
            let _ = eprintln!(self.rt; "sparkplug: {put} frames put, {consumed} messages consumed");
        }
    }
}

impl<R: Eprint> Gate for Progress<'_, R> {
    fn before_put(&self, _sender: usize, _number: u64) {
        let _before = self.put.fetch_add(1, Ordering::SeqCst);
        self.tell();
    }

    fn after_offer(&self, _client: usize, _passed: bool) {}

    fn after_consume(&self, _node: usize, _number: u64) {
        let _before = self.consumed.fetch_add(1, Ordering::SeqCst);
        self.tell();
    }
}

/// The plan that a file's text says. What is wrong with one, and where, is noted.
pub(crate) fn plan_from<N: Write>(alloc: Global, notes: &mut N, text: &str) -> Result<Plan, Stop> {
    match plan_of(alloc, text) {
        Ok(plan) => Ok(plan),
        Err(Misfit::NoMemory) => Err(Stop::no_memory()),
        Err(Misfit::Wrong(place, cause)) => {
            let _ = writeln!(notes, "sparkplug: BadPlan: {place} {cause}");
            Err(Stop::Fault(Fault::BadPlan))
        }
    }
}

/// The names of a plan's nodes, in order.
fn names_of(alloc: Global, plan: &Plan) -> Result<Vec<String>, AllocError> {
    let mut names = Vec::new(alloc);
    for node in &plan.nodes {
        names.push(String::from_str(alloc, node.node.as_str())?)?;
    }
    Ok(names)
}

/// How many births a node published.
fn births_of(node: &NodeReport) -> usize {
    node.published
        .iter()
        .filter(|message| message.opens)
        .count()
}

/// How many messages of a node the host consumed.
fn consumed_of(report: &Report, name: &str) -> usize {
    let mut count = 0usize;
    for given in &report.given {
        let taken = given.consumed.iter();
        count = count.saturating_add(
            taken
                .filter(|message| message.node.as_str() == name)
                .count(),
        );
    }
    count
}

/// A name as in a JSON string, without its quotes: it stays on its line.
fn write_name(alloc: Global, lines: &mut String, name: &str) -> Result<(), AllocError> {
    let quoted = json_text(alloc, String::from_str(alloc, name)?)?;
    let quoted = quoted.as_str();
    let inner = quoted
        .strip_prefix('"')
        .and_then(|rest| rest.strip_suffix('"'));
    write!(lines, "{}", inner.unwrap_or(quoted))
}

/// The lines of a report: of each node its births, the messages that it published, and those of them that the host consumed; last
/// whether the broker closed the host, and how many sends to the host its ring refused.
fn lines_of(alloc: Global, names: &[String], report: &Report) -> Result<String, AllocError> {
    let mut lines = String::new(alloc);
    for (name, node) in names.iter().zip(report.nodes.iter()) {
        let births = births_of(node);
        let published = node.published.len();
        let consumed = consumed_of(report, name.as_str());
        write!(lines, "node ")?;
        write_name(alloc, &mut lines, name.as_str())?;
        writeln!(
            lines,
            " births {births} published {published} consumed {consumed}"
        )?;
    }
    let host = if report.is_cut { "cut" } else { "open" };
    let refused = report.refused;
    writeln!(lines, "host {host} {refused}")?;
    Ok(lines)
}

/// Runs a plan, and makes the lines of its report.
fn reported<R>(rt: &R, plan: Plan) -> Result<String, PlantFault>
where
    R: AllocGlobal + Threads + Wait + Eprint + Sync,
{
    let names = names_of(rt.alloc(), &plan)?;
    let report = run_plant(rt, rt.alloc(), plan, &Progress::new(rt))?;
    Ok(lines_of(rt.alloc(), names.as_slice(), &report)?)
}

/// Prints the lines of a plant, or its fault, and answers the status: 0, or 1 for a fault.
pub fn told<W: Write>(out: &mut W, answer: Result<String, PlantFault>) -> io::Result<u8> {
    let status = match answer {
        Ok(lines) => {
            out.write_all(lines.as_bytes())?;
            0
        }
        Err(fault) => {
            let number = fault.number();
            writeln!(out, "fault {fault} ({number})")?;
            1
        }
    };
    out.flush()?;
    Ok(status)
}

/// Runs a plan, prints a line for each node and one for the host, and answers the status. Nothing is printed before its end.
pub fn plant<R, W: Write>(rt: &R, plan: Plan, out: &mut W) -> u8
where
    R: AllocGlobal + Threads + Wait + Eprint + Sync,
{
    told(out, reported(rt, plan)).unwrap_or(1)
}
