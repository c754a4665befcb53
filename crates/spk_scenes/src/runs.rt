//! A program of the command line, run under a name.

use crate::binder::Binders;
use crate::page::write_lines;
use crate::part::Program;
use crate::shelf::{Lent, Shelf};
use spk_board::Screen;
use spk_commands::{Outcome, run_with_notes};
use spk_program_plans::{EdgePlan, HostPlan, Words};
use spk_programs::{EdgeProgram, HostProgram, Prepared, begin_edge, begin_host};
use std::alloc::Global;
use std::io::Write;

/// Writes what a login says: how many bytes its password has.
fn write_login(page: &mut Vec<u8>, login: &Option<Words>) -> Option<()> {
    match login {
        Some(words) => {
            let user = words.user.as_str();
            let size = words.password.as_ref().map_or(0, |password| password.len());
            writeln!(page, " user {user} password {size}").ok()
        }
        None => writeln!(page, " no user").ok(),
    }
}

/// Writes the brokers of a plan.
fn write_brokers(page: &mut Vec<u8>, brokers: &[String]) -> Option<()> {
    for broker in brokers {
        write!(page, " {broker}").ok()?;
    }
    Some(())
}

/// Writes what an edge node's plan says.
fn write_edge(page: &mut Vec<u8>, plan: &EdgePlan) -> Option<()> {
    let (group, node, keep) = (
        plan.config.group.as_str(),
        plan.config.node.as_str(),
        plan.config.keep,
    );
    write!(
        page,
        "edge {group}/{node} keep {keep} record {} brokers",
        plan.record
    )
    .ok()?;
    write_brokers(page, plan.brokers.as_slice())?;
    if let Some((kept, _)) = &plan.kept {
        write!(page, " kept {kept}").ok()?;
    }
    write_login(page, &plan.login)
}

/// Writes what a host's plan says.
fn write_host(page: &mut Vec<u8>, plan: &HostPlan) -> Option<()> {
    write!(page, "host").ok()?;
    for plan in &plan.groups {
        let config = &plan.config;
        let (group, name, wait) = (config.group.as_str(), config.name.as_str(), config.wait);
        let (width, keep) = (config.width.get(), config.keep);
        write!(
            page,
            " {group}/{name} wait {wait} width {width} keep {keep}"
        )
        .ok()?;
    }
    let (count, silence) = (plan.count.unwrap_or(0), plan.silence.unwrap_or(0));
    write!(page, " count {count} silence {silence} brokers").ok()?;
    write_brokers(page, plan.brokers.as_slice())?;
    write_login(page, &plan.login)
}

/// A host's program, without a terminal and without a page. A part of a history has as many bytes at most as it has times 512 in MiB, so that several are
/// begun.
fn host(alloc: Global, plan: HostPlan) -> Option<Program> {
    let mut plan = plan;
    plan.page = None;
    if let Some((_name, most)) = &mut plan.history {
        *most = *most / 1_048_576 * 512;
    }
    let mut binders = Binders { alloc };
    let Prepared {
        parts,
        groups,
        count,
    } = begin_host(alloc, plan, Screen::Plain, &mut binders).ok()?;
    let (out, notes) = (Vec::new(alloc), Vec::new(alloc));
    Some(Program::Host(HostProgram::new(parts, count, groups, out, notes)))
}

/// An edge node's program, or why there is none.
fn edge(
    alloc: Global,
    name: &str,
    plan: EdgePlan,
    shelf: &mut Shelf,
    page: &mut Vec<u8>,
) -> Option<Option<Program>> {
    match begin_edge(alloc, plan, shelf) {
        Ok(begun) => {
            let (out, notes) = (Vec::new(alloc), Vec::new(alloc));
            Some(Some(Program::Edge(EdgeProgram::new(alloc, begun, out, notes))))
        }
        Err(fault) => {
            let number = fault.number();
            writeln!(page, "{name} ended with fault {fault} ({number})").ok()?;
            Some(None)
        }
    }
}

/// What an outcome begins.
fn begin(
    alloc: Global,
    name: &str,
    outcome: Outcome,
    shelf: &mut Shelf,
    page: &mut Vec<u8>,
) -> Option<Option<Program>> {
    match outcome {
        Outcome::Over(status) => {
            writeln!(page, "{name} ended with status {status}").ok()?;
            Some(None)
        }
        Outcome::Edge(plan) => {
            write_edge(page, &plan)?;
            edge(alloc, name, plan, shelf, page)
        }
        Outcome::Host(plan) => {
            write_host(page, &plan)?;
            Some(Some(host(alloc, plan)?))
        }
        Outcome::Serve { .. } | Outcome::Passwd(_) | Outcome::Plant(_) | Outcome::History(_) =>
            None,
    }
}

/// The words of a command, behind the program's own.
fn words_of<'a>(alloc: Global, words: &'a str) -> Option<Vec<&'a str>> {
    let mut given = Vec::new(alloc);
    given.push("sparkplug").ok()?;
    for word in words.split(' ') {
        given.push(word).ok()?;
    }
    Some(given)
}

/// What `sparkplug` does with these words.
pub(crate) fn begun<R: AllocGlobal>(
    rt: &R,
    name: &str,
    words: &str,
    shelf: &mut Shelf,
    page: &mut Vec<u8>,
) -> Option<Option<Program>> {
    let alloc = rt.alloc();
    let given = words_of(alloc, words)?;
    let (mut out, mut notes) = (Vec::new(alloc), Vec::new(alloc));
    let mut files = Lent { shelf: &*shelf };
    let outcome = run_with_notes(rt, given.as_slice(), &mut files, &mut out, &mut notes);
    write_lines(page, name, ">", out.as_slice())?;
    write_lines(page, name, "!", notes.as_slice())?;
    begin(alloc, name, outcome, shelf, page)
}
