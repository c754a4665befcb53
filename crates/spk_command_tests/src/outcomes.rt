//! What a run came to, as a text.

use spk_commands::{HistoryPlan, LimitsPlan, Outcome, PasswdPlan, StorePlan};
use spk_door::Door;
use spk_files::user_line;
use spk_plan::Plan;
use spk_program_plans::{EdgePlan, HostPlan};
use spk_quota::Limits;
use std::alloc::{AllocError, Global};

/// Of a plan to be run: its group and host, how many nodes it has, and its numbers.
fn plant_text(alloc: Global, plan: &Plan) -> Result<String, AllocError> {
    let group = plan.group.as_str();
    let host = plan.host.as_str();
    let nodes = plan.nodes.len();
    let width = plan.width.get();
    format!(in alloc;
        "plant {group} {host} nodes {nodes} ring {} ingress {} wait {} width {width}",
        plan.ring, plan.ingress, plan.wait
    )
}

/// Of an edge node to be run: its keep alive, how many brokers it may be connected with, its record, whether it has a login and keeps its values,
/// and how many metrics it has.
fn edge_text(alloc: Global, plan: &EdgePlan) -> Result<String, AllocError> {
    let record = plan.record.as_str();
    let brokers = plan.brokers.len();
    let metrics = plan.names.metric_count();
    let login = plan.login.is_some();
    let kept = plan.kept.is_some();
    format!(in alloc;
        "edge keep {} brokers {brokers} record {record} login {login} kept {kept} metrics {metrics}",
        plan.config.keep
    )
}

/// Of a host to be run: how many brokers it may be connected with, and whether it has a login, an end, a silence, a board, a page
/// and a history, and each group with the host's name, and how many of its nodes are asked for a rebirth.
fn host_text(alloc: Global, plan: &HostPlan) -> Result<String, AllocError> {
    let brokers = plan.brokers.len();
    let login = plan.login.is_some();
    let count = plan.count;
    let silence = plan.silence;
    let watch = plan.watch;
    let page = plan.page;
    let history = plan.history.as_ref().map_or(0, |history| history.1);
    let mut text = format!(in alloc;
        "host brokers {brokers} login {login} count {count:?} silence {silence:?} watch {watch} page {page:?} history {history}"
    )?;
    for group in &plan.groups {
        let asks = group.asks.len();
        let config = &group.config;
        write!(text, " {}/{} asks {asks}", config.group, config.name)?;
    }
    Ok(text)
}

/// Of a history to be read: how many files, what is to be made of them, and of which moments.
fn history_text(alloc: Global, plan: &HistoryPlan) -> Result<String, AllocError> {
    let HistoryPlan {
        parts,
        form,
        from,
        to,
    } = plan;
    format!(in alloc;
        "history parts {} {form:?} from {from} to {to:?}",
        parts.len()
    )
}

/// Of a door, if there is one: whether it guards, and if users have to be known, how many, and the line of each.
fn door_text(alloc: Global, door: &Option<Door>) -> Result<String, AllocError> {
    let Some(door) = door else {
        return Ok(String::new(alloc));
    };
    let guard = door.guard;
    let mut text = format!(in alloc; " guard {guard}")?;
    if let Some(users) = &door.users {
        let count = users.len();
        write!(text, " users {count}")?;
        for user in users {
            let line = user_line(alloc, user)?;
            write!(text, " {line}")?;
        }
    }
    Ok(text)
}

/// What users may hold, where it isn't what they may where nothing is said: 100 clients at once, 100 kept sessions, 1,000 filters, 1,000 retained messages and 64 MiB of them,
/// 64 MiB that wait, and 30 days.
fn limits_text(alloc: Global, plan: &Option<LimitsPlan>) -> Result<String, AllocError> {
    let mut text = String::new(alloc);
    let Some(LimitsPlan { limits, days }) = plan else {
        return Ok(text);
    };
    if *days != 30 {
        write!(text, " days {days}")?;
    }
    for (user, limits) in limits.iter().enumerate() {
        let Limits {
            connections,
            sessions,
            filters,
            retained,
            bytes,
            waiting,
        } = *limits;
        let counts = (connections, sessions, filters, retained);
        if (counts, bytes, waiting) != ((100, 100, 1000, 1000), 67108864, 67108864) {
            write!(
                text,
                " limits {user} {connections} {sessions} {filters} {retained} {bytes} {waiting}"
            )?;
        }
    }
    Ok(text)
}

/// Of a store, if there is one: its folder, and whether each answer is synced.
fn store_text(alloc: Global, store: &Option<StorePlan>) -> Result<String, AllocError> {
    match store {
        Some(StorePlan { folder, each }) => format!(in alloc; " store {folder} each {each}"),
        None => Ok(String::new(alloc)),
    }
}

/// Of a user of whom a line is to be made.
fn passwd_text(alloc: Global, plan: &PasswdPlan) -> Result<String, AllocError> {
    let PasswdPlan {
        name,
        rounds,
        rights,
    } = plan;
    format!(in alloc; "passwd {name} rounds {rounds} {rights:?}")
}

/// What a run came to.
pub(crate) fn text_of(alloc: Global, outcome: &Outcome) -> Result<String, AllocError> {
    match outcome {
        Outcome::Over(status) => format!(in alloc; "over {status}"),
        Outcome::Serve {
            bind,
            port,
            clients,
            status,
            door,
            limits,
            store,
        } => {
            let door = door_text(alloc, door)?;
            let limits = limits_text(alloc, limits)?;
            let store = store_text(alloc, store)?;
            format!(in alloc;
                "serve {bind} {port} clients {clients:?} status {status:?}{door}{limits}{store}"
            )
        }
        Outcome::Passwd(plan) => passwd_text(alloc, plan),
        Outcome::Plant(plan) => plant_text(alloc, plan),
        Outcome::Edge(plan) => edge_text(alloc, plan),
        Outcome::Host(plan) => host_text(alloc, plan),
        Outcome::History(plan) => history_text(alloc, plan),
    }
}
