//! The programs' runs.

use crate::disk::{self, Disk, Disks};
use crate::edge::EdgeProgram;
use crate::edge_parts::EdgeParts;
use crate::fault::{ProgramFault, told};
use crate::history::History;
use crate::host::{Followed, HostProgram};
use crate::host_parts::HostParts;
use crate::hosts::GroupHost;
use crate::journal::Journal;
use crate::page::Page;
use crate::part_disk::{PartDisk, PartDisks};
use crate::replay::Replay;
use spk_board::{Board, Screen};
use spk_connection::Connection;
use spk_device::Registry;
use spk_edge::{EdgeConfig, EdgeFault, EdgeNode, Record as Start};
use spk_edge_app::{EdgeApp, Login};
use spk_host::{Host, HostConfig};
use spk_host_app as host;
use spk_host_app::HostApp;
use spk_network::run_app;
use spk_program_plans::{EdgePlan, GroupPlan, HostPlan, Words};
use spk_record::{Record, RecordFault};
use std::alloc::{AllocError, Global};
use std::io::{self, BufWriter, Read, Write};
use std::mem;
use std::net::Net;
use std::sync::Wait;
use std::time::Clock;

/// The record that a node goes on from: that of session 0 where there is none yet.
fn start_of<D: Disk>(alloc: Global, disk: &mut D) -> Result<Option<Record>, ProgramFault> {
    let mut bytes = Vec::new(alloc);
    if !disk.read(&mut bytes) {
        return Err(ProgramFault::NoRecord);
    }
    if bytes.is_empty() {
        return Ok(None);
    }
    match Record::decode(alloc, bytes.as_slice()) {
        Ok(record) => Ok(Some(record)),
        Err(RecordFault::NoMemory) => Err(ProgramFault::NoMemory),
        Err(RecordFault::BadRecord) => Err(ProgramFault::BadRecord),
    }
}

/// The disk of a record.
fn disk_of<K: Disks>(disks: &mut K, name: &str) -> Result<K::Disk, ProgramFault> {
    match disks.open(name) {
        disk::Opened::Open(disk) => Ok(disk),
        disk::Opened::Busy => Err(ProgramFault::BusyRecord),
        disk::Opened::Failed => Err(ProgramFault::NoRecord),
    }
}

/// An edge node's core, which goes on from what is on its disk.
pub(crate) fn edge_app(
    alloc: Global,
    config: EdgeConfig,
    registry: Registry,
    login: Option<Words>,
    start: Option<Record>,
) -> Result<EdgeApp, ProgramFault> {
    let kept = start.unwrap_or(Record { bd: 0, stamp: 0 });
    let begin = Start {
        seq: 0,
        bd: kept.bd,
        stamp: start.map(|record| record.stamp),
    };
    let node = match EdgeNode::new(alloc, config, begin, registry) {
        Ok(node) => node,
        Err(EdgeFault::NoMemory) => return Err(ProgramFault::NoMemory),
        Err(_) => return Err(ProgramFault::BadConfig),
    };
    let login = login.map(|words| Login {
        user: words.user,
        password: words.password,
    });
    match EdgeApp::new(alloc, node, kept, login) {
        Ok(app) => Ok(app),
        Err(_) => Err(ProgramFault::NoMemory),
    }
}

/// What a run of `edge` begins with.
#[derive(Drop)]
pub struct Begun<D: Disk> {
    pub(crate) parts: EdgeParts<D>,
    /// No connection is tried before this moment, where it is close.
    pub(crate) begin: u64,
    /// How many lines of what was kept say nothing, and whether its last one was torn.
    pub(crate) passed: u64,
    pub(crate) is_torn: bool,
}

/// What was kept in a file, if there is one: its values are set.
fn journal_of<K: Disks>(
    alloc: Global,
    disks: &mut K,
    kept: Option<(String, Registry)>,
    names: &Registry,
    registry: &mut Registry,
    capacity: usize,
) -> Result<Option<(Journal<K::Disk>, Replay)>, ProgramFault> {
    let Some((name, base)) = kept else {
        return Ok(None);
    };
    let disk = disk_of(disks, name.as_str())?;
    Ok(Some(Journal::open(alloc, disk, names, registry, base, capacity)?))
}

/// The files of a run, and what they say.
#[derive(Drop)]
struct RunFiles<D: Disk> {
    disk: D,
    start: Option<Record>,
    kept: Option<(Journal<D>, Replay)>,
}

/// The files of a run: the record is read, and the values that were kept are set.
fn read_files<K: Disks>(
    alloc: Global,
    disks: &mut K,
    record: &str,
    kept: Option<(String, Registry)>,
    names: &Registry,
    registry: &mut Registry,
    capacity: usize,
) -> Result<RunFiles<K::Disk>, ProgramFault> {
    let kept = journal_of(alloc, disks, kept, names, registry, capacity)?;
    let mut disk = disk_of(disks, record)?;
    let start = start_of(alloc, &mut disk)?;
    Ok(RunFiles { disk, start, kept })
}

/// The changes that were kept are told once more: how many lines of the file say nothing, and whether its last one was torn.
fn tell_again<D: Disk>(
    kept: Option<(Journal<D>, Replay)>,
    app: &mut EdgeApp,
) -> Result<(Option<Journal<D>>, u64, bool), AllocError> {
    match kept {
        Some((mut file, replay)) => {
            let (passed, is_torn) = (replay.passed, replay.is_torn);
            file.tell_again(app, replay)?;
            Ok((Some(file), passed, is_torn))
        }
        None => Ok((None, 0, false)),
    }
}

/// A run begins: the changes that were kept are told once more.
fn told_again<D: Disk>(
    alloc: Global,
    files: RunFiles<D>,
    mut app: EdgeApp,
    names: Registry,
) -> Result<Begun<D>, ProgramFault> {
    let RunFiles { disk, start, kept } = files;
    match tell_again(kept, &mut app) {
        Ok((journal, passed, is_torn)) => Ok(Begun {
            parts: EdgeParts {
                alloc,
                app,
                names,
                disk,
                journal,
            },
            begin: start.map_or(0, |record| record.stamp),
            passed,
            is_torn,
        }),
        Err(_) => Err(ProgramFault::NoMemory),
    }
}

/// What a plan's run begins with, but for its brokers: the record is read, and what was kept is told once more. Refused with NoMemory (1), and with BadConfig
/// (63), BadRecord (110), BusyRecord (130) and NoRecord (131), where a file can't be had or isn't one.
pub fn begin_edge<K: Disks>(
    alloc: Global,
    plan: EdgePlan,
    disks: &mut K,
) -> Result<Begun<K::Disk>, ProgramFault> {
    let EdgePlan {
        config,
        mut registry,
        names,
        brokers: _,
        login,
        record,
        kept,
    } = plan;
    let capacity = config.capacity;
    match read_files(
        alloc,
        disks,
        record.as_str(),
        kept,
        &names,
        &mut registry,
        capacity,
    ) {
        Ok(files) => match edge_app(alloc, config, registry, login, files.start) {
            Ok(app) => told_again(alloc, files, app, names),
            Err(fault) => Err(fault),
        },
        Err(fault) => Err(fault),
    }
}

/// Runs an edge node until standard input is over and all is said, and answers the status: 0, or 1 where a fault ended it, which is printed, where changes
/// couldn't be said or a line couldn't be written. What goes over a socket, and what a disk keeps, no contract says.
pub fn run_edge<R, I, K, O, N>(
    rt: &R,
    mut plan: EdgePlan,
    input: I,
    disks: &mut K,
    mut out: O,
    notes: N,
) -> u8
where
    R: AllocGlobal + Wait + Clock + Net,
    I: Read + Drop,
    K: Disks,
    O: Write + Drop,
    N: Write + Drop,
{
    let alloc = rt.alloc();
    let brokers = mem::replace(&mut plan.brokers, Vec::new(alloc));
    match begin_edge(alloc, plan, disks) {
        Ok(begun) => {
            let mut program = EdgeProgram::new(alloc, begun, out, notes);
            let ended = run_app(rt, alloc, brokers.as_slice(), input, true, &mut program);
            program.finish(ended)
        }
        Err(fault) => told(&mut out, fault),
    }
}

/// Standard input of a program that reads none.
#[derive(Drop)]
struct Nothing;

impl Read for Nothing {
    fn read(&mut self, _buf: &mut [u8]) -> io::Result<usize> {
        Ok(0)
    }
}

/// How much longer its pauses are, in 1,024ths, by its name, so that not all hosts come back at once (own rule).
fn spread(name: &str) -> u8 {
    let mut sum = 0_u8;
    for byte in name.bytes() {
        sum = sum.wrapping_mul(31).wrapping_add(byte);
    }
    sum
}

/// A host's core. Refused with BadConfig where the host's names are none.
pub fn host_app(
    alloc: Global,
    config: HostConfig,
    login: Option<Words>,
) -> Result<HostApp, ProgramFault> {
    let connection = Connection::new(alloc, config.keep, spread(config.name.as_str()));
    let Ok(host) = Host::new(alloc, config) else {
        return Err(ProgramFault::BadConfig);
    };
    let login = login.map(|words| host::Login {
        user: words.user,
        password: words.password,
    });
    Ok(HostApp::new(alloc, host, connection, login))
}

/// The same user name and password.
fn copied(alloc: Global, login: &Option<Words>) -> Result<Option<Words>, AllocError> {
    let Some(words) = login else {
        return Ok(None);
    };
    let password = match &words.password {
        Some(bytes) => Some(Vec::from_slice(alloc, bytes.as_slice())?),
        None => None,
    };
    Ok(Some(Words {
        user: String::from_str(alloc, words.user.as_str())?,
        password,
    }))
}

/// The names of the groups, as a board has them.
fn title_of(alloc: Global, groups: &[GroupPlan]) -> Result<String, AllocError> {
    let mut title = String::new(alloc);
    for plan in groups {
        if !title.is_empty() {
            title.push_str(", ")?;
        }
        title.push_str(plan.config.group.as_str())?;
    }
    Ok(title)
}

/// A board and a page, if there are.
#[derive(Drop)]
struct Shows {
    board: Option<Board>,
    page: Option<Page>,
}

/// What shows hosts, as their plan asks.
fn shows_of(alloc: Global, plan: &HostPlan, screen: Screen) -> Result<Shows, AllocError> {
    let mut shows = Shows {
        board: None,
        page: None,
    };
    if plan.watch {
        let title = title_of(alloc, plan.groups.as_slice())?;
        shows.board = Some(Board::new(alloc, title, screen));
    }
    if let Some(port) = plan.page {
        let title = title_of(alloc, plan.groups.as_slice())?;
        shows.page = Some(Page::new(alloc, port, title, plan.silence));
    }
    Ok(shows)
}

/// The name of the history of a group: NAME, or NAME.GROUP where there are several.
fn history_name(
    alloc: Global,
    name: &str,
    group: &str,
    is_alone: bool,
) -> Result<String, AllocError> {
    let mut text = String::from_str(alloc, name)?;
    if !is_alone {
        text.push_str(".")?;
        text.push_str(group)?;
    }
    Ok(text)
}

/// The history of a host whose plan asks for one: its first part is begun.
fn history_of<K: PartDisks>(
    alloc: Global,
    disks: &mut K,
    history: &Option<(String, usize)>,
    group: &str,
    is_alone: bool,
) -> Result<Option<History<K::Disk>>, ProgramFault> {
    let Some((name, most)) = history else {
        return Ok(None);
    };
    let name = history_name(alloc, name.as_str(), group, is_alone)?;
    let Some(disk) = disks.parts(name.as_str()) else {
        return Err(ProgramFault::NoMemory);
    };
    let group = String::from_str(alloc, group)?;
    let mut history = History::new(alloc, disk, *most, group)?;
    if history.begin() {
        Ok(Some(history))
    } else {
        Err(ProgramFault::NoHistory)
    }
}

/// The host of a group, with its history.
fn group_host<K: PartDisks>(
    alloc: Global,
    config: HostConfig,
    login: &Option<Words>,
    disks: &mut K,
    history: &Option<(String, usize)>,
    is_alone: bool,
) -> Result<GroupHost<K::Disk>, ProgramFault> {
    let login = copied(alloc, login)?;
    let label = if is_alone {
        None
    } else {
        Some(String::from_str(alloc, config.group.as_str())?)
    };
    let history = history_of(alloc, disks, history, config.group.as_str(), is_alone)?;
    match host_app(alloc, config, login) {
        Ok(app) => Ok(GroupHost::new(alloc, app, history, label)),
        Err(fault) => Err(fault),
    }
}

/// What a host's plan runs, but for its brokers: a host for each group, what shows them, and after how many messages it ends.
#[derive(Drop)]
pub struct Prepared<P: PartDisk> {
    pub parts: HostParts<P>,
    pub groups: Vec<Followed>,
    pub count: Option<u64>,
}

/// The hosts of a plan, and the groups that they follow.
#[derive(Drop)]
struct Groups<P: PartDisk> {
    hosts: Vec<GroupHost<P>>,
    followed: Vec<Followed>,
}

/// The host of a group comes behind the others.
fn add_group<K: PartDisks>(
    alloc: Global,
    groups: &mut Groups<K::Disk>,
    plan: GroupPlan,
    login: &Option<Words>,
    disks: &mut K,
    history: &Option<(String, usize)>,
    is_alone: bool,
) -> Result<(), ProgramFault> {
    let GroupPlan { config, asks } = plan;
    let group = String::from_str(alloc, config.group.as_str())?;
    groups.followed.push(Followed::new(group, asks))?;
    match group_host(alloc, config, login, disks, history, is_alone) {
        Ok(host) => Ok(groups.hosts.push(host)?),
        Err(fault) => Err(fault),
    }
}

/// The hosts of a plan.
fn groups_of<K: PartDisks>(
    alloc: Global,
    plans: Vec<GroupPlan>,
    login: &Option<Words>,
    disks: &mut K,
    history: &Option<(String, usize)>,
) -> Result<Groups<K::Disk>, ProgramFault> {
    let mut groups = Groups {
        hosts: Vec::new(alloc),
        followed: Vec::new(alloc),
    };
    let is_alone = plans.len() < 2;
    for plan in plans {
        add_group(alloc, &mut groups, plan, login, disks, history, is_alone)?;
    }
    Ok(groups)
}

/// What a plan runs. A board is drawn for this screen. Refused with NoMemory (1), with BadConfig (63) where a host's names are none, and with NoHistory (127) where
/// no part of a history can be begun.
pub fn begin_host<K: PartDisks>(
    alloc: Global,
    mut plan: HostPlan,
    screen: Screen,
    disks: &mut K,
) -> Result<Prepared<K::Disk>, ProgramFault> {
    let Shows { board, page } = shows_of(alloc, &plan, screen)?;
    let plans = mem::replace(&mut plan.groups, Vec::new(alloc));
    match groups_of(alloc, plans, &plan.login, disks, &plan.history) {
        Ok(groups) => {
            let Groups { hosts, followed } = groups;
            Ok(Prepared {
                parts: HostParts::new(alloc, hosts, plan.silence, board, page),
                groups: followed,
                count: plan.count,
            })
        }
        Err(fault) => Err(fault),
    }
}

/// Runs host applications, one for each group, until so many messages were consumed as its plan says, or for ever, and answers the status: 0, or 1 where a fault ended it, which
/// is printed, or where a line or the history couldn't be written. A board is drawn for this screen. What goes over a socket, and what a disk keeps, no
/// contract says.
pub fn run_host<R, K, O, N>(
    rt: &R,
    mut plan: HostPlan,
    screen: Screen,
    disks: &mut K,
    mut out: O,
    notes: N,
) -> u8
where
    R: AllocGlobal + Wait + Clock + Net,
    K: PartDisks,
    O: Write + Drop,
    N: Write + Drop,
{
    let alloc = rt.alloc();
    let brokers = mem::replace(&mut plan.brokers, Vec::new(alloc));
    let prepared = match begin_host(alloc, plan, screen, disks) {
        Ok(prepared) => prepared,
        Err(fault) => return told(&mut out, fault),
    };
    let Ok(buffered) = BufWriter::new(alloc, out) else {
        return 1;
    };
    let Prepared {
        parts,
        groups,
        count,
    } = prepared;
    let mut program = HostProgram::new(parts, count, groups, buffered, notes);
    let ended = run_app(rt, alloc, brokers.as_slice(), Nothing, false, &mut program);
    program.finish(ended)
}
