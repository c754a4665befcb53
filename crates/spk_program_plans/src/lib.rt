//! What the programs `edge` and `host` are to run, as plain data: the commands make it of words and files, and the programs run it.
#![tactic(auto)]

use spk_device::Registry;
use spk_edge::EdgeConfig;
use spk_host_session::HostConfig;
use std::fmt;

/// The user name that CONNECT says, of at most 65,535 bytes and without U+0000, and the password, if there is one, of at most 65,535 bytes (MQTT 3.1.1,
/// sections 3.1.3.4 and 3.1.3.5).
#[derive(Drop)]
pub struct Words {
    pub user: String,
    pub password: Option<Vec<u8>>,
}

/// What `edge` is to run: a node, the brokers that it may be connected with, each HOST:PORT, and the name of its record.
#[derive(Drop)]
pub struct EdgePlan {
    pub config: EdgeConfig,
    pub registry: Registry,
    /// The same registry: by its names lines are read.
    pub names: Registry,
    pub brokers: Vec<String>,
    pub login: Option<Words>,
    pub record: String,
    /// The name of the file in which values and kept changes survive, and the same registry once more, where there is such a file.
    pub kept: Option<(String, Registry)>,
}

impl fmt::Debug for EdgePlan {
    fn fmt<W: fmt::Write>(&self, f: &mut fmt::Formatter<W>) -> fmt::Result {
        f.write_str("EdgePlan { .. }")
    }
}

/// A host application of one group, and the nodes of that group which are asked for a rebirth once its subscription is granted.
#[derive(Drop)]
pub struct GroupPlan {
    pub config: HostConfig,
    pub asks: Vec<String>,
}

/// What `host` is to run: a host application for each group, the brokers that these may be connected with, each HOST:PORT, after how many consumed messages it
/// ends, if it does, for how many milliseconds nothing of a node may be consumed before its values are told to be stale, if that is to be told, and whether
/// a board of the nodes is to be drawn in place of lines.
#[derive(Drop)]
pub struct HostPlan {
    pub groups: Vec<GroupPlan>,
    pub brokers: Vec<String>,
    pub login: Option<Words>,
    pub count: Option<u64>,
    pub silence: Option<u64>,
    pub watch: bool,
    /// The port of 127.0.0.1 on which a page of the nodes is served; None where none is.
    pub page: Option<u16>,
    /// The name of the history that it keeps, and how many bytes a part of that has at most; None where it keeps none.
    pub history: Option<(String, usize)>,
}

impl fmt::Debug for HostPlan {
    fn fmt<W: fmt::Write>(&self, f: &mut fmt::Formatter<W>) -> fmt::Result {
        f.write_str("HostPlan { .. }")
    }
}
