//! The commands of the program `sparkplug`: Sparkplug B payloads, MQTT packets, a broker and its users, worlds and plants of edge nodes and hosts,
//! and an edge node and a host application over any broker.
//! Words, files and writers are the caller's.
#![tactic(auto)]

mod clients;
mod fault;
mod files;
mod histories;
mod packets;
mod passwords;
mod places;
mod plants;
mod running;
mod serving;
mod show;
mod texts;
mod world;

pub use files::Files;
pub use histories::{HistoryForm, HistoryPlan};
pub use passwords::{PasswdPlan, passwd};
pub use plants::{plant, told};
pub use running::{NOT_TEXT, Outcome, run, run_with_notes};
pub use serving::{LimitsPlan, StorePlan};
