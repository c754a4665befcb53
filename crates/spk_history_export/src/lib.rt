//! A history as tables of SQLite (own rules).
#![tactic(auto)]

mod bound;
mod cell;
mod disk;
mod making;
mod messages;
mod pending;
mod schema;
mod sql;
mod tables;

pub use disk::export_to;
pub use making::export;
pub use spk_history_print::{
    Counts, ExportFault, PartFiles, PartsOnDisk, Plan, Print, Window, print,
};
