//! The programs `edge`, an edge node whose values come as lines of standard input, and `host`, a host application that prints what it consumes, over
//! TCP.
#![tactic(auto)]

mod ages;
mod answers;
mod disk;
mod edge;
mod edge_core;
mod edge_lines;
mod edge_parts;
mod fault;
mod happened;
mod history;
mod host;
mod host_core;
mod host_lines;
mod host_parts;
mod hosts;
mod journal;
mod known;
mod lines;
mod notes;
mod page;
mod part_disk;
mod printing;
mod replay;
mod running;
mod shown;
mod stories;
mod texts;
mod watched;

pub use disk::{Disk, Disks, Opened};
pub use edge::EdgeProgram;
pub use edge_core::EdgeCore;
pub use edge_parts::EdgeParts;
pub use fault::ProgramFault;
pub use history::History;
pub use host::{Followed, HostProgram};
pub use host_core::{Heard, HostCore};
pub use host_parts::HostParts;
pub use hosts::GroupHost;
pub use lines::{Lines, Listener};
pub use page::Page;
pub use part_disk::{PartDisk, PartDisks};
pub use running::{Begun, Prepared, begin_edge, begin_host, host_app, run_edge, run_host};
