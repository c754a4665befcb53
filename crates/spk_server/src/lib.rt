//! `serve` without its sockets: the broker and its clients. It is told what the sockets did, and answers what they are to
//! do (own rules).
#![tactic(auto)]

mod answers;
mod fault;
mod handing;
mod holding;
mod keeping;
pub mod laws;
mod moments;
mod reading;
mod server;
mod tally;
mod writing;

pub use fault::ServerFault;
pub use server::Server;
pub use spk_broker::Conn;
pub use spk_clients::Cause;
pub use tally::Tally;
