//! A client of MQTT 3.1.1 brokers over TCP: its connections, standard input, a page and the clock in one loop over mio, without threads. What it says
//! and hears is an `App`'s.
#![tactic(auto)]

mod app;
mod brokers;
mod clockwork;
mod connection;
mod door;
mod fault;
mod looping;
mod port;
mod visitors;
mod wire;

pub use app::{App, Note, Seen};
pub use fault::NetworkFault;
pub use looping::run_app;
pub use port::Port;
pub use wire::Wire;
