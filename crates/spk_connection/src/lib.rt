//! A client's connection with a broker, without its socket (MQTT 3.1.1, section 4.2 on network connections): what was read of it and isn't taken as
//! packets, what was sent on it and isn't written, and when something is due. An edge node's program and a host's hold one each. No IO, and no
//! clock: each call is told the moment.
#![tactic(auto)]

mod connection;
mod fault;
pub mod laws;
mod waiting;

pub use connection::Connection;
pub use fault::ConnectionFault;
pub use spk_link::Due;
