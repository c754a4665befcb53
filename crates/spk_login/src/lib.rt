//! A user name and a password put into the bytes of a CONNECT (MQTT 3.1.1, sections 3.1.2.8, 3.1.2.9, 3.1.3.4 and 3.1.3.5). What writes a CONNECT here
//! says neither; a server that asks for them reads them in what this crate makes, and the same packet.
#![tactic(auto)]

mod fault;
mod length;
mod login;
mod parts;

pub use fault::LoginFault;
pub use login::with_login;
