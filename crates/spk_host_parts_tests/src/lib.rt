//! Tests of one node's order, of client sessions, of STATE and of what a host reads and says, over public calls alone. They stand apart
//! since a crate with tests is proved twice.
#![tactic(auto)]

#[cfg(test)]
mod host_session;
#[cfg(test)]
mod order;
#[cfg(test)]
mod reading;
#[cfg(test)]
mod sequence;
#[cfg(test)]
mod session;
#[cfg(test)]
mod state;
