//! Tests of the programs `edge` and `host`, and of the crates that they alone use, over public calls alone. They stand apart since a crate with tests is
//! proved twice.
#![tactic(auto)]

#[cfg(test)]
mod connection;
#[cfg(test)]
mod journal;
#[cfg(test)]
mod programs;
#[cfg(test)]
mod record;
#[cfg(test)]
mod wire;
