//! Tests of the host application, of what it keeps of a node, and of what it shows, over public calls alone. They stand apart since a crate with tests is proved twice.
#![tactic(auto)]

#[cfg(test)]
mod asks;
#[cfg(test)]
mod beside_twin;
#[cfg(test)]
mod bytes;
#[cfg(test)]
mod ends;
#[cfg(test)]
mod foreseen;
#[cfg(test)]
mod gaps;
#[cfg(test)]
mod host;
#[cfg(test)]
mod messages;
#[cfg(test)]
mod network;
#[cfg(test)]
mod node;
#[cfg(test)]
mod refused;
#[cfg(test)]
mod twin;
#[cfg(test)]
mod view;
#[cfg(test)]
mod wide;
