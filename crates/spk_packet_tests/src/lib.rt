//! Tests of the packets and streams of MQTT, over public calls alone. They stand apart since a crate with tests is proved twice.
#![tactic(auto)]

#[cfg(test)]
mod large;
#[cfg(test)]
mod packets;
#[cfg(test)]
mod streams;
