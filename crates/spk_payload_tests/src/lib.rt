//! Tests of wire fields and of payloads, over public calls alone. They stand apart since a crate with tests is proved twice.
#![tactic(auto)]

#[cfg(test)]
mod fields;
#[cfg(test)]
mod floats;
#[cfg(test)]
mod large;
#[cfg(test)]
mod payloads;
#[cfg(test)]
mod typing;
#[cfg(test)]
mod writing;
