//! Tests of a host's page and of how floats are told, over public calls alone. They stand apart since a crate with tests is proved twice.
#![tactic(auto)]

#[cfg(test)]
mod floats;
#[cfg(test)]
mod pages;
