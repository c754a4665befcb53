//! Tests of the bodies of a plant's threads, over public calls alone. They stand apart since a crate with tests is proved twice.
#![tactic(auto)]

#[cfg(test)]
mod host;
