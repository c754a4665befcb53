//! Tests of what the users of a broker may hold, as `serve` bounds it, over public calls alone. They stand apart since a crate with tests is proved twice.
#![tactic(auto)]

#[cfg(test)]
mod within;
