//! Tests of a broker's door, over public calls alone. They stand apart since a crate with tests is proved twice.
#![tactic(auto)]

#[cfg(test)]
mod access;
#[cfg(test)]
mod credentials;
#[cfg(test)]
mod doors;
#[cfg(test)]
mod passwords;
#[cfg(test)]
mod visitors;
