//! Tests of what threads share, frames on their way and rings, and of the two engines, over public calls alone. They stand apart since a
//! crate with tests is proved twice.
#![tactic(auto)]

#[cfg(test)]
mod engines;
#[cfg(test)]
mod ingress;
#[cfg(test)]
mod no_memory;
#[cfg(test)]
mod paces;
#[cfg(test)]
mod rings;
