//! Tests of `spk_plant`, with threads, and of the files of plans, over public calls alone. They stand apart since a crate with tests is
//! proved twice.
#![tactic(auto)]

#[cfg(test)]
mod bounds;
#[cfg(test)]
mod files;
#[cfg(test)]
mod gates;
#[cfg(test)]
mod held;
#[cfg(test)]
mod judge;
#[cfg(test)]
mod plans;
#[cfg(test)]
mod random;
#[cfg(test)]
mod scripts;
