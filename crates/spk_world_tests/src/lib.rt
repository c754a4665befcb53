//! Tests of the world, over public calls alone. They stand apart since a crate with tests is proved twice.
#![tactic(auto)]

#[cfg(test)]
mod acts;
#[cfg(test)]
mod beside_twin;
#[cfg(test)]
mod floats;
#[cfg(test)]
mod history;
#[cfg(test)]
mod refused;
#[cfg(test)]
mod twin;
#[cfg(test)]
mod views;
#[cfg(test)]
mod worlds;
