//! Tests of names, of the registry of an edge node and of its store, over public calls alone. They stand apart since a crate with
//! tests is proved twice.
#![tactic(auto)]

#[cfg(test)]
mod births;
#[cfg(test)]
mod devices;
#[cfg(test)]
mod floats;
#[cfg(test)]
mod names;
#[cfg(test)]
mod registers;
#[cfg(test)]
mod store;
