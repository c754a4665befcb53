//! Which plans of a plant can run: the limits of a plan, and what its nodes and its host are made of (own rules). `spk_plant` runs no
//! other plan, and `spk_files` reads no other.
#![tactic(auto)]

mod limits;

pub use limits::{is_made, is_within};
