//! The story of an edge node, as a plant engineer asks for it: how it stands, since when and why, and which readings were lost (own rules). No IO, and
//! no clock: each call is told the moment.
#![tactic(auto)]

mod counts;
mod hole;
mod holes;
pub mod laws;
mod stand;
mod story;

pub use counts::Counts;
pub use hole::{End, Hole, Loss};
pub use stand::Stand;
pub use story::Story;
