//! The board of a host's nodes, as text of at most 80 columns: what needs a look first, and what happened last (own rules). No IO and no clock: it is
//! written to a writer, and each call is told the moment.
#![tactic(auto)]

mod board;
mod drawing;
mod happened;
pub mod laws;
mod row;
mod screen;
mod telling;
#[cfg(test)]
mod tests;
mod text;

pub use board::Board;
pub use row::{Look, Row, Values};
pub use screen::Screen;
