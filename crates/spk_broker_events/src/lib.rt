//! The bytes of a broker's events, and of what it keeps: what a broker's journal is made of, without IO (own rules).
#![tactic(auto)]

mod event;
pub mod laws;
mod line;
mod line_reading;
mod reading;
mod writing;

pub use event::Event;
pub use line::{Kind, Line, append_line};
pub use line_reading::read_line;
pub use reading::read;
pub use writing::{MOST, append, append_packet};
