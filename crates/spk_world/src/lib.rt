//! A world of edge nodes and host applications of Sparkplug 3.0.0 (chapters 5 and 6), without IO: one event at a time, messages are handed
//! to hosts by their positions among all that their node published.
#![tactic(auto)]

mod answer;
mod dying;
mod event;
mod fault;
mod handing;
mod inputs;
mod log;
mod making;
mod member;
mod node;
mod packets;
mod records;
mod renewing;
mod seen;
mod ticking;
mod track;
mod world;

pub use answer::{Done, Stopped};
pub use event::Event;
pub use fault::WorldFault;
pub use records::{Consumed, Published};
pub use world::World;
