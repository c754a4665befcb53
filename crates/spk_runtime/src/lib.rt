//! The broker over TCP: `serve` listens and runs `spk_server` on one loop over readiness. The engines, the ingress and the rings
//! of the crates below are handed on, for those who run threads of their own.
#![tactic(auto)]

mod client;
mod doors;
mod farewell;
mod fault;
mod guarded;
mod holdings;
mod line;
mod page;
mod port;
mod rounds;
mod server;
mod sweep;

pub use farewell::Farewell;
pub use fault::ServeFault;
pub use guarded::Guarded;
pub use holdings::{Heavy, Holdings};
pub use port::Port;
pub use rounds::Rounds;
pub use server::{Serving, serve, serve_at, serve_kept};
pub use spk_engines::{Counted, EngineFault, Failures, read_frames, write_items};
pub use spk_ingress::{
    Closed, Frame, FrameFault, Gone, Ingress, Message, OpenFault, PutPass, Refused, SettleFault,
    TakePass, Taken, Whole,
};
pub use spk_rings::{Bytes, Full, Inlet, Item, Outlet, RingFault, Token, ring};
