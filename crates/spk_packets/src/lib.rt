//! MQTT 3.1.1 control packets (OASIS, 2014, chapters 2 and 3), at QoS 0 and 1: read, written, and taken from a
//! stream in any pieces.
#![tactic(auto)]

mod borrowed;
mod connect;
mod fault;
mod feed;
mod judge;
pub mod laws;
mod packet;
mod parts;
mod publish;
mod read;
mod size;
mod small;
mod subscribe;
mod table;
mod write;

pub use borrowed::PublishRef;
pub use fault::PacketFault;
pub use feed::Feed;
pub use packet::{Packet, Request, Will};
pub use read::{begins_publish, decode, decode_publish, read_length};
pub use write::{encode, is_writable};
