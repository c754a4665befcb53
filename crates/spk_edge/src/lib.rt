//! An edge node of Sparkplug 3.0.0 (chapters 5 and 6) over MQTT 3.1.1, without IO: it is told what comes, and answers the
//! packets to send.
#![tactic(auto)]

mod arriving;
mod bearing;
mod births;
mod calls;
mod changing;
mod command;
mod config;
mod draining;
mod ends;
mod hearing;
mod history;
mod input;
pub mod laws;
mod message;
mod node;
mod packet;
mod plan;
mod planning;
mod rebearing;
mod row;
mod sealing;
mod several;
mod taking;
mod telling;
mod texts;
mod values;

pub use config::{EdgeConfig, Numbering, Record};
pub use input::{Act, Input};
pub use message::{Out, Published, Write};
pub use node::EdgeNode;
pub use plan::{Plan, Taken};
pub use several::ChangesFault;
pub use spk_edge_rules::{EdgeFault, Phase};
pub use taking::Planned;
pub use texts::{death_bytes, node_topic};
