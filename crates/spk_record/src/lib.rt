//! What an edge node's program keeps on disk so that no session and no stamp comes twice after a crash: the bdSeq that comes next, and a moment
//! that no stamp passed (Sparkplug 3.0.0, chapter 6, on `bdSeq` and timestamps; the file's text is an own rule). No IO.
#![tactic(auto)]

mod fault;
pub mod laws;
mod record;

pub use fault::RecordFault;
pub use record::Record;
