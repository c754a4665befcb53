//! What a broker keeps, in the midst of a call.
ghost use Rattle.std.specs.Prelude.{◌≡◌, map, true};
ghost use Rattle.spk_broker.specs.Parts.{retained_view};
ghost use Rattle.spk_broker.specs.Sendable.{are_sendable};

use crate::newcomer::Newcomer;
use crate::session::Session;
use indexmap::IndexMap;
use spk_bytes::Piece;
use std::alloc::Global;

/// What is kept of a retained message beside its topic (section 3.3.1.3).
#[derive(Debug, Drop)]
pub(crate) struct Stored {
    pub(crate) payload: Piece,
    /// 0 or 1.
    pub(crate) qos: u8,
}

/// Connections, sessions, grants and retained messages, as before the call and as by now.
#[derive(Debug, Drop)]
pub(crate) struct State {
    pub(crate) alloc: Global,
    pub(crate) limit: u16,
    pub(crate) given: u64,
    pub(crate) made: u64,
    pub(crate) clock: u64,
    pub(crate) clock_before: u64,
    pub(crate) newcomers: Vec<Newcomer>,
    pub(crate) sessions: Vec<Session>,
    /// Changed where a call is settled alone.
    pub(crate) retained: IndexMap<String, Stored>,
    /// Each retained message can be written as a PUBLISH.
    ghost sendable: { are_sendable (map retained_view retained.entries) ≡ true },
}
