//! What the broker's thread is given, and what it hands on.

use spk_ingress::{Message, TakePass};
use spk_rings::{Outlet, Token};
use spk_sequence::Width;
use spk_session::Sort;
use std::fmt;

/// What the broker's thread is given.
#[derive(Drop)]
pub struct BrokerStart {
    /// The width of the plant's reorder window: drop number 256 - 2 * width closes a connection.
    pub width: Width,
    /// The leave to take frames.
    pub pass: TakePass,
    /// The ring of each sender: of the edge nodes in order, then of the host.
    pub outlets: Vec<Outlet>,
}

impl fmt::Debug for BrokerStart {
    fn fmt<W: fmt::Write>(&self, f: &mut fmt::Formatter<W>) -> fmt::Result {
        f.write_str("BrokerStart { .. }")
    }
}

/// An offer that a client's ring refused.
#[derive(Clone, Copy, Debug, PartialEq, Eq)]
pub struct Refusal {
    /// Whose ring it was: an edge node by its place, or the host, which is the last.
    pub client: usize,
    /// Whether it could be dropped.
    pub sort: Sort,
    /// How many frames were taken before.
    pub taken: usize,
}

/// What the broker's thread hands on when all senders have ended.
#[derive(Drop)]
pub struct BrokerEnd {
    pub pass: TakePass,
    /// The frames taken with their senders, in order.
    pub taken: Vec<Message>,
    /// The refused offers, in order.
    pub refusals: Vec<Refusal>,
    /// How many of them were the host's.
    pub refused: usize,
    /// For each item that the host's ring accepted, how many frames were taken before.
    pub accepted: Vec<usize>,
    /// Of each client the token of its ring's dropping: all that the ring got. None where the other end was dropped before.
    pub tokens: Vec<Option<Token>>,
    /// Whether the broker closed the host.
    pub is_cut: bool,
}

impl fmt::Debug for BrokerEnd {
    fn fmt<W: fmt::Write>(&self, f: &mut fmt::Formatter<W>) -> fmt::Result {
        f.write_str("BrokerEnd { .. }")
    }
}
