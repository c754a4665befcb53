//! Why a client's end came.

use std::fmt;

/// Why a client's end came, or its socket is to be shut. The first cause counts.
#[derive(Clone, Copy, Debug, PartialEq, Eq)]
pub enum Cause {
    /// It sent DISCONNECT (section 3.14).
    Left,
    /// Its socket ended or failed.
    Gone,
    /// It sent no packet in time (own rule).
    Silent,
    /// It sent bytes that this broker can't read: no packet, one of QoS 2, or one that is too long (section 4.8).
    Unreadable,
    /// It sent a packet that the broker refuses, a CONNECT among them (sections 3.1.4 and 4.8), or one of its own made its unacknowledged messages
    /// too many (own rule).
    Refused,
    /// It was silent for more than one and a half times its keep alive (section 3.1.2.10), or the will of one that was made its unacknowledged
    /// messages too many.
    KeepAlive,
    /// Another connection came with its client identifier (section 3.1.4), or the will of one that was taken over made its unacknowledged messages
    /// too many.
    TakenOver,
    /// It doesn't read, or doesn't acknowledge: packets for it were refused, or its unacknowledged messages were too many (own rules).
    Slow,
    /// Memory was refused: for what it sent, or to tell the broker that a packet for it was refused.
    Memory,
}

impl fmt::Display for Cause {
    fn fmt<W: fmt::Write>(&self, f: &mut fmt::Formatter<W>) -> fmt::Result {
        f.write_str(match self {
            Cause::Left => "left",
            Cause::Gone => "gone",
            Cause::Silent => "silent",
            Cause::Unreadable => "unreadable",
            Cause::Refused => "refused",
            Cause::KeepAlive => "keep-alive",
            Cause::TakenOver => "taken-over",
            Cause::Slow => "slow",
            Cause::Memory => "memory",
        })
    }
}
