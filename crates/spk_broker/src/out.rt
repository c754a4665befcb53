//! What a call answers, and the draft of it.
ghost use Rattle.std.specs.Prelude.{◌≡◌, ◌++◌, ◌∷◌, [], IfOk, OnOk, map, false};
ghost use Rattle.spk_packets.specs.View.{publish_view, view};
ghost use Rattle.spk_packets.specs.Spelling.{spelling};
ghost use Rattle.spk_broker.specs.Sent.{outgoing, sort_at, sort_of};
ghost use Rattle.spk_broker.specs.Drafts.{draft_view, empty_draft};
ghost use Rattle.spk_broker.specs.Parts.{app_message_view};
ghost use Rattle.spk_broker.specs.Sendable.{IsWritable};

use crate::app_message::AppMessage;
use spk_bytes::Bytes;
use spk_packets::{Packet, PacketFault, PublishRef, encode};
use spk_session::Sort;
use std::alloc::{AllocError, Global};
use std::collections::VecDeque;

/// The number of a connection. Numbers are 1, 2, .. in the order of opening, and none is given twice.
pub type Conn = u64;

/// Bytes for a connection.
#[derive(Debug, PartialEq, Drop)]
pub struct Outgoing {
    pub conn: Conn,
    /// Whether it may be dropped.
    pub sort: Sort,
    /// One packet, in its canonical spelling. Those who get the same publish share its bytes, at QoS 1 those of its payload.
    pub bytes: Bytes,
}

/// What a call answers: what is to be sent, in order, and whom to close once that is sent.
#[derive(Debug, PartialEq, Drop)]
pub struct Out {
    pub sends: Vec<Outgoing>,
    pub closes: Vec<Conn>,
}

/// What a call answers so far, the messages that wait to be routed, and those that are to be retained.
#[derive(Debug, Drop)]
pub(crate) struct Draft {
    pub(crate) alloc: Global,
    pub(crate) sends: Vec<Outgoing>,
    pub(crate) closes: Vec<Conn>,
    pub(crate) waiting: VecDeque<AppMessage>,
    pub(crate) keeps: VecDeque<AppMessage>,
    /// Where this is set, a CONNECT has changed no session.
    pub(crate) is_still: bool,
}

/// Whether a PUBLISH of this QoS may be dropped.
pub(crate) fn sort_at(qos: u8) -> Sort
    ensures { result ≡ sort_at qos }
{
    if qos == 0 { Sort::QosZero } else { Sort::Other }
}

/// Whether a packet may be dropped.
fn sort_of(packet: &Packet) -> Sort
    ensures { result ≡ sort_of (view packet.now) }
{
    match packet {
        Packet::Publish { qos, .. } => sort_at(*qos),
        _ => Sort::Other,
    }
}

/// The canonical spelling of a packet that can be written. Refused only where memory is.
fn spelled(alloc: Global, packet: &Packet) -> Result<Vec<u8>, AllocError>
    requires { IsWritable (view packet.now) }
    ensures { IfOk result (λ v. v.items ≡ spelling (view packet.now)) }
{
    match encode(alloc, packet) {
        Ok(bytes) => Ok(bytes),
        Err(PacketFault::NoMemory) => Err(AllocError),
        Err(_) => unreachable!(),
    }
}

/// The canonical spelling of a PUBLISH that can be written. Refused only where memory is.
pub(crate) fn spelled_publish(
    alloc: Global,
    publish: &PublishRef<'_>,
) -> Result<Vec<u8>, AllocError>
    requires { IsWritable (publish_view publish.now) }
    ensures { IfOk result (λ v. v.items ≡ spelling (publish_view publish.now)) }
{
    match publish.encode(alloc) {
        Ok(bytes) => Ok(bytes),
        Err(PacketFault::NoMemory) => Err(AllocError),
        Err(_) => unreachable!(),
    }
}

/// The canonical spelling of a PUBLISH that can be written, up to its payload. Refused only where memory is.
pub(crate) fn spelled_head(alloc: Global, publish: &PublishRef<'_>) -> Result<Vec<u8>, AllocError>
    requires { IsWritable (publish_view publish.now) }
    ensures { IfOk result
        (λ v. v.items ++ publish.now.payload.now ≡ spelling (publish_view publish.now)) }
{
    match publish.encode_head(alloc) {
        Ok(bytes) => Ok(bytes),
        Err(PacketFault::NoMemory) => Err(AllocError),
        Err(_) => unreachable!(),
    }
}

impl Draft {
    /// Nothing yet.
    pub(crate) fn new(alloc: Global) -> Draft
        ensures { draft_view result ≡ empty_draft }
    {
        Draft {
            alloc,
            sends: Vec::new(alloc),
            closes: Vec::new(alloc),
            waiting: VecDeque::new(alloc),
            keeps: VecDeque::new(alloc),
            is_still: false,
        }
    }

    /// One more packet for a connection.
    pub(crate) fn say(&mut self, conn: Conn, packet: &Packet) -> Result<(), AllocError>
        requires { IsWritable (view packet.now) }
        ensures { OnOk result (draft_view self.new ≡ record (draft_view self.old) {
          sends = (draft_view self.old).sends
              ++ outgoing (record { conn = conn; packet = view packet.now }) ∷ [];
        }) }
    {
        let bytes = spelled(self.alloc, packet)?;
        self.send(conn, sort_of(packet), Bytes::new(bytes))
    }

    /// Bytes for a connection.
    pub(crate) fn send(&mut self, conn: Conn, sort: Sort, bytes: Bytes) -> Result<(), AllocError>
        ensures { OnOk result (draft_view self.new ≡ record (draft_view self.old) {
          sends = (draft_view self.old).sends
              ++ (record { conn = conn; sort = sort; bytes = bytes }) ∷ [];
        }) }
    {
        self.sends.push(Outgoing { conn, sort, bytes })?;
        Ok(())
    }

    /// One more connection to close.
    pub(crate) fn tell(&mut self, conn: Conn) -> Result<(), AllocError>
        ensures { OnOk result (draft_view self.new ≡ record (draft_view self.old) {
          closes = (draft_view self.old).closes ++ conn ∷ [];
        }) }
    {
        self.closes.push(conn)?;
        Ok(())
    }

    /// One more message that waits.
    pub(crate) fn queue(&mut self, app_message: AppMessage) -> Result<(), AllocError>
        ensures { OnOk result (draft_view self.new ≡ record (draft_view self.old) {
          waiting = (draft_view self.old).waiting ++ app_message_view app_message ∷ [];
        }) }
    {
        self.waiting.push_back(app_message)?;
        Ok(())
    }
}
