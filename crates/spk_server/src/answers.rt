//! The calls of the broker for a client that it may not know any more.
ghost use Rattle.std.specs.Prelude.{◌≡◌, IfOk, OnErr};
ghost use Rattle.spk_packets.specs.View.{view};
ghost use Rattle.spk_broker_rules.specs.Plan as event;
ghost use Rattle.spk_server.specs.Answers.{AnswersOn};

use crate::fault::ServerFault;
use spk_broker::{Conn, Out};
use spk_broker_notes::{NoteFault, NotedBroker};
use spk_packets::{Packet, PacketFault};
use spk_session::Sort;

/// A packet of a client. None where the broker doesn't know it.
pub(crate) fn packet_on(
    noted: &mut NotedBroker,
    conn: Conn,
    packet: &Packet,
    now: u64,
) -> Result<Option<Out>, ServerFault>
    ensures on { IfOk result (AnswersOn conn noted.old noted.new (event.Packet conn (view packet.now) now)) }
    ensures err { OnErr result (noted.new ≡ noted.old) }
{
    match noted.packet(conn, packet, now) {
        Ok(out) => Ok(Some(out)),
        Err(NoteFault::NoSuchConn) => Ok(None),
        Err(_) => Err(ServerFault::NoMemory),
    }
}

/// Bytes of a client that are no packet. None where the broker doesn't know it.
pub(crate) fn fault_on(
    noted: &mut NotedBroker,
    conn: Conn,
    fault: PacketFault,
    now: u64,
) -> Result<Option<Out>, ServerFault>
    ensures on { IfOk result (AnswersOn conn noted.old noted.new (event.Fault conn fault now)) }
    ensures err { OnErr result (noted.new ≡ noted.old) }
{
    match noted.fault(conn, fault, now) {
        Ok(out) => Ok(Some(out)),
        Err(NoteFault::NoSuchConn) => Ok(None),
        Err(_) => Err(ServerFault::NoMemory),
    }
}

/// The end of a client. None where the broker doesn't know it.
pub(crate) fn closed_on(
    noted: &mut NotedBroker,
    conn: Conn,
    now: u64,
) -> Result<Option<Out>, ServerFault>
    ensures on { IfOk result (AnswersOn conn noted.old noted.new (event.Closed conn now)) }
    ensures err { OnErr result (noted.new ≡ noted.old) }
{
    match noted.closed(conn, now) {
        Ok(out) => Ok(Some(out)),
        Err(NoteFault::NoSuchConn) => Ok(None),
        Err(_) => Err(ServerFault::NoMemory),
    }
}

/// A packet for a client was refused. None where the broker doesn't know it.
pub(crate) fn refused_on(
    noted: &mut NotedBroker,
    conn: Conn,
    sort: Sort,
    now: u64,
) -> Result<Option<Out>, ServerFault>
    ensures on { IfOk result (AnswersOn conn noted.old noted.new (event.Refused conn sort now)) }
    ensures err { OnErr result (noted.new ≡ noted.old) }
{
    match noted.refused(conn, sort, now) {
        Ok(out) => Ok(Some(out)),
        Err(NoteFault::NoSuchConn) => Ok(None),
        Err(_) => Err(ServerFault::NoMemory),
    }
}
