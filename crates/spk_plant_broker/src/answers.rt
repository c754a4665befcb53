//! The calls of the broker for a connection that it may not know any more.
ghost use Rattle.std.specs.Prelude.{◌≡◌, ℕ, Some, None, IfOk};
ghost use Rattle.std.specs.Option.{IfSome, IfNone};
ghost use Rattle.spk_packets.specs.View.{view};
ghost use Rattle.spk_broker_rules.specs.Plan as event;
ghost use Rattle.spk_plant_broker.specs.Calls.{Answers};
ghost use Rattle.spk_plant_broker.specs.Step.{known};

use spk_broker::{Broker, BrokerFault, Conn, Out};
use spk_packets::{Packet, PacketFault};
use spk_session::Sort;
use std::alloc::AllocError;

/// A packet of a connection. None where there is none, or the broker doesn't know it.
pub(crate) fn packet_on(
    broker: &mut Broker,
    conn: Option<Conn>,
    packet: &Packet,
    now: u64,
) -> Result<Option<Out>, AllocError>
    ensures some { IfOk result (λ o. IfSome o (λ out. (c : ℕ) × (known broker.old conn ≡ Some c)
        × Answers broker.old broker.new (event.Packet c (view packet.now) now) out)) }
    ensures none { IfOk result
        (λ o. IfNone o ((broker.new ≡ broker.old) × (known broker.old conn ≡ None))) }
{
    let Some(conn) = conn else {
        return Ok(None);
    };
    match broker.packet(conn, packet, now) {
        Ok(out) => Ok(Some(out)),
        Err(BrokerFault::NoSuchConn) => Ok(None),
        Err(_) => Err(AllocError),
    }
}

/// Bytes of a connection that are no packet. None where there is none, or the broker doesn't know it.
pub(crate) fn fault_on(
    broker: &mut Broker,
    conn: Option<Conn>,
    fault: PacketFault,
    now: u64,
) -> Result<Option<Out>, AllocError>
    ensures some { IfOk result (λ o. IfSome o (λ out. (c : ℕ) × (known broker.old conn ≡ Some c)
        × Answers broker.old broker.new (event.Fault c fault now) out)) }
    ensures none { IfOk result
        (λ o. IfNone o ((broker.new ≡ broker.old) × (known broker.old conn ≡ None))) }
{
    let Some(conn) = conn else {
        return Ok(None);
    };
    match broker.fault(conn, fault, now) {
        Ok(out) => Ok(Some(out)),
        Err(BrokerFault::NoSuchConn) => Ok(None),
        Err(_) => Err(AllocError),
    }
}

/// The end of a connection. None where there is none, or the broker doesn't know it.
pub(crate) fn closed_on(
    broker: &mut Broker,
    conn: Option<Conn>,
    now: u64,
) -> Result<Option<Out>, AllocError>
    ensures some { IfOk result (λ o. IfSome o (λ out. (c : ℕ) × (known broker.old conn ≡ Some c)
        × Answers broker.old broker.new (event.Closed c now) out)) }
    ensures none { IfOk result
        (λ o. IfNone o ((broker.new ≡ broker.old) × (known broker.old conn ≡ None))) }
{
    let Some(conn) = conn else {
        return Ok(None);
    };
    match broker.closed(conn, now) {
        Ok(out) => Ok(Some(out)),
        Err(BrokerFault::NoSuchConn) => Ok(None),
        Err(_) => Err(AllocError),
    }
}

/// An offer to a connection's client was refused. None where the broker doesn't know the connection.
pub(crate) fn refused_on(
    broker: &mut Broker,
    conn: Conn,
    sort: Sort,
    now: u64,
) -> Result<Option<Out>, AllocError>
    ensures some { IfOk result
        (λ o. IfSome o (λ out. (c : ℕ) × (known broker.old (Some conn) ≡ Some c)
        × Answers broker.old broker.new (event.Refused c sort now) out)) }
    ensures none { IfOk result
        (λ o. IfNone o ((broker.new ≡ broker.old) × (known broker.old (Some conn) ≡ None))) }
{
    match broker.refused(conn, sort, now) {
        Ok(out) => Ok(Some(out)),
        Err(BrokerFault::NoSuchConn) => Ok(None),
        Err(_) => Err(AllocError),
    }
}
