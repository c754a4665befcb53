//! An event that comes to a broker again.
ghost use Rattle.std.specs.Prelude.{◌≡◌, IfErr, IfOk, OnOk, true};
ghost use Rattle.spk_broker_events.specs.Record.{said};
ghost use Rattle.spk_broker_rules.specs.Step.{step};
ghost use Rattle.spk_broker_journal.specs.Fitting.{IsUnfit, is_taken, refusal};

use spk_broker::{Broker, BrokerFault, PartFault};
use spk_broker_events::Event;

/// Want of memory stays that; what the broker doesn't take doesn't fit.
fn refusal(fault: BrokerFault) -> PartFault
    ensures { result ≡ refusal fault }
{
    match fault {
        BrokerFault::NoMemory => PartFault::NoMemory,
        BrokerFault::NoSuchConn => PartFault::Unfit,
        BrokerFault::Limit => PartFault::Unfit,
    }
}

/// The broker behind an event, of which nothing is sent.
pub(crate) fn behind(mut broker: Broker, event: &Event) -> Result<Broker, PartFault>
    ensures done { IfOk result (λ b. b ≡ (step broker (said event.now)).broker) }
    ensures fit { OnOk result (is_taken broker (said event.now) ≡ true) }
    ensures refused { IfErr result (IsUnfit (is_taken broker (said event.now))) }
{
    match event {
        Event::Open { moment } => match broker.open(*moment) {
            Ok(_conn) => Ok(broker),
            Err(fault) => Err(refusal(fault)),
        },
        Event::Packet {
            conn,
            packet,
            moment,
        } => match broker.packet(*conn, packet, *moment) {
            Ok(_out) => Ok(broker),
            Err(fault) => Err(refusal(fault)),
        },
        Event::Fault {
            conn,
            fault,
            moment,
        } => match broker.fault(*conn, *fault, *moment) {
            Ok(_out) => Ok(broker),
            Err(fault) => Err(refusal(fault)),
        },
        Event::Closed { conn, moment } => match broker.closed(*conn, *moment) {
            Ok(_out) => Ok(broker),
            Err(fault) => Err(refusal(fault)),
        },
        Event::Tick { moment } => match broker.tick(*moment) {
            Ok(_out) => Ok(broker),
            Err(fault) => Err(refusal(fault)),
        },
        Event::Refused { conn, sort, moment } => match broker.refused(*conn, *sort, *moment) {
            Ok(_out) => Ok(broker),
            Err(fault) => Err(refusal(fault)),
        },
    }
}
