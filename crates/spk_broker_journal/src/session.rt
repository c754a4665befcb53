//! The session under way, line by line.
ghost use Rattle.std.specs.Prelude.{◌≡◌, ◌&&◌, ◌∷◌, ◌++◌, [], IfErr, IfOk, OnOk, None, Some, false, if◌then◌else◌, true};
ghost use Rattle.std.specs.Option.{option_map, option_map_or};
ghost use Rattle.spk_packets.specs.View.{view};
ghost use Rattle.spk_broker_snapshot.specs.Together.{in_flight_in, entries_in, kept_connection, of_packet, sent_in};
ghost use Rattle.spk_broker.specs.Restoring.{is_free};
ghost use Rattle.spk_broker_journal.specs.Fitting.{IsUnfit, is_id, is_kept_message, is_one_grant, is_sent_app_message, is_will};

use crate::saying::{entry, message_in};
use spk_broker::{PartFault, RestoredSession};
use spk_packets::Packet;

/// Its connection, with the will that this packet says.
fn sat_with(
    mut session: RestoredSession,
    conn: u64,
    packet: Packet,
) -> Result<RestoredSession, PartFault>
    ensures done { IfOk result (λ s. s ≡ record session { here = Some (kept_connection conn (option_map (λ x. x.app_message) (sent_in (view packet)))) }) }
    ensures fit { OnOk result (option_map_or is_sent_app_message (sent_in (view packet)) false ≡ true) }
    ensures refused { IfErr result (IsUnfit (option_map_or is_sent_app_message (sent_in (view packet)) false)) }
{
    let Some(will) = message_in(packet) else {
        return Err(PartFault::Unfit);
    };
    session.connect_with(conn, will.message)?;
    Ok(session)
}

/// Its connection.
pub(crate) fn sat(
    mut session: RestoredSession,
    conn: u64,
    packet: Option<Packet>,
) -> Result<RestoredSession, PartFault>
    ensures done { IfOk result (λ s. s ≡ record session { here = Some (kept_connection conn (option_map (λ x. x.app_message) (of_packet sent_in (option_map view packet)))) }) }
    ensures fit { OnOk result (is_will (option_map view packet) ≡ true) }
    ensures refused { IfErr result (IsUnfit (is_will (option_map view packet))) }
{
    match packet {
        Some(packet) => sat_with(session, conn, packet),
        None => {
            session.connect(conn);
            Ok(session)
        }
    }
}

/// One more grant.
pub(crate) fn granted(
    mut session: RestoredSession,
    packet: Option<Packet>,
) -> Result<RestoredSession, PartFault>
    ensures done { IfOk result (λ s. s ≡ record session { grants = session.grants ++ option_map_or entries_in (option_map view packet) [] }) }
    ensures fit { OnOk result (is_one_grant (option_map view packet) ≡ true) }
    ensures refused { IfErr result (IsUnfit (is_one_grant (option_map view packet))) }
{
    let Some(packet) = packet else {
        return Err(PartFault::Unfit);
    };
    let Some(entry) = entry(packet) else {
        return Err(PartFault::Unfit);
    };
    session.grant(entry.filter, entry.qos)?;
    Ok(session)
}

/// An identifier, where it has two bytes.
fn id_of(number: u64) -> Option<u16>
    ensures { result ≡ (if is_id number then Some number else None) }
{
    if number > 65_535 {
        return None;
    }
    Some(number as u16)
}

/// One more identifier in use.
pub(crate) fn gave(mut session: RestoredSession, number: u64) -> Result<RestoredSession, PartFault>
    ensures done { IfOk result (λ s. s ≡ record session { used = session.used ++ number ∷ []; last = number }) }
    ensures fit { OnOk result ((is_id number && is_free number session.used) ≡ true) }
    ensures refused { IfErr result (IsUnfit (is_id number && is_free number session.used)) }
{
    let Some(id) = id_of(number) else {
        return Err(PartFault::Unfit);
    };
    session.give(id)?;
    Ok(session)
}

/// The identifier given last.
pub(crate) fn last(mut session: RestoredSession, number: u64) -> Result<RestoredSession, PartFault>
    ensures done { IfOk result (λ s. s ≡ record session { last = number }) }
    ensures fit { OnOk result (is_id number ≡ true) }
    ensures refused { IfErr result (IsUnfit (is_id number)) }
{
    let Some(id) = id_of(number) else {
        return Err(PartFault::Unfit);
    };
    session.gave(id);
    Ok(session)
}

/// One more message that isn't acknowledged.
pub(crate) fn copied(
    mut session: RestoredSession,
    packet: Option<Packet>,
) -> Result<RestoredSession, PartFault>
    ensures done { IfOk result (λ s. s ≡ record session { in_flight = session.in_flight ++ in_flight_in (option_map view packet) }) }
    ensures fit { OnOk result (is_kept_message (option_map view packet) ≡ true) }
    ensures refused { IfErr result (IsUnfit (is_kept_message (option_map view packet))) }
{
    let Some(packet) = packet else {
        return Err(PartFault::Unfit);
    };
    let Some(in_flight) = message_in(packet) else {
        return Err(PartFault::Unfit);
    };
    let Some(id) = in_flight.id else {
        return Err(PartFault::Unfit);
    };
    session.keep(id, in_flight.message, in_flight.dup)?;
    Ok(session)
}
