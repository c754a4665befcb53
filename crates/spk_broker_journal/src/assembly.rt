//! A broker that is put together, line by line.
ghost use Rattle.std.specs.Prelude.{◌≡◌, IfErr, IfOk, OnOk, nat_le, true};
ghost use Rattle.std.specs.Option.{option_map};
ghost use Rattle.spk_packets.specs.View.{view};
ghost use Rattle.spk_broker_replay.specs.Parts as part;
ghost use Rattle.spk_broker_replay.specs.Parts.{begun, with_part};
ghost use Rattle.spk_broker_events.specs.Line.{kept};
ghost use Rattle.spk_broker_snapshot.specs.Together.{after, apart, bare_session, client_in, ended, in_session, of_packet, sent_in};
ghost use Rattle.spk_broker_journal.specs.Assembled.{in_line, stand, with_retained};
ghost use Rattle.spk_broker_journal.specs.Fitting.{IsUnfit, is_ended_fit, is_last_fit, is_line_fit, is_part_fit, is_session_line_fit, is_waiting_fit, is_within_fit};

use crate::saying::{client, message_in};
use crate::session::{copied, gave, granted, last, sat};
use spk_broker::{Broker, PartFault, RestoredSession};
use spk_broker_events::{Kind, Line};
use spk_packets::Packet;
use std::alloc::Global;

/// A broker that is put together, and the session that is under way. Where a call fails it is gone.
#[derive(Drop)]
pub(crate) struct Assembly {
    pub(crate) broker: Broker,
    pub(crate) session: Option<RestoredSession>,
}

/// A broker without a session under way.
pub(crate) fn apart(broker: Broker) -> Assembly
    ensures { stand result ≡ apart broker }
{
    Assembly {
        broker,
        session: None,
    }
}

/// The numbers that a broker begins with.
fn numbers(alloc: Global, limit: u16, given: u64, made: u64) -> Result<Assembly, PartFault>
    ensures done { IfOk result (λ a. stand a ≡ apart (begun limit given made)) }
    ensures fit { OnOk result (nat_le made given ≡ true) }
    ensures refused { IfErr result (IsUnfit (nat_le made given)) }
{
    match Broker::restored(alloc, limit, given, made) {
        Some(broker) => Ok(apart(broker)),
        None => Err(PartFault::Unfit),
    }
}

/// The session of a line of the session under way behind that line.
fn within(session: RestoredSession, line: Line) -> Result<RestoredSession, PartFault>
    ensures done { IfOk result (λ s. s ≡ in_line (kept line) session) }
    ensures fit { OnOk result (is_part_fit session (kept line) line.kind ≡ true) }
    ensures refused { IfErr result (IsUnfit (is_part_fit session (kept line) line.kind)) }
{
    match line.kind {
        Kind::Sits => sat(session, line.first, line.packet),
        Kind::Grant => granted(session, line.packet),
        Kind::InUse => gave(session, line.first),
        Kind::Last => last(session, line.first),
        Kind::Unacknowledged => copied(session, line.packet),
        Kind::Numbers => Err(PartFault::Unfit),
        Kind::Waiting => Err(PartFault::Unfit),
        Kind::Session => Err(PartFault::Unfit),
        Kind::Retained => Err(PartFault::Unfit),
    }
}

impl Assembly {
    /// The broker, with the session that was under way.
    pub(crate) fn ended(self) -> Result<Broker, PartFault>
        ensures done { IfOk result (λ b. b ≡ ended (stand self)) }
        ensures fit { OnOk result (is_ended_fit (stand self) ≡ true) }
        ensures refused { IfErr result (IsUnfit (is_ended_fit (stand self))) }
    {
        let mut broker = self.broker;
        match self.session {
            Some(session) => {
                broker.restore_session(session)?;
                Ok(broker)
            }
            None => Ok(broker),
        }
    }

    /// One more connection without CONNECT.
    fn waiting(self, conn: u64) -> Result<Assembly, PartFault>
        ensures done { IfOk result (λ a. stand a ≡ apart (with_part (ended (stand self)) (part.Waiting conn))) }
        ensures fit { OnOk result (is_waiting_fit (stand self) conn ≡ true) }
        ensures refused { IfErr result (IsUnfit (is_waiting_fit (stand self) conn)) }
    {
        let mut broker = self.ended()?;
        broker.restore_connection(conn)?;
        Ok(apart(broker))
    }

    /// One more session, of the client of a CONNECT.
    fn begin(self, alloc: Global, key: u64, packet: Option<Packet>) -> Result<Assembly, PartFault>
        ensures done { IfOk result (λ a. stand a ≡ record {
          broker = ended (stand self);
          session = option_map (bare_session key) (of_packet client_in (option_map view packet));
        }) }
        ensures fit { OnOk result (is_session_line_fit (stand self) (option_map view packet) ≡ true) }
        ensures refused { IfErr result (IsUnfit (is_session_line_fit (stand self) (option_map view packet))) }
    {
        let broker = self.ended()?;
        let Some(packet) = packet else {
            return Err(PartFault::Unfit);
        };
        let Some((name, is_kept)) = client(packet) else {
            return Err(PartFault::Unfit);
        };
        let session = RestoredSession::new(alloc, key, name.as_str(), is_kept)?;
        Ok(Assembly {
            broker,
            session: Some(session),
        })
    }

    /// A line of the session under way.
    fn part(self, line: Line) -> Result<Assembly, PartFault>
        ensures done { IfOk result (λ a. stand a ≡ in_session (in_line (kept line)) (stand self)) }
        ensures fit { OnOk result (is_within_fit (stand self) (kept line) ≡ true) }
        ensures refused { IfErr result (IsUnfit (is_within_fit (stand self) (kept line))) }
    {
        let broker = self.broker;
        let Some(session) = self.session else {
            return Err(PartFault::Unfit);
        };
        let session = within(session, line)?;
        Ok(Assembly {
            broker,
            session: Some(session),
        })
    }

    /// One more retained message.
    fn retained(self, packet: Option<Packet>) -> Result<Assembly, PartFault>
        ensures done { IfOk result (λ a. stand a ≡ with_retained (ended (stand self)) (of_packet sent_in (option_map view packet))) }
        ensures fit { OnOk result (is_last_fit (stand self) (option_map view packet) ≡ true) }
        ensures refused { IfErr result (IsUnfit (is_last_fit (stand self) (option_map view packet))) }
    {
        let mut broker = self.ended()?;
        let Some(packet) = packet else {
            return Err(PartFault::Unfit);
        };
        let Some(kept) = message_in(packet) else {
            return Err(PartFault::Unfit);
        };
        let message = kept.message;
        broker.restore_retained(message.topic, message.payload, message.qos)?;
        Ok(apart(broker))
    }

    /// One more line.
    pub(crate) fn line(self, alloc: Global, limit: u16, line: Line) -> Result<Assembly, PartFault>
        ensures done { IfOk result (λ a. stand a ≡ after limit (stand self) (kept line)) }
        ensures fit { OnOk result (is_line_fit (stand self) (kept line) ≡ true) }
        ensures refused { IfErr result (IsUnfit (is_line_fit (stand self) (kept line))) }
    {
        match line.kind {
            Kind::Numbers => numbers(alloc, limit, line.first, line.second),
            Kind::Waiting => self.waiting(line.first),
            Kind::Session => self.begin(alloc, line.first, line.packet),
            Kind::Retained => self.retained(line.packet),
            Kind::Sits => self.part(line),
            Kind::Grant => self.part(line),
            Kind::InUse => self.part(line),
            Kind::Last => self.part(line),
            Kind::Unacknowledged => self.part(line),
        }
    }
}
