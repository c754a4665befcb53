//! Calls of `spk_broker`.
ghost use Rattle.std.specs.Prelude.{◌≡◌, ◌<◌, length, map, position, true, false, IfErr, IfOk, IfSome, OnErr, OnOk};
ghost use Rattle.spk_packets.specs.View.{view};
ghost use Rattle.spk_broker.specs.Fault.{IsUnknown};
ghost use Rattle.spk_broker.specs.Sent.{outgoing, sent_view};
ghost use Rattle.spk_broker_rules.specs.Plan.{Packet as PacketEvent};
ghost use Rattle.spk_broker_rules.specs.Step.{knows, step};
ghost use Rattle.spk_refusals.specs.Wrong.{IsConnackFirst, IsEnded, IsLeft, brought, first_brought, is_connack, is_disconnect};

use spk_broker::{BrokerFault, Conn, Out, Outgoing};
use spk_packets::Packet;
use std::marker::Model;

/// A `spk_broker::Broker`.
#[derive(Drop)]
pub struct Broker {
    pub broker: spk_broker::Broker,
}

impl Model for Broker {
    ghost use Rattle.spk_broker_rules.specs.Data as plain;

    ghost Value = { plain.Broker };

    ghost view = { λ b. b.broker };
}

impl Broker {
    /// `spk_broker::Broker::packet`.
    pub fn packet(&mut self, conn: Conn, packet: &Packet, now: u64) -> Result<Out, BrokerFault>
        ensures sends { IfOk result (λ out. map sent_view out.sends.items
            ≡ map outgoing (step self.old (PacketEvent conn (view packet.now) now)).sends) }
        ensures closes { IfOk result (λ out. out.closes.items
            ≡ (step self.old (PacketEvent conn (view packet.now) now)).closes) }
        ensures done { OnOk result (self.new
            ≡ (step self.old (PacketEvent conn (view packet.now) now)).broker) }
        ensures accepted { OnOk result (knows self.old conn ≡ true) }
        ensures fault { IfErr result (IsUnknown (knows self.old conn)) }
        ensures err { OnErr result (self.new ≡ self.old) }
    {
        self.broker.packet(conn, packet, now)
    }
}

/// Whether this is a CONNACK.
fn is_connack(send: &Outgoing) -> bool
    ensures { result ≡ is_connack send.now }
{
    match send.bytes.first() {
        Some(0x20) => true,
        _ => false,
    }
}

/// Where the first CONNACK stands.
fn connack_place(sends: &[Outgoing]) -> Option<usize>
    ensures place { result ≡ position is_connack sends.now }
    ensures within { IfSome result (λ place. place < length sends.now) }
{
    sends.iter().position(|send| is_connack(send))
}

/// What stands at this place stands before all others.
fn bring(sends: &mut [Outgoing], place: usize)
    requires { place < length sends.old }
    ensures { sends.new ≡ brought place sends.old }
{
    sends[..place + 1].rotate_right(1);
}

/// The first CONNACK stands before all that is sent.
fn connack_first(out: Out) -> Out
    ensures sends { result.sends.items ≡ first_brought is_connack out.sends.items }
    ensures closes { result.closes ≡ out.closes }
{
    let mut out = out;
    if let Some(place) = connack_place(&out.sends) {
        bring(&mut out.sends, place);
    }
    out
}

/// The CONNACK of a newer connection stands before what is sent of the older one's will.
fn will_after_connack(turns: bool, answer: Result<Out, BrokerFault>) -> Result<Out, BrokerFault>
    ensures control { turns ≡ false → result ≡ answer }
    ensures turned { turns ≡ true → IsConnackFirst answer result }
{
    if !turns {
        return answer;
    }
    match answer {
        Ok(out) => Ok(connack_first(out)),
        Err(fault) => Err(fault),
    }
}

/// A DISCONNECT acts as the end of a connection without one, whose will is routed. Of any other packet it says NoSuchConn, and changes nothing.
///
/// The real call comes behind it in any case, since `or` takes its argument before it looks: its answer counts where this one is a refusal,
/// and else is dropped.
fn will_after_disconnect(
    turns: bool,
    broker: &mut spk_broker::Broker,
    conn: Conn,
    packet: &Packet,
    now: u64,
) -> Result<Out, BrokerFault>
    ensures control { turns ≡ false → IsLeft broker.old broker.new result }
    ensures other { is_disconnect (view packet.now) ≡ false → IsLeft broker.old broker.new result }
    ensures turned { turns ≡ true → is_disconnect (view packet.now) ≡ true
        → IsEnded conn now broker.old broker.new result }
{
    match packet {
        Packet::Disconnect if turns => broker.closed(conn, now),
        _ => Err(BrokerFault::NoSuchConn),
    }
}
