//! Commands that are done at once (Sparkplug 3.0.0, chapter 6, NCMD and DCMD): writes are handed out, and births are sent as they are written.
ghost use Rattle.std.specs.Prelude.{◌≡◌, ◌⊎◌, IfOk, IfErr, OnOk, OnErr, map, true, false, ◌&&◌};
ghost use Rattle.std.specs.List.{list_all};
ghost use Rattle.spk_packets.specs.Spelling.{spelling};
ghost use Rattle.spk_edge_rules.specs.Writable.{is_writable};
ghost use Rattle.spk_edge_rules.specs.Commands as asked;
ghost use Rattle.spk_edge_rules.specs.Rules as rule;
ghost use Rattle.spk_edge.specs.Ordered.{order_view};
ghost use Rattle.spk_edge.specs.Patch as patch;
ghost use Rattle.spk_edge.specs.Reborn as reborn;
ghost use Rattle.spk_edge.specs.Sealing as seal;
ghost use Rattle.spk_edge.specs.View.{write_view};

use crate::command::{Order, orders_of, wants_rebirth, writes_in};
use crate::input::Act;
use crate::message::{Out, Write};
use crate::node::EdgeNode;
use crate::plan::END;
use crate::sealing::written;
use spk_edge_rules::{EdgeFault, Phase};
use spk_packets::Packet;
use std::alloc::Global;

/// The acknowledgement of what came at QoS 1, alone.
fn acknowledged(alloc: Global, ack: Option<u16>) -> Result<Vec<Vec<u8>>, EdgeFault>
    ensures bytes { IfOk result (λ out. map seal.bytes_of out.items
        ≡ map spelling (reborn.acks ack)) }
    ensures writable { OnOk result (list_all is_writable (reborn.acks ack) ≡ true) }
    ensures fault { IfErr result (seal.IsUnwritten (reborn.acks ack)) }
{
    let mut packets = Vec::new(alloc);
    if let Some(id) = ack {
        packets.push(written(alloc, &Packet::PubAck { id })?)?;
    }
    Ok(packets)
}

impl EdgeNode {
    /// The births are sent behind the acknowledgement, and the writes handed out.
    fn rebear(&mut self, now: u64, ack: Option<u16>, writes: Vec<Write>) -> Result<Out, EdgeFault>
        ensures reborn { IfOk result (reborn.IsReborn self.old now ack
            (map write_view writes.items) self.new) }
        ensures fault { IfErr result (reborn.IsUnborn self.old now ack) }
        ensures err { OnErr result (self.new ≡ self.old) }
    {
        let stamp = self.birth_stamp(now)?;
        if stamp >= END {
            return Err(EdgeFault::ClockEnd);
        }
        let mut packets = acknowledged(self.alloc, ack)?;
        let seq = self.push_births(&mut packets, stamp)?;
        self.tally.phase = Phase::Born;
        self.tally.stamp = Some(stamp);
        self.tally.seq = seq;
        Ok(Out {
            packets,
            writes,
            close: false,
        })
    }

    /// Whether births are asked for: a rebirth is, of a node that is Born.
    fn wants_births(&self, orders: &[Order]) -> bool
        ensures { result ≡ (asked.wants_rebirth (map order_view orders.now)
            && rule.is_born self.now.standing.asked.phase) }
    {
        wants_rebirth(orders) && self.tally.phase == Phase::Born
    }

    /// Does what a command asks.
    pub(crate) fn commanded(
        &mut self,
        now: u64,
        ack: Option<u16>,
        topic: &str,
        payload: &[u8],
    ) -> Result<Out, EdgeFault>
        ensures done { IfOk result (patch.IsDone self.old
            (reborn.command_input now ack topic.now payload.now) self.new) }
        ensures refused { IfErr result (patch.IsRefusal self.old
            (reborn.command_input now ack topic.now payload.now)) }
        ensures err { OnErr result (self.new ≡ self.old) }
    {
        if !self.fits(&Act::Command(topic, payload)) {
            return Err(EdgeFault::WrongPhase);
        }
        if now >= END {
            return Err(EdgeFault::ClockEnd);
        }
        let orders = orders_of(self.alloc, &self.config, &self.registry, topic, payload)?;
        let asked = self.wants_births(&orders);
        let writes = writes_in(self.alloc, orders)?;
        if asked {
            return self.rebear(now, ack, writes);
        }
        let packets = acknowledged(self.alloc, ack)?;
        Ok(Out {
            packets,
            writes,
            close: false,
        })
    }
}
