//! Births that are written at once (Sparkplug 3.0.0, chapter 6, NBIRTH and DBIRTH): no metric or message of them is made.
ghost use Rattle.std.specs.Prelude.{◌≡◌, ◌⊎◌, ◌++◌, ◌∷◌, [], All, IfOk, IfErr, IfSome, OnOk, Some, map, true, false, slice_get, string_bytes};
ghost use Rattle.std.specs.List.{flat_map, list_all};
ghost use Rattle.std.specs.Option.{option_and_then, option_map};
ghost use Rattle.spk_payload.specs.Spelling as payload;
ghost use Rattle.spk_payload.specs.Typing.{typed_view, written_of};
ghost use Rattle.spk_payload.specs.View.{content_of};
ghost use Rattle.spk_packets.specs.Spelling.{spelling};
ghost use Rattle.spk_device.specs.Book.{device_at, has_owner};
ghost use Rattle.spk_edge_rules.specs.Writable.{is_writable};
ghost use Rattle.spk_edge_rules.specs.Births as births;
ghost use Rattle.spk_edge_rules.specs.Packets.{session_metric};
ghost use Rattle.spk_edge.specs.Listed as listed;
ghost use Rattle.spk_edge.specs.Rows.{all_born, born_if_up, device_born, node_born, payload_with, spelled};
ghost use Rattle.spk_edge.specs.Sealing as seal;
ghost use Rattle.spk_edge.specs.View.{unnumbered};

use crate::config::Numbering;
use crate::node::EdgeNode;
use crate::packet::put_field;
use crate::row::Row;
use crate::sealing::published;
use crate::texts::{device_topic, node_topic};
use crate::values::written_value;
use spk_device::{Gauge, Owner};
use spk_edge_rules::EdgeFault;
use spk_packets::laws::spelling_spells;
use spk_payload::Raw;
use spk_topics::Verb;
use std::alloc::{AllocError, Global};

/// The bytes that a birth asks for at first, and for each of its metrics, up to so many of them.
const FEW: usize = 64;

const EACH: usize = 16;

const MANY: usize = 64;

/// The value of a metric, as its datatype writes it.
fn gauge_value(alloc: Global, gauge: &Gauge) -> Result<Option<Raw>, AllocError>
    ensures { IfOk result (λ raw. option_map content_of raw
        ≡ option_and_then (written_of gauge.now.datatype) (option_map typed_view gauge.now.value)) }
{
    match &gauge.value {
        Some(value) => written_value(alloc, gauge.datatype, value),
        None => Ok(None),
    }
}

impl EdgeNode {
    /// The metric at a place among an owner's, as its birth lists it; nothing where there is none.
    fn put_own(
        &self,
        out: &mut Vec<u8>,
        stamp: u64,
        owner: Owner,
        place: usize,
    ) -> Result<(), AllocError>
        ensures ok { OnOk result (out.new.items ≡ out.old.items ++ payload.if_there spelled
            (slice_get (births.own_metrics self.now.standing.asked.book stamp owner) place)) }
        ensures fits { OnOk result (IfSome (slice_get
            (births.own_metrics self.now.standing.asked.book stamp owner) place)
            payload.MetricFits) }
    {
        let Some((alias, gauge)) = self.registry.owned_at(owner, place) else {
            return Ok(());
        };
        let value = gauge_value(self.alloc, gauge)?;
        let row = Row {
            name: Some(gauge.name.as_str()),
            alias: Some(alias),
            time: stamp,
            datatype: Some(gauge.datatype),
            historical: false,
            null: gauge.value.is_none(),
            value: &value,
        };
        row.put(out)
    }

    /// An owner's metrics, as its birth lists them.
    fn put_owned(&self, out: &mut Vec<u8>, stamp: u64, owner: Owner) -> Result<(), AllocError>
        ensures ok { OnOk result (out.new.items ≡ out.old.items
            ++ flat_map spelled (births.own_metrics self.now.standing.asked.book stamp owner)) }
        ensures fits { OnOk result (All payload.MetricFits
            (births.own_metrics self.now.standing.asked.book stamp owner)) }
    {
        let count = self.registry.owned_count(owner);
        for place in 0..count {
            self.put_own(out, stamp, owner, place)?;
        }
        Ok(())
    }

    /// The metric `bdSeq` of the session.
    fn put_session(&self, out: &mut Vec<u8>, stamp: u64) -> Result<(), AllocError>
        ensures ok { OnOk result (out.new.items ≡ out.old.items
            ++ spelled (session_metric self.now.standing.asked.will_bd (Some stamp))) }
        ensures fits { OnOk result (payload.MetricFits
            (session_metric self.now.standing.asked.will_bd (Some stamp))) }
    {
        let value = Some(Raw::Long(u64::from(self.tally.will_bd)));
        let row = Row {
            name: Some("bdSeq"),
            alias: None,
            time: stamp,
            datatype: Some(4),
            historical: false,
            null: false,
            value: &value,
        };
        row.put(out)
    }

    /// The bytes that a birth of an owner asks for at first.
    fn birth_room(&self, owner: Owner) -> usize {
        let count = self.registry.owned_count(owner).min(MANY);
        count.saturating_mul(EACH).saturating_add(FEW)
    }

    /// The payload of the NBIRTH.
    fn node_bytes(&self, stamp: u64, seq: u8) -> Result<Vec<u8>, AllocError>
        ensures bytes { IfOk result (λ v. v.items
            ≡ payload.spelling (node_born self.now stamp seq).payload) }
        ensures fits { OnOk result (payload.PayloadFits (node_born self.now stamp seq).payload) }
    {
        let mut out = Vec::with_capacity(self.alloc, self.birth_room(Owner::Node))?;
        put_field(&mut out, 8, stamp)?;
        self.put_session(&mut out, stamp)?;
        put_rebirth(&mut out, stamp)?;
        self.put_owned(&mut out, stamp, Owner::Node)?;
        put_field(&mut out, 3 * 8, u64::from(seq))?;
        Ok(out)
    }

    /// The payload of the DBIRTH of a device.
    fn device_bytes(&self, number: usize, stamp: u64, seq: u8) -> Result<Vec<u8>, AllocError>
        ensures bytes { IfOk result (λ v. v.items ≡ payload.spelling (payload_with stamp seq
            (births.own_metrics self.now.standing.asked.book stamp (Owner.Device number)))) }
        ensures fits { OnOk result (payload.PayloadFits (payload_with stamp seq
            (births.own_metrics self.now.standing.asked.book stamp (Owner.Device number)))) }
    {
        let owner = Owner::Device(number);
        let mut out = Vec::with_capacity(self.alloc, self.birth_room(owner))?;
        put_field(&mut out, 8, stamp)?;
        self.put_owned(&mut out, stamp, owner)?;
        put_field(&mut out, 3 * 8, u64::from(seq))?;
        Ok(out)
    }

    /// The packet of the NBIRTH, under a number.
    fn node_packet(&self, stamp: u64, seq: u8) -> Result<Vec<u8>, EdgeFault>
        ensures bytes { IfOk result (λ v. seal.bytes_of v
            ≡ spelling (seal.wire_of (node_born self.now stamp seq))) }
        ensures writable { OnOk result
            (is_writable (seal.wire_of (node_born self.now stamp seq)) ≡ true) }
        ensures whole { OnOk result (seal.IsWhole (node_born self.now stamp seq)) }
        ensures fault { IfErr result (λ e. (e ≡ EdgeFault.NoMemory) ⊎ ((e ≡ EdgeFault.TooLarge)
            × (is_writable (seal.wire_of (node_born self.now stamp seq)) ≡ false))) }
    {
        spelling_spells();
        let topic = node_topic(self.alloc, &self.config, Verb::Birth)?;
        let payload = self.node_bytes(stamp, seq)?;
        published(self.alloc, topic.as_str(), &payload)
    }

    /// The packet of the DBIRTH of the device of a number and a name, under a number.
    fn device_packet(
        &self,
        number: usize,
        name: &str,
        stamp: u64,
        seq: u8,
    ) -> Result<Vec<u8>, EdgeFault>
        ensures bytes { IfOk result (λ v. seal.bytes_of v ≡ spelling (seal.wire_of
            (device_born self.now stamp seq (number, record { name = name.now; up = true })))) }
        ensures writable { OnOk result (is_writable (seal.wire_of
            (device_born self.now stamp seq (number, record { name = name.now; up = true })))
            ≡ true) }
        ensures whole { OnOk result (seal.IsWhole
            (device_born self.now stamp seq (number, record { name = name.now; up = true }))) }
        ensures fault { IfErr result (λ e. (e ≡ EdgeFault.NoMemory) ⊎ ((e ≡ EdgeFault.TooLarge)
            × (is_writable (seal.wire_of (device_born self.now stamp seq
            (number, record { name = name.now; up = true }))) ≡ false))) }
    {
        spelling_spells();
        let topic = device_topic(self.alloc, &self.config, Verb::Birth, name)?;
        let payload = self.device_bytes(number, stamp, seq)?;
        published(self.alloc, topic.as_str(), &payload)
    }

    /// The DBIRTH of a device, if it is up, behind other packets. The answer is the number that comes next.
    fn push_born(
        &self,
        packets: &mut Vec<Vec<u8>>,
        number: usize,
        stamp: u64,
        seq: u8,
    ) -> Result<u8, EdgeFault>
        ensures bytes { OnOk result (map seal.bytes_of packets.new.items
            ≡ map seal.bytes_of packets.old.items ++ map spelling (map seal.wire_of
            (born_if_up self.now stamp seq number
            (device_at self.now.standing.asked.book number)))) }
        ensures next { IfOk result (λ next. next
            ≡ seal.seq_past self.now.config.numbering seq
            (listed.birth_if_up self.now.config self.now.standing.asked.book stamp number
            (device_at self.now.standing.asked.book number))) }
        ensures writable { OnOk result (list_all is_writable (map seal.wire_of
            (born_if_up self.now stamp seq number
            (device_at self.now.standing.asked.book number))) ≡ true) }
        ensures whole { OnOk result (seal.AreWhole
            (born_if_up self.now stamp seq number
            (device_at self.now.standing.asked.book number))) }
        ensures fault { IfErr result (seal.IsUnwritten (map seal.wire_of
            (born_if_up self.now stamp seq number
            (device_at self.now.standing.asked.book number)))) }
    {
        if let Some(name) = self.registry.device_name(number) {
            if self.registry.is_up(number) == Some(true) {
                packets.push(self.device_packet(number, name, stamp, seq)?)?;
                return Ok(seq.wrapping_add(1));
            }
        }
        Ok(seq)
    }

    /// The number of the NBIRTH that comes next.
    fn opening_number(&self) -> u8
        ensures { result ≡ seal.number_in self.now.config.numbering self.now.standing.seq
            (node_born self.now 0 0) }
    {
        match self.config.numbering {
            Numbering::RunsOn => self.tally.seq,
            Numbering::Restarts => 0,
        }
    }

    /// One NBIRTH, and a DBIRTH for each device that is up, behind other packets. The answer is the number that comes next.
    pub(crate) fn push_births(
        &self,
        packets: &mut Vec<Vec<u8>>,
        stamp: u64,
    ) -> Result<u8, EdgeFault>
        ensures bytes { OnOk result (map seal.bytes_of packets.new.items
            ≡ map seal.bytes_of packets.old.items
            ++ map spelling (map seal.wire_of (all_born self.now stamp))) }
        ensures next { IfOk result (λ next. next
            ≡ seal.seq_past self.now.config.numbering self.now.standing.seq
            (map (unnumbered self.now.config) (births.births_at self.now.standing.asked.book
            self.now.standing.asked.will_bd stamp))) }
        ensures writable { OnOk result
            (list_all is_writable (map seal.wire_of (all_born self.now stamp)) ≡ true) }
        ensures whole { OnOk result (seal.AreWhole (all_born self.now stamp)) }
        ensures fault { IfErr result (seal.IsUnwritten
            (map seal.wire_of (all_born self.now stamp))) }
    {
        let number = self.opening_number();
        packets.push(self.node_packet(stamp, number)?)?;
        let mut next = number.wrapping_add(1);
        let count = self.registry.device_count();
        for number in 0..count {
            next = self.push_born(packets, number, stamp, next)?;
        }
        Ok(next)
    }
}

/// The metric `Node Control/Rebirth`.
fn put_rebirth(out: &mut Vec<u8>, stamp: u64) -> Result<(), AllocError>
    ensures ok { OnOk result
        (out.new.items ≡ out.old.items ++ spelled (births.rebirth_metric stamp)) }
    ensures fits { OnOk result (payload.MetricFits (births.rebirth_metric stamp)) }
{
    let value = Some(Raw::Flag(false));
    let row = Row {
        name: Some("Node Control/Rebirth"),
        alias: None,
        time: stamp,
        datatype: Some(11),
        historical: false,
        null: false,
        value: &value,
    };
    row.put(out)
}
