//! The packet of one change, written at once (MQTT 3.1.1, section 3.3): no metric, payload or topic of it is made before.
ghost use Rattle.std.specs.Prelude.{◌≡◌, ◌⊎◌, ◌∷◌, ◌+◌, ◌-◌, ◌*◌, ◌%◌, ◌^◌, ◌<◌, ◌≤◌, ◌++◌, length, min, None, Some, IfOk, IfErr, IfSome, OnOk, true, false, if◌then◌else◌};
ghost use Rattle.std.specs.Option.{option_map};
ghost use Rattle.std.specs.Str.{IsUtf8};
ghost use Rattle.spk_protobuf.specs.Spelling.{bytes_field, varint};
ghost use Rattle.spk_payload.specs.Meaning.{Other};
ghost use Rattle.spk_payload.specs.Spelling as payload;
ghost use Rattle.spk_payload.specs.View.{content_of};
ghost use Rattle.spk_packets.specs.Grammar.{has_zero, largest};
ghost use Rattle.spk_packets.specs.Spelling as packet;
ghost use Rattle.spk_edge_rules.specs.Writable.{is_writable};
ghost use Rattle.spk_edge.specs.Saying.{metric_said, null_said, payload_said, said, topic_said};

use spk_edge_rules::EdgeFault;
use spk_payload::Raw;
use spk_protobuf::{put_bytes, put_varint, varint_size};
use std::alloc::{AllocError, Global};

/// The greatest packet, in bytes, header and all (own rule).
pub(crate) const LARGEST: usize = 1_048_576;

/// What the message of one change says.
#[derive(Clone, Copy)]
pub(crate) struct Saying<'a> {
    /// Its names: of the group, of the node, and of the device whose metric it is, if it isn't the node's.
    pub(crate) group: &'a str,
    pub(crate) node: &'a str,
    pub(crate) device: Option<&'a str>,
    pub(crate) alias: u64,
    /// The message's stamp, and the metric's.
    pub(crate) stamp: u64,
    pub(crate) seq: u8,
    /// Whether the metric is null.
    pub(crate) null: bool,
    /// The value as it is written.
    pub(crate) value: &'a Option<Raw>,
}

// ---- fields

/// A field of wire type 0: its tag and its number.
#[inline(always)]
pub(crate) fn put_field(out: &mut Vec<u8>, tag: u64, number: u64) -> Result<(), AllocError>
    ensures ok { OnOk result (out.new.items ≡ out.old.items ++ payload.number_field tag number) }
    ensures fits { number < 2 ^ 64 }
{
    put_varint(out, tag)?;
    put_varint(out, number)
}

/// 1 for true, 0 for false.
fn bit(flag: bool) -> u64
    ensures { result ≡ payload.bit flag }
{
    if flag { 1 } else { 0 }
}

fn put_text(out: &mut Vec<u8>, text: &str) -> Result<(), AllocError>
    ensures ok { OnOk result (out.new.items ≡ out.old.items ++ bytes_field 15 text.now) }
    ensures fits { IsUtf8 text.now × (length text.now < 2 ^ 64) }
{
    put_bytes(out, 15, text.as_bytes())
}

fn put_octets(out: &mut Vec<u8>, bytes: &[u8]) -> Result<(), AllocError>
    ensures ok { OnOk result (out.new.items ≡ out.old.items ++ bytes_field 16 bytes.now) }
    ensures fits { length bytes.now < 2 ^ 64 }
{
    put_bytes(out, 16, bytes)
}

/// A field of wire type 1 or 5: its tag and its bytes.
fn put_fixed(out: &mut Vec<u8>, tag: u64, bytes: &[u8]) -> Result<(), AllocError>
    ensures { OnOk result (out.new.items ≡ out.old.items ++ varint tag ++ bytes.now) }
{
    put_varint(out, tag)?;
    out.extend_from_slice(bytes)
}

fn put_raw(out: &mut Vec<u8>, raw: &Raw) -> Result<(), AllocError>
    requires { content_of raw.now ≡ Other → ⊥ }
    ensures ok { OnOk result
        (out.new.items ≡ out.old.items ++ payload.content_spelling (content_of raw.now)) }
    ensures fits { OnOk result (payload.ContentFits (content_of raw.now)) }
{
    match raw {
        Raw::Int(number) => put_field(out, 10 * 8, u64::from(*number)),
        Raw::Long(number) => put_field(out, 11 * 8, *number),
        Raw::Flag(flag) => put_field(out, 14 * 8, bit(*flag)),
        Raw::Words(text) => put_text(out, text.as_str()),
        Raw::Octets(bytes) => put_octets(out, bytes),
        Raw::Float(bits) => put_fixed(out, 12 * 8 + 5, &bits.to_le_bytes()),
        Raw::Double(bits) => put_fixed(out, 13 * 8 + 1, &bits.to_le_bytes()),
        Raw::Other => unreachable!(),
    }
}

pub(crate) fn put_value(out: &mut Vec<u8>, value: &Option<Raw>) -> Result<(), AllocError>
    requires { option_map content_of value.now ≡ Some Other → ⊥ }
    ensures ok { OnOk result (out.new.items ≡ out.old.items
        ++ payload.if_there payload.content_spelling (option_map content_of value.now)) }
    ensures fits { OnOk result (IfSome (option_map content_of value.now) payload.ContentFits) }
{
    match value {
        Some(raw) => put_raw(out, raw),
        None => Ok(()),
    }
}

fn put_null(out: &mut Vec<u8>, null: bool) -> Result<(), AllocError>
    ensures { OnOk result (out.new.items ≡ out.old.items
        ++ payload.if_there (λ b. payload.number_field (7 * 8) (payload.bit b)) (null_said null)) }
{
    if null {
        return put_field(out, 7 * 8, 1);
    }
    Ok(())
}

// ---- sizes, or the greatest number where there are more bytes

pub(crate) fn field_size(tag: u64, number: u64) -> usize
    ensures size { result ≡ length (payload.number_field tag number) }
    ensures small { result ≤ 20 }
{
    varint_size(tag) + varint_size(number)
}

#[tactic(auto, unfolding(spk_protobuf::specs::Spelling::bytes_field))]
pub(crate) fn bytes_size(field: u64, bytes: &[u8]) -> usize
    ensures { result ≡ min (length (bytes_field field bytes.now)) (2 ^ 64 - 1) }
{
    let tag = field.wrapping_mul(8).wrapping_add(2);
    let head = varint_size(tag) + varint_size(bytes.len() as u64);
    bytes.len().saturating_add(head)
}

fn raw_size(raw: &Raw) -> usize
    ensures { result ≡ min (length (payload.content_spelling (content_of raw.now))) (2 ^ 64 - 1) }
{
    match raw {
        Raw::Int(number) => field_size(10 * 8, u64::from(*number)),
        Raw::Long(number) => field_size(11 * 8, *number),
        Raw::Flag(flag) => field_size(14 * 8, bit(*flag)),
        Raw::Words(text) => bytes_size(15, text.as_bytes()),
        Raw::Octets(bytes) => bytes_size(16, bytes),
        Raw::Float(_) => varint_size(12 * 8 + 5) + 4,
        Raw::Double(_) => varint_size(13 * 8 + 1) + 8,
        Raw::Other => 0,
    }
}

pub(crate) fn value_size(value: &Option<Raw>) -> usize
    ensures { result ≡ min (length (payload.if_there payload.content_spelling
        (option_map content_of value.now))) (2 ^ 64 - 1) }
{
    match value {
        Some(raw) => raw_size(raw),
        None => 0,
    }
}

fn null_size(null: bool) -> usize
    ensures size { result ≡ length (payload.if_there
        (λ b. payload.number_field (7 * 8) (payload.bit b)) (null_said null)) }
    ensures small { result ≤ 20 }
{
    if null { field_size(7 * 8, 1) } else { 0 }
}

// ---- the header

/// How many bytes the remaining length takes.
#[tactic(auto, unfolding(spk_packets::specs::Spelling::shortest))]
fn length_size(len: usize) -> usize
    ensures size { result ≡ length (packet.shortest len) }
    ensures small { result ≤ 4 }
{
    if len < 128 {
        1
    } else if len < 16_384 {
        2
    } else if len < 2_097_152 {
        3
    } else {
        4
    }
}

/// The remaining length, in as few bytes as it has groups of seven bits.
#[tactic(auto, unfolding(spk_packets::specs::Spelling::shortest))]
fn put_length(out: &mut Vec<u8>, len: usize) -> Result<(), AllocError>
    requires { len < 2097152 }
    ensures { OnOk result (out.new.items ≡ out.old.items ++ packet.shortest len) }
{
    if len < 128 {
        out.push(len as u8)?;
    } else if len < 16_384 {
        out.push((len % 128 + 128) as u8)?;
        out.push((len / 128) as u8)?;
    } else {
        out.push((len % 128 + 128) as u8)?;
        out.push((len / 128 % 128 + 128) as u8)?;
        out.push((len / 16_384) as u8)?;
    }
    Ok(())
}

/// A number of two bytes.
#[inline(always)]
fn put_two(out: &mut Vec<u8>, number: usize) -> Result<(), AllocError>
    ensures { OnOk result (out.new.items ≡ out.old.items ++ packet.number number) }
{
    out.push((number / 256 % 256) as u8)?;
    out.push((number % 256) as u8)?;
    Ok(())
}

/// A name.
#[inline(always)]
fn put_name(out: &mut Vec<u8>, name: &str) -> Result<(), AllocError>
    ensures ok { OnOk result (out.new.items ≡ out.old.items ++ name.now) }
    ensures text { IsUtf8 name.now }
{
    out.extend_from_slice(name.as_bytes())
}

/// Whether U+0000 is in a text.
#[inline(always)]
pub(crate) fn has_zero(text: &str) -> bool
    ensures { result ≡ has_zero text.now }
{
    text.as_bytes().contains(&0)
}

impl<'a> Saying<'a> {
    /// How many bytes its topic has, or the greatest number.
    fn topic_size(&self) -> usize
        ensures { result ≡ min (length (topic_said self.now)) (2 ^ 64 - 1) }
    {
        let size = self
            .group
            .len()
            .saturating_add(self.node.len())
            .saturating_add(15);
        match self.device {
            Some(device) => size.saturating_add(device.len()).saturating_add(1),
            None => size,
        }
    }

    /// Whether U+0000 is in its topic.
    fn has_zero(&self) -> bool
        ensures { result ≡ has_zero (topic_said self.now) }
    {
        if has_zero(self.group) || has_zero(self.node) {
            return true;
        }
        match self.device {
            Some(device) => has_zero(device),
            None => false,
        }
    }

    /// Its topic.
    fn put_topic(&self, out: &mut Vec<u8>) -> Result<(), AllocError>
        ensures ok { OnOk result (out.new.items ≡ out.old.items ++ topic_said self.now) }
        ensures text { OnOk result (IsUtf8 (topic_said self.now)) }
    {
        out.extend_from_slice(b"spBv1.0/")?;
        put_name(out, self.group)?;
        match self.device {
            Some(device) => {
                out.extend_from_slice(b"/DDATA/")?;
                put_name(out, self.node)?;
                out.push(b'/')?;
                put_name(out, device)
            }
            None => {
                out.extend_from_slice(b"/NDATA/")?;
                put_name(out, self.node)
            }
        }
    }

    /// How many bytes its metric has, or the greatest number.
    #[tactic(auto, unfolding(spk_payload::specs::Spelling::metric_spelling))]
    fn metric_size(&self) -> usize
        ensures { result
            ≡ min (length (payload.metric_spelling (metric_said self.now))) (2 ^ 64 - 1) }
    {
        let head = field_size(2 * 8, self.alias) + field_size(3 * 8, self.stamp);
        value_size(self.value).saturating_add(head + null_size(self.null))
    }

    /// How many bytes its payload has.
    #[tactic(auto, unfolding(spk_payload::specs::Spelling::spelling, spk_protobuf::specs::Spelling::bytes_field))]
    fn payload_size(&self, metric: usize) -> usize
        requires size { metric ≡ length (payload.metric_spelling (metric_said self.now)) }
        requires small { metric ≤ largest }
        ensures size { result ≡ length (payload.spelling (payload_said self.now)) }
        ensures small { result ≤ metric + 80 }
    {
        let head = varint_size(2 * 8 + 2) + varint_size(metric as u64);
        let around = field_size(8, self.stamp) + field_size(3 * 8, u64::from(self.seq));
        around + head + metric
    }

    /// The fields of its metric.
    #[tactic(auto, unfolding(spk_payload::specs::Spelling::metric_spelling))]
    fn put_metric(&self, out: &mut Vec<u8>) -> Result<(), AllocError>
        requires { (metric_said self.now).value ≡ Some Other → ⊥ }
        ensures ok { OnOk result (out.new.items
            ≡ out.old.items ++ payload.metric_spelling (metric_said self.now)) }
        ensures alias { self.now.alias < 2 ^ 64 }
        ensures fits { OnOk result
            (IfSome (metric_said self.now).value payload.ContentFits) }
    {
        put_field(out, 2 * 8, self.alias)?;
        put_field(out, 3 * 8, self.stamp)?;
        put_null(out, self.null)?;
        put_value(out, self.value)
    }

    /// Its payload.
    #[tactic(auto, unfolding(spk_payload::specs::Spelling::spelling, spk_protobuf::specs::Spelling::bytes_field))]
    fn put_payload(&self, out: &mut Vec<u8>, metric: usize) -> Result<(), AllocError>
        requires known { (metric_said self.now).value ≡ Some Other → ⊥ }
        requires size { metric ≡ length (payload.metric_spelling (metric_said self.now)) }
        ensures ok { OnOk result (out.new.items
            ≡ out.old.items ++ payload.spelling (payload_said self.now)) }
        ensures fits { OnOk result (payload.PayloadFits (payload_said self.now)) }
    {
        put_field(out, 8, self.stamp)?;
        put_varint(out, 2 * 8 + 2)?;
        put_varint(out, metric as u64)?;
        self.put_metric(out)?;
        put_field(out, 3 * 8, u64::from(self.seq))
    }

    /// The header, the topic and the payload.
    fn join(
        &self,
        alloc: Global,
        topic: usize,
        metric: usize,
        len: usize,
    ) -> Result<Vec<u8>, AllocError>
        requires known { (metric_said self.now).value ≡ Some Other → ⊥ }
        requires topic { topic ≡ length (topic_said self.now) }
        requires size { metric ≡ length (payload.metric_spelling (metric_said self.now)) }
        requires body { len ≡ length (packet.body (said self.now)) }
        requires small { len < 1048576 }
        ensures bytes { IfOk result (λ v. v.items ≡ packet.spelling (said self.now)) }
        ensures text { OnOk result (IsUtf8 (topic_said self.now)) }
        ensures fits { OnOk result (payload.PayloadFits (payload_said self.now)) }
    {
        let mut out = Vec::with_capacity(alloc, 1 + length_size(len) + len)?;
        out.push(0x30)?;
        put_length(&mut out, len)?;
        put_two(&mut out, topic)?;
        self.put_topic(&mut out)?;
        self.put_payload(&mut out, metric)?;
        Ok(out)
    }

    /// Its bytes; TooLarge where it can't be written.
    pub(crate) fn packet(&self, alloc: Global) -> Result<Vec<u8>, EdgeFault>
        requires { (metric_said self.now).value ≡ Some Other → ⊥ }
        ensures bytes { IfOk result (λ v. v.items ≡ packet.spelling (said self.now)) }
        ensures text { OnOk result (IsUtf8 (topic_said self.now)) }
        ensures fits { OnOk result (payload.PayloadFits (payload_said self.now)) }
        ensures writable { OnOk result (is_writable (said self.now) ≡ true) }
        ensures fault { IfErr result (λ e. (e ≡ EdgeFault.NoMemory) ⊎ ((e ≡ EdgeFault.TooLarge)
            × (is_writable (said self.now) ≡ false))) }
    {
        let topic = self.topic_size();
        if topic > 65_535 || self.has_zero() {
            return Err(EdgeFault::TooLarge);
        }
        let metric = self.metric_size();
        if metric > LARGEST {
            return Err(EdgeFault::TooLarge);
        }
        let len = topic + self.payload_size(metric) + 2;
        if 1 + length_size(len) + len > LARGEST {
            return Err(EdgeFault::TooLarge);
        }
        Ok(self.join(alloc, topic, metric, len)?)
    }
}
