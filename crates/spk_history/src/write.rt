//! Appending a record.
ghost use Rattle.std.specs.Prelude.{◌≡◌, ◌<◌, ◌≤◌, ◌^◌, ◌+◌, ◌++◌, [], ◌∷◌, length, IfErr, OnOk, OnErr, vec_len, vec_capacity};
ghost use Rattle.spk_history.specs.Entry.{kind_of, said};
ghost use Rattle.spk_history.specs.Fault.{IsRefusedFor};
ghost use Rattle.spk_frames.specs.Numbers.{counted, eight, four, two};
ghost use Rattle.spk_history.specs.Record.{HasDevice, HasTexts, HasWords, IsEntry, content, device_part, hole_code, kind_code, record_of, session_code};

use crate::entry::{Ending, Entry, Kind, SessionEvent};
use crate::fault::HistoryFault;
use crate::size::content_size;
use spk_frames::crc32;

/// Bytes at the end, where there is room for them.
#[inline(always)]
pub(crate) fn put(out: &mut Vec<u8>, bytes: &[u8])
    requires { vec_len out.old + length bytes.now ≤ vec_capacity out.old }
    ensures items { out.new.items ≡ out.old.items ++ bytes.now }
    ensures len { vec_len out.new ≡ vec_len out.old + length bytes.now }
    ensures room { vec_capacity out.old ≤ vec_capacity out.new }
{
    match out.extend_from_slice(bytes) {
        Ok(()) => {}
        Err(_) => unreachable!(),
    }
}

#[inline(always)]
fn put_one(out: &mut Vec<u8>, n: u8)
    requires { vec_len out.old + 1 ≤ vec_capacity out.old }
    ensures items { out.new.items ≡ out.old.items ++ n ∷ [] }
    ensures len { vec_len out.new ≡ vec_len out.old + 1 }
    ensures room { vec_capacity out.old ≤ vec_capacity out.new }
    ensures word { n < 256 }
{
    put(out, &[n]);
}

#[inline(always)]
#[tactic(auto, unfolding(spk_frames::specs::Numbers::two))]
fn put_two(out: &mut Vec<u8>, n: u16)
    requires { vec_len out.old + 2 ≤ vec_capacity out.old }
    ensures items { out.new.items ≡ out.old.items ++ two n }
    ensures len { vec_len out.new ≡ vec_len out.old + 2 }
    ensures room { vec_capacity out.old ≤ vec_capacity out.new }
{
    put(out, &n.to_le_bytes());
}

#[inline(always)]
#[tactic(auto, unfolding(spk_frames::specs::Numbers::four))]
fn put_four(out: &mut Vec<u8>, n: u32)
    requires { vec_len out.old + 4 ≤ vec_capacity out.old }
    ensures items { out.new.items ≡ out.old.items ++ four n }
    ensures len { vec_len out.new ≡ vec_len out.old + 4 }
    ensures room { vec_capacity out.old ≤ vec_capacity out.new }
    ensures word { n < 2 ^ 32 }
{
    put(out, &n.to_le_bytes());
}

#[inline(always)]
#[tactic(auto, unfolding(spk_frames::specs::Numbers::eight))]
fn put_eight(out: &mut Vec<u8>, n: u64)
    requires { vec_len out.old + 8 ≤ vec_capacity out.old }
    ensures items { out.new.items ≡ out.old.items ++ eight n }
    ensures len { vec_len out.new ≡ vec_len out.old + 8 }
    ensures room { vec_capacity out.old ≤ vec_capacity out.new }
    ensures word { n < 2 ^ 64 }
{
    put(out, &n.to_le_bytes());
}

/// A name behind its length.
#[tactic(auto, unfolding(spk_frames::specs::Numbers::counted))]
fn put_name(out: &mut Vec<u8>, name: &str)
    requires short { length name.now < 2 ^ 16 }
    requires room { vec_len out.old + (2 + length name.now) ≤ vec_capacity out.old }
    ensures items { out.new.items ≡ out.old.items ++ counted name.now }
    ensures len { vec_len out.new ≡ vec_len out.old + (2 + length name.now) }
    ensures room { vec_capacity out.old ≤ vec_capacity out.new }
{
    put_two(out, name.len() as u16);
    put(out, name.as_bytes());
}

/// A code, the moment and the node's number.
fn put_head(out: &mut Vec<u8>, code: u8, at: u64, node: u32)
    requires { vec_len out.old + 13 ≤ vec_capacity out.old }
    ensures items { out.new.items ≡ out.old.items ++ (code ∷ (eight at ++ four node)) }
    ensures len { vec_len out.new ≡ vec_len out.old + 13 }
    ensures room { vec_capacity out.old ≤ vec_capacity out.new }
    ensures words { (at < 2 ^ 64) × (node < 2 ^ 32) }
{
    put_one(out, code);
    put_eight(out, at);
    put_four(out, node);
}

/// The device's name, where there is one.
#[tactic(auto, using(spk_frames::proofs::Lengths::lengths))]
fn put_device(out: &mut Vec<u8>, kind: &Kind)
    requires short { HasDevice (kind_of kind.now) }
    requires room { vec_len out.old + length (device_part (kind_of kind.now)) ≤ vec_capacity out.old }
    ensures items { out.new.items ≡ out.old.items ++ device_part (kind_of kind.now) }
    ensures len { vec_len out.new ≡ vec_len out.old + length (device_part (kind_of kind.now)) }
    ensures room { vec_capacity out.old ≤ vec_capacity out.new }
{
    match kind {
        Kind::NodeData => {}
        Kind::DeviceBirth(device) | Kind::DeviceData(device) | Kind::DeviceDeath(device) => {
            put_name(out, device);
        }
    }
}

fn session_code(what: SessionEvent) -> u8
    ensures { result ≡ session_code what }
{
    match what {
        SessionEvent::Began => 1,
        SessionEvent::Ended => 2,
    }
}

fn hole_code(ended_by: Ending) -> u8
    ensures { result ≡ hole_code ended_by }
{
    match ended_by {
        Ending::Birth => 7,
        Ending::NewSession => 8,
        Ending::HostSession => 9,
    }
}

fn kind_code(kind: &Kind) -> u8
    ensures { result ≡ kind_code (kind_of kind.now) }
{
    match kind {
        Kind::NodeData => 10,
        Kind::DeviceBirth(_) => 11,
        Kind::DeviceData(_) => 12,
        Kind::DeviceDeath(_) => 13,
    }
}

/// What a hole says behind its code.
fn put_hole(out: &mut Vec<u8>, node: u32, from: u64, to: u64, missing: u64, unused: u64)
    requires { vec_len out.old + 36 ≤ vec_capacity out.old }
    ensures items { out.new.items ≡ out.old.items
        ++ (four node ++ (eight from ++ (eight to ++ (eight missing ++ eight unused)))) }
    ensures len { vec_len out.new ≡ vec_len out.old + 36 }
    ensures room { vec_capacity out.old ≤ vec_capacity out.new }
    ensures words { (node < 2 ^ 32) × (from < 2 ^ 64) × (to < 2 ^ 64) × (missing < 2 ^ 64)
        × (unused < 2 ^ 64) }
{
    put_four(out, node);
    put_eight(out, from);
    put_eight(out, to);
    put_eight(out, missing);
    put_eight(out, unused);
}

/// The content of an entry.
#[tactic(auto, using(spk_frames::proofs::Lengths::lengths), unfolding(crate::specs::Record::content, crate::specs::Record::HasWords, crate::specs::Record::HasTexts))]
fn put_content(out: &mut Vec<u8>, entry: &Entry)
    requires texts { HasTexts (said entry.now) }
    requires room { vec_len out.old + length (content (said entry.now)) ≤ vec_capacity out.old }
    ensures items { out.new.items ≡ out.old.items ++ content (said entry.now) }
    ensures len { vec_len out.new ≡ vec_len out.old + length (content (said entry.now)) }
    ensures room { vec_capacity out.old ≤ vec_capacity out.new }
    ensures words { HasWords (said entry.now) }
{
    match entry {
        Entry::Session { at, what } => {
            put_one(out, session_code(*what));
            put_eight(out, *at);
        }
        Entry::Node { node, group, name } => {
            put_one(out, 3);
            put_four(out, *node);
            put_name(out, group);
            put_name(out, name);
        }
        Entry::Birth {
            at,
            node,
            stamp,
            bd,
            payload,
        } => {
            put_head(out, 4, *at, *node);
            put_eight(out, *stamp);
            put_one(out, *bd);
            put(out, payload);
        }
        Entry::Death { at, node, bd } => {
            put_head(out, 5, *at, *node);
            put_one(out, *bd);
        }
        Entry::Gap {
            at,
            node,
            awaited,
            missing,
        } => {
            put_head(out, 6, *at, *node);
            put_eight(out, *awaited);
            put_eight(out, *missing);
        }
        Entry::Hole {
            node,
            from,
            to,
            missing,
            unused,
            ended_by,
        } => {
            put_one(out, hole_code(*ended_by));
            put_hole(out, *node, *from, *to, *missing, *unused);
        }
        Entry::Message {
            at,
            node,
            kind,
            seq,
            payload,
        } => {
            put_head(out, kind_code(kind), *at, *node);
            put_one(out, *seq);
            put_device(out, kind);
            put(out, payload);
        }
    }
}

/// Puts the record of an entry behind what stands in `out`, which grows once at most. Refused with LongName (123) where a name has more than 65,535
/// bytes, else with LongRecord (124) where the content would have more than 268,501,006; then, and where memory is refused, `out` is as it was.
#[tactic(auto, unfolding(spk_frames::specs::Frame::framed))]
pub fn append(entry: &Entry, out: &mut Vec<u8>) -> Result<(), HistoryFault>
    ensures put { OnOk result (out.new.items ≡ out.old.items ++ record_of (said entry.now)) }
    ensures fits { OnOk result (IsEntry (said entry.now)) }
    ensures refused { IfErr result (λ e. IsRefusedFor (said entry.now) e) }
    ensures err { OnErr result (out.new.items ≡ out.old.items) }
{
    let len = content_size(entry)?;
    out.reserve(len + 8)?;
    put_four(out, len as u32);
    let start = out.len();
    put_content(out, entry);
    let sum = crc32(&out[start..]);
    put_four(out, sum);
    Ok(())
}
