//! A record.
ghost use Rattle.std.specs.Prelude.{◌≡◌, ◌^◌, ◌<◌, ◌≤◌, ◌⊎◌, ◌↔◌, true, Some, None, string_bytes, IfOk, IfErr};
ghost use Rattle.serde_json.specs.View.{view};

use crate::fault::RecordFault;
use serde_json::{Value, json};
use std::alloc::{AllocError, Global};
use std::str;

/// The first moment that isn't one: 2^63 (own rule).
const END: u64 = 1 << 63;

/// How far ahead stamps are reserved, in milliseconds (own rule).
const AHEAD: u64 = 5_000;

/// What an edge node's program keeps on disk.
#[derive(Clone, Copy, Debug, PartialEq, Eq)]
pub struct Record {
    /// The bdSeq of the session that comes next.
    pub bd: u8,
    /// A moment that no stamp passed, in milliseconds since 1970 (UTC).
    pub stamp: u64,
}

impl Record {
    ghost use Rattle.spk_record.specs.declared.record.Record.{Record};
    ghost use Rattle.spk_record.specs.Covers.{Covers, reserved};
    ghost use Rattle.spk_record.specs.Text.{MeansRecord, Gives, record_at, record_data, record_of, record_text};

    /// The record that is to be kept before a session of this bdSeq opens, or before this stamp is used: the bdSeq behind the session's, and the stamp
    /// five seconds ahead, so that a record is written once in five seconds of publishing (own rule).
    pub fn reserved(session: u8, stamp: u64) -> Record
        ensures { result ≡ reserved session stamp }
    {
        Record {
            bd: session.wrapping_add(1),
            stamp: stamp.saturating_add(AHEAD).min(END - 1),
        }
    }

    /// Whether a session of this bdSeq may be open, and this stamp used, while this is the record on disk.
    pub fn covers(&self, session: u8, stamp: u64) -> bool
        ensures { (result ≡ true) ↔ Covers self.now session stamp }
    {
        self.bd == session.wrapping_add(1) && stamp <= self.stamp
    }

    /// Reads a record's text: a JSON object with a whole `bd` below 256 and a whole `stamp` below 2^63. Other members are ignored. Refused with BadRecord
    /// (110) where it isn't one.
    pub fn decode(alloc: Global, bytes: &[u8]) -> Result<Record, RecordFault>
        ensures found { IfOk result (MeansRecord bytes.now) }
        // What the bytes mean is answered, unless memory was refused.
        ensures only { (r : Record) → MeansRecord bytes.now r → Gives result r }
        // Bytes that mean nothing are BadRecord, unless memory was refused, and no others are.
        ensures bad { IfErr result (λ e. (e ≡ RecordFault.NoMemory)
            ⊎ ((e ≡ RecordFault.BadRecord) × ((r : Record) → MeansRecord bytes.now r → ⊥))) }
    {
        Record::read(alloc, bytes)
    }

    /// Writes a record's text, as `{"bd":7,"stamp":5}`. Refused with BadRecord (110) where the stamp is 2^63 or more: no text means such a record.
    pub fn encode(&self, alloc: Global) -> Result<String, RecordFault>
        ensures text { IfOk result (λ t. string_bytes t ≡ record_text self.now) }
        ensures read_back { IfOk result (λ t. MeansRecord (string_bytes t) self.now) }
        // A stamp past the last moment is BadRecord, whatever memory there is, and no other record is refused but for memory.
        ensures refused { IfErr result (λ e. ((e ≡ RecordFault.BadRecord) × (2 ^ 63 ≤ self.now.stamp))
            ⊎ ((e ≡ RecordFault.NoMemory) × (self.now.stamp < 2 ^ 63))) }
    {
        if self.stamp >= END {
            return Err(RecordFault::BadRecord);
        }
        Ok(self.value(alloc)?.to_string(alloc)?)
    }

    /// The JSON value that says it.
    fn value(&self, alloc: Global) -> Result<Value, AllocError>
        ensures says { IfOk result (λ v. view v ≡ record_data self.now) }
        ensures byte { self.now.bd < 256 }
    {
        json!(in alloc; {"bd": self.bd, "stamp": self.stamp})
    }

    fn read(alloc: Global, bytes: &[u8]) -> Result<Record, RecordFault>
        ensures ok { IfOk result (λ r. record_at bytes.now ≡ Some r) }
        ensures bad { IfErr result
            (λ e. (e ≡ RecordFault.NoMemory)
            ⊎ ((e ≡ RecordFault.BadRecord) × (record_at bytes.now ≡ None))) }
    {
        let text = match str::from_utf8(bytes) {
            Ok(text) => text,
            Err(_) => return Err(RecordFault::BadRecord),
        };
        match Value::from_str(alloc, text) {
            Ok(value) => Record::of(&value).ok_or(RecordFault::BadRecord),
            Err(error) if error.is_memory() => Err(RecordFault::NoMemory),
            Err(_) => Err(RecordFault::BadRecord),
        }
    }

    /// What a JSON value says.
    fn of(value: &Value) -> Option<Record>
        ensures { result ≡ record_of (view value.now) }
    {
        let bd = value.get("bd")?.as_u64()?;
        let stamp = value.get("stamp")?.as_u64()?;
        if bd < 256 && stamp < END {
            Some(Record {
                bd: bd as u8,
                stamp,
            })
        } else {
            None
        }
    }
}
