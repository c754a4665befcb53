//! What the record of a message says of it.

use spk_history::{Entry, Kind};
use spk_payload::Payload;

/// What a message is, and of which device; none of another record.
pub(crate) fn kind_of<'a>(entry: &Entry<'a>) -> Option<(&'static str, Option<&'a str>)> {
    match entry {
        Entry::Birth { .. } => Some(("NBIRTH", None)),
        Entry::Message { kind, .. } => Some(match kind {
            Kind::NodeData => ("NDATA", None),
            Kind::DeviceBirth(device) => ("DBIRTH", Some(*device)),
            Kind::DeviceData(device) => ("DDATA", Some(*device)),
            Kind::DeviceDeath(device) => ("DDEATH", Some(*device)),
        }),
        _ => None,
    }
}

/// What a message's `seq` is: of a birth its payload's.
pub(crate) fn seq_of(entry: &Entry, payload: Option<&Payload>) -> Option<u64> {
    match (entry, payload) {
        (Entry::Message { seq, .. }, _) => Some(u64::from(*seq)),
        (_, Some(payload)) => payload.seq,
        (_, None) => None,
    }
}
