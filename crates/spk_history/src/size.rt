//! How many bytes a content has, and whether it may have them.
ghost use Rattle.std.specs.Prelude.{◌≡◌, ◌<◌, ◌≤◌, ◌^◌, ◌+◌, length, IfOk, IfErr, OnOk, true, false};
ghost use Rattle.spk_history.specs.Entry.{kind_of, said};
ghost use Rattle.spk_history.specs.Fault.{IsRefusedFor, has_long_device};
ghost use Rattle.spk_history.specs.Record.{HasDevice, HasTexts, IsText, content, device_part, most};

use crate::entry::{Entry, Kind};
use crate::fault::HistoryFault;

/// The most bytes of a content: a DDATA with a device's name of 65,535 bytes and a payload of 268,435,455.
pub(crate) const MOST_CONTENT: usize = 268_501_006;

/// The most bytes of a record: of its content, the length and the sum.
pub const MOST_RECORD: usize = 268_501_014;

/// How many bytes a name takes, with its length in front.
fn name_size(name: &str) -> Result<usize, HistoryFault>
    ensures size { IfOk result (λ n. (n ≡ 2 + length name.now) × (n < 65538)) }
    ensures fits { OnOk result (IsText name.now) }
    ensures long { IfErr result (λ e. (e ≡ HistoryFault.LongName) × (65535 < length name.now)) }
{
    let len = name.len();
    if len > 65_535 {
        return Err(HistoryFault::LongName);
    }
    Ok(2 + len)
}

/// How many bytes the device's name takes, where there is one.
#[tactic(auto, using(spk_frames::proofs::Lengths::lengths))]
fn device_size(kind: &Kind) -> Result<usize, HistoryFault>
    ensures size { IfOk result (λ n. (n ≡ length (device_part (kind_of kind.now))) × (n < 65538)) }
    ensures fits { OnOk result (HasDevice (kind_of kind.now)) }
    ensures short { OnOk result (has_long_device (kind_of kind.now) ≡ false) }
    ensures long { IfErr result
        (λ e. (e ≡ HistoryFault.LongName) × (has_long_device (kind_of kind.now) ≡ true)) }
{
    match kind {
        Kind::NodeData => Ok(0),
        Kind::DeviceBirth(device) | Kind::DeviceData(device) | Kind::DeviceDeath(device) => {
            name_size(device)
        }
    }
}

/// How many bytes a content with this front and this payload has.
fn whole_size(front: usize, payload: &[u8]) -> Result<usize, HistoryFault>
    requires { front < 70000 }
    ensures size { IfOk result (λ n. (n ≡ front + length payload.now) × (n ≤ most)) }
    ensures long { IfErr result
        (λ e. (e ≡ HistoryFault.LongRecord) × (most < front + length payload.now)) }
{
    let len = payload.len();
    if len > MOST_CONTENT || front + len > MOST_CONTENT {
        return Err(HistoryFault::LongRecord);
    }
    Ok(front + len)
}

/// How many bytes the content of an entry has. Refused as `append` says.
#[tactic(auto, using(spk_frames::proofs::Lengths::lengths), unfolding(crate::specs::Record::content, crate::specs::Record::HasTexts, crate::specs::Fault::has_long_name))]
pub(crate) fn content_size(entry: &Entry) -> Result<usize, HistoryFault>
    ensures size { IfOk result (λ n. (n ≡ length (content (said entry.now))) × (n ≤ most)) }
    ensures texts { OnOk result (HasTexts (said entry.now)) }
    ensures refused { IfErr result (λ e. IsRefusedFor (said entry.now) e) }
    ensures memory { IfErr result (λ e. e ≡ HistoryFault.NoMemory → ⊥) }
{
    match entry {
        Entry::Session { .. } => Ok(9),
        Entry::Node { group, name, .. } => Ok(5 + name_size(group)? + name_size(name)?),
        Entry::Birth { payload, .. } => whole_size(22, payload),
        Entry::Death { .. } => Ok(14),
        Entry::Gap { .. } => Ok(29),
        Entry::Hole { .. } => Ok(37),
        Entry::Message { kind, payload, .. } => whole_size(14 + device_size(kind)?, payload),
    }
}
