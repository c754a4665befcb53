//! What was noted and isn't kept yet.
ghost use Rattle.std.specs.Prelude.{◌≡◌, length, IfErr, OnErr, OnOk};
ghost use Rattle.std.specs.Option.{option_map};
ghost use Rattle.spk_packets.specs.Fault.{IsNamed};
ghost use Rattle.spk_broker_events.specs.Record.{refusal, said};
ghost use Rattle.spk_broker_notes.specs.Noted.{bytes_of};
ghost use Rattle.spk_broker_notes.specs.Logs.{clock_of, cut_to, log_view, with_record, wound_to};

use spk_broker_events::{Event, append};
use spk_packets::PacketFault;
use std::alloc::Global;

/// What was noted.
#[derive(Debug, Drop)]
pub(crate) struct Log {
    /// The clock of a replay of all that was noted.
    pub(crate) clock: u64,
    /// The records of what isn't kept yet.
    pub(crate) bytes: Vec<u8>,
}

/// How many bytes are noted.
pub(crate) fn len(log: &Option<Log>) -> usize
    ensures { result ≡ length (bytes_of (option_map log_view log.now)) }
{
    match log {
        Some(log) => log.bytes.len(),
        None => 0,
    }
}

/// The clock of the replay; 0 where nothing is noted.
pub(crate) fn clock(log: &Option<Log>) -> u64
    ensures { result ≡ clock_of (option_map log_view log.now) }
{
    match log {
        Some(log) => log.clock,
        None => 0,
    }
}

/// Takes the clock of the replay back to this moment.
pub(crate) fn wind(log: &mut Option<Log>, moment: u64)
    ensures { option_map log_view log.new ≡ option_map (wound_to moment) (option_map log_view log.old) }
{
    match log {
        Some(log) => log.clock = moment,
        None => {}
    }
}

/// Takes back what was noted behind so many bytes.
pub(crate) fn cut(log: &mut Option<Log>, len: usize)
    ensures { option_map log_view log.new ≡ option_map (cut_to len) (option_map log_view log.old) }
{
    match log {
        Some(log) => log.bytes.truncate(len),
        None => {}
    }
}

/// Notes an event that isn't a packet, where events are noted.
pub(crate) fn add(alloc: Global, log: &mut Option<Log>, event: &Event) -> Result<(), PacketFault>
    ensures done { OnOk result (option_map log_view log.new ≡ option_map (with_record (said event.now)) (option_map log_view log.old)) }
    ensures refused { IfErr result (λ e. IsNamed e (refusal (said event.now))) }
    ensures err { OnErr result (option_map log_view log.new ≡ option_map log_view log.old) }
{
    match log {
        Some(log) => append(alloc, event, &mut log.bytes),
        None => Ok(()),
    }
}
