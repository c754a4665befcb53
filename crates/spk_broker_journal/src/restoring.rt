//! The broker that a journal's bytes say.
ghost use Rattle.std.specs.Prelude.{◌≡◌, min, IfErr, IfOk};
ghost use Rattle.spk_broker_snapshot.specs.Together.{ended};
ghost use Rattle.spk_broker_journal.specs.Assembled.{stand};
ghost use Rattle.spk_broker_journal.specs.Fitting.{IsSaidFit, IsSaidUnfit};
ghost use Rattle.spk_broker_journal.specs.Replayed.{IsReplayed, IsUnread};

use crate::assembly::{Assembly, apart};
use crate::event::behind;
use spk_broker::{Broker, PartFault};
use spk_broker_events::{MOST, laws, read, read_line};
use spk_frames::Contents;
use std::alloc::Global;

/// A broker that a journal said.
#[derive(Debug, Drop)]
pub struct Replayed {
    pub broker: Broker,
    /// How many of the bytes were read: the records in front, as many as there are. Behind them is the bytes' end, or what was torn or spoiled.
    pub whole: usize,
}

/// What is put together so far, behind one more content.
fn with_content(
    assembly: Assembly,
    alloc: Global,
    limit: u16,
    content: &[u8],
) -> Result<Assembly, PartFault>
    ensures done { IfOk result (λ a. IsSaidFit limit (stand assembly) content.now (stand a)) }
    ensures refused { IfErr result (IsSaidUnfit (stand assembly) content.now) }
{
    laws::one_event();
    laws::one_line();
    if let Some(line) = read_line(alloc, content)? {
        return match assembly.line(alloc, limit, line) {
            Ok(assembly) => Ok(assembly),
            Err(fault) => Err(fault),
        };
    }
    let Some(event) = read(alloc, content)? else {
        return Err(PartFault::Unfit);
    };
    let broker = behind(assembly.ended()?, &event)?;
    Ok(apart(broker))
}

/// The lesser one of two.
fn least(given: usize, all: usize) -> usize
    ensures { result ≡ min given all }
{
    given.min(all)
}

/// The broker that these bytes say, record by record: lines of what a broker keeps, and events behind them, of which nothing is sent (own rule).
/// `limit` is that of `Broker::new`. Refused with Unfit (139) exactly where a content says neither a line nor an event, or one that a broker can't
/// take behind those before it. Linear in the bytes, but for what the broker does at each event.
pub fn replay(alloc: Global, limit: u16, bytes: &[u8]) -> Result<Replayed, PartFault>
    ensures said { IfOk result (λ r. IsReplayed limit bytes.now r.whole r.broker) }
    ensures refused { IfErr result (IsUnread limit bytes.now) }
{
    spk_frames::laws::synced();
    spk_frames::laws::one_reading();
    laws::one_event();
    laws::one_line();
    let mut assembly = apart(Broker::new(alloc, limit));
    let mut contents = Contents::new(bytes, MOST);
    for _ in 0..usize::MAX {
        let Some(content) = contents.next() else {
            let given = contents.whole();
            let all = bytes.len();
            let whole = least(given, all);
            return match assembly.ended() {
                Ok(broker) => Ok(Replayed { broker, whole }),
                Err(fault) => Err(fault),
            };
        };
        assembly = match with_content(assembly, alloc, limit, content) {
            Ok(assembly) => assembly,
            Err(fault) => return Err(fault),
        };
    }
    Err(PartFault::NoMemory)
}
