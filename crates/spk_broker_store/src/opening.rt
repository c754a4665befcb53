//! What was kept, and the journal that begins anew with it.
ghost use Rattle.std.specs.Prelude.{◌≡◌, ℕ, List, IfErr, IfOk, IfSome};
ghost use Rattle.spk_broker_journal.specs.Replayed.{IsReplayed};
ghost use Rattle.spk_broker_store.specs.Kept.{HasZeros, IsKept, IsNotKept, IsNotOpened, IsNotRead, IsOpened, IsSeen, are_zeros, limit};

use crate::disk::Disk;
use crate::fault::StoreFault;
use crate::store::Store;
use spk_broker::{Broker, PartFault};
use spk_broker_events::MOST;
use spk_broker_journal::{Replayed, ended, replay};
use spk_broker_notes::NotedBroker;
use spk_frames::Contents;
use std::alloc::Global;

/// The limit of drops of a broker that is put together: that of the server's (own rule).
const DROPS: u16 = 128;

/// A broker that was kept, all of whose connections have ended.
#[derive(Debug, Drop)]
pub struct Restart {
    pub broker: Broker,
    /// How many bytes of a torn or spoiled end weren't read.
    pub cut: usize,
}

/// A store, the broker that it kept, and how many bytes of a torn or spoiled end were cut.
#[derive(Debug, Drop)]
pub struct Kept<D: Disk> {
    pub store: Store<D>,
    pub broker: NotedBroker,
    pub cut: usize,
}

/// Whether these bytes are zeros.
fn are_zeros(bytes: &[u8]) -> bool
    ensures { result ≡ are_zeros bytes.now }
{
    bytes.iter().all(|byte| *byte == 0)
}

/// The first so many bytes, where zeros alone stand behind them.
fn before_zeros(bytes: &[u8], at: usize) -> Option<&[u8]>
    ensures { IfSome result (λ seen. HasZeros seen.now bytes.now) }
{
    let (seen, behind) = bytes.split_at_checked(at)?;
    if are_zeros(behind) {
        return Some(seen);
    }
    None
}

/// The bytes in front of the zeros at their end, which begin where an empty content stands in its frame, as no record does. None where there are none.
fn without_zeros(bytes: &[u8]) -> Option<&[u8]>
    ensures { IfSome result (λ seen. HasZeros seen.now bytes.now) }
{
    let mut contents = Contents::new(bytes, MOST);
    for _ in 0..usize::MAX {
        let whole = contents.whole();
        if contents.next()?.is_empty() {
            return before_zeros(bytes, whole);
        }
    }
    None
}

/// The broker that bytes say, as they stand or without the zeros at their end.
fn read(alloc: Global, bytes: &[u8]) -> Result<Replayed, StoreFault>
    ensures kept { IfOk result (λ r. (seen : List ℕ) × IsSeen seen bytes.now × IsReplayed limit seen r.whole r.broker) }
    ensures refused { IfErr result (IsNotKept bytes.now) }
{
    match replay(alloc, DROPS, bytes) {
        Ok(replayed) => return Ok(replayed),
        Err(PartFault::NoMemory) => return Err(StoreFault::NoMemory),
        Err(PartFault::Unfit) => {}
    }
    let Some(seen) = without_zeros(bytes) else {
        return Err(StoreFault::Unfit);
    };
    match replay(alloc, DROPS, seen) {
        Ok(replayed) => Ok(replayed),
        Err(fault) => Err(fault.into()),
    }
}

/// The broker that a journal's bytes say, behind the ends of all its connections, of which nothing is sent: no bytes say a broker without anything. Zeros at their end
/// are cut where the bytes are no broker's with them. Refused with Unfit (139) where no reading of them is a broker's.
pub fn broker_of(alloc: Global, bytes: &[u8]) -> Result<Restart, StoreFault>
    ensures kept { IfOk result (λ r. IsKept bytes.now r.broker r.cut) }
    ensures refused { IfErr result (IsNotKept bytes.now) }
{
    let Replayed { broker, whole } = read(alloc, bytes)?;
    let Ok(broker) = ended(alloc, broker) else {
        return Err(StoreFault::NoMemory);
    };
    let cut = bytes.len().saturating_sub(whole);
    Ok(Restart { broker, cut })
}

/// The bytes that were kept, and what they say.
fn kept_on<D: Disk>(alloc: Global, disk: &mut D) -> Result<Restart, StoreFault>
    ensures kept { IfOk result (λ r. (bytes : List ℕ) × IsKept bytes r.broker r.cut) }
    ensures refused { IfErr result IsNotRead }
{
    let mut bytes = Vec::new(alloc);
    if !disk.read(&mut bytes) {
        return Err(StoreFault::Unkept);
    }
    broker_of(alloc, bytes.as_slice())
}

/// Reads what was kept, ends all its connections, with their wills, and begins the journal anew with what is kept then; from now on the broker notes its events.
/// `each`: each put is synced at once. Refused with Unfit (139) where what was kept isn't a broker's, and with Unkept (141) where the disk fails.
pub fn open<D: Disk>(alloc: Global, disk: D, each: bool) -> Result<Kept<D>, StoreFault>
    ensures opened { IfOk result (λ k. IsOpened each k.store k.broker k.cut) }
    ensures refused { IfErr result IsNotOpened }
{
    let mut disk = disk;
    let Restart { broker, cut } = kept_on(alloc, &mut disk)?;
    let mut broker = NotedBroker::of(alloc, broker);
    broker.begin();
    let mut store = Store {
        disk,
        begun: 0,
        len: 0,
        since: None,
        each,
        broken: false,
    };
    match store.begin(alloc, broker.broker()) {
        Ok(()) => Ok(Kept { store, broker, cut }),
        Err(fault) => Err(fault),
    }
}
