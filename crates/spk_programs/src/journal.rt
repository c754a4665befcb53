//! The file in which an edge node's values, its devices and its kept changes survive a crash (own rules).
//!
//! A line is `MOMENT TEXT`: a line of standard input as it came, and when. The line `said` says that nothing of what stands above it is kept any more: it
//! only sets values. A last line without an end is torn, and says nothing. Which lines wait, and what is to be written of them, is `spk_journal`'s.

use crate::disk::Disk;
use crate::fault::ProgramFault;
use crate::replay::{Again, Replay, replay_of, set};
use crate::texts::{json_text, owner_text, value_text};
use spk_device::{Alias, Owner, Registry};
use spk_edge_app::{ChangesRefused, EdgeApp, EdgeAppFault};
use spk_files::Said;
use spk_payload::Value;
use std::alloc::{AllocError, Global};
use std::collections::VecDeque;

/// How many bytes more than twice what it had when it was made anew it has before it is made anew (own rule).
const LARGE: usize = 4_194_304;

/// The most lines that wait to be said (own rule).
const MOST_LINES: usize = 65_536;

/// How long it isn't tried to be written after that failed, in milliseconds (own rule).
const REST: u64 = 1_000;

/// What a line says of which some may still be kept.
#[derive(Drop)]
struct Entry {
    said: Vec<Said>,
    /// How many changes of it were kept.
    kept: u64,
}

/// The file, and what stands in it.
#[derive(Drop)]
pub(crate) struct Journal<D: Disk> {
    alloc: Global,
    disk: D,
    /// The values and the devices before the lines that wait.
    base: Registry,
    /// The lines that wait, and what is to be written.
    lines: spk_journal::Journal,
    /// What these lines say, one for each.
    entries: VecDeque<Entry>,
    /// How many changes of these were kept.
    kept: u64,
    /// How many changes the node keeps at the most.
    capacity: u64,
    /// How many bytes the file has, and had when it was made anew.
    size: usize,
    least: usize,
    /// It isn't tried to be written before this moment.
    rested: u64,
}

/// Why a node refuses what stands in a line, where no item of it is to blame.
fn whole(told: Result<(), EdgeAppFault>) -> Result<(), ChangesRefused> {
    match told {
        Ok(()) => Ok(()),
        Err(fault) => Err(ChangesRefused { fault, place: None }),
    }
}

/// Tells a node values of one owner. Where they are refused none is set, and the first one that is refused is told.
fn tell_values(
    app: &mut EdgeApp,
    values: &[(Alias, Option<Value>)],
    now: u64,
) -> Result<(), ChangesRefused> {
    if values.len() > 1 {
        return app.changes(now, values);
    }
    match values.first() {
        Some(value) => whole(app.change(now, value.0, &value.1)),
        None => Ok(()),
    }
}

/// Tells a node what stands in a line. Where it is refused, it comes back with the place of the item that is.
pub(crate) fn tell(app: &mut EdgeApp, said: &Said, now: u64) -> Result<(), ChangesRefused> {
    match said {
        Said::Values(values) => tell_values(app, values.as_slice(), now),
        Said::Device { name, up } => whole(app.device(now, name.as_str(), *up)),
    }
}

/// How many changes a node kept so far, but for those that it sent.
pub(crate) fn kept_in(app: &EdgeApp) -> u64 {
    (app.node().kept() as u64).saturating_add(app.node().lost())
}

impl<D: Disk> Journal<D> {
    /// The file on this disk, and what it says; what only sets values is set in this registry, and in the other one, which is the journal's own.
    pub(crate) fn open(
        alloc: Global,
        mut disk: D,
        names: &Registry,
        registry: &mut Registry,
        mut base: Registry,
        capacity: usize,
    ) -> Result<(Journal<D>, Replay), ProgramFault> {
        let mut bytes = Vec::new(alloc);
        if !disk.read(&mut bytes) {
            return Err(ProgramFault::NoRecord);
        }
        let replay = replay_of(alloc, bytes.as_slice(), names, registry, &mut base)?;
        let journal = Journal {
            alloc,
            disk,
            base,
            lines: spk_journal::Journal::new(alloc),
            entries: VecDeque::new(alloc),
            kept: 0,
            capacity: capacity as u64,
            size: 0,
            least: 0,
            rested: 0,
        };
        Ok((journal, replay))
    }

    /// Where it is.
    pub(crate) fn disk(&self) -> &D {
        &self.disk
    }

    /// Tells a node that isn't connected once more what may still be kept of it.
    pub(crate) fn tell_again(
        &mut self,
        app: &mut EdgeApp,
        replay: Replay,
    ) -> Result<(), AllocError> {
        for again in replay.lines {
            let Again { moment, text, said } = again;
            let before = kept_in(app);
            for one in &said {
                let _ = tell(app, one, moment);
            }
            let kept = kept_in(app).saturating_sub(before);
            if !self.note(moment, text.as_str(), said, kept) {
                return Err(AllocError);
            }
        }
        Ok(())
    }

    /// What the first line that waits says is set.
    fn settle_first(&mut self) {
        let Some(entry) = self.entries.pop_front() else {
            return;
        };
        self.kept = self.kept.saturating_sub(entry.kept);
        for said in entry.said {
            set(&mut self.base, said);
        }
    }

    /// Lines whose changes the node has overwritten only set values.
    fn trim(&mut self) {
        for _ in 0..self.entries.len() {
            let first = self.entries.front().map_or(0, |entry| entry.kept);
            let are_kept = self.kept.saturating_sub(first) < self.capacity;
            if are_kept && self.entries.len() <= MOST_LINES {
                break;
            }
            self.settle_first();
            let _ = self.lines.pass();
        }
    }

    /// A line was taken, so many of whose changes were kept. Whether it is noted: there may be no memory for it.
    pub(crate) fn note(&mut self, now: u64, text: &str, said: Vec<Said>, kept: u64) -> bool {
        let Ok(line) = format!(in self.alloc; "{now} {text}") else {
            return false;
        };
        if self.entries.reserve(1).is_err() || self.lines.note(line).is_err() {
            return false;
        }
        let _ = self.entries.push_back(Entry { said, kept });
        self.kept = self.kept.saturating_add(kept);
        self.trim();
        true
    }

    /// All that was told is said, and was handed on.
    pub(crate) fn say(&mut self) {
        for _ in 0..self.entries.len() {
            self.settle_first();
        }
        self.lines.say();
    }

    /// The lines that say the values and devices before those that wait.
    fn values(&self) -> Result<Vec<u8>, AllocError> {
        let alloc = self.alloc;
        let mut bytes = Vec::new(alloc);
        write_values(alloc, &self.base, Owner::Node, &mut bytes)?;
        for number in 0..self.base.device_count() {
            write_values(alloc, &self.base, Owner::Device(number), &mut bytes)?;
            if self.base.is_up(number) == Some(true) {
                let owner = owner_text(alloc, &self.base, Owner::Device(number))?;
                let line = format!(in alloc; "0 {{\"device\":{owner},\"up\":true}}\n")?;
                bytes.extend_from_slice(line.as_bytes())?;
            }
        }
        Ok(bytes)
    }

    /// What the file says where it is made anew.
    fn whole(&self) -> Result<Vec<u8>, AllocError> {
        let values = self.values()?;
        self.lines.made_anew(values.as_slice())
    }

    /// Makes the file anew.
    fn renew(&mut self) -> bool {
        let Ok(bytes) = self.whole() else {
            return false;
        };
        if !self.disk.keep(bytes.as_slice()) {
            return false;
        }
        self.lines.renewed();
        self.size = bytes.len();
        self.least = bytes.len();
        true
    }

    /// Writes behind what is there.
    fn append(&mut self) -> bool {
        let bytes = self.lines.unwritten();
        let count = bytes.len();
        if !self.disk.append(bytes) {
            return false;
        }
        self.lines.appended();
        self.size = self.size.saturating_add(count);
        true
    }

    /// Whether it has grown so much that it is to be made anew.
    fn is_large(&self) -> bool {
        self.size > self.least.saturating_mul(2).saturating_add(LARGE)
    }

    /// Writes what isn't on the disk yet, unless that failed of late. Whether nothing fails.
    pub(crate) fn keep(&mut self, now: u64) -> bool {
        let is_broken = self.lines.is_broken();
        if self.lines.unwritten().is_empty() && !is_broken || now < self.rested {
            return true;
        }
        let is_kept = if is_broken || self.is_large() {
            self.renew()
        } else {
            self.append()
        };
        if !is_kept {
            self.lines.failed();
            self.rested = now.saturating_add(REST);
        }
        is_kept
    }

    /// When it is tried again, where it failed.
    pub(crate) fn due(&self) -> Option<u64> {
        if self.lines.is_broken() {
            Some(self.rested)
        } else {
            None
        }
    }
}

/// Writes a line for each value of an owner.
fn write_values(
    alloc: Global,
    base: &Registry,
    owner: Owner,
    bytes: &mut Vec<u8>,
) -> Result<(), AllocError> {
    let whose = owner_text(alloc, base, owner)?;
    for place in 0..base.owned_count(owner) {
        let Some((_, gauge)) = base.owned_at(owner, place) else {
            break;
        };
        let name = json_text(alloc, gauge.name.as_str())?;
        let value = match &gauge.value {
            Some(value) => value_text(alloc, value)?,
            None => String::from_str(alloc, "null")?,
        };
        let line = format!(in alloc;
            "0 {{\"device\":{whose},\"metric\":{name},\"value\":{value}}}\n"
        )?;
        bytes.extend_from_slice(line.as_bytes())?;
    }
    Ok(())
}
