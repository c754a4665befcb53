//! What a broker keeps, on the machine's disk.

use crate::records::folder_of;
use spk_broker_store::{Disk, Kept, StoreFault, open};
use spk_commands::StorePlan;
use std::fs::{self, File, TryLockError};
use std::io::{self, ErrorKind, Read, Write};
use thiserror::Error;

/// The journal of a broker in its folder, and the lock that keeps other processes from it.
#[derive(Drop)]
pub(crate) struct MachineStore<'a> {
    rt: &'a HostRuntime,
    name: String,
    next: String,
    lock: File,
    /// The file, once something was written behind it since it was last replaced.
    tail: Option<File>,
}

/// Makes a folder where it isn't there, and its name is on the disk then.
fn make_folder(rt: &HostRuntime, folder: &str) -> io::Result<()> {
    match fs::create_dir(rt, folder) {
        Ok(()) => File::open(rt, folder_of(folder.trim_end_matches('/')))?.sync_all(),
        Err(error) if error.kind() == ErrorKind::AlreadyExists => Ok(()),
        Err(error) => Err(error),
    }
}

/// The file of this name, if it is there.
fn file_of(rt: &HostRuntime, name: &str) -> io::Result<Option<File>> {
    match File::open(rt, name) {
        Ok(file) => Ok(Some(file)),
        Err(error) if error.kind() == ErrorKind::NotFound => Ok(None),
        Err(error) => Err(error),
    }
}

impl<'a> MachineStore<'a> {
    /// The journal of this name, which no other process has. None where one has it.
    fn at(rt: &'a HostRuntime, name: &str) -> io::Result<Option<MachineStore<'a>>> {
        let alloc = rt.alloc();
        let lock = format!(in alloc; "{name}.lock")?;
        let lock = File::create(rt, lock.as_str())?;
        match lock.try_lock() {
            Ok(()) => {}
            Err(TryLockError::WouldBlock) => return Ok(None),
            Err(TryLockError::Error(error)) => return Err(error),
        }
        let _ = file_of(rt, name)?;
        Ok(Some(MachineStore {
            rt,
            name: String::from_str(alloc, name)?,
            next: format!(in alloc; "{name}.next")?,
            lock,
            tail: None,
        }))
    }

    /// All bytes of the journal, behind those that are there.
    fn read_all(&mut self, bytes: &mut Vec<u8>) -> io::Result<()> {
        if let Some(mut file) = file_of(self.rt, self.name.as_str())? {
            file.read_to_end(bytes)?;
        }
        Ok(())
    }

    /// Writes the new journal beside the old one, and puts it in its place once it is on the disk.
    fn put_in_place(&mut self, bytes: &[u8]) -> io::Result<()> {
        self.tail = None;
        let mut file = File::create(self.rt, self.next.as_str())?;
        file.write_all(bytes)?;
        file.sync_all()?;
        fs::rename(self.rt, self.next.as_str(), self.name.as_str())?;
        File::open(self.rt, folder_of(self.name.as_str()))?.sync_all()
    }

    /// Writes behind what is there.
    fn write_behind(&mut self, bytes: &[u8]) -> io::Result<()> {
        if let Some(file) = &mut self.tail {
            return file.write_all(bytes);
        }
        let mut options = File::options();
        options.append(true);
        let mut file = options.open(self.rt, self.name.as_str())?;
        file.write_all(bytes)?;
        self.tail = Some(file);
        Ok(())
    }
}

impl Disk for MachineStore<'_> {
    fn read(&mut self, bytes: &mut Vec<u8>) -> bool {
        self.read_all(bytes).is_ok()
    }

    fn replace(&mut self, bytes: &[u8]) -> bool {
        self.put_in_place(bytes).is_ok()
    }

    fn append(&mut self, bytes: &[u8]) -> bool {
        self.write_behind(bytes).is_ok()
    }

    fn sync(&mut self) -> bool {
        match &self.tail {
            Some(file) => file.sync_data().is_ok(),
            None => true,
        }
    }
}

/// Why there is no store.
#[derive(Clone, Copy, Debug, PartialEq, Eq, Error)]
enum Refusal {
    /// Another process has it.
    #[error("BusyRecord")]
    Busy,
    /// Its folder or a file in it can't be made, or not be read.
    #[error("NoRecord")]
    Missing,
    #[error(transparent)]
    Store(StoreFault),
}

impl Refusal {
    /// The fault's number.
    fn number(self) -> u32 {
        match self {
            Refusal::Busy => 130,
            Refusal::Missing => 131,
            Refusal::Store(fault) => fault.number(),
        }
    }

    /// What is wrong with the journal.
    fn what(self) -> &'static str {
        match self {
            Refusal::Busy => "another process has it",
            Refusal::Missing => "it can't be made, or not be read",
            Refusal::Store(StoreFault::NoMemory) => "there is no memory for it",
            Refusal::Store(StoreFault::Unfit) => "no broker kept this",
            Refusal::Store(StoreFault::Unkept) => {
                "it can't be read to its end, or not be begun anew"
            }
        }
    }
}

/// The store of a plan: its journal is read, and begins anew.
fn opened<'a>(
    rt: &'a HostRuntime,
    plan: &StorePlan,
    name: &str,
) -> Result<Kept<MachineStore<'a>>, Refusal> {
    if make_folder(rt, plan.folder.as_str()).is_err() {
        return Err(Refusal::Missing);
    }
    match MachineStore::at(rt, name) {
        Ok(Some(disk)) => match open(rt.alloc(), disk, plan.each) {
            Ok(kept) => Ok(kept),
            Err(fault) => Err(Refusal::Store(fault)),
        },
        Ok(None) => Err(Refusal::Busy),
        Err(_) => Err(Refusal::Missing),
    }
}

/// The store that is asked for, if one is; how many bytes of a torn end were cut is told. Where it can't be had that is told and printed, and the status
/// is answered.
pub(crate) fn store_of<'a, W: Write, N: Write>(
    rt: &'a HostRuntime,
    plan: &Option<StorePlan>,
    out: &mut W,
    notes: &mut N,
) -> Result<Option<Kept<MachineStore<'a>>>, u8> {
    let Some(plan) = plan else {
        return Ok(None);
    };
    let Ok(name) = format!(in rt.alloc(); "{}/broker.journal", plan.folder) else {
        let _ = writeln!(out, "fault NoMemory (1)");
        return Err(1);
    };
    match opened(rt, plan, name.as_str()) {
        Ok(kept) => {
            let cut = kept.cut;
            if cut > 0 {
                let _ = writeln!(
                    notes,
                    "sparkplug: {name}: {cut} bytes of a torn end were cut"
                );
            }
            Ok(Some(kept))
        }
        Err(refusal) => {
            let what = refusal.what();
            let number = refusal.number();
            let _ = writeln!(notes, "sparkplug: {name}: {what}");
            let _ = writeln!(out, "fault {refusal} ({number})");
            let _ = out.flush();
            Err(1)
        }
    }
}
