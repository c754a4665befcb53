//! Records of edge nodes, and what they keep, on the machine's disk.

use spk_programs::{Disk, Disks, Opened};
use std::alloc::Global;
use std::fs::{self, File, TryLockError};
use std::io::{self, ErrorKind, Read, Write};

/// The longest file that is read (own rule): what is kept is made anew before it has so many bytes, and a record has some dozens.
const MOST: u64 = 1_073_741_824;

/// A file that is replaced whole or written behind, and the lock that keeps other processes from it.
#[derive(Drop)]
pub(crate) struct MachineDisk<'a> {
    rt: &'a HostRuntime,
    name: String,
    next: String,
    lock: File,
    /// The file, once something was written behind it since it was last replaced.
    tail: Option<File>,
}

/// The machine's files.
#[derive(Drop)]
pub(crate) struct MachineDisks<'a> {
    pub(crate) rt: &'a HostRuntime,
}

/// The folder in which a file stands.
pub(crate) fn folder_of(name: &str) -> &str {
    match name.rfind('/') {
        Some(0) => "/",
        Some(at) => name.get(..at).unwrap_or("."),
        None => ".",
    }
}

impl MachineDisk<'_> {
    /// Writes the new file beside the old one, and puts it in its place once it is on the disk.
    fn replace(&mut self, bytes: &[u8]) -> io::Result<()> {
        self.tail = None;
        let mut file = File::create(self.rt, self.next.as_str())?;
        file.write_all(bytes)?;
        file.sync_all()?;
        fs::rename(self.rt, self.next.as_str(), self.name.as_str())?;
        let folder = File::open(self.rt, folder_of(self.name.as_str()))?;
        folder.sync_all()
    }

    /// Writes behind what is there.
    fn write_behind(&mut self, bytes: &[u8]) -> io::Result<()> {
        if let Some(file) = &mut self.tail {
            return file.write_all(bytes);
        }
        let mut options = File::options();
        options.append(true).create(true);
        let mut file = options.open(self.rt, self.name.as_str())?;
        file.write_all(bytes)?;
        self.tail = Some(file);
        Ok(())
    }
}

impl Disk for MachineDisk<'_> {
    fn read(&mut self, bytes: &mut Vec<u8>) -> bool {
        match File::open(self.rt, self.name.as_str()) {
            Ok(file) => file.take(MOST).read_to_end(bytes).is_ok(),
            Err(error) => error.kind() == ErrorKind::NotFound,
        }
    }

    fn keep(&mut self, bytes: &[u8]) -> bool {
        self.replace(bytes).is_ok()
    }

    fn append(&mut self, bytes: &[u8]) -> bool {
        self.write_behind(bytes).is_ok()
    }
}

impl<'a> Disks for MachineDisks<'a> {
    type Disk = MachineDisk<'a>;

    fn open(&mut self, name: &str) -> Opened<MachineDisk<'a>> {
        let alloc = self.rt.alloc();
        let (Ok(lock), Ok(next)) = (
            format!(in alloc; "{name}.lock"),
            format!(in alloc; "{name}.next"),
        ) else {
            return Opened::Failed;
        };
        let Ok(name) = String::from_str(alloc, name) else {
            return Opened::Failed;
        };
        let Ok(lock) = File::create(self.rt, lock.as_str()) else {
            return Opened::Failed;
        };
        match lock.try_lock() {
            Ok(()) => Opened::Open(MachineDisk {
                rt: self.rt,
                name,
                next,
                lock,
                tail: None,
            }),
            Err(TryLockError::WouldBlock) => Opened::Busy,
            Err(_) => Opened::Failed,
        }
    }
}
