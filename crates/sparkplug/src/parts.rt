//! Parts of a host's history, on the machine's disk.

use crate::records::{MachineDisks, folder_of};
use spk_programs::{PartDisk, PartDisks};
use std::fs::File;
use std::io::{self, Write};
use std::time::{SystemTime, UNIX_EPOCH};

/// How many names are tried for a part (own rule): where the clock stands, each is later than the one before by a millisecond.
const TRIES: u64 = 1_000;

/// Files NAME.MOMENT, each a part.
#[derive(Drop)]
pub(crate) struct MachineParts<'a> {
    rt: &'a HostRuntime,
    name: String,
    file: Option<File>,
}

/// The machine's clock, in milliseconds since 1970.
fn clock(rt: &HostRuntime) -> u64 {
    match SystemTime::now(rt) {
        Ok(now) => match now.duration_since(UNIX_EPOCH) {
            Ok(since) => since
                .as_secs()
                .saturating_mul(1_000)
                .saturating_add(u64::from(since.subsec_millis())),
            Err(_) => 0,
        },
        Err(_) => 0,
    }
}

impl MachineParts<'_> {
    /// A new file of this moment, whose name is on the disk.
    fn new_file(&self, moment: u64) -> io::Result<File> {
        let alloc = self.rt.alloc();
        let name = format!(in alloc; "{}.{moment}", self.name)?;
        let mut options = File::options();
        options.write(true).create_new(true);
        let file = options.open(self.rt, name.as_str())?;
        let folder = File::open(self.rt, folder_of(name.as_str()))?;
        folder.sync_all()?;
        Ok(file)
    }
}

impl PartDisk for MachineParts<'_> {
    fn begin(&mut self) -> bool {
        self.file = None;
        let first = clock(self.rt);
        for later in 0..TRIES {
            match self.new_file(first.saturating_add(later)) {
                Ok(file) => {
                    self.file = Some(file);
                    return true;
                }
                Err(error) if error.kind() == io::ErrorKind::AlreadyExists => {}
                Err(_) => return false,
            }
        }
        false
    }

    fn write(&mut self, bytes: &[u8]) -> Option<usize> {
        self.file.as_mut()?.write(bytes).ok()
    }

    fn sync(&mut self) -> bool {
        match &self.file {
            Some(file) => file.sync_all().is_ok(),
            None => false,
        }
    }
}

impl<'a> PartDisks for MachineDisks<'a> {
    type Disk = MachineParts<'a>;

    fn parts(&mut self, name: &str) -> Option<MachineParts<'a>> {
        Some(MachineParts {
            rt: self.rt,
            name: String::from_str(self.rt.alloc(), name).ok()?,
            file: None,
        })
    }
}
