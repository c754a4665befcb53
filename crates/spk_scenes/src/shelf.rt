//! Files that stand in memory, records among them.

use crate::binder::Binder;
use spk_commands::Files;
use spk_programs::{Disk, Disks, Opened};
use std::alloc::Global;

/// A file.
#[derive(Drop)]
struct Sheet {
    name: String,
    bytes: Vec<u8>,
    /// How many times it can't be kept first.
    stuck: u32,
    /// A program has it.
    is_held: bool,
}

/// The files, by their names.
#[derive(Drop)]
pub(crate) struct Shelf {
    alloc: Global,
    sheets: Vec<Sheet>,
}

/// A file that a program has, of which nothing is on the shelf before it is put back.
#[derive(Drop)]
pub(crate) struct Paper {
    name: String,
    bytes: Vec<u8>,
    stuck: u32,
}

impl Disk for Paper {
    fn read(&mut self, bytes: &mut Vec<u8>) -> bool {
        bytes.extend_from_slice(self.bytes.as_slice()).is_ok()
    }

    fn keep(&mut self, bytes: &[u8]) -> bool {
        if self.stuck > 0 {
            self.stuck = self.stuck.saturating_sub(1);
            return false;
        }
        self.bytes.clear();
        self.bytes.extend_from_slice(bytes).is_ok()
    }

    fn append(&mut self, bytes: &[u8]) -> bool {
        if self.stuck > 0 {
            self.stuck = self.stuck.saturating_sub(1);
            return false;
        }
        self.bytes.extend_from_slice(bytes).is_ok()
    }
}

impl Disks for Shelf {
    type Disk = Paper;

    fn open(&mut self, name: &str) -> Opened<Paper> {
        match self.sheet(name) {
            Some(sheet) if sheet.is_held => Opened::Busy,
            Some(_) => match self.paper(name) {
                Some(paper) => Opened::Open(paper),
                None => Opened::Failed,
            },
            None => Opened::Failed,
        }
    }
}

impl Shelf {
    pub(crate) fn new(alloc: Global) -> Shelf {
        Shelf {
            alloc,
            sheets: Vec::new(alloc),
        }
    }

    /// The file of this name, an empty one where there was none.
    fn sheet(&mut self, name: &str) -> Option<&mut Sheet> {
        let found = self
            .sheets
            .iter()
            .position(|sheet| sheet.name.as_str() == name);
        let place = match found {
            Some(place) => place,
            None => {
                let sheet = Sheet {
                    name: String::from_str(self.alloc, name).ok()?,
                    bytes: Vec::new(self.alloc),
                    stuck: 0,
                    is_held: false,
                };
                self.sheets.push(sheet).ok()?;
                self.sheets.len().saturating_sub(1)
            }
        };
        self.sheets.get_mut(place)
    }

    /// A file says this from now on.
    pub(crate) fn put(&mut self, name: &str, bytes: &[u8]) -> Option<()> {
        let sheet = self.sheet(name)?;
        sheet.bytes.clear();
        sheet.bytes.extend_from_slice(bytes).ok()
    }

    /// A file can't be kept so many times.
    pub(crate) fn stick(&mut self, name: &str, count: u32) -> Option<()> {
        self.sheet(name)?.stuck = count;
        Some(())
    }

    /// The file of this name is handed to a program.
    fn paper(&mut self, name: &str) -> Option<Paper> {
        let alloc = self.alloc;
        let name = String::from_str(alloc, name).ok()?;
        let sheet = self.sheet(name.as_str())?;
        let bytes = Vec::from_slice(alloc, sheet.bytes.as_slice()).ok()?;
        let stuck = sheet.stuck;
        sheet.stuck = 0;
        sheet.is_held = true;
        Some(Paper { name, bytes, stuck })
    }

    /// A program leaves a file.
    pub(crate) fn put_back(&mut self, paper: &Paper) -> Option<()> {
        let sheet = self.sheet(paper.name.as_str())?;
        sheet.is_held = false;
        sheet.bytes.clear();
        sheet.bytes.extend_from_slice(paper.bytes.as_slice()).ok()
    }

    /// The parts of a history are there, as NAME.1, NAME.2, ..
    pub(crate) fn put_parts(&mut self, binder: &Binder) -> Option<()> {
        for (place, part) in binder.parts.iter().enumerate() {
            let number = place.saturating_add(1);
            let name = format!(in self.alloc; "{}.{number}", binder.name).ok()?;
            self.put(name.as_str(), part.as_slice())?;
        }
        Some(())
    }

    /// What a file says.
    pub(crate) fn text(&mut self, name: &str) -> Option<&[u8]> {
        Some(self.sheet(name)?.bytes.as_slice())
    }
}

/// The files, lent to a command.
#[derive(Drop)]
pub(crate) struct Lent<'a> {
    pub(crate) shelf: &'a Shelf,
}

impl<'a> Files for Lent<'a> {
    type Reader = &'a [u8];

    fn open(&mut self, name: &str) -> Option<&'a [u8]> {
        let shelf = self.shelf;
        let sheet = shelf
            .sheets
            .iter()
            .find(|sheet| sheet.name.as_str() == name)?;
        Some(sheet.bytes.as_slice())
    }
}
