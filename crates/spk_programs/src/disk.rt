//! Where an edge node's record and what it keeps are.

/// A file on a disk.
pub trait Disk: Drop {
    /// Adds the bytes that are there behind others: none where there is no file yet. Whether they could be read.
    fn read(&mut self, bytes: &mut Vec<u8>) -> bool;

    /// Keeps these bytes in place of those before, so that either survive a crash at whatever moment, and they once this answers. Whether they are kept.
    fn keep(&mut self, bytes: &[u8]) -> bool;

    /// Writes these bytes behind those that are there, so that they survive the end of this process, if not of the machine. Whether they are written: else
    /// some may be.
    fn append(&mut self, bytes: &[u8]) -> bool;
}

/// Where such files are.
pub trait Disks {
    type Disk: Disk;

    /// The file of this name, for one process alone, until it is let go.
    fn open(&mut self, name: &str) -> Opened<Self::Disk>;
}

/// What comes of a file that is opened.
#[derive(Drop)]
pub enum Opened<D: Disk> {
    /// It is there, or may be.
    Open(D),
    /// Another process has it.
    Busy,
    /// It can't be had.
    Failed,
}
