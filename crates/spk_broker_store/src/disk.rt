//! Where a journal is.

/// The file of a broker's journal. Contracts say nothing of what a disk does.
pub trait Disk: Drop {
    /// Puts all bytes of the journal behind those that are there; none where there is no journal yet. Whether they could be read.
    fn read(&mut self, bytes: &mut Vec<u8>) -> bool;

    /// These bytes stand in place of the journal, as a whole, and are on the disk. Where that fails the old one stands.
    fn replace(&mut self, bytes: &[u8]) -> bool;

    /// Puts bytes behind the journal: whether all were taken.
    fn append(&mut self, bytes: &[u8]) -> bool;

    /// What was put there is on the disk.
    fn sync(&mut self) -> bool;
}

/// No disk, for a broker that keeps nothing: each call fails.
#[derive(Debug, Drop)]
pub struct NoDisk;

impl Disk for NoDisk {
    fn read(&mut self, _bytes: &mut Vec<u8>) -> bool {
        false
    }

    fn replace(&mut self, _bytes: &[u8]) -> bool {
        false
    }

    fn append(&mut self, _bytes: &[u8]) -> bool {
        false
    }

    fn sync(&mut self) -> bool {
        false
    }
}
