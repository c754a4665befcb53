//! Where the parts of a history are.

/// The parts of one history, which are written one after the other.
pub trait PartDisk: Drop {
    /// Begins the next part, behind those before by its name: what is written from now on stands in it. Whether it could be begun.
    fn begin(&mut self) -> bool;

    /// Writes bytes behind what stands in the part, so that they survive the end of this process, if not of the machine: how many from the front; None where
    /// none could be written.
    fn write(&mut self, bytes: &[u8]) -> Option<usize>;

    /// What was written survives a crash of the machine once this answers. Whether it does.
    fn sync(&mut self) -> bool;
}

/// Where such parts are.
pub trait PartDisks {
    type Disk: PartDisk;

    /// The history of this name, if there is memory for it.
    fn parts(&mut self, name: &str) -> Option<Self::Disk>;
}
