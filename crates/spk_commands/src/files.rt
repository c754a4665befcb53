//! The files that a command reads.

use crate::fault::{Fault, Stop};
use std::alloc::Global;
use std::io::{self, Read};

/// The longest file that is read, in bytes.
const LONGEST: usize = 1_048_576;

/// Where a command finds its files: the machine, or texts in memory.
pub trait Files {
    type Reader: Read + Drop;

    /// The file of this name, or `None` where it can't be opened.
    fn open(&mut self, name: &str) -> Option<Self::Reader>;
}

/// What the reader gives up to its end. More bytes than the limit are BadPlan. A reader that fails is BadFile, and so
/// is one that is interrupted so often that its end isn't reached.
fn bytes_of<R: Read>(alloc: Global, reader: &mut R) -> Result<Vec<u8>, Stop> {
    let mut bytes = Vec::new(alloc);
    let mut piece = [0u8; 4096];
    for _ in 0..=LONGEST {
        let room = (LONGEST + 1).saturating_sub(bytes.len()).min(4096);
        match reader.read(&mut piece[..room]) {
            Ok(0) => return Ok(bytes),
            Ok(count) => bytes.extend_from_slice(&piece[..count])?,
            Err(error) if error.kind() == io::ErrorKind::Interrupted => {}
            Err(_) => return Err(Stop::Fault(Fault::BadFile)),
        }
        if bytes.len() > LONGEST {
            return Err(Stop::Fault(Fault::BadPlan));
        }
    }
    Err(Stop::Fault(Fault::BadFile))
}

/// The text of a file. A file that can't be read is BadFile; one that is too long or isn't UTF-8 is BadPlan.
pub(crate) fn text_of<F: Files>(alloc: Global, files: &mut F, name: &str) -> Result<String, Stop> {
    let Some(mut reader) = files.open(name) else {
        return Err(Stop::Fault(Fault::BadFile));
    };
    let bytes = bytes_of(alloc, &mut reader)?;
    match str::from_utf8(&bytes) {
        Ok(text) => Ok(String::from_str(alloc, text)?),
        Err(_) => Err(Stop::Fault(Fault::BadPlan)),
    }
}
