//! Parts that are files of the machine.

use crate::plan::PartFiles;
use std::fs::File;
use std::io::{ErrorKind, Read};

/// The most bytes that are read at once.
const PIECE: usize = 65536;

/// Parts that are files of the machine.
#[derive(Drop)]
pub struct PartsOnDisk<'r> {
    rt: &'r HostRuntime,
}

/// Puts what a file has behind these bytes. Answers whether its end was reached.
fn read_all(file: &mut File, bytes: &mut Vec<u8>) -> bool {
    let mut piece = [0u8; PIECE];
    for _ in 0..u64::MAX {
        match file.read(&mut piece) {
            Ok(0) => return true,
            Ok(count) => {
                if bytes.extend_from_slice(&piece[..count]).is_err() {
                    return false;
                }
            }
            Err(error) if error.kind() == ErrorKind::Interrupted => {}
            Err(_) => return false,
        }
    }
    false
}

impl<'r> PartsOnDisk<'r> {
    /// The files of this machine.
    pub fn new(rt: &'r HostRuntime) -> PartsOnDisk<'r> {
        PartsOnDisk { rt }
    }
}

impl PartFiles for PartsOnDisk<'_> {
    fn read(&mut self, name: &str, bytes: &mut Vec<u8>) -> bool {
        match File::open(self.rt, name) {
            Ok(mut file) => read_all(&mut file, bytes),
            Err(_) => false,
        }
    }
}
