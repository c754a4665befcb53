//! Databases that are files of the machine.

use crate::making::export;
use spk_history_print::{Counts, ExportFault, PartFiles, Plan};
use sqlite::{Connection, File, FileStore};
use std::alloc::Global;
use std::fs;
use std::io::{ErrorKind, Write};
use std::rt::Files;

/// Opens a database that isn't there yet.
fn open(rt: &HostRuntime, out: &str) -> Result<Connection<FileStore<File>>, ExportFault> {
    match rt.metadata(out) {
        Ok(_) => return Err(ExportFault::Exists),
        Err(error) if error.kind() == ErrorKind::NotFound => {}
        Err(_) => return Err(ExportFault::Database),
    }
    match Connection::open(rt, out) {
        Ok(conn) => Ok(conn),
        Err(_) => Err(ExportFault::Database),
    }
}

/// Closes a database: all that was committed is in its file.
fn close(conn: Connection<FileStore<File>>) -> Result<(), ExportFault> {
    match conn.close() {
        Ok(()) => Ok(()),
        Err(_) => Err(ExportFault::Database),
    }
}

/// Makes the tables of a history in a new file, which is closed: it alone stays, without the log that stood beside it.
///
/// Refused as `export` says, and with Exists (133) where a file of this name is there.
pub fn export_to<F: PartFiles, N: Write>(
    rt: &HostRuntime,
    alloc: Global,
    plan: &Plan,
    out: &str,
    files: &mut F,
    notes: &mut N,
) -> Result<Counts, ExportFault> {
    let log = format!(in alloc; "{out}-wal")?;
    let mut conn = open(rt, out)?;
    match export(alloc, plan, files, &mut conn, notes) {
        Ok(counts) => {
            close(conn)?;
            // nothing of it is needed any more
            let _ = fs::remove_file(rt, log.as_str());
            Ok(counts)
        }
        Err(fault) => Err(fault),
    }
}
