//! The tables of a history are made.

use crate::schema;
use crate::sql::batch;
use crate::tables::Tables;
use spk_history_print::{Counts, ExportFault, PartFiles, Plan, walk_over};
use sqlite::{Alter, Connection};
use std::alloc::Global;
use std::io::Write;

/// Fills the tables, which are there.
fn fill<F: PartFiles, S: Alter, N: Write>(
    alloc: Global,
    plan: &Plan,
    files: &mut F,
    conn: &mut Connection<S>,
    notes: &mut N,
) -> Result<Counts, ExportFault> {
    let mut tables = Tables::new(alloc, conn);
    let counts = walk_over(alloc, plan, files, &mut tables, notes)?;
    tables.put_waiting()?;
    Ok(counts)
}

/// Makes the tables of a history in a database that has none of them. What is odd about a part is said on `notes`. After a refusal the database holds
/// what was committed so far, and isn't to be used.
///
/// Refused with NoMemory (1), LongHistory (132), NoPart (134), NotHistory (135) or Database (136).
pub fn export<F: PartFiles, S: Alter, N: Write>(
    alloc: Global,
    plan: &Plan,
    files: &mut F,
    conn: &mut Connection<S>,
    notes: &mut N,
) -> Result<Counts, ExportFault> {
    batch(conn, schema::TABLES)?;
    batch(conn, "BEGIN")?;
    let counts = fill(alloc, plan, files, conn, notes)?;
    batch(conn, "COMMIT")?;
    batch(conn, schema::INDEXES)?;
    Ok(counts)
}
