//! The calls of a connection, each in a function of its own.

use spk_history_print::ExportFault;
use sqlite::types::ValueRef;
use sqlite::{Alter, Connection, Error, ErrorCode};

/// What a refusal of the database is.
fn fault_of(error: Error) -> ExportFault {
    match error {
        Error::SqliteFailure(ErrorCode::OutOfMemory) => ExportFault::NoMemory,
        _ => ExportFault::Database,
    }
}

/// Runs statements that have no parameters.
pub(crate) fn batch<S: Alter>(conn: &mut Connection<S>, sql: &str) -> Result<(), ExportFault> {
    match conn.execute_batch(sql) {
        Ok(()) => Ok(()),
        Err(error) => Err(fault_of(error)),
    }
}

/// Runs a statement with these parameters. The connection keeps the plan of its text.
pub(crate) fn run<S: Alter>(
    conn: &mut Connection<S>,
    sql: &str,
    values: &[ValueRef<'_>],
) -> Result<(), ExportFault> {
    match conn.execute(sql, values) {
        Ok(_) => Ok(()),
        Err(error) => Err(fault_of(error)),
    }
}
