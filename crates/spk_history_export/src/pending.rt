//! Rows that are put together, by one statement.

use crate::cell::Cell;
use crate::sql::run;
use spk_history_print::ExportFault;
use sqlite::{Alter, Connection};
use std::alloc::{AllocError, Global};

/// The cells of rows of one table that wait to be put, one row behind the other.
#[derive(Drop)]
pub(crate) struct Pending {
    alloc: Global,
    cells: Vec<Cell>,
}

/// The rows of these cells are put, by one statement that has a parameter for each cell.
fn together<S: Alter>(
    alloc: Global,
    cells: &[Cell],
    conn: &mut Connection<S>,
    sql: &str,
) -> Result<(), ExportFault> {
    let mut values = Vec::with_capacity(alloc, cells.len())?;
    for cell in cells {
        values.push(cell.bound())?;
    }
    run(conn, sql, &values)
}

/// The rows of these cells are put, one by one.
fn each<S: Alter>(
    alloc: Global,
    cells: &[Cell],
    conn: &mut Connection<S>,
    sql: &str,
    columns: usize,
) -> Result<(), ExportFault> {
    let mut values = Vec::with_capacity(alloc, columns)?;
    for cell in cells {
        values.push(cell.bound())?;
        if values.len() >= columns {
            run(conn, sql, &values)?;
            values.clear();
        }
    }
    Ok(())
}

impl Pending {
    /// None waits.
    pub(crate) fn new(alloc: Global) -> Pending {
        Pending {
            alloc,
            cells: Vec::new(alloc),
        }
    }

    /// How many cells wait.
    pub(crate) fn len(&self) -> usize {
        self.cells.len()
    }

    /// One more cell waits, behind the others.
    pub(crate) fn push(&mut self, cell: Cell) -> Result<(), AllocError> {
        self.cells.push(cell)?;
        Ok(())
    }

    /// The rows are put, by one statement that has a parameter for each cell.
    pub(crate) fn put<S: Alter>(
        &mut self,
        conn: &mut Connection<S>,
        sql: &str,
    ) -> Result<(), ExportFault> {
        together(self.alloc, &self.cells, conn, sql)?;
        self.cells.clear();
        Ok(())
    }

    /// The rows are put, one by one, each by this statement of so many parameters.
    pub(crate) fn put_each<S: Alter>(
        &mut self,
        conn: &mut Connection<S>,
        sql: &str,
        columns: usize,
    ) -> Result<(), ExportFault> {
        each(self.alloc, &self.cells, conn, sql, columns)?;
        self.cells.clear();
        Ok(())
    }
}
