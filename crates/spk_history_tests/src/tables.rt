//! The tables of a history, made in memory and read again.

use crate::cases::print_fault;
use spk_floats::double_text;
use spk_history_export::{ExportFault, PartsOnDisk, Plan, export};
use sqlite::types::ValueRef;
use sqlite::{Connection, MemStore, Row};
use std::io::{self, Write};
use std::num::f64_to_bits_with_nan;

/// The tables, each with its rows in the order of their numbers.
const TABLES: [(&str, &str); 8] = [
    ("node", "SELECT * FROM node ORDER BY id"),
    ("metric", "SELECT * FROM metric ORDER BY id"),
    ("birth", "SELECT * FROM birth ORDER BY id"),
    ("message", "SELECT * FROM message ORDER BY id"),
    ("value", "SELECT * FROM value ORDER BY id"),
    ("hole", "SELECT * FROM hole ORDER BY id"),
    ("death", "SELECT * FROM death ORDER BY id"),
    ("session", "SELECT * FROM session ORDER BY id"),
];

fn print_value(rt: &HostRuntime, value: ValueRef<'_>) -> io::Result<()> {
    match value {
        ValueRef::Null => print!(rt; "NULL"),
        ValueRef::Int(number) => print!(rt; "{number}"),
        ValueRef::Real(number) => {
            let text = double_text(rt.alloc(), f64_to_bits_with_nan(number))?;
            print!(rt; "{text}")
        }
        ValueRef::Text(text) => match str::from_utf8(text) {
            Ok(text) => print!(rt; "{text:?}"),
            Err(_) => print!(rt; "no text"),
        },
        ValueRef::Blob(_) => print!(rt; "bytes"),
    }
}

fn print_row(rt: &HostRuntime, table: &str, row: &Row) -> io::Result<()> {
    print!(rt; "{table}: ")?;
    for at in 0..row.column_count() {
        if at > 0 {
            print!(rt; ", ")?;
        }
        match row.get_ref(at) {
            Ok(value) => print_value(rt, value)?,
            Err(_) => print!(rt; "no value")?,
        }
    }
    println!(rt; "")
}

fn rows_of(conn: &mut Connection<MemStore>, sql: &str) -> Option<Vec<Row>> {
    match conn.query_all(sql, &[]) {
        Ok(rows) => Some(rows),
        Err(_) => None,
    }
}

fn print_table(
    rt: &HostRuntime,
    conn: &mut Connection<MemStore>,
    table: &str,
    sql: &str,
) -> io::Result<()> {
    let Some(rows) = rows_of(conn, sql) else {
        return println!(rt; "{table} can't be read");
    };
    for row in &rows {
        print_row(rt, table, row)?;
    }
    Ok(())
}

fn made(rt: &HostRuntime, plan: &Plan, conn: &mut Connection<MemStore>) -> Result<(), ExportFault> {
    let mut files = PartsOnDisk::new(rt);
    let mut notes = io::writer(rt);
    export(rt.alloc(), plan, &mut files, conn, &mut notes)?;
    Ok(())
}

/// Makes the tables, and prints their rows.
pub(crate) fn print_tables(rt: &HostRuntime, plan: &Plan) -> io::Result<bool> {
    let mut conn = Connection::open_in_memory(rt.alloc())?;
    if let Err(fault) = made(rt, plan, &mut conn) {
        return print_fault(rt, fault);
    }
    for (table, sql) in TABLES {
        print_table(rt, &mut conn, table, sql)?;
    }
    Ok(true)
}
