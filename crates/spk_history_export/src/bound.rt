//! The parameters of statements.

use sqlite::types::ValueRef;

/// A place of the journal, of a node or of a value as a number of SQLite.
pub(crate) fn id<'a>(number: u64) -> ValueRef<'a> {
    match i64::try_from(number) {
        Ok(number) => ValueRef::Int(number),
        Err(_) => ValueRef::Null,
    }
}

/// The number of the node at a place: from 1 on.
pub(crate) fn node_id<'a>(place: usize) -> ValueRef<'a> {
    id((place as u64).saturating_add(1))
}

/// A number of one byte.
pub(crate) fn small<'a>(number: u8) -> ValueRef<'a> {
    ValueRef::Int(i64::from(number))
}

pub(crate) fn text(text: &str) -> ValueRef<'_> {
    ValueRef::Text(text.as_bytes())
}

pub(crate) fn text_or_null(given: Option<&str>) -> ValueRef<'_> {
    match given {
        Some(given) => text(given),
        None => ValueRef::Null,
    }
}

/// The number of a metric: from 1 on.
pub(crate) fn metric_id<'a>(number: u32) -> ValueRef<'a> {
    ValueRef::Int(i64::from(number) + 1)
}
