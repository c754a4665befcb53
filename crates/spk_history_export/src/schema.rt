//! The tables, and the statements that fill them.

/// The tables. A column without a type holds what is put there: a whole number from 2^63 on is text.
pub(crate) const TABLES: &str = "\
CREATE TABLE node (id INTEGER PRIMARY KEY, grp TEXT NOT NULL, name TEXT NOT NULL);
CREATE TABLE metric (id INTEGER PRIMARY KEY, node INTEGER NOT NULL, device TEXT, name TEXT, datatype INTEGER);
CREATE TABLE birth (id INTEGER PRIMARY KEY, node INTEGER NOT NULL, at INTEGER NOT NULL, stamp, bd INTEGER NOT NULL, seq);
CREATE TABLE message (id INTEGER PRIMARY KEY, node INTEGER NOT NULL, birth INTEGER, kind TEXT NOT NULL, device TEXT, seq, stamp, at INTEGER NOT NULL);
CREATE TABLE value (id INTEGER PRIMARY KEY, message INTEGER NOT NULL, metric INTEGER NOT NULL, stamp, shown);
CREATE TABLE hole (id INTEGER PRIMARY KEY, node INTEGER NOT NULL, from_at INTEGER NOT NULL, to_at INTEGER, awaited, missing, unused, ended_by TEXT);
CREATE TABLE death (id INTEGER PRIMARY KEY, node INTEGER NOT NULL, at INTEGER NOT NULL, bd INTEGER NOT NULL);
CREATE TABLE session (id INTEGER PRIMARY KEY, at INTEGER NOT NULL, what TEXT NOT NULL);";

/// Made once the rows are there.
pub(crate) const INDEXES: &str = "CREATE INDEX value_of_metric ON value (metric, id);";

pub(crate) const NODE: &str = "INSERT INTO node VALUES (?1, ?2, ?3)";

pub(crate) const METRIC: &str = "INSERT INTO metric VALUES (?1, ?2, ?3, ?4, ?5)";

pub(crate) const BIRTH: &str = "INSERT INTO birth VALUES (?1, ?2, ?3, ?4, ?5, ?6)";

/// How many columns a message has.
pub(crate) const MESSAGE_COLUMNS: usize = 8;

pub(crate) const MESSAGE: &str = "INSERT INTO message VALUES (?, ?, ?, ?, ?, ?, ?, ?)";

/// Sixteen messages.
pub(crate) const MESSAGES: &str = "INSERT INTO message VALUES \
(?, ?, ?, ?, ?, ?, ?, ?), (?, ?, ?, ?, ?, ?, ?, ?), (?, ?, ?, ?, ?, ?, ?, ?), (?, ?, ?, ?, ?, ?, ?, ?), \
(?, ?, ?, ?, ?, ?, ?, ?), (?, ?, ?, ?, ?, ?, ?, ?), (?, ?, ?, ?, ?, ?, ?, ?), (?, ?, ?, ?, ?, ?, ?, ?), \
(?, ?, ?, ?, ?, ?, ?, ?), (?, ?, ?, ?, ?, ?, ?, ?), (?, ?, ?, ?, ?, ?, ?, ?), (?, ?, ?, ?, ?, ?, ?, ?), \
(?, ?, ?, ?, ?, ?, ?, ?), (?, ?, ?, ?, ?, ?, ?, ?), (?, ?, ?, ?, ?, ?, ?, ?), (?, ?, ?, ?, ?, ?, ?, ?)";

/// How many columns a value has.
pub(crate) const VALUE_COLUMNS: usize = 5;

pub(crate) const VALUE: &str = "INSERT INTO value VALUES (?, ?, ?, ?, ?)";

/// Sixteen values.
pub(crate) const VALUES: &str = "INSERT INTO value VALUES \
(?, ?, ?, ?, ?), (?, ?, ?, ?, ?), (?, ?, ?, ?, ?), (?, ?, ?, ?, ?), (?, ?, ?, ?, ?), (?, ?, ?, ?, ?), (?, ?, ?, ?, ?), (?, ?, ?, ?, ?), \
(?, ?, ?, ?, ?), (?, ?, ?, ?, ?), (?, ?, ?, ?, ?), (?, ?, ?, ?, ?), (?, ?, ?, ?, ?), (?, ?, ?, ?, ?), (?, ?, ?, ?, ?), (?, ?, ?, ?, ?)";

/// How many messages, and how many values, are put by one statement.
pub(crate) const TOGETHER: usize = 16;

pub(crate) const HOLE: &str = "INSERT INTO hole VALUES (?1, ?2, ?3, ?4, ?5, ?6, ?7, ?8)";

pub(crate) const DEATH: &str = "INSERT INTO death VALUES (?1, ?2, ?3, ?4)";

pub(crate) const SESSION: &str = "INSERT INTO session VALUES (?1, ?2, ?3)";
