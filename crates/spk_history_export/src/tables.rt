//! The tables of a history, as they are filled.

use crate::bound::{id, metric_id, node_id, small, text, text_or_null};
use crate::cell::{Cell, id_cell, metric_cell, node_cell, shown, text_cell, whole, whole_or_null};
use crate::messages::{kind_of, seq_of};
use crate::pending::Pending;
use crate::schema;
use crate::sql::{batch, run};
use spk_history::{Entry, SessionEvent};
use spk_history_print::{Called, ExportFault, Hole, MetricKey, Metrics, Takes, ending};
use spk_history_rows::{Row, Rows};
use spk_payload::{Metric, Payload};
use sqlite::types::ValueRef;
use sqlite::{Alter, Connection};
use std::alloc::Global;

/// How many values a transaction has before it is committed, at least.
const VALUES_AT_ONCE: u64 = 100_000;

/// The tables that are filled.
#[derive(Drop)]
pub(crate) struct Tables<'c, S: Alter> {
    alloc: Global,
    conn: &'c mut Connection<S>,
    metrics: Metrics,
    /// How many nodes the table of nodes has.
    nodes: usize,
    /// The messages and the values that wait to be put with others.
    messages: Pending,
    waiting: Pending,
    /// How many values came, and how many had come as the transaction began.
    values: u64,
    committed: u64,
}

impl<'c, S: Alter> Tables<'c, S> {
    /// Those of this database, which are empty. A transaction is open.
    pub(crate) fn new(alloc: Global, conn: &'c mut Connection<S>) -> Tables<'c, S> {
        Tables {
            alloc,
            conn,
            metrics: Metrics::new(alloc),
            nodes: 0,
            messages: Pending::new(alloc),
            waiting: Pending::new(alloc),
            values: 0,
            committed: 0,
        }
    }
}

impl<S: Alter> Tables<'_, S> {
    /// The next node, which is at this place.
    fn put_node(&mut self, group: &str, name: &str, place: usize) -> Result<(), ExportFault> {
        let values = [node_id(place), text(group), text(name)];
        run(self.conn, schema::NODE, &values)
    }

    /// The nodes that were named since.
    fn put_nodes(&mut self, rows: &Rows, place: usize) -> Result<(), ExportFault> {
        for next in self.nodes..=place {
            if let Some(node) = rows.node(next) {
                self.put_node(node.group.as_str(), node.name.as_str(), next)?;
            }
            self.nodes = next.saturating_add(1);
        }
        Ok(())
    }

    fn put_session(&mut self, place: u64, at: u64, what: SessionEvent) -> Result<(), ExportFault> {
        let at = whole(self.alloc, at)?;
        let what = match what {
            SessionEvent::Began => "began",
            SessionEvent::Ended => "ended",
        };
        let values = [id(place), at.bound(), text(what)];
        run(self.conn, schema::SESSION, &values)
    }

    fn put_death(&mut self, place: u64, node: usize, at: u64, bd: u8) -> Result<(), ExportFault> {
        let at = whole(self.alloc, at)?;
        let values = [id(place), node_id(node), at.bound(), small(bd)];
        run(self.conn, schema::DEATH, &values)
    }

    /// A birth, whose payload has this `seq`.
    fn put_birth(
        &mut self,
        place: u64,
        node: usize,
        at: u64,
        stamp: u64,
        bd: u8,
        seq: Option<u64>,
    ) -> Result<(), ExportFault> {
        let at = whole(self.alloc, at)?;
        let stamp = whole(self.alloc, stamp)?;
        let seq = whole_or_null(self.alloc, seq)?;
        let values = [
            id(place),
            node_id(node),
            at.bound(),
            stamp.bound(),
            small(bd),
            seq.bound(),
        ];
        run(self.conn, schema::BIRTH, &values)
    }

    /// A message, which waits to be put with others.
    fn put_message(
        &mut self,
        row: &Row,
        node: usize,
        at: u64,
        payload: Option<&Payload>,
    ) -> Result<(), ExportFault> {
        let Some((kind, device)) = kind_of(&row.entry) else {
            return Ok(());
        };
        let alloc = self.alloc;
        self.messages.push(id_cell(row.place))?;
        self.messages.push(node_cell(node))?;
        self.messages.push(whole_or_null(alloc, row.birth)?)?;
        self.messages.push(text_cell(alloc, Some(kind))?)?;
        self.messages.push(text_cell(alloc, device)?)?;
        let seq = seq_of(&row.entry, payload);
        self.messages.push(whole_or_null(alloc, seq)?)?;
        let stamp = payload.and_then(|p| p.timestamp);
        self.messages.push(whole_or_null(alloc, stamp)?)?;
        self.messages.push(whole(alloc, at)?)?;
        self.put_messages()
    }

    /// The messages that wait are put, where there are enough for one statement.
    fn put_messages(&mut self) -> Result<(), ExportFault> {
        if self.messages.len() < schema::TOGETHER * schema::MESSAGE_COLUMNS {
            return Ok(());
        }
        self.messages.put(self.conn, schema::MESSAGES)
    }

    /// A birth and its message, or another message.
    fn put_told(
        &mut self,
        row: &Row,
        node: usize,
        payload: Option<&Payload>,
    ) -> Result<(), ExportFault> {
        match row.entry {
            Entry::Birth { at, stamp, bd, .. } => {
                let seq = seq_of(&row.entry, payload);
                self.put_birth(row.place, node, at, stamp, bd, seq)?;
                self.put_message(row, node, at, payload)
            }
            Entry::Message { at, .. } => self.put_message(row, node, at, payload),
            _ => Ok(()),
        }
    }

    fn put_metric(&mut self, number: u32, metric: &MetricKey) -> Result<(), ExportFault> {
        let datatype = match metric.datatype {
            Some(datatype) => ValueRef::Int(i64::from(datatype)),
            None => ValueRef::Null,
        };
        let values = [
            metric_id(number),
            node_id(metric.node),
            text_or_null(metric.device),
            text_or_null(metric.name),
            datatype,
        ];
        run(self.conn, schema::METRIC, &values)
    }

    /// The number of a metric, which is put where it is new.
    fn metric_number(&mut self, metric: &MetricKey) -> Result<u32, ExportFault> {
        let (number, is_new) = self.metrics.number(metric)?;
        if is_new {
            self.put_metric(number, metric)?;
        }
        Ok(number)
    }

    /// A value, which waits to be put with others.
    fn put_value(
        &mut self,
        message: u64,
        metric: u32,
        stamp: Cell,
        shown: Cell,
    ) -> Result<(), ExportFault> {
        self.values = self.values.saturating_add(1);
        self.waiting.push(id_cell(self.values))?;
        self.waiting.push(id_cell(message))?;
        self.waiting.push(metric_cell(metric))?;
        self.waiting.push(stamp)?;
        self.waiting.push(shown)?;
        if self.waiting.len() < schema::TOGETHER * schema::VALUE_COLUMNS {
            return Ok(());
        }
        self.waiting.put(self.conn, schema::VALUES)
    }

    /// What still waits is put.
    pub(crate) fn put_waiting(&mut self) -> Result<(), ExportFault> {
        self.messages
            .put_each(self.conn, schema::MESSAGE, schema::MESSAGE_COLUMNS)?;
        self.waiting
            .put_each(self.conn, schema::VALUE, schema::VALUE_COLUMNS)
    }

    /// A metric of a message.
    fn put_told_value(
        &mut self,
        message: u64,
        node: usize,
        device: Option<&str>,
        metric: &Metric,
        called: &Called,
    ) -> Result<(), ExportFault> {
        let (name, datatype) = called.name(metric);
        let number = self.metric_number(&MetricKey {
            node,
            device,
            name,
            datatype,
        })?;
        let stamp = whole_or_null(self.alloc, metric.timestamp)?;
        let shown = shown(self.alloc, metric, datatype)?;
        self.put_value(message, number, stamp, shown)
    }

    /// The metrics of a message.
    fn put_values(
        &mut self,
        row: &Row,
        node: usize,
        metrics: &[Metric],
        called: &Called,
    ) -> Result<(), ExportFault> {
        let device = match kind_of(&row.entry) {
            Some((_, device)) => device,
            None => None,
        };
        for metric in metrics {
            self.put_told_value(row.place, node, device, metric, called)?;
        }
        Ok(())
    }

    /// Commits what was put, where it is much.
    fn commit_much(&mut self) -> Result<(), ExportFault> {
        if self.values.saturating_sub(self.committed) < VALUES_AT_ONCE {
            return Ok(());
        }
        self.committed = self.values;
        batch(self.conn, "COMMIT")?;
        batch(self.conn, "BEGIN")
    }

    fn put_hole(&mut self, hole: &Hole) -> Result<(), ExportFault> {
        let from = whole(self.alloc, hole.from)?;
        let to = whole_or_null(self.alloc, hole.to)?;
        let awaited = whole_or_null(self.alloc, hole.awaited)?;
        let missing = whole(self.alloc, hole.missing)?;
        let unused = whole_or_null(self.alloc, hole.unused)?;
        let values = [
            id(hole.id),
            node_id(hole.node),
            from.bound(),
            to.bound(),
            awaited.bound(),
            missing.bound(),
            unused.bound(),
            text_or_null(hole.ended_by.map(ending)),
        ];
        run(self.conn, schema::HOLE, &values)
    }
}

impl<S: Alter> Takes for Tables<'_, S> {
    fn row(&mut self, rows: &Rows, row: &Row, inside: bool) -> Result<(), ExportFault> {
        if let Some(node) = row.node {
            self.put_nodes(rows, node)?;
        }
        if !inside {
            return Ok(());
        }
        match (row.entry, row.node) {
            (Entry::Session { at, what }, _) => self.put_session(row.place, at, what),
            (Entry::Death { at, bd, .. }, Some(node)) => self.put_death(row.place, node, at, bd),
            _ => Ok(()),
        }
    }

    fn message(
        &mut self,
        _rows: &Rows,
        row: &Row,
        node: usize,
        payload: Option<&Payload>,
        called: &Called,
        inside: bool,
    ) -> Result<(), ExportFault> {
        if !inside {
            return Ok(());
        }
        self.put_told(row, node, payload)?;
        if let Some(payload) = payload {
            self.put_values(row, node, &payload.metrics, called)?;
        }
        self.commit_much()
    }

    fn hole(&mut self, _rows: &Rows, hole: &Hole) -> Result<(), ExportFault> {
        self.put_hole(hole)
    }
}
