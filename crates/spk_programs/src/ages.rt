//! When the values of a node's metrics were given.

use spk_payload::Metric;
use spk_view::MetricView;
use std::alloc::{AllocError, Global};
use std::collections::BTreeMap;

/// When the metrics of a table were given last, in the order of its rows, and the rows by alias and by name.
#[derive(Drop)]
pub(crate) struct Ages {
    at: Vec<u64>,
    aliases: BTreeMap<u64, usize>,
    names: BTreeMap<String, usize>,
}

impl Ages {
    /// Of a table without rows.
    pub(crate) fn new(alloc: Global) -> Ages {
        Ages {
            at: Vec::new(alloc),
            aliases: BTreeMap::new(alloc),
            names: BTreeMap::new(alloc),
        }
    }

    /// A birth gave these rows.
    pub(crate) fn born(
        &mut self,
        alloc: Global,
        rows: &[MetricView],
        now: u64,
    ) -> Result<(), AllocError> {
        self.at = Vec::from_elem(alloc, now, rows.len())?;
        self.aliases = BTreeMap::new(alloc);
        self.names = BTreeMap::new(alloc);
        for (place, row) in rows.iter().enumerate() {
            if let Some(alias) = row.alias() {
                let _ = self.aliases.insert(alias, place)?;
            } else {
                let name = String::from_str(alloc, row.name())?;
                let _ = self.names.insert(name, place)?;
            }
        }
        Ok(())
    }

    /// The row that a metric of data means.
    fn place_of(&self, metric: &Metric) -> Option<usize> {
        match (metric.alias, &metric.name) {
            (Some(alias), _) => self.aliases.get(&alias).copied(),
            (None, Some(name)) => self.names.get(name.as_str()).copied(),
            (None, None) => None,
        }
    }

    /// Data gave these metrics.
    pub(crate) fn given(&mut self, metrics: &[Metric], now: u64) {
        for metric in metrics {
            let place = self.place_of(metric).unwrap_or(usize::MAX);
            if let Some(at) = self.at.get_mut(place) {
                *at = now;
            }
        }
    }

    /// When the metric of a row was given last.
    pub(crate) fn at(&self, place: usize) -> Option<u64> {
        self.at.get(place).copied()
    }
}
