//! The metrics of a history, each with a number.

use std::alloc::{AllocError, Global};
use std::collections::HashMap;
use std::fmt::Write;

/// A metric of a node or of a device of it, by what it is called, and its datatype.
#[derive(Clone, Copy)]
pub struct MetricKey<'a> {
    /// The place of its node.
    pub node: usize,
    pub device: Option<&'a str>,
    pub name: Option<&'a str>,
    pub datatype: Option<u32>,
}

/// Those that came so far.
#[derive(Drop)]
pub struct Metrics {
    alloc: Global,
    numbers: HashMap<String, u32>,
    /// The key that is looked for.
    key: String,
    next: u32,
}

/// A text behind its length, so that no two lists of texts are one; none is another than an empty one.
fn write_text(key: &mut String, text: Option<&str>) -> Result<(), AllocError> {
    let Some(text) = text else {
        return key.push_str("-");
    };
    let len = text.len();
    if write!(key, "{len}:").is_err() {
        return Err(AllocError);
    }
    key.push_str(text)
}

/// The key as a text.
fn write_key(key: &mut String, metric: &MetricKey) -> Result<(), AllocError> {
    key.clear();
    let node = metric.node;
    let datatype = metric.datatype.unwrap_or(0);
    if write!(key, "{node},{datatype},").is_err() {
        return Err(AllocError);
    }
    write_text(key, metric.device)?;
    write_text(key, metric.name)
}

impl Metrics {
    /// None came yet.
    pub fn new(alloc: Global) -> Metrics {
        Metrics {
            alloc,
            numbers: HashMap::new(alloc),
            key: String::new(alloc),
            next: 0,
        }
    }

    /// The number of a metric, from 0 on, and whether it is new.
    pub fn number(&mut self, metric: &MetricKey) -> Result<(u32, bool), AllocError> {
        write_key(&mut self.key, metric)?;
        if let Some(number) = self.numbers.get(self.key.as_str()) {
            return Ok((*number, false));
        }
        let number = self.next;
        let key = String::from_str(self.alloc, self.key.as_str())?;
        self.numbers.insert(key, number)?;
        self.next = number.saturating_add(1);
        Ok((number, true))
    }
}
