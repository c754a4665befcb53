//! What the metrics of a message are called, and their datatypes: by the births before it (Sparkplug 3.0.0, 6.4.5).

use spk_history::Kind;
use spk_payload::Metric;
use spk_view::{DeviceView, MetricView, NodeView, Ready, Watch};
use std::alloc::{AllocError, Global};

/// What the births named, of each node by its place.
#[derive(Drop)]
pub(crate) struct Names {
    alloc: Global,
    nodes: Vec<Watch>,
}

/// The metrics of a message, to be called by what the births named.
#[derive(Drop)]
pub enum Called<'a> {
    /// A node's own.
    Node(&'a NodeView),
    /// A device's.
    Device(&'a DeviceView),
    /// By themselves, as those of a birth.
    Own,
}

impl Called<'_> {
    /// The metric of a birth that a metric means.
    fn row(&self, metric: &Metric) -> Option<&MetricView> {
        match self {
            Called::Node(view) => view.meant_by(metric),
            Called::Device(view) => view.meant_by(metric),
            Called::Own => None,
        }
    }

    /// What a metric is called, and the number of its datatype. Without a name it is none that a birth named.
    pub fn name<'m>(&'m self, metric: &'m Metric) -> (Option<&'m str>, Option<u32>) {
        match self.row(metric) {
            Some(row) => (Some(row.name()), row.datatype()),
            None => match &metric.name {
                Some(name) => (Some(name.as_str()), metric.datatype),
                None => (None, metric.datatype),
            },
        }
    }
}

impl Names {
    /// Nothing was named.
    pub(crate) fn new(alloc: Global) -> Names {
        Names {
            alloc,
            nodes: Vec::new(alloc),
        }
    }

    /// Makes room for the node at a place.
    fn reach(&mut self, place: usize) -> Result<(), AllocError> {
        for _ in self.nodes.len()..=place {
            self.nodes.push(Watch::new(self.alloc))?;
        }
        Ok(())
    }

    /// An NBIRTH of the node at a place, with these metrics.
    pub(crate) fn birth(&mut self, place: usize, metrics: &[Metric]) -> Result<(), AllocError> {
        self.reach(place)?;
        match self.nodes.get_mut(place) {
            Some(names) => learn_node(self.alloc, names, metrics),
            None => Ok(()),
        }
    }

    /// A DBIRTH of a device of the node at a place, with these metrics.
    pub(crate) fn device_birth(
        &mut self,
        place: usize,
        device: &str,
        metrics: &[Metric],
    ) -> Result<(), AllocError> {
        self.reach(place)?;
        match self.nodes.get_mut(place) {
            Some(names) => learn_device(self.alloc, names, device, metrics),
            None => Ok(()),
        }
    }

    /// By what the metrics of a message of the node at a place are called; without a kind it is an NBIRTH.
    pub(crate) fn called(&self, place: usize, kind: Option<Kind>) -> Called<'_> {
        let Some(names) = self.nodes.get(place) else {
            return Called::Own;
        };
        let Some(view) = names.view() else {
            return Called::Own;
        };
        match kind {
            Some(Kind::NodeData) => Called::Node(view),
            Some(Kind::DeviceData(device)) => match view.device(device) {
                Some(device) => Called::Device(device),
                None => Called::Own,
            },
            _ => Called::Own,
        }
    }
}

/// Learns the names of an NBIRTH.
fn learn_node(alloc: Global, names: &mut Watch, metrics: &[Metric]) -> Result<(), AllocError> {
    if names.consume_node_rebirth(alloc, metrics)? {
        return Ok(());
    }
    let ready = Ready::node_birth(alloc, metrics)?;
    let _ = names.consume(0, ready, 0);
    Ok(())
}

/// Learns the names of a DBIRTH.
fn learn_device(
    alloc: Global,
    names: &mut Watch,
    device: &str,
    metrics: &[Metric],
) -> Result<(), AllocError> {
    if names.consume_device_rebirth(alloc, device, metrics)? {
        return Ok(());
    }
    names.reserve(1)?;
    let ready = Ready::device_birth(alloc, device, metrics)?;
    let _ = names.consume(0, ready, 0);
    Ok(())
}
