//! Messages made ready to be shown.
ghost use Rattle.std.specs.Prelude.{◌≡◌, map, IfOk};
ghost use Rattle.spk_payload.specs.View.{metric_view};
ghost use Rattle.spk_host_rules.specs.Data.{NodeBirth, NodeData, DeviceBirth, DeviceData, DeviceDeath};
ghost use Rattle.spk_view.specs.Prepared.{prepared};

use crate::table::Table;
use spk_payload::Metric;
use std::alloc::{AllocError, Global};
use std::marker::Model;

/// What a message will show.
#[derive(Debug, Drop)]
pub(crate) enum Body {
    NodeBirth(Table),
    NodeData(Vec<Metric>),
    DeviceBirth(String, Table),
    DeviceData(String, Vec<Metric>),
    DeviceDeath(String),
}

/// A message of a node made ready to be shown: it owns what the view will hold, so that consuming it takes no memory.
/// Contracts see it as `Prepared`.
#[derive(Debug, Drop)]
pub struct Ready {
    pub(crate) body: Body,
}

impl Model for Ready {
    ghost use Rattle.spk_view.specs.Data.{Prepared};
    ghost use Rattle.spk_view.specs.Inside.{body_view};

    ghost Value = { Prepared };

    ghost view = { λ a. body_view a.body };
}

fn copied(alloc: Global, metrics: &[Metric]) -> Result<Vec<Metric>, AllocError>
    ensures { IfOk result (λ copies. map metric_view copies.items ≡ map metric_view metrics.now) }
{
    let mut copies = Vec::with_capacity(alloc, metrics.len())?;
    for metric in metrics {
        copies.push(metric.copy(alloc)?)?;
    }
    Ok(copies)
}

impl Ready {
    /// An NBIRTH with these metrics. Refused only where memory is.
    pub fn node_birth(alloc: Global, metrics: &[Metric]) -> Result<Ready, AllocError>
        ensures { IfOk result (λ r. r ≡ prepared (NodeBirth (map metric_view metrics.now))) }
    {
        let table = Table::born(alloc, metrics)?;
        Ok(Ready {
            body: Body::NodeBirth(table),
        })
    }

    /// An NDATA with these metrics. Refused only where memory is.
    pub fn node_data(alloc: Global, metrics: &[Metric]) -> Result<Ready, AllocError>
        ensures { IfOk result (λ r. r ≡ prepared (NodeData (map metric_view metrics.now))) }
    {
        let metrics = copied(alloc, metrics)?;
        Ok(Ready {
            body: Body::NodeData(metrics),
        })
    }

    /// A DBIRTH of a device with these metrics. Refused only where memory is.
    pub fn device_birth(alloc: Global, name: &str, metrics: &[Metric]) -> Result<Ready, AllocError>
        ensures { IfOk result
            (λ r. r ≡ prepared (DeviceBirth name.now (map metric_view metrics.now))) }
    {
        let name = String::from_str(alloc, name)?;
        let table = Table::born(alloc, metrics)?;
        Ok(Ready {
            body: Body::DeviceBirth(name, table),
        })
    }

    /// A DDATA of a device with these metrics. Refused only where memory is.
    pub fn device_data(alloc: Global, name: &str, metrics: &[Metric]) -> Result<Ready, AllocError>
        ensures { IfOk result
            (λ r. r ≡ prepared (DeviceData name.now (map metric_view metrics.now))) }
    {
        let name = String::from_str(alloc, name)?;
        let metrics = copied(alloc, metrics)?;
        Ok(Ready {
            body: Body::DeviceData(name, metrics),
        })
    }

    /// A DDEATH of a device. Refused only where memory is.
    pub fn device_death(alloc: Global, name: &str) -> Result<Ready, AllocError>
        ensures { IfOk result (λ r. r ≡ prepared (DeviceDeath name.now)) }
    {
        let name = String::from_str(alloc, name)?;
        Ok(Ready {
            body: Body::DeviceDeath(name),
        })
    }
}
