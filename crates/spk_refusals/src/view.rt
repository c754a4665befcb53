//! Calls of `spk_view`.
ghost use Rattle.std.specs.Prelude.{◌≡◌, ◌⊎◌, ◌+◌, [], true, map, IfOk, IfErr, OnOk, OnErr, if◌then◌else◌};
ghost use Rattle.spk_payload.specs.View.{metric_view};
ghost use Rattle.spk_host_rules.specs.Data.{Message, Consumed, NodeBirth, NodeData};
ghost use Rattle.spk_host_rules.specs.Step as rules;
ghost use Rattle.spk_view.specs.Prepared.{prepared, takes_room};
ghost use Rattle.spk_refusals.specs.Wrong.{current};

use spk_payload::Metric;
use spk_view::Ready;
use std::alloc::{AllocError, Global};
use std::marker::Model;

/// `spk_view::Ready::node_data`.
pub fn node_data(alloc: Global, metrics: &[Metric]) -> Result<Ready, AllocError>
    ensures { IfOk result (λ r. r ≡ prepared (NodeData (map metric_view metrics.now))) }
{
    Ready::node_data(alloc, metrics)
}

/// A `spk_view::Watch`, and memory for wrong bodies.
#[derive(Drop)]
pub struct Watch {
    pub watch: spk_view::Watch,
    pub alloc: Global,
}

impl Model for Watch {
    ghost use Rattle.spk_view.specs.Data.{Keeping};

    ghost Value = { Keeping };

    ghost view = { λ a. a.watch };
}

impl Watch {
    /// `spk_view::Watch::consume`.
    pub fn consume(&mut self, wait: u64, ready: Ready, now: u64) -> Result<bool, Ready>
        ensures asks { (m : Message) → prepared m ≡ ready
            → IfOk result (λ asks. asks ≡ rules.asks wait self.old.watch (Consumed m now)) }
        ensures watch { (m : Message) → prepared m ≡ ready
            → OnOk result (self.new.watch ≡ rules.step wait self.old.watch (Consumed m now)) }
        ensures room { OnOk result
            (self.new.room + (if takes_room self.old.watch.view ready then 1 else 0)
            ≡ self.old.room) }
        ensures full { OnErr result
            ((takes_room self.old.watch.view ready ≡ true) × (self.old.room ≡ 0)) }
        ensures returned { IfErr result (λ r. r ≡ ready) }
        ensures unchanged { OnErr result (self.new ≡ self.old) }
    {
        self.watch.consume(wait, ready, now)
    }
}

/// The metrics as if none were historical; none where memory is refused.
fn view_takes_history(alloc: Global, metrics: &[Metric]) -> Vec<Metric>
    ensures { (map metric_view result.items ≡ map current (map metric_view metrics.now))
        ⊎ (result.items ≡ []) }
{
    current(alloc, metrics).unwrap_or(Vec::new(alloc))
}

fn current(alloc: Global, metrics: &[Metric]) -> Result<Vec<Metric>, AllocError>
    ensures { IfOk result
        (λ ms. map metric_view ms.items ≡ map current (map metric_view metrics.now)) }
{
    let mut copies = Vec::with_capacity(alloc, metrics.len())?;
    for metric in metrics {
        let mut copy = metric.copy(alloc)?;
        copy.historical = None;
        copies.push(copy)?;
    }
    Ok(copies)
}

/// A node that wasn't born is shown as born, without metrics, unless memory is refused.
fn data_without_birth(alloc: Global, watch: &mut spk_view::Watch)
    ensures { (watch.new ≡ watch.old) ⊎ (watch.new.watch
        ≡ rules.step 0 watch.old.watch (Consumed (NodeBirth []) 0)) }
{
    if watch.view().is_some() {
        return;
    }
    let Ok(birth) = Ready::node_birth(alloc, &[]) else {
        return;
    };
    match watch.consume(0, birth, 0) {
        Ok(_asks) => {}
        Err(_birth) => {}
    }
}
