//! A birth with the names and the aliases of the one before it: the rows stay, and what they show is set.
ghost use Rattle.std.specs.Prelude.{◌≡◌, true, map, IfOk};
ghost use Rattle.std.specs.List.{zip};
ghost use Rattle.spk_payload.specs.View.{metric_view};
ghost use Rattle.spk_host_rules.specs.View.{shown_view};
ghost use Rattle.spk_view.specs.Rebirth.{AreAlike, own_shown, renewed};

use crate::metric::{MetricView, shown_in};
use spk_host_rules::Shown;
use spk_payload::Metric;
use std::alloc::{AllocError, Global};

/// Whether the metrics of a birth have the names and the aliases of the rows, in order.
pub(crate) fn are_alike(rows: &[MetricView], metrics: &[Metric]) -> bool
    ensures { result ≡ true → AreAlike rows.now (map metric_view metrics.now) }
{
    if rows.len() != metrics.len() {
        return false;
    }
    for (place, metric) in metrics.iter().enumerate() {
        if !rows[place].is_like(metric) {
            return false;
        }
    }
    true
}

/// What the metrics of a birth show.
pub(crate) fn all_shown(alloc: Global, metrics: &[Metric]) -> Result<Vec<Shown>, AllocError>
    ensures { IfOk result (λ all.
        map shown_view all.items ≡ map own_shown (map metric_view metrics.now)) }
{
    let mut all = Vec::with_capacity(alloc, metrics.len())?;
    for metric in metrics {
        all.push(shown_in(alloc, metric)?)?;
    }
    Ok(all)
}

/// The rows are born anew by metrics of their names and aliases, which show this.
pub(crate) fn bear_all(rows: &mut Vec<MetricView>, metrics: &[Metric], all: Vec<Shown>)
    requires alike { AreAlike rows.old.items (map metric_view metrics.now) }
    requires shown { map shown_view all.items ≡ map own_shown (map metric_view metrics.now) }
    ensures { rows.new.items ≡ map renewed (zip rows.old.items (map metric_view metrics.now)) }
{
    let mut place = 0;
    for shown in all {
        rows[place].bear(metrics[place].datatype, shown);
        place += 1;
    }
}
