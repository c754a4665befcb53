//! A metric that is shown.
ghost use Rattle.std.specs.Prelude.{◌≡◌, true, Some, IfOk, string_bytes, ◌==◌};
ghost use Rattle.std.specs.Option.{option_map};
ghost use Rattle.std.specs.Str.{bytes_eq};
ghost use Rattle.spk_payload.specs.View.{content_of, metric_view};
ghost use Rattle.spk_payload.specs.declared.values.Values.TheVariants as choice;
ghost use Rattle.spk_host_rules.specs.Choice.{shown_by};
ghost use Rattle.spk_host_rules.specs.Table.{is_alias, released, row_of, shown_with};
ghost use Rattle.spk_host_rules.specs.View.{shown_view};
ghost use Rattle.spk_view.specs.Rebirth.{heading, heading_of, own_shown};

use spk_host_rules::{Shown, shown_value};
use spk_payload::{Metric, Raw, Values};
use std::alloc::{AllocError, Global};
use std::marker::Model;

/// A metric as its birth named it, and what is shown of it (Sparkplug 3.0.0, 6.4.6). Contracts see a `Row`.
#[derive(Debug, Drop)]
pub struct MetricView {
    name: String,
    alias: Option<u64>,
    datatype: Option<u32>,
    shown: Shown,
    /// What is lent in the place of a float or a double where whole values are asked for: no constant can be lent.
    other: Shown,
}

impl Model for MetricView {
    ghost use Rattle.std.specs.Prelude.{◌≡◌, string_bytes};
    ghost use Rattle.spk_host_rules.specs.Data.{Row, Other};
    ghost use Rattle.spk_host_rules.specs.View.{shown_view};

    ghost Value = { Row };

    ghost view = { λ a. record {
      name = string_bytes a.name;
      alias = a.alias;
      datatype = a.datatype;
      shown = shown_view a.shown;
    } };

    ghost invariant = { λ a. shown_view a.other ≡ Other };
}

/// A copy of a value, if there is one.
pub(crate) fn copied_value(alloc: Global, value: &Option<Raw>) -> Result<Option<Raw>, AllocError>
    ensures { IfOk result (λ v. option_map content_of v ≡ option_map content_of value.now) }
{
    match value {
        Some(raw) => Ok(Some(raw.copy(alloc)?)),
        None => Ok(None),
    }
}

/// What a metric of a birth shows.
pub(crate) fn shown_in(alloc: Global, metric: &Metric) -> Result<Shown, AllocError>
    ensures { IfOk result (λ shown. shown_view shown ≡ own_shown (metric_view metric.now)) }
{
    let value = copied_value(alloc, &metric.value)?;
    Ok(shown_value(metric.datatype, metric.null, value))
}

impl MetricView {
    /// The metric's name.
    pub fn name(&self) -> &str
        ensures { result.now ≡ self.now.name }
    {
        self.name.as_str()
    }

    /// Its alias, unless a later metric of the birth took it.
    pub fn alias(&self) -> Option<u64>
        ensures { result ≡ self.now.alias }
    {
        self.alias
    }

    /// The number of its datatype (Sparkplug 3.0.0, 6.4.16), as its birth gave it.
    pub fn datatype(&self) -> Option<u32>
        ensures { result ≡ self.now.datatype }
    {
        self.datatype
    }

    /// What is shown of it, by whole values alone: a float or a double is `Shown::Other`.
    pub fn shown(&self) -> &Shown
        ensures { shown_view result.now ≡ shown_by choice.Whole self.now.shown }
    {
        self.shown_by(Values::Whole)
    }

    /// What is shown of it by a choice: as `shown` says with `Values::Whole`, and with `Values::All` floats and doubles as well.
    pub fn shown_by(&self, values: Values) -> &Shown
        ensures { shown_view result.now ≡ shown_by values self.now.shown }
    {
        if self.shown.is_asked(values) {
            &self.shown
        } else {
            &self.other
        }
    }

    /// A metric of a birth, under its name.
    pub(crate) fn born(
        alloc: Global,
        name: &String,
        metric: &Metric,
    ) -> Result<MetricView, AllocError>
        ensures { IfOk result
            (λ row. row ≡ row_of (string_bytes name.now) (metric_view metric.now)) }
    {
        let name = String::from_str(alloc, name.as_str())?;
        let shown = shown_in(alloc, metric)?;
        Ok(MetricView {
            name,
            alias: metric.alias,
            datatype: metric.datatype,
            shown,
            other: Shown::Other,
        })
    }

    /// Whether its name is this one.
    pub(crate) fn is_named(&self, name: &str) -> bool
        ensures { result ≡ bytes_eq name.now self.now.name }
    {
        name == self.name.as_str()
    }

    /// Whether it has this alias.
    pub(crate) fn has_alias(&self, alias: u64) -> bool
        ensures { result ≡ is_alias self.now.alias alias }
    {
        self.alias == Some(alias)
    }

    /// Whether a metric of a birth has its name and its alias.
    pub(crate) fn is_like(&self, metric: &Metric) -> bool
        ensures { result ≡ true → heading self.now ≡ heading_of (metric_view metric.now) }
    {
        match &metric.name {
            Some(name) => metric.alias == self.alias && self.is_named(name.as_str()),
            None => false,
        }
    }

    /// A birth with its name and its alias.
    pub(crate) fn bear(&mut self, datatype: Option<u32>, shown: Shown)
        ensures { self.new
            ≡ record self.old { datatype = datatype; shown = shown_view shown } }
    {
        self.datatype = datatype;
        self.shown = shown;
    }

    /// Another metric took this alias.
    pub(crate) fn release(&mut self, alias: u64)
        ensures { self.new ≡ released (Some alias) self.old }
    {
        if self.has_alias(alias) {
            self.alias = None;
        }
    }

    /// A value of data, by the datatype of the birth.
    pub(crate) fn show(&mut self, null: Option<bool>, value: Option<Raw>)
        ensures { self.new ≡ record self.old {
          shown = shown_with self.old.datatype null (option_map content_of value);
        } }
    {
        self.shown = shown_value(self.datatype, null, value);
    }
}
