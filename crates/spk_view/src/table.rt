//! The metrics of a node's own or of a device, found by name and by alias.
ghost use Rattle.std.specs.Prelude.{◌≡◌, ◌⊎◌, ℕ, [], map, count_by, IfOk, OnOk, OnErr, true, Some, None, is_some, not, ◌&&◌, ◌||◌, false, string_bytes, slice_get, set, if◌then◌else◌};
ghost use Rattle.std.specs.List.{find, list_any};
ghost use Rattle.std.specs.Option.{option_map, option_copied};
ghost use Rattle.std.specs.Str.{bytes_eq};
ghost use Rattle.spk_payload.specs.View.{content_of, metric_view};
ghost use Rattle.spk_host_rules.specs.Data.{Row};
ghost use Rattle.spk_host_rules.specs.Step.{show, show_all};
ghost use Rattle.spk_host_rules.specs.Table.{changes, is_alias, is_lacking, is_name, is_set, lacks, name_by, name_of, placed, released, shown_with, table_of, with_metric};
ghost use Rattle.spk_view.specs.Plain.{texts_in};
ghost use Rattle.spk_view.specs.Prepared.{meaning};
ghost use Rattle.spk_view.specs.Keyed.{key_of_name, key_of_row};
ghost use Rattle.spk_view.specs.Indexed.{place_in, IsAliased, IsApart, IsIndexed, IsNamed, IsPlaceOf};

use crate::aliases::Aliases;
use crate::keys::{Keys, key_of_name};
use crate::metric::MetricView;
use crate::plain::next_value;
use crate::rebirth::{all_shown, are_alike, bear_all};
use spk_payload::{Metric, Raw};
use std::alloc::{AllocError, Global};
use std::fmt;
use std::marker::Model;

/// The metrics of an owner in the order of its birth (Sparkplug 3.0.0, 6.4.5). Contracts see the list of rows.
#[derive(Drop)]
pub(crate) struct Table {
    rows: Vec<MetricView>,
    /// The key of each row's name, by which it is found.
    names: Keys,
    /// The place of each row that has an alias, by alias.
    aliases: Aliases,
}

impl Model for Table {
    ghost use Rattle.std.specs.Prelude.{List};
    ghost use Rattle.spk_host_rules.specs.Data.{Row};
    ghost use Rattle.spk_view.specs.Indexed.{IsIndexed};

    ghost Value = { List Row };

    ghost view = { λ a. a.rows.items };

    ghost invariant = { λ a. IsIndexed a.rows.items a.names.keys a.aliases };
}

impl fmt::Debug for Table {
    fn fmt<W: fmt::Write>(&self, f: &mut fmt::Formatter<W>) -> fmt::Result {
        self.rows.fmt(f)
    }
}

/// Takes an alias away from the row that has it.
fn release(rows: &mut Vec<MetricView>, aliases: &Aliases, alias: Option<u64>)
    requires { IsAliased rows.old.items aliases.now }
    ensures { rows.new.items ≡ map (released alias) rows.old.items }
{
    let Some(alias) = alias else {
        return;
    };
    let Some(place) = aliases.find(alias) else {
        return;
    };
    if place < rows.len() {
        rows[place].release(alias);
    }
}

/// The place of the row of a name, which has this key.
fn place_named(rows: &Vec<MetricView>, names: &Keys, name: &str, key: u64) -> Option<usize>
    requires key { key ≡ key_of_name name.now }
    requires keyed { map key_of_row rows.now.items ≡ names.now.keys }
    ensures { IsPlaceOf (λ r. bytes_eq name.now r.name) rows.now.items result }
{
    let mut found = names.last(key);
    while let Some(place) = found {
        if rows[place].is_named(name) {
            return Some(place);
        }
        found = names.before(place);
    }
    None
}

/// Puts a row at the place of the row of its name, or else last, and answers its place.
fn place(rows: &mut Vec<MetricView>, names: &mut Keys, row: MetricView) -> Result<usize, AllocError>
    requires { IsNamed rows.old.items names.old.keys }
    ensures rows { OnOk result (rows.new.items ≡ placed row rows.old.items) }
    ensures named { OnOk result (IsNamed rows.new.items names.new.keys) }
    ensures others { IfOk result (λ place. (k : ℕ) (r : Row) → slice_get rows.new.items k ≡ Some r
        → ((k ≡ place) × (r ≡ row)) ⊎ (slice_get rows.old.items k ≡ Some r)) }
{
    let key = key_of_name(row.name());
    match place_named(rows, names, row.name(), key) {
        Some(place) => {
            rows[place] = row;
            Ok(place)
        }
        None => {
            let place = rows.len();
            rows.reserve(1)?;
            names.push(key)?;
            rows.push_reserved(row);
            Ok(place)
        }
    }
}

/// One more metric of a birth. One without a name counts nowhere.
fn put(
    alloc: Global,
    rows: &mut Vec<MetricView>,
    names: &mut Keys,
    aliases: &mut Aliases,
    metric: &Metric,
) -> Result<(), AllocError>
    requires { IsIndexed rows.old.items names.old.keys aliases.old }
    ensures rows { OnOk result
        (rows.new.items ≡ with_metric rows.old.items (metric_view metric.now)) }
    ensures indexed { OnOk result (IsIndexed rows.new.items names.new.keys aliases.new) }
{
    let Some(name) = &metric.name else {
        return Ok(());
    };
    let row = MetricView::born(alloc, name, metric)?;
    release(rows, aliases, metric.alias);
    let place = place(rows, names, row)?;
    aliases.enter(metric.alias, place)?;
    Ok(())
}

/// How many metrics have a name.
fn names_in(metrics: &[Metric]) -> usize
    ensures { result ≡ count_by (λ m. is_some m.name) metrics.now }
{
    let mut count = 0;
    for metric in metrics {
        if metric.name.is_some() {
            count += 1;
        }
    }
    count
}

/// How many metrics have a name and an alias.
fn aliases_in(metrics: &[Metric]) -> usize
    ensures { result ≡ count_by (λ m. is_some m.name && is_some m.alias) metrics.now }
{
    let mut count = 0;
    for metric in metrics {
        if metric.name.is_some() && metric.alias.is_some() {
            count += 1;
        }
    }
    count
}

impl Table {
    /// No metrics. Takes no memory.
    pub(crate) fn new(alloc: Global) -> Table
        ensures { result ≡ [] }
    {
        Table {
            rows: Vec::new(alloc),
            names: Keys::new(alloc),
            aliases: Aliases::new(alloc),
        }
    }

    /// The metrics of a birth.
    pub(crate) fn born(alloc: Global, metrics: &[Metric]) -> Result<Table, AllocError>
        ensures { IfOk result (λ table. table ≡ table_of (map metric_view metrics.now)) }
    {
        let count = names_in(metrics);
        let mut rows = Vec::with_capacity(alloc, count)?;
        let mut names = Keys::with_room(alloc, count)?;
        let mut aliases = Aliases::with_room(alloc, aliases_in(metrics))?;
        for metric in metrics {
            put(alloc, &mut rows, &mut names, &mut aliases, metric)?;
        }
        Ok(Table {
            rows,
            names,
            aliases,
        })
    }

    /// The metrics of a birth that has the names and the aliases of these rows, in order: the rows stay, with what leads to them, and
    /// what they show is set. Answers whether it has them, and the rows have no room for more than twice as many: what the birth before
    /// left over is freed with its table. Where it hasn't, or memory is refused, nothing has changed.
    pub(crate) fn bear(&mut self, alloc: Global, metrics: &[Metric]) -> Result<bool, AllocError>
        ensures born { IfOk result
            (λ is. is ≡ true → self.new ≡ table_of (map metric_view metrics.now)) }
        ensures other { IfOk result (λ is. is ≡ false → self.new ≡ self.old) }
        ensures unchanged { OnErr result (self.new ≡ self.old) }
    {
        if self.rows.capacity().saturating_sub(metrics.len()) > metrics.len() {
            return Ok(false);
        }
        if !are_alike(&self.rows, metrics) {
            return Ok(false);
        }
        let all = all_shown(alloc, metrics)?;
        bear_all(&mut self.rows, metrics, all);
        Ok(true)
    }

    /// The metrics, in the order of the birth.
    pub(crate) fn rows(&self) -> &[MetricView]
        ensures { result.now ≡ self.now }
    {
        &self.rows
    }

    /// The metric of a name.
    pub(crate) fn find(&self, name: &str) -> Option<&MetricView>
        ensures { option_copied result ≡ find (λ r. bytes_eq name.now r.name) self.now }
    {
        let place = self.place_of_name(name)?;
        self.rows.get(place)
    }

    /// The metric that a metric of data means.
    pub(crate) fn meant_by(&self, metric: &Metric) -> Option<&MetricView>
        ensures { option_copied result
            ≡ find (λ r. is_name (meaning self.now (metric_view metric.now)) r.name) self.now }
    {
        let place = self.place_of(metric.alias, &metric.name)?;
        self.rows.get(place)
    }

    /// The place of the metric of a name.
    fn place_of_name(&self, name: &str) -> Option<usize>
        ensures place { IsPlaceOf (λ r. bytes_eq name.now r.name) self.now result }
        ensures apart { IsApart name_of self.now }
    {
        place_named(&self.rows, &self.names, name, key_of_name(name))
    }

    /// The place of the metric of an alias.
    fn place_of_alias(&self, alias: u64) -> Option<usize>
        ensures { IsPlaceOf (λ r. is_alias r.alias alias) self.now result }
    {
        let place = self.aliases.find(alias)?;
        let row = self.rows.get(place)?;
        if row.has_alias(alias) {
            Some(place)
        } else {
            None
        }
    }

    /// The place of the metric that an alias or, without one, a name means.
    fn place_of(&self, alias: Option<u64>, name: &Option<String>) -> Option<usize>
        ensures place { IsPlaceOf
            (λ r. is_name (name_by self.now alias (option_map string_bytes name.now)) r.name)
            self.now result }
        ensures apart { IsApart name_of self.now }
    {
        match (alias, name) {
            (Some(alias), _) => self.place_of_alias(alias),
            (None, Some(name)) => {
                let name = name.as_str();
                place_named(&self.rows, &self.names, name, key_of_name(name))
            }
            (None, None) => None,
        }
    }

    /// Whether no row has an alias.
    fn lacks(&self, alias: Option<u64>) -> bool
        ensures { result ≡ lacks self.now alias }
    {
        match alias {
            Some(alias) => self.place_of_alias(alias).is_none(),
            None => false,
        }
    }

    /// Whether a metric names an alias that no row has.
    pub(crate) fn is_lacking(&self, metrics: &[Metric]) -> bool
        ensures { result ≡ is_lacking self.now (map metric_view metrics.now) }
    {
        for metric in metrics {
            if self.lacks(metric.alias) {
                return true;
            }
        }
        false
    }

    /// The place of the row that a metric of data changes.
    fn place_changed(&self, metric: &Metric) -> Option<usize>
        ensures place { IsPlaceOf (λ r. changes self.now r.name (metric_view metric.now)) self.now
            result }
        ensures apart { IsApart name_of self.now }
    {
        let place = self.place_of(metric.alias, &metric.name);
        if metric.historical == Some(true) {
            None
        } else {
            place
        }
    }

    /// A value is shown at a place, if there is one.
    fn show_at(&mut self, place: Option<usize>, null: Option<bool>, value: Option<Raw>)
        ensures none { place ≡ None → self.new ≡ self.old }
        ensures there { (k : ℕ) (r : Row) → place ≡ Some k → slice_get self.old k ≡ Some r
            → self.new ≡ set self.old k
            (record r { shown = shown_with r.datatype null (option_map content_of value) }) }
    {
        if let Some(place) = place
            && place < self.rows.len()
        {
            self.rows[place].show(null, value);
        }
    }

    /// A metric of data is shown, unless it is historical.
    fn show(&mut self, metric: Metric)
        ensures { self.new ≡ show (metric_view metric) self.old }
    {
        let place = self.place_changed(&metric);
        self.show_at(place, metric.null, metric.value);
    }

    /// The metrics of data are shown, in turn.
    pub(crate) fn show_all(&mut self, metrics: Vec<Metric>)
        ensures { self.new ≡ show_all (map metric_view metrics.items) self.old }
    {
        for metric in metrics {
            self.show(metric);
        }
    }

    /// A metric of data is shown with this value, its own, unless it is historical. Answers whether it names an alias that no row has.
    fn show_one(&mut self, metric: &Metric, value: Option<Raw>) -> bool
        requires { option_map content_of value ≡ (metric_view metric.now).value }
        ensures lacks { result ≡ lacks self.old metric.now.alias }
        ensures rows { self.new ≡ show (metric_view metric.now) self.old }
    {
        let place = self.place_of(metric.alias, &metric.name);
        let changed = unless_historical(metric, place);
        self.show_at(changed, metric.null, value);
        is_lost(metric.alias, place)
    }

    /// The metrics of data are shown, in turn, with these texts and bytes, their own. Answers whether any names an alias that no row has.
    pub(crate) fn show_each(&mut self, metrics: &[Metric], texts: &mut [Option<Raw>]) -> bool
        requires { map (option_map content_of) texts.old ≡ texts_in (map metric_view metrics.now) }
        ensures lacking { result ≡ is_lacking self.old (map metric_view metrics.now) }
        ensures rows { self.new ≡ show_all (map metric_view metrics.now) self.old }
    {
        let mut is_any_lost = false;
        let mut place = 0;
        for metric in metrics {
            let (value, next) = next_value(&metric.value, texts, place);
            place = next;
            is_any_lost = either(is_any_lost, self.show_one(metric, value));
        }
        is_any_lost
    }
}

/// The place that a metric of data changes, of that which it means.
fn unless_historical(metric: &Metric, place: Option<usize>) -> Option<usize>
    ensures { result ≡ (if is_set metric.now.historical then None else place) }
{
    if metric.historical == Some(true) {
        None
    } else {
        place
    }
}

/// Whether an alias is there and leads nowhere.
fn is_lost(alias: Option<u64>, place: Option<usize>) -> bool
    ensures { result ≡ (is_some alias && not (is_some place)) }
{
    alias.is_some() && place.is_none()
}

fn either(one: bool, other: bool) -> bool
    ensures { result ≡ (one || other) }
{
    one || other
}
