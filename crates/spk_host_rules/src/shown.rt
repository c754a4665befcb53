//! What a host shows of a metric's value.

ghost use Rattle.std.specs.Prelude.{◌≡◌, None, Some, option_map};
ghost use Rattle.spk_payload.specs.View.{content_of};
ghost use Rattle.spk_host_rules.specs.Choice.{is_asked};
ghost use Rattle.spk_host_rules.specs.Table.{shown_with};
ghost use Rattle.spk_host_rules.specs.View.{shown_view};

use spk_payload::{Raw, Value, Values, typed};

/// What is shown of a metric's value.
#[derive(Debug, Drop, PartialEq)]
pub enum Shown {
    /// The metric is null, or has no value.
    Nothing,
    /// Its value, by its birth's datatype.
    Typed(Value),
    /// A value that its birth's datatype doesn't read.
    Other,
}

impl Shown {
    /// Whether it is shown where these values are asked for: by `Values::Whole` all but a float or a double (own rule).
    pub fn is_asked(&self, values: Values) -> bool
        ensures { result ≡ is_asked values (shown_view self.now) }
    {
        match (values, self) {
            (Values::Whole, Shown::Typed(Value::Float(_) | Value::Double(_))) => false,
            _ => true,
        }
    }
}

fn shown_raw(datatype: u32, raw: Raw) -> Shown
    ensures { shown_view result ≡ shown_with (Some datatype) None (Some (content_of raw)) }
{
    match typed(datatype, raw) {
        Ok(value) => Shown::Typed(value),
        Err(_raw) => Shown::Other,
    }
}

/// What is shown of a metric's value by its birth's datatype (Sparkplug 3.0.0, 6.4.16). Takes no memory.
///
/// Of a metric that is null the value isn't looked at.
pub fn shown_value(datatype: Option<u32>, null: Option<bool>, value: Option<Raw>) -> Shown
    ensures { shown_view result ≡ shown_with datatype null (option_map content_of value) }
{
    match (null, value, datatype) {
        (Some(true), _, _) => Shown::Nothing,
        (_, None, _) => Shown::Nothing,
        (_, Some(raw), Some(datatype)) => shown_raw(datatype, raw),
        (_, Some(_), None) => Shown::Other,
    }
}
