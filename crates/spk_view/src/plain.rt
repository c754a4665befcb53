//! Texts and bytes among values: to copy any other value takes no memory.
ghost use Rattle.std.specs.Prelude.{◌≡◌, ◌++◌, List, Option, IfOk, OnOk, false, map, drop};
ghost use Rattle.std.specs.Option.{option_map};
ghost use Rattle.spk_payload.specs.Meaning.{Content, has_text_or_bytes, is_text_or_bytes};
ghost use Rattle.spk_payload.specs.View.{content_of, metric_view};
ghost use Rattle.spk_view.specs.Plain.{has_texts, text_in, texts_in};

use crate::metric::copied_value;
use spk_payload::{Metric, Raw};
use std::alloc::{AllocError, Global};

/// Whether a value is a text or bytes.
fn is_text(value: &Option<Raw>) -> bool
    ensures { result ≡ has_text_or_bytes (option_map content_of value.now) }
{
    match value {
        Some(Raw::Words(_)) | Some(Raw::Octets(_)) => true,
        _ => false,
    }
}

/// Whether the value of any metric is a text or bytes.
pub fn has_texts(metrics: &[Metric]) -> bool
    ensures { result ≡ has_texts (map metric_view metrics.now) }
{
    for metric in metrics {
        if is_text(&metric.value) {
            return true;
        }
    }
    false
}

/// The same value, which is no text and no bytes.
fn same_raw(raw: &Raw) -> Raw
    requires { is_text_or_bytes (content_of raw.now) ≡ false }
    ensures { content_of result ≡ content_of raw.now }
{
    match raw {
        Raw::Int(number) => Raw::Int(*number),
        Raw::Long(number) => Raw::Long(*number),
        Raw::Flag(flag) => Raw::Flag(*flag),
        Raw::Float(bits) => Raw::Float(*bits),
        Raw::Double(bits) => Raw::Double(*bits),
        Raw::Words(_) | Raw::Octets(_) | Raw::Other => Raw::Other,
    }
}

/// The same value, if there is one, which is no text and no bytes.
pub(crate) fn same_value(value: &Option<Raw>) -> Option<Raw>
    requires { has_text_or_bytes (option_map content_of value.now) ≡ false }
    ensures { option_map content_of result ≡ option_map content_of value.now }
{
    match value {
        Some(raw) => Some(same_raw(raw)),
        None => None,
    }
}

/// A value, if it is a text or bytes, behind others.
fn put_text(
    alloc: Global,
    texts: &mut Vec<Option<Raw>>,
    value: &Option<Raw>,
) -> Result<(), AllocError>
    ensures { OnOk result (map (option_map content_of) texts.new.items
        ≡ map (option_map content_of) texts.old.items
        ++ text_in (option_map content_of value.now)) }
{
    if is_text(value) {
        texts.push(copied_value(alloc, value)?)?;
    }
    Ok(())
}

/// The texts and bytes among the values of metrics, copied, in order.
pub(crate) fn texts_of(alloc: Global, metrics: &[Metric]) -> Result<Vec<Option<Raw>>, AllocError>
    ensures { IfOk result (λ texts. map (option_map content_of) texts.items
        ≡ texts_in (map metric_view metrics.now)) }
{
    let mut texts = Vec::new(alloc);
    for metric in metrics {
        put_text(alloc, &mut texts, &metric.value)?;
    }
    Ok(texts)
}

/// The same value, where it is a text or bytes that one of these, and from which place on those of later ones stand.
pub(crate) fn next_value(
    value: &Option<Raw>,
    texts: &mut [Option<Raw>],
    place: usize,
) -> (Option<Raw>, usize)
    requires { (later : List (Option Content))
        × (map (option_map content_of) (drop place texts.old)
        ≡ text_in (option_map content_of value.now) ++ later) }
    ensures value { option_map content_of result.0 ≡ option_map content_of value.now }
    ensures later { (later : List (Option Content))
        → map (option_map content_of) (drop place texts.old)
        ≡ text_in (option_map content_of value.now) ++ later
        → map (option_map content_of) (drop result.1 texts.new) ≡ later }
{
    if !is_text(value) {
        return (same_value(value), place);
    }
    (texts[place].take(), place + 1)
}
