//! Which filters another one covers.
ghost use Rattle.std.specs.Prelude.{◌≡◌, false};
ghost use Rattle.std.specs.Option.{option_map};
ghost use Rattle.spk_topics.specs.Fitting.{begins_with_dollar, is_barred};
ghost use Rattle.spk_topics.specs.Levels.{is_empty, levels, levels_left};
ghost use Rattle.spk_access.specs.Covering.{covers, covers_level, covers_levels, is_rest};

use crate::levels::cut;

/// Whether a text begins with `$`.
fn begins_with_dollar(text: &str) -> bool
    ensures { result ≡ begins_with_dollar text.now }
{
    text.starts_with('$')
}

/// Whether a filter starts with a wildcard and another one begins with `$`.
fn is_barred(wide: &str, filter: &str) -> bool
    ensures { result ≡ is_barred wide.now filter.now }
{
    if !begins_with_dollar(filter) {
        return false;
    }
    let (first, _) = cut(wide);
    first == "+" || first == "#"
}

/// Whether this is `#`, with nothing behind.
fn is_rest(level: &str, behind: Option<&str>) -> bool
    ensures { result
        ≡ is_rest level.now (levels_left (option_map (λ rest. rest.now) behind.entry)) }
{
    level == "#" && behind.is_none()
}

/// Whether a level covers another one.
fn covers_level(level: &str, name: &str) -> bool
    ensures { result ≡ covers_level level.now name.now }
{
    level == "+" || level == name
}

/// Whether the levels of a filter cover those of another one.
fn covers_levels(wide: &str, filter: &str) -> bool
    ensures { result ≡ covers_levels (levels wide.now) (levels filter.now) }
{
    let mut wide_left = Some(wide);
    let mut filter_left = Some(filter);
    while let Some(wide) = wide_left {
        let (level, wide_rest) = cut(wide);
        if is_rest(level, wide_rest) {
            return true;
        }
        let Some(filter) = filter_left else {
            return false;
        };
        let (name, filter_rest) = cut(filter);
        if is_rest(name, filter_rest) || !covers_level(level, name) {
            return false;
        }
        wide_left = wide_rest;
        filter_left = filter_rest;
    }
    filter_left.is_none()
}

/// Whether a filter covers another one, so that it matches each topic name which that one matches (`laws::covering`; section 4.7). It takes no memory.
pub fn covers(wide: &str, filter: &str) -> bool
    ensures { result ≡ covers wide.now filter.now }
{
    !is_barred(wide, filter) && covers_levels(wide, filter)
}
