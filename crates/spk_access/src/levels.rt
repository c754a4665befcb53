//! The levels of a text, one after the other.
ghost use Rattle.std.specs.Prelude.{◌≡◌, ◌∷◌, ◌<◌, length, IfSome};
ghost use Rattle.std.specs.Option.{option_map};
ghost use Rattle.spk_topics.specs.Levels.{levels, levels_left};

/// The first level of a text, and what follows its slash, if there is one.
pub(crate) fn cut(text: &str) -> (&str, Option<&str>)
    ensures levels { levels text.now
        ≡ result.0.now ∷ levels_left (option_map (λ rest. rest.now) result.1) }
    ensures shorter { IfSome result.1 (λ rest. length rest.now < length text.now) }
{
    match text.split_once('/') {
        Some((level, rest)) => (level, Some(rest)),
        None => (text, None),
    }
}
