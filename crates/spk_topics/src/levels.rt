//! The levels of a text, one after the other.
ghost use Rattle.std.specs.Prelude.{◌≡◌, ◌==◌, ◌≢◌, ◌∷◌, ◌++◌, ◌<◌, ◌≤◌, [], List, ℕ, length, IfSome, is_none};
ghost use Rattle.std.specs.List.{position_or_len};
ghost use Rattle.std.specs.Option.{option_map};
ghost use Rattle.spk_topics.specs.Levels.{IsParted, is_empty, left_size, levels, levels_left};

/// The first level of a text, and what follows its slash, if there is one.
#[inline(always)]
pub(crate) fn cut(text: &str) -> (&str, Option<&str>)
    ensures levels { levels text.now
        ≡ result.0.now ∷ levels_left (option_map (λ rest. rest.now) result.1) }
    ensures last { is_none result.1
        ≡ is_empty (levels_left (option_map (λ rest. rest.now) result.1)) }
    ensures shorter { IfSome result.1 (λ rest. length rest.now < length text.now) }
{
    let end = end_of_level(text);
    if end == text.len() {
        return (text, None);
    }
    (&text[..end], Some(&text[end + 1..]))
}

/// The place of the first slash, or the text's length. A loop over bytes takes a third of the time of a search for a character.
fn end_of_level(text: &str) -> usize
    ensures first { result ≡ position_or_len (λ b. b == 47) text.now }
    ensures within { result ≤ length text.now }
{
    let bytes = text.as_bytes();
    let mut end = 0;
    while end < bytes.len() && bytes[end] != b'/' {
        end += 1;
    }
    end
}

/// What is left of two texts without the levels with which both begin.
pub(crate) fn part<'a, 'b>(
    one: Option<&'a str>,
    other: Option<&'b str>,
) -> (Option<&'a str>, Option<&'b str>)
    ensures parted { IsParted (levels_left (option_map (λ text. text.now) one.entry))
        (levels_left (option_map (λ text. text.now) other.entry))
        (levels_left (option_map (λ text. text.now) result.0))
        (levels_left (option_map (λ text. text.now) result.1)) }
    ensures no_longer { left_size (option_map (λ text. text.now) result.1)
        ≤ left_size (option_map (λ text. text.now) other.entry) }
{
    let mut one = one;
    let mut other = other;
    while let Some(text) = one {
        let Some(beside) = other else {
            return (one, other);
        };
        let (level, rest) = cut(text);
        let (name, beside_rest) = cut(beside);
        if level != name {
            return (one, other);
        }
        one = rest;
        other = beside_rest;
    }
    (one, other)
}

/// The levels of a text before those that are left.
pub(crate) fn before<'a>(text: &'a str, left: Option<&str>) -> &'a str
    requires { (front : List (List ℕ)) × (front ≢ [])
        × (levels text.now ≡ front ++ levels_left (option_map (λ rest. rest.now) left)) }
    ensures { levels text.now
        ≡ levels result.now ++ levels_left (option_map (λ rest. rest.now) left.entry) }
{
    match left {
        Some(left) => &text[..text.len() - left.len() - 1],
        None => text,
    }
}
