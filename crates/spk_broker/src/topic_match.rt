//! Whether a filter matches a topic, told by their bytes.
ghost use Rattle.std.specs.Prelude.{ℕ, ◌≡◌, ◌≤◌, ◌<◌, ◌∷◌, [], List, IfSome, drop, length, false, true};
ghost use Rattle.spk_topics.specs.Fitting.{fits, is_barred, is_match};
ghost use Rattle.spk_topics.specs.Levels.{levels};
ghost use Rattle.spk_topics.specs.Text.{is_plain};
ghost use Rattle.spk_broker.specs.Fronts.{begin_alike, begins_any, fits_from, fits_within, is_alike, is_start};

use spk_topics::matches_text;

/// Whether a byte of a filter is that of the topic, and no wildcard.
fn is_alike(one: u8, other: u8) -> bool
    ensures { result ≡ is_alike one other }
{
    one == other && one != b'+' && one != b'#'
}

/// How many bytes both begin with, before the filter's first wildcard, where it is known whether a level begins there.
fn front(start: bool, filter: &[u8], topic: &[u8]) -> usize
    ensures filter { result ≤ length filter.now }
    ensures topic { result ≤ length topic.now }
    ensures rest { fits_from start filter.now topic.now
        ≡ fits_from (is_start start result filter.now) (drop result filter.now)
        (drop result topic.now) }
    ensures unbarred { 0 < result → is_barred filter.now topic.now ≡ false }
    ensures parted { begin_alike (drop result filter.now) (drop result topic.now) ≡ false }
{
    let most = filter.len().min(topic.len());
    for at in 0..most {
        if !is_alike(filter[at], topic[at]) {
            return at;
        }
    }
    most
}

/// Whether a level begins that is `+`.
fn begins_any(filter: &[u8]) -> bool
    ensures { result ≡ begins_any filter.now }
{
    match filter {
        [b'+'] => true,
        [b'+', b'/', ..] => true,
        _ => false,
    }
}

/// Where a level ends, which any text fits.
fn level_end(topic: &[u8]) -> usize
    ensures within { result ≤ length topic.now }
    ensures passed { (filter : List (List ℕ)) → fits ((43 ∷ []) ∷ filter) (levels topic.now)
        ≡ fits_within ([] ∷ filter) (levels (drop result topic.now)) }
{
    for at in 0..topic.len() {
        if topic[at] == b'/' {
            return at;
        }
    }
    topic.len()
}

/// Whether a level begins behind so many bytes, where it is known whether one begins at the first.
fn is_start(start: bool, same: usize, text: &[u8]) -> bool
    requires { same ≤ length text.now }
    ensures { result ≡ is_start start same text.now }
{
    if same == 0 {
        return start;
    }
    text[same - 1] == b'/'
}

/// Where both part, and whether a level begins there.
fn past_front<'a, 'b>(start: bool, filter: &'a [u8], topic: &'b [u8]) -> (&'a [u8], &'b [u8], bool)
    ensures rest { fits_from start filter.now topic.now
        ≡ fits_from result.2 result.0.now result.1.now }
    ensures no_longer { length result.0.now ≤ length filter.now }
    ensures unbarred { length result.0.now < length filter.now
        → is_barred filter.now topic.now ≡ false }
    ensures parted { begin_alike result.0.now result.1.now ≡ false }
{
    let same = front(start, filter, topic);
    let starts = is_start(start, same, filter);
    (&filter[same..], &topic[same..], starts)
}

/// Where both part behind a level that is `+`, and whether a level begins there.
fn behind_any<'a, 'b>(filter: &'a [u8], topic: &'b [u8]) -> (&'a [u8], &'b [u8], bool)
    requires { begins_any filter.now ≡ true }
    ensures rest { fits_from true filter.now topic.now
        ≡ fits_from result.2 result.0.now result.1.now }
    ensures shorter { length result.0.now < length filter.now }
    ensures parted { begin_alike result.0.now result.1.now ≡ false }
{
    let end = level_end(topic);
    past_front(false, &filter[1..], &topic[end..])
}

/// Whether what is left of a filter fits what is left of a topic, from where they part; none where that isn't known.
fn fits_rest(is_start: bool, filter: &[u8], topic: &[u8]) -> Option<bool>
    requires { begin_alike filter.now topic.now ≡ false }
    ensures { IfSome result (λ b. b ≡ fits_from is_start filter.now topic.now) }
{
    match filter {
        [] => Some(topic.is_empty()),
        [b'#'] if is_start => Some(true),
        [b'+', ..] => None,
        [b'#', ..] => None,
        [b'/', b'#'] if topic.is_empty() => Some(true),
        [b'/', ..] if topic.is_empty() => None,
        _ => Some(false),
    }
}

/// Whether a filter matches a topic; none where their fronts don't tell.
fn told(filter: &[u8], topic: &[u8]) -> Option<bool>
    ensures { IfSome result (λ b. b ≡ is_match filter.now topic.now) }
{
    let (mut left, mut name, mut starts) = past_front(true, filter, topic);
    if left.len() == filter.len() {
        return None;
    }
    while starts && begins_any(left) {
        (left, name, starts) = behind_any(left, name);
    }
    fits_rest(starts, left, name)
}

/// Whether a filter matches a topic. Mostly their bytes tell, up to where they part.
pub(crate) fn is_match(filter: &str, topic: &str) -> bool
    ensures { result ≡ is_match filter.now topic.now }
{
    match told(filter.as_bytes(), topic.as_bytes()) {
        Some(is_match) => is_match,
        None => matches_text(filter, topic),
    }
}

/// Whether no wildcard stands in a filter: then it matches itself alone.
pub(crate) fn is_plain(filter: &str) -> bool
    ensures { result ≡ is_plain filter.now }
{
    let bytes = filter.as_bytes();
    !bytes.contains(&b'+') && !bytes.contains(&b'#')
}
