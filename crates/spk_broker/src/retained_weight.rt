//! What the retained messages weigh that a SUBSCRIBE would be given, up to the first weight that is too much (own rule).
ghost use Rattle.std.specs.Prelude.{ℕ, ◌≡◌, ◌≤◌, ◌∷◌, [], map, slice_get, string_bytes, true};
ghost use Rattle.std.specs.List.{flat_map};
ghost use Rattle.spk_topics.specs.Text.{is_plain};
ghost use Rattle.spk_broker_rules.specs.Words.{is_heavy, offers_to};
ghost use Rattle.spk_broker.specs.Offering.{offers_at, retained_at};
ghost use Rattle.spk_broker.specs.Parts.{grant_view, retained_view, stored_view};
ghost use Rattle.spk_broker.specs.Weighing.{beyond, heaped};

use crate::retained_delivery::place_on;
use crate::session::Grant;
use crate::state::Stored;
use crate::topic_match::{is_match, is_plain};
use indexmap::IndexMap;

/// One more than the most that the entries of one SUBSCRIBE are given, 64 MB: a weight stays there.
const BEYOND: usize = 67_108_865;

/// The bytes that a PUBLISH takes beside its topic and its payload, at most (section 3.3).
const AROUND: usize = 9;

/// A weight with a retained message more.
fn with_message(weight: usize, topic: &String, stored: &Stored) -> usize
    requires { weight ≤ beyond }
    ensures { (qos : ℕ) → result
        ≡ heaped weight (retained_at qos (string_bytes topic.now) (stored_view stored.now) ∷ []) }
{
    let topic = topic.len().min(BEYOND);
    let payload = stored.payload.len().min(BEYOND);
    (weight + topic + payload + AROUND).min(BEYOND)
}

/// A weight with what a retained message offers to a grant; one that is too much is not looked at.
fn with_one(weight: usize, topic: &String, stored: &Stored, grant: &Grant) -> usize
    requires { weight ≤ beyond }
    ensures { result ≡ heaped weight
        (offers_to ((string_bytes topic.now, stored_view stored.now) ∷ []) (grant_view grant.now)) }
{
    if weight == BEYOND {
        return weight;
    }
    if !is_match(grant.filter.as_str(), topic.as_str()) {
        return weight;
    }
    with_message(weight, topic, stored)
}

/// A weight with what the retained message at a place offers to a grant.
fn with_place(
    weight: usize,
    retained: &IndexMap<String, Stored>,
    place: usize,
    grant: &Grant,
) -> usize
    requires { weight ≤ beyond }
    ensures { result ≡ heaped weight
        (offers_at (slice_get (map retained_view retained.now.entries) place) (grant_view grant.now)) }
{
    match retained.get_index(place) {
        Some((topic, stored)) => with_one(weight, topic, stored, grant),
        None => weight,
    }
}

/// A weight with all that is offered to a grant: each retained message is looked at.
fn with_each(weight: usize, retained: &IndexMap<String, Stored>, grant: &Grant) -> usize
    requires { weight ≤ beyond }
    ensures { result ≡ heaped weight
        (offers_to (map retained_view retained.now.entries) (grant_view grant.now)) }
{
    let mut total = weight;
    for place in 0..retained.len() {
        total = with_place(total, retained, place, grant);
    }
    total
}

/// A weight with all that is offered to a grant without wildcards: one retained message is looked at, if that.
fn with_named(weight: usize, retained: &IndexMap<String, Stored>, grant: &Grant) -> usize
    requires low { weight ≤ beyond }
    requires plain { is_plain (string_bytes grant.now.filter) ≡ true }
    ensures { result ≡ heaped weight
        (offers_to (map retained_view retained.now.entries) (grant_view grant.now)) }
{
    match place_on(retained, grant.filter.as_str()) {
        Some(place) => with_place(weight, retained, place, grant),
        None => weight,
    }
}

/// A weight with all that is offered to a grant; where it is too much already, none is looked at.
fn with_grant(weight: usize, retained: &IndexMap<String, Stored>, grant: &Grant) -> usize
    requires { weight ≤ beyond }
    ensures { result ≡ heaped weight
        (offers_to (map retained_view retained.now.entries) (grant_view grant.now)) }
{
    if weight == BEYOND {
        return weight;
    }
    if is_plain(grant.filter.as_str()) {
        return with_named(weight, retained, grant);
    }
    with_each(weight, retained, grant)
}

/// Whether the retained messages weigh too much that are offered to these grants, each grant by itself.
pub(crate) fn is_heavy(retained: &IndexMap<String, Stored>, given: &[Grant]) -> bool
    ensures { result
        ≡ is_heavy (map retained_view retained.now.entries) (map grant_view given.now) }
{
    let mut total = 0;
    for grant in given {
        total = with_grant(total, retained, grant);
    }
    total == BEYOND
}
