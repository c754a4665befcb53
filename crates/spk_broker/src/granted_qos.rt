//! Which QoS the grants of a session give a topic (section 3.8.4).
ghost use Rattle.std.specs.Prelude.{◌≡◌, map, Some, None};
ghost use Rattle.spk_broker_rules.specs.Words.{best, level};
ghost use Rattle.spk_broker.specs.Parts.{grant_view};

use crate::session::Grant;
use crate::topic_match::is_match;

/// The greatest QoS granted by the filters that match a topic.
pub(crate) fn best(grants: &[Grant], topic: &str) -> Option<u8>
    ensures { result ≡ best topic.now (map grant_view grants.now) }
{
    let mut found: Option<u8> = None;
    let mut left = grants.len();
    while left > 0 {
        left -= 1;
        let grant = &grants[left];
        if is_match(grant.filter.as_str(), topic) {
            found = Some(grant.qos.max(found.unwrap_or(0)));
        }
    }
    found
}

/// The QoS with which a message goes to who has this grant: the lesser one.
pub(crate) fn level(qos: u8, best: Option<u8>) -> Option<u8>
    ensures { result ≡ level qos best }
{
    match best {
        Some(grant) => Some(qos.min(grant)),
        None => None,
    }
}
