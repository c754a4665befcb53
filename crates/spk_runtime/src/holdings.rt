//! What each user of a broker holds, between its door and the server: what would go beyond a user's limits doesn't go on.

use spk_broker::{Broker, SessionRef};
use spk_door::{Door, User};
use spk_packets::{Packet, Request, Will};
use spk_quota::{Limits, Quotas};
use spk_server::Conn;
use std::alloc::{AllocError, Global};

/// CONNACK: the server is unavailable (section 3.2.2.3).
pub(crate) const UNAVAILABLE: u8 = 3;

/// What somebody may hold who is no user: nothing.
const NOTHING: Limits = Limits {
    connections: 0,
    sessions: 0,
    filters: 0,
    retained: 0,
    bytes: 0,
    waiting: 0,
};

/// What the users of a door hold and may hold, and how long a kept session stands without its client.
#[derive(Drop)]
pub struct Holdings {
    pub(crate) quotas: Quotas,
    /// In milliseconds.
    pub(crate) patience: u64,
}

/// What a packet comes to by what its user holds.
#[derive(Clone, Copy, Debug, PartialEq, Eq)]
pub(crate) enum Weight {
    Within,
    /// It would go beyond a limit.
    Beyond,
}

/// Whether a packet with this first byte may change what its user holds: CONNECT, PUBLISH with RETAIN, SUBSCRIBE, UNSUBSCRIBE and DISCONNECT (section 2.2).
pub(crate) fn is_weighed(first: u8) -> bool {
    match first >> 4 {
        1 | 8 | 10 | 14 => true,
        3 => first & 1 == 1,
        _ => false,
    }
}

/// The bytes of a message that may be retained.
fn size_of(topic: &str, payload: &[u8]) -> u64 {
    topic.len().saturating_add(payload.len()) as u64
}

/// The will that may become a retained message, with its bytes.
fn lasting(will: &Option<Will>) -> Option<(&str, u64)> {
    match will {
        Some(will) if will.retain && !will.message.is_empty() => {
            let topic = will.topic.as_str();
            Some((topic, size_of(topic, will.message.as_slice())))
        }
        _ => None,
    }
}

/// The name by which a client's session is known here: its client identifier, or where that is empty the number of its connection, since the broker gives it one
/// then that nobody else has (section 3.1.3.1). A user's client identifier has a colon, that number none.
fn key_of(alloc: Global, client: &str, conn: Conn) -> Result<String, AllocError> {
    if client.is_empty() {
        return format!(in alloc; "{conn}");
    }
    String::from_str(alloc, client)
}

/// The filters of a SUBSCRIBE.
fn requested(alloc: Global, entries: &[Request]) -> Result<Vec<&str>, AllocError> {
    let mut texts = Vec::with_capacity(alloc, entries.len())?;
    for entry in entries {
        texts.push(entry.filter.as_str())?;
    }
    Ok(texts)
}

/// The filters of an UNSUBSCRIBE.
fn named(alloc: Global, filters: &[String]) -> Result<Vec<&str>, AllocError> {
    let mut texts = Vec::with_capacity(alloc, filters.len())?;
    for filter in filters {
        texts.push(filter.as_str())?;
    }
    Ok(texts)
}

/// What of a packet, which the door let through, its user holds from now on; where that would go beyond a limit nothing changes. `client` is the name of its
/// session. Refused where memory was.
pub(crate) fn weigh(
    alloc: Global,
    quotas: &mut Quotas,
    user: usize,
    conn: Conn,
    client: &mut Option<String>,
    packet: &Packet,
) -> Result<Weight, AllocError> {
    let is_within = match (packet, &*client) {
        (
            Packet::Connect {
                client: own,
                clean,
                keep: _keep,
                will,
            },
            _,
        ) => {
            if own.is_empty() && !*clean {
                // the broker turns it away (section 3.1.3.1)
                return Ok(Weight::Within);
            }
            let key = key_of(alloc, own.as_str(), conn)?;
            let is_in = quotas.connect(user, conn, key.as_str(), *clean, lasting(will))?;
            if is_in {
                *client = Some(key);
            }
            is_in
        }
        (Packet::Subscribe { id: _id, filters }, Some(client)) => {
            let texts = requested(alloc, filters)?;
            quotas.subscribe(client.as_str(), &texts)?
        }
        (Packet::Unsubscribe { id: _id, filters }, Some(client)) => {
            let texts = named(alloc, filters)?;
            quotas.unsubscribe(client.as_str(), &texts)?;
            true
        }
        (
            Packet::Publish {
                dup: _dup,
                qos: _qos,
                retain: true,
                topic,
                id: _id,
                payload,
            },
            _,
        ) => {
            if payload.is_empty() {
                quotas.clear(topic.as_str());
                true
            } else {
                quotas.publish(user, topic.as_str(), size_of(topic.as_str(), payload))?
            }
        }
        (Packet::Disconnect, _) => {
            quotas.discard_will(conn);
            true
        }
        _ => true,
    };
    Ok(if is_within {
        Weight::Within
    } else {
        Weight::Beyond
    })
}

/// The place of the user whose session has this client identifier: that of the name before its colon.
fn place_of(users: &[User], client: &str) -> Option<usize> {
    let (name, _) = client.split_once(':')?;
    users.iter().position(|user| user.name.as_str() == name)
}

/// The filters of a session.
fn filters_of<'a>(alloc: Global, session: &'a SessionRef<'_>) -> Result<Vec<&'a str>, AllocError> {
    let mut filters = Vec::new(alloc);
    for at in 0..usize::MAX {
        let Some((filter, _)) = session.grant(at) else {
            break;
        };
        filters.push(filter)?;
    }
    Ok(filters)
}

/// The bytes of the messages that a session hasn't acknowledged.
fn waiting_of(session: &SessionRef<'_>) -> u64 {
    let mut bytes: u64 = 0;
    for at in 0..usize::MAX {
        let Some((_, message, _)) = session.kept(at) else {
            break;
        };
        bytes = bytes.saturating_add(size_of(message.topic, message.payload));
    }
    bytes
}

/// The kept session for which the most waits of a user for whom more waits than may: its client identifier, and its connection, if it has one.
#[derive(Debug, Drop)]
pub struct Heavy {
    pub client: String,
    pub conn: Option<Conn>,
}

/// What waits for the sessions of a user, and which of them has the most.
#[derive(Clone, Copy)]
struct Load {
    bytes: u64,
    most: u64,
    place: usize,
}

impl Holdings {
    /// What the users of a door may hold, in their order. Nobody holds anything yet. `patience` is how long a kept session stands without its client, in
    /// milliseconds.
    pub fn new(
        alloc: Global,
        mut limits: Vec<Limits>,
        patience: u64,
    ) -> Result<Holdings, AllocError> {
        // sessions of users who aren't there any more are nobody's
        limits.push(NOTHING)?;
        Ok(Holdings {
            quotas: Quotas::new(alloc, limits),
            patience,
        })
    }

    /// Counts the kept sessions of a broker that was kept, each for the user whose name it has; they are away since this moment.
    pub(crate) fn resume(
        &mut self,
        alloc: Global,
        door: &Door,
        broker: &Broker,
        now: u64,
    ) -> Result<(), AllocError> {
        let Some(users) = &door.users else {
            return Ok(());
        };
        for at in 0..usize::MAX {
            let Some(session) = broker.session(at) else {
                break;
            };
            if session.is_kept() {
                let user = place_of(users, session.client()).unwrap_or(users.len());
                let filters = filters_of(alloc, &session)?;
                self.quotas.resume(user, session.client(), &filters, now)?;
            }
        }
        Ok(())
    }

    /// The session for which the most waits among those of a user for whom more waits than may; none where there is no such user.
    pub(crate) fn heaviest(
        &self,
        alloc: Global,
        broker: &Broker,
    ) -> Result<Option<Heavy>, AllocError> {
        let mut loads: Vec<Load> = Vec::new(alloc);
        for at in 0..usize::MAX {
            let Some(session) = broker.session(at) else {
                break;
            };
            if !session.is_kept() {
                continue;
            }
            let Some(user) = self.quotas.owner(session.client()) else {
                continue;
            };
            for _ in loads.len()..=user {
                loads.push(Load {
                    bytes: 0,
                    most: 0,
                    place: 0,
                })?;
            }
            let bytes = waiting_of(&session);
            if let Some(load) = loads.get_mut(user) {
                load.bytes = load.bytes.saturating_add(bytes);
                if bytes > load.most {
                    load.most = bytes;
                    load.place = at;
                }
            }
        }
        for (user, load) in loads.iter().enumerate() {
            let Some(limits) = self.quotas.limits(user) else {
                continue;
            };
            if load.bytes > limits.waiting
                && let Some(session) = broker.session(load.place)
            {
                return Ok(Some(Heavy {
                    client: String::from_str(alloc, session.client())?,
                    conn: session.connection(),
                }));
            }
        }
        Ok(None)
    }
}
