//! What is to be printed.
use spk_host::{HostFault, Taken};
use spk_sequence::{Loss, Step};
use spk_topics::Spark;

/// What is to be printed.
#[derive(Debug, Drop)]
pub enum Said {
    /// A message was consumed.
    Consumed(Taken),
    /// What became of a message that came, said behind those that it made consumed; or a gap at a moment.
    Step(Step),
    /// An NDEATH of this node came, whether or not it is that of the session that the host follows.
    Death {
        group: String,
        node: String,
    },
    /// Messages of this node that were held are dropped: so many, and so many are missing before the nearest of them (own rule). It is
    /// said before what became of the message, the death or the moment by which they are.
    Lost {
        group: String,
        node: String,
        loss: Loss,
    },
    /// SUBACK granted the subscription (MQTT 3.1.1, section 3.9.3): what is published from now on comes.
    Granted,
    /// A rebirth was asked for, by this topic.
    Asked(Spark),
    /// A message on this topic was refused. At QoS 1 it is acknowledged all the same.
    Refused {
        fault: HostFault,
        topic: String,
    },
    /// CONNACK turned the host away, with this code (MQTT 3.1.1, section 3.2.2.3). The connection is to be closed.
    TurnedAway(u8),
    /// SUBACK refused the subscription (MQTT 3.1.1, section 3.9.3). The connection is to be closed.
    SubscriptionRefused,
    /// The connection ended.
    Ended,
}
