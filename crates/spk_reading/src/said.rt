//! What a host hears.
use spk_payload::Payload;
use spk_sequence::Kind;

/// What a numbered message is about: the node, or a device by its name (Sparkplug 3.0.0, chapter 6).
#[derive(Debug, Drop, PartialEq)]
pub enum Subject {
    /// NBIRTH.
    NodeBirth,
    /// NDATA.
    NodeData,
    /// DBIRTH.
    DeviceBirth(String),
    /// DDATA.
    DeviceData(String),
    /// DDEATH.
    DeviceDeath(String),
}

/// A message of a node that carries a sequence number.
#[derive(Debug, Drop, PartialEq)]
pub struct Numbered {
    pub group: String,
    pub node: String,
    pub subject: Subject,
    /// Its `seq`.
    pub number: u8,
    /// What the order of the node's messages asks of it: of an NBIRTH its timestamp and its bdSeq.
    pub kind: Kind,
    /// The topic as it was published.
    pub topic: String,
    pub payload: Payload,
}

/// What a PUBLISH says.
#[derive(Debug, Drop, PartialEq)]
pub enum Content {
    /// NBIRTH, NDATA, DBIRTH, DDATA or DDEATH.
    Message(Numbered),
    /// NDEATH, with its bdSeq.
    Death { group: String, node: String, bd: u8 },
    /// NCMD, DCMD or STATE: its payload isn't read.
    Nothing,
}

/// What a packet says to a host.
#[derive(Debug, Drop, PartialEq)]
pub enum Heard {
    /// A PUBLISH, with the identifier to acknowledge at QoS 1.
    Published { ack: Option<u16>, content: Content },
    /// CONNACK, with its code.
    Answered(u8),
    /// SUBACK.
    Granted,
    /// Any other packet.
    Other,
}
