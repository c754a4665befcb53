//! The eleven packets of QoS 0 and 1 (chapter 3).

/// The message that the broker publishes for a client that goes without DISCONNECT (section 3.1.2.5).
#[derive(Debug, PartialEq, Eq, Drop)]
pub struct Will {
    /// The topic name, at most 65,535 bytes.
    pub topic: String,
    /// The payload, at most 65,535 bytes.
    pub message: Vec<u8>,
    /// 0 or 1.
    pub qos: u8,
    pub retain: bool,
}

/// One entry of a SUBSCRIBE (section 3.8.3).
#[derive(Debug, PartialEq, Eq, Drop)]
pub struct Request {
    /// The topic filter, at most 65,535 bytes.
    pub filter: String,
    /// The QoS that the client asks for, 0 to 2.
    pub qos: u8,
}

/// A control packet. Packet identifiers are 1 to 65,535.
#[derive(Debug, PartialEq, Eq, Drop)]
pub enum Packet {
    /// Section 3.1. User name and password are read and left out.
    Connect {
        client: String,
        clean: bool,
        /// Keep alive, in seconds.
        keep: u16,
        will: Option<Will>,
    },
    /// Section 3.2. The code is 0 to 5.
    ConnAck {
        present: bool,
        code: u8,
    },
    /// Section 3.3. QoS is 0 or 1, and there is an identifier exactly at QoS 1.
    Publish {
        dup: bool,
        qos: u8,
        retain: bool,
        topic: String,
        id: Option<u16>,
        payload: Vec<u8>,
    },
    /// Section 3.4.
    PubAck {
        id: u16,
    },
    /// Section 3.8. At least one entry.
    Subscribe {
        id: u16,
        filters: Vec<Request>,
    },
    /// Section 3.9. At least one code: the granted QoS, 0 to 2, or 128 for a refusal.
    SubAck {
        id: u16,
        codes: Vec<u8>,
    },
    /// Section 3.10. At least one filter.
    Unsubscribe {
        id: u16,
        filters: Vec<String>,
    },
    /// Section 3.11.
    UnsubAck {
        id: u16,
    },
    /// Section 3.12.
    PingReq,
    /// Section 3.13.
    PingResp,
    /// Section 3.14.
    Disconnect,
}
