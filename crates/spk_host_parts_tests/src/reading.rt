//! Worked packets as tables, their bytes by hand from MQTT 3.1.1 (chapter 3) and Sparkplug's schema. Out of memory is a right answer
//! wherever memory is asked for: the call is made again.
use spk_reading::{Content, Heard, Numbered, ReadFault, Subject, read};
use spk_sequence::Kind;
use std::alloc::Global;

/// A packet, why it is refused, and the number of that.
static REFUSED: [(&[u8], ReadFault, u32); 19] = [
    // a byte is missing, two packets, none
    (
        b"0\x17\x00\x11spBv1.0/G/NDATA/N\x08\x07\x18",
        ReadFault::BadPayload,
        71,
    ),
    (b"\xd0\x00\xd0\x00", ReadFault::BadPayload, 71),
    (b"", ReadFault::BadPayload, 71),
    // the topic, before the payload
    (
        b"0\x09\x00\x03a/b\x08\x07\x18\x01",
        ReadFault::NotSparkplug,
        70,
    ),
    (
        b"0\x16\x00\x13spBv1.0/G/NOTHING/N\xff",
        ReadFault::NotSparkplug,
        70,
    ),
    // the payload, before its numbers
    (
        b"0\x14\x00\x11spBv1.0/G/NDATA/N\x08",
        ReadFault::BadPayload,
        71,
    ),
    (
        b"0\x17\x00\x12spBv1.0/G/NBIRTH/N\x12\x01\x08",
        ReadFault::BadPayload,
        71,
    ),
    // no seq, and 256; of a birth before its timestamp; of a DDEATH
    (
        b"0\x15\x00\x11spBv1.0/G/NDATA/N\x08\x07",
        ReadFault::NoSeq,
        72,
    ),
    (
        b"0\x18\x00\x11spBv1.0/G/NDATA/N\x08\x07\x18\x80\x02",
        ReadFault::NoSeq,
        72,
    ),
    (b"0\x14\x00\x12spBv1.0/G/NBIRTH/N", ReadFault::NoSeq, 72),
    (
        b"0\x18\x00\x14spBv1.0/G/DDEATH/N/D\x08\x07",
        ReadFault::NoSeq,
        72,
    ),
    // no timestamp of a birth, before its bdSeq
    (
        b"0\x16\x00\x12spBv1.0/G/NBIRTH/N\x18\x00",
        ReadFault::NoStamp,
        73,
    ),
    // no bdSeq, 300, null, without a value, a Boolean
    (
        b"0\x18\x00\x12spBv1.0/G/NBIRTH/N\x08\x07\x18\x00",
        ReadFault::NoBdSeq,
        74,
    ),
    (
        b"0&\x00\x12spBv1.0/G/NBIRTH/N\x08\x07\x12\x0c\x0a\x05bdSeq \x04X\xac\x02\x18\x00",
        ReadFault::NoBdSeq,
        74,
    ),
    (
        b"0'\x00\x12spBv1.0/G/NBIRTH/N\x08\x07\x12\x0d\x0a\x05bdSeq \x048\x01X\x03\x18\x00",
        ReadFault::NoBdSeq,
        74,
    ),
    (
        b"0#\x00\x12spBv1.0/G/NBIRTH/N\x08\x07\x12\x09\x0a\x05bdSeq \x04\x18\x00",
        ReadFault::NoBdSeq,
        74,
    ),
    (
        b"0%\x00\x12spBv1.0/G/NBIRTH/N\x08\x07\x12\x0b\x0a\x05bdSeq \x04p\x01\x18\x00",
        ReadFault::NoBdSeq,
        74,
    ),
    // the last of two bdSeq is 300; a death without one
    (
        b"01\x00\x12spBv1.0/G/NDEATH/N\x08\x07\x12\x0b\x0a\x05bdSeq \x04X\x03\x12\x0c\x0a\x05bdSeq \x04X\xac\x02",
        ReadFault::NoBdSeq,
        74,
    ),
    (
        b"0\x16\x00\x12spBv1.0/G/NDEATH/N\x08\x07",
        ReadFault::NoBdSeq,
        74,
    ),
];

fn heard(alloc: Global, bytes: &[u8]) -> Result<Heard, ReadFault> {
    match read(alloc, bytes) {
        Err(ReadFault::NoMemory) => read(alloc, bytes),
        answer => answer,
    }
}

/// Why a packet is refused, if it is. It stands apart since whoever holds an answer is dear to prove.
fn refusal_of(alloc: Global, bytes: &[u8]) -> Option<ReadFault> {
    heard(alloc, bytes).err()
}

#[test]
fn each_refusal_has_its_bytes(rt: HostRuntime) {
    for (bytes, fault, number) in &REFUSED {
        let is_so = refusal_of(rt.alloc(), bytes) == Some(*fault) && fault.number() == *number;
        assert!(rt; is_so, "{bytes:?}");
    }
}

/// What a message is about.
#[derive(Clone, Copy)]
enum About {
    NodeBirth,
    DataOf(&'static str),
}

/// What a message of a node says.
struct Message {
    about: About,
    number: u8,
    kind: Kind,
    topic: &'static str,
    metrics: usize,
}

/// What a packet says: each message is one of the group G and the node N.
enum Says {
    Answered(u8),
    Granted,
    Other,
    /// A PUBLISH that isn't read, and what is to be acknowledged.
    Nothing(Option<u16>),
    /// What is to be acknowledged, and the bdSeq.
    Death(Option<u16>, u8),
    Message(Message),
}

fn is_about(subject: &Subject, about: About) -> bool {
    match (subject, about) {
        (Subject::NodeBirth, About::NodeBirth) => true,
        (Subject::DeviceData(device), About::DataOf(name)) => device.as_str() == name,
        _ => false,
    }
}

fn is_message(message: &Numbered, want: &Message) -> bool {
    message.group.as_str() == "G"
        && message.node.as_str() == "N"
        && is_about(&message.subject, want.about)
        && message.number == want.number
        && message.kind == want.kind
        && message.topic.as_str() == want.topic
        && message.payload.metrics.len() == want.metrics
}

fn is_content(content: &Content, ack: Option<u16>, says: &Says) -> bool {
    match (content, says) {
        (Content::Nothing, Says::Nothing(want)) => ack == *want,
        (Content::Death { group, node, bd }, Says::Death(want, session)) => {
            ack == *want && group.as_str() == "G" && node.as_str() == "N" && *bd == *session
        }
        (Content::Message(message), Says::Message(want)) => {
            ack.is_none() && is_message(message, want)
        }
        _ => false,
    }
}

fn is_said(heard: &Heard, says: &Says) -> bool {
    match (heard, says) {
        (Heard::Answered(code), Says::Answered(want)) => *code == *want,
        (Heard::Granted, Says::Granted) | (Heard::Other, Says::Other) => true,
        (Heard::Published { ack, content }, says) => is_content(content, *ack, says),
        _ => false,
    }
}

/// Whether a packet is read so.
fn is_read(alloc: Global, bytes: &[u8], says: &Says) -> bool {
    match heard(alloc, bytes) {
        Ok(heard) => is_said(&heard, says),
        Err(_) => false,
    }
}

static READ: [(&[u8], Says); 9] = [
    (b" \x02\x00\x00", Says::Answered(0)),
    (b" \x02\x00\x05", Says::Answered(5)),
    (b"\x90\x03\x00\x01\x01", Says::Granted),
    (b"\xd0\x00", Says::Other),
    // an NCMD and a STATE whose payloads can't be read
    (
        b"2\x15\x00\x10spBv1.0/G/NCMD/N\x00\x02\xff",
        Says::Nothing(Some(2)),
    ),
    (b"0\x12\x00\x0fspBv1.0/STATE/Hx", Says::Nothing(None)),
    // a birth says its numbers
    (
        b"0&\x00\x12spBv1.0/G/NBIRTH/N\x08\x05\x12\x0b\x0a\x05bdSeq \x04P\x04\x18\xff\x01",
        Says::Message(Message {
            about: About::NodeBirth,
            number: 255,
            kind: Kind::Birth { stamp: 5, bd: 4 },
            topic: "spBv1.0/G/NBIRTH/N",
            metrics: 1,
        }),
    ),
    // data of a device without a timestamp
    (
        b"0\x17\x00\x13spBv1.0/G/DDATA/N/D\x18\x03",
        Says::Message(Message {
            about: About::DataOf("D"),
            number: 3,
            kind: Kind::Other { stamp: None },
            topic: "spBv1.0/G/DDATA/N/D",
            metrics: 0,
        }),
    ),
    // a death says the last session
    (
        b"23\x00\x12spBv1.0/G/NDEATH/N\x00\x09\x08\x05\x12\x0c\x0a\x05bdSeq \x04X\xac\x02\x12\x0b\x0a\x05bdSeq \x04X\x04",
        Says::Death(Some(9), 4),
    ),
];

#[test]
fn packets_say_what_their_bytes_mean(rt: HostRuntime) {
    for (bytes, says) in &READ {
        assert!(rt; is_read(rt.alloc(), bytes, says), "{bytes:?}");
    }
}
