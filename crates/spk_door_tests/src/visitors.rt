//! Rows: bytes made by Python's struct as MQTT 3.1.1, chapter 3, says, and the key by its hashlib.

use spk_access::{NodeName, Rights};
use spk_door::{Door, User};
use spk_packets::PacketFault;
use spk_visitor::{Answer, Replies, Visitor};
use std::alloc::Global;
use std::process::Abort;
use std::test::Fail;

/// PBKDF2 with HMAC-SHA-256 of `secret`, with the salt `salt of pump`, in 3 rounds.
static KEY: [u8; 32] = [
    0xe9, 0xaf, 0x2d, 0xcd, 0xc0, 0xba, 0x22, 0xbd, 0xfd, 0x0b, 0x6d, 0x47, 0x42, 0x83, 0x93, 0x2d,
    0x52, 0x4b, 0xc0, 0x7a, 0x31, 0x6a, 0xcc, 0xb5, 0xca, 0x00, 0x5d, 0xe5, 0x11, 0x7a, 0x3c, 0xa7,
];

/// A text with memory of its own.
fn text(alloc: Global, text: &str) -> Option<String> {
    String::from_str(alloc, text).ok()
}

/// A list of one filter.
fn one(alloc: Global, filter: &str) -> Option<Vec<String>> {
    let mut filters = Vec::new(alloc);
    filters.push(text(alloc, filter)?).ok()?;
    Some(filters)
}

/// A door with a guard; one that knows the user `pump` with the password `secret`, or nobody.
fn door(alloc: Global, known: bool) -> Option<Door> {
    let mut users = Vec::new(alloc);
    users
        .push(User {
            name: text(alloc, "pump")?,
            salt: Vec::from_slice(alloc, b"salt of pump").ok()?,
            rounds: 3,
            key: KEY,
            rights: Rights {
                node: Some(NodeName {
                    group: text(alloc, "Plant")?,
                    node: text(alloc, "Pump")?,
                }),
                host: None,
                publish: None,
                subscribe: Some(one(alloc, "spBv1.0/Plant/NCMD/Pump")?),
            },
        })
        .ok()?;
    Some(Door {
        users: if known { Some(users) } else { None },
        guard: true,
    })
}

/// What goes on of what is sent in pieces of so many bytes, and the last answer.
fn sent(alloc: Global, door: &Door, bytes: &[u8], size: usize) -> Option<(Vec<u8>, Answer)> {
    let mut visitor = Visitor::new(alloc);
    let mut out = Vec::new(alloc);
    let mut answer = Answer::More;
    for piece in bytes.chunks(size.max(1)) {
        visitor.feed(piece).ok()?;
        answer = Answer::Goes;
        for _ in 0..1_000 {
            match answer {
                Answer::Goes | Answer::Cuts(..) => answer = visitor.next(door, &mut out).ok()?,
                _ => break,
            }
        }
        if answer != Answer::More {
            break;
        }
    }
    Some((out, answer))
}

/// An answer in short.
fn said(answer: &Answer) -> Result<bool, u8> {
    match answer {
        Answer::Refuses(code) => Err(*code),
        Answer::Closes => Ok(false),
        _ => Ok(true),
    }
}

/// What it is, whether users are known, what is sent, what of it goes on, and the last answer: whether more may come, or the code of a refusal.
static ROWS: [(&str, bool, &[u8], &[u8], Result<bool, u8>); 14] = [
    (
        "its own packets go on",
        false,
        b"\x107\x00\x04MQTT\x04\x06\x00<\x00\x0aPlant/Pump\x00\x19spBv1.0/Plant/NDEATH/Pump\x00\x04gone0\x1c\x00\x19spBv1.0/Plant/NBIRTH/Pump1\x82\x1c\x00\x07\x00\x17spBv1.0/Plant/NCMD/Pump\x01\xc0\x00",
        b"\x107\x00\x04MQTT\x04\x06\x00<\x00\x0aPlant/Pump\x00\x19spBv1.0/Plant/NDEATH/Pump\x00\x04gone0\x1c\x00\x19spBv1.0/Plant/NBIRTH/Pump1\x82\x1c\x00\x07\x00\x17spBv1.0/Plant/NCMD/Pump\x01\xc0\x00",
        Ok(true),
    ),
    (
        "another node's data close",
        false,
        b"\x107\x00\x04MQTT\x04\x06\x00<\x00\x0aPlant/Pump\x00\x19spBv1.0/Plant/NDEATH/Pump\x00\x04gone0\x1c\x00\x19spBv1.0/Plant/NBIRTH/Pump10\x1c\x00\x19spBv1.0/Plant/NDATA/Valve2\xc0\x00",
        b"\x107\x00\x04MQTT\x04\x06\x00<\x00\x0aPlant/Pump\x00\x19spBv1.0/Plant/NDEATH/Pump\x00\x04gone0\x1c\x00\x19spBv1.0/Plant/NBIRTH/Pump1",
        Ok(false),
    ),
    (
        "another node's will closes",
        false,
        b"\x104\x00\x04MQTT\x04\x06\x00<\x00\x0aPlant/Pump\x00\x1aspBv1.0/Plant/NDEATH/Valve\x00\x00\xc0\x00",
        b"",
        Ok(false),
    ),
    (
        "a second CONNECT closes",
        false,
        b"\x107\x00\x04MQTT\x04\x06\x00<\x00\x0aPlant/Pump\x00\x19spBv1.0/Plant/NDEATH/Pump\x00\x04gone\x107\x00\x04MQTT\x04\x06\x00<\x00\x0aPlant/Pump\x00\x19spBv1.0/Plant/NDEATH/Pump\x00\x04gone",
        b"\x107\x00\x04MQTT\x04\x06\x00<\x00\x0aPlant/Pump\x00\x19spBv1.0/Plant/NDEATH/Pump\x00\x04gone",
        Ok(false),
    ),
    (
        "a first packet that isn't CONNECT closes",
        false,
        b"\xc0\x00\x107\x00\x04MQTT\x04\x06\x00<\x00\x0aPlant/Pump\x00\x19spBv1.0/Plant/NDEATH/Pump\x00\x04gone",
        b"",
        Ok(false),
    ),
    (
        "another level is refused",
        false,
        b"\x10\x0d\x00\x04MQTT\x05\x02\x00<\x00\x01c\xc0\x00",
        b"",
        Err(1),
    ),
    (
        "what is no packet closes",
        false,
        b"\x107\x00\x04MQTT\x04\x06\x00<\x00\x0aPlant/Pump\x00\x19spBv1.0/Plant/NDEATH/Pump\x00\x04gone\x00\x000\x1c\x00\x19spBv1.0/Plant/NBIRTH/Pump1",
        b"\x107\x00\x04MQTT\x04\x06\x00<\x00\x0aPlant/Pump\x00\x19spBv1.0/Plant/NDEATH/Pump\x00\x04gone",
        Ok(false),
    ),
    ("no packet first closes", false, b"\xff\x00", b"", Ok(false)),
    (
        "half a packet waits",
        false,
        b"\x107\x00\x04MQTT\x04\x06\x00<\x00\x0aPlant/Pump\x00\x19spBv1.0/Plant/NDEATH/Pump\x00\x04gone0\x1c\x00\x19spBv1.0/Plant/NBIRTH/Pump",
        b"\x107\x00\x04MQTT\x04\x06\x00<\x00\x0aPlant/Pump\x00\x19spBv1.0/Plant/NDEATH/Pump\x00\x04gone",
        Ok(true),
    ),
    (
        "a login is left out",
        true,
        b"\x10\x1d\x00\x04MQTT\x04\xc2\x00<\x00\x03any\x00\x04pump\x00\x06secret0\x1c\x00\x19spBv1.0/Plant/NBIRTH/Pump1",
        b"\x10\x14\x00\x04MQTT\x04\x02\x00<\x00\x08pump:any0\x1c\x00\x19spBv1.0/Plant/NBIRTH/Pump1",
        Ok(true),
    ),
    (
        "an empty client identifier stays empty",
        true,
        b"\x10\x1a\x00\x04MQTT\x04\xc2\x00<\x00\x00\x00\x04pump\x00\x06secret",
        b"\x10\x0c\x00\x04MQTT\x04\x02\x00<\x00\x00",
        Ok(true),
    ),
    (
        "a wrong password is refused",
        true,
        b"\x10\x1d\x00\x04MQTT\x04\xc2\x00<\x00\x03any\x00\x04pump\x00\x06Secret0\x1c\x00\x19spBv1.0/Plant/NBIRTH/Pump1",
        b"",
        Err(4),
    ),
    (
        "no user is refused",
        true,
        b"\x10\x16\x00\x04MQTT\x04\x02\x00<\x00\x0aPlant/Pump0\x1c\x00\x19spBv1.0/Plant/NBIRTH/Pump1",
        b"",
        Err(5),
    ),
    (
        "no password is an empty one",
        true,
        b"\x10\x15\x00\x04MQTT\x04\x82\x00<\x00\x03any\x00\x04pump0\x1c\x00\x19spBv1.0/Plant/NBIRTH/Pump1",
        b"",
        Err(4),
    ),
];

#[test]
fn what_the_door_lets_through_goes_on(rt: HostRuntime) -> Result<(), Fail> {
    for (what, known, bytes, goes, last) in ROWS {
        let door = door(rt.alloc(), known).expect(&rt, "a door");
        for size in [1, 7, 65_536] {
            let (out, answer) = sent(rt.alloc(), &door, bytes, size).expect(&rt, "an answer");
            assert_eq!(rt; out.as_slice(), goes, "{what}");
            assert_eq!(rt; said(&answer), last, "{what}");
        }
    }
    Ok(())
}

#[test]
fn what_is_allowed_of_a_subscribe_goes_on(rt: HostRuntime) -> Result<(), Fail> {
    let door = door(rt.alloc(), true).expect(&rt, "a door");
    let mut visitor = Visitor::new(rt.alloc());
    let mut out = Vec::new(rt.alloc());
    visitor
        .feed(b"\x10\x1d\x00\x04MQTT\x04\xc2\x00<\x00\x03any\x00\x04pump\x00\x06secret")
        .expect(&rt, "room");
    assert!(rt; visitor.next(&door, &mut out).expect(&rt, "an answer") == Answer::Goes);
    visitor
        .feed(
            b"\x827\x00\x09\x00\x01#\x00\x00\x17spBv1.0/Plant/NCMD/Pump\x01\x00\x14spBv1.0/Plant/NCMD/+\x02",
        )
        .expect(&rt, "room");
    let answer = visitor.next(&door, &mut out).expect(&rt, "an answer");
    let (id, each) = cut(answer).expect(&rt, "a cut");
    assert_eq!(rt; id, 9);
    assert_eq!(rt; each.as_slice(), [false, true, false].as_slice());
    visitor
        .feed(b"\x82\x06\x00\x0a\x00\x01#\x00")
        .expect(&rt, "room");
    let answer = visitor.next(&door, &mut out).expect(&rt, "an answer");
    let (id, each) = cut(answer).expect(&rt, "a cut");
    assert_eq!(rt; id, 10);
    assert_eq!(rt; each.as_slice(), [false].as_slice());
    assert_eq!(rt;
        out.as_slice(),
        b"\x10\x14\x00\x04MQTT\x04\x02\x00<\x00\x08pump:any\x82\x1c\x00\x09\x00\x17spBv1.0/Plant/NCMD/Pump\x01".as_slice()
    );
    Ok(())
}

/// Which entries are allowed.
fn cut(answer: Answer) -> Option<(u16, Vec<bool>)> {
    match answer {
        Answer::Cuts(id, each) => Some((id, each)),
        _ => None,
    }
}

/// A CONNECT of the user with a client identifier of so many bytes.
fn long_connect(alloc: Global, len: usize) -> Option<Vec<u8>> {
    let rest = len.saturating_add(26);
    let mut bytes = Vec::new(alloc);
    bytes.push(0x10).ok()?;
    bytes.push((rest % 128) as u8 | 128).ok()?;
    bytes.push((rest / 128 % 128) as u8 | 128).ok()?;
    bytes.push((rest / 16_384 % 128) as u8).ok()?;
    bytes.extend_from_slice(b"\x00\x04MQTT\x04\xc2\x00<").ok()?;
    bytes.push((len / 256 % 256) as u8).ok()?;
    bytes.push((len % 256) as u8).ok()?;
    for _ in 0..len {
        bytes.push(b'a').ok()?;
    }
    bytes.extend_from_slice(b"\x00\x04pump\x00\x06secret").ok()?;
    Some(bytes)
}

#[test]
fn a_client_identifier_that_would_be_too_long_is_refused(rt: HostRuntime) -> Result<(), Fail> {
    let door = door(rt.alloc(), true).expect(&rt, "a door");
    // pump and a colon are five bytes, and a text has 65,535 at most
    for (len, last, passes) in [(65_530, Ok(true), 65_551), (65_531, Err(2), 0)] {
        let bytes = long_connect(rt.alloc(), len).expect(&rt, "a packet");
        let (out, answer) = sent(rt.alloc(), &door, &bytes, 65_536).expect(&rt, "an answer");
        assert_eq!(rt; said(&answer), last);
        assert_eq!(rt; out.len(), passes);
    }
    Ok(())
}

#[test]
fn before_it_came_in_no_more_than_half_a_mebibyte_waits(rt: HostRuntime) -> Result<(), Fail> {
    let mut visitor = Visitor::new(rt.alloc());
    let piece = [0u8; 4_096];
    for _ in 0..128 {
        assert!(rt; visitor.feed(&piece).is_ok());
    }
    assert!(rt; visitor.feed(&[]).is_ok());
    assert!(rt; visitor.feed(&[0]) == Err(PacketFault::TooLarge));
    assert!(rt; visitor.feed(&piece) == Err(PacketFault::TooLarge));
    Ok(())
}

/// What a client gets of what a broker sends in pieces of so many bytes, where these SUBSCRIBEs were cut before.
fn got(alloc: Global, cuts: &[(u16, &[bool])], bytes: &[u8], size: usize) -> Option<Vec<u8>> {
    let mut replies = Replies::new(alloc);
    let mut out = Vec::new(alloc);
    for (id, allowed) in cuts {
        let allowed = Vec::from_slice(alloc, allowed).ok()?;
        replies.cut(*id, allowed, &mut out).ok()?;
    }
    for piece in bytes.chunks(size.max(1)) {
        replies.feed(piece).ok()?;
        for _ in 0..1_000 {
            if !replies.next(&mut out).ok()? {
                break;
            }
        }
    }
    Some(out)
}

/// What it is, which SUBSCRIBEs were cut, what the broker sends, and what the client gets (sections 3.9.2 and 3.9.3).
static REPLIES: [(&str, &[(u16, &[bool])], &[u8], &[u8]); 7] = [
    (
        "without a cut all is as it was",
        &[],
        b"\x20\x02\x00\x00\x90\x04\x00\x09\x00\x80\x30\x04\x00\x01ab\xd0\x00",
        b"\x20\x02\x00\x00\x90\x04\x00\x09\x00\x80\x30\x04\x00\x01ab\xd0\x00",
    ),
    (
        "the entries that aren't allowed have 128",
        &[(9, &[false, true, false])],
        b"\x90\x03\x00\x09\x01",
        b"\x90\x05\x00\x09\x80\x01\x80",
    ),
    (
        "what the broker refuses stays refused",
        &[(9, &[true, false, true])],
        b"\x90\x04\x00\x09\x80\x01",
        b"\x90\x05\x00\x09\x80\x80\x01",
    ),
    (
        "each in its turn, and others as they are",
        &[(9, &[false, true]), (10, &[true, true, false])],
        b"\x30\x04\x00\x01ab\x90\x03\x00\x08\x01\x90\x03\x00\x09\x01\x40\x02\x00\x0a\x90\x04\x00\x0a\x00\x01\x90\x03\x00\x0a\x01",
        b"\x30\x04\x00\x01ab\x90\x03\x00\x08\x01\x90\x04\x00\x09\x80\x01\x40\x02\x00\x0a\x90\x05\x00\x0a\x00\x01\x80\x90\x03\x00\x0a\x01",
    ),
    (
        "where none is allowed it is said behind the broker's first packet",
        &[(11, &[false, false])],
        b"\x20\x02\x00\x00\xd0\x00",
        b"\x20\x02\x00\x00\x90\x04\x00\x0b\x80\x80\xd0\x00",
    ),
    (
        "one that is owed isn't awaited",
        &[(11, &[false]), (12, &[true, false])],
        b"\x20\x02\x00\x00\x90\x03\x00\x0c\x00",
        b"\x20\x02\x00\x00\x90\x03\x00\x0b\x80\x90\x04\x00\x0c\x00\x80",
    ),
    (
        "half a packet waits",
        &[(9, &[false, true])],
        b"\xd0\x00\x90\x03\x00\x09",
        b"\xd0\x00",
    ),
];

#[test]
fn a_client_gets_128_at_each_entry_that_is_not_allowed(rt: HostRuntime) -> Result<(), Fail> {
    for (what, cuts, bytes, gets) in REPLIES {
        for size in [1, 7, 65_536] {
            let out = got(rt.alloc(), cuts, bytes, size).expect(&rt, "an answer");
            assert_eq!(rt; out.as_slice(), gets, "{what}");
        }
    }
    Ok(())
}

#[test]
fn behind_the_first_packet_it_is_said_at_once(rt: HostRuntime) -> Result<(), Fail> {
    let mut replies = Replies::new(rt.alloc());
    let mut out = Vec::new(rt.alloc());
    replies.feed(b"\x20\x02\x00\x00").expect(&rt, "room");
    assert!(rt; replies.next(&mut out).expect(&rt, "an answer"));
    let allowed = Vec::from_slice(rt.alloc(), &[false, false]).expect(&rt, "memory");
    replies.cut(11, allowed, &mut out).expect(&rt, "memory");
    assert_eq!(rt;
        out.as_slice(),
        b"\x20\x02\x00\x00\x90\x04\x00\x0b\x80\x80".as_slice()
    );
    assert!(rt; !replies.next(&mut out).expect(&rt, "an answer"));
    Ok(())
}
