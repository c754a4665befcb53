//! Rows: keys by Python's hashlib.pbkdf2_hmac, codes of CONNACK by MQTT 3.1.1, section 3.2.2.3.

use spk_access::{NodeName, Rights};
use spk_door::{Door, Entry, Login, User, Verdict, Who};
use spk_packets::{Packet, Request, Will};
use std::alloc::Global;
use std::process::Abort;
use std::test::Fail;

/// PBKDF2 with HMAC-SHA-256 of `secret`, with the salt `salt of pump`, in 3 rounds.
static KEY: [u8; 32] = [
    0xe9, 0xaf, 0x2d, 0xcd, 0xc0, 0xba, 0x22, 0xbd, 0xfd, 0x0b, 0x6d, 0x47, 0x42, 0x83, 0x93, 0x2d,
    0x52, 0x4b, 0xc0, 0x7a, 0x31, 0x6a, 0xcc, 0xb5, 0xca, 0x00, 0x5d, 0xe5, 0x11, 0x7a, 0x3c, 0xa7,
];

/// A text with memory of its own.
fn text(alloc: Global, text: &str) -> Option<String> {
    String::from_str(alloc, text).ok()
}

/// A list of one filter.
fn one(alloc: Global, filter: &str) -> Option<Vec<String>> {
    let mut filters = Vec::new(alloc);
    filters.push(text(alloc, filter)?).ok()?;
    Some(filters)
}

/// The user `pump` with the password `secret`, who is the node Pump of the group Plant.
fn pump(alloc: Global) -> Option<User> {
    Some(User {
        name: text(alloc, "pump")?,
        salt: Vec::from_slice(alloc, b"salt of pump").ok()?,
        rounds: 3,
        key: KEY,
        rights: Rights {
            node: Some(NodeName {
                group: text(alloc, "Plant")?,
                node: text(alloc, "Pump")?,
            }),
            host: None,
            publish: Some(one(alloc, "spBv1.0/Plant/+/Pump/#")?),
            subscribe: Some(one(alloc, "spBv1.0/Plant/NCMD/Pump")?),
        },
    })
}

/// A door that knows this user, and guards.
fn door(alloc: Global) -> Option<Door> {
    let mut users = Vec::new(alloc);
    users.push(pump(alloc)?).ok()?;
    Some(Door {
        users: Some(users),
        guard: true,
    })
}

/// A user name and a password, if there are some, and what a CONNECT with them is answered: the user's number, or a code.
/// HMAC puts zeros behind a short key, so that a password and the same one with U+0000 behind are one.
static LOGINS: [(Option<(&str, &[u8])>, Result<usize, u8>); 10] = [
    (Some(("pump", b"secret")), Ok(0)),
    (Some(("pump", b"Secret")), Err(4)),
    (Some(("pump", b"")), Err(4)),
    (Some(("pump", b"secret\0")), Ok(0)),
    (Some(("pump", b"secret\0x")), Err(4)),
    (Some(("pump", b"\xff\xfe")), Err(4)),
    (Some(("Pump", b"secret")), Err(4)),
    (Some(("", b"secret")), Err(4)),
    (Some(("", b"")), Err(4)),
    (None, Err(5)),
];

#[test]
fn a_login_lets_its_user_in(rt: HostRuntime) -> Result<(), Fail> {
    let door = door(rt.alloc()).expect(&rt, "a door");
    for (login, wanted) in LOGINS {
        let login = match login {
            Some((user, password)) => Some(Login {
                user: user.as_bytes(),
                password,
            }),
            None => None,
        };
        let entry = door
            .entry(rt.alloc(), "any", &login)
            .expect(&rt, "an answer");
        let answer = match entry {
            Entry::In(Who::User(place)) => Ok(place),
            Entry::In(Who::Client(_)) => Err(0),
            Entry::Refused(code) => Err(code),
        };
        assert_eq!(rt; answer, wanted);
    }
    Ok(())
}

/// Who came in.
fn who(entry: Entry) -> Option<Who> {
    match entry {
        Entry::In(who) => Some(who),
        Entry::Refused(_) => None,
    }
}

/// Which entries are allowed.
fn cuts(verdict: Verdict) -> Option<Vec<bool>> {
    match verdict {
        Verdict::Cut(each) => Some(each),
        _ => None,
    }
}

#[test]
fn without_users_everybody_comes_in(rt: HostRuntime) -> Result<(), Fail> {
    let door = Door {
        users: None,
        guard: true,
    };
    let login = Some(Login {
        user: b"pump",
        password: b"secret",
    });
    let entry = door
        .entry(rt.alloc(), "Plant/Pump", &login)
        .expect(&rt, "an answer");
    let who = who(entry).expect(&rt, "somebody");
    let rights = door.rights(&who).expect(&rt, "rights");
    assert!(rt;
        rights
            .may_publish(rt.alloc(), true, "spBv1.0/Plant/NDATA/Pump")
            .expect(&rt, "an answer")
    );
    assert!(rt;
        !rights
            .may_publish(rt.alloc(), true, "spBv1.0/Plant/NDATA/Valve")
            .expect(&rt, "an answer")
    );
    assert!(rt; door.rights(&Who::User(0)).is_none());
    Ok(())
}

/// A PUBLISH on a topic.
fn publish(alloc: Global, topic: &str) -> Option<Packet> {
    Some(Packet::Publish {
        dup: false,
        qos: 0,
        retain: false,
        topic: text(alloc, topic)?,
        id: None,
        payload: Vec::new(alloc),
    })
}

/// A SUBSCRIBE to these filters.
fn subscribe(alloc: Global, filters: &[&str]) -> Option<Packet> {
    let mut entries = Vec::new(alloc);
    for filter in filters {
        let entry = Request {
            filter: text(alloc, filter)?,
            qos: 1,
        };
        entries.push(entry).ok()?;
    }
    Some(Packet::Subscribe {
        id: 7,
        filters: entries,
    })
}

#[test]
fn packets_are_judged(rt: HostRuntime) -> Result<(), Fail> {
    let door = door(rt.alloc()).expect(&rt, "a door");
    let rights = door.rights(&Who::User(0)).expect(&rt, "rights");
    let rows = [
        ("spBv1.0/Plant/NBIRTH/Pump", Verdict::Pass),
        ("spBv1.0/Plant/DDATA/Pump/Motor", Verdict::Pass),
        ("spBv1.0/Plant/NCMD/Pump", Verdict::Close),
        ("spBv1.0/Plant/NDATA/Valve", Verdict::Close),
        ("other", Verdict::Close),
    ];
    for (topic, wanted) in rows {
        let packet = publish(rt.alloc(), topic).expect(&rt, "a packet");
        let verdict = door
            .judge(rt.alloc(), rights, &packet)
            .expect(&rt, "a verdict");
        assert!(rt; verdict == wanted, "{topic}");
    }
    let all = subscribe(rt.alloc(), &["spBv1.0/Plant/NCMD/Pump"]).expect(&rt, "a packet");
    assert!(rt;
        door.judge(rt.alloc(), rights, &all)
            .expect(&rt, "a verdict")
            == Verdict::Pass
    );
    let some = subscribe(
        rt.alloc(),
        &["#", "spBv1.0/Plant/NCMD/Pump", "spBv1.0/Plant/NCMD/+"],
    )
    .expect(&rt, "a packet");
    let verdict = door
        .judge(rt.alloc(), rights, &some)
        .expect(&rt, "a verdict");
    let each = cuts(verdict).expect(&rt, "a cut");
    assert_eq!(rt; each.as_slice(), [false, true, false].as_slice());
    assert!(rt;
        door.judge(rt.alloc(), rights, &Packet::PingReq)
            .expect(&rt, "a verdict")
            == Verdict::Pass
    );
    let again = Packet::Connect {
        client: text(rt.alloc(), "c").expect(&rt, "a text"),
        clean: true,
        keep: 0,
        will: None,
    };
    assert!(rt;
        door.judge(rt.alloc(), rights, &again)
            .expect(&rt, "a verdict")
            == Verdict::Close
    );
    Ok(())
}

#[test]
fn a_will_is_judged_as_its_message(rt: HostRuntime) -> Result<(), Fail> {
    let door = door(rt.alloc()).expect(&rt, "a door");
    let rights = door.rights(&Who::User(0)).expect(&rt, "rights");
    let rows = [
        ("spBv1.0/Plant/NDEATH/Pump", true),
        ("spBv1.0/Plant/NDEATH/Valve", false),
    ];
    for (topic, wanted) in rows {
        let will = Some(Will {
            topic: text(rt.alloc(), topic).expect(&rt, "a text"),
            message: Vec::new(rt.alloc()),
            qos: 0,
            retain: false,
        });
        assert_eq!(rt;
            door.lets_will(rt.alloc(), rights, &will)
                .expect(&rt, "an answer"),
            wanted
        );
    }
    assert!(rt;
        door.lets_will(rt.alloc(), rights, &None)
            .expect(&rt, "an answer")
    );
    Ok(())
}
