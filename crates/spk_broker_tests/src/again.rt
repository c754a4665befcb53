//! A broker that is put together of what another one lends goes on as that one does; and each part that doesn't fit is refused.
use crate::broker::Talks;
use spk_broker::{
    Broker, BrokerFault, Message, MessageRef, Out, PartFault, RestoredSession, SessionRef,
};
use spk_packets::{Packet, Request, Will};
use std::alloc::{AllocError, Global};
use std::test::Fail;

/// More than there are of anything.
const MOST: usize = 1_000;

pub(crate) fn text(alloc: Global, from: &str) -> Result<String, AllocError> {
    String::from_str(alloc, from)
}

pub(crate) fn bytes(alloc: Global, from: &[u8]) -> Result<Vec<u8>, AllocError> {
    let mut out = Vec::new(alloc);
    out.extend_from_slice(from)?;
    Ok(out)
}

/// A copy of a message that is lent.
fn message(alloc: Global, of: &MessageRef<'_>) -> Result<Message, AllocError> {
    Ok(Message {
        topic: text(alloc, of.topic)?,
        payload: bytes(alloc, of.payload)?,
        qos: of.qos,
        retain: of.retain,
    })
}

/// A session put together of one that is lent.
fn session(alloc: Global, of: &SessionRef<'_>) -> Result<RestoredSession, PartFault> {
    let mut session = RestoredSession::new(alloc, of.key(), of.client(), of.is_kept())?;
    if let Some(conn) = of.connection() {
        match of.will() {
            Some(will) => session.connect_with(conn, message(alloc, &will)?)?,
            None => session.connect(conn),
        }
    }
    for at in 0..MOST {
        let Some((filter, qos)) = of.grant(at) else {
            break;
        };
        session.grant(text(alloc, filter)?, qos)?;
    }
    for id in of.given() {
        session.give(*id)?;
    }
    session.gave(of.last());
    for at in 0..MOST {
        let Some((id, kept, handed)) = of.kept(at) else {
            break;
        };
        session.keep(id, message(alloc, &kept)?, handed)?;
    }
    Ok(session)
}

/// A broker put together of what this one lends.
fn again(alloc: Global, broker: &Broker) -> Result<Broker, PartFault> {
    let (given, made) = broker.numbers();
    let Some(mut copy) = Broker::restored(alloc, 128, given, made) else {
        return Err(PartFault::Unfit);
    };
    for at in 0..MOST {
        let Some(conn) = broker.connection(at) else {
            break;
        };
        copy.restore_connection(conn)?;
    }
    for at in 0..MOST {
        let Some(of) = broker.session(at) else {
            break;
        };
        copy.restore_session(session(alloc, &of)?)?;
    }
    for at in 0..MOST {
        let Some((topic, payload, qos)) = broker.retained_at(at) else {
            break;
        };
        copy.restore_retained(text(alloc, topic)?, bytes(alloc, payload)?, qos)?;
    }
    Ok(copy)
}

/// What comes to a broker.
#[derive(Clone, Copy)]
pub(crate) enum Step {
    Open,
    /// A CONNECT of this client, clean or not, with a will of this payload, retained, where it isn't empty.
    Join(u64, &'static str, bool, &'static str),
    Subscribe(u64, &'static str, u8),
    /// A PUBLISH of this QoS, retained or not.
    Publish(u64, &'static str, u8, bool),
    Ack(u64, u16),
    Leave(u64),
    Close(u64),
}

fn connect(alloc: Global, client: &str, clean: bool, will: &str) -> Result<Packet, AllocError> {
    let will = if will.is_empty() {
        None
    } else {
        Some(Will {
            topic: text(alloc, "last")?,
            message: bytes(alloc, will.as_bytes())?,
            qos: 1,
            retain: true,
        })
    };
    Ok(Packet::Connect {
        client: text(alloc, client)?,
        clean,
        keep: 0,
        will,
    })
}

fn subscribe(alloc: Global, filter: &str, qos: u8) -> Result<Packet, AllocError> {
    let mut filters = Vec::new(alloc);
    filters.push(Request {
        filter: text(alloc, filter)?,
        qos,
    })?;
    Ok(Packet::Subscribe { id: 1, filters })
}

fn publish(alloc: Global, topic: &str, qos: u8, retain: bool) -> Result<Packet, AllocError> {
    Ok(Packet::Publish {
        dup: false,
        qos,
        retain,
        topic: text(alloc, topic)?,
        id: if qos == 0 { None } else { Some(9) },
        payload: bytes(alloc, b"7")?,
    })
}

/// What a packet gives; the call is made again where memory was refused.
fn heard(broker: &mut impl Talks, conn: u64, packet: &Packet) -> Option<Out> {
    match broker.heard(conn, packet, 0) {
        Err(BrokerFault::NoMemory) => broker.heard(conn, packet, 0).ok(),
        answer => answer.ok(),
    }
}

/// What a step gives.
pub(crate) fn does(
    alloc: Global,
    broker: &mut impl Talks,
    step: Step,
) -> Result<Option<Out>, AllocError> {
    Ok(match step {
        Step::Open => {
            if broker.opened(0).is_err() {
                let _ = broker.opened(0);
            }
            None
        }
        Step::Join(conn, client, clean, will) => {
            heard(broker, conn, &connect(alloc, client, clean, will)?)
        }
        Step::Subscribe(conn, filter, qos) => heard(broker, conn, &subscribe(alloc, filter, qos)?),
        Step::Publish(conn, topic, qos, retain) => {
            heard(broker, conn, &publish(alloc, topic, qos, retain)?)
        }
        Step::Ack(conn, id) => heard(broker, conn, &Packet::PubAck { id }),
        Step::Leave(conn) => heard(broker, conn, &Packet::Disconnect),
        Step::Close(conn) => match broker.ended(conn, 0) {
            Err(BrokerFault::NoMemory) => broker.ended(conn, 0).ok(),
            answer => answer.ok(),
        },
    })
}

/// A kept session that is away with two messages, one of them handed out; a connection with a will; one without CONNECT; retained messages.
pub(crate) const BEFORE: [Step; 15] = [
    Step::Open,
    Step::Join(1, "away", false, ""),
    Step::Subscribe(1, "t/+", 1),
    Step::Open,
    Step::Join(2, "here", true, "gone"),
    Step::Subscribe(2, "t/1", 0),
    Step::Subscribe(2, "t/#", 1),
    Step::Publish(2, "t/1", 1, false),
    Step::Publish(2, "t/2", 1, false),
    Step::Ack(1, 1),
    Step::Leave(1),
    Step::Publish(2, "t/3", 1, true),
    Step::Publish(2, "u", 0, true),
    Step::Ack(2, 2),
    Step::Open,
];

pub(crate) const AFTER: [Step; 12] = [
    Step::Join(3, "new", false, ""),
    Step::Subscribe(3, "#", 1),
    Step::Publish(3, "t/1", 1, false),
    Step::Open,
    Step::Join(4, "away", false, ""),
    Step::Ack(4, 2),
    Step::Publish(4, "t/4", 1, true),
    Step::Close(2),
    Step::Open,
    Step::Join(5, "here", false, ""),
    Step::Subscribe(5, "last", 1),
    Step::Leave(4),
];

/// How many of the later steps gave the same with both, and how many packets they gave.
pub(crate) fn alike(
    alloc: Global,
    broker: &mut impl Talks,
    other: &mut impl Talks,
) -> Result<(usize, usize), AllocError> {
    let mut same = 0_usize;
    let mut sent = 0_usize;
    for step in AFTER {
        let ours = does(alloc, broker, step)?;
        let theirs = does(alloc, other, step)?;
        if let Some(out) = &ours {
            sent = sent.saturating_add(out.sends.len());
        }
        if ours == theirs {
            same = same.saturating_add(1);
        }
    }
    Ok((same, sent))
}

fn goes_on(alloc: Global) -> Result<(usize, usize), AllocError> {
    let mut broker = Broker::new(alloc, 128);
    for step in BEFORE {
        does(alloc, &mut broker, step)?;
    }
    let Ok(mut copy) = again(alloc, &broker) else {
        return Err(AllocError);
    };
    alike(alloc, &mut broker, &mut copy)
}

#[test]
fn a_broker_put_together_of_its_parts_goes_on_as_it_did(rt: HostRuntime) -> Result<(), Fail> {
    let (same, sent) = goes_on(rt.alloc())?;
    assert_eq!(rt; same, AFTER.len());
    assert_eq!(rt; sent, 19);
    Ok(())
}

/// The number of a refusal, 0 where there is none.
fn number(answer: Result<(), PartFault>) -> u32 {
    match answer {
        Ok(()) => 0,
        Err(fault) => fault.number(),
    }
}

/// Of a broker of which three connections were given a number and two sessions made, what each part that comes then is refused with.
fn refusals(alloc: Global) -> Result<[u32; 8], PartFault> {
    let Some(mut broker) = Broker::restored(alloc, 128, 3, 2) else {
        return Err(PartFault::Unfit);
    };
    let mut second = RestoredSession::new(alloc, 2, "b", true)?;
    second.connect(3);
    let unmade = number(broker.restore_session(RestoredSession::new(alloc, 3, "c", true)?));
    let fits = number(broker.restore_session(second));
    let earlier = number(broker.restore_session(RestoredSession::new(alloc, 1, "a", true)?));
    let not_given = number(broker.restore_connection(4));
    let sits = number(broker.restore_connection(3));
    let waits = number(broker.restore_connection(1));
    let too_many = number(broker.restore_connection(2));
    let no_session = number(match Broker::restored(alloc, 128, 2, 3) {
        Some(_broker) => Ok(()),
        None => Err(PartFault::Unfit),
    });
    Ok([
        unmade, fits, earlier, not_given, sits, waits, too_many, no_session,
    ])
}

/// What each part of a session that none can have is refused with, and one that fits.
fn session_refusals(alloc: Global) -> Result<[u32; 8], PartFault> {
    let mut session = RestoredSession::new(alloc, 1, "a", true)?;
    let filter = number(session.grant(text(alloc, "a/#/b")?, 1));
    let qos = number(session.grant(text(alloc, "a")?, 2));
    let zero = number(session.give(0));
    let first = number(session.give(65_535));
    let twice = number(session.give(65_535));
    let plain = number(session.keep(1, kept(alloc, "t", 0)?, false));
    let nameless = number(session.keep(1, kept(alloc, "", 1)?, false));
    let fits = number(session.keep(1, kept(alloc, "t", 1)?, true));
    Ok([filter, qos, zero, first, twice, plain, nameless, fits])
}

fn kept(alloc: Global, topic: &str, qos: u8) -> Result<Message, AllocError> {
    Ok(Message {
        topic: text(alloc, topic)?,
        payload: bytes(alloc, b"7")?,
        qos,
        retain: false,
    })
}

/// The same of retained messages.
fn retained_refusals(alloc: Global) -> Result<[u32; 4], PartFault> {
    let mut broker = Broker::new(alloc, 128);
    let first = number(broker.restore_retained(text(alloc, "t")?, bytes(alloc, b"7")?, 1));
    let twice = number(broker.restore_retained(text(alloc, "t")?, bytes(alloc, b"8")?, 1));
    let empty = number(broker.restore_retained(text(alloc, "u")?, Vec::new(alloc), 1));
    let two = number(broker.restore_retained(text(alloc, "u")?, bytes(alloc, b"7")?, 2));
    Ok([first, twice, empty, two])
}

#[test]
fn a_part_that_does_not_fit_is_refused(rt: HostRuntime) -> Result<(), Fail> {
    assert_eq!(rt;
        refusals(rt.alloc()).ok(),
        Some([139, 0, 139, 139, 139, 0, 139, 139])
    );
    assert_eq!(rt;
        session_refusals(rt.alloc()).ok(),
        Some([139, 139, 139, 0, 139, 139, 0, 0])
    );
    assert_eq!(rt;
        retained_refusals(rt.alloc()).ok(),
        Some([0, 139, 139, 139])
    );
    Ok(())
}
