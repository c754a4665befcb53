//! CONNECT (section 3.1).

ghost use Rattle.spk_packets.specs.Fault.{Gives};
ghost use Rattle.spk_packets.specs.Reading.{connect_at, level_at, flagged_at, flags_at, will_at, login_at, user_at, password_at};
ghost use Rattle.spk_packets.specs.View.{view, flags_view, will_view};
ghost use Rattle.std.specs.Option.{option_map};

use crate::fault::PacketFault;
use crate::packet::{Packet, Will};
use crate::parts::{counted, end, number, text};
use std::alloc::Global;

/// What the connect flags say (section 3.1.2.3).
#[derive(Clone, Copy)]
pub(crate) struct Flags {
    user: bool,
    password: bool,
    will: Option<WillFlags>,
    clean: bool,
}

/// The flags of a will.
#[derive(Clone, Copy)]
pub(crate) struct WillFlags {
    qos: u8,
    retain: bool,
}

/// The protocol name, and what follows it.
#[tactic(auto, unfolding(crate::specs::Reading::connect_at))]
pub(crate) fn connect(alloc: Global, body: &[u8]) -> Result<Packet, PacketFault>
    ensures { Gives view result (connect_at body.now) }
{
    let (name, rest) = text(body)?;
    if name != "MQTT" {
        return Err(PacketFault::BadBody);
    }
    levelled(alloc, rest)
}

/// The protocol level, and what follows it.
#[tactic(auto, unfolding(crate::specs::Reading::level_at))]
fn levelled(alloc: Global, bytes: &[u8]) -> Result<Packet, PacketFault>
    ensures { Gives view result (level_at bytes.now) }
{
    match bytes {
        [] => Err(PacketFault::BadBody),
        [4, rest @ ..] => flagged(alloc, rest),
        [_, ..] => Err(PacketFault::BadLevel),
    }
}

/// The connect flags, and what they say follows.
#[tactic(auto, unfolding(crate::specs::Reading::flagged_at))]
fn flagged(alloc: Global, bytes: &[u8]) -> Result<Packet, PacketFault>
    ensures { Gives view result (flagged_at bytes.now) }
{
    let [byte, rest @ ..] = bytes else {
        return Err(PacketFault::BadBody);
    };
    let flags = flags_in(*byte)?;
    let (keep, rest) = number(rest)?;
    let (client, rest) = text(rest)?;
    let (will, rest) = will_of(alloc, flags.will, rest)?;
    login(flags.user, flags.password, rest)?;
    Ok(Packet::Connect {
        client: String::from_str(alloc, client)?,
        clean: flags.clean,
        keep,
        will,
    })
}

/// What a byte of connect flags says.
#[tactic(auto, unfolding(crate::specs::Reading::flags_at))]
fn flags_in(byte: u8) -> Result<Flags, PacketFault>
    ensures { Gives flags_view result (flags_at byte) }
{
    let user = byte / 128 % 2 == 1;
    let password = byte / 64 % 2 == 1;
    let retain = byte / 32 % 2 == 1;
    let qos = byte / 8 % 4;
    let has_will = byte / 4 % 2 == 1;
    if byte % 2 == 1 || qos == 3 {
        return Err(PacketFault::BadBody);
    }
    if !has_will && (qos != 0 || retain) {
        return Err(PacketFault::BadBody);
    }
    if password && !user {
        return Err(PacketFault::BadBody);
    }
    if qos == 2 {
        return Err(PacketFault::QosTwo);
    }
    Ok(Flags {
        user,
        password,
        will: if has_will {
            Some(WillFlags { qos, retain })
        } else {
            None
        },
        clean: byte / 2 % 2 == 1,
    })
}

/// The will topic and the will message, where there is a will.
#[tactic(auto, unfolding(crate::specs::Reading::will_at))]
fn will_of(
    alloc: Global,
    flags: Option<WillFlags>,
    bytes: &[u8],
) -> Result<(Option<Will>, &[u8]), PacketFault>
    ensures { Gives (λ x. (option_map will_view x.0, x.1.now)) result
        (will_at (option_map (λ f. (f.qos, f.retain)) flags) bytes.now) }
{
    let Some(WillFlags { qos, retain }) = flags else {
        return Ok((None, bytes));
    };
    let (topic, rest) = text(bytes)?;
    let (message, rest) = counted(rest)?;
    let topic = String::from_str(alloc, topic)?;
    let message = Vec::from_slice(alloc, message)?;
    Ok((
        Some(Will {
            topic,
            message,
            qos,
            retain,
        }),
        rest,
    ))
}

/// The user name and the password where they are there, and no more.
#[tactic(auto, unfolding(crate::specs::Reading::login_at))]
fn login(has_user: bool, has_password: bool, bytes: &[u8]) -> Result<(), PacketFault>
    ensures { Gives (λ x. x) result (login_at has_user has_password bytes.now) }
{
    let rest = user(has_user, bytes)?;
    let rest = password(has_password, rest)?;
    end(rest)
}

/// What follows the user name, where there is one.
#[tactic(auto, unfolding(crate::specs::Reading::user_at))]
fn user(is_there: bool, bytes: &[u8]) -> Result<&[u8], PacketFault>
    ensures { Gives (λ x. x.now) result (user_at is_there bytes.now) }
{
    if !is_there {
        return Ok(bytes);
    }
    let (_, rest) = text(bytes)?;
    Ok(rest)
}

/// What follows the password, where there is one.
#[tactic(auto, unfolding(crate::specs::Reading::password_at))]
fn password(is_there: bool, bytes: &[u8]) -> Result<&[u8], PacketFault>
    ensures { Gives (λ x. x.now) result (password_at is_there bytes.now) }
{
    if !is_there {
        return Ok(bytes);
    }
    let (_, rest) = counted(bytes)?;
    Ok(rest)
}
