//! What commands ask of a node with the metric `t`, 1, and a device `D` with a metric `t`, 2, both Int32.
use crate::node::{Call, PLAIN, Plays, REBIRTH, play_on, refusal_of};
use crate::which::Test;
use spk_device::Alias;
use spk_edge::{EdgeFault, Out, Write};
use spk_payload::Value;
use std::process::Abort;

/// A command's answer. Where memory was refused the call is made again.
pub(crate) fn commanded(
    node: &mut impl Plays,
    topic: &str,
    payload: &[u8],
) -> Result<Out, EdgeFault> {
    match node.tell_command(7, topic, payload) {
        Err(EdgeFault::NoMemory) => node.tell_command(7, topic, payload),
        answer => answer,
    }
}

/// A topic, a payload, and the values written, by their aliases, and whether a rebirth is asked; none for a BadCommand.
type Row = (&'static str, &'static [u8], Wanted);

const NODE: &str = "spBv1.0/G/NCMD/N";

const DEVICE: &str = "spBv1.0/G/DCMD/N/D";

const NO_REBIRTH: &[u8] = b"\x08\x09\x12\x1c\x0a\x14Node Control/Rebirth\x18\x09\x20\x0b\x70\x00";

static ROWS: [Row; 20] = [
    (NODE, REBIRTH, Some((&[], true))),
    (NODE, NO_REBIRTH, Some((&[], false))),
    (DEVICE, REBIRTH, None),
    (NODE, b"", Some((&[], false))),
    (NODE, b"\x12\x05\x0a\x01t\x50\x05", Some((&[(1, 5)], false))),
    (
        DEVICE,
        b"\x12\x05\x0a\x01t\x50\x05",
        Some((&[(2, 5)], false)),
    ),
    (NODE, b"\x12\x04\x10\x01\x50\x05", Some((&[(1, 5)], false))),
    (DEVICE, b"\x12\x04\x10\x01\x50\x05", None),
    (NODE, b"\x12\x04\x10\x02\x50\x05", None),
    (
        NODE,
        b"\x12\x04\x10\x01\x50\x05\x12\x04\x10\x01\x50\x06",
        Some((&[(1, 5), (1, 6)], false)),
    ),
    (
        NODE,
        b"\x12\x04\x10\x01\x50\x05\x12\x04\x10\x03\x50\x06",
        None,
    ),
    (NODE, b"\x12\x06\x10\x01\x38\x01\x50\x05", None),
    (NODE, b"\x12\x02\x10\x01", None),
    (NODE, b"\x12\x04\x10\x01\x70\x01", None),
    (NODE, b"\x12\x05\x10", None),
    ("spBv1.0/G/DCMD/N/E", b"", Some((&[], false))),
    ("spBv1.0/G/DCMD/N/E", b"\x12\x05\x0a\x01t\x50\x05", None),
    ("spBv1.0/G/NCMD/M", b"", None),
    ("spBv1.0/H/NCMD/N", b"", None),
    ("spBv1.0/G/NDATA/N", b"", None),
];

/// Whether a write is of this alias and number.
fn is_write(write: &Write, alias: Alias, number: i64) -> bool {
    let is_number = match &write.value {
        Value::Signed(value) => *value == number,
        _ => false,
    };
    is_number && write.alias == alias
}

/// Whether the writes are these.
fn are_writes(writes: &[Write], want: &[(Alias, i64)]) -> bool {
    for (write, (alias, number)) in writes.iter().zip(want) {
        if !is_write(write, *alias, *number) {
            return false;
        }
    }
    writes.len() == want.len()
}

/// What a command comes to: the values written, and whether a rebirth is asked; none for a BadCommand.
type Wanted = Option<(&'static [(Alias, i64)], bool)>;

fn is_done(answer: &Result<Out, EdgeFault>, want: Wanted) -> bool {
    match (answer, want) {
        (Ok(out), Some((values, is_born_again))) => {
            are_writes(&out.writes, values) && out.packets.is_empty() != is_born_again
        }
        (Err(fault), None) => *fault == EdgeFault::BadCommand,
        _ => false,
    }
}

/// Whether a node opens a session and is accepted.
pub(crate) fn joins(node: &mut impl Plays) -> bool {
    refusal_of(node, 5, Call::Open).is_none() && refusal_of(node, 6, Call::Accepted).is_none()
}

fn is_commanded(node: &mut impl Plays, topic: &str, payload: &[u8], want: Wanted) -> bool {
    is_done(&commanded(node, topic, payload), want)
}

pub(crate) fn does_commands(rt: &impl Abort, node: &mut impl Plays) {
    assert!(rt; joins(node));
    for (topic, payload, want) in &ROWS {
        assert!(rt; is_commanded(node, topic, payload, *want), "{topic:?}");
    }
}

/// A birth is all that a node publishes for a command.
#[test]
fn commands_are_done_whole_or_not_at_all(rt: HostRuntime) {
    play_on(&rt, PLAIN, Test::Commands);
}
