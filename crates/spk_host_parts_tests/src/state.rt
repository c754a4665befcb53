use spk_state::{Heard, Primary, State, StateFault};
use std::alloc::{AllocGlobal, Global};
use std::process::Abort;

/// What the bytes are read as. Where memory was refused nothing was made, and the call is made again.
fn decoded(alloc: Global, bytes: &[u8]) -> Result<State, StateFault> {
    match State::decode(alloc, bytes) {
        Err(StateFault::NoMemory) => State::decode(alloc, bytes),
        answer => answer,
    }
}

fn written_again(alloc: Global, state: State) -> Result<String, StateFault> {
    match state.encode(alloc) {
        Err(StateFault::NoMemory) => state.encode(alloc),
        answer => answer,
    }
}

fn encoded(rt: &(impl Abort + AllocGlobal), state: State) -> String {
    written_again(rt.alloc(), state).expect(rt, "a text")
}

fn is_state(alloc: Global, bytes: &[u8], state: State) -> bool {
    decoded(alloc, bytes) == Ok(state)
}

fn is_none(alloc: Global, bytes: &[u8]) -> bool {
    decoded(alloc, bytes) == Err(StateFault::BadState)
}

fn state_of(online: bool, timestamp: u64) -> State {
    State { online, timestamp }
}

/// Bytes, whether they say that the host is online, and their timestamp.
static STATES: [(&[u8], bool, u64); 8] = [
    (b"{\"online\":true,\"timestamp\":5}", true, 5),
    (b"{\"timestamp\":0,\"online\":false}", false, 0),
    (
        b" {\n\t\"online\" : false ,\r\n \"timestamp\" : 1700000000000 } ",
        false,
        1700000000000,
    ),
    (
        b"{\"online\":true,\"timestamp\":9223372036854775807}",
        true,
        9223372036854775807,
    ),
    // other members are ignored
    (
        b"{\"a\":[1.5,{\"online\":0}],\"online\":true,\"timestamp\":7,\"z\":null}",
        true,
        7,
    ),
    // of a repeated member the last counts
    (
        b"{\"online\":true,\"timestamp\":\"x\",\"online\":false,\"timestamp\":2}",
        false,
        2,
    ),
    (b"{\"\\u006fnline\":true,\"timestamp\":3}", true, 3),
    (
        b"{\"online\":true,\"timestamp\":4,\"\xc3\xa9\":\"\xe2\x98\x83\"}",
        true,
        4,
    ),
];

#[test]
fn an_object_with_a_flag_and_a_whole_timestamp_is_a_state(rt: HostRuntime) {
    for (bytes, online, timestamp) in &STATES {
        let state = state_of(*online, *timestamp);
        assert!(rt; is_state(rt.alloc(), bytes, state), "of {bytes:?}");
    }
}

static NO_STATES: [&[u8]; 32] = [
    b"",
    b"{}",
    b"[]",
    b"null",
    b"true",
    b"5",
    b"ONLINE",
    b"OFFLINE",
    b"\"online\"",
    b"[{\"online\":true,\"timestamp\":5}]",
    b"{\"online\":true}",
    b"{\"timestamp\":5}",
    b"{\"Online\":true,\"timestamp\":5}",
    b"{\"online\":1,\"timestamp\":5}",
    b"{\"online\":\"true\",\"timestamp\":5}",
    b"{\"online\":null,\"timestamp\":5}",
    b"{\"online\":true,\"timestamp\":\"5\"}",
    b"{\"online\":true,\"timestamp\":null}",
    b"{\"online\":true,\"timestamp\":true}",
    b"{\"online\":true,\"timestamp\":1.0}",
    b"{\"online\":true,\"timestamp\":5e0}",
    b"{\"online\":true,\"timestamp\":-1}",
    b"{\"online\":true,\"timestamp\":-0}",
    b"{\"online\":true,\"timestamp\":9223372036854775808}",
    b"{\"online\":true,\"timestamp\":18446744073709551615}",
    b"{\"online\":true,\"timestamp\":18446744073709551616}",
    b"{\"online\":true,\"timestamp\":05}",
    b"{\"online\":true,\"timestamp\":5",
    b"{\"online\":true,\"timestamp\":5,}",
    b"{\"online\":true,\"timestamp\":5} x",
    b"{\"online\":true,\"timestamp\":5,\"a\":\"\xff\"}",
    b"\xef\xbb\xbf{\"online\":true,\"timestamp\":5}",
];

#[test]
fn other_bytes_are_no_state(rt: HostRuntime) {
    for bytes in &NO_STATES {
        assert!(rt; is_none(rt.alloc(), bytes), "of {bytes:?}");
    }
}

static NESTED: [u8; 100000] = [b'['; 100000];

// serde_json reads arrays in arrays up to a depth of 127: what nests deeper is refused, and no stack runs out.
#[test]
fn what_nests_too_deep_is_no_state(rt: HostRuntime) {
    assert!(rt; is_none(rt.alloc(), &NESTED));
}

/// Whether the host is online, a timestamp, and how they are written.
static WRITTEN: [(bool, u64, &str); 4] = [
    (true, 5, "{\"online\":true,\"timestamp\":5}"),
    (false, 0, "{\"online\":false,\"timestamp\":0}"),
    (
        false,
        1700000000000,
        "{\"online\":false,\"timestamp\":1700000000000}",
    ),
    (
        true,
        u64::MAX,
        "{\"online\":true,\"timestamp\":18446744073709551615}",
    ),
];

#[test]
fn a_state_is_written_without_spaces(rt: HostRuntime) {
    for (online, timestamp, text) in &WRITTEN {
        let state = state_of(*online, *timestamp);
        assert!(rt; encoded(&rt, state).as_str() == *text, "of {text}");
    }
}

static TIMESTAMPS: [u64; 5] = [0, 9, 10, 1700000000000, (1 << 63) - 1];

fn is_read_again(rt: &(impl Abort + AllocGlobal), state: State) -> bool {
    is_state(rt.alloc(), encoded(rt, state).as_bytes(), state)
}

#[test]
fn what_is_written_below_2_63_is_read_again(rt: HostRuntime) {
    for timestamp in &TIMESTAMPS {
        for online in [true, false] {
            assert!(rt;
                is_read_again(&rt, state_of(online, *timestamp)),
                "of {timestamp}"
            );
        }
    }
    let text = encoded(&rt, state_of(true, 1 << 63));
    assert!(rt; is_none(rt.alloc(), text.as_bytes()));
}

/// A state, how it is heard, and the greatest timestamp then.
static HEARD: [(bool, u64, Heard, u64); 9] = [
    (true, 5, Heard::Online, 5),
    (false, 4, Heard::Ignored, 5),
    (false, 5, Heard::Offline, 5),
    (true, 5, Heard::Online, 5),
    (true, 0, Heard::Ignored, 5),
    (false, 9, Heard::Offline, 9),
    (true, 8, Heard::Ignored, 9),
    (true, u64::MAX, Heard::Online, u64::MAX),
    (false, u64::MAX - 1, Heard::Ignored, u64::MAX),
];

fn hears(primary: &mut Primary, state: State, heard: Heard, greatest: u64) -> bool {
    primary.hear(state) == heard && primary.heard() == Some(greatest)
}

#[test]
fn a_state_before_the_last_one_heard_is_ignored(rt: HostRuntime) {
    let mut primary = Primary::new();
    assert!(rt; primary.heard().is_none());
    for (online, timestamp, heard, greatest) in &HEARD {
        let state = state_of(*online, *timestamp);
        assert!(rt;
            hears(&mut primary, state, *heard, *greatest),
            "at {timestamp}"
        );
    }
}

#[test]
fn the_first_state_is_heard_whatever_its_timestamp(rt: HostRuntime) {
    assert!(rt; hears(&mut Primary::new(), state_of(true, 0), Heard::Online, 0));
    assert!(rt; hears(&mut Primary::new(), state_of(false, 0), Heard::Offline, 0));
}

static FAULTS: [(StateFault, u32, &str); 2] = [
    (StateFault::NoMemory, 1, "NoMemory"),
    (StateFault::BadState, 50, "BadState"),
];

/// Whether a fault is shown by this name; where memory is refused there is nothing to look at.
fn is_shown(alloc: Global, fault: StateFault, name: &str) -> bool {
    match fault.to_string(alloc) {
        Ok(text) => text.as_str() == name,
        Err(_) => true,
    }
}

#[test]
fn each_fault_has_its_number_and_name(rt: HostRuntime) {
    for (fault, number, name) in &FAULTS {
        assert!(rt;
            fault.number() == *number && is_shown(rt.alloc(), *fault, name),
            "{name}"
        );
    }
}
