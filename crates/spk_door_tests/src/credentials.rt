//! Rows: bytes made by Python's struct as MQTT 3.1.1, section 3.1, says.

use spk_credentials::read;
use std::process::Abort;

/// The bytes of a CONNECT, its user name and its password.
static ROWS: [(&[u8], Option<&[u8]>, Option<&[u8]>); 9] = [
    (b"\x10\x0d\x00\x04MQTT\x04\x02\x00<\x00\x01c", None, None),
    (
        b"\x10\x13\x00\x04MQTT\x04\x82\x00<\x00\x01c\x00\x04pump",
        Some(b"pump"),
        None,
    ),
    (
        b"\x10\x1b\x00\x04MQTT\x04\xc2\x00<\x00\x01c\x00\x04pump\x00\x06secret",
        Some(b"pump"),
        Some(b"secret"),
    ),
    (
        b"\x10\x11\x00\x04MQTT\x04\xc2\x00<\x00\x01c\x00\x00\x00\x00",
        Some(b""),
        Some(b""),
    ),
    (
        b"\x10\x1e\x00\x04MQTT\x04\xc2\x00<\x00\x01c\x00\x04pump\x00\x09se\x00cret\xff\xfe",
        Some(b"pump"),
        Some(b"se\x00cret\xff\xfe"),
    ),
    (
        b"\x10&\x00\x04MQTT\x04\xee\x00<\x00\x01c\x00\x03t/x\x00\x04gone\x00\x04pump\x00\x06secret",
        Some(b"pump"),
        Some(b"secret"),
    ),
    (
        b"\x10\x18\x00\x04MQTT\x04\x86\x00<\x00\x00\x00\x01t\x00\x00\x00\x05p\xc3\xbcmp",
        Some(b"p\xc3\xbcmp"),
        None,
    ),
    (
        b"\x10\x1d\x00\x04MQTT\x04\x04\x00<\x00\x0aPlant/Pump\x00\x01t\x00\x02\x00\x01",
        None,
        None,
    ),
    (
        b"\x10\xa7\x01\x00\x04MQTT\x04\xc2\x00<\x00\x01c\x00xuuuuuuuuuuuuuuuuuuuuuuuuuuuuuuuuuuuuuuuuuuuuuuuuuuuuuuuuuuuuuuuuuuuuuuuuuuuuuuuuuuuuuuuuuuuuuuuuuuuuuuuuuuuuuuuuuuuuuuuu\x00\x1epppppppppppppppppppppppppppppp",
        Some(
            b"uuuuuuuuuuuuuuuuuuuuuuuuuuuuuuuuuuuuuuuuuuuuuuuuuuuuuuuuuuuuuuuuuuuuuuuuuuuuuuuuuuuuuuuuuuuuuuuuuuuuuuuuuuuuuuuuuuuuuuuu",
        ),
        Some(b"pppppppppppppppppppppppppppppp"),
    ),
];

#[test]
fn a_connect_says_who_it_is(rt: HostRuntime) {
    for (packet, user, password) in ROWS {
        let credentials = read(packet);
        assert_eq!(rt; credentials.user, user);
        assert_eq!(rt; credentials.password, password);
    }
}

#[test]
fn what_is_no_connect_is_read_in_its_bounds(rt: HostRuntime) {
    let cut: [&[u8]; 6] = [
        b"",
        b"\x10",
        b"\x10\xff\xff",
        b"\x10\x0a\x00\x04MQTT\x04",
        b"\x10\x0e\x00\x04MQTT\x04\xc2\x00\x3c\xff\xff",
        b"\xc0\x00",
    ];
    for packet in cut {
        let credentials = read(packet);
        assert!(rt; credentials.user.unwrap_or(&[]).len() <= packet.len());
        assert!(rt; credentials.password.unwrap_or(&[]).len() <= packet.len());
    }
}
