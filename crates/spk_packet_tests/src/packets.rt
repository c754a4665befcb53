//! Worked packets as tables. Out of memory is a right answer wherever memory is asked for: the call is made again.

use spk_packets::*;
use std::alloc::Global;
use std::test::Fail;

/// One packet of each kind in its canonical spelling, by hand from the sections of the standard.
pub(crate) const PACKETS: [&[u8]; 14] = [
    b"\x10\x0c\x00\x04MQTT\x04\x02\x00\x3c\x00\x00",
    b"\x10\x15\x00\x04MQTT\x04\x2e\x00\x00\x00\x01x\x00\x01w\x00\x03off",
    b"\x10\x0d\x00\x04MQTT\x04\x00\x00\x00\x00\x01x",
    b"\x20\x02\x01\x05",
    b"\x30\x04\x00\x01ax",
    b"\x3b\x05\x00\x01a\x12\x34",
    b"\x40\x02\x00\x09",
    b"\x82\x09\x00\x01\x00\x01#\x02\x00\x00\x00",
    b"\x90\x04\x00\x01\x02\x80",
    b"\xa2\x08\x00\x07\x00\x01a\x00\x01b",
    b"\xb0\x02\xff\xff",
    b"\xc0\x00",
    b"\xd0\x00",
    b"\xe0\x00",
];

fn read(alloc: Global, bytes: &[u8]) -> Result<(Packet, usize), PacketFault> {
    match decode(alloc, bytes) {
        Err(PacketFault::NoMemory) => decode(alloc, bytes),
        answer => answer,
    }
}

pub(crate) fn write(alloc: Global, packet: &Packet) -> Result<Vec<u8>, PacketFault> {
    match encode(alloc, packet) {
        Err(PacketFault::NoMemory) => encode(alloc, packet),
        answer => answer,
    }
}

fn text(alloc: Global, s: &str) -> Result<String, PacketFault> {
    match String::from_str(alloc, s) {
        Ok(text) => Ok(text),
        Err(_) => Ok(String::from_str(alloc, s)?),
    }
}

fn octets(alloc: Global, bytes: &[u8]) -> Result<Vec<u8>, PacketFault> {
    match Vec::from_slice(alloc, bytes) {
        Ok(octets) => Ok(octets),
        Err(_) => Ok(Vec::from_slice(alloc, bytes)?),
    }
}

fn fault(alloc: Global, bytes: &[u8]) -> Option<PacketFault> {
    read(alloc, bytes).err()
}

#[test]
fn packets_are_read_and_written_again(rt: HostRuntime) -> Result<(), Fail> {
    for bytes in PACKETS {
        let (packet, len) = read(rt.alloc(), bytes)?;
        assert_eq!(rt; len, bytes.len());
        assert_eq!(rt; write(rt.alloc(), &packet)?.as_slice(), bytes);
    }
    Ok(())
}

#[test]
fn a_prefix_of_a_packet_wants_more(rt: HostRuntime) {
    for bytes in PACKETS {
        for len in 0..bytes.len() {
            assert_eq!(rt;
                fault(rt.alloc(), &bytes[..len]),
                Some(PacketFault::More),
                "{len} of {bytes:?}"
            );
        }
    }
}

#[test]
fn a_packet_says_what_it_holds(rt: HostRuntime) -> Result<(), Fail> {
    let publish = Packet::Publish {
        dup: true,
        qos: 1,
        retain: true,
        topic: text(rt.alloc(), "a")?,
        id: Some(0x1234),
        payload: octets(rt.alloc(), b"hi\xff")?,
    };
    let (packet, _) = read(rt.alloc(), b"\x3b\x08\x00\x01a\x12\x34hi\xff")?;
    assert!(rt; packet == publish);

    // user name and password are read and left out
    let connect = Packet::Connect {
        client: text(rt.alloc(), "x")?,
        clean: true,
        keep: 10,
        will: Some(Will {
            topic: text(rt.alloc(), "w")?,
            message: Vec::new(rt.alloc()),
            qos: 0,
            retain: false,
        }),
    };
    let bytes =
        b"\x10\x18\x00\x04MQTT\x04\xc6\x00\x0a\x00\x01x\x00\x01w\x00\x00\x00\x01u\x00\x01\xff";
    let (packet, len) = read(rt.alloc(), bytes)?;
    assert_eq!(rt; len, 26);
    assert!(rt; packet == connect);
    Ok(())
}

#[test]
fn malformed_packets_are_refused_by_the_first_cause(rt: HostRuntime) {
    let rows: [(&[u8], PacketFault); 28] = [
        (b"", PacketFault::More),
        (b"\x30", PacketFault::More),
        (b"\x00", PacketFault::BadType),
        (b"\xf0\x00", PacketFault::BadType),
        (b"\x36", PacketFault::BadFlags),
        (b"\x38", PacketFault::BadFlags),
        (b"\x60", PacketFault::BadFlags),
        (b"\x34", PacketFault::QosTwo),
        (b"\x50", PacketFault::QosTwo),
        (b"\x62", PacketFault::QosTwo),
        (b"\x30\x80\x80\x80\x80", PacketFault::BadLength),
        (b"\x30\xff\xff\xff\x7f", PacketFault::TooLarge),
        (b"\x30\xfd\xff\x3f", PacketFault::TooLarge),
        (b"\x30\xfc\xff\xbf\x00", PacketFault::TooLarge),
        (b"\x30\xfc\xff\x3f", PacketFault::More),
        (b"\x30\x03\x00\x01\x00", PacketFault::BadText),
        (b"\x30\x04\x00\x02\xc3\x28", PacketFault::BadText),
        (b"\x30\x03\x00\x02\xff", PacketFault::BadBody),
        (b"\x32\x05\x00\x01a\x00\x00", PacketFault::BadBody),
        (b"\x30\x02\x00\x05", PacketFault::BadBody),
        (b"\x82\x02\x00\x01", PacketFault::BadBody),
        (
            b"\x82\x09\x00\x01\x00\x01a\x03\x00\x01\x00",
            PacketFault::BadBody,
        ),
        (b"\x82\x06\x00\x00\x00\x01\x00\x00", PacketFault::BadBody),
        (b"\xc0\x01\x00", PacketFault::BadBody),
        (
            b"\x10\x0e\x00\x06MQIsdp\x03\x02\x00\x3c\x00\x00",
            PacketFault::BadBody,
        ),
        (
            b"\x10\x0c\x00\x04MQTT\x05\x02\x00\x3c\x00\x00",
            PacketFault::BadLevel,
        ),
        (b"\x10\x08\x00\x04MQTT\x04\x14", PacketFault::QosTwo),
        (b"\x10\x08\x00\x04MQTT\x04\x42", PacketFault::BadBody),
    ];
    for (bytes, want) in rows {
        assert_eq!(rt; fault(rt.alloc(), bytes), Some(want), "{bytes:?}");
    }
}

#[test]
fn a_remaining_length_is_read_in_any_form(rt: HostRuntime) {
    let rows: [(&[u8], Result<(u32, usize), PacketFault>); 7] = [
        (b"\x7f", Ok((127, 1))),
        (b"\x80\x01", Ok((128, 2))),
        (b"\xff\xff\xff\x7f", Ok((268_435_455, 4))),
        (b"\xff\xff\xff\xff\x7f", Err(PacketFault::BadLength)),
        (b"\x80\x00", Ok((0, 2))),
        (b"\x80", Err(PacketFault::More)),
        (b"", Err(PacketFault::More)),
    ];
    for (bytes, want) in rows {
        assert_eq!(rt; read_length(bytes), want, "{bytes:?}");
    }
}

/// These ask for no memory, so they are right whichever allocation fails.
#[test]
fn an_announced_length_asks_for_no_memory(rt: HostRuntime) {
    assert_eq!(rt;
        decode(rt.alloc(), b"\x30\xff\xff\xff\x7f").err(),
        Some(PacketFault::TooLarge)
    );
    assert_eq!(rt;
        decode(rt.alloc(), b"\x30\xfc\xff\x3f\xff\xff").err(),
        Some(PacketFault::More)
    );
    assert_eq!(rt;
        decode(rt.alloc(), b"\x30\x04\xff\xffab").err(),
        Some(PacketFault::BadBody)
    );
    assert_eq!(rt; read_length(b"\xff\xff\xff\x7f"), Ok((268_435_455, 4)));
}

#[test]
fn a_packet_without_a_spelling_is_refused(rt: HostRuntime) -> Result<(), Fail> {
    let rows = [
        (0, None, false, PacketFault::BadBody),
        (1, None, true, PacketFault::BadText),
        (2, None, false, PacketFault::QosTwo),
        (2, Some(1), false, PacketFault::BadBody),
        (1, Some(0), false, PacketFault::BadBody),
        (0, Some(1), false, PacketFault::BadBody),
        (3, None, false, PacketFault::BadBody),
    ];
    for (qos, id, has_zero, want) in rows {
        let packet = Packet::Publish {
            dup: true,
            qos,
            retain: false,
            topic: text(rt.alloc(), if has_zero { "\0" } else { "a" })?,
            id,
            payload: Vec::new(rt.alloc()),
        };
        assert_eq!(rt;
            write(rt.alloc(), &packet).err(),
            Some(want),
            "qos {qos} id {id:?}"
        );
    }
    Ok(())
}

#[test]
fn the_laws_cost_nothing(rt: HostRuntime) {
    laws::prefix_free();
    laws::refused_has_no_spelling();
    laws::written_is_shortest();
    laws::any_pieces();
    laws::fault_stays();
    assert_eq!(rt; PacketFault::TooLarge.number(), 16);
}
