//! A socket by a script, and a program that counts: what is read, what is written, and when a connection is over.
use spk_link::Due;
use spk_network::{App, Note, Port, Wire};
use std::io::{self, ErrorKind};
use std::net::{IpAddr, Ipv4Addr, SocketAddr};
use std::process::Abort;
use std::test::Fail;

/// What a socket gives in turn.
#[derive(Clone, Copy)]
enum Give {
    /// These bytes.
    Bytes(&'static [u8]),
    /// Nothing now.
    Nothing,
    /// It was interrupted.
    Interrupted,
    /// The peer sends no more.
    End,
    /// The same, once it was told that nothing follows; until then nothing now.
    EndBehind,
    /// It failed.
    Failed,
}

/// A socket that gives these in turn, and then nothing; that takes so many bytes a write, and none once so many writes were made.
#[derive(Drop)]
struct Scripted {
    gives: &'static [Give],
    at: usize,
    room: usize,
    writes: usize,
    stands: bool,
    finished: bool,
}

impl Port for Scripted {
    fn take(&mut self, piece: &mut [u8]) -> io::Result<usize> {
        let give = self.gives.get(self.at).copied().unwrap_or(Give::Nothing);
        self.at = self.at.saturating_add(1);
        match give {
            Give::Bytes(bytes) => {
                let count = bytes.len().min(piece.len());
                for (slot, byte) in piece.iter_mut().zip(bytes.iter()) {
                    *slot = *byte;
                }
                Ok(count)
            }
            Give::Nothing => Err(io::Error::from(ErrorKind::WouldBlock)),
            Give::Interrupted => Err(io::Error::from(ErrorKind::Interrupted)),
            Give::EndBehind if !self.finished => {
                self.at = self.at.saturating_sub(1);
                Err(io::Error::from(ErrorKind::WouldBlock))
            }
            Give::End | Give::EndBehind => Ok(0),
            Give::Failed => Err(io::Error::from(ErrorKind::ConnectionReset)),
        }
    }

    fn put(&mut self, bytes: &[u8]) -> io::Result<usize> {
        if self.writes == 0 {
            return Err(io::Error::from(ErrorKind::BrokenPipe));
        }
        self.writes = self.writes.saturating_sub(1);
        Ok(bytes.len().min(self.room))
    }

    fn stands(&mut self) -> bool {
        self.stands
    }

    fn finish(&mut self) {
        self.finished = true;
    }

    fn shut(&mut self) {}
}

/// A program that reads, and has these bytes to write.
#[derive(Drop)]
struct Plain {
    read: u64,
    rest: &'static [u8],
    written: u64,
    opened: u32,
    over: u32,
    closing: bool,
}

impl Plain {
    fn new(rest: &'static [u8]) -> Plain {
        Plain {
            read: 0,
            rest,
            written: 0,
            opened: 0,
            over: 0,
            closing: false,
        }
    }
}

/// A number with one more digit.
fn with_digits(number: u64, bytes: &[u8]) -> u64 {
    let mut number = number;
    for byte in bytes {
        number = number
            .wrapping_mul(10)
            .wrapping_add(u64::from(byte.wrapping_sub(b'0')));
    }
    number
}

impl App for Plain {
    fn due(&self, _at: usize, _now: u64) -> Due {
        Due::Nothing
    }

    fn pause(&self, _at: usize, _now: u64) -> Option<u64> {
        None
    }

    fn opened(&mut self, _at: usize, _now: u64) {
        self.opened = self.opened.saturating_add(1);
    }

    fn over(&mut self, _at: usize, _now: u64) {
        self.over = self.over.saturating_add(1);
    }

    fn may_read(&self, _at: usize) -> bool {
        true
    }

    fn read(&mut self, _at: usize, piece: &[u8], _now: u64) {
        self.read = with_digits(self.read, piece);
    }

    fn takes_input(&self) -> bool {
        false
    }

    fn input(&mut self, _piece: &[u8], _now: u64) {}

    fn input_over(&mut self, _now: u64) {}

    fn turn(&mut self, _now: u64) {}

    fn unwritten(&self, _at: usize) -> &[u8] {
        self.rest
    }

    fn wrote(&mut self, _at: usize, count: usize, _now: u64) {
        self.written = with_digits(self.written, self.rest.get(..count).unwrap_or(&[]));
        self.rest = self.rest.get(count..).unwrap_or(&[]);
    }

    fn is_closing(&self, _at: usize) -> bool {
        self.closing
    }

    fn is_done(&self) -> bool {
        false
    }

    fn note(&mut self, _at: usize, _note: &Note) {}
}

/// A socket with this script, of which a connection came at moment 1.
fn connected(
    gives: &'static [Give],
    room: usize,
    writes: usize,
    app: &mut Plain,
) -> Wire<Scripted> {
    let mut wire = Wire::new(0);
    let port = Scripted {
        gives,
        at: 0,
        room,
        writes,
        stands: true,
        finished: false,
    };
    let address = SocketAddr::new(IpAddr::V4(Ipv4Addr::LOCALHOST), 1883);
    wire.begin(port, address, 0);
    wire.note(true, true);
    let _ = wire.settle(app, 1);
    wire
}

#[test]
fn what_comes_is_read_in_order_and_its_end_is_told_once(rt: HostRuntime) -> Result<(), Fail> {
    let rows: [(&'static [Give], u64, u32); 5] = [
        (
            &[
                Give::Bytes(b"12"),
                Give::Bytes(b"3"),
                Give::Nothing,
                Give::Bytes(b"4"),
            ],
            123,
            0,
        ),
        (
            &[
                Give::Interrupted,
                Give::Bytes(b"1"),
                Give::End,
                Give::Bytes(b"2"),
            ],
            1,
            1,
        ),
        (&[Give::Bytes(b"1"), Give::Failed, Give::Bytes(b"2")], 1, 1),
        (&[Give::End], 0, 1),
        (&[], 0, 0),
    ];
    for (gives, read, over) in rows {
        let mut app = Plain::new(b"");
        let mut wire = connected(gives, 1, 1, &mut app);
        let mut piece = [0u8; 4];
        wire.read(&mut app, &mut piece, 2);
        assert_eq!(rt; app.opened, 1);
        assert_eq!(rt; app.read, read);
        assert_eq!(rt; app.over, over);
        assert_eq!(rt; wire.is_off(), over == 1);
        wire.read(&mut app, &mut piece, 3);
        assert_eq!(rt; app.over, over);
    }
    Ok(())
}

#[test]
fn what_is_to_be_written_goes_out_in_order_until_a_write_fails(
    rt: HostRuntime,
) -> Result<(), Fail> {
    let rows: [(usize, usize, u64, u32); 4] = [
        (2, 9, 12345, 0),
        (9, 1, 12345, 0),
        (2, 2, 1234, 1),
        (1, 0, 0, 1),
    ];
    for (room, writes, written, over) in rows {
        let mut app = Plain::new(b"12345");
        let mut wire = connected(&[], room, writes, &mut app);
        wire.write(&mut app, 2);
        assert_eq!(rt; app.written, written);
        assert_eq!(rt; app.over, over);
    }
    Ok(())
}

#[test]
fn a_try_that_comes_to_nothing_or_takes_too_long_begins_nothing(
    rt: HostRuntime,
) -> Result<(), Fail> {
    let address = SocketAddr::new(IpAddr::V4(Ipv4Addr::LOCALHOST), 1883);
    let rows: [(bool, bool, u64, bool, u32); 4] = [
        (false, false, 2_999, false, 0),
        (false, false, 3_000, true, 0),
        (true, false, 1, true, 0),
        (true, true, 1, false, 1),
    ];
    for (ready, stands, now, failed, opened) in rows {
        let mut app = Plain::new(b"");
        let mut wire = Wire::new(0);
        let port = Scripted {
            gives: &[],
            at: 0,
            room: 1,
            writes: 1,
            stands,
            finished: false,
        };
        wire.begin(port, address, 0);
        wire.note(false, ready);
        assert!(rt; wire.is_trying());
        assert_eq!(rt; wire.settle(&mut app, now), failed);
        assert_eq!(rt; app.opened, opened);
        assert_eq!(rt; wire.fail().is_some(), true);
        assert_eq!(rt; app.over, 0);
    }
    Ok(())
}

#[test]
fn a_connection_whose_end_was_asked_for_is_closed_five_seconds_later_at_the_latest(
    rt: HostRuntime,
) -> Result<(), Fail> {
    let mut app = Plain::new(b"1");
    let mut wire = connected(&[], 1, 1, &mut app);
    wire.close(&mut app, false, 2);
    assert_eq!(rt; app.over, 0);
    app.closing = true;
    // first with something left to write, then with a peer that doesn't end
    for _ in 0..2u8 {
        wire.close(&mut app, false, 10);
        assert_eq!(rt; app.over, 0);
        wire.close(&mut app, false, 5_009);
        assert_eq!(rt; app.over, 0);
        assert_eq!(rt; wire.until(), Some(5_010));
        wire.close(&mut app, false, 5_010);
        assert_eq!(rt; app.over, 1);
        app = Plain::new(b"1");
        app.closing = true;
        wire = connected(&[], 1, 1, &mut app);
        wire.write(&mut app, 9);
        assert_eq!(rt; app.written, 1);
    }
    wire.close(&mut app, true, 10);
    assert_eq!(rt; app.over, 1);
    Ok(())
}

#[test]
fn behind_what_was_written_last_the_end_of_the_peer_is_waited_for(
    rt: HostRuntime,
) -> Result<(), Fail> {
    let gives: &'static [Give] = &[Give::EndBehind];
    let more: &'static [Give] = &[
        Give::Nothing,
        Give::Bytes(b"7"),
        Give::Interrupted,
        Give::Bytes(b"8"),
        Give::EndBehind,
    ];
    let failing: &'static [Give] = &[Give::Nothing, Give::Bytes(b"7"), Give::Failed];
    for gives in [gives, more, failing] {
        let mut app = Plain::new(b"1");
        let mut wire = connected(gives, 1, 1, &mut app);
        let mut piece = [0u8; 4];
        app.closing = true;
        wire.close(&mut app, false, 10);
        wire.read(&mut app, &mut piece, 10);
        wire.write(&mut app, 11);
        assert_eq!(rt; (app.written, app.over), (1, 0));
        assert!(rt; wire.goes_on(&app));
        wire.close(&mut app, false, 12);
        assert!(rt; !wire.is_off());
        assert!(rt; !wire.goes_on(&app));
        assert_eq!(rt; app.over, 0);
        wire.note(true, true);
        assert!(rt; wire.goes_on(&app));
        wire.read(&mut app, &mut piece, 13);
        // nothing that came behind it was told
        assert_eq!(rt; (app.read, app.over), (0, 1));
        assert!(rt; wire.is_off());
        wire.close(&mut app, false, 6_000);
        assert_eq!(rt; app.over, 1);
    }
    Ok(())
}
