//! The status page and the log of closes, over loopback.

use crate::serve::{CONNECT, DISCONNECT, Narrow, WELCOME, client, ends, free_port, gets, send};
use spk_runtime::{Serving, serve_at};
use std::io;
use std::io::{Read, Write};
use std::net::{IpAddr, Ipv4Addr, Net, TcpListener, TcpStream};
use std::process::Abort;
use std::thread::join;
use std::time::Clock;

/// A writer that keeps the first 64 bytes.
#[derive(Drop)]
struct Held {
    bytes: [u8; 64],
    count: usize,
}

impl Write for Held {
    fn write(&mut self, buf: &[u8]) -> io::Result<usize> {
        for byte in buf {
            if let Some(place) = self.bytes.get_mut(self.count) {
                *place = *byte;
                self.count = self.count.saturating_add(1);
            }
        }
        Ok(buf.len())
    }

    fn flush(&mut self) -> io::Result<()> {
        Ok(())
    }
}

/// What the page answers to these bytes, up to 4,096 of it.
fn page<R>(rt: &R, port: u16, asked: &[u8]) -> Vec<u8>
where
    R: Net<Listener = TcpListener, Stream = TcpStream> + Clock + Abort + AllocGlobal,
{
    let stream = client(rt, port);
    send(rt, &stream, asked);
    let mut text = Vec::from_elem(rt.alloc(), 0u8, 4_096).expect(rt, "room");
    let mut count = 0usize;
    let mut reader = &stream;
    for _ in 0..4_096 {
        let Some(room) = text.as_mut_slice().get_mut(count..) else {
            break;
        };
        match reader.read(room) {
            Ok(more) if more > 0 => count = count.saturating_add(more),
            _ => break,
        }
    }
    text.truncate(count);
    text
}

/// Whether these bytes stand in a text.
fn has(text: &[u8], part: &[u8]) -> bool {
    for place in 0..text.len() {
        if let Some(rest) = text.get(place..)
            && rest.starts_with(part)
        {
            return true;
        }
    }
    false
}

/// One client comes, the page is asked for, and the client leaves.
fn look<R>(rt: &R, port: u16, status: u16)
where
    R: Net<Listener = TcpListener, Stream = TcpStream> + Clock + Abort + AllocGlobal,
{
    let stream = client(rt, port);
    send(rt, &stream, CONNECT);
    gets(rt, &stream, WELCOME);
    let text = page(rt, status, b"GET /metrics HTTP/1.1\r\nHost: a\r\n\r\n");
    assert!(rt; text.starts_with(b"HTTP/1.1 200 OK\r\n"));
    assert!(rt; has(&text, b"\njuldremm_clients 1\n"));
    assert!(rt; has(&text, b"\njuldremm_sessions 1\n"));
    let text = page(rt, status, b"GET /else HTTP/1.1\r\n\r\n");
    assert!(rt; text.starts_with(b"HTTP/1.1 404 Not Found\r\n"));
    send(rt, &stream, DISCONNECT);
    ends(rt, &stream);
}

#[test]
fn figures_and_closes_are_told(rt: HostRuntime) {
    let port = free_port(&rt);
    let status = free_port(&rt);
    let serving = Serving {
        bind: IpAddr::V4(Ipv4Addr::LOCALHOST),
        port,
        clients: Some(1),
        status: Some(status),
    };
    let mut out = Narrow { room: 64 };
    let mut log = Held {
        bytes: [0; 64],
        count: 0,
    };
    let (served, ()) = join(
        &rt,
        || serve_at(&rt, rt.alloc(), &serving, None, &mut out, &mut log),
        || look(&rt, port, status),
    );
    assert_eq!(rt; served, Ok(1));
    assert_eq!(rt; &log.bytes[..14], b"closed 1 left\n".as_slice());
    assert_eq!(rt; log.count, 14);
}
