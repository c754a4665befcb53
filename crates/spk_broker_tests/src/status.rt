use spk_clients::Cause;
use spk_status::{Asked, Closes, Figures, Telling, answer};
use std::test::Fail;

/// Requests, and the status of their answer; 0 where there is none yet.
const ROWS: [(&[u8], u16); 14] = [
    (b"", 0),
    (b"GET /metrics HTTP/1.1\r\n", 0),
    (b"GET /metrics HTTP/1.1\r\nHost: a\r\n", 0),
    (b"GET /metrics HTTP/1.1\r\nHost: a\r\n\r\n", 200),
    (b"GET / HTTP/1.0\r\n\r\n", 200),
    (b"GET /metrics HTTP/1.1\r\nHost: a\r\n\r\nGET /", 200),
    (b"GET /metrics/ HTTP/1.1\r\nHost: a\r\n\r\n", 404),
    (b"GET /metrics?a=b HTTP/1.1\r\nHost: a\r\n\r\n", 404),
    (b"HEAD /metrics HTTP/1.1\r\nHost: a\r\n\r\n", 405),
    (b"POST /nowhere HTTP/1.1\r\nContent-Length: 0\r\n\r\n", 405),
    (b"get /metrics HTTP/1.1\r\nHost: a\r\n\r\n", 405),
    (b"\x10\x0c\x00\x04MQTT\x04\x02\x00\x00\x00\x00", 400),
    (b"GET /metrics HTTP/2.0\r\n\r\n", 400),
    (b"GET /metrics\r\n\r\n", 400),
];

fn status_of(bytes: &[u8]) -> u16 {
    Asked::of(bytes).status().unwrap_or(0)
}

#[test]
fn requests_are_answered_by_their_bytes(rt: HostRuntime) -> Result<(), Fail> {
    for (bytes, status) in ROWS {
        assert_eq!(rt; status_of(bytes), status);
    }
    Ok(())
}

#[test]
fn more_than_4096_bytes_are_no_request(rt: HostRuntime) -> Result<(), Fail> {
    let mut bytes = b"GET / HTTP/1.1\r\nA: ".to_vec(rt.alloc())?;
    bytes.resize(4_096, 0x61)?;
    assert_eq!(rt; Asked::of(bytes.as_slice()), Asked::Nothing);
    bytes.push(0x61)?;
    assert_eq!(rt; Asked::of(bytes.as_slice()), Asked::NoRequest);
    Ok(())
}

const PAGE: &str = "HTTP/1.1 200 OK\r
Content-Type: text/plain; version=0.0.4; charset=utf-8\r
Content-Length: 1409\r
Connection: close\r
\r
# HELP juldremm_clients Clients that are connected.
# TYPE juldremm_clients gauge
juldremm_clients 3
# HELP juldremm_sessions Sessions, with and without a connection.
# TYPE juldremm_sessions gauge
juldremm_sessions 4
# HELP juldremm_retained_messages Topics with a retained message.
# TYPE juldremm_retained_messages gauge
juldremm_retained_messages 5
# HELP juldremm_messages_in_total PUBLISH packets of clients.
# TYPE juldremm_messages_in_total counter
juldremm_messages_in_total 6
# HELP juldremm_messages_out_total PUBLISH packets for clients.
# TYPE juldremm_messages_out_total counter
juldremm_messages_out_total 7
# HELP juldremm_drops_total Packets for clients that were refused, since too many waited or memory was refused.
# TYPE juldremm_drops_total counter
juldremm_drops_total 8
# HELP juldremm_stalls_total Waits of a publisher for a slow client.
# TYPE juldremm_stalls_total counter
juldremm_stalls_total 18446744073709551615
# HELP juldremm_closes_total Clients whose sockets were shut.
# TYPE juldremm_closes_total counter
juldremm_closes_total{cause=\"left\"} 0
juldremm_closes_total{cause=\"gone\"} 0
juldremm_closes_total{cause=\"silent\"} 0
juldremm_closes_total{cause=\"unreadable\"} 0
juldremm_closes_total{cause=\"refused\"} 0
juldremm_closes_total{cause=\"keep-alive\"} 2
juldremm_closes_total{cause=\"taken-over\"} 1
juldremm_closes_total{cause=\"slow\"} 0
juldremm_closes_total{cause=\"memory\"} 0
";

const NOT_FOUND: &str = "HTTP/1.1 404 Not Found\r
Content-Type: text/plain; version=0.0.4; charset=utf-8\r
Content-Length: 10\r
Connection: close\r
\r
Not Found
";

const NOT_ALLOWED: &str = "HTTP/1.1 405 Method Not Allowed\r
Allow: GET\r
Content-Type: text/plain; version=0.0.4; charset=utf-8\r
Content-Length: 0\r
Connection: close\r
\r
";

const BAD: &str = "HTTP/1.1 400 Bad Request\r
Content-Type: text/plain; version=0.0.4; charset=utf-8\r
Content-Length: 12\r
Connection: close\r
\r
Bad Request
";

const ANSWERS: [(Asked, &str); 4] = [
    (Asked::Page, PAGE),
    (Asked::Elsewhere, NOT_FOUND),
    (Asked::Otherwise, NOT_ALLOWED),
    (Asked::NoRequest, BAD),
];

fn figures() -> Figures {
    let mut closes = Closes::new();
    closes.count(Cause::KeepAlive);
    closes.count(Cause::TakenOver);
    closes.count(Cause::KeepAlive);
    Figures {
        clients: 3,
        sessions: 4,
        retained: 5,
        heard: 6,
        sent: 7,
        dropped: 8,
        stalls: u64::MAX,
        closes,
    }
}

#[test]
fn the_page_has_each_figure(rt: HostRuntime) -> Result<(), Fail> {
    let figures = figures();
    for (asked, wanted) in ANSWERS {
        let text = answer(rt.alloc(), asked, &figures)?;
        let text = text.as_ref().map(|text| text.as_str());
        assert_eq!(rt; text, Some(wanted));
    }
    assert!(rt; answer(rt.alloc(), Asked::Nothing, &figures)?.is_none());
    Ok(())
}

#[test]
fn ten_closes_are_told_of_in_a_second(rt: HostRuntime) -> Result<(), Fail> {
    let mut telling = Telling::new();
    for _ in 0..10 {
        assert!(rt; telling.note(1_500));
    }
    assert_eq!(rt; telling.due(), None);
    assert!(rt; !telling.note(1_999));
    assert!(rt; !telling.note(1_999));
    assert_eq!(rt; telling.due(), Some(2_000));
    assert_eq!(rt; telling.rest(1_999), None);
    assert_eq!(rt; telling.rest(2_000), Some(2));
    assert_eq!(rt; telling.rest(2_000), None);
    assert!(rt; telling.note(2_000));
    Ok(())
}

#[test]
fn a_request_has_at_most_64_fields(rt: HostRuntime) -> Result<(), Fail> {
    for (count, wanted) in [(64, Asked::Page), (65, Asked::NoRequest)] {
        let mut bytes = Vec::new(rt.alloc());
        bytes.extend_from_slice(b"GET / HTTP/1.1\r\n")?;
        for _ in 0..count {
            bytes.extend_from_slice(b"a: b\r\n")?;
        }
        bytes.extend_from_slice(b"\r\n")?;
        assert_eq!(rt; Asked::of(bytes.as_slice()), wanted);
    }
    Ok(())
}
