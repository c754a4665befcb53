//! Views, figures and exchanges that were written out by hand.
use spk_page::{
    Asked, Client, Device, Entry, Head, Look, Metric, Node, Shown, Stage, Values, What, Whole,
    metrics_text, node_text, page, view_text,
};
use spk_story::{Counts, Hole, Loss, Story};
use std::alloc::{AllocError, Global};
use std::process::Abort;
use std::test::Fail;

const HEAD: Head = Head {
    began: 1_000,
    now: 9_000,
    revision: 7,
    is_connected: true,
};

const VIEW: &str =
    "{\"began\":1000,\"connected\":true,\"log\":[{\"at\":3000,\"detail\":null,\"i\":0,\"n\":2,\"what\":\"lost\"},{\"at\":4000,\"detail\":\"rotor\",\"i\":1,\"n\":3,\"what\":\"device_died\"},{\"at\":5000,\"detail\":5,\"i\":null,\"n\":4,\"what\":\"turned_away\"}],\"nodes\":[{\"born\":2000,\"counts\":{\"asked\":0,\"births\":1,\"deaths\":0,\"gaps\":1,\"holes\":0,\"ignored\":0,\"missing\":2,\"unused\":3,\"used\":1},\"down\":[],\"group\":\"G\",\"hole\":{\"end\":null,\"from\":2000,\"missing\":2,\"until\":null,\"unused\":3},\"i\":0,\"look\":\"lost\",\"node\":\"</script>\\\"\",\"since\":3000,\"used\":2000,\"values\":{\"all\":8,\"current\":0}}],\"now\":9000,\"rev\":7,\"totals\":{\"current\":5,\"down\":1,\"gaps\":1,\"looks\":{\"away\":0,\"current\":1,\"lost\":1,\"offline\":0,\"silent\":0,\"unborn\":0},\"missing\":2,\"nodes\":2,\"unused\":3,\"used\":2,\"values\":13}}";

const WHOLE: &str =
    "{\"devices\":[{\"metrics\":[{\"alias\":null,\"at\":null,\"name\":\"deep\",\"type\":null,\"value\":{\"other\":true}}],\"name\":\"rotor\",\"online\":false,\"stale\":true}],\"holes\":[{\"end\":\"birth\",\"from\":2000,\"missing\":2,\"until\":4000,\"unused\":3}],\"metrics\":[{\"alias\":7,\"at\":6,\"name\":\"wide\",\"type\":8,\"value\":\"18446744073709551615\"},{\"alias\":null,\"at\":6,\"name\":\"when\",\"type\":13,\"value\":\"1700000000000\"},{\"alias\":null,\"at\":6,\"name\":\"low\",\"type\":4,\"value\":\"-9223372036854775808\"},{\"alias\":null,\"at\":6,\"name\":\"small\",\"type\":3,\"value\":-5},{\"alias\":null,\"at\":6,\"name\":\"flag\",\"type\":11,\"value\":true},{\"alias\":null,\"at\":6,\"name\":\"words\",\"type\":12,\"value\":\"\\n\\\\é\"},{\"alias\":null,\"at\":6,\"name\":\"octets\",\"type\":17,\"value\":\"00ff\"},{\"alias\":null,\"at\":6,\"name\":\"half\",\"type\":9,\"value\":0.5},{\"alias\":null,\"at\":6,\"name\":\"tenth\",\"type\":10,\"value\":0.1},{\"alias\":null,\"at\":6,\"name\":\"not\",\"type\":10,\"value\":\"NaN\"},{\"alias\":null,\"at\":6,\"name\":\"far\",\"type\":9,\"value\":\"-Infinity\"},{\"alias\":null,\"at\":6,\"name\":\"null\",\"type\":3,\"value\":null}],\"row\":{\"born\":4000,\"counts\":{\"asked\":0,\"births\":2,\"deaths\":0,\"gaps\":1,\"holes\":1,\"ignored\":0,\"missing\":2,\"unused\":3,\"used\":2},\"down\":[\"rotor\"],\"group\":\"G\",\"hole\":null,\"i\":4,\"look\":\"current\",\"node\":\"valve\",\"since\":4000,\"used\":4000,\"values\":{\"all\":13,\"current\":12}}}";

/// A story with a gap, and with the birth behind it or not.
fn valve(is_mended: bool) -> Story {
    let mut story = Story::new(1_500);
    story.born(2_000);
    story.dropped(
        Loss {
            unused: 3,
            missing: 2,
        },
        3_000,
    );
    story.gap(3_000);
    if is_mended {
        story.born(4_000);
    }
    story
}

/// A node's row.
fn row<'a>(
    alloc: Global,
    place: usize,
    name: &'a str,
    story: &Story,
    values: Values,
    changed: u64,
) -> Node<'a> {
    let down = Vec::new(alloc);
    Node::new(place, "G", name, story, values, down, changed, None, 9_000)
}

/// So many values.
fn values(current: usize, all: usize) -> Values {
    Values { current, all }
}

/// A metric.
fn metric<'a>(name: &'a str, datatype: u32, shown: Shown<'a>) -> Metric<'a> {
    Metric {
        name,
        alias: None,
        datatype: Some(datatype),
        shown,
        at: Some(6),
    }
}

/// Three things that happened.
fn log<'a>() -> [Entry<'a>; 3] {
    [
        Entry {
            number: 2,
            at: 3_000,
            place: Some(0),
            what: What::Lost,
        },
        Entry {
            number: 3,
            at: 4_000,
            place: Some(1),
            what: What::DeviceDied("rotor"),
        },
        Entry {
            number: 4,
            at: 5_000,
            place: None,
            what: What::TurnedAway(5),
        },
    ]
}

#[test]
fn a_view_has_what_changed_and_what_all_come_to(rt: HostRuntime) -> Result<(), Fail> {
    let alloc = rt.alloc();
    let mut pump = Story::new(1_000);
    pump.born(2_000);
    let mut nodes = Vec::new(alloc);
    let lost = valve(false);
    nodes.push(row(alloc, 0, "</script>\"", &lost, values(0, 8), 7))?;
    let mut other = row(alloc, 1, "pump", &pump, values(5, 5), 6);
    other.down.push("rotor")?;
    nodes.push(other)?;
    let text = view_text(alloc, HEAD, &nodes, &log(), 7, 2)?;
    assert_eq!(rt; text.as_str(), VIEW);
    Ok(())
}

#[test]
fn values_stand_as_numbers_and_texts(rt: HostRuntime) -> Result<(), Fail> {
    let alloc = rt.alloc();
    let story = valve(true);
    let mut row = row(alloc, 4, "valve", &story, values(12, 13), 1);
    row.down.push("rotor")?;
    let mut metrics = Vec::new(alloc);
    let mut wide = metric("wide", 8, Shown::Unsigned(u64::MAX));
    wide.alias = Some(7);
    metrics.push(wide)?;
    metrics.push(metric("when", 13, Shown::Unsigned(1_700_000_000_000)))?;
    metrics.push(metric("low", 4, Shown::Signed(i64::MIN)))?;
    metrics.push(metric("small", 3, Shown::Signed(-5)))?;
    metrics.push(metric("flag", 11, Shown::Flag(true)))?;
    metrics.push(metric("words", 12, Shown::Words("\n\\é")))?;
    metrics.push(metric("octets", 17, Shown::Octets(b"\x00\xff")))?;
    metrics.push(metric("half", 9, Shown::Float(0x3f00_0000)))?;
    metrics.push(metric("tenth", 10, Shown::Double(0x3fb9_9999_9999_999a)))?;
    metrics.push(metric("not", 10, Shown::Double(0x7ff8_0000_0000_0000)))?;
    metrics.push(metric("far", 9, Shown::Float(0xff80_0000)))?;
    metrics.push(metric("null", 3, Shown::Nothing))?;
    let mut deep = Vec::new(alloc);
    deep.push(Metric {
        name: "deep",
        alias: None,
        datatype: None,
        shown: Shown::Other,
        at: None,
    })?;
    let mut devices = Vec::new(alloc);
    devices.push(Device {
        name: "rotor",
        is_online: false,
        is_stale: true,
        metrics: deep,
    })?;
    let whole = Whole {
        row,
        holes: story.kept(),
        metrics,
        devices,
    };
    let text = node_text(alloc, &whole)?;
    assert_eq!(rt; text.as_str(), WHOLE);
    Ok(())
}

#[test]
fn a_node_that_says_nothing_is_silent(rt: HostRuntime) -> Result<(), Fail> {
    let mut pump = Story::new(1_000);
    pump.born(2_000);
    let rows = [
        (None, 9_000, Look::Current, 2_000),
        (Some(5_000), 6_999, Look::Current, 2_000),
        (Some(5_000), 7_000, Look::Silent, 7_000),
    ];
    for (patience, now, look, since) in rows {
        assert_eq!(rt; Look::at(&pump, patience, now), look);
        assert_eq!(rt; Look::since(&pump, patience, now), since);
    }
    pump.gap(7_500);
    assert_eq!(rt; Look::at(&pump, Some(5_000), 8_000), Look::Lost);
    Ok(())
}

#[test]
fn figures_have_a_line_for_each_node(rt: HostRuntime) -> Result<(), Fail> {
    let alloc = rt.alloc();
    let story = valve(true);
    let mut nodes = Vec::new(alloc);
    nodes.push(row(alloc, 0, "a\"b\\c\nd", &story, values(8, 8), 1))?;
    let text = metrics_text(alloc, HEAD, &nodes)?;
    let lines = [
        "# TYPE juldremm_host_connected gauge\njuldremm_host_connected 1\n",
        "juldremm_host_nodes{look=\"current\"} 1\n",
        "juldremm_host_nodes{look=\"lost\"} 0\n",
        "# TYPE juldremm_host_node_gaps_total counter\njuldremm_host_node_gaps_total{group=\"G\",node=\"a\\\"b\\\\c\\nd\"} 1\n",
        "juldremm_host_node_messages_missing_total{group=\"G\",node=\"a\\\"b\\\\c\\nd\"} 2\n",
        "juldremm_host_node_last_birth_seconds{group=\"G\",node=\"a\\\"b\\\\c\\nd\"} 4\n",
    ];
    for line in lines {
        assert!(rt; text.as_str().contains(line), "{line}");
    }
    Ok(())
}

/// What a request asks for.
fn asked(rt: &impl Abort, alloc: Global, request: &str) -> Result<Asked, AllocError> {
    let mut client = Client::new(alloc, 0);
    let (front, back) = request.as_bytes().split_at(request.len() / 2);
    assert_eq!(rt; client.hear(front)?, Asked::Nothing);
    client.hear(back)
}

#[test]
fn requests_ask_for_this(rt: HostRuntime) -> Result<(), Fail> {
    let rows = [
        (
            "GET / HTTP/1.1\r\nHost: 127.0.0.1:8080\r\n\r\n",
            Asked::Page,
        ),
        ("GET /view HTTP/1.1\r\nhost: localhost\r\n\r\n", Asked::View),
        (
            "GET /view?node=17 HTTP/1.1\r\nA: b\r\nHOST: localhost:1\r\n\r\n",
            Asked::Node(17),
        ),
        (
            "GET /view?node=17x HTTP/1.1\r\nHost: localhost:1\r\n\r\n",
            Asked::Elsewhere,
        ),
        (
            "GET /view?node=99999999999999999999 HTTP/1.1\r\nHost: localhost:1\r\n\r\n",
            Asked::Elsewhere,
        ),
        (
            "GET /events HTTP/1.1\r\nHost: 127.0.0.1\r\n\r\n",
            Asked::Events,
        ),
        (
            "GET /metrics HTTP/1.0\r\nHost: 127.0.0.1\r\n\r\n",
            Asked::Metrics,
        ),
        ("GET /text HTTP/1.1\r\nHost: 127.0.0.1\r\n\r\n", Asked::Text),
        (
            "GET /etc HTTP/1.1\r\nHost: 127.0.0.1\r\n\r\n",
            Asked::Elsewhere,
        ),
        (
            "GET / HTTP/1.1\r\nHost: 127.0.0.1.evil.example\r\n\r\n",
            Asked::Foreign,
        ),
        (
            "GET / HTTP/1.1\r\nHost: evil.example:8080\r\n\r\n",
            Asked::Foreign,
        ),
        ("GET / HTTP/1.0\r\n\r\n", Asked::Foreign),
        (
            "POST / HTTP/1.1\r\nHost: 127.0.0.1\r\n\r\n",
            Asked::Otherwise,
        ),
        (
            "HEAD / HTTP/1.1\r\nHost: 127.0.0.1\r\n\r\n",
            Asked::Otherwise,
        ),
        ("GET / HTTP/1.1\r\n\r\n", Asked::NoRequest(400)),
        ("GET / HTTP/9\r\n\r\n", Asked::NoRequest(400)),
    ];
    for (request, want) in rows {
        assert_eq!(rt; asked(&rt, rt.alloc(), request)?, want, "{request}");
    }
    Ok(())
}

#[test]
fn a_request_that_is_too_long_is_refused(rt: HostRuntime) -> Result<(), Fail> {
    let alloc = rt.alloc();
    let mut client = Client::new(alloc, 0);
    let long = Vec::from_elem(alloc, b'a', 8_000)?;
    assert_eq!(rt; client.hear(b"GET /")?, Asked::Nothing);
    assert_eq!(rt; client.hear(&long)?, Asked::Nothing);
    assert_eq!(rt; client.hear(&long)?, Asked::NoRequest(414));
    Ok(())
}

#[test]
fn an_answer_is_whole_and_the_connection_closed(rt: HostRuntime) -> Result<(), Fail> {
    let mut client = Client::new(rt.alloc(), 5);
    assert_eq!(rt; client.deadline(), Some(10_005));
    let _asked = client.hear(b"GET /x HTTP/1.1\r\nHost: localhost\r\n\r\n")?;
    assert_eq!(rt; client.stage(), Stage::Asked);
    client.answer(404, b"text/plain; charset=utf-8", b"not here\n", 7)?;
    let text = std::str::from_utf8(client.unwritten()).unwrap_or("");
    assert!(rt;
        text.starts_with("HTTP/1.1 404 Not Found\r\ncontent-type: text/plain; charset=utf-8\r\n")
    );
    assert!(rt; text.contains("\r\ncontent-security-policy: default-src 'none'; "));
    assert!(rt; text.contains("\r\ncontent-length: 9\r\n"));
    assert!(rt; text.contains("\r\nconnection: close\r\n"));
    assert!(rt; text.ends_with("\r\n\r\nnot here\n"));
    assert_eq!(rt;
        (client.is_over(7), client.deadline()),
        (false, Some(30_007))
    );
    client.wrote(client.unwritten().len(), 8);
    assert!(rt; client.is_over(8));
    Ok(())
}

#[test]
fn events_keep_their_distance(rt: HostRuntime) -> Result<(), Fail> {
    let mut client = Client::new(rt.alloc(), 0);
    let _asked = client.hear(b"GET /events HTTP/1.1\r\nHost: localhost\r\n\r\n")?;
    client.stream(1_000)?;
    assert_eq!(rt; client.next_event(true), None);
    client.wrote(client.unwritten().len(), 1_000);
    assert_eq!(rt; client.next_event(true), Some(1_000));
    client.tell("{}", 1_000)?;
    assert_eq!(rt; client.unwritten(), b"a\r\ndata: {}\n\n\r\n".as_slice());
    client.wrote(client.unwritten().len(), 1_000);
    assert_eq!(rt;
        (client.next_event(true), client.next_event(false)),
        (Some(1_250), Some(16_000))
    );
    assert!(rt; client.tell("{}", 1_249).is_err());
    client.tell("{}", 1_250)?;
    assert_eq!(rt; client.next_event(true), None);
    Ok(())
}

#[test]
fn the_page_is_whole(rt: HostRuntime) {
    assert!(rt; page().starts_with("<!doctype html>\n<html lang=\"en\">\n"));
    assert!(rt; page().ends_with("</html>\n"));
}
